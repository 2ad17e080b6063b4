ghost use Rattle.std.specs.Prelude.{◌≡◌, ◌↔◌};
ghost use Rattle.c_syntax.specs.declared.expr.Expr.{Expr};
ghost use Rattle.c_syntax.specs.declared.expr.Link.{Link};
ghost use Rattle.c_syntax.specs.declared.expr.PostfixOperator.{PostfixOperator};
ghost use Rattle.c_syntax.specs.declared.statement.Entry.{Entry};
ghost use Rattle.c_syntax.specs.declared.statement.Statement.{Statement};
ghost use Rattle.c_syntax.specs.ExprTree as e;
ghost use Rattle.c_syntax.specs.StatementTree as s;
ghost use Rattle.c_syntax.specs.Plain.{plain_expr, plain_link, plain_postfix, plain_entry, plain_statement};
ghost use Rattle.c_syntax.specs.Same.{SameExpr, SameLink, SamePostfix, SameEntry, SameStatement};

/// Two values have equal plain trees exactly where they are the same but for where in memory they lie, level by level.
pub fn plain_trees_lose_nothing()
    ensures exprs { (x y : Expr) → (plain_expr x ≡ plain_expr y) ↔ SameExpr x y }
    ensures links { (x y : Link) → (plain_link x e.no_links ≡ plain_link y e.no_links) ↔ SameLink x y }
    ensures operators { (x y : PostfixOperator) → (plain_postfix x e.no_postfix ≡ plain_postfix y e.no_postfix) ↔ SamePostfix x y }
    ensures statements { (x y : Statement) → (plain_statement x ≡ plain_statement y) ↔ SameStatement x y }
    ensures entries { (x y : Entry) → (plain_entry x s.no_entries ≡ plain_entry y s.no_entries) ↔ SameEntry x y }
{}
