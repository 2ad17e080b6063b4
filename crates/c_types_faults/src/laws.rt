ghost use Rattle.std.specs.Prelude.{◌≡◌, ℕ, Bool, Some};
ghost use Rattle.c_types_rules.specs.declared.fault.FaultKind.{FaultKind};
ghost use Rattle.c_types_rules.specs.declared.operand.Operand.{Operand};
ghost use Rattle.c_types_rules.specs.Words.{TypeTree, fault_number};
ghost use Rattle.c_syntax.specs.Words.{ExprTree, ItemTree, SourceTree, StatementTree, IsShaped};
ghost use Rattle.c_types.specs.Fault.{fault_of, walk_tree};
ghost use Rattle.c_types_expressions.specs.Words.{walk_expr, Fine, Faulty};
ghost use Rattle.c_types_expressions.specs.declared.walk.Walk.{Walk};
ghost use Rattle.c_types_faults.specs.Agrees.{Agrees};
ghost use Rattle.c_types_faults.specs.Context.{Context};
ghost use Rattle.c_types_faults.specs.ExprBreaks.{Breaks};
ghost use Rattle.c_types_faults.specs.Exprs.{IsOperand};
ghost use Rattle.c_types_faults.specs.Items.{ItemBreaks};
ghost use Rattle.c_types_faults.specs.Statements.{StatementBreaks};
ghost use Rattle.c_types_faults.specs.Texts.{TextBreaks, TextKeepsRules};
ghost use Rattle.c_types_faults.specs.Known.{Known};

/// Where identifiers denote what the walk knows of them: an expression at which the walk meets a fault breaks a rule of that kind
/// at that token, and one without a fault is the operand that the walk takes it for.
pub fn a_refused_expression_breaks_a_rule()
    ensures refused { (k : Known) (w : Walk) (x : ExprTree) (kind : FaultKind) (at : ℕ) → Agrees k w → walk_expr x w ≡ Faulty kind at → Breaks k x kind at }
    ensures accepted { (k : Known) (w v : Walk) (x : ExprTree) (d : Operand) → Agrees k w → walk_expr x w ≡ Fine d v → IsOperand k x d }
{}

/// An expression is one operand at most, and one that is an operand breaks no rule. So the walk meets a fault in exactly those
/// expressions that break a rule.
pub fn an_operand_breaks_no_rule()
    ensures single { (k : Known) (x : ExprTree) (d e : Operand) → IsOperand k x d → IsOperand k x e → d ≡ e }
    ensures silent { (k : Known) (x : ExprTree) (d : Operand) (kind : FaultKind) (token : ℕ) → IsOperand k x d → Breaks k x kind token → ⊥ }
{}

/// A text at which the walk meets a fault breaks a rule of C or of the dialect, of that kind and at that token: one of its items
/// does, by the declarations that stand before it, or it has no `main`, or it calls a function that it doesn't define. So does what
/// `check` tells of it.
pub fn a_refused_text_breaks_a_rule()
    ensures refused { (t : SourceTree) (kind : FaultKind) (token : ℕ) → walk_tree t ≡ Faulty kind token → TextBreaks t kind token }
    ensures told { (t : SourceTree) (n at : ℕ) → fault_of t ≡ Some (n, at) → (kind : FaultKind) × ((fault_number kind ≡ n) × TextBreaks t kind at) }
{}

/// A tree of the grammar without a fault keeps the rules, and a text that keeps them breaks none. So of the trees of the grammar
/// exactly those are refused that break a rule.
pub fn an_accepted_text_keeps_the_rules()
    ensures fits { (t : SourceTree) (known : Walk) → IsShaped t → walk_tree t ≡ Fine tt known → TextKeepsRules t }
    ensures silent { (t : SourceTree) (kind : FaultKind) (token : ℕ) → TextKeepsRules t → TextBreaks t kind token → ⊥ }
{}

/// The rule that an expression breaks first is one: of one kind, at one token. Where identifiers denote what the walk knows of them, the
/// walk meets that fault. A statement breaks one rule first too, and so does an item, by the declarations that stand before it.
pub fn a_part_has_one_first_fault()
    ensures expression { (k : Known) (x : ExprTree) (i j : FaultKind) (a b : ℕ) → Breaks k x i a → Breaks k x j b → (i ≡ j) × (a ≡ b) }
    ensures told { (k : Known) (w : Walk) (x : ExprTree) (kind : FaultKind) (at : ℕ) → Agrees k w → Breaks k x kind at → walk_expr x w ≡ Faulty kind at }
    ensures statement { (gives : TypeTree) (c : Context) (looping : Bool) (x : StatementTree) (i j : FaultKind) (a b : ℕ)
        → StatementBreaks gives c looping x i a → StatementBreaks gives c looping x j b → (i ≡ j) × (a ≡ b) }
    ensures item { (c : Context) (x : ItemTree) (i j : FaultKind) (a b : ℕ) → ItemBreaks c x i a → ItemBreaks c x j b → (i ≡ j) × (a ≡ b) }
{}

/// A tree of the grammar breaks one rule first, by the rules alone: of one kind, at one token. That is what `check` tells of it, so of
/// its refusals the walk need not be believed.
pub fn a_text_has_one_first_fault()
    ensures single { (t : SourceTree) (i j : FaultKind) (a b : ℕ) → IsShaped t → TextBreaks t i a → TextBreaks t j b → (i ≡ j) × (a ≡ b) }
    ensures told { (t : SourceTree) (kind : FaultKind) (at : ℕ) → IsShaped t → TextBreaks t kind at → fault_of t ≡ Some (fault_number kind, at) }
{}
