ghost use Rattle.std.specs.Prelude.{◌≡◌};
ghost use Rattle.c_syntax.specs.FirstToken.{first_token, first_of};
ghost use Rattle.c_syntax.specs.Plain.{plain_expr, plain_exprs};

use crate::expr::Expr;

impl Expr {
    ghost use Rattle.std.specs.Prelude.{◌≡◌, ℕ};
    ghost use Rattle.c_syntax.specs.FirstToken.{first_token};
    ghost use Rattle.c_syntax.specs.Place.{ExprAt};
    ghost use Rattle.c_syntax.specs.Plain.{plain_expr};

    /// The index of the expression's first token.
    #[tactic(auto, using(crate::proofs::FirstToken::first_token_is))]
    pub fn first_token(&self) -> u32
        ensures value { result ≡ first_token (plain_expr self.now) }
        ensures place { (at : ℕ) → ExprAt at (plain_expr self.now) → result ≡ at }
    {
        first_token(self)
    }
}

#[cycle(first_token)]
fn first_token(expr: &Expr) -> u32
    ensures { result ≡ first_token (plain_expr expr.now) }
{
    match expr {
        Expr::Comma { token, operands } => first_of(*token, operands.as_slice()),
        Expr::Assign { target, .. } => first_token(target),
        Expr::Conditional { condition, .. } => first_token(condition),
        Expr::Chain { first, .. } => first_token(first),
        Expr::Postfix { primary, .. } => first_token(primary),
        Expr::Cast { token, .. }
        | Expr::Prefix { token, .. }
        | Expr::SizeOfType { token, .. }
        | Expr::Name { token, .. }
        | Expr::Call { token, .. }
        | Expr::Constant { token, .. }
        | Expr::Strings { token, .. }
        | Expr::Paren { token, .. }
        | Expr::Null { token }
        | Expr::EndOfFile { token } => *token,
    }
}

#[cycle(first_token)]
fn first_of(token: u32, exprs: &[Expr]) -> u32
    ensures { result ≡ first_of token (plain_exprs exprs.now) }
{
    match exprs.first() {
        None => token,
        Some(expr) => first_token(expr),
    }
}
