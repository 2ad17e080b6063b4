ghost use Rattle.std.specs.Prelude.{◌≡◌, ◌++◌, ◌∷◌, [], OnOk, option_map};
ghost use Rattle.c_syntax.specs.Plain.{plain_expr, plain_exprs, plain_links, plain_operators};
ghost use Rattle.sites.specs.declared.spots.Spot.TheVariants as spot;
ghost use Rattle.sites.specs.SitesAt.{spot_token};
ghost use Rattle.sites.specs.Spots.{
  change_spots,
  expr_spots,
  exprs_spots,
  is_sizeof,
  is_step,
  joined_spots,
  links_spots,
  named_token,
  part_spots,
  postfix_spots,
  stepped_spots,
};

use c_syntax::{Expr, Link, PostfixOperator, PrefixOperator, Sign};
use cbi_base::{Memory, Name, Seq};
use flow::BranchWord;

/// What a function's body holds for its sites: the constructs at which sites may stand, by their tokens, and the constants.
#[derive(Drop)]
pub enum Spot {
    /// A condition has its truth.
    Branch { token: u32, word: BranchWord },
    /// A function is called, whose name stands at the token.
    Call { token: u32, name: Name },
    /// A variable gets a new value. Its name stands at the token `target`.
    Change { token: u32, target: u32 },
    /// A constant has this value.
    Constant { value: i64 },
}

/// The token at which the sites of a construct stand.
pub fn token_of(spot: &Spot) -> Option<u32>
    ensures { result ≡ spot_token spot.now }
{
    match spot {
        Spot::Branch { token, .. } | Spot::Call { token, .. } => Some(*token),
        Spot::Change { token, .. } => Some(*token),
        Spot::Constant { .. } => None,
    }
}

/// The token of a name that stands alone.
fn named(expr: &Expr) -> Option<u32>
    ensures { result ≡ named_token (plain_expr expr.now) }
{
    match expr {
        Expr::Name { token, .. } => Some(*token),
        Expr::Comma { .. } | Expr::Assign { .. } | Expr::Conditional { .. } => None,
        Expr::Chain { .. } | Expr::Cast { .. } | Expr::Prefix { .. } => None,
        Expr::SizeOfType { .. } | Expr::Postfix { .. } | Expr::Call { .. } => None,
        Expr::Constant { .. } | Expr::Strings { .. } | Expr::Paren { .. } => None,
        Expr::Null { .. } | Expr::EndOfFile { .. } => None,
    }
}

/// A variable that is named gets a new value.
pub fn push_change(spots: &mut Seq<Spot>, token: u32, target: Option<u32>) -> Result<(), Memory>
    ensures { OnOk result (spots.new ≡ spots.old ++ change_spots token target) }
{
    match target {
        None => Ok(()),
        Some(target) => spots.push(Spot::Change { token, target }),
    }
}

/// Whether the operator gives its operand a new value.
fn is_step(operator: PrefixOperator) -> bool
    ensures { result ≡ is_step operator }
{
    matches!(
        operator,
        PrefixOperator::Increment | PrefixOperator::Decrement
    )
}

/// Whether the operator doesn't evaluate its operand.
fn is_sizeof(operator: PrefixOperator) -> bool
    ensures { result ≡ is_sizeof operator }
{
    matches!(operator, PrefixOperator::SizeOf)
}

/// What an operator before its operand is.
fn push_step(
    spots: &mut Seq<Spot>,
    operator: PrefixOperator,
    token: u32,
    target: Option<u32>,
) -> Result<(), Memory>
    ensures { OnOk result (spots.new ≡ spots.old ++ stepped_spots operator token target) }
{
    if is_step(operator) {
        return push_change(spots, token, target);
    }
    Ok(())
}

/// What an operator of a chain is.
fn push_join(spots: &mut Seq<Spot>, token: u32, sign: Sign) -> Result<(), Memory>
    ensures { OnOk result (spots.new ≡ spots.old ++ joined_spots token sign) }
{
    let word = match sign {
        Sign::AndAnd => BranchWord::AndAnd,
        Sign::OrOr => BranchWord::OrOr,
        _ => return Ok(()),
    };
    spots.push(Spot::Branch { token, word })
}

/// Adds a branch.
pub fn push_branch(spots: &mut Seq<Spot>, token: u32, word: BranchWord) -> Result<(), Memory>
    ensures { OnOk result (spots.new ≡ spots.old ++ spot.Branch token word ∷ []) }
{
    spots.push(Spot::Branch { token, word })
}

/// Adds the call of the function with the name.
fn push_call(spots: &mut Seq<Spot>, token: u32, name: &Name) -> Result<(), Memory>
    ensures { OnOk result (spots.new ≡ spots.old ++ spot.Call token name.now ∷ []) }
{
    let name = name.try_clone()?;
    spots.push(Spot::Call { token, name })
}

/// Adds a constant.
fn push_constant(spots: &mut Seq<Spot>, value: i64) -> Result<(), Memory>
    ensures { OnOk result (spots.new ≡ spots.old ++ spot.Constant value ∷ []) }
{
    spots.push(Spot::Constant { value })
}

/// Adds what an expression holds.
#[cycle(push_expr)]
pub fn push_expr(spots: &mut Seq<Spot>, expr: &Expr) -> Result<(), Memory>
    ensures { OnOk result (spots.new ≡ spots.old ++ expr_spots (plain_expr expr.now)) }
{
    match expr {
        Expr::Comma { operands, .. } => push_exprs(spots, operands.as_slice()),
        Expr::Assign {
            token,
            target,
            value,
            ..
        } => {
            push_expr(spots, target)?;
            push_change(spots, *token, named(target))?;
            push_expr(spots, value)
        }
        Expr::Conditional {
            token,
            condition,
            first,
            second,
        } => {
            push_expr(spots, condition)?;
            push_branch(spots, *token, BranchWord::Question)?;
            push_expr(spots, first)?;
            push_expr(spots, second)
        }
        Expr::Chain { first, links, .. } => {
            push_expr(spots, first)?;
            push_links(spots, links.as_slice())
        }
        Expr::Cast { operand, .. } => push_expr(spots, operand),
        Expr::Prefix {
            token,
            operator,
            operand,
        } => {
            if is_sizeof(*operator) {
                return Ok(());
            }
            push_step(spots, *operator, *token, named(operand))?;
            push_expr(spots, operand)
        }
        Expr::Postfix { primary, operators } => {
            push_expr(spots, primary)?;
            push_postfix(spots, named(primary), operators.as_slice())
        }
        Expr::Call {
            token,
            name,
            arguments,
        } => {
            push_call(spots, *token, name)?;
            push_exprs(spots, arguments.as_slice())
        }
        Expr::Constant { value, .. } => push_constant(spots, *value),
        Expr::Paren { inner, .. } => push_expr(spots, inner),
        Expr::SizeOfType { .. } | Expr::Name { .. } | Expr::Strings { .. } => Ok(()),
        Expr::Null { .. } | Expr::EndOfFile { .. } => Ok(()),
    }
}

/// Adds what several expressions hold.
#[cycle(push_expr)]
pub fn push_exprs(spots: &mut Seq<Spot>, exprs: &[Expr]) -> Result<(), Memory>
    ensures { OnOk result (spots.new ≡ spots.old ++ exprs_spots (plain_exprs exprs.now)) }
{
    for expr in exprs {
        push_expr(spots, expr)?;
    }
    Ok(())
}

/// Adds what the operators of a chain are and hold.
#[cycle(push_expr)]
fn push_links(spots: &mut Seq<Spot>, links: &[Link]) -> Result<(), Memory>
    ensures { OnOk result (spots.new ≡ spots.old ++ links_spots (plain_links links.now)) }
{
    for link in links {
        push_join(spots, link.token, link.sign)?;
        push_expr(spots, &link.operand)?;
    }
    Ok(())
}

/// Adds what the operators behind an operand are and hold.
#[cycle(push_expr)]
fn push_postfix(
    spots: &mut Seq<Spot>,
    target: Option<u32>,
    operators: &[PostfixOperator],
) -> Result<(), Memory>
    ensures { OnOk result (spots.new ≡ spots.old ++ postfix_spots target (plain_operators operators.now)) }
{
    let mut before = target;
    for operator in operators {
        match operator {
            PostfixOperator::Index { index, .. } => push_expr(spots, index)?,
            PostfixOperator::Member { .. } | PostfixOperator::Arrow { .. } => {}
            PostfixOperator::Increment { token } | PostfixOperator::Decrement { token } => {
                push_change(spots, *token, before)?
            }
        }
        before = None;
    }
    Ok(())
}

/// Adds what an expression holds that may be left out.
pub fn push_part(spots: &mut Seq<Spot>, part: &Option<Expr>) -> Result<(), Memory>
    ensures { OnOk result (spots.new ≡ spots.old ++ part_spots (option_map plain_expr part.now)) }
{
    match part {
        None => Ok(()),
        Some(expr) => push_expr(spots, expr),
    }
}
