ghost use Rattle.std.specs.Prelude.{ℕ, decimal};
ghost use Rattle.std.specs.Fmt.{signed_decimal};
ghost use Rattle.flow.specs.Predicates.{partner_text, text_of_kind};
ghost use Rattle.ranking.specs.Plain.{IsPlainField};

use cbi_base::Name;
use flow::{Partner, SiteKind};

/// A name needs no quotes.
pub fn name_is_plain(name: &Name)
    ensures { IsPlainField name.now }
{
    let _bytes = name.bytes();
}

/// The decimal of a number needs none.
pub fn number_is_plain(number: u64)
    ensures { IsPlainField (decimal number) }
{}

fn constant_is_plain(value: i64)
    ensures { IsPlainField (signed_decimal value) }
{}

// What a value is compared with needs none.
fn partner_is_plain(partner: &Partner)
    ensures { IsPlainField (partner_text partner.now) }
{
    match partner {
        Partner::Variable { name, .. } => name_is_plain(name),
        Partner::Constant { value } => constant_is_plain(*value),
    }
}

/// The texts of a site's predicates need none.
pub fn texts_are_plain(kind: &SiteKind)
    ensures { (number : ℕ) → IsPlainField (text_of_kind kind.now number) }
{
    match kind {
        SiteKind::Branch { .. } => {}
        SiteKind::Return { callee } => name_is_plain(callee),
        SiteKind::Pair {
            target,
            partner,
            ..
        } => {
            name_is_plain(target);
            partner_is_plain(partner);
        }
    }
}
