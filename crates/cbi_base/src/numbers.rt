ghost use Rattle.std.specs.Prelude.{◌≡◌};
ghost use Rattle.cbi_base.specs.Numbers.{number_of, one_number, two_numbers, greatest_u32};

use crate::decimal::read_decimal;
use crate::text::Fields;

/// The number of 32 bits whose decimal the field is.
pub fn read_number(field: &[u8]) -> Option<u32>
    ensures { result ≡ number_of greatest_u32 field.now }
{
    match read_decimal(field, 4294967295) {
        None => None,
        Some(number) => Some(number as u32),
    }
}

/// The number in the one field that is left.
pub fn one_number(fields: &mut Fields<'_>) -> Option<u32>
    ensures { result ≡ one_number fields.old }
{
    let number = read_number(fields.next()?)?;
    if !fields.is_empty() {
        return None;
    }
    Some(number)
}

/// The numbers in the two fields that are left.
pub fn two_numbers(fields: &mut Fields<'_>) -> Option<(u32, u32)>
    ensures { result ≡ two_numbers fields.old }
{
    let first = read_number(fields.next()?)?;
    let second = one_number(fields)?;
    Some((first, second))
}
