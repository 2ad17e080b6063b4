ghost use Rattle.std.specs.Prelude.{◌≡◌, ℕ, ℤ, ◌≤◌, ◌^◌, ◌<◌, ◌++◌, decimal, IfSome, Some, OnOk, OnErr};
ghost use Rattle.std.specs.Fmt.{signed_decimal};
ghost use Rattle.std.specs.Int.{w64};
ghost use Rattle.std.specs.Prelude.{FitsSigned};
ghost use Rattle.cbi_base.specs.Numbers.{number_of, signed_of};

use crate::memory::Memory;
use itoa::Buffer;

// What std reads of a text, which takes more than one spelling of a number. It takes a decimal for what it is.
fn parse_unsigned(text: &[u8]) -> Option<u64>
    ensures { (n : ℕ) → n < 2 ^ 64 → text.now ≡ decimal n → result ≡ Some n }
{
    let Ok(digits) = str::from_utf8(text) else {
        return None;
    };
    match digits.parse::<u64>() {
        Ok(number) => Some(number),
        Err(_) => None,
    }
}

fn parse_signed(text: &[u8]) -> Option<i64>
    ensures { (z : ℤ) → FitsSigned w64 z → text.now ≡ signed_decimal z → result ≡ Some z }
{
    let Ok(digits) = str::from_utf8(text) else {
        return None;
    };
    match digits.parse::<i64>() {
        Ok(number) => Some(number),
        Err(_) => None,
    }
}

// The number that std reads, where the text is its one spelling.
fn exact_unsigned(text: &[u8], max: u64) -> Option<u64>
    ensures found { IfSome result (λ n. (text.now ≡ decimal n) × (n ≤ max)) }
    ensures only { (n : ℕ) → text.now ≡ decimal n → n ≤ max → result ≡ Some n }
{
    let number = parse_unsigned(text)?;
    if number > max {
        return None;
    }
    let mut buffer = Buffer::new();
    if buffer.format(number).as_bytes() == text {
        Some(number)
    } else {
        None
    }
}

fn exact_signed(text: &[u8]) -> Option<i64>
    ensures found { IfSome result (λ z. text.now ≡ signed_decimal z) }
    ensures fits { IfSome result (FitsSigned w64) }
    ensures only { (z : ℤ) → FitsSigned w64 z → text.now ≡ signed_decimal z → result ≡ Some z }
{
    let number = parse_signed(text)?;
    let mut buffer = Buffer::new();
    if buffer.format(number).as_bytes() == text {
        Some(number)
    } else {
        None
    }
}

/// The number whose decimal the text is, where it is at most `max`: no sign, no leading zero, and `0` for zero.
pub fn read_decimal(text: &[u8], max: u64) -> Option<u64>
    ensures value { result ≡ number_of max text.now }
    ensures found { IfSome result (λ n. (text.now ≡ decimal n) × (n ≤ max)) }
    ensures only { (n : ℕ) → text.now ≡ decimal n → n ≤ max → result ≡ Some n }
{
    exact_unsigned(text, max)
}

/// The signed number whose decimal the text is: a `-` first where it is negative, no leading zero, and `0` for zero.
pub fn read_signed(text: &[u8]) -> Option<i64>
    ensures value { result ≡ signed_of text.now }
    ensures found { IfSome result (λ z. text.now ≡ signed_decimal z) }
    ensures fits { IfSome result (FitsSigned w64) }
    ensures only { (z : ℤ) → FitsSigned w64 z → text.now ≡ signed_decimal z → result ≡ Some z }
{
    exact_signed(text)
}

/// Appends the decimal of the number. After `Memory` the bytes are as before.
pub fn push_decimal(out: &mut Vec<u8>, value: u128) -> Result<(), Memory>
    ensures ok { OnOk result (out.new.items ≡ out.old.items ++ decimal value) }
    ensures err { OnErr result (out.new.items ≡ out.old.items) }
{
    let mut buffer = Buffer::new();
    out.extend_from_slice(buffer.format(value).as_bytes())?;
    Ok(())
}
