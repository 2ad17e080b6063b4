ghost use Rattle.std.specs.Prelude.{◌≡◌, ◌++◌, ◌∷◌, decimal, OnOk};
ghost use Rattle.std.specs.Fmt.{signed_decimal};
ghost use Rattle.cbi_base.specs.Text.{line_with_newline, line_of_fields};
ghost use Rattle.flow.specs.Spelling.{binary_word, word_and_number, kind_word, order_word, unary_word, want_word};

use cbi_base::{Binary, Kind, Memory, Order, Unary, Want, push_decimal};

/// Appends a space and a decimal.
pub fn push_number(out: &mut Vec<u8>, number: u64) -> Result<(), Memory>
    ensures { OnOk result (out.new.items ≡ out.old.items ++ 32 ∷ decimal number) }
{
    out.push(b' ')?;
    push_decimal(out, u128::from(number))
}

/// Appends a space and a field.
pub fn push_field(out: &mut Vec<u8>, field: &[u8]) -> Result<(), Memory>
    ensures { OnOk result (out.new.items ≡ out.old.items ++ 32 ∷ field.now) }
{
    out.push(b' ')?;
    out.extend_from_slice(field)?;
    Ok(())
}

/// Appends a decimal with its sign.
pub fn push_signed(out: &mut Vec<u8>, value: i64) -> Result<(), Memory>
    ensures { OnOk result (out.new.items ≡ out.old.items ++ signed_decimal value) }
{
    if value < 0 {
        out.push(b'-')?;
    }
    push_decimal(out, u128::from(value.unsigned_abs()))
}

/// The letter of a kind.
pub fn kind_word(kind: Kind) -> &'static [u8]
    ensures { result.now ≡ kind_word kind }
{
    match kind {
        Kind::Char => b"c",
        Kind::Int => b"i",
        Kind::Unsigned => b"u",
    }
}

/// The letter of what a load wants.
pub fn want_word(want: Want) -> &'static [u8]
    ensures { result.now ≡ want_word want }
{
    match want {
        Want::Number { kind } => kind_word(kind),
        Want::Pointer => b"p",
    }
}

/// The word of an operation on two numbers.
pub fn binary_word(op: Binary) -> &'static [u8]
    ensures { result.now ≡ binary_word op }
{
    match op {
        Binary::Add => b"add",
        Binary::Sub => b"sub",
        Binary::Mul => b"mul",
        Binary::Div => b"div",
        Binary::Rem => b"rem",
        Binary::Shl => b"shl",
        Binary::Shr => b"shr",
        Binary::And => b"and",
        Binary::Or => b"or",
        Binary::Xor => b"xor",
        Binary::Lt => b"lt",
        Binary::Le => b"le",
        Binary::Gt => b"gt",
        Binary::Ge => b"ge",
        Binary::Eq => b"eq",
        Binary::Ne => b"ne",
    }
}

/// The word of a comparison.
pub fn order_word(op: Order) -> &'static [u8]
    ensures { result.now ≡ order_word op }
{
    match op {
        Order::Lt => b"lt",
        Order::Le => b"le",
        Order::Gt => b"gt",
        Order::Ge => b"ge",
        Order::Eq => b"eq",
        Order::Ne => b"ne",
    }
}

/// The word of an operation on one value.
pub fn unary_word(op: Unary) -> &'static [u8]
    ensures { result.now ≡ unary_word op }
{
    match op {
        Unary::Neg => b"neg",
        Unary::Com => b"com",
        Unary::Not => b"not",
    }
}

/// Appends the line that says how many items a list has.
pub fn push_count(out: &mut Vec<u8>, word: &[u8], count: usize) -> Result<(), Memory>
    ensures { OnOk result (out.new.items ≡ out.old.items ++ line_with_newline (line_of_fields (word_and_number word.now count))) }
{
    out.extend_from_slice(word)?;
    push_number(out, count as u64)?;
    out.push(b'\n')?;
    Ok(())
}
