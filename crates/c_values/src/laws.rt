//! What the definitions of the arithmetic mean, in laws. Each function is empty: its contract is the law.

ghost use Rattle.std.specs.Prelude.{◌≡◌, ◌↔◌, ◌⊎◌, ◌<◌, ◌-◌, ◌+◌, ◌%◌, ℕ, ℤ, pos, ◌*ℤ◌, min, max, bit_and, bit_or, bit_xor, IsTrue};
ghost use Rattle.cbi_base.specs.declared.scalar.Kind.{Kind};
ghost use Rattle.cbi_base.specs.declared.operators.Binary.{Binary};
ghost use Rattle.cbi_base.specs.declared.operators.Unary.{Unary};
ghost use Rattle.cbi_base.specs.declared.scalar.Scalar.{Scalar};
ghost use Rattle.cbi_base.specs.declared.trap.Trap.{Trap};
ghost use Rattle.cbi_base.specs.Words.{wrapped_value, LiesIn, fitted_value, quotient, remainder, left_shift, right_shift, two_to, bitwise_value, complement};
ghost use Rattle.cbi_base.specs.Words.{is_promoted};
ghost use Rattle.cbi_base.specs.Words.{operator_applied, applied_to_one, converted_number, truth_of};
ghost use Rattle.c_values.specs.Laws.{IsModulo, IsDivision, IsLeastByMinusOne, IsRoundedDown, bit_of};

/// A conversion gives the one value of the kind's range that differs from the number by a multiple of the kind's size
/// (C99 6.3.1.3), so a number that the kind holds stays as it is.
pub fn conversion_laws()
    ensures is_modulo { (kind : Kind) (exact : ℤ) → IsModulo kind exact (wrapped_value kind exact) }
    ensures is_alone { (kind : Kind) (exact value : ℤ)
        → IsModulo kind exact value → value ≡ wrapped_value kind exact }
    ensures stays { (kind : Kind) (value : ℤ) → LiesIn kind value → wrapped_value kind value ≡ value }
{}

/// Sums, differences, products and negations are the exact result modulo the kind's size. Those of `int` are the exact
/// result itself, and trap Overflow exactly where `int` can't hold it.
pub fn result_laws()
    ensures is_modulo { (kind : Kind) (exact value : ℤ)
        → fitted_value kind exact ≡ Ok value → IsModulo kind exact value }
    ensures int_is_exact { (exact value : ℤ) → fitted_value Kind.Int exact ≡ Ok value → value ≡ exact }
    ensures int_overflow { (exact : ℤ)
        → (fitted_value Kind.Int exact ≡ Err Trap.Overflow) ↔ ¬ (LiesIn Kind.Int exact) }
{}

/// Quotient and remainder make the dividend (C99 6.5.5p6). They trap exactly where the divisor is zero, and where the
/// least `int` is divided by -1.
pub fn division_laws()
    ensures division { (kind : Kind) (left right value rest : ℤ)
        → quotient kind left right ≡ Ok value → remainder kind left right ≡ Ok rest
        → IsDivision left right value rest }
    ensures quotient_by_zero { (kind : Kind) (left right : ℤ)
        → (quotient kind left right ≡ Err Trap.Divide) ↔ (right ≡ pos 0) }
    ensures remainder_by_zero { (kind : Kind) (left right : ℤ)
        → (remainder kind left right ≡ Err Trap.Divide) ↔ (right ≡ pos 0) }
    ensures quotient_overflow { (left right : ℤ) → LiesIn Kind.Int left
        → (quotient Kind.Int left right ≡ Err Trap.Overflow) ↔ IsLeastByMinusOne left right }
    ensures remainder_overflow { (left right : ℤ) → LiesIn Kind.Int left
        → (remainder Kind.Int left right ≡ Err Trap.Overflow) ↔ IsLeastByMinusOne left right }
{}

/// A left shift multiplies by 2 to the count, modulo the kind's size and for `int` exactly; a right shift divides by it,
/// rounded down (C99 6.5.7).
pub fn shift_laws()
    ensures left { (kind : Kind) (left count value : ℤ)
        → left_shift kind left count ≡ Ok value → IsModulo kind (left *ℤ two_to count) value }
    ensures int_is_exact { (left count value : ℤ)
        → left_shift Kind.Int left count ≡ Ok value → value ≡ left *ℤ two_to count }
    ensures right { (left count value : ℤ)
        → right_shift left count ≡ Ok value → IsRoundedDown left (two_to count) value }
{}

/// Each of the 32 bits of the answer is made of the operands' bits at its place (C99 6.5.3.3, 6.5.10 to 6.5.12).
pub fn bit_laws()
    ensures and { (kind : Kind) → IsTrue (is_promoted kind) → (left right : ℤ) (place : ℕ)
        → bit_of (bitwise_value bit_and kind left right) place ≡ min (bit_of left place) (bit_of right place) }
    ensures or { (kind : Kind) → IsTrue (is_promoted kind) → (left right : ℤ) (place : ℕ)
        → bit_of (bitwise_value bit_or kind left right) place ≡ max (bit_of left place) (bit_of right place) }
    ensures xor { (kind : Kind) → IsTrue (is_promoted kind) → (left right : ℤ) (place : ℕ)
        → bit_of (bitwise_value bit_xor kind left right) place ≡ (bit_of left place + bit_of right place) % 2 }
    ensures complement { (kind : Kind) → IsTrue (is_promoted kind) → (value : ℤ) (place : ℕ)
        → place < 32 → bit_of (complement kind value) place ≡ 1 - bit_of value place }
{}

/// Trap Undefined comes exactly where an operand is undefined, whatever the other one is.
pub fn trap_laws()
    ensures binary { (op : Binary) (left right : Scalar)
        → (operator_applied op left right ≡ Err Trap.Undefined)
        ↔ ((left ≡ Scalar.Undefined) ⊎ (right ≡ Scalar.Undefined)) }
    ensures unary { (op : Unary) (value : Scalar)
        → (applied_to_one op value ≡ Err Trap.Undefined) ↔ (value ≡ Scalar.Undefined) }
    ensures conversion { (kind : Kind) (value : Scalar)
        → (converted_number kind value ≡ Err Trap.Undefined) ↔ (value ≡ Scalar.Undefined) }
    ensures truth { (value : Scalar)
        → (truth_of value ≡ Err Trap.Undefined) ↔ (value ≡ Scalar.Undefined) }
{}
