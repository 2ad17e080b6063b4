ghost use Rattle.std.specs.Prelude.{◌≡◌, ◌≤◌, ◌/◌, pos, ◌≤ℤ◌, IfSome};
ghost use Rattle.cbi_base.specs.Words.{LiesIn, IsInRange, truth_of, cell_limit, is_wanted, object_limit};
ghost use Rattle.c_store.specs.Held.{IsHeldScalar};
ghost use Rattle.c_store.specs.Pair.{tag_of};
ghost use Rattle.c_store.specs.Place.{place_from_bits};
ghost use Rattle.c_store.specs.Word.{is_undefined, int_of, value_of_number};

use cbi_base::{Kind, Scalar, Trap, Want};
use std::marker::Model;

/// The first object's number that an `i64` can't hold.
const HALF: u64 = 1 << 63;

/// The place that two words hold.
fn place_in(tag: u64, bits: i64) -> Scalar
    requires tag { tag / 256 ≤ cell_limit }
    requires bits { pos 0 ≤ℤ bits }
    ensures { result ≡ place_from_bits tag bits }
{
    let object = if tag % 256 == 5 {
        bits as u64
    } else {
        HALF + bits as u64
    };
    Scalar::Place {
        object,
        offset: (tag / 256) as u32,
    }
}

/// What the first word is of a number of a kind.
#[inline(always)]
fn tag_of(kind: Kind) -> u64
    ensures { result ≡ tag_of kind }
{
    match kind {
        Kind::Char => 2,
        Kind::Int => 3,
        Kind::Unsigned => 4,
    }
}

/// What a cell or an operand holds. It is a `Scalar` in two words of 64 bits, each written and read whole: an enum of three
/// fields is written in pieces and read back at once, which costs a run half of its time. So the first word packs what the
/// scalar is and the offset of a place; contracts see the scalar alone.
#[derive(Clone, Copy)]
pub struct Word {
    tag: u64,
    bits: i64,
}

impl Model for Word {
    ghost use Rattle.cbi_base.specs.declared.scalar.Scalar.{Scalar};
    ghost use Rattle.cbi_base.specs.contracts.scalar.Scalar as scalar;

    ghost Value = { Scalar };

    ghost coded = { scalar.the_row.coded };

    ghost use Rattle.c_store.specs.Pair.{scalar_of, pair_of, IsPair};

    ghost view = { scalar_of };

    ghost invariant = { IsPair };

    ghost inverse = { pair_of };

    ghost inverse_ok = { λ w h. h.same };
}

impl Word {
    #[inline(always)]
    pub fn undefined() -> Word
        ensures { result ≡ Scalar.Undefined }
    {
        Word { tag: 0, bits: 0 }
    }

    #[inline(always)]
    pub fn null() -> Word
        ensures { result ≡ Scalar.Null }
    {
        Word { tag: 1, bits: 0 }
    }

    /// A number of a kind, in its range.
    #[inline(always)]
    pub fn number(kind: Kind, value: i64) -> Word
        requires { LiesIn kind value }
        ensures { result ≡ Scalar.Number kind value }
    {
        Word {
            tag: tag_of(kind),
            bits: value,
        }
    }

    /// A pointer: the number of an object, and an offset into it in cells.
    #[inline(always)]
    pub fn place(object: u64, offset: u32) -> Word
        requires { offset ≤ cell_limit }
        ensures { result ≡ Scalar.Place object offset }
    {
        if object < HALF {
            Word {
                tag: 5 + 256 * u64::from(offset),
                bits: object as i64,
            }
        } else {
            Word {
                tag: 6 + 256 * u64::from(offset),
                bits: (object - HALF) as i64,
            }
        }
    }

    /// A pointer to the first cell of an object that a run can make.
    #[inline(always)]
    pub fn start(object: u64) -> Word
        requires { object ≤ object_limit }
        ensures { result ≡ Scalar.Place object 0 }
    {
        Word {
            tag: 5,
            bits: object as i64,
        }
    }

    /// The word that holds this scalar.
    pub fn of(scalar: Scalar) -> Word
        requires { IsHeldScalar scalar }
        ensures { result ≡ scalar }
    {
        match scalar {
            Scalar::Undefined => Word::undefined(),
            Scalar::Null => Word::null(),
            Scalar::Number { kind, value } => Word::number(kind, value),
            Scalar::Place { object, offset } => Word::place(object, offset),
        }
    }

    /// The scalar that this word holds.
    pub fn scalar(self) -> Scalar
        ensures value { result ≡ self }
        ensures held { IsHeldScalar result }
        ensures in_range { IsInRange result }
    {
        match self.tag {
            0 => Scalar::Undefined,
            1 => Scalar::Null,
            2 => Scalar::Number {
                kind: Kind::Char,
                value: self.bits,
            },
            3 => Scalar::Number {
                kind: Kind::Int,
                value: self.bits,
            },
            4 => Scalar::Number {
                kind: Kind::Unsigned,
                value: self.bits,
            },
            tag => place_in(tag, self.bits),
        }
    }

    /// The object and the offset of a place, but for objects that no run makes.
    #[inline(always)]
    pub fn place_parts(self) -> Option<(u64, u32)>
        ensures { IfSome result (λ p. self ≡ Scalar.Place p.0 p.1) }
    {
        if self.tag % 256 == 5 {
            Some((self.bits as u64, (self.tag / 256) as u32))
        } else {
            None
        }
    }

    /// Whether a load that wants this finds it.
    #[inline(always)]
    pub fn is_wanted(self, want: Want) -> bool
        ensures { result ≡ is_wanted want self }
    {
        match want {
            Want::Number { kind } => self.tag == tag_of(kind),
            Want::Pointer => self.tag == 1 || self.tag >= 5,
        }
    }

    #[inline(always)]
    pub fn is_undefined(self) -> bool
        ensures { result ≡ is_undefined self }
    {
        self.tag == 0
    }

    /// The value of a number of kind `int`.
    #[inline(always)]
    pub fn int(self) -> Option<i64>
        ensures value { result ≡ int_of self }
        ensures in_range { IfSome result (LiesIn Kind.Int) }
    {
        if self.tag == 3 { Some(self.bits) } else { None }
    }

    /// The value of a number of any kind.
    #[inline(always)]
    pub fn number_value(self) -> Option<i64>
        ensures { result ≡ value_of_number self }
    {
        if 2 <= self.tag && self.tag <= 4 {
            Some(self.bits)
        } else {
            None
        }
    }

    /// Whether the value counts as true: zero and null are false. Trap Undefined exactly for an undefined one.
    #[inline(always)]
    pub fn truth(self) -> Result<bool, Trap>
        ensures { result ≡ truth_of self }
    {
        if self.tag >= 5 {
            return Ok(true);
        }
        if self.tag >= 2 {
            return Ok(self.bits != 0);
        }
        if self.tag == 1 {
            Ok(false)
        } else {
            Err(Trap::Undefined)
        }
    }
}
