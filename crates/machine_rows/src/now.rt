ghost use Rattle.std.specs.Prelude.{◌≡◌, ◌≤◌, ◌∷◌, [], length, IfOk, IfErr, IfSome, IfNone, OnOk};
ghost use Rattle.std.specs.Result.{result_ok};
ghost use Rattle.cbi_base.specs.declared.trap.Trap.TheVariants as trap;
ghost use Rattle.cbi_base.specs.Words.{object_limit, local_at};
ghost use Rattle.flow.specs.Now.{value_taken, int_taken, unsigned_taken, pair_taken, operand_pushed, next_on, write_bytes_then, Goes};
ghost use Rattle.machine_rows.specs.Data.{data_of, operands_dropped};
ghost use Rattle.machine_rows.specs.Effects.{taken_of, IsEffect};

use crate::locals::Locals;
use crate::operands::Operands;
use crate::output::Output;
use crate::stop::Stop;
use c_store::{Objects, Word};
use cbi_base::{Kind, Memory, Scalar, Trap};
use std::alloc::Global;

/// What the rows that only touch data read and change: the operands, the locals of the running function, all objects, the input left, and the
/// output so far.
#[derive(Drop)]
pub struct Now<'a> {
    pub operands: Operands,
    pub locals: Locals,
    pub objects: Objects,
    pub input: &'a [u8],
    pub output: Output,
}

impl<'a> Now<'a> {
    /// The object of a local.
    #[inline(always)]
    pub fn local(&self, index: u32) -> Result<u64, Trap>
        ensures number { local_at index (data_of self.now).locals ≡ result_ok result }
        ensures near { IfOk result (λ number. number ≤ object_limit) }
        ensures err { IfErr result (λ t. t ≡ trap.Internal) }
    {
        self.locals.get(index).ok_or(Trap::Internal)
    }

    /// Takes a value, which may be undefined.
    #[inline(always)]
    pub fn take_any(&mut self) -> Result<Word, Trap>
        ensures taken { value_taken (data_of self.old) ≡ taken_of result (data_of self.new) }
        ensures output { self.new.output ≡ self.old.output }
        ensures kept { self.new.operands.below ≡ self.old.operands.below }
    {
        self.operands.pop().ok_or(Trap::Internal)
    }

    /// The top value, which may be undefined. It stays.
    #[inline(always)]
    pub fn see_any(&self) -> Result<Word, Trap>
        ensures seen { value_taken (data_of self.now) ≡ taken_of result (operands_dropped 1 (data_of self.now)) }
        ensures enough { OnOk result (1 ≤ length self.now.operands.top) }
    {
        self.operands.peek().ok_or(Trap::Internal)
    }

    /// The two values on top, the top one last. They stay.
    #[inline(always)]
    pub fn see_two(&self) -> Result<(Word, Word), Trap>
        ensures seen { pair_taken (data_of self.now) ≡ taken_of result (operands_dropped 2 (data_of self.now)) }
        ensures enough { OnOk result (2 ≤ length self.now.operands.top) }
    {
        self.operands.peek_two().ok_or(Trap::Internal)
    }

    /// A value takes the place of so many on top.
    #[inline(always)]
    pub fn replace(&mut self, count: usize, value: Word)
        requires some { 1 ≤ count }
        requires enough { count ≤ length self.old.operands.top }
        ensures replaced { data_of self.new ≡ operand_pushed value (operands_dropped count (data_of self.old)) }
        ensures kept { self.new.operands.below ≡ self.old.operands.below }
    {
        self.operands.replace(count, value);
    }

    /// Takes an `int`.
    pub fn take_int(&mut self) -> Result<i32, Trap>
        ensures taken { int_taken (data_of self.old) ≡ taken_of result (data_of self.new) }
        ensures output { self.new.output ≡ self.old.output }
        ensures kept { self.new.operands.below ≡ self.old.operands.below }
    {
        let Some(word) = self.operands.pop() else {
            return Err(Trap::Internal);
        };
        match word.scalar() {
            Scalar::Number {
                kind: Kind::Int,
                value,
            } => Ok(value as i32),
            Scalar::Undefined => Err(Trap::Undefined),
            _ => Err(Trap::Internal),
        }
    }

    /// Takes an `unsigned`.
    pub fn take_unsigned(&mut self) -> Result<u32, Trap>
        ensures taken { unsigned_taken (data_of self.old) ≡ taken_of result (data_of self.new) }
        ensures output { self.new.output ≡ self.old.output }
        ensures kept { self.new.operands.below ≡ self.old.operands.below }
    {
        let Some(word) = self.operands.pop() else {
            return Err(Trap::Internal);
        };
        match word.scalar() {
            Scalar::Number {
                kind: Kind::Unsigned,
                value,
            } => Ok(value as u32),
            Scalar::Undefined => Err(Trap::Undefined),
            _ => Err(Trap::Internal),
        }
    }

    /// Pushes a value.
    #[inline(always)]
    pub fn push(&mut self, value: Word) -> Result<(), Memory>
        ensures pushed { OnOk result (data_of self.new ≡ operand_pushed value (data_of self.old)) }
        ensures kept { OnOk result (self.new.operands.below ≡ self.old.operands.below) }
    {
        self.operands.push(value)
    }

    /// Pushes a value. None where memory is wanting, and nothing was done.
    #[inline(always)]
    pub fn try_push(&mut self, value: Word) -> Option<()>
        ensures pushed { IfSome result (λ _. data_of self.new ≡ operand_pushed value (data_of self.old)) }
        ensures kept { IfSome result (λ _. self.new.operands.below ≡ self.old.operands.below) }
        ensures same { IfNone result (self.new ≡ self.old) }
    {
        match self.operands.push(value) {
            Ok(()) => Some(()),
            Err(_) => None,
        }
    }

    /// Pushes two values, the second one last. None where memory is wanting, and nothing was done.
    #[inline(always)]
    pub fn try_push_two(&mut self, first: Word, second: Word) -> Option<()>
        ensures pushed { IfSome result (λ _. data_of self.new ≡ operand_pushed second (operand_pushed first (data_of self.old))) }
        ensures kept { IfSome result (λ _. self.new.operands.below ≡ self.old.operands.below) }
        ensures same { IfNone result (self.new ≡ self.old) }
    {
        match self.operands.push_two(first, second) {
            Ok(()) => Some(()),
            Err(_) => None,
        }
    }

    /// Pushes the next byte of the input as an `int`, or -1 at its end.
    pub fn push_byte(&mut self) -> Result<(), Stop>
        ensures effect { IsEffect (next_on self.old.input.now (data_of self.old)) result (data_of self.new) }
        ensures kept { OnOk result (self.new.operands.below ≡ self.old.operands.below) }
    {
        match self.input {
            [] => self.push(Word::number(Kind::Int, -1))?,
            [byte, rest @ ..] => {
                let value = i64::from(*byte);
                self.input = rest;
                self.push(Word::number(Kind::Int, value))?;
            }
        }
        Ok(())
    }

    /// Writes a byte, where there is room for it.
    #[tactic(auto, using(crate::proofs::PrintedLemmas::written))]
    pub fn put(&mut self, byte: u8) -> Result<(), Stop>
        ensures effect { IsEffect (write_bytes_then (byte ∷ []) (data_of self.old) Goes) result (data_of self.new) }
        ensures kept { OnOk result (self.new.operands.below ≡ self.old.operands.below) }
    {
        self.output.put(byte)
    }
}
