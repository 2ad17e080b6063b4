ghost use Rattle.std.specs.Prelude.{◌≡◌, ◌≤◌, ◌<◌, ◌^◌, ◌*ℤ◌, false, unsigned_abs, OnOk, IfOk, IfSome, Ok};
ghost use Rattle.c_store.specs.Word.{is_undefined};
ghost use Rattle.cbi_base.specs.Words.{truth_number, LiesIn, object_allocated, loaded_value, operator_applied, low_byte, moved_by, zero_value};
ghost use Rattle.flow.specs.declared.node.Node.TheVariants as node;
ghost use Rattle.flow.specs.Words.{row_effect, view};
ghost use Rattle.machine_rows.specs.Data.{data_of, no_statics};
ghost use Rattle.machine_rows.specs.Effects.{IsActed, IsDone};

use crate::now::Now;
use crate::quick::quick_math;
use crate::stop::Stop;
use c_store::{Made, Objects, Word};
use c_values::{apply_binary, apply_unary, convert};
use cbi_base::{Binary, Class, Kind, Memory, Order, Scalar, Trap, Unary, Want};

/// The number modulo 256.
pub fn byte_of(value: i32) -> u8
    ensures { result ≡ low_byte value }
{
    value.rem_euclid(256) as u8
}

#[inline(always)]
#[tactic(auto, unfolding(flow::specs::Rows::row_effect))]
pub fn push(now: &mut Now<'_>, kind: Kind, value: i64, next: u32) -> Result<u32, Stop>
    requires { LiesIn kind value }
    ensures effect { IsActed no_statics (view (node.Push kind value next)) (data_of now.old) result (data_of now.new) }
    ensures kept { OnOk result (now.new.operands.below ≡ now.old.operands.below) }
{
    now.push(Word::number(kind, value))?;
    Ok(next)
}

#[inline(always)]
#[tactic(auto, unfolding(flow::specs::Rows::row_effect))]
pub fn null(now: &mut Now<'_>, next: u32) -> Result<u32, Stop>
    ensures effect { IsActed no_statics (view (node.Null next)) (data_of now.old) result (data_of now.new) }
    ensures kept { OnOk result (now.new.operands.below ≡ now.old.operands.below) }
{
    now.push(Word::null())?;
    Ok(next)
}

#[inline(always)]
#[tactic(auto, unfolding(flow::specs::Rows::row_effect))]
pub fn global(now: &mut Now<'_>, index: u32, next: u32) -> Result<u32, Stop>
    ensures effect { IsActed no_statics (view (node.Global index next)) (data_of now.old) result (data_of now.new) }
    ensures kept { OnOk result (now.new.operands.below ≡ now.old.operands.below) }
{
    now.push(Word::start(u64::from(index)))?;
    Ok(next)
}

#[inline(always)]
#[tactic(auto, unfolding(flow::specs::Rows::row_effect))]
pub fn local(now: &mut Now<'_>, index: u32, next: u32) -> Result<u32, Stop>
    ensures effect { IsActed no_statics (view (node.Local index next)) (data_of now.old) result (data_of now.new) }
    ensures kept { OnOk result (now.new.operands.below ≡ now.old.operands.below) }
{
    let object = now.local(index)?;
    now.push(Word::start(object))?;
    Ok(next)
}

/// `load` of any pointer.
#[inline(never)]
#[tactic(auto, unfolding(flow::specs::Rows::row_effect))]
fn load_slowly(now: &mut Now<'_>, want: Want) -> Result<(), Trap>
    ensures effect { IsDone (row_effect no_statics (node.Load want 0) (data_of now.old)) result (data_of now.new) }
    ensures kept { OnOk result (now.new.operands.below ≡ now.old.operands.below) }
{
    let pointer = now.see_any()?;
    let value = now.objects.load_word(pointer, want)?;
    now.replace(1, value);
    Ok(())
}

#[inline(always)]
#[tactic(auto, unfolding(flow::specs::Rows::row_effect))]
pub fn load(now: &mut Now<'_>, want: Want, next: u32) -> Result<u32, Stop>
    ensures effect { IsActed no_statics (view (node.Load want next)) (data_of now.old) result (data_of now.new) }
    ensures kept { OnOk result (now.new.operands.below ≡ now.old.operands.below) }
{
    if let Some(pointer) = now.operands.peek() {
        if let Some(value) = now.objects.quick_load(pointer, want) {
            now.replace(1, value);
            return Ok(next);
        }
    }
    load_slowly(now, want)?;
    Ok(next)
}

/// `store` at any pointer.
#[inline(never)]
#[tactic(auto, unfolding(flow::specs::Rows::row_effect))]
fn store_slowly(now: &mut Now<'_>) -> Result<(), Trap>
    ensures effect { IsDone (row_effect no_statics (node.Store 0) (data_of now.old)) result (data_of now.new) }
    ensures kept { OnOk result (now.new.operands.below ≡ now.old.operands.below) }
{
    let (pointer, value) = now.see_two()?;
    now.objects.store_slowly(pointer, value)?;
    now.replace(2, value);
    Ok(())
}

#[inline(always)]
#[tactic(auto, unfolding(flow::specs::Rows::row_effect))]
pub fn store(now: &mut Now<'_>, next: u32) -> Result<u32, Stop>
    ensures effect { IsActed no_statics (view (node.Store next)) (data_of now.old) result (data_of now.new) }
    ensures kept { OnOk result (now.new.operands.below ≡ now.old.operands.below) }
{
    if let Some((pointer, value)) = now.operands.peek_two() {
        if now.objects.quick_store(pointer, value) {
            now.replace(2, value);
            return Ok(next);
        }
    }
    store_slowly(now)?;
    Ok(next)
}

/// A number times so many cells.
#[tactic(auto, using(crate::proofs::MoveLemmas::product_fits))]
fn cells_of(value: i64, size: i64) -> i64
    requires value { unsigned_abs value < 2 ^ 32 }
    requires size { unsigned_abs size ≤ 2 ^ 31 }
    ensures { result ≡ value *ℤ size }
{
    value * size
}

/// A defined pointer moved by a number times so many cells.
fn move_by_number(objects: &Objects, size: i32, pointer: Word, value: i64) -> Result<Word, Trap>
    requires pointer { is_undefined pointer ≡ false }
    requires value { unsigned_abs value < 2 ^ 32 }
    ensures { (kind : Kind) → result ≡ moved_by size pointer (Scalar.Number kind value) objects.now }
{
    objects.move_word(pointer, cells_of(value, i64::from(size)))
}

/// A defined pointer moved by a value of any kind times so many cells.
#[tactic(auto, using(crate::proofs::MoveLemmas::moves_undefined, crate::proofs::MoveLemmas::moves_place, crate::proofs::MoveLemmas::moves_null))]
fn move_slowly(objects: &Objects, size: i32, pointer: Word, by: Word) -> Result<Word, Trap>
    requires { is_undefined pointer ≡ false }
    ensures { result ≡ moved_by size pointer by objects.now }
{
    match by.scalar() {
        Scalar::Undefined => Err(Trap::Undefined),
        Scalar::Number { value, .. } => move_by_number(objects, size, pointer, value),
        Scalar::Place { .. } => Err(Trap::Internal),
        Scalar::Null => Err(Trap::Internal),
    }
}

/// A pointer moved by a number times so many cells.
#[tactic(auto, using(crate::proofs::MoveLemmas::moves_none))]
fn move_by(objects: &Objects, size: i32, pointer: Word, by: Word) -> Result<Word, Trap>
    ensures { result ≡ moved_by size pointer by objects.now }
{
    if pointer.is_undefined() {
        return Err(Trap::Undefined);
    }
    let place = move_slowly(objects, size, pointer, by)?;
    Ok(place)
}

/// A pointer moved by an `int` times so many cells, where its object is found without a search. None tells nothing.
#[inline(always)]
pub fn quick_move(objects: &Objects, size: i32, pointer: Word, by: Word) -> Option<Word>
    ensures { IfSome result (λ place. moved_by size pointer by objects.now ≡ Ok place) }
{
    let value = by.int()?;
    let place = objects.quick_move(pointer, cells_of(value, i64::from(size)))?;
    Some(place)
}

/// A pointer moved by an `int` times so many cells, and the value there of the kind that is wanted, where its object is found without a search.
/// None tells nothing.
#[inline(always)]
pub fn quick_behind(
    objects: &Objects,
    size: i32,
    pointer: Word,
    by: Word,
    want: Want,
) -> Option<(Word, Word)>
    ensures moved { IfSome result (λ p. moved_by size pointer by objects.now ≡ Ok p.0) }
    ensures loaded { IfSome result (λ p. loaded_value want p.0 objects.now ≡ Ok p.1) }
{
    let value = by.int()?;
    objects.quick_load_behind(pointer, cells_of(value, i64::from(size)), want)
}

/// `move` of any pointer.
#[inline(never)]
#[tactic(auto, unfolding(flow::specs::Rows::row_effect))]
fn moves_slowly(now: &mut Now<'_>, size: i32) -> Result<(), Trap>
    ensures effect { IsDone (row_effect no_statics (node.Move size 0) (data_of now.old)) result (data_of now.new) }
    ensures kept { OnOk result (now.new.operands.below ≡ now.old.operands.below) }
{
    let (pointer, by) = now.see_two()?;
    let value = move_by(&now.objects, size, pointer, by)?;
    now.replace(2, value);
    Ok(())
}

#[inline(always)]
#[tactic(auto, unfolding(flow::specs::Rows::row_effect))]
pub fn moves(now: &mut Now<'_>, size: i32, next: u32) -> Result<u32, Stop>
    ensures effect { IsActed no_statics (view (node.Move size next)) (data_of now.old) result (data_of now.new) }
    ensures kept { OnOk result (now.new.operands.below ≡ now.old.operands.below) }
{
    if let Some((pointer, by)) = now.operands.peek_two() {
        if let Some(value) = quick_move(&now.objects, size, pointer, by) {
            now.replace(2, value);
            return Ok(next);
        }
    }
    moves_slowly(now, size)?;
    Ok(next)
}

/// `member` of any pointer.
#[inline(never)]
#[tactic(auto, unfolding(flow::specs::Rows::row_effect))]
fn member_slowly(now: &mut Now<'_>, offset: u32) -> Result<(), Trap>
    ensures effect { IsDone (row_effect no_statics (node.Member offset 0) (data_of now.old)) result (data_of now.new) }
    ensures kept { OnOk result (now.new.operands.below ≡ now.old.operands.below) }
{
    let pointer = now.see_any()?;
    let value = now.objects.move_word(pointer, i64::from(offset))?;
    now.replace(1, value);
    Ok(())
}

#[inline(always)]
#[tactic(auto, unfolding(flow::specs::Rows::row_effect))]
pub fn member(now: &mut Now<'_>, offset: u32, next: u32) -> Result<u32, Stop>
    ensures effect { IsActed no_statics (view (node.Member offset next)) (data_of now.old) result (data_of now.new) }
    ensures kept { OnOk result (now.new.operands.below ≡ now.old.operands.below) }
{
    if let Some(pointer) = now.operands.peek() {
        if let Some(value) = now.objects.quick_move(pointer, i64::from(offset)) {
            now.replace(1, value);
            return Ok(next);
        }
    }
    member_slowly(now, offset)?;
    Ok(next)
}

#[inline(always)]
#[tactic(auto, unfolding(flow::specs::Rows::row_effect))]
pub fn span(now: &mut Now<'_>, size: u32, next: u32) -> Result<u32, Stop>
    requires { 1 ≤ size }
    ensures effect { IsActed no_statics (view (node.Span size next)) (data_of now.old) result (data_of now.new) }
    ensures kept { OnOk result (now.new.operands.below ≡ now.old.operands.below) }
{
    let (left, right) = now.see_two()?;
    let count = now.objects.difference_of_words(left, right, size)?;
    now.replace(2, Word::number(Kind::Int, count));
    Ok(next)
}

/// A truth as an `int`, 0 or 1.
fn flag(holds: bool) -> Word
    ensures { result ≡ Scalar.Number Kind.Int (truth_number holds) }
{
    Word::number(Kind::Int, i64::from(holds))
}

#[inline(always)]
#[tactic(auto, unfolding(flow::specs::Rows::row_effect))]
pub fn order(now: &mut Now<'_>, op: Order, next: u32) -> Result<u32, Stop>
    ensures effect { IsActed no_statics (view (node.Order op next)) (data_of now.old) result (data_of now.new) }
    ensures kept { OnOk result (now.new.operands.below ≡ now.old.operands.below) }
{
    let (left, right) = now.see_two()?;
    let holds = now.objects.compare_words(op, left, right)?;
    now.replace(2, flag(holds));
    Ok(next)
}

/// What an operation gives of two values of any kinds.
fn apply_slowly(op: Binary, left: Word, right: Word) -> Result<Word, Trap>
    ensures { result ≡ operator_applied op left right }
{
    let value = apply_binary(op, left.scalar(), right.scalar())?;
    Ok(Word::of(value))
}

/// `math` on two values of any kinds.
#[inline(never)]
#[tactic(auto, unfolding(flow::specs::Rows::row_effect))]
fn math_slowly(now: &mut Now<'_>, op: Binary) -> Result<(), Trap>
    ensures effect { IsDone (row_effect no_statics (node.Math op 0) (data_of now.old)) result (data_of now.new) }
    ensures kept { OnOk result (now.new.operands.below ≡ now.old.operands.below) }
{
    let (left, right) = now.see_two()?;
    let value = apply_slowly(op, left, right)?;
    now.replace(2, value);
    Ok(())
}

#[inline(always)]
#[tactic(auto, unfolding(flow::specs::Rows::row_effect))]
pub fn math(now: &mut Now<'_>, op: Binary, next: u32) -> Result<u32, Stop>
    ensures effect { IsActed no_statics (view (node.Math op next)) (data_of now.old) result (data_of now.new) }
    ensures kept { OnOk result (now.new.operands.below ≡ now.old.operands.below) }
{
    if let Some((left, right)) = now.operands.peek_two() {
        if let Some(value) = quick_math(op, left, right) {
            now.replace(2, Word::number(Kind::Int, value));
            return Ok(next);
        }
    }
    math_slowly(now, op)?;
    Ok(next)
}

#[inline(always)]
#[tactic(auto, unfolding(flow::specs::Rows::row_effect))]
pub fn sole(now: &mut Now<'_>, op: Unary, next: u32) -> Result<u32, Stop>
    ensures effect { IsActed no_statics (view (node.Sole op next)) (data_of now.old) result (data_of now.new) }
    ensures kept { OnOk result (now.new.operands.below ≡ now.old.operands.below) }
{
    let operand = now.see_any()?;
    let value = apply_unary(op, operand.scalar())?;
    now.replace(1, Word::of(value));
    Ok(next)
}

#[inline(always)]
#[tactic(auto, unfolding(flow::specs::Rows::row_effect))]
pub fn converts(now: &mut Now<'_>, kind: Kind, next: u32) -> Result<u32, Stop>
    ensures effect { IsActed no_statics (view (node.Convert kind next)) (data_of now.old) result (data_of now.new) }
    ensures kept { OnOk result (now.new.operands.below ≡ now.old.operands.below) }
{
    let operand = now.see_any()?;
    let value = convert(kind, operand.scalar())?;
    now.replace(1, Word::of(value));
    Ok(next)
}

#[inline(always)]
#[tactic(auto, unfolding(flow::specs::Rows::row_effect))]
pub fn dup(now: &mut Now<'_>, next: u32) -> Result<u32, Stop>
    ensures effect { IsActed no_statics (view (node.Dup next)) (data_of now.old) result (data_of now.new) }
    ensures kept { OnOk result (now.new.operands.below ≡ now.old.operands.below) }
{
    let value = now.see_any()?;
    now.push(value)?;
    Ok(next)
}

#[inline(always)]
#[tactic(auto, unfolding(flow::specs::Rows::row_effect))]
pub fn drop_top(now: &mut Now<'_>, next: u32) -> Result<u32, Stop>
    ensures effect { IsActed no_statics (view (node.Drop next)) (data_of now.old) result (data_of now.new) }
    ensures kept { OnOk result (now.new.operands.below ≡ now.old.operands.below) }
{
    now.take_any()?;
    Ok(next)
}

#[inline(always)]
#[tactic(auto, unfolding(flow::specs::Rows::row_effect))]
pub fn swap(now: &mut Now<'_>, next: u32) -> Result<u32, Stop>
    ensures effect { IsActed no_statics (view (node.Swap next)) (data_of now.old) result (data_of now.new) }
    ensures kept { OnOk result (now.new.operands.below ≡ now.old.operands.below) }
{
    let (left, right) = now.see_two()?;
    now.replace(2, right);
    now.push(left)?;
    Ok(next)
}

#[inline(always)]
#[tactic(auto, unfolding(flow::specs::Rows::row_effect))]
pub fn over(now: &mut Now<'_>, next: u32) -> Result<u32, Stop>
    ensures effect { IsActed no_statics (view (node.Over next)) (data_of now.old) result (data_of now.new) }
    ensures kept { OnOk result (now.new.operands.below ≡ now.old.operands.below) }
{
    let (left, _) = now.see_two()?;
    now.push(left)?;
    Ok(next)
}

#[inline(always)]
#[tactic(auto, unfolding(flow::specs::Rows::row_effect))]
pub fn get(now: &mut Now<'_>, next: u32) -> Result<u32, Stop>
    ensures effect { IsActed no_statics (view (node.Get next)) (data_of now.old) result (data_of now.new) }
    ensures kept { OnOk result (now.new.operands.below ≡ now.old.operands.below) }
{
    now.push_byte()?;
    Ok(next)
}

#[inline(always)]
#[tactic(auto, unfolding(flow::specs::Rows::row_effect))]
pub fn put(now: &mut Now<'_>, next: u32) -> Result<u32, Stop>
    ensures effect { IsActed no_statics (view (node.Put next)) (data_of now.old) result (data_of now.new) }
    ensures kept { OnOk result (now.new.operands.below ≡ now.old.operands.below) }
{
    let byte = byte_of(now.take_int()?);
    now.put(byte)?;
    now.push(Word::number(Kind::Int, i64::from(byte)))?;
    Ok(next)
}

/// What `malloc` gives: a pointer to so many new cells, or null.
#[tactic(auto, unfolding(cbi_base::specs::Objects::object_allocated))]
fn allocate(objects: &mut Objects, cells: u32) -> Result<Word, Memory>
    ensures { IfOk result (λ value. object_allocated cells objects.old ≡ (value, objects.new)) }
{
    if cells == 0 {
        return Ok(Word::null());
    }
    match objects.make(Class::Heap, cells)? {
        Made::Object { number } => Ok(Word::place(number, 0)),
        Made::Full => Ok(Word::null()),
    }
}

#[inline(always)]
#[tactic(auto, unfolding(flow::specs::Rows::row_effect))]
pub fn alloc(now: &mut Now<'_>, next: u32) -> Result<u32, Stop>
    ensures effect { IsActed no_statics (view (node.Alloc next)) (data_of now.old) result (data_of now.new) }
    ensures kept { OnOk result (now.new.operands.below ≡ now.old.operands.below) }
{
    let cells = now.take_unsigned()?;
    let value = allocate(&mut now.objects, cells)?;
    now.push(value)?;
    Ok(next)
}

#[inline(always)]
#[tactic(auto, unfolding(flow::specs::Rows::row_effect))]
pub fn free(now: &mut Now<'_>, next: u32) -> Result<u32, Stop>
    ensures effect { IsActed no_statics (view (node.Free next)) (data_of now.old) result (data_of now.new) }
    ensures kept { OnOk result (now.new.operands.below ≡ now.old.operands.below) }
{
    let pointer = now.take_any()?;
    now.objects.release_word(pointer)?;
    Ok(next)
}

#[inline(always)]
#[tactic(auto, unfolding(flow::specs::Rows::row_effect))]
pub fn check(now: &mut Now<'_>, next: u32) -> Result<u32, Stop>
    ensures effect { IsActed no_statics (view (node.Check next)) (data_of now.old) result (data_of now.new) }
    ensures kept { OnOk result (now.new.operands.below ≡ now.old.operands.below) }
{
    let value = now.take_any()?;
    if value.truth()? {
        Ok(next)
    } else {
        Err(Stop::from(Trap::Assertion))
    }
}

#[inline(always)]
#[tactic(auto, unfolding(flow::specs::Rows::row_effect))]
pub fn clear(now: &mut Now<'_>, index: u32, next: u32) -> Result<u32, Stop>
    ensures effect { IsActed no_statics (view (node.Clear index next)) (data_of now.old) result (data_of now.new) }
    ensures kept { OnOk result (now.new.operands.below ≡ now.old.operands.below) }
{
    let object = now.local(index)?;
    now.objects.clear(object);
    Ok(next)
}

/// Zero of a kind, or null.
fn zero_of(want: Want) -> Word
    ensures { result ≡ zero_value want }
{
    match want {
        Want::Number { kind } => Word::number(kind, 0),
        Want::Pointer => Word::null(),
    }
}

#[inline(always)]
#[tactic(auto, unfolding(flow::specs::Rows::row_effect))]
pub fn zero(now: &mut Now<'_>, index: u32, want: Want, next: u32) -> Result<u32, Stop>
    ensures effect { IsActed no_statics (view (node.Zero index want next)) (data_of now.old) result (data_of now.new) }
    ensures kept { OnOk result (now.new.operands.below ≡ now.old.operands.below) }
{
    let object = now.local(index)?;
    now.objects.fill(object, zero_of(want));
    Ok(next)
}
