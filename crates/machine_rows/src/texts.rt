ghost use Rattle.std.specs.Prelude.{◌≡◌, ◌≤◌, ◌+◌, OnOk, IfSome, length, slice_get};
ghost use Rattle.std.specs.Option.{option_map};
ghost use Rattle.c_store.specs.Written.{state_or_trap};
ghost use Rattle.flow.specs.declared.node.Node.TheVariants as node;
ghost use Rattle.flow.specs.Words.{statics_of, byte_limit, row_effect, view};
ghost use Rattle.cbi_base.specs.Words.{stored_bytes as spelled, char_of};
ghost use Rattle.machine_rows.specs.Data.{data_of, no_statics};
ghost use Rattle.machine_rows.specs.Effects.{IsActed};

use crate::now::Now;
use crate::printing::{put_format, put_line, take_values};
use crate::stop::Stop;
use c_store::{Objects, Word};
use cbi_base::{Kind, Trap};
use flow::Program;

/// Pushes the place of a text's first byte.
#[inline(always)]
#[tactic(auto, unfolding(flow::specs::Rows::row_effect))]
pub fn text(program: &Program, now: &mut Now<'_>, index: u32, next: u32) -> Result<u32, Stop>
    ensures effect { IsActed (statics_of program.now) (view (node.Text index next)) (data_of now.old) result (data_of now.new) }
    ensures kept { OnOk result (now.new.operands.below ≡ now.old.operands.below) }
{
    let globals = program.globals().len() as u64;
    now.push(Word::place(globals + u64::from(index), 0))?;
    Ok(next)
}

/// The bytes of a text.
#[tactic(auto, using(crate::proofs::TextLemmas::few_bytes))]
fn bytes_of(program: &Program, index: u32) -> Option<&[u8]>
    ensures value { option_map (λ b. b.now) result ≡ option_map (λ t. t.bytes) (slice_get program.now.texts index) }
    ensures few { IfSome result (λ b. length b.now ≤ byte_limit) }
{
    let text = program.texts().get(index as usize)?;
    Some(text.bytes.as_slice())
}

/// A byte as a `char`.
pub fn char_of(byte: u8) -> Word
    ensures { result ≡ char_of byte }
{
    let value = i64::from(byte);
    Word::number(Kind::Char, if value < 128 { value } else { value - 256 })
}

/// Stores bytes into an object, from its first cell on.
fn spell_into(objects: &mut Objects, object: u64, bytes: &[u8]) -> Result<(), Trap>
    requires { length bytes.now ≤ byte_limit }
    ensures { spelled object 0 bytes.now objects.old ≡ state_or_trap result objects.new }
{
    for (offset, byte) in bytes.iter().enumerate() {
        objects.store_word(Word::place(object, offset as u32), char_of(*byte))?;
    }
    Ok(())
}

/// Stores a text's bytes into a local, from its first cell on.
#[inline(always)]
#[tactic(auto, unfolding(flow::specs::Rows::row_effect))]
pub fn spell(
    program: &Program,
    now: &mut Now<'_>,
    index: u32,
    text: u32,
    next: u32,
) -> Result<u32, Stop>
    ensures effect { IsActed (statics_of program.now) (view (node.Spell index text next)) (data_of now.old) result (data_of now.new) }
    ensures kept { OnOk result (now.new.operands.below ≡ now.old.operands.below) }
{
    let object = now.local(index)?;
    let Some(bytes) = bytes_of(program, text) else {
        return Err(Stop::from(Trap::Internal));
    };
    spell_into(&mut now.objects, object, bytes)?;
    Ok(next)
}

/// Writes the string at a pointer and a newline.
#[inline(always)]
#[tactic(auto, using(crate::proofs::TextLemmas::line_goes, crate::proofs::TextLemmas::line_stops), unfolding(flow::specs::Rows::row_effect))]
pub fn puts(now: &mut Now<'_>, next: u32) -> Result<u32, Stop>
    ensures effect { IsActed no_statics (view (node.Puts next)) (data_of now.old) result (data_of now.new) }
    ensures kept { OnOk result (now.new.operands.below ≡ now.old.operands.below) }
{
    let pointer = now.take_any()?;
    put_line(&mut now.output, &now.objects, pointer)?;
    now.push(Word::number(Kind::Int, 0))?;
    Ok(next)
}

/// Writes values by a text as format.
#[inline(always)]
#[tactic(auto, unfolding(flow::specs::Rows::row_effect))]
pub fn format(
    program: &Program,
    now: &mut Now<'_>,
    text: u32,
    count: u32,
    next: u32,
) -> Result<u32, Stop>
    ensures effect { IsActed (statics_of program.now) (view (node.Format text count next)) (data_of now.old) result (data_of now.new) }
    ensures kept { OnOk result (now.new.operands.below ≡ now.old.operands.below) }
{
    let Some(bytes) = bytes_of(program, text) else {
        return Err(Stop::from(Trap::Internal));
    };
    let values = now.operands.several(count)?;
    if !take_values(bytes, values) {
        return Err(Stop::from(Trap::Internal));
    }
    put_format(&mut now.output, &now.objects, bytes, values)?;
    now.operands.drop_last(count as usize);
    Ok(next)
}
