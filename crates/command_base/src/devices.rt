ghost use Rattle.std.specs.Prelude.{◌≡◌, ◌≤◌, ◌∷◌, [], IfOk, OnOk, OnErr, IfErr};
ghost use Rattle.cbi_base.specs.Words.{CountHasRisen, Takes, TakesPrefix, IsReadOf, MayReplace, OthersStay, Replaces};
ghost use Rattle.command_base.specs.Faults.{HasCause, IfMemoryFault};
ghost use Rattle.command_base.specs.Reading.{HasRead};

use crate::fault::Fault;
use cbi_base::{Seq, Sink, SinkError, Store, StoreError};
use cbi_options::Word;
use std::alloc::Global;

/// The bytes of the file with this name, or the first `max + 1` of them.
pub fn read_file<S: Store>(
    alloc: Global,
    store: &mut S,
    name: &Word,
    max: u64,
) -> Result<Seq<u8>, Fault>
    ensures bytes { IfOk result (λ v. IsReadOf (S.holds store.old) name.now max v) }
    ensures read { HasRead S.holds S.read_faults S.write_faults S.is_sound store.old store.new (name.now ∷ []) (λ r. ⊥) result }
{
    match store.read(alloc, name.as_str(), max) {
        Ok(bytes) => Ok(Seq::from_vec(bytes)),
        Err(StoreError::Failed) => Err(Fault::Read {
            name: name.try_clone()?,
        }),
        Err(StoreError::Memory) => Err(Fault::Memory),
    }
}

/// Makes the name hold the bytes.
pub fn write_file<S: Store>(
    alloc: Global,
    store: &mut S,
    name: &Word,
    bytes: &[u8],
) -> Result<(), Fault>
    ensures bytes { OnOk result (Replaces (S.holds store.old) (S.holds store.new) name.now bytes.now) }
    ensures fault { IfErr result (λ e. HasCause e (λ n. ⊥) (CountHasRisen (S.write_faults store.old) (S.write_faults store.new)) (λ r. ⊥)) }
    ensures part { OnErr result (MayReplace (S.holds store.old) (S.holds store.new) name.now bytes.now) }
    ensures others { OthersStay (S.holds store.old) (S.holds store.new) name.now }
    ensures reads { S.read_faults store.new ≡ S.read_faults store.old }
    ensures never_falls { S.write_faults store.old ≤ S.write_faults store.new }
    ensures sound { S.is_sound store.old → S.is_sound store.new }
    ensures sound_count { S.is_sound store.old → S.write_faults store.new ≡ S.write_faults store.old }
{
    match store.write(alloc, name.as_str(), bytes) {
        Ok(()) => Ok(()),
        Err(StoreError::Failed) => Err(Fault::Write),
        Err(StoreError::Memory) => Err(Fault::Memory),
    }
}

/// Hands the piece to out.
pub fn put<O: Sink>(out: &mut O, piece: &[u8]) -> Result<(), Fault>
    ensures whole { OnOk result (Takes (O.taken out.old) (O.taken out.new) piece.now) }
    ensures fault { IfErr result (λ e. HasCause e (λ n. ⊥) (CountHasRisen (O.faults out.old) (O.faults out.new)) (λ r. ⊥)) }
    ensures part { OnErr result (TakesPrefix (O.taken out.old) (O.taken out.new) piece.now) }
    ensures wanting { IfErr result (λ e. IfMemoryFault e (O.taken out.new ≡ O.taken out.old)) }
    ensures never_falls { O.faults out.old ≤ O.faults out.new }
    ensures sound { O.is_sound out.old → O.is_sound out.new }
    ensures sound_count { O.is_sound out.old → O.faults out.new ≡ O.faults out.old }
{
    match out.put(piece) {
        Ok(()) => Ok(()),
        Err(SinkError::Failed) => Err(Fault::Write),
        Err(SinkError::Memory) => Err(Fault::Memory),
    }
}
