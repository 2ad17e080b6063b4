ghost use Rattle.std.specs.Prelude.{◌≡◌, ◌≤◌, IfOk, OnOk, IfErr};
ghost use Rattle.cbi_base.specs.Words.{CountHasRisen};
ghost use Rattle.command_base.specs.Faults.{HasCause, LeftBy};
ghost use Rattle.command_base.specs.Outside.{TookDue, TookWithin};
ghost use Rattle.command_base.specs.declared.done.Done.TheVariants.{Nothing};
ghost use Rattle.command_bank.specs.MadeBank.{IsMadeText};

use cbi_base::{Memory, Sink};
use cbi_options::BankWords;
use command_base::{Done, Fault, put};
use countdown_bank::write_bank;
use rand_pcg::Lcg64Xsh32;
use std::alloc::Global;

/// The text of the made bank.
fn text_of(alloc: Global, words: BankWords) -> Result<Vec<u8>, Memory>
    requires rate { (1 ≤ words.rate) × (words.rate ≤ 65536) }
    requires count { (1 ≤ words.count) × (words.count ≤ 65536) }
    ensures { IfOk result (λ text. IsMadeText words text.items) }
{
    let mut generator = Lcg64Xsh32::new(words.seed, words.stream);
    let bank = countdown_bank::make_bank(alloc, &mut generator, words.rate, words.count)?;
    write_bank(alloc, &bank)
}

/// Makes a bank and writes its text to out.
pub fn make_bank<O: Sink>(alloc: Global, words: BankWords, out: &mut O) -> Result<Done, Fault>
    requires rate { (1 ≤ words.rate) × (words.rate ≤ 65536) }
    requires count { (1 ≤ words.count) × (words.count ≤ 65536) }
    ensures took { OnOk result (TookDue (IsMadeText words) (O.taken out.old) (O.taken out.new)) }
    ensures said { IfOk result (λ said. said ≡ Nothing) }
    ensures fault { IfErr result (λ e. HasCause e (λ n. ⊥) (CountHasRisen (O.faults out.old) (O.faults out.new)) (λ r. ⊥)) }
    ensures left { IfErr result (λ e. LeftBy e ⊥ (TookWithin (IsMadeText words) (O.taken out.old) (O.taken out.new))
        (λ r. ⊥) (O.taken out.new ≡ O.taken out.old)) }
    ensures out_rises { O.faults out.old ≤ O.faults out.new }
    ensures out_sound { O.is_sound out.old → O.is_sound out.new }
    ensures out_stays { O.is_sound out.old → O.faults out.new ≡ O.faults out.old }
{
    let text = match text_of(alloc, words) {
        Ok(text) => text,
        Err(Memory) => return Err(Fault::Memory),
    };
    match put(out, text.as_slice()) {
        Ok(()) => Ok(Done::Nothing),
        Err(fault) => Err(fault),
    }
}
