ghost use Rattle.std.specs.Prelude.{◌≡◌, ◌≤◌, [], IfOk, IfErr, IsErrAnd, IsNone, IsSome, Some};
ghost use Rattle.cbi_base.specs.Faults.{CountHasRisen};
ghost use Rattle.cbi_words.specs.Within.{IsWithin};
ghost use Rattle.command_base.specs.Outside.{outside_state, AllStayBut};
ghost use Rattle.command_base.specs.Names.{AreHeld};
ghost use Rattle.command_base.specs.Faults.{HasCause, IfAllRead, IfReadFault, IfRefusal, Precedes, IfFilesRead};
ghost use Rattle.commands.specs.Commands.{
  command_names,
  written_by,
  AreReadHeld,
  Did,
  IsReadMissing,
  IsReadName,
  LeftByFault,
  IsRefused,
  IsRefusedBy,
  WriteFault,
};

use cbi_base::{Sink, Store};
use cbi_words::Command;
use command_bank::make_bank;
use command_base::{Done, Fault, do_work};
use command_bugs::BugsCall;
use command_cards::CardsCall;
use command_collect::CollectCall;
use command_lines::LinesCall;
use command_pairs::PairsCall;
use command_rank::RankCall;
use command_run::run_file;
use command_runs::make_runs;
use command_session::SessionCall;
use command_study::study_text;
use command_transform::TransformCall;
use command_widen::WidenCall;
use probes::Probe;
use std::alloc::Global;

/// Does the command.
pub fn obey<S: Store, O: Sink>(
    alloc: Global,
    command: Command,
    store: &mut S,
    out: &mut O,
    probes: &mut Vec<Box<dyn Probe>>,
) -> Result<Done, Fault>
    requires { IsWithin command }
    ensures ok { IfOk result (Did (λ b. seen b) (Some command)
        (outside_state (S.holds store.old) (O.taken out.old) probes.old.items) (outside_state (S.holds store.new) (O.taken out.new) probes.new.items)) }
    ensures fault { IfErr result (λ e. HasCause e
        (λ name. IsReadName (Some command) (S.holds store.old) name × CountHasRisen (S.read_faults store.old) (S.read_faults store.new))
        (WriteFault (Some command) (CountHasRisen (O.faults out.old) (O.faults out.new)) (CountHasRisen (S.write_faults store.old) (S.write_faults store.new)))
        (IsRefusedBy (Some command) (S.holds store.old))) }
    ensures was_refused { IfErr result (λ e. IfRefusal e (IsRefused (Some command) (S.holds store.old))) }
    ensures refused { IsRefused (Some command) (S.holds store.old) → IsSome (S.holds store.old) → IsErrAnd result Precedes }

    // What is left after a fault, and which names were held.
    ensures left { IfErr result (λ e. LeftByFault (λ b. seen b) (Some command) e
        (outside_state (S.holds store.old) (O.taken out.old) probes.old.items) (outside_state (S.holds store.new) (O.taken out.new) probes.new.items)) }
    ensures was_held { IfFilesRead result (AreHeld (S.holds store.old) (command_names (Some command))) }
    ensures all_held { IfAllRead result (AreReadHeld (Some command) (S.holds store.old)) }
    ensures missing { S.is_sound store.old → IfErr result (λ e. IfReadFault e (IsReadMissing (Some command) (S.holds store.old))) }
    ensures held { AllStayBut (written_by (Some command)) (S.holds store.old) (S.holds store.new) }
    ensures no_read { command_names (Some command) ≡ [] → S.read_faults store.new ≡ S.read_faults store.old }
    ensures no_write { IsNone (written_by (Some command)) → S.write_faults store.new ≡ S.write_faults store.old }

    // No count falls, and devices that are sound stay so, with their counts.
    ensures reads_rise { S.read_faults store.old ≤ S.read_faults store.new }
    ensures writes_rise { S.write_faults store.old ≤ S.write_faults store.new }
    ensures out_rises { O.faults out.old ≤ O.faults out.new }
    ensures store_sound { S.is_sound store.old → S.is_sound store.new }
    ensures out_sound { O.is_sound out.old → O.is_sound out.new }
    ensures reads_stay { S.is_sound store.old → AreReadHeld (Some command) (S.holds store.old) → S.read_faults store.new ≡ S.read_faults store.old }
    ensures writes_stay { S.is_sound store.old → S.write_faults store.new ≡ S.write_faults store.old }
    ensures out_stays { O.is_sound out.old → O.faults out.new ≡ O.faults out.old }
{
    match command {
        Command::Transform(words) => do_work(alloc, &TransformCall { words }, store, out),
        Command::Run(words) => run_file(alloc, &words, store, out, probes),
        Command::Bank(words) => make_bank(alloc, words, out),
        Command::Collect(words) => do_work(alloc, &CollectCall { words }, store, out),
        Command::Rank(words) => do_work(alloc, &RankCall { words }, store, out),
        Command::Study(words) => study_text(alloc, &words, store, out, probes),
        Command::Session(words) => do_work(alloc, &SessionCall { words }, store, out),
        Command::Widen(words) => do_work(alloc, &WidenCall { words }, store, out),
        Command::Cards(words) => do_work(alloc, &CardsCall { words }, store, out),
        Command::Pairs(words) => do_work(alloc, &PairsCall { words }, store, out),
        Command::Lines(words) => do_work(alloc, &LinesCall { words }, store, out),
        Command::Bugs(words) => do_work(alloc, &BugsCall { words }, store, out),
        Command::Runs(words) => make_runs(alloc, &words, store, out, probes),
    }
}
