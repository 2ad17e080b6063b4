ghost use Rattle.std.specs.Prelude.{◌≡◌, IfOk, IfErr, Some};
ghost use Rattle.collector.specs.Merging.{IsBundle};
ghost use Rattle.collector.specs.Spelling.{IsText, SpellsBundle};
ghost use Rattle.collector.specs.declared.collection.Bundle.{Bundle};
ghost use Rattle.command_base.specs.Faults.{HasCause, Precedes};
ghost use Rattle.command_inputs.specs.Collections.{IsBadCollection, fault_of};

use cbi_base::Refusal;
use collector::{AddFault, Bundle, CollectionError, read_collection};
use command_base::Fault;
use std::alloc::Global;

/// The most bytes that are read of a file of reports.
pub const FILE_LIMIT: u64 = 1073741824;

/// The reports of the collection that the text with this number spells.
pub fn load_collection(alloc: Global, number: u64, text: &[u8]) -> Result<Bundle, Fault>
    ensures found { IfOk result (SpellsBundle text.now) }
    ensures is_text { IfOk result IsText }
    ensures is_bundle { IfOk result IsBundle }
    ensures only { (b : Bundle) → SpellsBundle text.now b → IfOk result (λ r. r ≡ b) }
    ensures fault { IfErr result (λ e. HasCause e (λ n. ⊥) ⊥ (IsBadCollection number text.now)) }
    ensures precedes { IfErr result Precedes }
{
    match read_collection(alloc, text) {
        Ok(bundle) => Ok(bundle),
        Err(CollectionError::BadCollection { line }) => Err(Fault::Refused {
            refusal: Refusal::BadCollection { file: number, line },
        }),
        Err(CollectionError::Memory) => Err(Fault::Memory),
    }
}

/// What a fault of an addition is to a command.
pub fn fault_of(fault: AddFault) -> Fault
    ensures cause { HasCause result (λ n. ⊥) ⊥ (λ r. fault_of r ≡ Some fault) }
    ensures precedes { Precedes result }
{
    let refusal = match fault {
        AddFault::Foreign { ours, theirs } => Refusal::Foreign { ours, theirs },
        AddFault::NoSite { run, site } => Refusal::NoSite { run, site },
        AddFault::Conflict { run } => Refusal::Conflict { run },
        AddFault::TooManyReports { run } => Refusal::TooManyReports { run },
        AddFault::TooManyMarks { run } => Refusal::TooManyMarks { run },
        AddFault::Memory => return Fault::Memory,
    };
    Fault::Refused { refusal }
}
