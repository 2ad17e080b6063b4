ghost use Rattle.std.specs.Prelude.{◌≡◌, IfOk, IfErr};
ghost use Rattle.collector.specs.Merging.{IsBundle};
ghost use Rattle.collector.specs.Spelling.{IsText};
ghost use Rattle.command_base.specs.Faults.{HasCause, Precedes};
ghost use Rattle.command_widen.specs.Loading.{AreSpelled};
ghost use Rattle.command_widen.specs.Widen.{RefusesTexts};
ghost use Rattle.flow.specs.declared.choice.Part.{Part};

use crate::texts::WidenTexts;
use collector::Bundle;
use command_base::Fault;
use command_inputs::{load_collection, load_program};
use flow::Program;
use std::alloc::Global;

/// What the texts spell: the whole program, the other one, and reports of that one's runs.
#[derive(Drop)]
pub struct Loaded {
    pub whole: Program,
    pub program: Program,
    pub bundle: Bundle,
}

/// The programs and the reports that the texts spell. Refused in the same way whatever the part is.
pub fn load_texts(alloc: Global, texts: &WidenTexts) -> Result<Loaded, Fault>
    ensures spelled { IfOk result (AreSpelled texts.now) }
    ensures is_text { IfOk result (λ l. IsText l.bundle) }
    ensures is_bundle { IfOk result (λ l. IsBundle l.bundle) }
    ensures fault { (part : Part) → IfErr result (λ e. HasCause e (λ n. ⊥) ⊥ (λ r. RefusesTexts part r texts.now)) }
    ensures precedes { IfErr result Precedes }
{
    let whole = match load_program(alloc, texts.whole.as_slice()) {
        Ok(whole) => whole,
        Err(fault) => return Err(fault),
    };
    let program = match load_program(alloc, texts.runs.program.as_slice()) {
        Ok(program) => program,
        Err(fault) => return Err(fault),
    };
    let bundle = match load_collection(alloc, 1, texts.runs.collection.as_slice()) {
        Ok(bundle) => bundle,
        Err(fault) => return Err(fault),
    };
    Ok(Loaded {
        whole,
        program,
        bundle,
    })
}
