ghost use Rattle.std.specs.Prelude.{◌≡◌, IfOk, IfErr, IsErrAnd};
ghost use Rattle.flow.specs.Sites.{PartFits};
ghost use Rattle.collector.specs.Merging.{IsBundle};
ghost use Rattle.collector.specs.Spelling.{IsText};
ghost use Rattle.command_base.specs.Faults.{HasCause, Precedes};
ghost use Rattle.command_widen.specs.Loading.{HoldsTexts, HoldsWide, IsOfPart};
ghost use Rattle.command_widen.specs.Widen.{AreRefusedTexts, RefusesTexts};

use crate::checks::check_loaded;
use crate::loaded::{Loaded, load_texts};
use crate::texts::WidenTexts;
use cbi_base::ProgramId;
use collector::{Collection, one_collection};
use command_base::Fault;
use command_inputs::fault_of;
use flow::Part;
use program_file::{one_program, program_id};
use site_parts::{fitting_reports_may_widen, widen, widened_reports_fit};
use std::alloc::Global;

// A collection of the whole program, with this identity, that holds the reports as runs of that one.
fn widen_loaded(
    alloc: Global,
    loaded: Loaded,
    whole_id: ProgramId,
    part: Part,
) -> Result<Collection, Fault>
    requires part { PartFits part }
    requires of_part { IsOfPart part loaded }
    requires is_text { IsText loaded.bundle }
    requires is_bundle { IsBundle loaded.bundle }
    ensures holds { IfOk result (HoldsWide part whole_id loaded) }
    ensures fault { IfErr result (λ e. HasCause e (λ n. ⊥) ⊥ (λ r. ⊥)) }
    ensures precedes { IfErr result Precedes }
{
    fitting_reports_may_widen();
    widened_reports_fit();
    let Loaded {
        whole,
        program: _,
        bundle,
    } = loaded;
    let table = whole.table();
    let wide = widen(bundle, whole_id, part);
    let Ok(mut collection) = Collection::new(alloc, whole_id, table) else {
        return Err(Fault::Memory);
    };
    match collection.merge(wide) {
        Ok(_) => Ok(collection),
        Err(fault) => Err(fault_of(fault)),
    }
}

/// A collection of the whole program that holds the reports that the texts spell, as runs of that one.
pub fn widen_texts(alloc: Global, texts: &WidenTexts, part: Part) -> Result<Collection, Fault>
    requires { PartFits part }
    ensures holds { IfOk result (HoldsTexts part texts.now) }
    ensures fault { IfErr result (λ e. HasCause e (λ n. ⊥) ⊥ (λ r. RefusesTexts part r texts.now)) }
    ensures refused { AreRefusedTexts part texts.now → IsErrAnd result Precedes }
{
    one_program(alloc);
    one_collection(alloc);
    let loaded = match load_texts(alloc, texts) {
        Ok(loaded) => loaded,
        Err(fault) => return Err(fault),
    };
    if let Err(fault) = check_loaded(texts, &loaded, part) {
        return Err(fault);
    }
    let whole = program_id(texts.whole.as_slice());
    widen_loaded(alloc, loaded, whole, part)
}
