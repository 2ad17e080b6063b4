ghost use Rattle.std.specs.Prelude.{◌≡◌, ◌≤◌, ◌-◌, length, IfOk, OnOk, IfErr, IsErrAnd};
ghost use Rattle.command_base.specs.Faults.{HasCause, Precedes};
ghost use Rattle.command_base.specs.declared.done.Done.TheVariants.{Added};
ghost use Rattle.command_collect.specs.Collect.{AreBundles, AreRefusedTexts, RefusesTexts, StopsWith, TakesAll, reports_in};
ghost use Rattle.command_collect.specs.Gathered.{HasGathered};

use crate::reports::{CollectTexts, read_all};
use cbi_base::Seq;
use collector::{Bundle, Collection};
use command_base::{Done, Fault};
use command_inputs::{fault_of, load_program};
use program_file::program_id;
use std::alloc::Global;

/// The collection of the reports of all files, and how many reports the files have.
#[derive(Drop)]
pub struct Gathered {
    pub collection: Collection,
    pub reports: u128,
}

/// How many reports the bundles have.
fn count(bundles: &[Bundle]) -> u128
    ensures { result ≡ length (reports_in bundles.now) }
{
    let mut count = 0u128;
    let mut rest = bundles;
    while let [bundle, after @ ..] = rest {
        count += bundle.reports.len() as u128;
        rest = after;
    }
    count
}

/// Adds the reports of the bundles in their order.
fn add_all(collection: &mut Collection, bundles: Seq<Bundle>) -> Result<(), Fault>
    requires { AreBundles bundles }
    ensures taken { OnOk result (TakesAll collection.old bundles collection.new) }
    ensures fault { IfErr result (λ e. HasCause e (λ n. ⊥) ⊥ (StopsWith collection.old bundles)) }
{
    let mut rest = bundles.into_vec();
    rest.reverse();
    while let Some(bundle) = rest.pop() {
        match collection.merge(bundle) {
            Ok(_) => continue,
            Err(fault) => return Err(fault_of(fault)),
        }
    }
    Ok(())
}

impl Gathered {
    /// What is said of it: how many runs are held, and how many reports were held already.
    pub fn said(&self) -> Done
        requires { length self.now.collection.reports ≤ self.now.reports }
        ensures { result ≡ Added (length self.now.collection.reports) (self.now.reports - length self.now.collection.reports) }
    {
        let added = self.collection.reports_held();
        Done::Added {
            added,
            repeated: self.reports - u128::from(added),
        }
    }
}

/// The collection of the program, to which the reports of all files were added.
pub fn gather(alloc: Global, texts: &CollectTexts) -> Result<Gathered, Fault>
    ensures gathered { IfOk result (HasGathered texts.now) }
    ensures fault { IfErr result (λ e. HasCause e (λ n. ⊥) ⊥ (λ r. RefusesTexts r texts.now)) }
    ensures refused { AreRefusedTexts texts.now → IsErrAnd result Precedes }
{
    let program = match load_program(alloc, texts.program.as_slice()) {
        Ok(program) => program,
        Err(fault) => return Err(fault),
    };
    let bundles = match read_all(alloc, texts.files.as_slice()) {
        Ok(bundles) => bundles,
        Err(fault) => return Err(fault),
    };
    let reports = count(bundles.as_slice());
    let id = program_id(texts.program.as_slice());
    let Ok(mut collection) = Collection::new(alloc, id, program.table()) else {
        return Err(Fault::Memory);
    };
    match add_all(&mut collection, bundles) {
        Ok(()) => {
            collection.keeps();
            Ok(Gathered {
                collection,
                reports,
            })
        }
        Err(fault) => Err(fault),
    }
}
