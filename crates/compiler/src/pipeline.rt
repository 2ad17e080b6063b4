ghost use Rattle.std.specs.Prelude.{◌≡◌, ℕ, List, None, IfErr, IfOk, IsErr, OnOk};
ghost use Rattle.flow.specs.Words.{MayPart, table_of, IsReady};
ghost use Rattle.c_syntax.specs.ItemTree.{SourceTree};
ghost use Rattle.c_types_expressions.specs.declared.walk.Walk.{Walk};
ghost use Rattle.c_types.specs.Answers.{known_of, tree_of};
ghost use Rattle.flow.specs.declared.site.Site.{Site};
ghost use Rattle.defined_functions.specs.Functions.{functions_of};
ghost use Rattle.clone_paths.specs.Cloned.{MayClone};
ghost use Rattle.compiler.specs.Accepted.{IsAccepted};
ghost use Rattle.compiler.specs.Compiled.{DoesPlan, IsCompiled};
ghost use Rattle.compiler.specs.Does.{DoesText};
ghost use Rattle.compiler.specs.Planned.{FitsPlan, part_in, planned_sites};
ghost use Rattle.compiler.specs.Refused.{CrowdedBy, IsRefusedText, RefusedBy};

use crate::compile_error::CompileError;
use crate::front::accept;
use crate::laws::{accepted_texts_never_fault, one_accepted_text};
use crate::plan::{Plan, part_in, schemes_of};
use c_types::Checked;
use cbi_base::{Memory, Refusal};
use flow::{Part, Program, SiteTable};
use lower::lower;
use lower_fits::kept_texts_are_whole;
use program_parts::keep_part;
use sampling::sample;
use sites::{SiteError, schemes_choose_sites, site_table};
use std::alloc::Global;

/// The sites of a checked text by a plan, and the names of its functions.
fn sites_for(alloc: Global, checked: &Checked, plan: Plan) -> Result<SiteTable, CompileError>
    ensures sites { IfOk result (λ t. t.sites ≡ planned_sites plan (tree_of checked.now) (known_of checked.now)) }
    ensures functions { IfOk result (λ t. t.functions ≡ functions_of (tree_of checked.now)) }
    ensures fits { OnOk result (FitsPlan plan (tree_of checked.now) (known_of checked.now)) }
    ensures refused { IfErr result (CrowdedBy plan (tree_of checked.now) (known_of checked.now)) }
{
    schemes_choose_sites();
    match site_table(alloc, checked, schemes_of(plan)) {
        Ok(table) => Ok(table),
        Err(SiteError::Memory) => Err(CompileError::Memory),
        Err(SiteError::TooManySites) => Err(CompileError::Refused {
            refusal: Refusal::TooManySites,
        }),
    }
}

/// The program with a part of the sites, from the one that looks at each visit of all; that one itself where no part is named.
fn keep(alloc: Global, program: Program, part: Option<Part>) -> Result<Program, Memory>
    requires may_clone { MayClone program }
    requires ready { IsReady program }
    requires part { MayPart part }
    ensures does { (tree : SourceTree) (known : Walk) (table : List Site) → DoesText tree known table None program
        → IfOk result (DoesText tree known table part) }
    ensures names { IfOk result (λ q. (table_of q).functions ≡ (table_of program).functions) }
    ensures may_clone { IfOk result MayClone }
    ensures ready { IfOk result IsReady }
{
    match part {
        None => Ok(program),
        Some(part) => keep_part(alloc, program, part),
    }
}

/// The program of a text by a plan, from the one that looks at each visit of the plan's sites. A part is taken of that one, before the visits are
/// sampled.
fn by_plan(alloc: Global, program: Program, plan: Plan) -> Result<Program, Memory>
    requires may_clone { MayClone program }
    requires ready { IsReady program }
    requires part { MayPart (part_in plan) }
    ensures does { (tree : SourceTree) (known : Walk) → DoesText tree known (planned_sites plan tree known) None program
        → IfOk result (DoesPlan plan tree known) }
    ensures names { IfOk result (λ q. (table_of q).functions ≡ (table_of program).functions) }
{
    let program = keep(alloc, program, part_in(plan))?;
    match plan {
        Plan::Plain | Plan::Full { .. } => Ok(program),
        Plan::Sampled { .. } => sample(alloc, program),
    }
}

/// The program of a checked text, by a plan. Refused with TooManySites exactly where the sites of the plan are more than 65,536, which those of a
/// plain program never are.
fn compile_checked(alloc: Global, checked: &Checked, plan: Plan) -> Result<Program, CompileError>
    requires part { MayPart (part_in plan) }
    ensures compiled { (text : List ℕ) → IsAccepted text (tree_of checked.now) (known_of checked.now) → IfOk result (IsCompiled text plan) }
    ensures fits { OnOk result (FitsPlan plan (tree_of checked.now) (known_of checked.now)) }
    ensures refused { IfErr result (CrowdedBy plan (tree_of checked.now) (known_of checked.now)) }
{
    accepted_texts_never_fault();
    kept_texts_are_whole();
    checked.facts();
    let table = sites_for(alloc, checked, plan)?;
    let program = lower(alloc, checked, table)?;
    let planned = by_plan(alloc, program, plan)?;
    Ok(planned)
}

/// Compiles a text, of at most 1,048,576 bytes. It is refused by the first cause in this order: its tokens, its tree, its types (each with the line
/// where it stands), and then its sites, which are more than 65,536, before a part of them is taken. A plain program has no sites and isn't refused for
/// them. There is a program of each accepted text with so few sites, but for want of memory.
pub fn compile(alloc: Global, text: &[u8], plan: Plan) -> Result<Program, CompileError>
    requires { MayPart (part_in plan) }
    ensures compiled { IfOk result (IsCompiled text.now plan) }
    ensures fits { OnOk result ((tree : SourceTree) (known : Walk) → IsAccepted text.now tree known → FitsPlan plan tree known) }
    ensures refused { IfErr result (RefusedBy plan text.now) }
    ensures refused_only { IsRefusedText plan text.now → IsErr result }
{
    one_accepted_text();
    let checked = accept(alloc, text)?;
    compile_checked(alloc, &checked, plan)
}
