ghost use Rattle.std.specs.Prelude.{◌≡◌, ℕ, ◌≤◌, ◌+◌, ◌*◌, IfOk, Some, length, map, slice_get};
ghost use Rattle.c_meaning.specs.Texts.{source_of};
ghost use Rattle.c_types.specs.Answers.{known_of, tree_of};
ghost use Rattle.flow.specs.Words.{ArePlain, IsReady, function_limit, site_limit, table_of};
ghost use Rattle.flow.specs.declared.program.Function.{Function};
ghost use Rattle.std.specs.List.{All};
ghost use Rattle.lower_relation.specs.Functions.{IsGraphOf};
ghost use Rattle.lower_relation.specs.Room.{function_room, functions_room};
ghost use Rattle.lower.specs.Fits.{AreFitting, IsFitting, NodesStand, names_in};
ghost use Rattle.lower.specs.Means.{MeansText};
ghost use Rattle.lower.specs.Programs.{AreFunctionsOf, HasNoMore, IsFunctionOf, node_count};
ghost use Rattle.lower_fits.specs.Ready.{IsReadyText};
ghost use Rattle.lower_facts.specs.Facts.{known_in, sites_in, source_in, table_in, tree_in};
ghost use Rattle.c_syntax.specs.Spelling.{tree_kinds};

use crate::functions::emit_function;
use c_types::Checked;
use cbi_base::{Memory, Name, Seq};
use flow::{Function, Program, ProgramParts, SiteTable, copy_of};
use lower_facts::TreeFacts;
use lower_fits::{an_accepted_text_has_few_nodes, parts_of_an_accepted_text_are_a_program};
use lower_globals::globals_of_text;
use lower_trees::has_value;
use std::alloc::Global;

/// The function of the text with this number, under this name.
fn function_of(
    alloc: Global,
    facts: &TreeFacts<'_>,
    number: u32,
    name: &Name,
) -> Result<Function, Memory>
    requires { IsFitting (source_in facts.now) (names_in facts.now) number }
    ensures does { IfOk result (λ f. IsFunctionOf (source_in facts.now) number f) }
    ensures name { IfOk result (λ f. f.name ≡ name.now) }
    ensures stand { IfOk result (λ f. NodesStand (names_in facts.now) number f) }
    ensures few { IfOk result (λ f. length f.nodes ≤ function_room (sites_in facts.now) ((source_in facts.now).body number)) }
{
    let Some(signature) = facts.signature(number) else {
        unreachable!()
    };
    let params = signature.params().len() as u32;
    let nodes = emit_function(alloc, facts, number, signature)?;
    Ok(Function {
        name: name.try_clone()?,
        value: has_value(signature.gives()),
        params,
        locals: copy_of(alloc, signature.locals())?,
        nodes: Seq::from_vec(nodes),
    })
}

/// All functions of the text, which are called so.
fn functions_of(
    alloc: Global,
    facts: &TreeFacts<'_>,
    called: &[Name],
) -> Result<Vec<Function>, Memory>
    requires fitting { AreFitting (source_in facts.now) (names_in facts.now) (length called.now) }
    requires as_many { length called.now ≡ length (known_in facts.now).definitions }
    requires few { length called.now ≤ function_limit }
    ensures are { IfOk result (λ fs. AreFunctionsOf (source_in facts.now) fs.items) }
    ensures all { IfOk result (λ fs. HasNoMore (source_in facts.now) (length fs.items)) }
    ensures names { IfOk result (λ fs. map (λ f. f.name) fs.items ≡ called.now) }
    ensures stand { IfOk result (λ fs. (number : ℕ) (f : Function) → slice_get fs.items number ≡ Some f → NodesStand (names_in facts.now) number f) }
    ensures few { IfOk result (λ fs. node_count fs.items
        ≤ functions_room (sites_in facts.now) (source_in facts.now).body (length (known_in facts.now).definitions)) }
{
    let mut functions = Vec::new(alloc);
    for name in called {
        let number = functions.len() as u32;
        let function = function_of(alloc, facts, number, name)?;
        functions.push(function)?;
    }
    Ok(functions)
}

/// The functions of the text, each under its name in the table.
fn named_functions(
    alloc: Global,
    facts: &TreeFacts<'_>,
    table: &SiteTable,
) -> Result<Vec<Function>, Memory>
    requires sites { table_in facts.now ≡ table.now.sites }
    requires ready { IsReadyText (tree_in facts.now) (known_in facts.now) table.now }
    requires few { length table.now.sites ≤ site_limit }
    ensures are { IfOk result (λ fs. AreFunctionsOf (source_in facts.now) fs.items) }
    ensures all { IfOk result (λ fs. HasNoMore (source_in facts.now) (length fs.items)) }
    ensures names { IfOk result (λ fs. map (λ f. f.name) fs.items ≡ table.now.functions) }
    ensures stand { IfOk result (λ fs. (number : ℕ) (f : Function) → slice_get fs.items number ≡ Some f → NodesStand (names_in facts.now) number f) }
    ensures few { IfOk result (λ fs. node_count fs.items
        ≤ functions_room (sites_in facts.now) (source_in facts.now).body (length (known_in facts.now).definitions)) }
{
    let functions = functions_of(alloc, facts, table.functions())?;
    Ok(functions)
}

/// The program that does what an accepted text means, with the sites of the table and its names for the functions. It has at most 16 nodes a token of
/// the text, and one more a site.
pub fn lower(alloc: Global, checked: &Checked, table: SiteTable) -> Result<Program, Memory>
    requires { IsReadyText (tree_of checked.now) (known_of checked.now) table }
    ensures graph { IfOk result (λ p. IsGraphOf (source_of (tree_of checked.now) (known_of checked.now) table.sites) p) }
    ensures means { IfOk result (λ p. MeansText (source_of (tree_of checked.now) (known_of checked.now) table.sites) p) }
    ensures sites { IfOk result (λ p. table_of p ≡ table) }
    ensures ready { IfOk result (λ p. IsReady p) }
    ensures plain { IfOk result (λ p. All (λ f. ArePlain f.nodes) p.functions) }
    ensures few { IfOk result (λ p. node_count p.functions ≤ 16 * length (tree_kinds (tree_of checked.now)) + length table.sites) }
{
    an_accepted_text_has_few_nodes();
    parts_of_an_accepted_text_are_a_program();
    let facts = TreeFacts::new(alloc, checked, &table)?;
    let functions = named_functions(alloc, &facts, &table)?;
    let Some(globals) = globals_of_text(alloc, &facts)? else {
        unreachable!()
    };
    let main = facts.main();
    let texts = facts.into_texts();
    let parts = ProgramParts {
        texts,
        globals: Seq::from_vec(globals),
        functions: Seq::from_vec(functions),
        main,
        sites: table.into_sites(),
    };
    let program = Program::of(alloc, parts)?;
    Ok(program)
}
