ghost use Rattle.std.specs.Prelude.{◌≡◌, ◌≤◌, List, length};
ghost use Rattle.c_syntax.specs.Words.{SourceTree, IsKeptTree};
ghost use Rattle.c_types_expressions.specs.declared.walk.Walk.{Walk};
ghost use Rattle.c_types_expressions.specs.Walked.{Fine};
ghost use Rattle.c_types.specs.Fault.{walk_tree};
ghost use Rattle.c_meaning.specs.Words.{facts_of, main_of};
ghost use Rattle.flow.specs.declared.program.Function.{Function};
ghost use Rattle.flow.specs.declared.program.Global.{Global};
ghost use Rattle.flow.specs.declared.site.TableParts.{TableParts};
ghost use Rattle.flow.specs.Words.{site_limit, IsProgram, parts_of};
ghost use Rattle.lower_fits.specs.Parts.{ArePartsOf};
ghost use Rattle.lower_fits.specs.Ready.{IsReadyText, IsWholeText};

use crate::globals::globals_of_an_accepted_text_fit;
use crate::parts::{functions_of_an_accepted_text_fit, texts_of_an_accepted_text_fit};
use c_meaning_sound::sites_of_an_accepted_text_stand;

/// A tree as a parser gives it, through whose types the walk comes without a fault, is a whole text. So a checked tree with a site table is ready.
pub fn kept_texts_are_whole()
    ensures { (tree : SourceTree) (walk : Walk) → IsKeptTree tree → walk_tree tree ≡ Fine tt walk → IsWholeText tree walk }
{}

/// What is made of an accepted text keeps the conditions on programs: its strings, its globals with what they begin with, its functions with nodes
/// that fit, the number of `main`, and its sites, of which there are at most as many as a program takes.
pub fn parts_of_an_accepted_text_are_a_program()
    ensures { (tree : SourceTree) (walk : Walk) (table : TableParts) (globals : List Global) (functions : List Function) → IsReadyText tree walk table
        → ArePartsOf tree walk table globals functions → length table.sites ≤ site_limit
        → IsProgram (parts_of (facts_of tree walk).statics.texts globals functions (main_of walk) table.sites) }
{
    globals_of_an_accepted_text_fit();
    functions_of_an_accepted_text_fit();
    texts_of_an_accepted_text_fit();
    sites_of_an_accepted_text_stand();
}
