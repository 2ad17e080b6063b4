//! Laws of the definitions, each on a function of its own without a body.
ghost use Rattle.std.specs.Prelude.{◌≤◌, length};
ghost use Rattle.c_syntax.specs.ItemTree.{SourceTree};
ghost use Rattle.c_types_expressions.specs.declared.walk.Walk.{Walk};
ghost use Rattle.flow.specs.declared.site.TableParts.{TableParts};
ghost use Rattle.flow.specs.Limits.{site_limit};
ghost use Rattle.lower_fits.specs.Ready.{IsReadyText};
ghost use Rattle.compiler_exists.specs.TextPrograms.{HasProgram};

use lower_fits::{an_accepted_text_has_few_nodes, parts_of_an_accepted_text_are_a_program};

/// Each checked text of bytes has a program, with any table of its sites for which a program has room: one that keeps all conditions on programs, and
/// is the text's graph, so that it does what the text means. It is what emitting a text is to come to where memory isn't wanting.
pub fn each_ready_text_has_a_program()
    ensures { (tree : SourceTree) (walk : Walk) (table : TableParts) → IsReadyText tree walk table → length table.sites ≤ site_limit
        → HasProgram tree walk table }
{
    an_accepted_text_has_few_nodes();
    parts_of_an_accepted_text_are_a_program();
}
