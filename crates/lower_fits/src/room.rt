ghost use Rattle.std.specs.Prelude.{ℕ, ◌+◌, ◌*◌, ◌≤◌, length, List, slice_get};
ghost use Rattle.c_syntax.specs.Words.{SourceTree, tree_kinds};
ghost use Rattle.c_types_expressions.specs.declared.walk.Walk.{Walk};
ghost use Rattle.flow.specs.declared.site.Site.{Site};
ghost use Rattle.c_meaning.specs.Words.{function_bodies, sites_by_table};
ghost use Rattle.lower_relation.specs.Room.{functions_room};
ghost use Rattle.c_meaning_sound.specs.Accepted.{IsAcceptedTree};

use c_types::functions_are_numbered_in_order;

/// The functions of an accepted text have room for at most 16 nodes for each of its tokens, and for one more for each site of any table: each
/// token belongs to one construct, and each site stands at one token and looks at one construct there.
pub fn an_accepted_text_has_few_nodes()
    ensures { (tree : SourceTree) (walk : Walk) (table : List Site) → IsAcceptedTree tree walk
        → functions_room (sites_by_table table) (slice_get (function_bodies tree)) (length walk.definitions) ≤ 16 * length (tree_kinds tree) + length table }
{
    functions_are_numbered_in_order();
}
