ghost use Rattle.std.specs.Prelude.{◌≡◌, ◌<◌, ◌+◌, ℕ, List, [], length};
ghost use Rattle.std.specs.List.{All};
ghost use Rattle.c_syntax.specs.Words.{ItemTree, SourceTree, ItemAt, item_kinds, tree_kinds, IsShaped};
ghost use Rattle.c_types_expressions.specs.declared.walk.Walk.{Walk};
ghost use Rattle.flow.specs.declared.site.Site.{Site};
ghost use Rattle.flow.specs.declared.choice.Schemes.{Schemes};
ghost use Rattle.sites.specs.Rising.{RisesWithin};
ghost use Rattle.defined_functions.specs.Functions.{functions_of};
ghost use Rattle.sites.specs.Table.{item_sites, sites_of};
ghost use Rattle.sites.specs.Wanted.{all_schemes, no_schemes, wanted_sites};

/// The table for some schemes has those sites of the table for all that the schemes want, in the same order. So two tables for
/// schemes that have nothing in common interleave to the table for both, and without a scheme there is no site.
pub fn schemes_choose_sites()
    ensures chosen { (t : SourceTree) (w : Walk) (schemes : Schemes) → sites_of t w schemes ≡ wanted_sites schemes (sites_of t w all_schemes) }
    ensures none { (t : SourceTree) (w : Walk) → sites_of t w no_schemes ≡ [] }
{}

/// Each site belongs to one of the functions.
pub fn sites_have_functions()
    ensures { (t : SourceTree) (w : Walk) (schemes : Schemes) → All (λ (s : Site). s.function < length (functions_of t)) (sites_of t w schemes) }
{}

/// The tokens of a table's sites never fall, and an item's sites stand within the item.
pub fn sites_rise()
    ensures table { (t : SourceTree) (w : Walk) (schemes : Schemes) → IsShaped t → RisesWithin 0 (length (tree_kinds t)) (sites_of t w schemes) }
    ensures item { (x : ItemTree) (at number : ℕ) (w : Walk) (lines : List ℕ) (schemes : Schemes) → ItemAt at x →
        RisesWithin at (at + length (item_kinds x)) (item_sites w lines schemes number x) }
{}
