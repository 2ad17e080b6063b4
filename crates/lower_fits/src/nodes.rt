ghost use Rattle.std.specs.Prelude.{◌≡◌, ℕ, Bool, true, IsSome, IsTrue, List, Some, slice_get};
ghost use Rattle.std.specs.List.{AllByRecursion};
ghost use Rattle.cbi_base.specs.Format.{conversions_of};
ghost use Rattle.c_syntax.specs.Words.{SourceTree, tree_kinds, EntryList, KindFits, IsShaped};
ghost use Rattle.c_types_rules.specs.declared.operand.Operand.{Operand};
ghost use Rattle.c_types_rules.specs.Library.{fits_format};
ghost use Rattle.flow.specs.declared.node.Node.{Node};
ghost use Rattle.flow.specs.declared.scope.Bounds.{Bounds};
ghost use Rattle.flow.specs.declared.scope.Names.{Names};
ghost use Rattle.flow.specs.Words.{names_fit, view};
ghost use Rattle.c_meaning.specs.Words.{Facts, Signature, Sites, function_bodies};
ghost use Rattle.lower_relation.specs.Functions.{BodyDoes, ComesTo, FunctionExits, graph_of_nodes};
ghost use Rattle.lower_relation.specs.Paths.{Exits};
ghost use Rattle.lower_fits.specs.Example.{ExampleFits};
ghost use Rattle.lower_fits.specs.Fitting.{FitsAsBody, BodyStands, fits_view, fitting_subgraph};

/// Where the types of a body fit, nodes that do the body do it by those of them that may stand in a program: they name what is there, and their
/// numbers lie in their ranges. So do the nodes by which a function begins, and those by which it is left. There is such a body.
pub fn the_nodes_of_a_body_fit()
    ensures body { (facts : Facts) (sites : Sites) (names : Names) (bounds : Bounds) (f : Signature) (lo : ℕ) (body : EntryList) (nodes : List Node)
        (start : ℕ) (exits : Exits) → FitsAsBody facts sites names bounds f lo body
        → BodyDoes (graph_of_nodes nodes) facts sites f.result (Some body) start exits
        → BodyDoes (fitting_subgraph names bounds (graph_of_nodes nodes)) facts sites f.result (Some body) start exits }
    ensures begins { (names : Names) (bounds : Bounds) (nodes : List Node) (start entry : ℕ) → ComesTo (graph_of_nodes nodes) start entry
        → ComesTo (fitting_subgraph names bounds (graph_of_nodes nodes)) start entry }
    ensures leaves { (names : Names) (bounds : Bounds) (nodes : List Node) (is_main has_value : Bool) (exits : Exits)
        → FunctionExits (graph_of_nodes nodes) is_main has_value exits
        → FunctionExits (fitting_subgraph names bounds (graph_of_nodes nodes)) is_main has_value exits }
    ensures named { (names : Names) (bounds : Bounds) (op : Node) → IsTrue (fits_view names bounds (view op)) → IsTrue (names_fit names bounds op) }
    ensures example { ExampleFits }
{}

/// A format that the rules take, with whatever arguments, has a number of conversions.
pub fn a_format_has_its_conversions()
    ensures { (bytes : List ℕ) (xs : List Operand) → fits_format bytes xs ≡ true → IsSome (conversions_of bytes) }
{}

/// Each body of a text stands among its tokens, and its constants lie in their kinds where those of all tokens do.
pub fn the_bodies_of_a_text_stand_among_its_tokens()
    ensures { (text : SourceTree) (number : ℕ) (body : EntryList) → IsShaped text → AllByRecursion KindFits (tree_kinds text)
        → slice_get (function_bodies text) number ≡ Some body → BodyStands text body }
{}
