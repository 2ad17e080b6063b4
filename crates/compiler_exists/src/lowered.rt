//! Laws of the definitions, each on a function of its own without a body.
ghost use Rattle.std.specs.Prelude.{Bool, List, Option, ◌++◌, length};
ghost use Rattle.c_syntax.specs.Words.{ExprTree, EntryList, StatementTree};
ghost use Rattle.flow.specs.declared.node.Node.{Node};
ghost use Rattle.flow.specs.declared.program.Global.{Global};
ghost use Rattle.flow.specs.declared.program.Text.{Text};
ghost use Rattle.flow.specs.declared.site.TableParts.{TableParts};
ghost use Rattle.c_meaning.specs.declared.value_type.ValueType.{ValueType};
ghost use Rattle.c_meaning.specs.Words.{Facts, Sites, Source};
ghost use Rattle.lower_relation.specs.Expressions.{emitted_expression};
ghost use Rattle.lower_relation.specs.Room.{expr_room, statement_room};
ghost use Rattle.lower_relation.specs.Statements.{StatementDoes};
ghost use Rattle.compiler_exists.specs.Built.{Builds, StandAlong};
ghost use Rattle.lower_nodes.specs.Ends.{all_ends};
ghost use Rattle.compiler_exists.specs.Emits.{BuildsAll};
ghost use Rattle.compiler_exists.specs.Functions.{BodyBuilt};
ghost use Rattle.compiler_exists.specs.Programs.{Brings, HasGraphProgram};

/// Nodes stand in every list that has them, from where they are in it on.
pub fn nodes_stand_where_they_are_put()
    ensures { (before nodes after : List Node) → StandAlong (before ++ (nodes ++ after)) (length before) nodes }
{}

/// Each expression has nodes that do what is asked for of it: its value, the place that it finds, what it does where nothing takes its value, and
/// the ways that its truth goes. They may stand at any number, and go on anywhere. Nothing is asked of the expression: no run comes to the nodes
/// of one without a meaning.
pub fn each_expression_has_nodes()
    ensures { (facts : Facts) (sites : Sites) (y : ExprTree) → BuildsAll (λ G. emitted_expression G facts sites y) (expr_room sites y) }
{}

/// Each statement of a function with any result has such nodes, wherever it goes on: after it, and at a `break`, a `continue` and a `return`.
pub fn each_statement_has_nodes()
    ensures { (facts : Facts) (sites : Sites) (gives : ValueType) (y : StatementTree)
        → Builds all_ends (λ G. StatementDoes G facts sites gives y) (statement_room sites y) }
{}

/// So has the body of each function, with the nodes at which it is left and the one where it begins.
pub fn each_body_has_nodes()
    ensures { (facts : Facts) (sites : Sites) (is_main : Bool) (gives : ValueType) (body : Option EntryList) → BodyBuilt facts sites is_main gives body }
{}

/// Each source that brings what a program has besides, its texts, its globals, its sites and names for its functions, has a program that is its
/// graph, and so does what it means. Nothing else is asked of it, and the program has no more nodes than there is room for.
pub fn each_source_has_a_program()
    ensures { (src : Source) (texts : List Text) (globals : List Global) (table : TableParts) → Brings src texts globals table → HasGraphProgram src table }
{}
