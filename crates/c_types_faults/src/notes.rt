ghost use Rattle.std.specs.Prelude.{◌≡◌, ℕ, true, is_some, map, slice_get};
ghost use Rattle.c_syntax.specs.Words.{SourceTree, IsShaped};
ghost use Rattle.c_types.specs.Answers.{function_at, scope_holds, type_at};
ghost use Rattle.c_types.specs.Fault.{walk_tree};
ghost use Rattle.c_types_expressions.specs.Walked.{Fine};
ghost use Rattle.c_types_expressions.specs.declared.walk.Walk.{Walk};
ghost use Rattle.c_types_faults.specs.NotedCalls.{number_called};
ghost use Rattle.defined_functions.specs.Functions.{functions_of};
ghost use Rattle.c_types_faults.specs.Events.{construct_at, events_of, is_point};
ghost use Rattle.c_types_faults.specs.Offsets.{HasOffset};
ghost use Rattle.c_types_faults.specs.Scopes.{lies_in_scope, scope_name, scopes_of, start_of};

/// In a tree of the grammar without a fault, a token has a type exactly where one of the expressions that the events of its tree
/// list has it for its own, so that they leave none out.
pub fn expressions_are_events()
    ensures { (t : SourceTree) (known : Walk) → IsShaped t → walk_tree t ≡ Fine tt known → (token : ℕ)
        → is_some (type_at known token) ≡ is_some (construct_at token (events_of t)) }
{}

/// In a tree of the grammar without a fault, a token has an offset exactly where it is the own token of a `.` or `->`. The
/// offset is the sum of the cells of the members before the named one, in the struct that the operand's noted type says.
pub fn members_have_offsets()
    ensures { (t : SourceTree) (known : Walk) → IsShaped t → walk_tree t ≡ Fine tt known → (token : ℕ)
        → HasOffset known token (construct_at token (events_of t)) }
{}

/// In a tree of the grammar without a fault, a token has a function exactly where a call of a function that the text defines
/// has its name there, and it is the number of the definition of that name, in their order.
pub fn calls_have_functions()
    ensures { (t : SourceTree) (known : Walk) → IsShaped t → walk_tree t ≡ Fine tt known → (token : ℕ)
        → function_at known token ≡ number_called (functions_of t) (construct_at token (events_of t)) }
{}

/// In a tree of the grammar without a fault, the scope of a variable holds the own token of an expression, and the `=` of an
/// initialiser, exactly where the token lies behind the variable's declarator and within the part that declares it: the
/// block, the `for`, the function, or the text. The variables are those of these scopes, in their order.
pub fn scopes_are_blocks()
    ensures scopes { (t : SourceTree) (known : Walk) → IsShaped t → walk_tree t ≡ Fine tt known → (place token : ℕ) → is_point t token ≡ true
        → scope_holds known place token ≡ lies_in_scope token (slice_get (scopes_of t) place) }
    ensures names { (t : SourceTree) (known : Walk) → IsShaped t → walk_tree t ≡ Fine tt known → map start_of known.variables ≡ map scope_name (scopes_of t) }
{}
