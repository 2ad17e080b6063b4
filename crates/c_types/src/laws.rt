ghost use Rattle.std.specs.Prelude.{◌≡◌, ℕ, ◌*◌, ◌<◌, ◌≤◌, List, ◌∷◌, ◌++◌, length, map, is_some, None, Some};
ghost use Rattle.std.specs.List.{AllByRecursion};
ghost use Rattle.c_syntax.specs.ItemTree.{SourceTree};
ghost use Rattle.c_types_rules.specs.declared.layout.StructType.{StructType};
ghost use Rattle.c_types_rules.specs.Words.{cells_of, TypeTree, Array};
ghost use Rattle.c_types.specs.Answers.{type_at, variable_at};
ghost use Rattle.c_types.specs.Fault.{walk_tree};
ghost use Rattle.c_types.specs.Hiding.{declaration_of};
ghost use Rattle.c_types.specs.Laid.{IsSummed};
ghost use Rattle.c_types_expressions.specs.Words.{names_after_scope, declared_meaning, Fine};
ghost use Rattle.c_types.specs.Numbers.{HasNumber, definition_frame, frames_from, variables_of};
ghost use Rattle.c_types.specs.Parts.{has_expression, has_variable};
ghost use Rattle.c_types_expressions.specs.declared.names.Meaning.{Meaning};
ghost use Rattle.c_types_expressions.specs.declared.names.ScopeEntry.{ScopeEntry};
ghost use Rattle.c_types_expressions.specs.declared.names.ScopeEntry.TheVariants.{Opens, Declares};
ghost use Rattle.c_types_expressions.specs.declared.walk.Walk.{Walk};

/// A name means its latest declaration, whatever stands before that; and at the end of a scope, whatever was declared in
/// it, each name means again what it meant before.
pub fn inner_names_hide()
    ensures hides { (name : List ℕ) (m : Meaning) (outer : List ScopeEntry) → declared_meaning name (Declares name m ∷ outer) ≡ Some m }
    ensures back { (inner : List (List ℕ × Meaning)) (outer : List ScopeEntry) → names_after_scope (map declaration_of inner ++ Opens ∷ outer) ≡ outer }
{}

/// In a text without a fault, exactly the own tokens of expressions have a type: an operator's own token is its sign, a
/// chain's are its operators, a postfix's is `[`, `.`, `->`, `++` or `--`, and a call's is the name.
pub fn expressions_have_types()
    ensures exact { (t : SourceTree) (known : Walk) → walk_tree t ≡ Fine tt known → (token : ℕ) → token < length t.lines
        → is_some (type_at known token) ≡ has_expression t token }
    ensures beyond { (t : SourceTree) (known : Walk) → walk_tree t ≡ Fine tt known → (token : ℕ) → length t.lines ≤ token → type_at known token ≡ None }
{}

/// In a text without a fault, exactly the names that declare or name a variable mean one.
pub fn names_have_variables()
    ensures exact { (t : SourceTree) (known : Walk) → walk_tree t ≡ Fine tt known → (token : ℕ) → token < length t.lines
        → is_some (variable_at known token) ≡ has_variable t token }
    ensures beyond { (t : SourceTree) (known : Walk) → walk_tree t ≡ Fine tt known → (token : ℕ) → length t.lines ≤ token → variable_at known token ≡ None }
{}

/// An array has its length times the cells of its element. A struct of a text without a fault has the sum of its members'
/// cells, and each member lies behind those before it.
pub fn sizes_are_sums()
    ensures arrays { (structs : List StructType) (element : TypeTree) (size : ℕ) → cells_of structs (Array element size) ≡ size * cells_of structs element }
    ensures structs { (t : SourceTree) (known : Walk) → walk_tree t ≡ Fine tt known → AllByRecursion (IsSummed known.structs) known.structs }
{}

/// The variables of a text without a fault are those that its names declare, in their order: the globals are numbered
/// through, and the locals of each function from its first parameter on.
pub fn variables_are_numbered_in_order()
    ensures { (t : SourceTree) (known : Walk) → walk_tree t ≡ Fine tt known → known.variables ≡ variables_of t }
{}

/// The functions of a text without a fault are numbered as their definitions stand in it: a declared function has a number
/// exactly where the definition with this number is its own. The locals of each definition begin behind all variables that
/// are declared before it.
pub fn functions_are_numbered_in_order()
    ensures numbers { (t : SourceTree) (known : Walk) → walk_tree t ≡ Fine tt known → (place number : ℕ) → HasNumber known place number }
    ensures frames { (t : SourceTree) (known : Walk) → walk_tree t ≡ Fine tt known → map definition_frame known.definitions ≡ frames_from 0 t.items }
{}
