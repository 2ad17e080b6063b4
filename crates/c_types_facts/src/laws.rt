ghost use Rattle.std.specs.Prelude.{◌≡◌, ℕ, List, is_some, map};
ghost use Rattle.c_syntax.specs.Words.{SourceTree, IsShaped};
ghost use Rattle.c_types.specs.Answers.{declared_at, place_at, variable_at};
ghost use Rattle.c_types.specs.Fault.{walk_tree};
ghost use Rattle.c_types_expressions.specs.Walked.{Fine};
ghost use Rattle.c_types_expressions.specs.declared.walk.Walk.{Walk};
ghost use Rattle.c_types_faults.specs.Scopes.{start_of};
ghost use Rattle.c_types_facts.specs.Statements.{Typed};
ghost use Rattle.c_types_facts.specs.Texts.{AreAlike, BeginsInMain, TextTyped, type_in, typed_token, typed_type};

/// In a text without a fault, a token has a declared type exactly where a name stands there that means a variable. In a tree of the
/// grammar it is the type that the declaration of that variable gives it, an array as such and a parameter as it is adjusted: the
/// variables are those that the declarations list, in the order of the tokens of their names.
pub fn variables_have_declared_types()
    ensures exact { (t : SourceTree) (known : Walk) → walk_tree t ≡ Fine tt known → (token : ℕ)
        → is_some (declared_at known token) ≡ is_some (variable_at known token) }
    ensures said { (t : SourceTree) (known : Walk) → IsShaped t → walk_tree t ≡ Fine tt known → (own : List Typed)
        × (TextTyped known t own × (map start_of known.variables ≡ map typed_token own)
        × ((token : ℕ) → declared_at known token ≡ type_in own (place_at known token))) }
{}

/// In a tree of the grammar without a fault, what is noted is what the declarations say: each expression has at its own token the
/// type of the operand that it is by the declarations that hold there, each variable has the type that its declaration gives it,
/// each definition of a function has the types of its parameters and of its result, and the sizes of its variables, the globals are
/// as many as are declared, and a run begins in `main`. The tree forces that: of two notes that both are what its declarations say,
/// none differs from the other.
pub fn facts_are_those_of_the_declarations()
    ensures said { (t : SourceTree) (known : Walk) → IsShaped t → walk_tree t ≡ Fine tt known → (own : List Typed)
        × (TextTyped known t own × (known.declared_types ≡ map typed_type own) × (map start_of known.variables ≡ map typed_token own)) }
    ensures forced { (t : SourceTree) (w v : Walk) (a b : List Typed) → TextTyped w t a → TextTyped v t b → AreAlike t w v a b }
{}

/// A run of a text without a fault begins in the definition of `main` (C99 5.1.2.2.1), by its number in the order of the definitions.
pub fn runs_begin_in_main()
    ensures { (t : SourceTree) (known : Walk) → IsShaped t → walk_tree t ≡ Fine tt known → BeginsInMain known t }
{}
