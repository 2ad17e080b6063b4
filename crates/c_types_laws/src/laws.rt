ghost use Rattle.std.specs.Prelude.{◌≡◌};
ghost use Rattle.c_syntax.specs.Words.{SourceTree, IsShaped};
ghost use Rattle.c_types.specs.Fault.{walk_tree};
ghost use Rattle.c_types_expressions.specs.Walked.{Fine};
ghost use Rattle.c_types_expressions.specs.declared.walk.Walk.{Walk};
ghost use Rattle.c_types_laws.specs.Fits.{TextFits};

/// In a tree of the grammar without a fault, each name means the innermost variable in scope at its token, and no variable has the
/// name of a function that is called in a scope that holds the call. Operands, arguments, conditions and returned values have the types
/// that C99 6.5 and 6.8 ask for, and each operator gives the type that it says. Of an initialiser only its expressions are spoken of,
/// not whether its value may initialise the variable.
pub fn accepted_texts_fit()
    ensures { (t : SourceTree) (known : Walk) → IsShaped t → walk_tree t ≡ Fine tt known → TextFits known t }
{}
