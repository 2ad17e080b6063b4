ghost use Rattle.std.specs.Prelude.{◌≡◌, ◌≤◌, IsSome, List, Some, length};
ghost use Rattle.std.specs.List.{All, AllByRecursion};
ghost use Rattle.c_syntax.specs.Words.{SourceTree, tree_kinds, KindFits};
ghost use Rattle.c_types_expressions.specs.declared.walk.Walk.{Walk};
ghost use Rattle.c_meaning.specs.Words.{first_objects, facts_of};
ghost use Rattle.flow.specs.Words.{global_limit, AreGlobals};
ghost use Rattle.flow.specs.declared.program.Global.{Global};
ghost use Rattle.lower_globals.specs.Objects.{begun_with};
ghost use Rattle.lower_globals.specs.Starts.{IsBegunItem};
ghost use Rattle.c_meaning_sound.specs.Accepted.{IsAcceptedTree};
ghost use Rattle.c_meaning_sound.specs.Sited.{IsSited};

/// The globals of an accepted text have what they begin with, and are globals of a program: few, each of a cell at least, with few cells
/// together, and with numbers and strings in their cells that may stand there. They begin with constants.
pub fn globals_of_an_accepted_text_fit()
    ensures there { (tree : SourceTree) (walk : Walk) → IsAcceptedTree tree walk → IsSome (first_objects tree walk) }
    ensures few { (tree : SourceTree) (walk : Walk) → IsAcceptedTree tree walk → IsSited tree → walk.globals ≤ global_limit }
    ensures fit { (tree : SourceTree) (walk : Walk) (globals : List Global) → IsAcceptedTree tree walk → IsSited tree
        → AllByRecursion KindFits (tree_kinds tree)
        → Some (begun_with (facts_of tree walk).statics.texts globals) ≡ first_objects tree walk
        → AreGlobals (length (facts_of tree walk).statics.texts) globals }
    ensures begun { (tree : SourceTree) (walk : Walk) → IsAcceptedTree tree walk → IsSited tree → AllByRecursion KindFits (tree_kinds tree)
        → All (IsBegunItem (facts_of tree walk) walk) tree.items }
{}
