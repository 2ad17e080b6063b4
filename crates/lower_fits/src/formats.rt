ghost use Rattle.std.specs.Prelude.{◌≡◌, ℕ, Some, slice_get};
ghost use Rattle.c_syntax.specs.Words.{SourceTree, EntryList};
ghost use Rattle.c_types_expressions.specs.declared.walk.Walk.{Walk};
ghost use Rattle.c_meaning.specs.Known.{function_bodies, facts_of};
ghost use Rattle.c_meaning_sound.specs.Accepted.{IsAcceptedTree};
ghost use Rattle.lower_fits.specs.Fitting.{FormattedEntries};

/// Each `printf` of an accepted text has a format with conversions (C99 7.19.6.1).
pub fn formats_of_an_accepted_text_have_conversions()
    ensures { (tree : SourceTree) (walk : Walk) (number : ℕ) (body : EntryList) → IsAcceptedTree tree walk → slice_get (function_bodies tree) number ≡ Some body
        → FormattedEntries (facts_of tree walk) body }
{}
