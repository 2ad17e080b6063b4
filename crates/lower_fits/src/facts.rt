ghost use Rattle.std.specs.Prelude.{◌≡◌, ℕ, ◌≤◌, true, List, [], Some, slice_get};
ghost use Rattle.c_syntax.specs.Words.{ExprTree, SourceTree, EntryList};
ghost use Rattle.c_types_rules.specs.declared.operand.Operand.{Operand};
ghost use Rattle.c_types_rules.specs.Words.{value_type, is_complete, TypeTree, Array, Pointer};
ghost use Rattle.c_types.specs.Answers.{type_at};
ghost use Rattle.c_types_expressions.specs.declared.walk.Walk.{Walk};
ghost use Rattle.c_meaning.specs.Known.{function_bodies, element_cells, facts_of};
ghost use Rattle.flow.specs.declared.site.Site.{Site};
ghost use Rattle.flow.specs.declared.choice.Schemes.{Schemes};
ghost use Rattle.sites.specs.Table.{sites_of};
ghost use Rattle.c_types_laws.specs.Fits.{operand};
ghost use Rattle.c_meaning_sound.specs.Accepted.{IsAcceptedTree};
ghost use Rattle.lower_fits.specs.FactsFit.{FactsFit};
ghost use Rattle.lower_fits.specs.Owned.{BodyOwns};
ghost use Rattle.lower_fits.specs.TextNames.{names_of_text};

/// What is known of the tokens of an accepted text fits what the nodes of its program may name, with any site table.
pub fn facts_of_an_accepted_text_fit()
    ensures { (tree : SourceTree) (walk : Walk) (table : List Site) → IsAcceptedTree tree walk → FactsFit (facts_of tree walk) (names_of_text tree walk table) }
{}

/// Each body of an accepted text stands somewhere in it, and the sites that stand within it are those of its function: with the site table of
/// the text for any schemes, and without sites.
pub fn bodies_own_their_sites()
    ensures table { (tree : SourceTree) (walk : Walk) (schemes : Schemes) (number : ℕ) (body : EntryList) → IsAcceptedTree tree walk
        → slice_get (function_bodies tree) number ≡ Some body → BodyOwns (sites_of tree walk schemes) number body }
    ensures plain { (tree : SourceTree) (walk : Walk) (number : ℕ) (body : EntryList) → IsAcceptedTree tree walk
        → slice_get (function_bodies tree) number ≡ Some body → BodyOwns [] number body }
{}

/// Where the rules let a pointer be moved, it points to an object of at least one cell: no type that was noted at a token of an accepted text
/// leads to a complete one without cells, or with more than the limit. So it is with an array, whose value is a pointer to its first element, and
/// with the operands of an expression.
pub fn pointers_of_an_accepted_text_move()
    ensures pointers { (tree : SourceTree) (walk : Walk) (token : ℕ) (to : TypeTree) → IsAcceptedTree tree walk → type_at walk token ≡ Some (Pointer to)
        → is_complete walk.structs to ≡ true → 1 ≤ element_cells walk.structs to }
    ensures arrays { (tree : SourceTree) (walk : Walk) (token size : ℕ) (to : TypeTree) → IsAcceptedTree tree walk → type_at walk token ≡ Some (Array to size)
        → is_complete walk.structs to ≡ true → 1 ≤ element_cells walk.structs to }
    ensures operands { (tree : SourceTree) (walk : Walk) (x : ExprTree) (a : Operand) (to : TypeTree) → IsAcceptedTree tree walk → operand walk x ≡ Some a
        → value_type a ≡ Pointer to → is_complete walk.structs to ≡ true → 1 ≤ element_cells walk.structs to }
{}
