//! Laws of the definitions, each on a function of its own without a body.
ghost use Rattle.std.specs.Prelude.{◌≡◌, ℕ, List};
ghost use Rattle.cbi_base.specs.Lines.{LeadsOnce};
ghost use Rattle.name_lists.specs.Grammar.{NameFollows};
ghost use Rattle.name_lists.specs.List.{SpellsList};

/// A text spells at most one list of names, whatever the numbers of the runs are.
pub fn one_list()
    ensures { (first other : ℕ) (text : List ℕ) (a b : List (List ℕ)) → SpellsList first text a → SpellsList other text b → a ≡ b }
{}

/// In the grammar of lists a line leads to one state: so a text has at most one bad line, and none where it is read.
pub fn one_state()
    ensures { LeadsOnce NameFollows }
{}
