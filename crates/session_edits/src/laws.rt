ghost use Rattle.std.specs.Prelude.{◌≡◌, ℕ, List};
ghost use Rattle.cbi_base.specs.Lines.{LeadsOnce};
ghost use Rattle.cbi_base.specs.declared.identity.ProgramId.{ProgramId};
ghost use Rattle.session_edits.specs.Grammar.{EditLineFollows};
ghost use Rattle.session_edits.specs.Spelling.{SpellsEdits};
ghost use Rattle.session_edits.specs.declared.edit.Edit.{Edit};

use std::alloc::Global;

/// A text spells at most one list of edits.
pub fn one_list(alloc: Global)
    ensures { (program : ProgramId) (bytes : List ℕ) (a b : List Edit) → SpellsEdits program bytes a → SpellsEdits program bytes b → a ≡ b }
{
    let _alloc = alloc;
}

/// In the grammar of edits a line leads to one state: so a text has at most one bad line, and none where it is read.
pub fn one_state()
    ensures { LeadsOnce EditLineFollows }
{}
