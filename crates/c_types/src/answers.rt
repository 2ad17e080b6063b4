ghost use Rattle.std.specs.Prelude.{◌≡◌};
ghost use Rattle.c_types.specs.Answers.{ends_behind, note_at};

/// Whether a scope with this last token goes to the token.
pub fn ends_behind(token: u32, end: &Option<u32>) -> bool
    ensures { result ≡ ends_behind token end.now }
{
    match end {
        None => true,
        Some(last) => token <= *last,
    }
}

/// What was noted at the place.
pub fn note_at(notes: &[Option<u32>], place: usize) -> Option<u32>
    ensures { result ≡ note_at notes.now place }
{
    match notes.get(place) {
        None => None,
        Some(note) => *note,
    }
}
