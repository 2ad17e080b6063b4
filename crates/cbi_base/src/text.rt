ghost use Rattle.std.specs.Prelude.{◌≡◌, ◌≢◌, ◌==◌, ◌≤◌, [], ◌∷◌, ◌++◌, length, MatchOption, IsTrue, ◌↔◌};
ghost use Rattle.std.specs.List.{AllWithin};
ghost use Rattle.cbi_base.specs.Text.{Lacks, IsLineEnd, fields_of};

use std::marker::Model;

/// The bytes before the first `mark` and those after it; None exactly where there is none.
pub fn cut(bytes: &[u8], mark: u8) -> Option<(&[u8], &[u8])>
    ensures { MatchOption result (Lacks (λ b. b == mark) bytes.now)
        (λ parts. (bytes.now ≡ parts.0.now ++ mark ∷ parts.1.now) × Lacks (λ b. b == mark) parts.0.now) }
{
    let at = bytes.iter().position(|b| *b == mark)?;
    Some((&bytes[..at], &bytes[at + 1..]))
}

/// The place of the first newline at or after `from`; None exactly where there is none.
pub fn line_end(bytes: &[u8], from: usize) -> Option<usize>
    requires { from ≤ length bytes.now }
    ensures { MatchOption result (AllWithin (λ b. b ≢ 10) bytes.now from (length bytes.now)) (IsLineEnd bytes.now from) }
{
    let (line, _) = cut(&bytes[from..], b'\n')?;
    Some(from + line.len())
}

/// The fields of a line, from the left. Contracts see it as the list of those that are left.
#[derive(Debug, Drop)]
pub struct Fields<'a> {
    rest: Option<&'a [u8]>,
}

impl<'a> Model for Fields<'a> {
    ghost use Rattle.std.specs.Prelude.{ℕ, List};
    ghost use Rattle.cbi_base.specs.Fields.{fields_left};

    ghost Value = { List (List ℕ) };

    ghost view = { λ f. fields_left f.rest };
}

impl<'a> Fields<'a> {
    /// All fields of a line.
    pub fn new(line: &'a [u8]) -> Fields<'a>
        ensures { result ≡ fields_of line.now }
    {
        Fields { rest: Some(line) }
    }

    /// Takes the next field; None exactly where none is left.
    pub fn next(&mut self) -> Option<&'a [u8]>
        ensures { MatchOption result ((self.old ≡ []) × (self.new ≡ [])) (λ field. self.old ≡ field.now ∷ self.new) }
    {
        let bytes = self.rest?;
        match cut(bytes, b' ') {
            None => {
                self.rest = None;
                Some(bytes)
            }
            Some((field, rest)) => {
                self.rest = Some(rest);
                Some(field)
            }
        }
    }

    /// Whether no field is left.
    pub fn is_empty(&self) -> bool
        ensures { IsTrue result ↔ (self.now ≡ []) }
    {
        match self.rest {
            None => true,
            Some(_) => false,
        }
    }
}
