ghost use Rattle.std.specs.Prelude.{◌≡◌, option_copied};
ghost use Rattle.c_lexer_pieces.specs.Reading.{strip_byte, comment_at};
ghost use Rattle.c_lexer_pieces.specs.PieceFacts.{KnowsClosing};
ghost use Rattle.c_lexer_pieces.specs.Values.{after_close};

use crate::bytes::{Class, begins, split_run};

/// The bytes after this one.
pub(crate) fn strip(b: u8, bytes: &[u8]) -> Option<&[u8]>
    ensures { option_copied result ≡ strip_byte b bytes.now }
{
    match bytes {
        [first, rest @ ..] if *first == b => Some(rest),
        _ => None,
    }
}

/// The bytes after a comment. `closes` is false only where no `*/` comes.
#[tactic(auto, unfolding(crate::specs::Reading::comment_at), using(crate::proofs::CommentLaws::unclosed_body))]
pub(crate) fn comment_at(closes: bool, bytes: &[u8]) -> Option<&[u8]>
    requires { KnowsClosing closes bytes.now }
    ensures { option_copied result ≡ comment_at bytes.now }
{
    let rest = strip(b'/', bytes)?;
    if begins(b'/', rest) {
        let (_, after) = split_run(Class::Line, rest);
        return Some(after);
    }
    let body = strip(b'*', rest)?;
    if closes { after_close(body) } else { None }
}

/// What is known of a `*/` to come, once a comment that would begin here has looked for it.
pub fn may_close(closes: bool, bytes: &[u8]) -> bool
    requires { KnowsClosing closes bytes.now }
    ensures { KnowsClosing result bytes.now }
{
    if !bytes.starts_with(b"/*".as_slice()) {
        return closes;
    }
    closes && after_close(bytes).is_some()
}

/// The bytes after the first `*/`.
fn after_close(bytes: &[u8]) -> Option<&[u8]>
    ensures { option_copied result ≡ after_close bytes.now }
{
    let mut rest = bytes;
    while let [first, others @ ..] = rest {
        if *first == b'*' && begins(b'/', others) {
            return Some(&others[1..]);
        }
        rest = others;
    }
    None
}
