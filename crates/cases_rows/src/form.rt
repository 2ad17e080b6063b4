//! Which lines a row has, and which it may have.
use crate::bytes::{INDENT, is_block_line, is_text};

/// What stands behind the head of a line.
#[derive(Debug, Clone, Copy)]
pub enum Rest {
    /// Nothing.
    Nothing,
    /// Something, without regard to what.
    Some,
    /// A text with its escapes.
    Text,
    /// A number.
    Number,
    /// Numbers with one blank between each two.
    Numbers,
    /// Nothing or ` begins` or ` ends`, with a block below, or ` any`.
    Way,
    /// A name, and perhaps a way behind it.
    Held,
    /// A name with a block below, or `NAME is TEXT` of a text that all rows share.
    File,
    /// A name with a block below.
    Named,
}

/// Where a line may stand.
#[derive(Debug, Clone, Copy)]
pub enum Place {
    /// Before the row's first call.
    Given,
    /// It says a call.
    Call,
    /// Anywhere.
    Any,
}

/// A line's head, with the blank where one follows, what stands behind it, and where it may stand.
pub type Head = (&'static str, Rest, Place);

/// What stands behind this head, in its first line.
pub fn rest_of<'a>(row: &'a str, head: &str) -> Option<&'a str> {
    for line in row.split('\n') {
        if let Some(rest) = line.strip_prefix(head) {
            return Some(rest);
        }
    }
    None
}

/// Whether a line of the row begins so.
pub fn has_head(row: &str, head: &str) -> bool {
    rest_of(row, head).is_some()
}

/// Whether a line of the row begins with one of these.
pub fn has_any(row: &str, heads: &[&str]) -> bool {
    for head in heads {
        if has_head(row, *head) {
            return true;
        }
    }
    false
}

/// Whether a line of the row is this head and this rest.
fn has(row: &str, head: &str, rest: &str) -> bool {
    for line in row.split('\n') {
        if line.strip_prefix(head) == Some(rest) {
            return true;
        }
    }
    false
}

/// Whether the row has this line.
pub fn has_line(row: &str, line: &str) -> bool {
    has(row, line, "")
}

/// Whether all rows share a text of this name.
pub fn is_shared(texts: &str, name: &str) -> bool {
    has(texts, "text ", name)
}

/// Whether these are numbers with one blank between each two.
pub fn are_numbers(words: &str) -> bool {
    for word in words.split(' ') {
        if word.parse::<u64>().is_err() {
            return false;
        }
    }
    true
}

/// Whether this says how bytes are compared.
pub fn is_way(rest: &str) -> bool {
    matches!(rest, "" | " begins" | " ends" | " any")
}

/// Whether this is a name, and perhaps a way behind it.
fn is_held(rest: &str) -> bool {
    match rest.split_once(' ') {
        Some((name, _)) => is_way(rest.strip_prefix(name).unwrap_or(rest)),
        None => true,
    }
}

/// Whether this is a name, and perhaps that of a text which all rows share.
fn is_file(texts: &str, rest: &str) -> bool {
    match rest.split_once(" is ") {
        Some((_, name)) => is_shared(texts, name),
        None => true,
    }
}

/// Whether this may stand behind a head.
fn fits(texts: &str, kind: Rest, rest: &str) -> bool {
    match kind {
        Rest::Nothing => rest.is_empty(),
        Rest::Some => !rest.is_empty(),
        Rest::Text => is_text(rest),
        Rest::Number => rest.parse::<u64>().is_ok(),
        Rest::Numbers => are_numbers(rest),
        Rest::Way => is_way(rest),
        Rest::Held => is_held(rest),
        Rest::File => is_file(texts, rest),
        Rest::Named => true,
    }
}

/// Whether a block may stand below a line, of which this stands behind its head.
fn has_block(kind: Rest, rest: &str) -> bool {
    match kind {
        Rest::Way => rest != " any",
        Rest::Held => !rest.ends_with(" any"),
        Rest::File => !rest.contains(" is "),
        Rest::Named => true,
        _ => false,
    }
}

/// Where a line may stand, and whether a block may stand below it; nothing where it isn't one of this form.
fn shape_of_line(form: &[Head], texts: &str, line: &str) -> Option<(Place, bool)> {
    if line.is_empty() || line.starts_with('#') {
        return Some((Place::Any, false));
    }
    for (head, kind, place) in form {
        if let Some(rest) = line.strip_prefix(*head) {
            if fits(texts, *kind, rest) {
                return Some((*place, has_block(*kind, rest)));
            }
        }
    }
    None
}

/// What was read of a row: whether a call, and whether a block may go on.
#[derive(Clone, Copy)]
struct Seen {
    call: bool,
    block: bool,
}

/// What was read with this line too; nothing where it isn't one of this form, stands where it may not, or is a block's where none may be.
fn seen_with(seen: Seen, form: &[Head], texts: &str, line: &str) -> Option<Seen> {
    if let Some(text) = line.strip_prefix(INDENT) {
        return if seen.block && is_block_line(text) {
            Some(seen)
        } else {
            None
        };
    }
    let (place, block) = shape_of_line(form, texts, line)?;
    let call = match place {
        Place::Given if seen.call => return None,
        Place::Call => true,
        _ => seen.call,
    };
    Some(Seen { call, block })
}

/// The first line that isn't one of this form, stands where it may not, or is a block's where none may be.
pub fn bad_line<'a>(form: &[Head], texts: &str, row: &'a str) -> Option<&'a str> {
    let mut seen = Seen {
        call: false,
        block: false,
    };
    for line in row.split('\n') {
        match seen_with(seen, form, texts, line) {
            Some(more) => seen = more,
            None => return Some(line),
        }
    }
    None
}

/// The first line that may not stand before the rows.
pub fn bad_text_line(texts: &str) -> Option<&str> {
    bad_line(&[("text ", Rest::Named, Place::Any)], "", texts)
}
