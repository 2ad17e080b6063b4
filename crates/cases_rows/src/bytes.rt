//! The bytes that lines stand for, and lines that stand for bytes.
use crate::page::Page;

/// What stands before each line of a block.
pub const INDENT: &str = "    ";

/// The digits of numbers to the base 16.
const DIGITS: &[u8; 16] = b"0123456789ABCDEF";

fn digit_of(letter: u8) -> Option<u8> {
    match letter {
        b'0'..=b'9' => Some(letter - b'0'),
        b'A'..=b'F' => Some(letter - (b'A' - 10)),
        _ => None,
    }
}

/// The byte that is written behind a backslash, and what follows it.
fn escape_of(piece: &[u8]) -> Option<(u8, &[u8])> {
    let [b'x', high, low, rest @ ..] = piece else {
        return None;
    };
    let high = digit_of(*high)?;
    Some((high.checked_mul(16)?.checked_add(digit_of(*low)?)?, rest))
}

/// Whether each of these pieces may stand behind a backslash.
fn are_escapes(pieces: &str) -> bool {
    for piece in pieces.split('\\') {
        if escape_of(piece.as_bytes()).is_none() {
            return false;
        }
    }
    true
}

/// Whether `\xHH` follows each backslash, but one at the end.
pub fn is_text(text: &str) -> bool {
    match text.strip_suffix('\\').unwrap_or(text).split_once('\\') {
        Some((_, pieces)) => are_escapes(pieces),
        None => true,
    }
}

/// Adds what stands behind a backslash.
fn push_piece(piece: &[u8], page: &mut Page) {
    match escape_of(piece) {
        Some((byte, rest)) => {
            page.byte(byte);
            page.put(rest);
        }
        None => page.put(piece),
    }
}

fn push_pieces(pieces: &str, page: &mut Page) {
    for piece in pieces.split('\\') {
        push_piece(piece.as_bytes(), page);
    }
}

/// Adds the bytes of a text, in which `\xHH` stands for one byte.
pub fn push_text(text: &str, page: &mut Page) {
    match text.split_once('\\') {
        Some((first, pieces)) => {
            page.say(first);
            push_pieces(pieces, page);
        }
        None => page.say(text),
    }
}

/// How often a block's line is to come, and what of it comes so often.
fn times_of(line: &str) -> (u64, &str) {
    let (times, rest) = line.split_once(' ').unwrap_or(("", line));
    match times.strip_prefix("\\*").unwrap_or("").parse::<u64>() {
        Ok(count) => (count, rest),
        Err(_) => (1, line),
    }
}

/// Whether a block may have this line.
pub fn is_block_line(line: &str) -> bool {
    let (_, text) = times_of(line);
    is_text(text)
}

/// Adds the bytes of a line, and a newline where the line doesn't end in a backslash.
fn push_line(line: &str, page: &mut Page) {
    match line.strip_suffix('\\') {
        Some(text) => push_text(text, page),
        None => {
            push_text(line, page);
            page.byte(b'\n');
        }
    }
}

/// Adds a block's line, as often as `\*N` before it says.
fn push_block_line(line: &str, page: &mut Page) {
    let (count, line) = times_of(line);
    let mut piece = Page::new(page.alloc());
    push_line(line, &mut piece);
    page.heed(&piece);
    for _ in 0..count {
        page.put(piece.bytes());
    }
}

/// The bytes of the block below the line that is this word and this rest of it.
pub fn block(row: &str, word: &str, rest: &str, told: &mut Page) -> Page {
    let mut page = Page::new(told.alloc());
    let mut is_below = false;
    for line in row.split('\n') {
        match line.strip_prefix(INDENT) {
            Some(line) if is_below => push_block_line(line, &mut page),
            Some(_) => (),
            None => is_below = line.strip_prefix(word) == Some(rest),
        }
    }
    told.heed(&page);
    page
}

fn digit(number: u8) -> u8 {
    DIGITS
        .get(usize::from(number % 16))
        .copied()
        .unwrap_or(b'0')
}

fn push_shown_byte(byte: u8, told: &mut Page) {
    match byte {
        b'\n' => told.say("\n    "),
        b' '..=b'[' | b']'..=b'~' => told.byte(byte),
        _ => {
            told.say("\\x");
            told.byte(digit(byte / 16));
            told.byte(digit(byte % 16));
        }
    }
}

/// Adds a block of lines for these bytes; behind the last newline stands a backslash.
pub fn push_shown(bytes: &[u8], told: &mut Page) {
    told.say("\n    ");
    for byte in bytes {
        push_shown_byte(*byte, told);
    }
    told.say("\\");
}
