//! The bytes that a row gives, in parts of which some come once for each number.
use cases_rows::{Page, piece_of};

/// The numbers of a part that says ` each FROM TO`.
fn range_of(rest: &str) -> Option<(u32, u32)> {
    let (from, to) = rest.strip_prefix(" each ")?.split_once(' ')?;
    Some((from.parse::<u32>().ok()?, to.parse::<u32>().ok()?))
}

/// Adds the bytes, with this number for each `#`.
fn push_numbered(piece: &[u8], number: u32, bytes: &mut Page) {
    for byte in piece {
        if *byte == b'#' {
            bytes.number(number);
        } else {
            bytes.byte(*byte);
        }
    }
}

fn push_each(rest: &str, piece: &[u8], bytes: &mut Page) {
    let Some((from, to)) = range_of(rest) else {
        return bytes.put(piece);
    };
    for number in from..=to {
        push_numbered(piece, number, bytes);
    }
}

/// Adds what a part stands for that has this head and this rest.
fn push_part(texts: &str, step: &str, head: &str, rest: &str, bytes: &mut Page) {
    let piece = piece_of(texts, step, head, rest, bytes);
    push_each(rest, piece.bytes(), bytes);
}

/// The bytes of all parts with this head, in their order. No two of them may say the same behind it.
pub fn bytes_of(texts: &str, step: &str, head: &str, told: &mut Page) -> Page {
    let mut bytes = Page::new(told.alloc());
    for line in step.split('\n') {
        if let Some(rest) = line.strip_prefix(head) {
            push_part(texts, step, head, rest, &mut bytes);
        }
    }
    told.heed(&bytes);
    bytes
}
