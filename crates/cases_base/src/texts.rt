//! What is read of texts: decimals, lines, fields, formats, names and identities.
use cases_rows::{Page, push_text};
use cbi_base::{
    Fields, Name, count_conversions, id_text, is_name, line_end, read_decimal, read_id, read_signed,
};

/// The longest format of which the conversions are counted.
const FORMAT_LIMIT: usize = 2097152;

fn push_number(number: Option<u64>, out: &mut Page) {
    match number {
        Some(number) => out.number(number),
        None => out.say("none"),
    }
}

fn push_signed(text: &[u8], out: &mut Page) {
    match read_signed(text) {
        Some(number) => out.debug(number),
        None => out.say("none"),
    }
}

/// Writes the number that the text spells, which may be larger than those that are read.
fn push_written(text: &str, out: &mut Page) {
    if let Ok(number) = text.parse::<u128>() {
        out.number(number);
    }
}

fn push_line_end(from: &str, text: &[u8], out: &mut Page) {
    let from = from.parse::<usize>().unwrap_or(usize::MAX);
    if from <= text.len() {
        match line_end(text, from) {
            Some(end) => out.debug(end),
            None => out.say("none"),
        }
    }
}

/// Each field between brackets, and a full stop once the fields are at their end.
fn push_fields(text: &[u8], out: &mut Page) {
    let mut fields = Fields::new(text);
    for _ in 0..u64::MAX {
        if fields.is_empty() {
            break;
        }
        let Some(field) = fields.next() else {
            break;
        };
        out.say("[");
        out.put(field);
        out.say("]");
    }
    if fields.is_empty() && fields.next().is_none() {
        out.say(".");
    }
}

fn push_conversions(format: &[u8], out: &mut Page) {
    if format.len() <= FORMAT_LIMIT {
        match count_conversions(format) {
            Some(count) => out.number(count),
            None => out.say("none"),
        }
    }
}

/// A copy of the name, where it equals the name.
fn push_copy(name: &Name, out: &mut Page) {
    if let Some(copy) = out.done(name.try_clone()) {
        if copy.same(name) {
            out.put(copy.bytes());
        }
    }
}

/// Whether the text is a name, and a copy of it where it is one.
fn push_name(text: &[u8], out: &mut Page) {
    out.say(if is_name(text) { "yes " } else { "no " });
    match Name::new(out.alloc(), text) {
        Ok(Some(name)) => push_copy(&name, out),
        Ok(None) => out.say("none"),
        Err(_) => out.want(),
    }
}

/// The bytes of the identity, and its spelling.
fn push_identity(text: &[u8], out: &mut Page) {
    let Some(id) = read_id(text) else {
        return out.say("none");
    };
    for byte in id.bytes {
        out.number(byte);
        out.say(" ");
    }
    out.put(id_text(&id).as_slice());
}

/// Adds what a text's bytes read as; whether the head asks for that.
fn push_read(head: &str, text: &[u8], out: &mut Page) -> bool {
    let (word, rest) = head.split_once(' ').unwrap_or((head, ""));
    match word {
        "signed" => push_signed(text, out),
        "fields" => push_fields(text, out),
        "conversions" => push_conversions(text, out),
        "name" => push_name(text, out),
        "identity" => push_identity(text, out),
        "decimal" => push_number(read_decimal(text, rest.parse::<u64>().unwrap_or(0)), out),
        "line" => push_line_end(rest.strip_prefix("from ").unwrap_or(""), text, out),
        _ => return false,
    }
    true
}

/// Answers what asks what a text reads as, or how a number is written.
pub fn ask_text(head: &str, text: &str, out: &mut Page) {
    let mut bytes = Page::new(out.alloc());
    push_text(text, &mut bytes);
    out.heed(&bytes);
    if head == "written" {
        push_written(text, out);
        out.say("\n");
    } else if push_read(head, bytes.bytes(), out) {
        out.say("\n");
    }
}
