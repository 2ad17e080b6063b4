//! What is known of an accepted text: its types, and what was noted by token.
use c_types::Checked;
use c_types_expressions::{Definition, Variable};
use c_types_rules::CType;
use cases_rows::Page;

/// Adds a type, from the outside to the inside.
fn push_ctype(ctype: &CType, out: &mut Page) {
    match ctype {
        CType::Void => out.say("void"),
        CType::Char => out.say("char"),
        CType::Int => out.say("int"),
        CType::Unsigned => out.say("unsigned"),
        CType::Pointer { to } => {
            out.say("to ");
            push_ctype(to, out);
        }
        CType::Array { of, length } => {
            out.number(*length);
            out.say(" of ");
            push_ctype(of, out);
        }
        CType::Struct { tag } => {
            out.say("struct ");
            out.number(*tag);
        }
    }
}

/// Adds a type, or `none`.
pub(crate) fn push_if_known(ctype: Option<&CType>, out: &mut Page) {
    match ctype {
        Some(ctype) => push_ctype(ctype, out),
        None => out.say("none"),
    }
}

/// Adds a note of a token: a mark, and a number.
fn push_note(token: usize, mark: &str, number: Option<u32>, out: &mut Page) {
    if let Some(number) = number {
        push_mark(token, mark, out);
        out.number(number);
    }
}

fn push_mark(token: usize, mark: &str, out: &mut Page) {
    if !out.is_empty() {
        out.say(" ");
    }
    out.debug(token);
    out.say(mark);
}

fn push_notes_at(known: &Checked, token: usize, out: &mut Page) {
    match known.variable_at(token) {
        Some(Variable::Global { index }) => push_note(token, ":g", Some(index), out),
        Some(Variable::Local { index }) => push_note(token, ":l", Some(index), out),
        None => (),
    }
    push_note(token, ":+", known.offset_at(token), out);
    push_note(token, ":f", known.function_at(token), out);
    if known.type_at(token).is_some() {
        push_mark(token, ":t", out);
    }
}

/// Adds what was noted at each of these tokens.
pub(crate) fn push_notes(known: &Checked, tokens: (usize, usize), out: &mut Page) {
    let (first, end) = tokens;
    for token in first..end {
        push_notes_at(known, token, out);
    }
}

/// Adds whether a token, the second number, is in the scope of the variable that was declared as the first number says.
pub(crate) fn push_scope(known: &Checked, numbers: (usize, usize), out: &mut Page) {
    let (place, token) = numbers;
    let is_within = match u32::try_from(token) {
        Ok(token) => known.scope_holds(place, token),
        Err(_) => false,
    };
    out.say(if is_within { "within" } else { "outside" });
}

fn push_definition(definition: &Definition, out: &mut Page) {
    if !out.is_empty() {
        out.say(", ");
    }
    out.number(definition.function);
    out.say(" ");
    out.number(definition.first);
    out.say(" ");
    out.number(definition.count);
}

/// Adds the definitions of a text.
pub(crate) fn push_definitions(known: &Checked, out: &mut Page) {
    for definition in known.definitions() {
        push_definition(definition, out);
    }
}
