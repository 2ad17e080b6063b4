//! What comes of a question.
use crate::ask::{Ask, number_of, two_of};
use crate::read::checked_of;
use crate::runs::{Given, push_compiled, push_ends, push_fills, push_full, push_sampled};
use crate::{lexed, sited, typed};
use c_types::Checked;
use cases_rows::Page;

/// Adds what comes of a question about what is known of an accepted text.
fn push_known(known: &Checked, ask: Ask, rest: &str, out: &mut Page) {
    match ask {
        Ask::Types => out.say("accepted"),
        Ask::Type => typed::push_if_known(known.type_at(number_of(rest)), out),
        Ask::Declared => typed::push_if_known(known.declared_type(number_of(rest)), out),
        Ask::Notes => typed::push_notes(known, two_of(rest), out),
        Ask::Scope => typed::push_scope(known, two_of(rest), out),
        Ask::Definitions => typed::push_definitions(known, out),
        Ask::Sites => sited::push_sites(known, rest, out),
        Ask::Numbers => sited::push_numbers(known, rest, out),
        _ => (),
    }
}

/// Adds what comes of a question about a text's types or its sites, or its first fault.
fn push_checked(text: &[u8], ask: Ask, rest: &str, out: &mut Page) {
    if let Some(known) = checked_of(text, out) {
        push_known(&known, ask, rest, out);
    }
}

/// Adds what comes of a question about what a text's programs do, or what is known of it.
fn push_done(given: Given<'_>, ask: Ask, rest: &str, out: &mut Page) {
    match ask {
        Ask::Ends => push_ends(given, out),
        Ask::Fills => push_fills(given, out),
        Ask::Full => push_full(given, rest, out),
        Ask::Sampled => push_sampled(given, rest, out),
        Ask::Compiled => push_compiled(given.text, rest, out),
        _ => push_checked(given.text, ask, rest, out),
    }
}

/// Adds what comes of a question.
pub(crate) fn push_answer(given: Given<'_>, ask: Ask, rest: &str, out: &mut Page) {
    match ask {
        Ask::Tokens => lexed::push_tokens(given.text, out),
        Ask::Length => lexed::push_length(given.text, out),
        Ask::Line => lexed::push_line(given.text, number_of(rest), out),
        Ask::Tree => lexed::push_tree(given.text, out),
        _ => push_done(given, ask, rest, out),
    }
}
