//! A row: its texts, and what comes of what is asked of them.
use crate::answers::push_answer;
use crate::form::{Check, NEXT_TEXT, bad_line, check_of, given_of, lines_of, texts_of, times_of};
use crate::runs::Given;
use cases_rows::{Page, Rows, block, push_shown, push_text};

/// Adds a copy of a unit, in which `#` is its number.
fn push_copy(unit: &str, number: u32, text: &mut Page) {
    for byte in unit.as_bytes() {
        if *byte == b'#' {
            text.number(number);
        } else {
            text.byte(*byte);
        }
    }
}

fn push_copies(count: u32, unit: &str, text: &mut Page) {
    for number in 0..count {
        push_copy(unit, number.saturating_add(1), text);
    }
}

/// The text of the first line, or of the block below it.
fn text_begun(step: &str, told: &mut Page) -> Page {
    let (line, _) = lines_of(step);
    if line.is_empty() {
        return block(step, "", "", told);
    }
    let mut text = Page::new(told.alloc());
    text.say(line.strip_prefix(' ').unwrap_or(line));
    text
}

/// A text by its own lines.
fn own_text(step: &str, told: &mut Page) -> Page {
    let mut text = text_begun(step, told);
    let (_, lines) = lines_of(step);
    for line in lines.split('\n') {
        if let Some((count, unit)) = times_of(line) {
            push_copies(count, unit, &mut text);
        }
    }
    told.heed(&text);
    text
}

/// Adds a shared text, in which this one stands for each `@`.
fn push_within(shared: &[u8], own: &[u8], text: &mut Page) {
    for byte in shared {
        if *byte == b'@' {
            text.put(own);
        } else {
            text.byte(*byte);
        }
    }
}

fn text_within(texts: &str, name: &str, own: &[u8], told: &mut Page) -> Page {
    let shared = block(texts, "text ", name, told);
    let mut text = Page::new(told.alloc());
    push_within(shared.bytes(), own, &mut text);
    told.heed(&text);
    text
}

/// A text by its lines, or by the shared text that it stands within.
fn text_of(texts: &str, head: &str, step: &str, told: &mut Page) -> Page {
    let own = own_text(step, told);
    match given_of(head, step, "within ") {
        "" => own,
        name => text_within(texts, name, own.bytes(), told),
    }
}

/// Adds what must come of a question: what stands on its line, or else the block below it.
fn due_of(step: &str, check: Check<'_>, told: &mut Page) -> Page {
    if check.due.is_empty() {
        return block(step, check.words, ":", told);
    }
    let mut due = Page::new(told.alloc());
    push_text(check.due, &mut due);
    told.heed(&due);
    due
}

/// Tells of a question what came.
fn tell_other(step: &str, line: &str, came: &[u8], told: &mut Page) {
    let (text, _) = lines_of(step);
    for part in ["\ntext", text, "\n", line] {
        told.say(part);
    }
    push_shown(came, told);
}

/// Tells of a line what came of its question, where something else must.
fn tell_line(step: &str, line: &str, check: Check<'_>, given: Given<'_>, told: &mut Page) {
    let due = due_of(step, check, told);
    let mut came = Page::new(told.alloc());
    push_answer(given, check.ask, check.rest, &mut came);
    told.heed(&came);
    if came.bytes() != due.bytes() {
        tell_other(step, line, came.bytes(), told);
    }
}

fn tell_lines(step: &str, given: Given<'_>, told: &mut Page) {
    let (_, lines) = lines_of(step);
    for line in lines.split('\n') {
        if let Some(check) = check_of(line) {
            tell_line(step, line, check, given, told);
        }
    }
}

/// Tells what of a text doesn't come as its lines say.
fn tell_text(texts: &str, head: &str, step: &str, told: &mut Page) {
    let text = text_of(texts, head, step, told);
    let mut input = Page::new(told.alloc());
    push_text(given_of(head, step, "input "), &mut input);
    told.heed(&input);
    let given = Given {
        text: text.bytes(),
        input: input.bytes(),
        turns: given_of(head, step, "turns ")
            .parse::<u32>()
            .unwrap_or(1000),
    };
    tell_lines(step, given, told);
}

/// The rows of texts.
pub struct TextRows;

impl Rows for TextRows {
    fn unread<'a>(&self, texts: &str, row: &'a str) -> Option<&'a str> {
        bad_line(texts, row)
    }

    fn tell(&self, _rt: &HostRuntime, texts: &str, row: &str, told: &mut Page) {
        let (head, steps) = texts_of(row);
        for step in steps.split(NEXT_TEXT) {
            tell_text(texts, head, step, told);
        }
    }
}
