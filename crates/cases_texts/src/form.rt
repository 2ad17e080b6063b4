//! Which lines a row may have, and what of it is read.
use crate::ask::{Ask, ask_of};
use cases_rows::{INDENT, is_shared, rest_of};

/// What parts the texts of a row.
pub(crate) const NEXT_TEXT: &str = "\ntext";

/// What stands before the first text of a row, and its texts with what is asked of each.
pub(crate) fn texts_of(row: &str) -> (&str, &str) {
    match row.strip_prefix("text") {
        Some(steps) => ("", steps),
        None => row.split_once(NEXT_TEXT).unwrap_or((row, "")),
    }
}

/// A text's own line, and those below it.
pub(crate) fn lines_of(step: &str) -> (&str, &str) {
    step.split_once('\n').unwrap_or((step, ""))
}

/// What a line asks.
#[derive(Debug, Clone, Copy)]
pub(crate) struct Check<'a> {
    pub(crate) ask: Ask,
    /// What stands behind the question's word.
    pub(crate) rest: &'a str,
    /// The whole question.
    pub(crate) words: &'a str,
    /// What must come of it, where that stands on the line.
    pub(crate) due: &'a str,
}

/// What a line asks, if it asks something.
pub(crate) fn check_of(line: &str) -> Option<Check<'_>> {
    let (words, due) = line.split_once(':')?;
    let (ask, rest) = ask_of(words)?;
    Some(Check {
        ask,
        rest,
        words,
        due: due.strip_prefix(' ').unwrap_or(due),
    })
}

/// What stands behind this word in the lines below a text's own, or else before the first text; nothing where it stands nowhere.
pub(crate) fn given_of<'a>(head: &'a str, step: &'a str, word: &str) -> &'a str {
    let (_, lines) = lines_of(step);
    match rest_of(lines, word) {
        Some(said) => said,
        None => rest_of(head, word).unwrap_or(""),
    }
}

/// How often a text goes on with what.
pub(crate) fn times_of(line: &str) -> Option<(u32, &str)> {
    let (count, unit) = line.strip_prefix("times ")?.split_once(' ')?;
    Some((count.parse::<u32>().ok()?, unit))
}

/// Whether a line gives a text or a run something.
fn is_given(texts: &str, line: &str) -> bool {
    match line.split_once(' ') {
        Some(("within", name)) => is_shared(texts, name),
        Some(("turns", count)) => count.parse::<u32>().is_ok(),
        Some(("times", _)) => times_of(line).is_some(),
        Some((word, _)) => matches!(word, "text" | "input"),
        None => line.is_empty(),
    }
}

/// Whether a block may stand below a line; nothing where it is none of a row's.
fn has_block(texts: &str, line: &str) -> Option<bool> {
    if line.starts_with('#') || is_given(texts, line) {
        return Some(false);
    }
    if line == "text" {
        return Some(true);
    }
    Some(check_of(line)?.due.is_empty())
}

/// Whether a block may go on below a line; nothing where the line is none of a row's, or is a block's where none may be.
fn block_below(is_block: bool, texts: &str, line: &str) -> Option<bool> {
    if !line.starts_with(INDENT) {
        return has_block(texts, line);
    }
    if is_block { Some(true) } else { None }
}

/// The first line that is none of a row's, or is a block's where none may be.
fn bad_own_line<'a>(texts: &str, row: &'a str) -> Option<&'a str> {
    let mut is_block = false;
    for line in row.split('\n') {
        match block_below(is_block, texts, line) {
            Some(is_below) => is_block = is_below,
            None => return Some(line),
        }
    }
    None
}

/// Whether a line asks something.
fn is_asked(lines: &str) -> bool {
    for line in lines.split('\n') {
        if check_of(line).is_some() {
            return true;
        }
    }
    false
}

/// The first text of which nothing is asked.
fn unasked(steps: &str) -> Option<&str> {
    for step in steps.split(NEXT_TEXT) {
        let (_, lines) = lines_of(step);
        if !is_asked(lines) {
            return Some(step);
        }
    }
    None
}

/// The first line that is none of a row's, or the first text of which nothing is asked, or what stands before the texts where something is asked there.
pub(crate) fn bad_line<'a>(texts: &str, row: &'a str) -> Option<&'a str> {
    if let Some(line) = bad_own_line(texts, row) {
        return Some(line);
    }
    let (head, steps) = texts_of(row);
    if is_asked(head) {
        return Some(head);
    }
    unasked(steps)
}
