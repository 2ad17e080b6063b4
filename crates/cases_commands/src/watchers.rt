//! The watchers of a step, and their lines.
use cases_rows::{Page, expect, has_head, has_line, rest_of};
use probes::{Probe, push_lines};

/// The words of the watchers that the step asks for, in their order, with blanks between them; empty where it asks for none.
pub fn watchers_of(step: &str) -> &str {
    if has_line(step, "watched") {
        "first hottest last"
    } else {
        rest_of(step, "watched ").unwrap_or("")
    }
}

/// Tells the lines of the watchers where the step says others.
pub fn expect_lines(step: &str, probes: &Vec<Box<dyn Probe>>, told: &mut Page) {
    if has_head(step, "lines") {
        let mut text = Vec::new(told.alloc());
        told.done(push_lines(probes, &mut text));
        expect(step, "lines", text.as_slice(), told);
    }
}
