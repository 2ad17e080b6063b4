//! What isn't as a row says of its program, or of the sites that three watchers see.
use crate::runs::{expect_lines, tell_program};
use cases_rows::{Page, has_any, has_head, rest_of};
use cbi_base::{Observation, Seen};
use probes::{FirstSeen, Hottest, LastSeen, Probe, tell_all};

/// Tells what isn't as the row says of its program, or of the sites that it lets three watchers see.
pub fn tell_watched(texts: &str, row: &str, told: &mut Page) {
    let alloc = told.alloc();
    let mut probes: Vec<Box<dyn Probe>> = Vec::new(alloc);
    if has_any(row, &["watched", "sees"]) {
        if let Some(probe) = told.done(Box::new(alloc, FirstSeen::new(alloc))) {
            told.done(probes.push(probe));
        }
        if let Some(probe) = told.done(Box::new(alloc, Hottest::new(alloc))) {
            told.done(probes.push(probe));
        }
        if let Some(probe) = told.done(Box::new(alloc, LastSeen::new(alloc))) {
            told.done(probes.push(probe));
        }
    }
    for word in rest_of(row, "sees ").unwrap_or("").split(' ') {
        if let Ok(site) = word.parse::<u64>() {
            let site = u32::try_from(site).unwrap_or(u32::MAX);
            let seen = Seen::First;
            told.done(tell_all(&mut probes, &[Observation { site, seen }]));
        }
    }
    if has_head(row, "sees") {
        expect_lines(row, &probes, told);
    }
    if let Some(rest) = rest_of(row, "program") {
        tell_program(texts, row, rest, &mut probes, told);
    }
}
