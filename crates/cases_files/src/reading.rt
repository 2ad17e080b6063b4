//! Texts that are read: the line at which each goes wrong, or what is written of what was read.
use cases_rows::{Page, expect, has_head, has_line, rest_of};
use cbi_base::{Memory, id_text};
use cbi_options::Word;
use collector::{CollectionError, read_collection};
use countdown_bank::{Bank, BankError, later_bank, make_bank, read_bank, write_bank};
use name_lists::{ListError, read_list};
use program_file::{ProgramError, program_id, read_program, write_program};
use rand_pcg::Lcg64Xsh32;
use report_file::{ReportError, read_report, write_report};

/// Adds what is written.
fn put(written: Result<Vec<u8>, Memory>, page: &mut Page) {
    if let Some(bytes) = page.done(written) {
        page.put(bytes.as_slice());
    }
}

/// Adds what is written of the program; the line at which its text goes wrong, if it does.
fn read_as_program(bytes: &[u8], written: &mut Page) -> Option<u32> {
    match read_program(written.alloc(), bytes) {
        Ok(program) => put(write_program(written.alloc(), &program), written),
        Err(ProgramError::BadProgram { line }) => return Some(line),
        Err(ProgramError::Memory) => written.want(),
    }
    None
}

fn read_as_bank(bytes: &[u8], written: &mut Page) -> Option<u32> {
    match read_bank(written.alloc(), bytes) {
        Ok(bank) => put(write_bank(written.alloc(), &bank), written),
        Err(BankError::BadBank { line }) => return Some(line),
        Err(BankError::Memory) => written.want(),
    }
    None
}

fn read_as_report(bytes: &[u8], written: &mut Page) -> Option<u32> {
    match read_report(written.alloc(), bytes) {
        Ok(report) => put(write_report(written.alloc(), &report), written),
        Err(ReportError::BadReport { line }) => return Some(line),
        Err(ReportError::Memory) => written.want(),
    }
    None
}

/// A collection is written of what was merged, so nothing is written of it here.
fn read_as_collection(bytes: &[u8], written: &mut Page) -> Option<u32> {
    match read_collection(written.alloc(), bytes) {
        Ok(_) => None,
        Err(CollectionError::BadCollection { line }) => Some(line),
        Err(CollectionError::Memory) => {
            written.want();
            None
        }
    }
}

/// Adds the names, a line each.
fn put_names(names: &[Word], written: &mut Page) {
    for name in names {
        written.say(name.as_str());
        written.byte(b'\n');
    }
}

/// The run on the first name has this number. Where it is none of a run nothing is read, and line 0 is told, at which no text goes wrong.
fn read_as_list(first: &str, bytes: &[u8], written: &mut Page) -> Option<u32> {
    let first = first.parse::<u32>().unwrap_or(0);
    if first == 0 {
        return Some(0);
    }
    match read_list(written.alloc(), first, bytes) {
        Ok(names) => put_names(names.as_slice(), written),
        Err(ListError::BadList { line }) => return Some(line),
        Err(ListError::Memory) => written.want(),
    }
    None
}

/// Adds what is written of a text that is read as this word says; the line at which it goes wrong, if it does.
fn read_as(word: &str, bytes: &[u8], written: &mut Page) -> Option<u32> {
    if let Some(first) = word.strip_prefix("list ") {
        return read_as_list(first, bytes, written);
    }
    match word {
        "program" => read_as_program(bytes, written),
        "bank" => read_as_bank(bytes, written),
        "report" => read_as_report(bytes, written),
        _ => read_as_collection(bytes, written),
    }
}

/// The line on which the bytes stop.
fn last_line_of(bytes: &[u8]) -> u32 {
    let mut line = 1u32;
    for byte in bytes {
        if *byte == b'\n' {
            line = line.saturating_add(1);
        }
    }
    line
}

/// Whether the first bytes, with these behind them, go wrong at the line where they stop.
fn goes_wrong(word: &str, bytes: &[u8], behind: &str, told: &mut Page) -> bool {
    let mut cut = Page::new(told.alloc());
    cut.put(bytes);
    cut.say(behind);
    told.heed(&cut);
    let mut written = Page::new(told.alloc());
    let line = read_as(word, cut.bytes(), &mut written);
    told.heed(&written);
    line == Some(last_line_of(bytes))
}

/// Tells each place where a cut, with these bytes behind it, doesn't go wrong at the line where it stops.
fn tell_cuts(word: &str, bytes: &[u8], behind: &str, told: &mut Page) {
    for (place, _) in bytes.iter().enumerate() {
        let cut = bytes.get(..place).unwrap_or(bytes);
        if !goes_wrong(word, cut, behind, told) {
            told.say("\ncut at ");
            told.debug(place);
        }
    }
}

fn expect_bad(row: &str, line: u32, told: &mut Page) {
    if rest_of(row, "bad ").unwrap_or("").parse::<u32>() != Ok(line) {
        told.say("\nbad ");
        told.number(line);
    }
}

/// Tells what is written where it isn't the same text, or the one that the row says.
fn expect_written(row: &str, bytes: &[u8], written: &[u8], told: &mut Page) {
    if has_head(row, "bad ") || has_line(row, "same") && written != bytes {
        told.say("\nit is read");
    }
    if has_head(row, "writes") {
        expect(row, "writes", written, told);
    }
}

fn tell_read(row: &str, word: &str, bytes: &[u8], told: &mut Page) {
    let mut written = Page::new(told.alloc());
    let line = read_as(word, bytes, &mut written);
    told.heed(&written);
    match line {
        Some(line) => expect_bad(row, line, told),
        None => expect_written(row, bytes, written.bytes(), told),
    }
}

/// Tells where the bank isn't drawn as the row says.
fn expect_draws(row: &str, words: &str, bank: &mut Bank, told: &mut Page) {
    for word in words.split(' ') {
        if word.parse::<u32>() != Ok(bank.draw()) {
            told.say("\nother draws");
        }
    }
    if let Some(due) = rest_of(row, "position ") {
        if due.parse::<usize>() != Ok(bank.position()) {
            told.say("\nanother position");
        }
    }
}

fn tell_draws(row: &str, words: &str, bytes: &[u8], told: &mut Page) {
    match read_bank(told.alloc(), bytes) {
        Ok(mut bank) => expect_draws(row, words, &mut bank, told),
        Err(_) => told.say("\nno bank"),
    }
}

/// Tells what isn't as the row says of its text, which is read as this word says.
pub fn tell_text(row: &str, word: &str, bytes: &[u8], told: &mut Page) {
    tell_read(row, word, bytes, told);
    if has_line(row, "cuts") {
        tell_cuts(word, bytes, "", told);
    }
    if has_line(row, "cuts before x") {
        tell_cuts(word, bytes, "x", told);
    }
    if word == "bank" {
        if let Some(words) = rest_of(row, "draws ") {
            tell_draws(row, words, bytes, told);
        }
    }
}

/// Tells the identity of the bytes where it isn't the row's.
pub fn tell_identity(row: &str, bytes: &[u8], told: &mut Page) {
    let text = id_text(&program_id(bytes));
    expect(row, "identity", text.as_slice(), told);
}

/// The numbers with which a bank is made.
fn four_numbers(words: &str) -> Option<(u64, u64, u32, u32)> {
    let (seed, words) = words.split_once(' ')?;
    let (stream, words) = words.split_once(' ')?;
    let (rate, count) = words.split_once(' ')?;
    Some((
        seed.parse::<u64>().ok()?,
        stream.parse::<u64>().ok()?,
        rate.parse::<u32>().ok()?,
        count.parse::<u32>().ok()?,
    ))
}

/// Tells the text of the bank where it isn't the row's.
fn expect_bank(row: &str, bank: &Bank, told: &mut Page) {
    if let Some(text) = told.done(write_bank(told.alloc(), bank)) {
        expect(row, "writes", text.as_slice(), told);
    }
}

/// Tells where the bank isn't written and drawn as the row says; behind the draws it is written as before.
fn expect_made(row: &str, bank: &mut Bank, told: &mut Page) {
    expect_bank(row, bank, told);
    if let Some(words) = rest_of(row, "draws ") {
        expect_draws(row, words, bank, told);
        expect_bank(row, bank, told);
    }
}

/// Tells where a bank that the generator makes from these numbers isn't as the row says: one whose numbers are made before, and one
/// whose numbers are made as they are drawn.
pub fn tell_made(row: &str, words: &str, told: &mut Page) {
    let (seed, stream, rate, count) = four_numbers(words).unwrap_or((0, 0, 0, 0));
    if rate < 1 || rate > 65536 || count < 1 || count > 65536 {
        return told.say("\nno such bank is made");
    }
    let mut words = Lcg64Xsh32::new(seed, stream);
    if let Some(mut bank) = told.done(make_bank(told.alloc(), &mut words, rate, count)) {
        expect_made(row, &mut bank, told);
    }
    let words = Lcg64Xsh32::new(seed, stream);
    if let Some(mut bank) = told.done(later_bank(told.alloc(), words, rate, count)) {
        expect_made(row, &mut bank, told);
    }
}
