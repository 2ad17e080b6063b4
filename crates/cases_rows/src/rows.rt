//! The rows of files, and what is answered of them.
use crate::form::bad_text_line;
use crate::page::Page;
use std::process::ExitCode;
use std::{env, fs, io};

/// What a program of cases looks at.
pub trait Rows {
    /// Which of a row's lines can't be read, or what else keeps it from being looked at; nothing where it can be.
    fn unread<'a>(&self, texts: &str, row: &'a str) -> Option<&'a str>;

    /// Tells what doesn't come as the row says. Where all does, nothing is told.
    fn tell(&self, rt: &HostRuntime, texts: &str, row: &str, told: &mut Page);
}

/// What stands before each row but the first of a file. A row begins with its name.
const ROW_START: &str = "\ncase ";

/// What stands before the first row, and the rows, which `ROW_START` parts; nothing where the file has no row.
fn parts_of(file: &str) -> Option<(&str, &str)> {
    match file.strip_prefix("case ") {
        Some(rows) => Some(("", rows)),
        None => file.split_once(ROW_START),
    }
}

/// How many rows were answered `ok`, and how many otherwise.
#[derive(Clone, Copy)]
pub struct Tally {
    ok: u64,
    not: u64,
}

/// Answers a row or a file that can't be read: `unread NAME` and why.
pub fn print_unread(rt: &HostRuntime, name: &str, why: &str, tally: &mut Tally) -> io::Result<()> {
    tally.not = tally.not.saturating_add(1);
    println!(rt; "unread {name}\n{why}")
}

/// Answers a row: `ok NAME` where there is no difference, else `differs NAME` and what came.
fn print_row(rt: &HostRuntime, name: &str, told: &Page, tally: &mut Tally) -> io::Result<()> {
    let text = told.text();
    if text == Some("") {
        tally.ok = tally.ok.saturating_add(1);
        return println!(rt; "ok {name}");
    }
    tally.not = tally.not.saturating_add(1);
    let differences = text.unwrap_or("\nno memory");
    println!(rt; "differs {name}{differences}")
}

/// Looks at a row, which begins with its name.
fn look_at_row<R: Rows>(
    rt: &HostRuntime,
    rows: &R,
    texts: &str,
    row: &str,
    tally: &mut Tally,
) -> io::Result<()> {
    let (name, lines) = row.split_once('\n').unwrap_or((row, ""));
    if let Some(why) = rows.unread(texts, lines) {
        return print_unread(rt, name, why, tally);
    }
    let mut told = Page::new(rt.alloc());
    rows.tell(rt, texts, lines, &mut told);
    print_row(rt, name, &told, tally)
}

/// Looks at each row of a file, in order.
fn look_at_rows<R: Rows>(
    rt: &HostRuntime,
    rows: &R,
    name: &str,
    file: &str,
    tally: &mut Tally,
) -> io::Result<()> {
    let Some((texts, lines)) = parts_of(file) else {
        return print_unread(rt, name, "no row", tally);
    };
    if let Some(line) = bad_text_line(texts) {
        return print_unread(rt, name, line, tally);
    }
    for row in lines.split(ROW_START) {
        look_at_row(rt, rows, texts, row, tally)?;
    }
    Ok(())
}

/// Looks at each row of a file, in order, where all are of this kind.
pub fn look_at_file<R: Rows>(
    rt: &HostRuntime,
    rows: &R,
    name: &str,
    tally: &mut Tally,
) -> io::Result<()> {
    match fs::read_to_string(rt, name) {
        Ok(file) => look_at_rows(rt, rows, name, file.as_str(), tally),
        Err(_) => print_unread(rt, name, "no file", tally),
    }
}

/// The files of a program of cases.
pub trait Files {
    /// Looks at each row of the file with this name, in order.
    fn look_at(&self, rt: &HostRuntime, name: &str, tally: &mut Tally) -> io::Result<()>;
}

/// Files whose rows are all of one kind.
#[derive(Drop)]
struct OfKind<'a, R> {
    rows: &'a R,
}

impl<'a, R: Rows> Files for OfKind<'a, R> {
    fn look_at(&self, rt: &HostRuntime, name: &str, tally: &mut Tally) -> io::Result<()> {
        look_at_file(rt, self.rows, name, tally)
    }
}

/// Looks at each row of the files that the program's words name; whether there is some row, and each is `ok`.
fn look_at_files<F: Files>(rt: &HostRuntime, files: &F) -> io::Result<bool> {
    let mut tally = Tally { ok: 0, not: 0 };
    for name in env::args(rt)?.skip(1) {
        files.look_at(rt, name.as_str(), &mut tally)?;
    }
    println!(rt; "{} ok, {} not", tally.ok, tally.not)?;
    Ok(tally.ok > 0 && tally.not == 0)
}

/// Looks at each row of the files that the program's words name, and answers a line of each and one that sums up. The status isn't 0 where there is no row, or
/// one isn't `ok`.
pub fn look_by_file<F: Files>(rt: &HostRuntime, files: &F) -> ExitCode {
    match look_at_files(rt, files) {
        Ok(true) => ExitCode::SUCCESS,
        _ => ExitCode::FAILURE,
    }
}

/// The same, where all rows are of one kind.
pub fn look<R: Rows>(rt: &HostRuntime, rows: &R) -> ExitCode {
    look_by_file(rt, &OfKind { rows })
}
