//! Suspicious lines of a collection's runs, and bugs: the texts of both.
ghost use Rattle.std.specs.Prelude.{◌≡◌};
ghost use Rattle.collector.specs.Sites.{branches_of};

use bug_rounds::bugs_of;
use cases_rows::{Page, expect, has_head};
use cbi_base::Memory;
use collector::Collection;
use flow::SiteTable;
use suspicious_lines::lines_of;

/// How many lines, and how many bugs, are listed at most.
const MOST: u32 = 10;

/// A line is left out where one of its function, so many lines away at most, stands before it.
const APART: u32 = 3;

/// How many places a bug has at most.
const ALSO: u32 = 3;

/// Tells a text where the row's block below this head is another one.
fn tell_text(row: &str, head: &str, text: Result<Vec<u8>, Memory>, told: &mut Page) {
    match text {
        Ok(text) => expect(row, head, text.as_slice(), told),
        Err(_) => told.want(),
    }
}

/// Tells the text of suspicious lines, and that of bugs, where the row says another one.
pub fn tell_lines(row: &str, table: &SiteTable, collection: &Collection, told: &mut Page)
    requires { collection.now.branches ≡ branches_of table.now.sites }
{
    if has_head(row, "suspicious lines") {
        let text = lines_of(told.alloc(), collection, table, MOST, APART);
        tell_text(row, "suspicious lines", text, told);
    }
    if has_head(row, "bugs") {
        let text = bugs_of(told.alloc(), collection, table, MOST, ALSO);
        tell_text(row, "bugs", text, told);
    }
}
