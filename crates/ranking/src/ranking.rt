ghost use Rattle.std.specs.Prelude.{◌≡◌, IfOk};
ghost use Rattle.std.specs.List.{join_with_byte};
ghost use Rattle.cbi_base.specs.Text.{line_with_newline};
ghost use Rattle.ranking.specs.Ranking.{AreRowsOf, IsRowOf, ranking_text, row_fields};

use crate::line::{line_of, push, push_number};
use crate::place::{place_is_plain, push_place};
use crate::shares::{push_shares, push_tally};
use cbi_base::Memory;
use csv::ByteRecord;
use elimination_tallies::Listed;
use flow::SiteTable;
use std::alloc::Global;

/// The names of the columns.
const HEADER: &[u8] =
    b"rank,predicate,scheme,function,line,text,f,s,fobs,sobs,failure,context,increase,importance\n";

// The line of a row.
fn row_line(alloc: Global, rank: u64, row: &Listed, table: &SiteTable) -> Result<Vec<u8>, Memory>
    requires { IsRowOf table.now row.now }
    ensures { IfOk result (λ line. line.items ≡ line_with_newline (join_with_byte 44 (row_fields table.now rank row.now))) }
{
    place_is_plain(table, row.predicate);
    let mut record = ByteRecord::new(alloc);
    push_number(&mut record, rank)?;
    push_number(&mut record, u64::from(row.predicate))?;
    push_place(alloc, &mut record, table, row.predicate)?;
    push_tally(&mut record, row.tally)?;
    push_shares(&mut record, row.tally, row.failing)?;
    let line = line_of(alloc, &record)?;
    Ok(line)
}

/// The text of a ranking: the header, and a row for each of these in turn, the first with rank 1.
pub fn ranking_text(alloc: Global, rows: &[Listed], table: &SiteTable) -> Result<Vec<u8>, Memory>
    requires { AreRowsOf table.now rows.now }
    ensures { IfOk result (λ text. text.items ≡ ranking_text table.now rows.now) }
{
    let mut text = Vec::from_slice(alloc, HEADER)?;
    let mut rank = 1u64;
    for row in rows {
        let line = row_line(alloc, rank, row, table)?;
        text.extend_from_slice(line.as_slice())?;
        rank += 1;
    }
    Ok(text)
}
