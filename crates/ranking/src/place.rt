ghost use Rattle.std.specs.Prelude.{◌≡◌, ◌<◌, [], ◌++◌, OnOk};
ghost use Rattle.csv.specs.Records.{fields_of, partial_of};
ghost use Rattle.flow.specs.Predicates.{predicate_count, predicate_text, site_at};
ghost use Rattle.ranking.specs.Plain.{ArePlainFields};
ghost use Rattle.ranking.specs.Ranking.{place_fields, scheme_word};

use crate::line::{push, push_number};
use crate::plain::{name_is_plain, number_is_plain, texts_are_plain};
use cbi_base::Memory;
use csv::ByteRecord;
use flow::{SiteKind, SiteTable, predicate_name, predicate_site};
use std::alloc::Global;

fn scheme_word(kind: &SiteKind) -> &'static [u8]
    ensures { result.now ≡ scheme_word kind.now }
{
    match kind {
        SiteKind::Branch { .. } => b"branches",
        SiteKind::Return { .. } => b"returns",
        SiteKind::Pair { .. } => b"pairs",
    }
}

/// Where a predicate stands and what it says need no quotes.
pub fn place_is_plain(table: &SiteTable, predicate: u32)
    requires { predicate < predicate_count table.now.sites }
    ensures { ArePlainFields (place_fields table.now.functions (site_at table.now.sites predicate) (predicate_text table.now.sites predicate)) }
{
    let functions = table.functions();
    let site = predicate_site(table, predicate).0;
    number_is_plain(u64::from(site.line));
    texts_are_plain(&site.kind);
    name_is_plain(&functions[site.function as usize]);
}

/// Adds where a predicate stands, and what it says.
pub fn push_place(
    alloc: Global,
    record: &mut ByteRecord,
    table: &SiteTable,
    predicate: u32,
) -> Result<(), Memory>
    requires partial { partial_of record.old ≡ [] }
    requires predicate { predicate < predicate_count table.now.sites }
    ensures fields { OnOk result (fields_of record.new ≡ fields_of record.old
        ++ place_fields table.now.functions (site_at table.now.sites predicate) (predicate_text table.now.sites predicate)) }
    ensures partial { OnOk result (partial_of record.new ≡ []) }
{
    let functions = table.functions();
    let site = predicate_site(table, predicate).0;
    let function = &functions[site.function as usize];
    let text = predicate_name(alloc, table, predicate)?;
    push(record, scheme_word(&site.kind))?;
    push(record, function.bytes())?;
    push_number(record, u64::from(site.line))?;
    push(record, text.as_slice())
}
