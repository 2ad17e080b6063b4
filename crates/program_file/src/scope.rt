ghost use Rattle.std.specs.Prelude.{◌≡◌, ◌≤◌, map, IfOk};
ghost use Rattle.cbi_base.specs.Format.{conversions_of};
ghost use Rattle.flow.specs.Limits.{byte_limit};
ghost use Rattle.program_file.specs.Draft.{names_beside};
ghost use Rattle.program_lines.specs.Sums.{bytes_in};

use cbi_base::{Memory, Seq, count_conversions};
use flow::{Names, Site, Text};
use program_lines::Texts;
use std::alloc::Global;

// The number of each text's conversions as a format.
fn conversions(alloc: Global, texts: &[Text]) -> Result<Seq<Option<u32>>, Memory>
    requires { bytes_in texts.now ≤ byte_limit }
    ensures { IfOk result (λ counts. counts ≡ map (λ t. conversions_of t.bytes) texts.now) }
{
    let mut counts = Seq::new(alloc);
    for text in texts {
        counts.push(count_conversions(text.bytes.as_slice()))?;
    }
    Ok(counts)
}

fn owners(alloc: Global, sites: &[Site]) -> Result<Seq<u32>, Memory>
    ensures { IfOk result (λ owners. owners ≡ map (λ s. s.function) sites.now) }
{
    let mut owners = Seq::new(alloc);
    for site in sites {
        owners.push(site.function)?;
    }
    Ok(owners)
}

/// What nodes may name beside these texts and sites, and so many globals and functions.
pub fn names(
    alloc: Global,
    texts: &Texts,
    globals: u32,
    functions: u32,
    sites: &[Site],
) -> Result<Names, Memory>
    ensures { IfOk result (λ names. names ≡ names_beside texts.now globals functions sites.now) }
{
    Ok(Names {
        conversions: conversions(alloc, texts.as_slice())?,
        globals,
        functions,
        owners: owners(alloc, sites)?,
    })
}
