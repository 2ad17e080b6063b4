ghost use Rattle.std.specs.Prelude.{◌≡◌, ℕ, IfOk, Err};
ghost use Rattle.cbi_base.specs.Lines.{IsBadLine};
ghost use Rattle.collector.specs.Answers.{BundleReadAs, BundleRefusedAt};
ghost use Rattle.collector.specs.Grammar.{BundleLineFollows, BundleEnds, bundle_start};
ghost use Rattle.collector.specs.Merging.{IsBundle};
ghost use Rattle.collector.specs.Spelling.{IsText, SpellsBundle};
ghost use Rattle.collector.specs.declared.collection.Bundle.{Bundle};
ghost use Rattle.collector.specs.declared.reading.CollectionError.TheVariants as error;

use crate::collection::Bundle;
use crate::draft::Draft;
use cbi_base::{TextError, read_lines};
use std::alloc::Global;

/// Why bytes were not read as a collection.
#[derive(Clone, Copy, Debug, PartialEq, Eq)]
pub enum CollectionError {
    /// The bytes are the text of no collection. The line is 1 plus the number of whole lines in their longest good prefix.
    BadCollection { line: u32 },
    Memory,
}

/// The reports whose text the bytes are, in either version.
pub fn read_collection(alloc: Global, bytes: &[u8]) -> Result<Bundle, CollectionError>
    // What is read is spelled so.
    ensures found { IfOk result (SpellsBundle bytes.now) }
    // It has a text: each report can be spelled, is of the bundle's program, and the limits hold.
    ensures is_text { IfOk result IsText }
    // So it can be merged.
    ensures is_bundle { IfOk result IsBundle }
    // What is spelled so is read, unless memory runs out: so bytes are refused exactly where they spell no collection.
    ensures only { (b : Bundle) → SpellsBundle bytes.now b → BundleReadAs result b }
    // A refusal names the bad line.
    ensures line { (line : ℕ) → result ≡ Err (error.BadCollection line) → IsBadLine BundleLineFollows BundleEnds (bundle_start alloc) bytes.now line }
    // Bytes that go wrong at a line are refused there, unless memory runs out.
    ensures line_only { (line : ℕ) → IsBadLine BundleLineFollows BundleEnds (bundle_start alloc) bytes.now line → BundleRefusedAt result line }
{
    let mut draft = Draft::new(alloc);
    match read_lines(&mut draft, bytes) {
        Ok(()) => Ok(draft.into_bundle()),
        Err(TextError::Bad { line }) => Err(CollectionError::BadCollection { line }),
        Err(TextError::Memory) => Err(CollectionError::Memory),
    }
}
