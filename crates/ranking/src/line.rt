ghost use Rattle.std.specs.Prelude.{◌≡◌, [], ◌∷◌, ◌++◌, decimal, IfOk, OnOk};
ghost use Rattle.csv.specs.Records.{fields_of, partial_of};
ghost use Rattle.csv.specs.Writing.{default_writer, row_text};
ghost use Rattle.ranking.specs.Plain.{IsPlainField};

use crate::plain::number_is_plain;
use cbi_base::Memory;
use csv::{ByteRecord, WriterBuilder};
use itoa::Buffer;
use std::alloc::Global;

/// Adds a field.
pub fn push(record: &mut ByteRecord, field: &[u8]) -> Result<(), Memory>
    requires { partial_of record.old ≡ [] }
    ensures fields { OnOk result (fields_of record.new ≡ fields_of record.old ++ field.now ∷ []) }
    ensures partial { OnOk result (partial_of record.new ≡ []) }
{
    record.push_field(field)?;
    Ok(())
}

/// Adds the decimal of a number.
pub fn push_number(record: &mut ByteRecord, number: u64) -> Result<(), Memory>
    requires { partial_of record.old ≡ [] }
    ensures fields { OnOk result (fields_of record.new ≡ fields_of record.old ++ decimal number ∷ []) }
    ensures partial { OnOk result (partial_of record.new ≡ []) }
    ensures plain { IsPlainField (decimal number) }
{
    number_is_plain(number);
    let mut buffer = Buffer::new();
    push(record, buffer.format(number).as_bytes())
}

/// The line of a record, in CSV.
pub fn line_of(alloc: Global, record: &ByteRecord) -> Result<Vec<u8>, Memory>
    ensures { IfOk result (λ line. line.items ≡ row_text default_writer (fields_of record.now)) }
{
    let mut writer = WriterBuilder::new().from_writer(Vec::new(alloc));
    let Ok(()) = writer.write_byte_record(record) else {
        return Err(Memory);
    };
    match writer.into_inner() {
        Ok(line) => Ok(line),
        Err(_) => Err(Memory),
    }
}
