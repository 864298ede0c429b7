//! The records of a text.
ghost use Rattle.std.specs.Prelude.{◌≡◌, ◌<◌, true, IfOk, IfErr, length, slice_index_or, []};
ghost use Rattle.csv.specs.Records.{fields_of};
ghost use Rattle.stim_csv.specs.Records.{Reads, TakesNext, records_left};

use crate::error::StimError;
use csv::{ByteRecord, Reader};

/// Takes the next record, and answers whether there was one. Where there is none, the record is empty.
pub(crate) fn next_record(
    reader: &mut Reader<&[u8]>,
    cells: &mut ByteRecord,
) -> Result<bool, StimError>
    requires { Reads reader.old }
    ensures taken { IfOk result
        (λ found. TakesNext (records_left reader.old) (records_left reader.new) found (fields_of cells.new)) }
    ensures reads { IfOk result (λ found. found ≡ true → Reads reader.new) }
    ensures refused { IfErr result (λ e. e ≡ StimError.NoMemory) }
{
    let Ok(found) = reader.read_byte_record(cells) else {
        return Err(StimError::NoMemory);
    };
    if found {
        return Ok(true);
    }
    cells.clear();
    Ok(false)
}

/// The cell of a record at a column.
pub(crate) fn cell_at(cells: &ByteRecord, column: usize) -> &[u8]
    requires { column < length (fields_of cells.now) }
    ensures { result.now ≡ slice_index_or (fields_of cells.now) column [] }
{
    cells.get(column).unwrap()
}
