// A block request in a cell: a header of le32 type, le32 zero and le64 sector, then data, then one status byte.
ghost use Rattle.std.specs.Prelude.{◌≡◌};
ghost use Rattle.class.specs.Kinds.{asked};
ghost use Rattle.block.specs.Layout.{entry_for, lays};

use crate::codes::{NOT_SERVED, Operation};
use class::{DATA_AT, DATA_SIZE, HEADER_SIZE, Request, STATUS_AT, cell_address};
use entries::{Entry, Segment};
use words::{overwrite, put, zero};

pub(crate) const TYPE_AT: usize = 0;

pub(crate) const SECTOR_AT: usize = 8;

const RESERVED_AT: usize = 4;

// The entry of a tag's request with this code: reads and writes have data, and the device writes only the status and a read's data.
pub(crate) fn entry_for(tag: u16, code: u32) -> Entry
    ensures segments_of_its_type { result ≡ entry_for tag code }
{
    let at = cell_address(tag);
    let operation = Operation::try_from(code);
    let header = Segment {
        start: at,
        length: HEADER_SIZE as u32,
        writable: false,
    };
    let bytes = Segment {
        start: at + DATA_AT as u64,
        length: DATA_SIZE as u32,
        writable: operation == Ok(Operation::Read),
    };
    let status = Segment {
        start: at + STATUS_AT as u64,
        length: 1,
        writable: true,
    };
    match operation {
        Ok(Operation::Read | Operation::Write) => Entry {
            tag,
            count: 3,
            segments: [header, bytes, status],
        },
        _ => Entry {
            tag,
            count: 2,
            segments: [header, status, Segment::UNUSED],
        },
    }
}

// Writes the request. A read's data is zeroed, so that no older data is taken for an answer.
pub(crate) fn lay_cell(request: Request<'_>, cell: &mut [u8])
    ensures request_in_the_cell { cell.new ≡ lays (asked request.entry) cell.old }
{
    put(cell, TYPE_AT, request.code);
    put(cell, RESERVED_AT, 0u32);
    put(cell, SECTOR_AT, request.place);
    match Operation::try_from(request.code) {
        Ok(Operation::Read) => zero(cell, DATA_AT, DATA_SIZE),
        Ok(Operation::Write) => overwrite(cell, DATA_AT, request.payload),
        _ => {}
    }
    overwrite(cell, STATUS_AT, &[NOT_SERVED]);
}
