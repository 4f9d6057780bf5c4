// A console request: one line of 1 to 512 bytes, which lies at the cell's data for the device to read.
ghost use Rattle.std.specs.Prelude.{◌≡◌};
ghost use Rattle.class.specs.Kinds.{asked};
ghost use Rattle.console.specs.Requests.{sendable, refused};
ghost use Rattle.console.specs.Layout.{entry_for};

use class::{DATA_AT, DATA_SIZE, Request, cell_address};
use entries::{Entry, Segment};

pub(crate) fn is_sendable(length: usize) -> bool
    ensures from_1_to_512 { result ≡ sendable length }
{
    1 <= length && length <= DATA_SIZE
}

// The console has one code and one place, both 0.
pub(crate) fn is_refused(request: Request<'_>) -> bool
    ensures by_the_request_alone { result ≡ refused (asked request.entry) }
{
    request.code != 0 || request.place != 0 || !is_sendable(request.payload.len())
}

// The entry of a tag's line of this length.
pub(crate) fn entry_for(tag: u16, length: u32) -> Entry
    ensures one_line_to_read { result ≡ entry_for tag length }
{
    let line = Segment {
        start: cell_address(tag) + DATA_AT as u64,
        length,
        writable: false,
    };
    Entry {
        tag,
        count: 1,
        segments: [line, Segment::UNUSED, Segment::UNUSED],
    }
}
