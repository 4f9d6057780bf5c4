// Entries that differ in one field from the one that was laid: serving them changes nothing.
use block::{Block, Operation};
use class::{CELL_SIZE, Class, Request};
use entries::{Entry, Segment};
use std::test::Fail;

// tag, count, and the data segment's start, length and direction; the entry that is laid has 3, 3, 1648, 512, true
type Row = (u16, usize, u64, u32, bool);

const ROWS: [Row; 10] = [
    (2, 3, 1648, 512, true),
    (3, 2, 1648, 512, true),
    (3, 0, 1648, 512, true),
    (3, 4, 1648, 512, true),
    (3, 3, 1647, 512, true),
    (3, 3, 1632, 512, true),
    (3, 3, 1648, 511, true),
    (3, 3, 1648, 0, true),
    (3, 3, 1648, 513, true),
    (3, 3, 1648, 512, false),
];

#[test]
fn foreign_entries_change_nothing(rt: HostRuntime) -> Result<(), Fail> {
    let mut cell = [0xee; CELL_SIZE];
    let mut store = [0x11; 1024];
    let request = Request::bare(Operation::Read.into(), 1);
    let laid = Block::lay(3, request, &mut cell)?;
    let before = cell;
    for (tag, count, start, length, writable) in ROWS {
        let [header, _, status] = laid.segments;
        let data = Segment {
            start,
            length,
            writable,
        };
        let foreign = Entry {
            tag,
            count,
            segments: [header, data, status],
        };
        let written = Block::serve(&foreign, &mut cell, &mut store)?;
        assert!(rt; written == 0);
        assert!(rt; cell == before);
        assert!(rt; store == [0x11; 1024]);
    }
    let written = Block::serve(&laid, &mut cell, &mut store)?;
    assert!(rt; written == 513);
    Ok(())
}
