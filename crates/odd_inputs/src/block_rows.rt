// Block requests: every code, sectors at the edges, odd stores, and each refusal with what could mask it.
use crate::cases::{Case, both_ways};
use block::Block;
use std::test::Fail;

// the largest code, a sector whose offset would not fit 64 bits, and the last sector that can be named
const MOST: u32 = u32::MAX;

const FAR: u64 = 36_028_797_018_963_968;

const LAST: u64 = u64::MAX;

// what is lent and asked: cell, store, tag, code, place, payload; what comes of it: status and written length, or the refusal;
// the length of the data and its first byte; and whether cell and store changed
type Row = (
    usize,
    usize,
    u16,
    u32,
    u64,
    usize,
    Result<(u8, u32), u8>,
    usize,
    u8,
    bool,
    bool,
);

const ROWS: [Row; 45] = [
    // reads, at the edges of the store and far beyond
    (544, 2048, 0, 0, 0, 0, Ok((0, 513)), 512, 17, true, false),
    (544, 2048, 0, 0, 1, 0, Ok((0, 513)), 512, 17, true, false),
    (544, 2048, 0, 0, 3, 0, Ok((0, 513)), 512, 17, true, false),
    (544, 2048, 15, 0, 4, 0, Ok((1, 513)), 512, 0, true, false),
    (544, 2048, 0, 0, FAR, 0, Ok((1, 513)), 512, 0, true, false),
    (544, 2048, 0, 0, LAST, 0, Ok((1, 513)), 512, 0, true, false),
    // stores that end within a sector
    (544, 2047, 0, 0, 3, 0, Ok((1, 513)), 512, 0, true, false),
    (544, 2047, 0, 0, 2, 0, Ok((0, 513)), 512, 17, true, false),
    (544, 512, 0, 0, 0, 0, Ok((0, 513)), 512, 17, true, false),
    (544, 512, 0, 0, 1, 0, Ok((1, 513)), 512, 0, true, false),
    (544, 513, 0, 0, 1, 0, Ok((1, 513)), 512, 0, true, false),
    (544, 1023, 0, 0, 1, 0, Ok((1, 513)), 512, 0, true, false),
    (544, 1024, 0, 0, 1, 0, Ok((0, 513)), 512, 17, true, false),
    // writes
    (544, 2048, 0, 1, 0, 512, Ok((0, 1)), 0, 0, true, true),
    (544, 2048, 7, 1, 3, 512, Ok((0, 1)), 0, 0, true, true),
    (544, 2048, 0, 1, 4, 512, Ok((1, 1)), 0, 0, true, false),
    (544, 2047, 0, 1, 3, 512, Ok((1, 1)), 0, 0, true, false),
    (544, 2048, 0, 1, LAST, 512, Ok((1, 1)), 0, 0, true, false),
    (544, 2048, 0, 1, FAR + 1, 512, Ok((1, 1)), 0, 0, true, false),
    // a flush, and codes that nobody knows
    (544, 2048, 0, 4, 0, 0, Ok((0, 1)), 0, 0, true, false),
    (544, 2048, 0, 2, 0, 0, Ok((2, 1)), 0, 0, true, false),
    (544, 2048, 0, 3, 9, 0, Ok((2, 1)), 0, 0, true, false),
    (544, 2048, 0, 5, 0, 0, Ok((2, 1)), 0, 0, true, false),
    (544, 2048, 0, 8, LAST, 0, Ok((2, 1)), 0, 0, true, false),
    (544, 2048, 0, MOST, 0, 0, Ok((2, 1)), 0, 0, true, false),
    // requests that are refused
    (544, 2048, 0, 1, 0, 0, Err(6), 0, 0, false, false),
    (544, 2048, 0, 1, 0, 1, Err(6), 0, 0, false, false),
    (544, 2048, 0, 1, 0, 511, Err(6), 0, 0, false, false),
    (544, 2048, 0, 1, 0, 513, Err(6), 0, 0, false, false),
    (544, 2048, 0, 0, 0, 1, Err(6), 0, 0, false, false),
    (544, 2048, 0, 0, 0, 512, Err(6), 0, 0, false, false),
    (544, 2048, 0, 4, 0, 1, Err(6), 0, 0, false, false),
    (544, 2048, 0, 4, 1, 0, Err(6), 0, 0, false, false),
    (544, 2048, 0, 9, 0, 512, Err(6), 0, 0, false, false),
    // stores, cells and tags that are refused
    (544, 0, 0, 0, 0, 0, Err(5), 0, 0, false, false),
    (544, 1, 0, 0, 0, 0, Err(5), 0, 0, false, false),
    (544, 511, 0, 0, 0, 0, Err(5), 0, 0, false, false),
    (0, 2048, 0, 0, 0, 0, Err(4), 0, 0, false, false),
    (543, 2048, 0, 0, 0, 0, Err(4), 0, 0, false, false),
    (545, 2048, 0, 0, 0, 0, Err(4), 0, 0, false, false),
    (544, 2048, 16, 0, 0, 0, Err(8), 0, 0, false, false),
    (544, 2048, 65535, 4, 0, 0, Err(8), 0, 0, false, false),
    // the smallest number wins
    (543, 0, 16, 1, 0, 1, Err(4), 0, 0, false, false),
    (544, 0, 16, 1, 0, 1, Err(5), 0, 0, false, false),
    (544, 2048, 16, 1, 0, 1, Err(6), 0, 0, false, false),
];

#[test]
fn odd_block_requests(rt: HostRuntime) -> Result<(), Fail> {
    for row in ROWS {
        let (cell, store, tag, code, place, payload, answer, length, first, touched, stored) = row;
        let case = Case {
            cell,
            store,
            words: (0x1111_1111, 0x1111_1111),
            tag,
            code,
            place,
            payload,
        };
        for outcome in both_ways::<Block>(&rt, case)? {
            assert_eq!(rt; outcome.answer, answer);
            assert_eq!(rt; outcome.data, (length, first));
            assert_eq!(rt; outcome.changed, (touched, stored));
        }
    }
    Ok(())
}
