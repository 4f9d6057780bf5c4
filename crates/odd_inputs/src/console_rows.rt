// Console lines: lengths at the edges, kept and lost at every edge, small stores, and each refusal with what could mask it.
use crate::cases::{Case, Outcome, both_ways};
use console::Console;
use std::test::Fail;

// the largest count, and the last place that can be named
const MOST: u32 = u32::MAX;

const LAST: u64 = u64::MAX;

// what is lent and asked: store, kept, lost, tag, code, place, line; what comes of it: refusal, kept, lost; and whether cell and
// store changed
type Row = (
    usize,
    u32,
    u32,
    u16,
    u32,
    u64,
    usize,
    Option<u8>,
    u32,
    u32,
    bool,
    bool,
);

const ROWS: [Row; 41] = [
    // lines of every length
    (2048, 0, 0, 0, 0, 0, 1, None, 1, 0, true, true),
    (2048, 0, 0, 0, 0, 0, 511, None, 511, 0, true, true),
    (2048, 0, 0, 15, 0, 0, 512, None, 512, 0, true, true),
    (2048, 0, 0, 0, 0, 0, 0, Some(6), 0, 0, false, false),
    (2048, 0, 0, 0, 0, 0, 513, Some(6), 0, 0, false, false),
    // stores with next to no room
    (8, 0, 0, 0, 0, 0, 1, None, 0, 1, true, true),
    (8, 0, 0, 0, 0, 0, 512, None, 0, 512, true, true),
    (9, 0, 0, 0, 0, 0, 1, None, 1, 0, true, true),
    (9, 0, 0, 0, 0, 0, 2, None, 1, 1, true, true),
    (9, 1, 0, 0, 0, 0, 1, None, 1, 1, true, true),
    (10, 1, 5, 0, 0, 0, 1, None, 2, 5, true, true),
    (10, 1, 5, 0, 0, 0, 4, None, 2, 8, true, true),
    // kept just before, at and beyond the end
    (40, 31, 0, 0, 0, 0, 1, None, 32, 0, true, true),
    (40, 31, 0, 0, 0, 0, 2, None, 32, 1, true, true),
    (40, 32, 0, 0, 0, 0, 1, None, 32, 1, true, true),
    (40, 33, 0, 0, 0, 0, 1, None, 33, 1, true, true),
    (40, 40, 7, 0, 0, 0, 3, None, 40, 10, true, true),
    (40, MOST, 0, 0, 0, 0, 3, None, MOST, 3, true, true),
    (
        40,
        MOST - 1,
        MOST,
        0,
        0,
        0,
        512,
        None,
        MOST - 1,
        MOST,
        true,
        false,
    ),
    // lost close to its largest value
    (
        40,
        30,
        MOST - 9,
        0,
        0,
        0,
        10,
        None,
        32,
        MOST - 1,
        true,
        true,
    ),
    (40, 30, MOST - 8, 0, 0, 0, 10, None, 32, MOST, true, true),
    (40, 30, MOST - 7, 0, 0, 0, 10, None, 32, MOST, true, true),
    (40, 30, MOST, 0, 0, 0, 10, None, 32, MOST, true, true),
    (40, 32, MOST - 1, 0, 0, 0, 2, None, 32, MOST, true, true),
    (40, 32, MOST - 512, 0, 0, 0, 512, None, 32, MOST, true, true),
    // lines that fill the room exactly, or by one byte not
    (40, 0, 0, 0, 0, 0, 32, None, 32, 0, true, true),
    (40, 0, 0, 0, 0, 0, 33, None, 32, 1, true, true),
    (520, 0, 0, 0, 0, 0, 512, None, 512, 0, true, true),
    (519, 0, 0, 0, 0, 0, 512, None, 511, 1, true, true),
    (520, 1, 0, 0, 0, 0, 512, None, 512, 1, true, true),
    // stores, requests and tags that are refused
    (0, 0, 0, 0, 0, 0, 1, Some(5), 0, 0, false, false),
    (7, 0, 0, 0, 0, 0, 1, Some(5), 0, 0, false, false),
    (40, 0, 0, 0, 1, 0, 1, Some(6), 0, 0, false, false),
    (40, 0, 0, 0, 4, 0, 1, Some(6), 0, 0, false, false),
    (40, 0, 0, 0, MOST, 0, 1, Some(6), 0, 0, false, false),
    (40, 0, 0, 0, 0, 1, 1, Some(6), 0, 0, false, false),
    (40, 0, 0, 0, 0, LAST, 1, Some(6), 0, 0, false, false),
    (40, 0, 0, 16, 0, 0, 1, Some(8), 0, 0, false, false),
    // the smallest number wins
    (4, 0, 0, 16, 1, 0, 1, Some(5), 0, 0, false, false),
    (40, 0, 0, 16, 0, 0, 0, Some(6), 0, 0, false, false),
    (40, 0, 0, 16, 1, 0, 0, Some(6), 0, 0, false, false),
];

#[test]
fn odd_console_lines(rt: HostRuntime) -> Result<(), Fail> {
    for row in ROWS {
        let (
            store,
            kept,
            lost,
            tag,
            code,
            place,
            line,
            refused,
            kept_then,
            lost_then,
            touched,
            stored,
        ) = row;
        let case = Case {
            cell: 544,
            store,
            words: (kept, lost),
            tag,
            code,
            place,
            payload: line,
        };
        let expected = Outcome {
            answer: refused.map_or(Ok((0, 0)), Err),
            data: (0, 0),
            changed: (touched, stored),
            words: (kept_then, lost_then),
        };
        assert_eq!(rt; both_ways::<Console>(&rt, case)?, [expected; 2]);
    }
    Ok(())
}
