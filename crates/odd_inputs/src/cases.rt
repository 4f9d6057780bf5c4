// One row of a table, run on bytes that are known beforehand.
use bringup::{VERSION_1, bring_up};
use carrying::Over;
use class::{ByHand, Class, Request, Way};
use entries::Refusal;
use split::Split;
use std::alloc::{AllocError, Global};
use std::test::Fail;
use words::{get, put};

// What the lent bytes hold before the request.
pub(crate) const IN_CELL: u8 = 0xee;

pub(crate) const IN_STORE: u8 = 0x11;

const IN_PAYLOAD: u8 = 0x77;

// How many bytes lie behind those that are lent: they have to stay, too.
const BEHIND: usize = 2048;

// The sizes of what is lent, the two words that the store starts with, and a request.
#[derive(Clone, Copy)]
pub(crate) struct Case {
    pub(crate) cell: usize,
    pub(crate) store: usize,
    pub(crate) words: (u32, u32),
    pub(crate) tag: u16,
    pub(crate) code: u32,
    pub(crate) place: u64,
    pub(crate) payload: usize,
}

// What came of it: the status and the written length, or the refusal's number, which a table has as the documents do; the length and the first byte of the data;
// whether the cell and the store are no longer as they were; and the two words that the store ends with.
#[derive(Clone, Copy, PartialEq, Eq, Debug)]
pub(crate) struct Outcome {
    pub(crate) answer: Result<(u8, u32), u8>,
    pub(crate) data: (usize, u8),
    pub(crate) changed: (bool, bool),
    pub(crate) words: (u32, u32),
}

// A split queue of capacity 4, as its bring-up gives it.
pub(crate) fn queue<'a>(region: &'a mut [u8]) -> Result<Split<'a>, Refusal> {
    Ok(Split::make(region, bring_up(VERSION_1, VERSION_1, 4)?))
}

// Runs a row one way.
fn run<W: Way, C: Class>(alloc: Global, way: &mut W, case: Case) -> Result<Outcome, AllocError> {
    let mut cell = vec![in alloc; IN_CELL; case.cell.saturating_add(BEHIND)]?;
    let mut store = vec![in alloc; IN_STORE; case.store.saturating_add(BEHIND)]?;
    let payload = vec![in alloc; IN_PAYLOAD; case.payload]?;
    put(&mut store, 0, case.words.0);
    put(&mut store, 4, case.words.1);
    let before = store.clone()?;
    let request = Request {
        code: case.code,
        place: case.place,
        payload: &payload,
    };
    let answer = way
        .carry::<C>(
            case.tag,
            request,
            &mut cell[..case.cell],
            &mut store[..case.store],
        )
        .map(|reply| (reply.status, reply.written))
        .map_err(Refusal::number);
    // where there is no data, a row has 0 for its length and for its first byte
    let data = match C::data(&cell[..case.cell]) {
        Ok(bytes) => (bytes.len(), bytes.first().copied().unwrap_or(0)),
        Err(_) => (0, 0),
    };
    Ok(Outcome {
        answer,
        data,
        changed: (cell.iter().any(|b| *b != IN_CELL), store != before),
        words: (get(&store, 0), get(&store, 4)),
    })
}

// Runs a row by hand, and over a queue of its own.
pub(crate) fn both_ways<C: Class>(rt: &HostRuntime, case: Case) -> Result<[Outcome; 2], Fail> {
    let mut region = [0xee; 134];
    let mut over = Over {
        queue: queue(&mut region)?,
    };
    Ok([
        run::<ByHand, C>(rt.alloc(), &mut ByHand, case)?,
        run::<Over<Split<'_>>, C>(rt.alloc(), &mut over, case)?,
    ])
}
