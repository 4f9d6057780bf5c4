// Progress lines on a console.
ghost use Rattle.std.specs.Prelude.{◌≡◌, IfOk};
ghost use Rattle.console.specs.Service.{kept_in, lost_in};

use crate::steps::step;
use crate::stop::Result;
use class::{Request, Way};
use console::{Console, Counts, tally, text};
use std::str::from_utf8;

const CONSOLE_TAG: u16 = 1;

// Sends progress lines until one no longer fits, and gives what the console has counted then.
pub fn report<W: Way>(
    rt: &HostRuntime,
    way: &mut W,
    cell: &mut [u8],
    log: &mut [u8],
) -> Result<Counts>
    ensures counts_of_the_log { IfOk result (λ counts. counts ≡ record { kept = kept_in log.new; lost = lost_in log.new }) }
{
    for i in b'1'..=b'9' {
        // a line of fixed size, with its digit put in: nothing is formatted on a heap
        let mut line = *b"net 0 routed\n";
        line[4] = i;
        let request = Request {
            code: 0,
            place: 0,
            payload: &line,
        };
        step::<W, Console>(rt, way, "progress", CONSOLE_TAG, request, cell, log)?;
        let counts = tally(log)?;
        println!(rt; "{counts}")?;
        if counts.lost > 0 {
            break;
        }
    }
    let shown = from_utf8(text(log)?)?;
    println!(rt; "the console's text:\n{shown}")?;
    Ok(tally(log)?)
}
