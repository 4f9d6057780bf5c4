// A console store: le32 bytes kept, le32 bytes lost, then the text.
ghost use Rattle.std.specs.Prelude.{◌≡◌, ◌++◌, ◌-◌, ◌^◌, ◌<◌, ◌≤◌, min, length, take, drop, Ok, Err, Some, codes};
ghost use Rattle.std.specs.Fmt.{decimal};
ghost use Rattle.entries.specs.Refusals.{unless};
ghost use Rattle.class.specs.Refusals.{store_refusal};
ghost use Rattle.console.specs.Service.{kept_in, lost_in, append};
ghost use Rattle.console.specs.Log.{text_in, EveryByteCounted, TextGrows};

use class::check_store;
use entries::Refusal;
use std::fmt;
use words::{get, overwrite, put};

pub(crate) const LEAST_STORE: usize = 8;

const KEPT_AT: usize = 0;

const LOST_AT: usize = 4;

const TEXT_AT: usize = 8;

// Appends what fits after the kept text. The rest is lost, and counted up to the largest count there is.
pub(crate) fn append_line(line: &[u8], store: &mut [u8])
    requires short_line { length line.now ≤ 512 }
    requires no_larger_than_a_store { length store.old ≤ 2 ^ 32 }
    ensures what_fits_appended { store.new ≡ append store.old line.now }
{
    let Counts { kept, lost } = Counts::of(store);
    // a count beyond the end leaves no room
    let room = store
        .len()
        .saturating_sub(TEXT_AT)
        .saturating_sub(kept as usize);
    let fits = line.len().min(room);
    overwrite(store, TEXT_AT + kept as usize, &line[0..fits]);
    put(store, KEPT_AT, kept + fits as u32);
    put(
        store,
        LOST_AT,
        lost.saturating_add((line.len() - fits) as u32),
    );
}

// How many bytes of text a store has kept, and how many it had no room for.
#[derive(Clone, Copy, PartialEq, Eq, Debug)]
pub struct Counts {
    pub kept: u32,
    pub lost: u32,
}

impl fmt::Display for Counts {
    ghost output = { λ c. Some (codes "kept " ++ (decimal c.kept ++ (codes ", lost " ++ decimal c.lost))) };

    fn fmt<W: fmt::Write>(&self, f: &mut fmt::Formatter<W>) -> fmt::Result {
        write!(f, "kept {}, lost {}", self.kept, self.lost)
    }
}

impl Counts {
    // The two counts at the start of a store.
    fn of(store: &[u8]) -> Counts
        ensures both { result ≡ record { kept = kept_in store.now; lost = lost_in store.now } }
        ensures in_32_bits { kept_in store.now < 2 ^ 32 }
    {
        Counts {
            kept: get::<u32>(store, KEPT_AT),
            lost: get::<u32>(store, LOST_AT),
        }
    }
}

pub fn tally(store: &[u8]) -> Result<Counts, Refusal>
    ensures counts { result ≡ unless (store_refusal 8 store.now) (record { kept = kept_in store.now; lost = lost_in store.now }) }
    ensures every_byte_counted { EveryByteCounted store.now }
{
    check_store(LEAST_STORE, store)?;
    Ok(Counts::of(store))
}

// The text after the counts, as far as it is kept and as the store reaches.
fn text_within(store: &[u8], kept: usize) -> &[u8]
    requires { 8 ≤ length store.now }
    ensures kept_text { result.now ≡ take (min kept (length store.now - 8)) (drop 8 store.now) }
{
    let within = kept.min(store.len() - TEXT_AT);
    &store[TEXT_AT..TEXT_AT + within]
}

// The text that a store has kept, up to the store's end.
pub fn text(store: &[u8]) -> Result<&[u8], Refusal>
    ensures kept_text { elim result [ Ok part ↦ Ok part.now ≡ unless (store_refusal 8 store.now) (text_in store.now) | Err n ↦ Err n ≡ unless (store_refusal 8 store.now) (text_in store.now) ] }
    ensures grows_by_what_fits { TextGrows store.now }
{
    check_store(LEAST_STORE, store)?;
    let kept = Counts::of(store).kept;
    Ok(text_within(store, kept as usize))
}
