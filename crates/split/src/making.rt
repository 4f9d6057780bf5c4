// Making a queue from a region and a bring-up that settled on the split layout.
ghost use Rattle.std.specs.Prelude.{◌≡◌};
ghost use Rattle.split.specs.Making.{split_map, for_split, laid_out, started, made, made_meaning};
ghost use Rattle.split.specs.State.{lent_to, split_sound, split_ops};

use crate::lent::Lent;
use crate::state::{MOST, Serving, Split, State};
use bringup::{DriverOk, Layout, Sized, is_split_size};
use regions::{Map, prepare};
use split_ring::{Chain, Cursor, device_area, driver_area, region_size};

fn map(ready: DriverOk) -> Map
    ensures by_the_rule { result ≡ split_map ready.mode ready.capacity }
{
    let DriverOk { mode, capacity } = ready;
    Map {
        mode: mode.number(),
        capacity,
        driver_at: driver_area(capacity) as u32,
        device_at: device_area(capacity) as u32,
        total: region_size(capacity) as u32,
    }
}

fn is_for_split(ready: DriverOk) -> bool
    ensures by_the_rule { result ≡ for_split ready.mode ready.capacity }
{
    ready.mode.layout == Layout::Split && is_split_size(ready.capacity)
}

// What does not serve the capacity is not touched, and handed back.
#[tactic(auto, using(crate::proofs::Starting::suiting_bytes))]
fn lay_out<'a>(bytes: &'a mut [u8], ready: DriverOk) -> Result<Lent<'a>, &'a mut [u8]>
    ensures exactly_where_all_suits { result ≡ laid_out bytes.entry ready.mode ready.capacity }
{
    if is_for_split(ready) && prepare(bytes, map(ready)) {
        Lent::new(bytes, ready.capacity)
    } else {
        Err(bytes)
    }
}

impl<'a> Serving<'a> {
    fn start(region: Lent<'a>, events: bool) -> Serving<'a>
        ensures nothing_in_it { result ≡ started region.entry events }
    {
        Serving {
            region,
            events,
            published: Cursor::START,
            taken: Cursor::START,
            finished: Cursor::START,
            collected: Cursor::START,
            chains: [Chain::NONE; MOST],
        }
    }
}

// Apart from `make`, so that its laws are told of one value that is named: in one function their proofs didn't close.
fn start<'a>(bytes: &'a mut [u8], sized: Sized) -> Split<'a>
    ensures as_made { result ≡ made bytes.entry sized }
{
    let ready = sized.spend();
    let state = match lay_out(bytes, ready) {
        Ok(region) => State::Live(Serving::start(region, ready.mode.events)),
        Err(bytes) => State::Idle(bytes),
    };
    Split { state }
}

impl<'a> Split<'a> {
    // A region that is too short, or a bring-up for another layout, leaves the region and gives a queue of capacity 0.
    #[tactic(auto, using(crate::proofs::Starting::made_keeps, crate::proofs::Starting::made_starts))]
    pub fn make(region: &'a mut [u8], sized: Sized) -> Split<'a>
        ensures as_made { result ≡ made region.entry sized }
        ensures keeps_its_meaning { split_sound result }
        ensures starts_empty { split_ops.means result ≡ made_meaning region.old sized }
    {
        start(region, sized)
    }

    // The region as it stands, for whoever wants to look at it.
    pub fn region(&self) -> &[u8]
        ensures as_it_stands { result.now ≡ (lent_to self.now).now }
    {
        match &self.state {
            State::Live(serving) => serving.region.view().bytes,
            State::Idle(bytes) => &**bytes,
        }
    }

    // Ends the queue and gives the region back.
    pub fn release(self) -> &'a mut [u8]
        ensures the_region { result ≡ lent_to self.entry }
    {
        let state = self.state;
        match state {
            State::Live(serving) => {
                let region = serving.region;
                region.into_bytes()
            }
            State::Idle(bytes) => bytes,
        }
    }
}
