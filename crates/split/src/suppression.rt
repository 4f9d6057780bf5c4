// Notification suppression: each side tells in a word of its own area at which positions it wants to be woken.
ghost use Rattle.std.specs.Prelude.{◌≡◌, ◌&&◌};
ghost use Rattle.split_ring.specs.Slots.{watch_place};
ghost use Rattle.split_ring.specs.Ring.{alive, own, come, word, with_word, rings_at, ring_ops};
ghost use Rattle.split.specs.State.{ring_of, serving};

use crate::state::Serving;
use positions::Stretch;
use queue::Side;
use split_ring::{available_event_place, device_area, driver_area, used_event_place};

pub(crate) const MODULUS: u32 = 65_536;

// A side's event, or its flags.
fn watch_place(events: bool, side: Side, capacity: u16) -> usize
    ensures by_the_rule { result ≡ watch_place events side capacity }
{
    match (events, side) {
        (true, Side::Driver) => used_event_place(capacity),
        (true, Side::Device) => available_event_place(capacity),
        (false, Side::Driver) => driver_area(capacity),
        (false, Side::Device) => device_area(capacity),
    }
}

// Whether the watch that the word tells has a position in the stretch from the mark up to `to`.
fn rings(events: bool, word: u16, mark: u32, to: u16) -> bool
    ensures by_the_rule { result ≡ rings_at events word mark to }
{
    if events {
        let stretch = Stretch {
            modulus: MODULUS,
            from: mark,
            to: u32::from(to),
        };
        stretch.holds(u32::from(word))
    } else {
        word == 0 && mark != u32::from(to)
    }
}

impl Serving<'_> {
    // How far the side itself has come.
    fn own(&self, side: Side) -> u16
        ensures own_position { result ≡ own (ring_of self.now) side }
    {
        self.ends(side.inbox()).0.position
    }

    // How far the other side has come with what this one is to see.
    fn come(&self, side: Side) -> u16
        ensures other_position { result ≡ come (ring_of self.now) side }
    {
        self.ends(side.inbox()).1.position
    }

    fn watch_word(&self, side: Side) -> u16
        ensures as_it_lies { result ≡ word (ring_of self.now) side }
    {
        let region = self.region.view();
        region.word(watch_place(self.events, side, region.capacity))
    }

    fn write_watch_word(&mut self, side: Side, word: u16)
        ensures later_queue { self.new ≡ serving self.old (with_word (ring_of self.old) side word) }
    {
        let at = watch_place(self.events, side, self.region.view().capacity);
        self.region.put_word(at, word);
    }

    pub(crate) fn arm(&mut self, side: Side)
        ensures later_queue { self.new ≡ serving self.old (ring_ops.armed (ring_of self.old) side) }
    {
        self.region.served();
        let word = if self.events { self.own(side) } else { 0 };
        self.write_watch_word(side, word);
    }

    pub(crate) fn hush(&mut self, side: Side)
        ensures later_queue { self.new ≡ serving self.old (ring_ops.hushed (ring_of self.old) side) }
    {
        self.region.served();
        if !self.events {
            self.write_watch_word(side, 1);
        }
    }

    // Whether the receiver's word asks for a wake-up for what has come since the mark.
    pub(crate) fn wants_wake_up(&self, receiver: Side, mark: u32) -> bool
        ensures by_its_word { result ≡ (alive (ring_of self.now) && rings_at self.now.events (word (ring_of self.now) receiver) mark (come (ring_of self.now) receiver)) }
    {
        self.region.served();
        let word = self.watch_word(receiver);
        rings(self.events, word, mark, self.come(receiver))
    }
}
