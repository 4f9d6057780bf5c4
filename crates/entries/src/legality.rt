// The one test of an entry, for all who ask it, and the comparison of two entries.
ghost use Rattle.std.specs.Prelude.{◌≡◌, Decides};
ghost use Rattle.entries.specs.Legality.{used, unused, follows, legal_tag, legal_chain, legal, Legal};
ghost use Rattle.entries.specs.Sameness.{same, Same};

use crate::shapes::{Entry, LAST_TAG, Segment};

impl Segment {
    fn is_used(&self) -> bool
        ensures some_length { result ≡ used self.now }
    {
        self.length > 0
    }

    fn is_unused(&self) -> bool
        ensures nothing_in_it { result ≡ unused self.now }
    {
        *self == Segment::UNUSED
    }

    // Read-only segments come first: after a writable one only writable ones may come.
    fn may_follow(&self, before: &Segment) -> bool
        ensures read_only_first { result ≡ follows before.now self.now }
    {
        !before.writable || self.writable
    }
}

impl Entry {
    fn has_legal_tag(&self) -> bool
        ensures tag_has_a_cell { result ≡ legal_tag self.now }
    {
        self.tag <= LAST_TAG
    }

    // The three places one by one: a loop over as many as the count says is no plainer.
    fn has_legal_chain(&self) -> bool
        ensures legal_by_its_count { result ≡ legal_chain self.now }
    {
        let [a, b, c] = self.segments;
        match self.count {
            1 => a.is_used() && b.is_unused() && c.is_unused(),
            2 => a.is_used() && b.is_used() && b.may_follow(&a) && c.is_unused(),
            3 => a.is_used() && b.is_used() && c.is_used() && b.may_follow(&a) && c.may_follow(&b),
            _ => false,
        }
    }

    pub fn is_legal(&self) -> bool
        ensures by_the_rule { result ≡ legal self.now }
        ensures exactly_when_legal { Decides result (Legal self.now) }
    {
        self.has_legal_tag() && self.has_legal_chain()
    }

    // Place by place: the derived comparison of three segments is a loop, and takes more than three times as long.
    pub fn is_same(&self, other: &Entry) -> bool
        ensures by_the_rule { result ≡ same self.now other.now }
        ensures exactly_when_equal { Decides result (Same self.now other.now) }
    {
        let [a, b, c] = self.segments;
        let [x, y, z] = other.segments;
        self.tag == other.tag && self.count == other.count && a == x && b == y && c == z
    }
}
