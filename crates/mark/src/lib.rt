// Marks on any carrier: the pair of a mark, and what a mark with it makes of one place.
#![tactic(auto)]

ghost use Rattle.std.specs.Prelude.{◌≡◌, pos, ◌≤ℤ◌};
ghost use Rattle.carrier.specs.Meaning.{site_of, InRange};
ghost use Rattle.mark.specs.Places.{top_of, flat_of, is_active, is_slot, is_at_top, is_mapped};

use carrier::Place;

mod counts;

pub use counts::Counts;

// The two values between which a mark shifts the histogram: codes equal to `peak` carry the bits, and the codes up to
// `zero` make room.
#[derive(Clone, Copy, PartialEq, Eq, Debug)]
pub struct Pair {
    pub peak: i32,
    pub zero: i32,
}

// A place of a carrier, as a mark with the pair finds it.
#[derive(Clone, Copy)]
struct Seen {
    pair: Pair,
    at: Place,
    ghost in_range: { InRange at.code },
}

impl Seen {
    fn top(self) -> i32
        ensures { result ≡ top_of self.pair.zero (site_of self.at) }
    {
        self.pair.zero.min(self.at.high)
    }

    fn is_active(self) -> bool
        ensures { result ≡ is_active self.pair.peak self.pair.zero (site_of self.at) self.at.code }
    {
        // `&` has no branch, so there is one way through this.
        (self.at.low <= self.pair.peak)
            & (self.pair.peak < self.at.high)
            & (self.pair.peak <= self.at.code)
            & (self.at.code <= self.top())
    }

    fn flat(self) -> i32
        ensures value { result ≡ flat_of self.pair.zero (site_of self.at) self.at.code }
        ensures high { result ≤ℤ pos 65535 }
    {
        if self.at.code == self.top() {
            self.at.code - 1
        } else {
            self.at.code
        }
    }

    // Whether the place carries a payload bit.
    fn is_slot(self) -> bool
        ensures { result ≡ is_slot self.pair.peak self.pair.zero (site_of self.at) self.at.code }
    {
        self.is_active() & (self.flat() == self.pair.peak)
    }

    // Whether the map, if there is one, has a bit for the place.
    #[tactic(auto, using(crate::proofs::Bits::next_same))]
    fn is_mapped(self) -> bool
        ensures { result ≡ is_mapped self.pair.peak self.pair.zero (site_of self.at) self.at.code }
    {
        self.is_active() & (self.flat() + 1 == self.top())
    }

    // Whether the place is active and at its top.
    fn is_at_top(self) -> bool
        ensures { result ≡ is_at_top self.pair.peak self.pair.zero (site_of self.at) self.at.code }
    {
        self.is_active() & (self.at.code == self.top())
    }
}

#[cfg(test)]
mod tests;
