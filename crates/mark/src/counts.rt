// How much a mark finds on a carrier.
ghost use Rattle.std.specs.Prelude.{◌≡◌};
ghost use Rattle.mark.specs.Rows.{slots, map_bits_of};

use crate::{Pair, Seen};
use carrier::{Carrier, Pass};

// What a mark with a pair would find on a carrier.
#[derive(Clone, Copy, PartialEq, Eq, Debug)]
pub struct Counts {
    pub slots: usize,
    pub map_bits: usize,
}

impl Pair {
    // Slots and map bits of a mark with this pair on a carrier, by one pass over its places.
    pub fn counts_on<C: Carrier>(self, c: &C) -> Counts
        ensures slots { result.slots ≡ slots self.peak self.zero (C.sites (C.rest c.now)) (C.codes c.now) }
        ensures map_bits { result.map_bits ≡ map_bits_of self.peak self.zero (C.sites (C.rest c.now)) (C.codes c.now) }
    {
        let mut slots = 0;
        let mut mapped = 0;
        // apart from `mapped`, and no `Option`: whether there is a map may be known only at the last place
        let mut flag = false;
        for at in c.places() {
            let seen = Seen { pair: self, at };
            slots += usize::from(seen.is_slot());
            mapped += usize::from(seen.is_mapped());
            flag |= seen.is_at_top();
        }
        Counts {
            slots,
            map_bits: if flag { mapped } else { 0 },
        }
    }
}
