// The survey: which pair of values suits a mark on a carrier best.
#![tactic(auto)]

ghost use Rattle.std.specs.Prelude.{◌≡◌, Some, Bool, ℕ, suc, ◌+◌, ◌<◌, length, drop, nat_lt, if◌then◌else◌, slice_index};
ghost use Rattle.std.specs.Cmp.{IsStrictWeakOrder};
ghost use Rattle.carrier.specs.Meaning.{InRange};
ghost use Rattle.mark.specs.Places.{same};
ghost use Rattle.tally.specs.Choice.{peak_at, zero_at, peak_of, zero_of, surveyed, IsPeak, IsZero};
ghost use Rattle.tally.specs.Tally.{AnswersAs, first_best, tally, tallied};
ghost use Rattle.tally.specs.Text.{surveyed_text};

use carrier::{Carrier, Pass};
use mark::{Counts, Pair};
use std::fmt;

// The survey looks at the codes from -REACH to REACH.
const REACH: i32 = 255;

// How many these are.
const CODES: usize = 511;

// The pair that the survey chooses, and what a mark with it would find.
#[derive(Clone, Copy, PartialEq, Eq, Debug)]
pub struct Surveyed {
    pub pair: Pair,
    pub counts: Counts,
}

impl fmt::Display for Surveyed {
    ghost output = { λ s. Some (surveyed_text s) };

    fn fmt<W: fmt::Write>(&self, f: &mut fmt::Formatter<W>) -> fmt::Result {
        let Pair { peak, zero } = self.pair;
        let Counts { slots, map_bits } = self.counts;
        write!(f, "peak {peak} zero {zero} slots {slots} map {map_bits}")
    }
}

// Where the first of the best counts stands; 0 in an empty row. `better(x, y)` says that x is better than y.
fn first_best<B: Fn(u32, u32) -> bool>(counts: &[u32], better: B) -> usize
    requires { B.IsAlwaysCallable better }
    ensures value { (o : ℕ → ℕ → Bool) → IsStrictWeakOrder o → AnswersAs (B.post better) o → result ≡ first_best o counts.now }
    ensures within { 0 < length counts.now → result < length counts.now }
{
    let mut best = 0;
    for (i, &count) in counts.iter().enumerate() {
        if better(count, counts[best]) {
            best = i;
        }
    }
    best
}

// How often each code from -REACH to REACH occurs, the smallest code first.
#[derive(Drop)]
struct Tally {
    counts: [u32; CODES],
}

impl Tally {
    // The tally of a carrier: one pass over its codes.
    fn of<C: Carrier>(c: &C) -> Tally
        ensures { result.counts ≡ tally 255 (C.sites (C.rest c.now)) (C.codes c.now) }
    {
        let mut found = Tally { counts: [0; CODES] };
        for at in c.places() {
            found.add(at.code);
        }
        found
    }

    // Counts one code more, if it lies from -REACH to REACH.
    fn add(&mut self, code: i32)
        requires range { InRange code }
        requires room { (k : ℕ) → slice_index self.old.counts k < 67108864 }
        ensures length { length self.new.counts ≡ 511 }
        ensures counts { (k : ℕ) → k < 511 → slice_index self.new.counts k ≡ slice_index self.old.counts k + (if same code (tallied 255 k) then 1 else 0) }
    {
        if let Ok(at) = usize::try_from(code + REACH)
            && at < CODES
        {
            // An index, since after a write through `get_mut` a proof knows the length alone.
            self.counts[at] += 1;
        }
    }

    // Where the peak stands: the first greatest count of all but the last code.
    #[tactic(auto, using(crate::proofs::Best::greater))]
    fn peak_at(&self) -> usize
        ensures value { result ≡ peak_at 255 self.now.counts }
        ensures within { result < 510 }
    {
        first_best(&self.counts[..CODES - 1], |x, y| x > y)
    }

    // Where the first least count after the peak stands.
    #[tactic(auto, using(crate::proofs::Best::less))]
    fn zero_after(&self, peak: usize) -> usize
        requires { peak < 510 }
        ensures value { result ≡ suc peak + first_best (λ x y. nat_lt x y) (drop (suc peak) self.now.counts) }
        ensures within { result < 511 }
    {
        let above = peak + 1;
        above + first_best(&self.counts[above..], |x, y| x < y)
    }

    // The pair that the tally tells.
    fn pair(&self) -> Pair
        ensures peak { result.peak ≡ tallied 255 (peak_at 255 self.now.counts) }
        ensures zero { result.zero ≡ tallied 255 (zero_at 255 self.now.counts) }
    {
        let peak = self.peak_at();
        let zero = self.zero_after(peak);
        // `as` is proved to lose nothing here; `try_from` would bring an error that never comes
        Pair {
            peak: peak as i32 - REACH,
            zero: zero as i32 - REACH,
        }
    }
}

// The pair for a carrier.
fn pair_for<C: Carrier>(c: &C) -> Pair
    ensures peak { result.peak ≡ peak_of 255 (C.sites (C.rest c.now)) (C.codes c.now) }
    ensures zero { result.zero ≡ zero_of 255 (C.sites (C.rest c.now)) (C.codes c.now) }
    ensures is_peak { IsPeak 255 (C.sites (C.rest c.now)) (C.codes c.now) result.peak }
    ensures is_zero { IsZero 255 (C.sites (C.rest c.now)) (C.codes c.now) result.peak result.zero }
{
    Tally::of(c).pair()
}

// The most frequent code up to 254 and the least frequent code above it, up to 255; of equals the smaller is taken.
// With them, slots and map bits of a mark with this pair.
pub fn survey<C: Carrier>(c: &C) -> Surveyed
    ensures value { result ≡ surveyed 255 (C.sites (C.rest c.now)) (C.codes c.now) }
    ensures peak { IsPeak 255 (C.sites (C.rest c.now)) (C.codes c.now) result.pair.peak }
    ensures zero { IsZero 255 (C.sites (C.rest c.now)) (C.codes c.now) result.pair.peak result.pair.zero }
{
    let pair = pair_for(c);
    Surveyed {
        pair,
        counts: pair.counts_on(c),
    }
}

#[cfg(test)]
mod tests;
