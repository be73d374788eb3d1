// What can be asked of a carrier.
ghost use Rattle.std.specs.Prelude.{◌≡◌, ℕ, ◌-◌, true, List, length, ℤ, is_ok, IfOk, if◌then◌else◌, slice_set};
ghost use Rattle.std.specs.Iterator.{at_most};
ghost use Rattle.carrier.specs.Meaning.{Site, Meaning, Describes, GivesPlace, Looked, Placed, Puts, site_of, takes, accepting, put_answer, put_codes};
ghost use Rattle.refusal.specs.Answers.{answer};

use refusal::Refusal;
use std::ops::Range;

// What a carrier answers for one place: its code, the least and the greatest value that may be put there, and its seat,
// the number of the sample that it stands for.
#[derive(Clone, Copy, PartialEq, Eq, Debug)]
pub struct Place {
    pub code: i32,
    pub low: i32,
    pub high: i32,
    pub seat: usize,
}

impl Place {
    // Whether `v` may be put here: it is from low to high.
    pub fn takes(self, v: i32) -> bool
        ensures { result ≡ takes (site_of self) v }
    {
        (self.low <= v) & (v <= self.high)
    }
}

// A picture seen as a row of places, each of which stands for one sample, its seat. There are at most 2^26.
pub trait Carrier {
    // All that a carrier has but its codes: lows, highs, seats, height, the samples that are no seats, perhaps more.
    ghost Rest: { Type 0 };

    ghost rest: { Self → Rest };

    // The code of each place, in the order of places.
    ghost codes: { Self → List ℤ };

    // Low, high and seat of each place. Clauses name sites and codes side by side, and no row of both: a put leaves the
    // rest, and with it the sites, and changes codes.
    ghost sites: { Rest → List Site };

    // The height.
    ghost level: { Rest → ℕ };

    // The samples.
    ghost picture: { Self → List ℕ };

    // The laws that an implementation shows.
    ghost meaning: { Meaning rest codes sites picture };

    // The number of places.
    fn count(&self) -> usize
        ensures { result ≡ length (codes self.now) };

    // How many layers lie over the bottom carrier; it stops at 255.
    fn height(&self) -> u8
        ensures { result ≡ level (rest self.now) };

    // Code, low, high and seat of place `i`, if there is one.
    fn get(&self, i: usize) -> Option<Place>
        ensures { Looked (sites (rest self.now)) (codes self.now) i result };

    // The same; refused with 12 where there is none.
    fn place(&self, i: usize) -> Result<Place, Refusal>
        ensures { Placed (sites (rest self.now)) (codes self.now) (level (rest self.now)) i result }
    {
        self.get(i).ok_or_else(|| Refusal::NoSuchPlace {
            height: self.height(),
            place: i,
        })
    }
}

// The pass over a carrier. Every sized carrier has it, and none writes it: as a method of `Carrier` it would be proved anew
// for each carrier, which today's toolchain can't where one holds a function pointer or a boxed closure.
pub trait Pass: Carrier + Sized {
    // All places, in their order.
    fn places(&self) -> Places<'_, Self>
        ensures carrier { result.carrier.now ≡ self.now }
        ensures first { result.numbers.start ≡ 0 };
}

impl<C: Carrier> Pass for C {
    fn places(&self) -> Places<'_, C> {
        Places {
            carrier: self,
            numbers: 0..self.count(),
        }
    }
}

// The places of a carrier, one after another.
#[derive(Drop)]
pub struct Places<'a, C: Carrier> {
    carrier: &'a C,
    numbers: Range<usize>,
    ghost counted: { numbers.end ≡ length (C.codes carrier.now) },
}

impl<'a, C: Carrier> Iterator for Places<'a, C> {
    type Item = Place;

    ghost next_gives = { λ s r t. (t.carrier ≡ s.carrier) × GivesPlace (C.sites (C.rest s.carrier.now)) (C.codes s.carrier.now) s.numbers.start t.numbers.start r };

    ghost remaining = { λ s. at_most (length (C.codes s.carrier.now) - s.numbers.start) };

    fn next(&mut self) -> Option<Place> {
        let i = self.numbers.next()?;
        Some(self.carrier.get(i).unwrap())
    }
}

// A carrier whose codes can be changed.
pub trait CarrierMut: Carrier {
    // The memory that it borrows, by the ghost names of the references that it holds. Whoever lent a slice learns from
    // these names what it holds once the carrier is gone.
    ghost lent: { Self → List ℕ };

    // Makes `v` the code of place `i`, where `v` is from low to high. The sample at its seat moves as far as the code
    // does; no other sample, no other code and nothing of the rest changes. Refused with 12 where there is no such
    // place, and with 13 where `v` is not from low to high; then nothing changes.
    fn put(&mut self, i: usize, v: i32) -> Result<(), Refusal>
        ensures puts { Puts (Self.Carrier.level (Self.Carrier.rest self.old)) (Self.Carrier.sites (Self.Carrier.rest self.old)) i v (Self.Carrier.codes self.old) (Self.Carrier.codes self.new) (Self.Carrier.picture self.old) (Self.Carrier.picture self.new) result }
        ensures rest { Self.Carrier.rest self.new ≡ Self.Carrier.rest self.old }
        ensures lent { lent self.new ≡ lent self.old };
}

// The questions of a put of `v` at place `i`, for a bottom carrier: place `i` if it takes `v`, and else the refusal.
pub fn may_put<C: Carrier>(c: &C, i: usize, v: i32) -> Result<Place, Refusal>
    ensures says { accepting (answer result) ≡ put_answer (C.level (C.rest c.now)) (C.sites (C.rest c.now)) (C.codes c.now) i v }
    ensures codes { put_codes (C.sites (C.rest c.now)) (C.codes c.now) i v ≡ (if is_ok result then slice_set (C.codes c.now) i v else C.codes c.now) }
    ensures there { IfOk result (λ at. Describes (C.sites (C.rest c.now)) (C.codes c.now) i at × (takes (site_of at) v ≡ true)) }
{
    let at = c.place(i)?;
    if !at.takes(v) {
        return Err(Refusal::ValueOutOfBounds {
            height: 0,
            seat: at.seat,
        });
    }
    Ok(at)
}
