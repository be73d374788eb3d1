// The plain carrier: place i is sample i.
ghost use Rattle.std.specs.Prelude.{◌≡◌, min, true, pos, Ok};
ghost use Rattle.carrier.specs.Meaning.{Describes, Puts, site_of, takes};
ghost use Rattle.carrier.specs.Plain.{most, PlainRest, plain_site, plain_rest, plain_codes, plain_sites, plain_level};
ghost use Rattle.carrier.specs.PlainMeaning.{plain_meaning};

use crate::interface::{Carrier, CarrierMut, Place, may_put};
use crate::samples::{Sample, Samples, SamplesMut, SamplesOf};
use refusal::Refusal;

// The most samples that a carrier uses.
const MOST: usize = 67_108_864;

// `total` samples, or as many of them as a carrier uses.
pub fn used(total: usize) -> usize
    ensures { result ≡ min most total }
{
    total.min(MOST)
}

// The place of sample `i`, whose value is `v`. Not the corner carrier's `place_of` with a prediction of 0: nothing is
// predicted here.
fn place_of(v: u16, maximum: u16, i: usize) -> Place
    ensures code { result.code ≡ pos v }
    ensures site { site_of result ≡ plain_site maximum i }
{
    Place {
        code: i32::from(v),
        low: 0,
        high: i32::from(maximum),
        seat: i,
    }
}

// A picture that is written has a maximum of the type of its samples, `M`, so that any sample can hold it.
#[derive(Drop)]
pub struct Plain<S, M = u8> {
    samples: S,
    maximum: M,
}

impl<S: SamplesOf<M>, M: Sample> Plain<S, M> {
    // Opens the plain carrier of a picture, with a maximum of the samples' type, so that a sample can be it. It can be
    // written if the samples can (`SamplesMut<M>`). Codes above the maximum are read as they are.
    pub fn fitting(samples: S, maximum: M) -> Plain<S, M>
        ensures samples { result.samples ≡ samples }
        ensures maximum { result.maximum ≡ maximum }
    {
        Plain { samples, maximum }
    }
}

impl<S: Samples, M: Sample> Plain<S, M> {
    // The same of any samples, with a maximum of any type, which may be more than a sample can be.
    pub fn over(samples: S, maximum: M) -> Plain<S, M>
        ensures samples { result.samples ≡ samples }
        ensures maximum { result.maximum ≡ maximum }
    {
        Self { samples, maximum }
    }
}

impl<'a> Plain<&'a [u8]> {
    // `fitting` of a picture of bytes that is only read.
    pub fn reading(samples: &'a [u8], maximum: u8) -> Plain<&'a [u8]>
        ensures picture { result.samples.now ≡ samples.now }
        ensures maximum { result.maximum ≡ maximum }
    {
        Plain::fitting(samples, maximum)
    }
}

impl<'a> Plain<&'a mut [u8], u8> {
    // `fitting` of a picture of bytes that can be written.
    pub fn writing(samples: &'a mut [u8], maximum: u8) -> Plain<&'a mut [u8], u8>
        ensures picture { result.samples.now ≡ samples.old }
        ensures lender { result.samples.ghost_name ≡ samples.entry.ghost_name }
        ensures maximum { result.maximum ≡ maximum }
    {
        Self::fitting(samples, maximum)
    }
}

impl<S: Samples, M: Sample> Carrier for Plain<S, M> {
    ghost Rest = { PlainRest };

    ghost rest = { λ p. plain_rest (M.value p.maximum) (S.Samples.values p.samples) };

    ghost codes = { λ p. plain_codes (S.Samples.values p.samples) };

    ghost sites = { plain_sites };

    ghost level = { plain_level };

    ghost picture = { λ p. S.Samples.values p.samples };

    ghost meaning = { plain_meaning (λ p. M.value p.maximum) (λ p. S.Samples.values p.samples) };

    #[tactic(auto, using(crate::proofs::PlainPlaces::as_many))]
    fn count(&self) -> usize {
        used(self.samples.total())
    }

    fn height(&self) -> u8 {
        // one number, for each bottom carrier to write
        0
    }

    #[tactic(auto, using(crate::proofs::PlainPlaces::past_limit, crate::proofs::PlainPlaces::past_end))]
    fn get(&self, i: usize) -> Option<Place> {
        if i >= MOST {
            return None;
        }
        let v = self.samples.sample(i)?;
        Some(place_of(v, self.maximum.widen(), i))
    }
}

impl<M: Sample, S: SamplesMut<M>> Plain<S, M> {
    // Makes `v`, which place `i` takes, its code. Each bottom carrier has this call of its own: shared, it would be one
    // that other crates see, and such a call may not have a `requires`. So each has its `put` too, which calls it.
    fn write(&mut self, i: usize, at: Place, v: i32)
        requires there { Describes (⟦<Self as Carrier>⟧.sites (⟦<Self as Carrier>⟧.rest self.old)) (⟦<Self as Carrier>⟧.codes self.old) i at }
        requires taken { takes (site_of at) v ≡ true }
        ensures puts { Puts 0 (⟦<Self as Carrier>⟧.sites (⟦<Self as Carrier>⟧.rest self.old)) i v (⟦<Self as Carrier>⟧.codes self.old) (⟦<Self as Carrier>⟧.codes self.new) (⟦<Self as Carrier>⟧.picture self.old) (⟦<Self as Carrier>⟧.picture self.new) (Ok result) }
        ensures rest { ⟦<Self as Carrier>⟧.rest self.new ≡ ⟦<Self as Carrier>⟧.rest self.old }
        ensures lent { S.SamplesMut.lent self.new.samples ≡ S.SamplesMut.lent self.old.samples }
    {
        // the maximum is no more than a sample can hold
        let _ = self.maximum.widen();
        let _ = self.samples.store(at.seat, v - at.low);
    }
}

impl<M: Sample, S: SamplesMut<M>> CarrierMut for Plain<S, M> {
    ghost lent = { λ p. S.SamplesMut.lent p.samples };

    fn put(&mut self, i: usize, v: i32) -> Result<(), Refusal> {
        let at = may_put(self, i, v)?;
        self.write(i, at, v);
        Ok(())
    }
}
