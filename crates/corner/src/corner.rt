// The corner carrier: the lower right sample of each block of 2 x 2 pixels, by its distance from a prediction that the
// block's other samples make. These are never seats, so a put leaves every prediction.
ghost use Rattle.std.specs.Prelude.{◌≡◌, ◌<◌, min, true, length, Ok, slice_index};
ghost use Rattle.carrier.specs.Meaning.{Describes, Puts, site_of, takes};
ghost use Rattle.carrier.specs.Plain.{most};
ghost use Rattle.corner.specs.Channels.{counted, channel_count};
ghost use Rattle.corner.specs.Corner.{CornerRest, corner_code, corner_site, corner_rest, corner_codes, corner_sites, corner_level};
ghost use Rattle.corner.specs.CornerMeaning.{corner_meaning};
ghost use Rattle.corner.specs.Predictor.{predicted};

use crate::predictor::predict;
use crate::{Grid, Spot};
use carrier::{Carrier, CarrierMut, Place, Sample, Samples, SamplesMut, SamplesOf, may_put, used};
use refusal::Refusal;

// The place with the seat `seat`, whose sample is `v` where `m` is predicted. In `Plain` nothing is predicted.
fn place_of(v: u16, m: u16, maximum: u16, seat: usize) -> Place
    ensures code { result.code ≡ corner_code m v }
    ensures site { site_of result ≡ corner_site maximum m seat }
{
    Place {
        code: i32::from(v) - i32::from(m),
        low: -i32::from(m),
        high: i32::from(maximum) - i32::from(m),
        seat,
    }
}

// Sample `i`, which is there.
fn known<S: Samples>(samples: &S, i: usize) -> u16
    requires { i < length (S.Samples.values samples.now) }
    ensures { result ≡ slice_index (S.Samples.values samples.now) i }
{
    samples.sample(i).unwrap()
}

// What the neighbours of a seat predict for it.
fn prediction<S: Samples>(samples: &S, spot: Spot) -> u16
    requires left { spot.left < length (S.Samples.values samples.now) }
    requires above { spot.above < length (S.Samples.values samples.now) }
    requires diagonal { spot.diagonal < length (S.Samples.values samples.now) }
    ensures { result ≡ predicted (slice_index (S.Samples.values samples.now) spot.left) (slice_index (S.Samples.values samples.now) spot.above) (slice_index (S.Samples.values samples.now) spot.diagonal) }
{
    let left = known(samples, spot.left);
    let above = known(samples, spot.above);
    let diagonal = known(samples, spot.diagonal);
    predict(left, above, diagonal)
}

// A picture that is written has a maximum of the type of its samples, `M`, so that any sample can hold it.
#[derive(Drop)]
pub struct Corner<S, M = u8> {
    samples: S,
    maximum: M,
    grid: Grid,
}

impl<S: SamplesOf<M>, M: Sample> Corner<S, M> {
    // Opens the corner carrier of a picture of this width in pixels, with a maximum of the samples' type, so that a sample
    // can be it. It can be written if the samples can (`SamplesMut<M>`). A channel count that is not 3 counts as 1, by a
    // rule of the project, so any `u8` is one.
    pub fn fitting(samples: S, maximum: M, width: u16, channels: u8) -> Corner<S, M>
        ensures samples { result.samples ≡ samples }
        ensures maximum { result.maximum ≡ maximum }
        ensures width { result.grid.width ≡ width }
        ensures channels { channel_count result.grid.channels ≡ counted channels }
    {
        Corner {
            samples,
            maximum,
            grid: Grid::new(width, channels),
        }
    }
}

impl<S: Samples, M: Sample> Corner<S, M> {
    // The same of any samples, with a maximum of any type, which may be more than a sample can be.
    pub fn over(samples: S, maximum: M, width: u16, channels: u8) -> Corner<S, M>
        ensures samples { result.samples ≡ samples }
        ensures maximum { result.maximum ≡ maximum }
        ensures width { result.grid.width ≡ width }
        ensures channels { channel_count result.grid.channels ≡ counted channels }
    {
        let grid = Grid::new(width, channels);
        Corner {
            samples,
            maximum,
            grid,
        }
    }
}

impl<'a> Corner<&'a [u8], u8> {
    // `fitting` of a picture of bytes that is only read.
    pub fn reading(samples: &'a [u8], maximum: u8, width: u16, channels: u8) -> Corner<&'a [u8], u8>
        ensures picture { result.samples.now ≡ samples.now }
        ensures maximum { result.maximum ≡ maximum }
        ensures width { result.grid.width ≡ width }
        ensures channels { channel_count result.grid.channels ≡ counted channels }
    {
        Corner::fitting(samples, maximum, width, channels)
    }
}

impl<'a> Corner<&'a mut [u8], u8> {
    // `fitting` of a picture of bytes that can be written.
    pub fn writing(
        samples: &'a mut [u8],
        maximum: u8,
        width: u16,
        channels: u8,
    ) -> Corner<&'a mut [u8], u8>
        ensures picture { result.samples.now ≡ samples.old }
        ensures lender { result.samples.ghost_name ≡ samples.entry.ghost_name }
        ensures maximum { result.maximum ≡ maximum }
        ensures width { result.grid.width ≡ width }
        ensures channels { channel_count result.grid.channels ≡ counted channels }
    {
        Self::fitting(samples, maximum, width, channels)
    }
}

impl<S: Samples, M: Sample> Corner<S, M> {
    // How many samples of the picture are used.
    fn used(&self) -> usize
        ensures { result ≡ min most (length (S.Samples.values self.now.samples)) }
    {
        used(self.samples.total())
    }
}

impl<S: Samples, M: Sample> Carrier for Corner<S, M> {
    ghost Rest = { CornerRest };

    ghost rest = { λ p. corner_rest (M.value p.maximum) p.grid.width (channel_count p.grid.channels) (S.Samples.values p.samples) };

    ghost codes = { λ p. corner_codes p.grid.width (channel_count p.grid.channels) (S.Samples.values p.samples) };

    ghost sites = { corner_sites };

    ghost level = { corner_level };

    ghost picture = { λ p. S.Samples.values p.samples };

    ghost meaning = { corner_meaning (λ p. M.value p.maximum) (λ p. p.grid.width) (λ p. channel_count p.grid.channels) (λ p. S.Samples.values p.samples) };

    #[tactic(auto, using(crate::proofs::CornerPlaces::as_many))]
    fn count(&self) -> usize {
        self.grid.count(self.used())
    }

    fn height(&self) -> u8 {
        // one number, for each bottom carrier to write
        0
    }

    #[tactic(auto, using(crate::proofs::CornerPlaces::past))]
    fn get(&self, i: usize) -> Option<Place> {
        let spot = self.grid.spot(i, self.used())?;
        let m = prediction(&self.samples, spot);
        let v = known(&self.samples, spot.seat);
        Some(place_of(v, m, self.maximum.widen(), spot.seat))
    }
}

impl<M: Sample, S: SamplesMut<M>> Corner<S, M> {
    // Makes `v`, which place `i` takes, its code. This call and `put` stand in `Plain` too, which says why.
    fn write(&mut self, i: usize, at: Place, v: i32)
        requires there { Describes (⟦<Self as Carrier>⟧.sites (⟦<Self as Carrier>⟧.rest self.old)) (⟦<Self as Carrier>⟧.codes self.old) i at }
        requires taken { takes (site_of at) v ≡ true }
        ensures puts { Puts 0 (⟦<Self as Carrier>⟧.sites (⟦<Self as Carrier>⟧.rest self.old)) i v (⟦<Self as Carrier>⟧.codes self.old) (⟦<Self as Carrier>⟧.codes self.new) (⟦<Self as Carrier>⟧.picture self.old) (⟦<Self as Carrier>⟧.picture self.new) (Ok result) }
        ensures rest { ⟦<Self as Carrier>⟧.rest self.new ≡ ⟦<Self as Carrier>⟧.rest self.old }
        ensures lent { S.SamplesMut.lent self.new.samples ≡ S.SamplesMut.lent self.old.samples }
    {
        // the maximum is no more than a sample can hold
        let _ = self.maximum.widen();
        let _ = self.samples.store(at.seat, v - at.low);
    }
}

impl<M: Sample, S: SamplesMut<M>> CarrierMut for Corner<S, M> {
    ghost lent = { λ p. S.SamplesMut.lent p.samples };

    fn put(&mut self, i: usize, v: i32) -> Result<(), Refusal> {
        let at = may_put(self, i, v)?;
        self.write(i, at, v);
        Ok(())
    }
}
