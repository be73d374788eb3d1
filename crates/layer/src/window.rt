// The window: some places in a row of those below.
ghost use Rattle.std.specs.Prelude.{◌≡◌, ◌+◌, ◌-◌, ◌^◌, ◌<◌, ◌≤◌, min, MatchOption, length};
ghost use Rattle.carrier.specs.Meaning.{Puts};
ghost use Rattle.layer.specs.Window.{WindowRest, windowed, window_rest, window_sites, window_level};
ghost use Rattle.layer.specs.WindowMeaning.{window_meaning};

use crate::{asked, height_over};
use carrier::{Carrier, CarrierMut, Place};
use refusal::Refusal;

#[derive(Drop)]
pub struct Window<C> {
    below: C,
    start: usize,
    shown: usize,
}

impl<C> Window<C> {
    // Shows `shown` places of `below` from place `start` on, or as many as there are.
    pub fn over(below: C, start: usize, shown: usize) -> Window<C>
        ensures below { result.below ≡ below }
        ensures start { result.start ≡ start }
        ensures shown { result.shown ≡ shown }
    {
        Window {
            below,
            start,
            shown,
        }
    }

    // The number below of place `i`, if `i` is less than `shown`. A sum past the largest number is taken as that, at
    // which no carrier has a place.
    fn number_below(&self, i: usize) -> Option<usize>
        ensures { MatchOption result (self.now.shown ≤ i) (λ k. (i < self.now.shown) × (k ≡ min (self.now.start + i) (2 ^ 64 - 1))) }
    {
        (i < self.shown).then(|| self.start.saturating_add(i))
    }
}

impl<C: Carrier> Carrier for Window<C> {
    ghost Rest = { WindowRest C.Carrier.Rest };

    ghost rest = { λ t. window_rest C.Carrier.sites (C.Carrier.rest t.below) t.start t.shown (C.Carrier.codes t.below) (C.Carrier.picture t.below) };

    ghost codes = { λ t. windowed t.start t.shown (C.Carrier.codes t.below) };

    ghost sites = { window_sites C.Carrier.sites };

    ghost level = { window_level C.Carrier.level };

    ghost picture = { λ t. C.Carrier.picture t.below };

    ghost meaning = { window_meaning (λ t. t.below) (λ t. t.start) (λ t. t.shown) C.Carrier.meaning };

    #[tactic(auto, using(crate::proofs::WindowPlaces::as_many))]
    fn count(&self) -> usize {
        self.below
            .count()
            .saturating_sub(self.start)
            .min(self.shown)
    }

    fn height(&self) -> u8 {
        height_over(&self.below)
    }

    #[tactic(auto, using(crate::proofs::WindowPlaces::unshown))]
    fn get(&self, i: usize) -> Option<Place> {
        let k = self.number_below(i)?;
        self.below.get(k)
    }
}

impl<C: CarrierMut> Window<C> {
    // Puts `v` at place `k` below, which is place `i` of the window. The turn's call of this name asks for other facts.
    fn put_below(&mut self, i: usize, k: usize, v: i32) -> Result<(), Refusal>
        requires place { i < length (⟦<Self as Carrier>⟧.codes self.old) }
        requires number { k ≡ min (self.old.start + i) (2 ^ 64 - 1) }
        ensures puts { Puts (⟦<Self as Carrier>⟧.level (⟦<Self as Carrier>⟧.rest self.old)) (⟦<Self as Carrier>⟧.sites (⟦<Self as Carrier>⟧.rest self.old)) i v (⟦<Self as Carrier>⟧.codes self.old) (⟦<Self as Carrier>⟧.codes self.new) (⟦<Self as Carrier>⟧.picture self.old) (⟦<Self as Carrier>⟧.picture self.new) result }
        ensures rest { ⟦<Self as Carrier>⟧.rest self.new ≡ ⟦<Self as Carrier>⟧.rest self.old }
        ensures lent { C.CarrierMut.lent self.new.below ≡ C.CarrierMut.lent self.old.below }
    {
        self.below.put(k, v)
    }
}

impl<C: CarrierMut> CarrierMut for Window<C> {
    ghost lent = { λ t. C.CarrierMut.lent t.below };

    #[tactic(auto, using(crate::proofs::WindowPlaces::unshown))]
    fn put(&mut self, i: usize, v: i32) -> Result<(), Refusal> {
        let _at = asked(self, i)?;
        let k = self.number_below(i).unwrap();
        self.put_below(i, k, v)
    }
}
