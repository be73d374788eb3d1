// The turn: every code is negated.
ghost use Rattle.std.specs.Prelude.{◌≡◌, neg_ℤ, Result};
ghost use Rattle.carrier.specs.Meaning.{InRange, Describes, Puts, site_of};
ghost use Rattle.carrier.specs.declared.interface.Place.{Place};
ghost use Rattle.refusal.specs.declared.Refusal.{Refusal};
ghost use Rattle.std.specs.Int.{saturate_to_bits};
ghost use Rattle.layer.specs.Over.{raised};
ghost use Rattle.layer.specs.Turn.{turned_codes, turned_site, turned_sites};
ghost use Rattle.layer.specs.TurnMeaning.{turn_meaning};

use crate::{asked, height_over};
use carrier::{Carrier, CarrierMut, Place};
use refusal::Refusal;

#[derive(Drop)]
pub struct Turn<C> {
    below: C,
}

impl<C> Turn<C> {
    // Turns the codes of `below`.
    pub fn over(below: C) -> Turn<C>
        ensures { result.below ≡ below }
    {
        Turn { below }
    }
}

// The opposite of `v`; that of i32::MIN, which has none, is taken as i32::MAX.
fn opposite(v: i32) -> i32
    ensures { result ≡ saturate_to_bits 31 (neg_ℤ v) }
{
    v.saturating_neg()
}

// A place below, as the turn shows it.
fn turned(at: Place) -> Place
    ensures code { InRange at.code → result.code ≡ neg_ℤ at.code }
    ensures site { InRange at.low → InRange at.high → site_of result ≡ turned_site (site_of at) }
{
    Place {
        code: opposite(at.code),
        low: opposite(at.high),
        high: opposite(at.low),
        seat: at.seat,
    }
}

impl<C: Carrier> Carrier for Turn<C> {
    ghost Rest = { C.Carrier.Rest };

    ghost rest = { λ t. C.Carrier.rest t.below };

    ghost codes = { λ t. turned_codes (C.Carrier.codes t.below) };

    ghost sites = { λ r. turned_sites (C.Carrier.sites r) };

    ghost level = { λ r. raised (C.Carrier.level r) };

    ghost picture = { λ t. C.Carrier.picture t.below };

    ghost meaning = { turn_meaning (λ t. t.below) C.Carrier.meaning };

    #[tactic(auto, using(crate::proofs::TurnPlaces::as_many))]
    fn count(&self) -> usize {
        self.below.count()
    }

    fn height(&self) -> u8 {
        height_over(&self.below)
    }

    #[tactic(auto, using(crate::proofs::TurnPlaces::past))]
    fn get(&self, i: usize) -> Option<Place> {
        let at = self.below.get(i)?;
        Some(turned(at))
    }
}

impl<C: CarrierMut> Turn<C> {
    // Puts `w` at place `i` below, which is what the turn shows as `v`. The window's call of this name asks for other
    // facts.
    fn put_below(&mut self, i: usize, w: i32, v: i32) -> Result<(), Refusal>
        requires place { (at : Place) × Describes (⟦<Self as Carrier>⟧.sites (⟦<Self as Carrier>⟧.rest self.old)) (⟦<Self as Carrier>⟧.codes self.old) i at }
        requires value { w ≡ saturate_to_bits 31 (neg_ℤ v) }
        ensures puts { Puts (⟦<Self as Carrier>⟧.level (⟦<Self as Carrier>⟧.rest self.old)) (⟦<Self as Carrier>⟧.sites (⟦<Self as Carrier>⟧.rest self.old)) i v (⟦<Self as Carrier>⟧.codes self.old) (⟦<Self as Carrier>⟧.codes self.new) (⟦<Self as Carrier>⟧.picture self.old) (⟦<Self as Carrier>⟧.picture self.new) result }
        ensures rest { ⟦<Self as Carrier>⟧.rest self.new ≡ ⟦<Self as Carrier>⟧.rest self.old }
        ensures lent { C.CarrierMut.lent self.new.below ≡ C.CarrierMut.lent self.old.below }
    {
        self.below.put(i, w)
    }
}

impl<C: CarrierMut> CarrierMut for Turn<C> {
    ghost lent = { λ t. C.CarrierMut.lent t.below };

    fn put(&mut self, i: usize, v: i32) -> Result<(), Refusal> {
        let _at = asked(self, i)?;
        self.put_below(i, opposite(v), v)
    }
}
