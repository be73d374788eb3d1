// A carrier that is lent is a carrier: a layer may lie over it, and the lender has it back afterwards.
ghost use Rattle.std.specs.Prelude.{◌∷◌};
ghost use Rattle.carrier.specs.Through.{meaning_through};

use crate::interface::{Carrier, CarrierMut, Place};
use refusal::Refusal;

impl<C: Carrier> Carrier for &mut C {
    ghost Rest = { C.Carrier.Rest };

    ghost rest = { λ c. C.Carrier.rest c.now };

    ghost codes = { λ c. C.Carrier.codes c.now };

    ghost sites = { C.Carrier.sites };

    ghost level = { C.Carrier.level };

    ghost picture = { λ c. C.Carrier.picture c.now };

    ghost meaning = { meaning_through (λ c. c.now) C.Carrier.meaning };

    fn count(&self) -> usize {
        (**self).count()
    }

    fn height(&self) -> u8 {
        (**self).height()
    }

    fn get(&self, i: usize) -> Option<Place> {
        (**self).get(i)
    }
}

impl<C: CarrierMut> CarrierMut for &mut C {
    ghost lent = { λ c. c.ghost_name ∷ C.CarrierMut.lent c.now };

    fn put(&mut self, i: usize, v: i32) -> Result<(), Refusal> {
        (**self).put(i, v)
    }
}
