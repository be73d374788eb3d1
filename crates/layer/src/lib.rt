// Layers: carriers that hold one carrier below. This file has what every layer does.
#![tactic(auto)]

ghost use Rattle.std.specs.Prelude.{◌≡◌, ℤ, Err, MatchResult};
ghost use Rattle.carrier.specs.Meaning.{Describes, Puts};
ghost use Rattle.layer.specs.Over.{raised};

use carrier::{Carrier, Place};
use refusal::Refusal;

mod turn;
mod window;

pub use turn::Turn;
pub use window::Window;

// One more than the height of the carrier below; it stops at 255.
fn height_over<C: Carrier>(below: &C) -> u8
    ensures { result ≡ raised (C.level (C.rest below.now)) }
{
    below.height().saturating_add(1)
}

// The first question of a put at place `i`: there is such a place. Else its refusal is the answer, and nothing changes.
fn asked<C: Carrier>(layer: &C, i: usize) -> Result<Place, Refusal>
    ensures { MatchResult result (Describes (C.sites (C.rest layer.now)) (C.codes layer.now) i) (λ e. (v : ℤ) → Puts (C.level (C.rest layer.now)) (C.sites (C.rest layer.now)) i v (C.codes layer.now) (C.codes layer.now) (C.picture layer.now) (C.picture layer.now) (Err e)) }
{
    layer.place(i)
}
