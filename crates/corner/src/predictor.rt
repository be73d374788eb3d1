// The median edge predictor.
ghost use Rattle.std.specs.Prelude.{◌≡◌, pos, ◌+ℤ◌, ◌-ℤ◌};
ghost use Rattle.corner.specs.Predictor.{predicted, IsMedian};

// `left + above - diagonal`, held between `left` and `above`.
fn edge(left: u16, above: u16, diagonal: u16) -> u16
    ensures { result ≡ predicted left above diagonal }
{
    let least = left.min(above);
    let most = left.max(above);
    least + (most - diagonal.max(least).min(most))
}

// What a sample would be if it followed its neighbours: to the left, above and above left. It is the median of `left`,
// `above` and `left + above - diagonal`.
#[tactic(auto, using(crate::proofs::Median::median))]
pub fn predict(left: u16, above: u16, diagonal: u16) -> u16
    ensures value { result ≡ predicted left above diagonal }
    ensures median { IsMedian (pos left) (pos above) (pos left +ℤ pos above -ℤ pos diagonal) (pos result) }
{
    edge(left, above, diagonal)
}
