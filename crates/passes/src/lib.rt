// Whole passes over a picture, for the benchmark in bench/ to call from C.
#![tactic(auto)]

ghost use Rattle.std.specs.Prelude.{◌≡◌};
ghost use Rattle.carrier.specs.Plain.{plain_rest, plain_codes, plain_sites};
ghost use Rattle.corner.specs.Channels.{counted};
ghost use Rattle.corner.specs.Corner.{corner_rest, corner_codes, corner_sites};
ghost use Rattle.mark.specs.Rows.{slots};

use carrier::Plain;
use corner::Corner;
use mark::Pair;

// How many slots a pair finds on the plain carrier: one read of every place.
#[unsafe(no_mangle)]
pub extern "C" fn slots_on_plain(samples: &[u8], maximum: u8, peak: i32, zero: i32) -> usize
    ensures { result ≡ slots peak zero (plain_sites (plain_rest maximum samples.now)) (plain_codes samples.now) }
{
    Pair { peak, zero }
        .counts_on(&Plain::fitting(samples, maximum))
        .slots
}

// The same on the corner carrier. Two calls, since C knows each by its name.
#[unsafe(no_mangle)]
pub extern "C" fn slots_on_corner(
    samples: &[u8],
    maximum: u8,
    width: u16,
    channels: u8,
    peak: i32,
    zero: i32,
) -> usize
    ensures { result ≡ slots peak zero (corner_sites (corner_rest maximum width (counted channels) samples.now)) (corner_codes width (counted channels) samples.now) }
{
    Pair { peak, zero }
        .counts_on(&Corner::fitting(samples, maximum, width, channels))
        .slots
}
