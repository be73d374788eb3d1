// The corner carrier: the lower right sample of each block of 2 x 2 pixels, by its distance from a prediction. This
// file tells where its places lie, by the picture's width and channels.
#![tactic(auto)]

ghost use Rattle.std.specs.Prelude.{◌≡◌, ◌+◌, ◌/◌, ◌%◌, ◌<◌, ◌≤◌, MatchOption};
ghost use Rattle.carrier.specs.Plain.{most};
ghost use Rattle.corner.specs.Channels.{counted, channel_count};
ghost use Rattle.corner.specs.Layout.{places, across};
ghost use Rattle.corner.specs.Spots.{Located};

mod corner;
mod predictor;

pub use corner::Corner;
pub use predictor::predict;

// How many samples a pixel has.
#[derive(Clone, Copy)]
enum Channels {
    One,
    Three,
}

impl Channels {
    // The block and the channel of place `p`. Compiled, neither case has a division left. One case for both, `p / n`
    // and `p % n`, divides, and a pass over one channel took a tenth longer with it.
    fn split(self, p: usize) -> (usize, usize)
        ensures block { result.0 ≡ p / channel_count self }
        ensures channel { result.1 ≡ p % channel_count self }
    {
        match self {
            Channels::One => (p, 0),
            Channels::Three => (p / 3, p % 3),
        }
    }
}

// A count that is not 3 counts as 1.
impl From<u8> for Channels {
    ghost from_gives = { λ count channels. channel_count channels ≡ counted count };

    fn from(count: u8) -> Channels {
        if count == 3 {
            Channels::Three
        } else {
            Channels::One
        }
    }
}

impl From<Channels> for usize {
    ghost from_gives = { λ channels count. count ≡ channel_count channels };

    fn from(channels: Channels) -> usize {
        match channels {
            Channels::One => 1,
            Channels::Three => 3,
        }
    }
}

// The four samples of a block in one channel, by their numbers. The seat is the lower right one.
#[derive(Clone, Copy)]
struct Spot {
    seat: usize,
    left: usize,
    above: usize,
    diagonal: usize,
}

impl Spot {
    // The block whose upper left sample is `diagonal`, where `step` leads to the next pixel and `line` to the next row.
    fn below(diagonal: usize, step: usize, line: usize) -> Spot
        requires { diagonal + line + step < 18446744073709551616 }
        ensures seat { result.seat ≡ diagonal + line + step }
        ensures left { result.left ≡ diagonal + line }
        ensures above { result.above ≡ diagonal + step }
        ensures diagonal { result.diagonal ≡ diagonal }
    {
        Spot {
            seat: diagonal + line + step,
            left: diagonal + line,
            above: diagonal + step,
            diagonal,
        }
    }
}

// Four samples make at most one place, so no place is this far.
const MOST_PLACES: usize = 16_777_216;

// A quotient by the blocks of a row is a product with `inverse`, shifted by so many bits.
const SCALE: u32 = 39;

#[derive(Clone, Copy)]
struct Grid {
    width: u16,
    channels: Channels,
    // 2^39 divided by the blocks of a row, and one more: a hint for `divided`, on which no answer depends.
    inverse: usize,
}

impl Grid {
    fn new(width: u16, channels: u8) -> Grid
        ensures width { result.width ≡ width }
        ensures channels { channel_count result.channels ≡ counted channels }
    {
        let half = usize::from(width / 2);
        let inverse = if half == 0 {
            1
        } else {
            (1 << SCALE) / half + 1
        };
        Grid {
            width,
            channels: Channels::from(channels),
            inverse,
        }
    }

    // Quotient and remainder of `n` by the number of blocks in a row: by a product and a shift, and by a division where
    // these miss the quotient. They never do for the number of a block, but nothing rests on that.
    fn divided(self, n: usize) -> (usize, usize)
        requires { 0 < across self.width }
        ensures quotient { result.0 ≡ n / across self.width }
        ensures remainder { result.1 ≡ n % across self.width }
    {
        let half = usize::from(self.width / 2);
        let quotient = n.wrapping_mul(self.inverse) >> SCALE;
        let product = quotient * half;
        if product <= n && n - product < half {
            (quotient, n - product)
        } else {
            (n / half, n % half)
        }
    }

    // The number of places in a picture of which `total` samples are used.
    fn count(self, total: usize) -> usize
        requires { total ≤ most }
        ensures { result ≡ places self.width (channel_count self.channels) total }
    {
        let channels = usize::from(self.channels);
        let width = usize::from(self.width);
        if width == 0 {
            return 0;
        }
        total / (width * channels) / 2 * (width / 2) * channels
    }

    // The samples of place `p`.
    fn spot(self, p: usize, total: usize) -> Option<Spot>
        requires { total ≤ most }
        ensures { MatchOption result (places self.width (channel_count self.channels) total ≤ p) (Located self.width (channel_count self.channels) total p) }
    {
        if p >= MOST_PLACES || self.width < 2 {
            return None;
        }
        let (block, channel) = self.channels.split(p);
        let (row, column) = self.divided(block);
        let step = usize::from(self.channels);
        let line = usize::from(self.width) * step;
        let upper = 2 * row * line;
        if upper + 2 * line > total {
            return None;
        }
        Some(Spot::below(upper + 2 * column * step + channel, step, line))
    }
}

#[cfg(test)]
mod tests;
