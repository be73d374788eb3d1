// Picture files: the binary grey and colour formats of Netpbm, with one byte to a sample.
#![tactic(auto)]

ghost use Rattle.std.specs.Prelude.{◌≡◌, ◌*◌, ◌<◌, ◌≤◌, ◌&&◌, IfSome, OnSome, if◌then◌else◌, drop, length, nat_le};
ghost use Rattle.std.specs.Option.{option_copied};
ghost use Rattle.refusal.specs.Answers.{answer};
ghost use Rattle.netpbm.specs.Bytes.{white};
ghost use Rattle.netpbm.specs.Calls.{begun, taken};
ghost use Rattle.netpbm.specs.Accepting.{AcceptedPictures};
ghost use Rattle.netpbm.specs.Reading.{ends_with, first_above, reading};

mod machine;
#[cfg(test)]
mod tests;

use machine::{CARRIAGE_RETURN, SPACE, TAB, number};
use refusal::Refusal;

const LARGEST_SIDE: u16 = 4096;

const LARGEST_MAXIMUM: u16 = 255;

#[derive(Clone, Copy, PartialEq, Eq, Debug)]
pub struct Header {
    // 1 or 3: a number of samples, which sizes are multiplied by.
    pub channels: u8,
    pub width: u16,
    pub height: u16,
    pub maximum: u16,
    // How many bytes stand before the samples.
    pub length: usize,
}

// The header of a picture file, or what the file is refused for. A file is accepted exactly if it is a picture.
pub fn read(file: &[u8]) -> Result<Header, Refusal>
    ensures answered { answer result ≡ reading file.now }
    ensures accepts { AcceptedPictures file.now }
{
    pictures_are_accepted(file);
    let (channels, rest) = begin(file).ok_or(Refusal::NotAPicture)?;
    // A rule of the project: each of the three numbers is taken by `let .. else`, with its refusal beside it.
    let Some((width, rest)) = number(rest) else {
        return Err(Refusal::NotAHeader);
    };
    let Some((height, rest)) = number(rest) else {
        return Err(Refusal::NotAHeader);
    };
    let Some((maximum, rest)) = number(rest) else {
        return Err(Refusal::NotAHeader);
    };
    let width = within(width, LARGEST_SIDE).ok_or(Refusal::SizeOutOfBounds)?;
    let height = within(height, LARGEST_SIDE).ok_or(Refusal::SizeOutOfBounds)?;
    let maximum = within(maximum, LARGEST_MAXIMUM).ok_or(Refusal::MaximumOutOfBounds)?;
    let count = sample_count(width, height, channels);
    let samples = samples(rest, count).ok_or(Refusal::WrongLength)?;
    // What is found here is what the file is refused for, so no `ok_or` fits.
    if let Some(sample) = first_above(samples, maximum) {
        return Err(Refusal::SampleAboveMaximum { sample });
    }
    Ok(Header {
        channels,
        width,
        height,
        maximum,
        length: file.len() - count,
    })
}

// A fact about files, and no code.
fn pictures_are_accepted(file: &[u8])
    ensures { AcceptedPictures file.now }
{}

// The channels that the first two bytes of a file stand for, and the bytes after them.
fn begin(file: &[u8]) -> Option<(u8, &[u8])>
    ensures value { taken result ≡ begun file.now }
    ensures rest { IfSome result (λ b. length b.1.now ≤ length file.now) }
{
    match file {
        [b'P', b'5', rest @ ..] => Some((1, rest)),
        [b'P', b'6', rest @ ..] => Some((3, rest)),
        _ => None,
    }
}

// The value, if it is from 1 to the largest.
fn within(value: u32, largest: u16) -> Option<u16>
    ensures { result ≡ (if nat_le 1 value && nat_le value largest then Some value else None) }
{
    u16::try_from(value)
        .ok()
        .filter(|n| (1..=largest).contains(n))
}

fn sample_count(width: u16, height: u16, channels: u8) -> usize
    ensures { result ≡ width * height * channels }
{
    usize::from(width) * usize::from(height) * usize::from(channels)
}

// The samples, if the bytes are one white byte and `count` samples, and no more.
fn samples(rest: &[u8], count: usize) -> Option<&[u8]>
    ensures value { option_copied result ≡ (if ends_with count rest.now then Some (drop 1 rest.now) else None) }
    ensures fewer { OnSome result (count < length rest.now) }
{
    match rest {
        [blank, samples @ ..] if is_white(*blank) && samples.len() == count => Some(samples),
        _ => None,
    }
}

fn is_white(byte: u8) -> bool
    ensures { result ≡ white byte }
{
    matches!(byte, TAB..=CARRIAGE_RETURN | SPACE)
}

// The number of the first sample above the maximum.
fn first_above(samples: &[u8], maximum: u16) -> Option<usize>
    ensures { result ≡ first_above maximum samples.now }
{
    samples
        .iter()
        .position(|sample| u16::from(*sample) > maximum)
}
