// The numbered refusals. Every call that can refuse answers with one of these cases. The number by which users know a
// case, and the values that it tells, are defined once, in specs/Numbers.antt.
#![tactic(auto)]

ghost use Rattle.std.specs.Prelude.{◌≡◌, Some};
ghost use Rattle.refusal.specs.Numbers.{number_of, refusal_text};

use std::error::Error;
use std::fmt;

#[derive(Clone, Copy, PartialEq, Eq, Debug)]
pub enum Refusal {
    // 12: the place named is not below the count of the carrier asked, which has this height.
    NoSuchPlace { height: u8, place: usize },
    // 13: the value is not from low to high at the place with this seat. The height is that of the bottom carrier, 0.
    ValueOutOfBounds { height: u8, seat: usize },
    // 14: the file does not begin with P5 or P6.
    NotAPicture,
    // 15: width, height and maximum do not follow as three numbers, each after a gap.
    NotAHeader,
    // 16: width or height is not from 1 to 4,096.
    SizeOutOfBounds,
    // 17: the maximum is not from 1 to 255.
    MaximumOutOfBounds,
    // 18: the header's last white byte and exactly the samples do not end the file.
    WrongLength,
    // 19: a sample is above the maximum; this is the first.
    SampleAboveMaximum { sample: usize },
    // 20: the program `survey` was given more than 65,536 bytes.
    InputTooLong,
}

impl Refusal {
    // The number by which users know the refusal. A method with that name, and no `From`: it is no conversion, as the
    // values of the refusal are no part of it.
    pub fn number(self) -> u8
        ensures { result ≡ number_of self }
    {
        match self {
            Refusal::NoSuchPlace { .. } => 12,
            Refusal::ValueOutOfBounds { .. } => 13,
            Refusal::NotAPicture => 14,
            Refusal::NotAHeader => 15,
            Refusal::SizeOutOfBounds => 16,
            Refusal::MaximumOutOfBounds => 17,
            Refusal::WrongLength => 18,
            Refusal::SampleAboveMaximum { .. } => 19,
            Refusal::InputTooLong => 20,
        }
    }
}

impl fmt::Display for Refusal {
    ghost output = { λ e. Some (refusal_text e) };

    fn fmt<W: fmt::Write>(&self, f: &mut fmt::Formatter<W>) -> fmt::Result {
        write!(f, "refused {}", self.number())
    }
}

impl Error for Refusal {}

#[cfg(test)]
mod tests {
    use super::*;
    use std::test::Fail;

    #[test]
    fn each_refusal_has_its_number(rt: HostRuntime) {
        let table = [
            (
                Refusal::NoSuchPlace {
                    height: 1,
                    place: 2,
                },
                12,
            ),
            (Refusal::ValueOutOfBounds { height: 0, seat: 5 }, 13),
            (Refusal::NotAPicture, 14),
            (Refusal::NotAHeader, 15),
            (Refusal::SizeOutOfBounds, 16),
            (Refusal::MaximumOutOfBounds, 17),
            (Refusal::WrongLength, 18),
            (Refusal::SampleAboveMaximum { sample: 7 }, 19),
            (Refusal::InputTooLong, 20),
        ];
        for (refusal, number) in table {
            assert_eq!(rt; refusal.number(), number);
        }
    }

    #[test]
    fn the_text_tells_the_number(rt: HostRuntime) -> Result<(), Fail> {
        let place = Refusal::NoSuchPlace {
            height: 1,
            place: 2,
        };
        let table = [
            (place, "refused 12"),
            (Refusal::NotAPicture, "refused 14"),
            (Refusal::InputTooLong, "refused 20"),
        ];
        for (refusal, text) in table {
            let shown = format!(in rt.alloc(); "{refusal}")?;
            assert_eq!(rt; shown.as_str(), text);
        }
        Ok(())
    }
}
