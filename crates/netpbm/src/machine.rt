// Reads one number of a header, a byte at a time: a gap of white bytes and comments, and then up to five digits.
ghost use Rattle.std.specs.Prelude.{◌≡◌, ◌≤◌, IfSome, length};
ghost use Rattle.netpbm.specs.Calls.{taken};
ghost use Rattle.netpbm.specs.Reading.{number as number_at};
ghost use Rattle.netpbm.specs.States.{stepped, Sound};

// The white bytes are these two, those between them, and the space.
pub const TAB: u8 = 9;

pub const CARRIAGE_RETURN: u8 = 13;

pub const SPACE: u8 = 32;

const LINE_FEED: u8 = 10;

const MOST_DIGITS: u8 = 5;

// How far a number has been read.
#[derive(Clone, Copy)]
enum State {
    // Nothing of the gap has come yet.
    Before,
    Gap,
    // Inside a comment of the gap.
    Comment,
    Digits { value: u32, count: u8 },
    // The last byte is no digit, and stands after the number.
    Ended { value: u32 },
    Failed,
}

// A state that each byte changes in place. A rule of the project: the machine matches its own state and the byte.
#[derive(Drop)]
struct Machine {
    state: State,
}

impl Machine {
    // Goes on by one byte.
    fn step(&mut self, byte: u8)
        requires { Sound self.old.state }
        ensures { self.new.state ≡ stepped self.old.state byte }
    {
        self.state = match (self.state, byte) {
            (State::Before | State::Gap, TAB..=CARRIAGE_RETURN | SPACE)
            | (State::Comment, LINE_FEED) => State::Gap,
            (State::Before | State::Gap, b'#') | (State::Comment, _) => State::Comment,
            (State::Gap, b'0'..=b'9') => State::Digits {
                value: u32::from(byte - b'0'),
                count: 1,
            },
            (State::Digits { value, count }, b'0'..=b'9') if count < MOST_DIGITS => {
                State::Digits {
                    value: 10 * value + u32::from(byte - b'0'),
                    count: count + 1,
                }
            }
            (State::Digits { .. }, b'0'..=b'9') => State::Failed,
            (State::Digits { value, .. } | State::Ended { value }, _) => State::Ended { value },
            _ => State::Failed,
        };
    }
}

// The number after the gap that `bytes` begin with, and the bytes that stand after it.
#[tactic(auto, using(crate::proofs::Running::reads_failure, crate::proofs::Running::reads_nothing))]
pub fn number(bytes: &[u8]) -> Option<(u32, &[u8])>
    ensures value { taken result ≡ number_at bytes.now }
    ensures rest { IfSome result (λ n. length n.1.now ≤ length bytes.now) }
{
    let mut machine = Machine {
        state: State::Before,
    };
    for (at, byte) in bytes.iter().enumerate() {
        machine.step(*byte);
        match machine.state {
            State::Ended { value } => return Some((value, &bytes[at..])),
            State::Failed => return None,
            _ => {}
        }
    }
    match machine.state {
        State::Digits { value, .. } => Some((value, &[])),
        _ => None,
    }
}
