// Files, and what `read` answers to each.
use super::*;
use std::test::Fail;

// Pictures, with their channels, width, height and maximum, and the length of their header.
const PICTURES: [(&[u8], u8, u16, u16, u16, usize); 9] = [
    (
        b"P5 11 1 255\n\x02\x02\x03\x02\x02\x04\x02\x02\x02\x06\x02",
        1,
        11,
        1,
        255,
        12,
    ),
    (b"P6 1 2 9 \x00\x01\x02\x07\x08\x09", 3, 1, 2, 9, 9),
    // Comments: right after the first two bytes, empty ones, and several in one gap.
    (b"P5#c\n1 1 255\n\x00", 1, 1, 1, 255, 13),
    (b"P5#\n1#\n1#\n1 \x01", 1, 1, 1, 1, 12),
    (
        b"P5\r\n# 7 8\t9\n \n#P6\n\t1\x0B\x0C2 #\r\n#\n 3\n\x03\x03",
        1,
        1,
        2,
        3,
        32,
    ),
    // Each of the six white bytes.
    (b"P5\t1\n1\x0B255\x0C\xFF", 1, 1, 1, 255, 11),
    (b"P5\r1 1 255\r\x23", 1, 1, 1, 255, 11),
    // Five digits, and a sample that is a digit or a white byte.
    (b"P5 00001 00001 00057\t\x39", 1, 1, 1, 57, 21),
    (b"P5 1 1 32  ", 1, 1, 1, 32, 10),
];

const REFUSED: [(&[u8], Refusal); 29] = [
    (b"", Refusal::NotAPicture),
    (b"P", Refusal::NotAPicture),
    (b"P4 1 1 1 \x00", Refusal::NotAPicture),
    // A number is missing, stands after no gap, has no digit or six, or a comment before it does not end.
    (b"P5", Refusal::NotAHeader),
    (b"P5 1 1", Refusal::NotAHeader),
    (b"P5 1 1 ", Refusal::NotAHeader),
    (b"P53 1 1 \x00", Refusal::NotAHeader),
    (b"P5 1 -1 1 \x00", Refusal::NotAHeader),
    (b"P5 000001 1 1 \x00", Refusal::NotAHeader),
    (b"P5 1 1 #1 \x00", Refusal::NotAHeader),
    (b"P5 1\x0E1 1 \x00", Refusal::NotAHeader),
    (b"P5 1\x081 1 \x00", Refusal::NotAHeader),
    (b"P5 0 1 1 ", Refusal::SizeOutOfBounds),
    (b"P5 1 0 1 ", Refusal::SizeOutOfBounds),
    (b"P5 4097 1 1 ", Refusal::SizeOutOfBounds),
    (b"P5 1 4097 1 ", Refusal::SizeOutOfBounds),
    (b"P5 1 1 0 \x00", Refusal::MaximumOutOfBounds),
    (b"P5 1 1 256 \x00", Refusal::MaximumOutOfBounds),
    // No white byte after the maximum, or not exactly the samples.
    (b"P5 1 1 1", Refusal::WrongLength),
    (b"P5 1 1 1#\n\x00", Refusal::WrongLength),
    (b"P5 1 1 1 ", Refusal::WrongLength),
    (b"P5 1 1 1 \x00\x00", Refusal::WrongLength),
    (b"P6 1 1 1 \x00", Refusal::WrongLength),
    (
        b"P5 3 1 7 \x07\x08\x09",
        Refusal::SampleAboveMaximum { sample: 1 },
    ),
    // The first question that does not hold names the refusal.
    (b"P4 0", Refusal::NotAPicture),
    (b"P5 0 1", Refusal::NotAHeader),
    (b"P5 0 1 0", Refusal::SizeOutOfBounds),
    (b"P5 1 1 0", Refusal::MaximumOutOfBounds),
    (b"P5 2 1 7 \x08", Refusal::WrongLength),
];

#[test]
fn reads_pictures(rt: HostRuntime) {
    for (file, channels, width, height, maximum, length) in PICTURES {
        let header = Header {
            channels,
            width,
            height,
            maximum,
            length,
        };
        assert_eq!(rt; read(file), Ok(header));
    }
}

#[test]
fn refuses_others(rt: HostRuntime) {
    for (file, refusal) in REFUSED {
        assert_eq!(rt; read(file), Err(refusal));
    }
}

// A picture with all 256 values, and the same with one byte fewer and one more.
#[test]
fn every_value(rt: HostRuntime) -> Result<(), Fail> {
    let mut file = b"P5 16 16 255\n".to_vec(rt.alloc())?;
    for value in 0..=255 {
        assert_eq!(rt; read(&file), Err(Refusal::WrongLength));
        file.push(value)?;
    }
    let header = Header {
        channels: 1,
        width: 16,
        height: 16,
        maximum: 255,
        length: 13,
    };
    assert_eq!(rt; read(&file), Ok(header));
    file.push(0)?;
    assert_eq!(rt; read(&file), Err(Refusal::WrongLength));
    Ok(())
}
