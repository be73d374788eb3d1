use super::*;
use std::test::Fail;

#[test]
fn lines_of_small_inputs(rt: HostRuntime) -> Result<(), Fail> {
    let table: [(&[u8], &str); 9] = [
        (
            b"P5 11 1 255\n\x02\x02\x03\x02\x02\x04\x02\x02\x02\x06\x02",
            "peak 2 zero 5 slots 8 map 0\n",
        ),
        (b"P6 1 1 9 \x07\x07\x08", "peak 7 zero 9 slots 2 map 0\n"),
        // minus signs: no sample is below 255, and 255 is no peak
        (
            b"P5 2 1 255 \xff\xff",
            "peak -255 zero -254 slots 0 map 0\n",
        ),
        (b"", "refused 14\n"),
        (b"P5 100000 1 255 ", "refused 15\n"),
        (b"P5 0 1 255 ", "refused 16\n"),
        (b"P5 1 1 256 \x00", "refused 17\n"),
        (b"P5 1 1 255 \x00\x00", "refused 18\n"),
        (b"P5 2 1 8 \x08\x09", "refused 19\n"),
    ];
    for (input, expected) in table {
        let line = report(rt.alloc(), input)?;
        assert_eq!(rt; line.as_str(), expected);
    }
    Ok(())
}

// The length comes before everything else.
#[test]
fn a_long_input_is_refused_unread(rt: HostRuntime) -> Result<(), Fail> {
    let input = vec![in rt.alloc(); 0u8; 65_537]?;
    assert!(rt; input.len() == 65_537);
    let long = report(rt.alloc(), input.as_slice())?;
    assert_eq!(rt; long.as_str(), "refused 20\n");
    let short = report(rt.alloc(), &input[0..65_536])?;
    assert_eq!(rt; short.as_str(), "refused 14\n");
    Ok(())
}
