use super::*;
use carrier::Plain;

// Peak, zero, slots and map bits, without their names, so that a case fits a line.
fn surveyed(picture: &[u8], maximum: u8) -> (i32, i32, usize, usize) {
    let found = survey(&Plain::fitting(picture, maximum));
    (
        found.pair.peak,
        found.pair.zero,
        found.counts.slots,
        found.counts.map_bits,
    )
}

#[test]
fn the_pair_of_small_rows(rt: HostRuntime) {
    assert_eq!(rt;
        surveyed(&[2, 2, 3, 2, 2, 4, 2, 2, 2, 6, 2], 255),
        (2, 5, 8, 0)
    );
    // one sample: the next code is the first that does not occur
    assert_eq!(rt; surveyed(&[9], 255), (9, 10, 1, 0));
    // nothing at all: every count is 0, so the smallest codes win
    assert_eq!(rt; surveyed(&[], 255), (-255, -254, 0, 0));
    // a tie of peaks and of zeros
    assert_eq!(rt; surveyed(&[8, 4, 8, 4], 255), (4, 5, 2, 0));
    // 255 is never the peak, even if it is the most frequent
    assert_eq!(rt; surveyed(&[255, 255, 255, 254], 255), (254, 255, 4, 4));
    assert_eq!(rt; surveyed(&[255, 255, 255], 255), (-255, -254, 0, 0));
}

#[test]
fn the_pair_of_all_values(rt: HostRuntime) {
    let mut picture = [0u8; 256];
    for (sample, value) in picture.iter_mut().zip(0..=255) {
        *sample = value;
    }
    assert_eq!(rt; surveyed(&picture, 255), (0, 1, 2, 2));
}
