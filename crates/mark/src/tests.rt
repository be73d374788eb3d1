use super::*;
use carrier::Plain;

// Slots and map bits, without their names, so that a case fits a line.
fn counted(picture: &[u8], maximum: u8, peak: i32, zero: i32) -> (usize, usize) {
    let counts = Pair { peak, zero }.counts_on(&Plain::fitting(picture, maximum));
    (counts.slots, counts.map_bits)
}

#[test]
fn slots_and_map_bits_of_small_rows(rt: HostRuntime) {
    // no code at its top: no map
    assert_eq!(rt;
        counted(&[2, 2, 3, 2, 2, 4, 2, 2, 2, 6, 2], 255, 2, 5),
        (8, 0)
    );
    // a code at the top: a bit for it and for the code below it
    assert_eq!(rt;
        counted(&[2, 2, 5, 2, 2, 4, 2, 2, 2, 6, 2], 255, 2, 5),
        (8, 2)
    );
    // zero next to the peak: the codes at the top become slots, and every slot has a map bit
    assert_eq!(rt; counted(&[2, 3, 2, 4], 255, 2, 3), (3, 3));
    assert_eq!(rt; counted(&[2, 2, 2, 2, 2, 2, 2, 2], 255, 2, 3), (8, 0));
    // the top is the maximum where that is lower than the zero, and a code above it takes no part
    assert_eq!(rt; counted(&[90, 100, 120, 99], 100, 90, 130), (1, 2));
    // a peak at the maximum cannot rise
    assert_eq!(rt; counted(&[100, 100], 100, 100, 130), (0, 0));
}

#[test]
fn odd_pairs_find_nothing(rt: HostRuntime) {
    assert_eq!(rt; counted(&[], 255, 2, 5), (0, 0));
    assert_eq!(rt; counted(&[2, 5], 255, 5, 2), (0, 0));
    assert_eq!(rt; counted(&[2, 5], 255, i32::MIN, i32::MIN), (0, 0));
    assert_eq!(rt; counted(&[2, 5], 255, i32::MAX, i32::MAX), (0, 0));
    assert_eq!(rt; counted(&[0, 255], 255, 0, i32::MAX), (1, 1));
}
