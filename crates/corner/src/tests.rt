use super::*;
use carrier::{Carrier, CarrierMut, Place, Sample, Samples};
use refusal::Refusal;

#[test]
fn the_predictor_follows_an_edge_or_a_slope(rt: HostRuntime) {
    assert_eq!(rt; predict(11, 12, 10), 12);
    assert_eq!(rt; predict(11, 12, 20), 11);
    assert_eq!(rt; predict(10, 20, 13), 17);
    assert_eq!(rt; predict(7, 7, 7), 7);
    assert_eq!(rt; predict(0, 65_535, 0), 65_535);
    assert_eq!(rt; predict(0, 65_535, 65_535), 0);
}

fn count(samples: &[u8], width: u16, channels: u8) -> usize {
    Corner::fitting(samples, 255u8, width, channels).count()
}

#[test]
fn whole_blocks_make_the_places(rt: HostRuntime) {
    let samples = [0u8; 48];
    // no width, one column, one row, an empty picture
    assert_eq!(rt; count(&samples, 0, 1), 0);
    assert_eq!(rt; count(&samples, 1, 1), 0);
    assert_eq!(rt; count(&samples, 48, 1), 0);
    assert_eq!(rt; count(&samples[0..0], 4, 1), 0);
    // 4 x 2, 4 x 12, and an odd last column and row
    assert_eq!(rt; count(&samples[0..8], 4, 1), 2);
    assert_eq!(rt; count(&samples, 4, 1), 12);
    assert_eq!(rt; count(&samples[0..15], 5, 1), 2);
    // the last row is cut
    assert_eq!(rt; count(&samples[0..15], 4, 1), 2);
    assert_eq!(rt; count(&samples[0..16], 4, 1), 4);
    // three channels; other counts are one channel
    assert_eq!(rt; count(&samples, 4, 3), 12);
    assert_eq!(rt; count(&samples[0..47], 4, 3), 6);
    assert_eq!(rt; count(&samples, 4, 0), 12);
    assert_eq!(rt; count(&samples, 4, 2), 12);
    assert_eq!(rt; count(&samples, 4, 4), 12);
    assert_eq!(rt; count(&samples, 65_535, 3), 0);
}

// Like those of other crates' tests; crates share no code of tests.
fn at(code: i32, low: i32, high: i32, seat: usize) -> Result<Place, Refusal> {
    Ok(Place {
        code,
        low,
        high,
        seat,
    })
}

fn no_place(place: usize) -> Refusal {
    Refusal::NoSuchPlace { height: 0, place }
}

// Five columns and three rows: two blocks, and a column and a row that are in none.
#[test]
fn places_of_an_odd_picture(rt: HostRuntime) {
    let samples = [
        10u8, 12, 13, 20, 9, //
        11, 14, 10, 255, 9, //
        1, 2, 3, 4, 5,
    ];
    let carrier = Corner::reading(&samples, 200, 5, 1);
    assert_eq!(rt; carrier.height(), 0);
    // (11, 12, 10) predicts 12, and (10, 20, 13) predicts 17; the second sample is above the maximum
    assert_eq!(rt; carrier.place(0), at(2, -12, 188, 6));
    assert_eq!(rt; carrier.place(1), at(238, -17, 183, 8));
    assert_eq!(rt; carrier.place(2), Err(no_place(2)));
    assert_eq!(rt; carrier.place(usize::MAX), Err(no_place(usize::MAX)));
}

// Two pixels by two, three channels: one block with three places.
#[test]
fn channels_are_places_of_one_block(rt: HostRuntime) {
    let samples = [1u8, 20, 0, 2, 30, 9, 3, 40, 9, 4, 50, 0];
    let carrier = Corner::fitting(&samples, 255u8, 2, 3);
    assert_eq!(rt; carrier.count(), 3);
    assert_eq!(rt; carrier.place(0), at(1, -3, 252, 9));
    assert_eq!(rt; carrier.place(1), at(10, -40, 215, 10));
    assert_eq!(rt; carrier.place(2), at(-9, -9, 246, 11));
}

// The first place of the corner carrier of any samples, two in a row, with a maximum of any type.
fn first_place<S: Samples + Drop, M: Sample>(samples: S, maximum: M) -> Result<Place, Refusal> {
    Corner::over(samples, maximum, 2, 1).place(0)
}

// (11, 12, 10) predicts 12
#[test]
fn a_high_may_lie_above_every_byte(rt: HostRuntime) {
    let samples = [10u8, 12, 11, 14];
    assert_eq!(rt; first_place(&samples, 100u8), at(2, -12, 88, 3));
    assert_eq!(rt; first_place(&samples, 300u16), at(2, -12, 288, 3));
}

#[test]
fn a_put_moves_the_seat_alone(rt: HostRuntime) {
    let mut samples = [10u8, 12, 11, 14];
    let mut carrier = Corner::writing(&mut samples, 100, 2, 1);
    assert_eq!(rt; carrier.place(0), at(2, -12, 88, 3));
    let refused = Refusal::ValueOutOfBounds { height: 0, seat: 3 };
    assert_eq!(rt; carrier.put(0, -13), Err(refused));
    assert_eq!(rt; carrier.put(0, 89), Err(refused));
    assert_eq!(rt; carrier.put(0, i32::MIN), Err(refused));
    assert_eq!(rt; carrier.put(1, 0), Err(no_place(1)));
    assert_eq!(rt; carrier.place(0), at(2, -12, 88, 3));
    assert_eq!(rt; carrier.put(0, 88), Ok(()));
    assert_eq!(rt; carrier.place(0), at(88, -12, 88, 3));
    assert_eq!(rt; carrier.put(0, -12), Ok(()));
    assert_eq!(rt; carrier.place(0), at(-12, -12, 88, 3));
    assert!(rt; samples == [10, 12, 11, 0]);
}
