use super::*;
use carrier::Place;
use tally::survey;

// Like those of corner's tests; crates share no code of tests.
fn at(code: i32, low: i32, high: i32, seat: usize) -> Result<Place, Refusal> {
    Ok(Place {
        code,
        low,
        high,
        seat,
    })
}

fn no_place(height: u8, place: usize) -> Refusal {
    Refusal::NoSuchPlace { height, place }
}

fn out_of_bounds(seat: usize) -> Refusal {
    Refusal::ValueOutOfBounds { height: 0, seat }
}

#[test]
fn a_window_is_cut_at_the_end(rt: HostRuntime) {
    let picture = [7u8, 255, 0, 9];
    let from_two = Window::over(Plain::fitting(&picture, 200u8), 2, usize::MAX);
    assert_eq!(rt; from_two.count(), 2);
    assert_eq!(rt; from_two.height(), 1);
    assert_eq!(rt; from_two.place(1), at(9, 0, 200, 3));
    assert_eq!(rt; from_two.place(2), Err(no_place(1, 2)));
    assert_eq!(rt; from_two.place(usize::MAX), Err(no_place(1, usize::MAX)));
    let one = Window::over(Plain::fitting(&picture, 200u8), 3, 1);
    assert_eq!(rt; one.count(), 1);
    assert_eq!(rt; one.place(1), Err(no_place(1, 1)));
    assert_eq!(rt;
        Window::over(Plain::fitting(&picture, 200u8), 4, 9).count(),
        0
    );
    assert_eq!(rt;
        Window::over(Plain::fitting(&picture, 200u8), usize::MAX, usize::MAX).count(),
        0
    );
    assert_eq!(rt;
        Window::over(Plain::fitting(&picture, 200u8), 1, 0).count(),
        0
    );
}

#[test]
fn a_turn_of_a_turn_shows_what_lies_below(rt: HostRuntime) {
    let mut picture = [7u8, 255];
    let mut carrier = Turn::over(Turn::over(Plain::fitting(&mut picture[..], 200u8)));
    assert_eq!(rt; carrier.count(), 2);
    assert_eq!(rt; carrier.height(), 2);
    assert_eq!(rt; carrier.place(1), at(255, 0, 200, 1));
    assert_eq!(rt; carrier.put(0, 200), Ok(()));
    assert_eq!(rt; carrier.put(1, 201), Err(out_of_bounds(1)));
    assert!(rt; picture == [200, 255]);
}

#[test]
fn refusals_through_two_layers(rt: HostRuntime) {
    let mut picture = [7u8, 255, 0, 9];
    let turn = Turn::over(Plain::fitting(&mut picture[..], 200u8));
    let mut carrier = Window::over(turn, 1, 3);
    assert_eq!(rt; carrier.place(2), at(-9, -200, 0, 3));
    assert_eq!(rt; carrier.put(3, 0), Err(no_place(2, 3)));
    assert_eq!(rt; carrier.put(usize::MAX, 0), Err(no_place(2, usize::MAX)));
    assert_eq!(rt; carrier.put(2, 1), Err(out_of_bounds(3)));
    assert_eq!(rt; carrier.put(2, -201), Err(out_of_bounds(3)));
    assert_eq!(rt; carrier.put(2, i32::MIN), Err(out_of_bounds(3)));
    assert_eq!(rt; carrier.put(2, i32::MAX), Err(out_of_bounds(3)));
    assert_eq!(rt; carrier.put(2, -200), Ok(()));
    assert_eq!(rt; carrier.put(1, 0), Ok(()));
    assert!(rt; picture == [7, 255, 0, 200]);
}

#[test]
fn a_pile_on_a_corner_carrier(rt: HostRuntime) {
    let mut picture = [10u8, 12, 10, 12, 11, 14, 11, 9];
    let corner = Corner::fitting(&mut picture[..], 100u8, 4, 1);
    let turn = Turn::over(Window::over(corner, 1, 5));
    let mut pile = Window::over(turn, 0, 1);
    assert_eq!(rt; pile.height(), 3);
    assert_eq!(rt; pile.place(0), at(3, -88, 12, 7));
    assert_eq!(rt; exchange_in_pile(&mut pile, 0, 13), Err(out_of_bounds(7)));
    assert_eq!(rt; exchange_in_pile(&mut pile, 1, 0), Err(no_place(3, 1)));
    assert_eq!(rt; exchange_in_pile(&mut pile, 0, -88), Ok(3));
    assert!(rt; picture == [10, 12, 10, 12, 11, 14, 11, 100]);
}

#[test]
fn a_window_over_a_picture_that_was_lent(rt: HostRuntime) {
    let mut picture = [7u8, 255, 0, 9];
    assert_eq!(rt;
        put_in_picture(&mut picture, 200, 2, 1, 1, 5),
        Err(no_place(1, 1))
    );
    assert_eq!(rt; put_in_picture(&mut picture, 200, 2, 1, 0, 5), Ok(()));
    assert!(rt; picture == [7, 255, 5, 9]);
}

// The survey needs nothing but a carrier that can be read.
#[test]
fn the_survey_of_a_corner_and_of_layers(rt: HostRuntime) {
    let picture = [10u8, 12, 10, 12, 11, 14, 11, 14];
    let found = survey(&Corner::fitting(&picture, 255u8, 4, 1));
    assert_eq!(rt; found.pair.peak, 2);
    assert_eq!(rt; found.pair.zero, 3);
    assert_eq!(rt; found.counts.slots, 2);
    let turned = survey(&Window::over(Turn::over(Corner::fitting(&picture, 255u8, 4, 1)), 1, 1));
    assert_eq!(rt; turned.pair.peak, -2);
    assert_eq!(rt; turned.pair.zero, -1);
    assert_eq!(rt; turned.counts.slots, 1);
}
