ghost use Rattle.carrier.specs.Through.{meaning_through};

use super::*;
use refusal::Refusal;
use std::convert::AsSlice;
use std::test::Fail;

fn on_plain(code: i32, seat: usize) -> Result<Place, Refusal> {
    Ok(Place {
        code,
        low: 0,
        high: 200,
        seat,
    })
}

// Like that of other crates' tests; crates share no code of tests.
fn no_place(place: usize) -> Refusal {
    Refusal::NoSuchPlace { height: 0, place }
}

// A code may lie above the maximum, and a place past the last is refused with the height and its own number.
#[test]
fn plain_answers_what_the_picture_holds(rt: HostRuntime) {
    let picture = [7u8, 255, 0];
    let carrier = Plain::reading(&picture, 200);
    assert_eq!(rt; carrier.count(), 3);
    assert_eq!(rt; carrier.height(), 0);
    assert_eq!(rt; carrier.place(0), on_plain(7, 0));
    assert_eq!(rt; carrier.place(1), on_plain(255, 1));
    assert_eq!(rt; carrier.place(2), on_plain(0, 2));
    assert_eq!(rt; carrier.place(3), Err(no_place(3)));
    assert_eq!(rt; carrier.place(usize::MAX), Err(no_place(usize::MAX)));
}

#[test]
fn an_empty_picture_has_no_places(rt: HostRuntime) {
    let picture: [u8; 0] = [];
    let carrier = Plain::fitting(&picture, 0u8);
    assert_eq!(rt; carrier.count(), 0);
    assert_eq!(rt; carrier.place(0), Err(no_place(0)));
}

#[test]
fn places_come_one_after_another(rt: HostRuntime) {
    let carrier = Plain::fitting([7u8, 255, 0], 200u8);
    let mut places = carrier.places();
    assert_eq!(rt; places.next().map(|at| at.code), Some(7));
    assert_eq!(rt; places.next().map(|at| at.code), Some(255));
    assert_eq!(rt; places.next().map(|at| at.seat), Some(2));
    assert_eq!(rt; places.next(), None);
    assert_eq!(rt; places.next(), None);
    assert_eq!(rt; carrier.places().count(), 3);
}

// The samples may be lent or owned.
#[test]
fn samples_lie_in_a_vec(rt: HostRuntime) -> Result<(), Fail> {
    let carrier = Plain::fitting(vec![in rt.alloc(); 7u8, 255, 0]?, 200u8);
    assert_eq!(rt; carrier.get(1), on_plain(255, 1).ok());
    assert_eq!(rt; carrier.get(3), None);
    Ok(())
}

// The first place of the plain carrier of any samples, with a maximum of any type.
fn first<S: Samples + Drop, M: Sample>(samples: S, maximum: M) -> Option<Place> {
    Plain::over(samples, maximum).get(0)
}

#[test]
fn a_maximum_may_be_above_every_byte(rt: HostRuntime) {
    let picture = [7u8, 255, 0];
    assert_eq!(rt; first(&picture, 200u8), on_plain(7, 0).ok());
    assert_eq!(rt; first(&picture, 300u16).map(|at| at.high), Some(300));
}

// A sample above the maximum may be put down, and not up again.
#[test]
fn a_put_moves_one_sample(rt: HostRuntime) {
    let mut picture = [7u8, 255, 0];
    let mut carrier = Plain::writing(&mut picture, 200);
    let refused = Refusal::ValueOutOfBounds { height: 0, seat: 1 };
    assert_eq!(rt; carrier.put(1, 201), Err(refused));
    assert_eq!(rt; carrier.put(1, -1), Err(refused));
    assert_eq!(rt; carrier.put(1, i32::MAX), Err(refused));
    assert_eq!(rt; carrier.put(3, 0), Err(no_place(3)));
    assert_eq!(rt; carrier.place(1), on_plain(255, 1));
    assert_eq!(rt; carrier.put(1, 200), Ok(()));
    assert_eq!(rt; carrier.place(1), on_plain(200, 1));
    assert_eq!(rt; carrier.put(1, 255), Err(refused));
    assert_eq!(rt; carrier.put(0, 0), Ok(()));
    assert!(rt; picture == [0, 200, 0]);
}

// A lent slice is lent anew to each carrier.
#[test]
fn a_slice_is_written_by_two_carriers(rt: HostRuntime) {
    let mut picture = [7u8, 255, 0];
    assert_eq!(rt; put_twice(&mut picture), Ok(()));
    assert!(rt; picture == [8, 255, 1]);
}

fn put_twice(picture: &mut [u8]) -> Result<(), Refusal> {
    Plain::writing(picture, 200).put(0, 8)?;
    Plain::writing(picture, 200).put(2, 1)
}

// A carrier may hold what it likes, here a function.
#[derive(Drop)]
struct Told<C> {
    below: C,
    tell: fn(u8) -> u8,
}

impl<C: Carrier> Carrier for Told<C> {
    ghost Rest = { C.Carrier.Rest };

    ghost rest = { λ t. C.Carrier.rest t.below };

    ghost codes = { λ t. C.Carrier.codes t.below };

    ghost sites = { C.Carrier.sites };

    ghost level = { C.Carrier.level };

    ghost picture = { λ t. C.Carrier.picture t.below };

    ghost meaning = { meaning_through (λ t. t.below) C.Carrier.meaning };

    fn count(&self) -> usize {
        self.below.count()
    }

    fn height(&self) -> u8 {
        self.below.height()
    }

    fn get(&self, i: usize) -> Option<Place> {
        self.below.get(i)
    }
}

fn first_and_last<C: Carrier>(c: &C) -> Option<(i32, i32)> {
    let first = c.place(0).ok()?;
    let last = c.places().last()?;
    Some((first.code, last.code))
}

fn same(v: u8) -> u8 {
    v
}

#[test]
fn a_carrier_may_hold_a_function(rt: HostRuntime) {
    let picture = [7u8, 255, 0];
    let told = Told {
        below: Plain::reading(&picture, 200),
        tell: same,
    };
    assert_eq!(rt; first_and_last(&told), Some((7, 0)));
}

// Samples may lie where bytes are lent that are none of them, here a name.
#[derive(Drop)]
struct Named<'a, S> {
    samples: S,
    name: &'a [u8],
}

impl<S> AsSlice<u8> for Named<'_, S> {
    ghost items = { λ n. n.name.now };

    fn as_slice(&self) -> &[u8] {
        self.name
    }
}

impl<S: Samples> Samples for Named<'_, S> {
    ghost values = { λ n. S.Samples.values n.samples };

    fn total(&self) -> usize {
        self.samples.total()
    }

    fn sample(&self, i: usize) -> Option<u16> {
        self.samples.sample(i)
    }
}

impl<M: Sample, S: SamplesOf<M>> SamplesOf<M> for Named<'_, S> {}

#[test]
fn samples_may_lie_beside_other_bytes(rt: HostRuntime) {
    let picture = [7u8, 255, 0];
    let named = Named {
        samples: &picture,
        name: b"plate",
    };
    assert_eq!(rt; named.as_slice().len(), 5);
    assert_eq!(rt; first_and_last(&Plain::fitting(named, 200u8)), Some((7, 0)));
}

// The name is no sample of the picture, and in `BytesOf` its bytes are the samples.
#[test]
fn the_bytes_that_are_lent_may_be_the_samples(rt: HostRuntime) {
    let named = Named {
        samples: &[7u8, 255, 0],
        name: b"plate",
    };
    let carrier = Plain::over(BytesOf(named), 200u8);
    assert_eq!(rt; carrier.count(), 5);
    assert_eq!(rt; first_and_last(&carrier), Some((112, 101)));
}
