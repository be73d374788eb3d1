// Where the samples of a picture lie, and how wide they are.
ghost use Rattle.std.specs.Prelude.{◌≡◌, ℕ, ◌<◌, ◌≤◌, List, [], ◌∷◌, length, MatchOption, slice_index};
ghost use Rattle.carrier.specs.Storing.{Stored};

use std::alloc::Allocator;
use std::borrow::CowSlice;
use std::boxed::BoxedSlice;
use std::convert::AsSlice;
use std::rc::RcSlice;
use std::sync::ArcSlice;

// The type of a sample: a number that is at most `widest`. `Into<u16>` would not do: of it no greatest value follows.
pub trait Sample: Copy {
    ghost value: { Self → ℕ };

    ghost widest: { ℕ };

    fn widen(self) -> u16
        ensures value { result ≡ value self }
        ensures fits { result ≤ widest };
}

impl Sample for u8 {
    ghost value = { λ s. s };

    ghost widest = { 255 };

    fn widen(self) -> u16 {
        u16::from(self)
    }
}

impl Sample for u16 {
    ghost value = { λ s. s };

    ghost widest = { 65535 };

    fn widen(self) -> u16 {
        self
    }
}

// The samples of a picture, in the order of the file.
pub trait Samples {
    ghost values: { Self → List ℕ };

    fn total(&self) -> usize
        ensures { result ≡ length (values self.now) };

    fn sample(&self, i: usize) -> Option<u16>
        ensures { MatchOption result (length (values self.now) ≤ i) (λ v. (i < length (values self.now)) × (v ≡ slice_index (values self.now) i)) };
}

// Samples that are of type `M` each, as an impl says. So a maximum of that type is one that a sample can be.
pub trait SamplesOf<M: Sample>: Samples {}

// Samples that can be changed, each of type `M`.
pub trait SamplesMut<M: Sample>: Samples {
    // The memory that they borrow, by the ghost names of its references.
    ghost lent: { Self → List ℕ };

    // Makes `v` sample `i`. False, and nothing changed, where there is no such sample or it cannot hold `v`. It is a
    // `bool`, as of a set's `insert`: there is no value beside it, and no caller asks which of the two it was.
    fn store(&mut self, i: usize, v: i32) -> bool
        ensures stored { Stored M.widest i v (Self.Samples.values self.old) (Self.Samples.values self.new) result }
        ensures lent { lent self.new ≡ lent self.old };
}

// What holds samples of one byte each, and lends them as a slice. A type says so by an impl of this trait. One that does
// not may lend its bytes all the same, and have `Samples` of its own.
pub trait ByteSamples: AsSlice<u8> {}

impl ByteSamples for &[u8] {}

impl ByteSamples for &mut [u8] {}

impl<const N: usize> ByteSamples for [u8; N] {}

impl<A: Allocator> ByteSamples for Vec<u8, A> {}

impl<A: Allocator> ByteSamples for BoxedSlice<u8, A> {}

impl<A: Allocator> ByteSamples for RcSlice<u8, A> {}

impl<A: Allocator> ByteSamples for ArcSlice<u8, A> {}

impl<A: Allocator> ByteSamples for CowSlice<'_, u8, A> {}

impl ByteSamples for &str {}

impl<A: Allocator> ByteSamples for String<A> {}

impl<S: ByteSamples> ByteSamples for &S {}

// The bytes that `S` lends, as samples, whatever else it is: a type of another crate, or one with `Samples` of its own.
#[derive(Drop)]
pub struct BytesOf<S>(pub S);

impl<S: AsSlice<u8>> AsSlice<u8> for BytesOf<S> {
    ghost items = { λ b. S.items b.0 };

    fn as_slice(&self) -> &[u8] {
        self.0.as_slice()
    }
}

impl<S: AsSlice<u8>> ByteSamples for BytesOf<S> {}

// One byte a sample.
impl<S: ByteSamples> Samples for S {
    ghost values = { S.AsSlice.items };

    fn total(&self) -> usize {
        self.as_slice().len()
    }

    fn sample(&self, i: usize) -> Option<u16> {
        self.as_slice().get(i).copied().map(u16::from)
    }
}

impl<S: ByteSamples> SamplesOf<u8> for S {}

// In memory that can be written.
impl SamplesMut<u8> for &mut [u8] {
    ghost lent = { λ s. s.ghost_name ∷ [] };

    fn store(&mut self, i: usize, v: i32) -> bool {
        let Ok(v) = u8::try_from(v) else {
            return false;
        };
        if i >= (*self).len() {
            return false;
        }
        // not by `get_mut`: of a slice whose element was lent a proof knows the length, and no element
        (*self)[i] = v;
        true
    }
}
