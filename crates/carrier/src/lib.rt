// Carriers: rows of places over a picture, whose samples stay where they are.
#![tactic(auto)]

mod interface;
mod lent;
mod plain;
mod samples;

pub use interface::{Carrier, CarrierMut, Pass, Place, Places, may_put};
pub use plain::{Plain, used};
pub use samples::{ByteSamples, BytesOf, Sample, Samples, SamplesMut, SamplesOf};

#[cfg(test)]
mod tests;
