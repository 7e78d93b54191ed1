// The synthesis filter: Syn_filt of TS 26.073. A first pass in whole numbers, which ends where one leaves 32 bits, and the pass by clamped steps.
#![tactic(auto)]

mod buffer;
mod clamped;
mod laws;
mod row;
mod whole;

pub use buffer::newest;
pub use clamped::{filter, first_samples};
pub use laws::agreement;
pub use row::Row;
pub use whole::preview;

/// What the first pass gives: the samples before `place`, the first at which a step leaves 32 bits, and zeros from there on;
/// all forty where none does and the place is 40.
#[derive(Drop)]
pub struct Output {
    pub samples: [i16; 40],
    pub place: usize,
}

/// Forty samples, and the last ten of them.
#[derive(Drop)]
pub struct Filtered {
    pub samples: [i16; 40],
    pub history: [i16; 10],
}
