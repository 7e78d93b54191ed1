// Energies and the gains between them: energy_new, Inv_sqrt, agc2 and agc of TS 26.073.
#![tactic(auto)]

mod control;
mod gain;
mod root;
mod sum;

// What other crates call.
pub use control::{control_gain, process};
pub use gain::match_energy;
pub use root::inverse_sqrt;
pub use sum::{energy, squares};

/// The smoothed gain (Q12), carried from subframe to subframe.
#[derive(Clone, Copy, Default)]
pub struct GainControl {
    pub previous_gain: i16,
}

/// The samples, and the gain control after them.
#[derive(Drop)]
pub struct Controlled {
    pub samples: [i16; 40],
    pub control: GainControl,
}
