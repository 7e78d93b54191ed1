// The core of a frame: everything up to the synthesis samples.
#![tactic(auto)]

ghost use Rattle.std.specs.Prelude.{◌≤◌};
ghost use Rattle.spectral.specs.Lsp.{Frequencies};
ghost use Rattle.spectral.proofs.Frequencies.{frequencies_prop};

mod enhancement;
mod frame;
mod laws;
mod subframe;

use basicop::{Gains, Q13, Q14};
pub use frame::decode;
pub use laws::retries;
use lpc::Rows;
use pitch::PitchLag;

// The core's part of the state: fields 0 to 174 of the record, in its order.
#[derive(Clone, Copy, Default)]
pub struct Core {
    // previous LSP (Q15)
    pub lsp: [i16; 10],
    // past excitation, oldest first
    pub past: [i16; 154],
    pub sharpening: Q14,
    // synthesis history
    pub history: [i16; 10],
}

// What a subframe is decoded from. The checks of a call show that the lag lies in 19..=144.
#[derive(Clone, Copy)]
pub struct Parameters {
    pub lag: PitchLag,
    pub gains: Gains,
    pub innovation: Q13,
    pub ghost lawful: { (19 ≤ lag.samples) × (lag.samples ≤ 144) },
}

// What a frame is decoded from: ten LSFs, each in 0..=16384, and four subframes.
#[derive(Drop)]
pub struct Inputs {
    pub lsfs: [i16; 10],
    pub ghost frequencies: { Frequencies lsfs } by { frequencies_prop lsfs },
    pub a: Parameters,
    pub b: Parameters,
    pub c: Parameters,
    pub d: Parameters,
}

// What comes of a subframe's synthesis.
#[derive(Drop)]
pub struct SynthesisOutput {
    // the first sample of the first pass at which a step clamped, 40 where none did
    pub place: usize,
    pub samples: [i16; 40],
    pub feedback: [i16; 40],
    pub past: [i16; 154],
}

// The feedback before any quartering, and the first excitation.
#[derive(Drop)]
pub struct Excitations {
    pub feedback: [i16; 40],
    pub excitation: [i16; 40],
}

// What a subframe gives, and the core's state after it.
#[derive(Drop)]
pub struct SubframeOutput {
    pub place: usize,
    pub samples: [i16; 40],
    pub next: Core,
}

// The rows of a frame, what its subframes give together, and the core's state after it.
#[derive(Drop)]
pub struct CoreOutput {
    pub rows: Rows,
    pub places: [usize; 4],
    pub samples: [i16; 160],
    pub next: Core,
}
