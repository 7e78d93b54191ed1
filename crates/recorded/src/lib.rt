// Records of recorded answers: their words, read one after another, and what a call gives compared with them.
#![tactic(auto)]

mod calls;
mod compare;
mod words;

pub use calls::{
    Frame, Refused, energies_agree, energies_refusal_agrees, frame_agrees, gains_refusal_agrees,
    refusal_agrees,
};
pub use compare::{cut_refused, is_whole, outcome_agrees, rows_same, state_same};
pub use words::Reader;
