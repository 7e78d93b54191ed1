// The definitions computed, and the top theorems applied, to concrete calls, states and records; nothing runs. Each statement is named by a contract.
#![tactic(auto)]

mod frames;
mod outputs;
mod stages;

pub use frames::{
    accepted_calls, call_lists, computed_call, erased_frames, held_frames, index_frames, promises,
    refused_frames,
};
pub use outputs::{handovers, line_peaks, listings, record_orders, refused_bytes, reports};
pub use stages::{gain_indices, starred_values, syntheses, tilts};
