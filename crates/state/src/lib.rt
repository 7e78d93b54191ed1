// The state that is carried between frames, and what turns it back.
#![tactic(auto)]

ghost use Rattle.std.specs.Prelude.{◌≡◌, ◌↔◌, IsOk};
ghost use Rattle.outcome.specs.Checks.{first_met};
ghost use Rattle.state.specs.State.{WellFormed, InRange, signal_checks, mark_checks, lag_checks, state_checks};

mod layout;

use decoder::Core;
use gain_concealment::GainConcealment;
use layout::{CONCEALMENT_NUMBERS, concealment_numbers};
pub use layout::{
    CORE_NUMBERS, HISTORY, LSP, PAST, POST_NUMBERS, numbers_of, post_numbers, post_of, state_of,
};
use outcome::{Outcome, Refusal};
use postfilter::Postfilter;

/// What erased frames go by: fields 197 to 212 of the record, in its order.
#[derive(Clone, Copy)]
pub struct Concealment {
    // the last lag, in whole samples
    pub last_lag: i16,
    pub gains: GainConcealment,
    // 1 after an erased frame, 0 after a good one
    pub erased: i16,
}

/// In the record's order: the core's numbers (fields 0 to 174), the postfilter's (175 to 196) and the concealment's (197 to 212).
#[derive(Clone, Copy)]
pub struct State {
    pub core: Core,
    pub post: Postfilter,
    pub concealment: Concealment,
}

/// How many numbers core and postfilter have, and a state.
pub const SIGNAL_NUMBERS: usize = CORE_NUMBERS + POST_NUMBERS;

pub const NUMBERS: usize = SIGNAL_NUMBERS + CONCEALMENT_NUMBERS;

// The field from which on 18 is tested, and how many are: the gains and the mark.
const FIRST_GAIN: usize = 198;

const FIELDS: usize = CONCEALMENT_NUMBERS - 1;

/// A state of the code is well-formed: each of its numbers has 16 bits.
pub fn formed(state: State)
    ensures { WellFormed state }
{}

// 16 and 17: sharpening and smoothed gain.
fn check_signal(state: State) -> Outcome
    ensures { result ≡ first_met (signal_checks state) }
{
    let sharpening = state.core.sharpening.0;
    let low = sharpening < 0;
    let high = 13017 < sharpening;
    if low || high {
        return Err(Refusal::Sharpening);
    }
    let below = state.post.gain.previous_gain < 0;
    if below {
        return Err(Refusal::SmoothedGain);
    }
    Ok(())
}

// 18: a negative gain, or an erased mark other than 0 or 1. A gain has no upper limit: each is its own.
fn check_mark(concealment: Concealment) -> Outcome
    ensures { result ≡ first_met (mark_checks concealment) }
{
    let numbers = concealment_numbers(concealment);
    let fields: &[i16; FIELDS] = copy::window(&numbers, 1);
    let mut limits = *fields;
    limits[FIELDS - 1] = 1;
    if let Some(place) = outcome::first_outside(fields, &limits) {
        return Err(Refusal::GainField(FIRST_GAIN + place));
    }
    Ok(())
}

// 19: the last lag outside 19..=144.
fn check_lag(concealment: Concealment) -> Outcome
    ensures { result ≡ first_met (lag_checks concealment) }
{
    let low = concealment.last_lag < 19;
    let high = 144 < concealment.last_lag;
    if low || high {
        return Err(Refusal::LastLag);
    }
    Ok(())
}

/// 16 to 19, which frame calls, reader and writer share.
pub fn check_state(state: State) -> Outcome
    ensures value { result ≡ first_met (state_checks state) }
    ensures accepted { IsOk result ↔ InRange state }
{
    check_signal(state)?;
    check_mark(state.concealment)?;
    check_lag(state.concealment)
}
