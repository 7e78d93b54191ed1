// A state as 213 numbers, in the record's order, as specs/Layout.antt lays them out; and the state of them.
ghost use Rattle.std.specs.Prelude.{◌≡◌, ◌+◌, ◌≤◌, take, drop};
ghost use Rattle.state.specs.Layout.{core_numbers, core_of, post_numbers, post_of, pair_from, concealment_numbers, concealment_of, numbers_of, state_of};
ghost use Rattle.state.specs.State.{Fields};

use super::{Concealment, NUMBERS, SIGNAL_NUMBERS, State, formed};
use basicop::{Gains, Q1, Q14};
use decoder::Core;
use energy::GainControl;
use gain_concealment::GainConcealment;
use postfilter::Postfilter;

/// How many numbers the parts have.
pub const LSP: usize = 10;

pub const PAST: usize = 154;

pub const HISTORY: usize = 10;

pub const CORE_NUMBERS: usize = LSP + PAST + 1 + HISTORY;

pub const POST_NUMBERS: usize = HISTORY + HISTORY + 1 + 1;

const FIVE: usize = 5;

const PAIR: usize = 2;

// Where the pairs and the mark stand in a concealment's numbers.
const PAIRS: usize = 1 + FIVE + FIVE;

const MARK: usize = PAIRS + PAIR + PAIR;

pub const CONCEALMENT_NUMBERS: usize = MARK + 1;

// Fields 0 to 174.
fn core_numbers(core: Core) -> [i16; CORE_NUMBERS]
    ensures { result ≡ core_numbers core }
{
    let mut numbers = [0; CORE_NUMBERS];
    let (lsp, rest) = numbers.split_at_mut(LSP);
    let (past, rest) = rest.split_at_mut(PAST);
    let (sharpening, history) = rest.split_at_mut(1);
    lsp.copy_from_slice(&core.lsp);
    past.copy_from_slice(&core.past);
    sharpening.copy_from_slice(&[core.sharpening.0]);
    history.copy_from_slice(&core.history);
    numbers
}

fn core_of(numbers: &[i16; CORE_NUMBERS]) -> Core
    ensures { result ≡ core_of numbers.now }
{
    Core {
        lsp: copy::stretch(numbers, 0),
        past: copy::stretch(numbers, LSP),
        sharpening: Q14(numbers[LSP + PAST]),
        history: copy::stretch(numbers, LSP + PAST + 1),
    }
}

/// The postfilter's memory, fields 175 to 196.
pub fn post_numbers(post: Postfilter) -> [i16; POST_NUMBERS]
    ensures { result ≡ post_numbers post }
{
    let mut numbers = [0; POST_NUMBERS];
    let (input, rest) = numbers.split_at_mut(HISTORY);
    let (synthesis, rest) = rest.split_at_mut(HISTORY);
    input.copy_from_slice(&post.input_history);
    synthesis.copy_from_slice(&post.synthesis_history);
    rest.copy_from_slice(&[post.previous_residual, post.gain.previous_gain]);
    numbers
}

/// The postfilter's memory of its numbers.
pub fn post_of(numbers: &[i16; POST_NUMBERS]) -> Postfilter
    ensures { result ≡ post_of numbers.now }
{
    Postfilter {
        input_history: copy::stretch(numbers, 0),
        synthesis_history: copy::stretch(numbers, HISTORY),
        previous_residual: numbers[HISTORY + HISTORY],
        gain: GainControl {
            previous_gain: numbers[HISTORY + HISTORY + 1],
        },
    }
}

/// Fields 197 to 212.
pub fn concealment_numbers(concealment: Concealment) -> [i16; CONCEALMENT_NUMBERS]
    ensures { result ≡ concealment_numbers concealment }
{
    let [a, b, c, d, e] = concealment.gains.pitch_history;
    let [p, q, r, s, t] = concealment.gains.code_history;
    let past = concealment.gains.past;
    let good = concealment.gains.last_good;
    [
        concealment.last_lag,
        a,
        b,
        c,
        d,
        e,
        p,
        q,
        r,
        s,
        t,
        past.pitch.0,
        past.code.0,
        good.pitch.0,
        good.code.0,
        concealment.erased,
    ]
}

// The pair of gains that begins there, pitch first.
fn pair_at(numbers: &[i16; CONCEALMENT_NUMBERS], from: usize) -> Gains
    requires { from + 2 ≤ 16 }
    ensures { result ≡ pair_from (take 2 (drop from numbers.now)) }
{
    let [pitch, code]: [i16; PAIR] = copy::stretch(numbers, from);
    Gains {
        pitch: Q14(pitch),
        code: Q1(code),
    }
}

fn concealment_of(numbers: &[i16; CONCEALMENT_NUMBERS]) -> Concealment
    ensures { result ≡ concealment_of numbers.now }
{
    let gains = GainConcealment {
        pitch_history: copy::stretch(numbers, 1),
        code_history: copy::stretch(numbers, 1 + FIVE),
        past: pair_at(numbers, PAIRS),
        last_good: pair_at(numbers, PAIRS + PAIR),
    };
    Concealment {
        last_lag: numbers[0],
        gains,
        erased: numbers[MARK],
    }
}

/// The numbers of a state.
pub fn numbers_of(state: State) -> [i16; NUMBERS]
    ensures value { result ≡ numbers_of state }
    ensures fields { Fields state }
    ensures back { state_of result ≡ state }
{
    formed(state);
    let mut numbers = [0; NUMBERS];
    let (core, rest) = numbers.split_at_mut(CORE_NUMBERS);
    let (post, concealment) = rest.split_at_mut(POST_NUMBERS);
    core.copy_from_slice(&core_numbers(state.core));
    post.copy_from_slice(&post_numbers(state.post));
    concealment.copy_from_slice(&concealment_numbers(state.concealment));
    numbers
}

/// The state of 213 numbers.
pub fn state_of(numbers: &[i16; NUMBERS]) -> State
    ensures value { result ≡ state_of numbers.now }
    ensures back { numbers_of result ≡ numbers.now }
{
    State {
        core: core_of(copy::window(numbers, 0)),
        post: post_of(copy::window(numbers, CORE_NUMBERS)),
        concealment: concealment_of(copy::window(numbers, SIGNAL_NUMBERS)),
    }
}
