// The adaptive codebook: Pred_lt_3or6 of TS 26.073, in thirds.
#![tactic(auto)]

ghost use Rattle.std.specs.Prelude.{◌≡◌, true, ◌+◌, ◌<◌, ◌≤◌, pos};
ghost use Rattle.pitch.specs.Lag.{lag_of};
ghost use Rattle.adaptive.specs.Predict.{interpolated, extended, predicted};
ghost use Rattle.adaptive.specs.Inner.{left_of, right_of, Light, large, quiet, Quiet};

mod phases;

use phases::{all_taps, phase_of, start_of};
use pitch::PitchLag;

// Outside -16384..=16383.
fn large(x: i16) -> bool
    ensures { result ≡ large x }
{
    !(-16384..=16383).contains(&x)
}

// No number of the history is large.
fn quiet(history: [i16; 154]) -> bool
    ensures { result ≡ quiet history }
{
    history.iter().fold(true, |none, x| none & !large(*x))
}

// One sample: the ten of `x` at `first` and before it by the left taps, the ten after it by the right ones.
// Where none of them is large no step can clamp (`plain`).
fn sample(x: &[i16; 194], first: usize, taps: &[i16; 20], plain: bool) -> i16
    requires places { (9 ≤ first) × (first + 10 < 194) }
    requires quiet { Light taps.now × (plain ≡ true → Quiet (first + 11) x.now) }
    ensures { result ≡ interpolated x.now (pos first) (left_of taps.now) (right_of taps.now) }
{
    let mut sum = 0;
    for i in 0..10 {
        sum = basicop::mac(sum, x[first - i], taps[9 - i], plain);
        sum = basicop::mac(sum, x[first + 1 + i], taps[10 + i], plain);
    }
    basicop::round(sum)
}

// The history, with the forty samples after it.
fn extended(history: [i16; 154], lag: PitchLag) -> [i16; 194]
    requires { (19 ≤ lag.samples) × (lag.samples ≤ 144) }
    ensures { result ≡ extended history (lag_of lag) }
{
    let rows = all_taps();
    let taps = &rows[phase_of(lag) / 2];
    let start = start_of(lag);
    let mut buffer: [i16; 194] = copy::padded(&history);
    let mut plain = quiet(history);
    for n in 0..40 {
        let y = sample(&buffer, start + n, taps, plain);
        buffer[154 + n] = y;
        plain = plain & !large(y);
    }
    buffer
}

/// The forty samples. The caller shows that the lag lies in 19..=144, as every lag does: `absolute_lawful` and `relative_lawful` of pitch.
pub fn predict(history: [i16; 154], lag: PitchLag) -> [i16; 40]
    requires { (19 ≤ lag.samples) × (lag.samples ≤ 144) }
    ensures { result ≡ predicted history (lag_of lag) }
{
    copy::stretch(&extended(history, lag), 154)
}
