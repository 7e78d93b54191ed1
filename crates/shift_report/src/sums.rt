//! The totals of one call, and of two lists of calls together.
ghost use Rattle.std.specs.Prelude.{◌≡◌, ◌+◌, []};
ghost use Rattle.shift_report.specs.Totals.{retried_in, square, square_sum, totals_of};
ghost use Rattle.shift_report.specs.Steps.{plus, sheets_counted, Bounded};
ghost use Rattle.shift_report.specs.Serving.{CountsCall, FitTogether};

use crate::Totals;
use mr74::SAMPLES;
use outcome::Outcome;

/// The totals of no sheet.
pub fn zeros() -> Totals
    ensures { result ≡ totals_of [] }
{
    Totals::default()
}

// How many of the four subframes were retried.
fn retried(places: [usize; 4]) -> u64
    ensures { result ≡ retried_in places }
{
    let flags = mr74::flags(places);
    flags.iter().filter(|flag| **flag).count() as u64
}

fn square(x: i16) -> u64
    ensures { result ≡ square x }
{
    let distance = u64::from(x.unsigned_abs());
    distance * distance
}

fn square_sum(samples: [i16; SAMPLES]) -> u64
    ensures { result ≡ square_sum samples }
{
    samples.iter().map(|x| square(*x)).sum()
}

/// The totals of one call: an accepted one brings all its numbers, a refused one is counted alone.
pub fn count_call(outcome: Outcome, places: [usize; 4], samples: [i16; SAMPLES]) -> Totals
    ensures call { CountsCall outcome places samples result }
    ensures bounded { Bounded result }
    ensures counted { sheets_counted result ≡ 1 }
{
    match outcome {
        Ok(()) => Totals {
            accepted: 1,
            refused: 0,
            retried: retried(places),
            squares: square_sum(samples),
            peaks: u64::from(lines::peak(samples)),
        },
        Err(_) => Totals {
            refused: 1,
            ..zeros()
        },
    }
}

/// The totals of two lists of calls together.
#[tactic(auto, unfolding(crate::specs::Steps::plus))]
pub fn add(a: Totals, b: Totals) -> Totals
    requires { FitTogether a b }
    ensures sum { result ≡ plus a b }
    ensures bounded { Bounded result }
    ensures counted { sheets_counted result ≡ sheets_counted a + sheets_counted b }
{
    Totals {
        accepted: a.accepted + b.accepted,
        refused: a.refused + b.refused,
        retried: a.retried + b.retried,
        squares: a.squares + b.squares,
        peaks: a.peaks + b.peaks,
    }
}
