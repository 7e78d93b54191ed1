//! The report's line.
ghost use Rattle.std.specs.Prelude.{◌≡◌, ◌<◌, ◌≤◌, ◌+◌, length, ◌++◌, []};
ghost use Rattle.lines.specs.Lines.{decimal, field};
ghost use Rattle.shift_report.specs.Report.{mean_of, mean_field, report_line};

use crate::Totals;
use lines::{Line, Text};

/// The mean of so many numbers by their sum, rounded down.
#[tactic(auto, unfolding(crate::specs::Report::mean_of))]
pub fn mean(sum: u64, count: u64) -> u64
    requires { 0 < count }
    ensures { result ≡ mean_of sum count }
{
    sum / count
}

// The mean of so many peaks, or `none`.
#[tactic(auto, using(crate::proofs::Lines::mean_none, crate::proofs::Lines::mean_some))]
fn push_mean<const ROOM: usize>(line: &mut Text<ROOM>, sum: u64, count: u64)
    requires { length line.old + 21 ≤ ROOM }
    ensures line { line.new ≡ line.old ++ mean_field sum count }
    ensures within { length line.new ≤ length line.old + 21 }
{
    let none = count == 0;
    if none {
        line.extend_from_slice(b"none");
        return;
    }
    line.push_decimal(mean(sum, count));
}

// A number and a space after it.
fn push_field<const ROOM: usize>(line: &mut Text<ROOM>, n: u64)
    requires { length line.old + 21 ≤ ROOM }
    ensures line { line.new ≡ line.old ++ field (decimal n) [] }
    ensures within { length line.new ≤ length line.old + 21 }
{
    line.push_decimal(n);
    line.push(b' ');
}

/// Accepted sheets, refused sheets, retried subframes, sum of squares, mean peak.
pub fn report_line(totals: Totals) -> Line
    ensures { result ≡ report_line totals }
{
    let Totals {
        accepted,
        refused,
        retried,
        squares,
        peaks,
    } = totals;
    let mut line = Line::new();
    push_field(&mut line, accepted);
    push_field(&mut line, refused);
    push_field(&mut line, retried);
    push_field(&mut line, squares);
    push_mean(&mut line, peaks, accepted);
    line.push(b'\n');
    line
}
