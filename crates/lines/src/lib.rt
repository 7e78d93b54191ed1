//! The bench program's lines: decimal numbers, peak, mark, and each line as bytes.
#![tactic(auto)]

ghost use Rattle.std.specs.Prelude.{◌≡◌};
ghost use Rattle.lines.specs.Lines.{frame_line, refused_line, cut_line, state_line};

mod fields;
mod marks;

pub use fields::{LINE_ROOM, Line, Text};
pub use marks::{mark, peak};

/// An accepted sheet: its number, four flags, peak and mark.
pub fn frame_line(number: u64, flags: [bool; 4], peak: u16) -> Line
    ensures { result ≡ frame_line number flags peak }
{
    let mut line = Line::new();
    line.push_decimal(number);
    line.push(b' ');
    line.push_flags(flags);
    line.push(b' ');
    line.push_decimal(u64::from(peak));
    line.push(b' ');
    line.push(mark(peak, flags));
    line.push(b'\n');
    line
}

/// A refused sheet: its number, `refused`, refusal and place.
#[tactic(auto, unfolding(crate::specs::Lines::refused_line))]
pub fn refused_line(number: u64, refusal: u64, place: usize) -> Line
    ensures { result ≡ refused_line number refusal place }
{
    let mut line = Line::new();
    line.push_decimal(number);
    line.extend_from_slice(b" refused ");
    line.push_decimal(refusal);
    line.push(b' ');
    line.push_decimal(place as u64);
    line.push(b'\n');
    line
}

/// A short last sheet: its number and `cut`.
#[tactic(auto, unfolding(crate::specs::Lines::cut_line))]
pub fn cut_line(number: u64) -> Line
    ensures { result ≡ cut_line number }
{
    let mut line = Line::new();
    line.push_decimal(number);
    line.extend_from_slice(b" cut\n");
    line
}

/// A refused record: `state refused` and the refusal.
#[tactic(auto, unfolding(crate::specs::Lines::state_line))]
pub fn state_line(refusal: u64) -> Line
    ensures { result ≡ state_line refusal }
{
    let mut line = Line::new();
    line.extend_from_slice(b"state refused ");
    line.push_decimal(refusal);
    line.push(b'\n');
    line
}
