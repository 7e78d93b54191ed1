// Refusals: what turns a call back, with its number and its place.
#![tactic(auto)]

ghost use Rattle.std.specs.Prelude.{◌≡◌, not, pos, length};
ghost use Rattle.outcome.specs.Outcome.{refusal_number, refusal_place, number_of, place_of};
ghost use Rattle.outcome.specs.Checks.{within, apart, found, first_outside, first_close, first_met, room_check};

use std::iter::once;

/// What turns a call back (docs/BENCH.md, "Refusals"), with its number. A place goes with 2, 3, 4, 6, 7, 8, 18 and 19.
#[derive(Clone, Copy, Debug, PartialEq, Eq)]
pub enum Refusal {
    // 1
    SheetLength,
    // 2
    Lsf(usize),
    // 3
    PitchIndex(usize),
    // 4
    Gain(usize),
    // 5
    OutputLength,
    // 6
    LsfGap(usize),
    // 7
    Table(usize),
    // 8
    GainIndex(usize),
    // 9
    Stage,
    // 11
    RecordShort,
    // 12
    Tag,
    // 13
    Version,
    // 14
    Layout,
    // 15
    BodyShort,
    // 16
    Sharpening,
    // 17
    SmoothedGain,
    // 18: the place is a field of the state
    GainField(usize),
    // 19: always field 197
    LastLag,
}

/// What a call comes to: it is accepted, or a check turns it back.
pub type Outcome = Result<(), Refusal>;

impl Refusal {
    /// The refusal's number.
    pub fn number(self) -> u64
        ensures { result ≡ refusal_number self }
    {
        match self {
            Refusal::SheetLength => 1,
            Refusal::Lsf(_) => 2,
            Refusal::PitchIndex(_) => 3,
            Refusal::Gain(_) => 4,
            Refusal::OutputLength => 5,
            Refusal::LsfGap(_) => 6,
            Refusal::Table(_) => 7,
            Refusal::GainIndex(_) => 8,
            Refusal::Stage => 9,
            Refusal::RecordShort => 11,
            Refusal::Tag => 12,
            Refusal::Version => 13,
            Refusal::Layout => 14,
            Refusal::BodyShort => 15,
            Refusal::Sharpening => 16,
            Refusal::SmoothedGain => 17,
            Refusal::GainField(_) => 18,
            Refusal::LastLag => 19,
        }
    }

    /// Where the refusal lies; 0 with those that have no place.
    pub fn place(self) -> usize
        ensures { result ≡ refusal_place self }
    {
        match self {
            Refusal::Lsf(place)
            | Refusal::PitchIndex(place)
            | Refusal::Gain(place)
            | Refusal::LsfGap(place)
            | Refusal::Table(place)
            | Refusal::GainIndex(place)
            | Refusal::GainField(place) => place,
            Refusal::LastLag => 197,
            _ => 0,
        }
    }
}

/// The refusal's number, 0 where the call is accepted.
pub fn number(outcome: Outcome) -> u64
    ensures { result ≡ number_of outcome }
{
    outcome.err().map_or(0, Refusal::number)
}

/// The refusal's place, 0 where the call is accepted.
pub fn place(outcome: Outcome) -> usize
    ensures { result ≡ place_of outcome }
{
    outcome.err().map_or(0, Refusal::place)
}

/// The samples of a frame: what the lent output has room for.
pub const SAMPLES: usize = 160;

/// Refusal 5: the lent output has not room for the samples of a frame.
#[tactic(auto, unfolding(crate::specs::Checks::first_met))]
pub fn check_room(room: usize) -> Outcome
    ensures { result ≡ first_met (room_check room) }
{
    let other_room = room != SAMPLES;
    if other_room {
        return Err(Refusal::OutputLength);
    }
    Ok(())
}

// Whether a number lies outside 0..=limit.
fn is_outside(limit: i16, number: i16) -> bool
    ensures { result ≡ not (within limit number) }
{
    !(0..=limit).contains(&number)
}

/// The place of the first number outside 0..=its limit.
pub fn first_outside(numbers: &[i16], limits: &[i16]) -> Option<usize>
    requires { length numbers.now ≡ length limits.now }
    ensures { result ≡ found (first_outside numbers.now limits.now) (length numbers.now) }
{
    numbers
        .iter()
        .zip(limits)
        .position(|(number, limit)| is_outside(*limit, *number))
}

// Whether a number lies less than `gap` above the one before it.
fn is_close(gap: i32, before: i16, number: i16) -> bool
    ensures { result ≡ not (apart gap before number) }
{
    i32::from(number) - i32::from(before) < gap
}

/// The place of the first number less than `gap` above the one before it; before the first stands 0.
pub fn first_close(gap: i32, numbers: &[i16]) -> Option<usize>
    ensures { result ≡ found (first_close gap (pos 0) numbers.now) (length numbers.now) }
{
    once(0)
        .chain(numbers.iter().copied())
        .zip(numbers.iter().copied())
        .position(|(before, number)| is_close(gap, before, number))
}
