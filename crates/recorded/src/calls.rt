// What the calls give, compared with their records: of an accepted frame, of a refused one, of refused gains.
ghost use Rattle.std.specs.Prelude.{◌≡◌, ◌↔◌, ◌∷◌, [], IsTrue, pos, take, drop};
ghost use Rattle.lpc.specs.Rows.{row_list};
ghost use Rattle.coding.specs.Bytes.{words};
ghost use Rattle.recorded.specs.Words.{Reads};
ghost use Rattle.recorded.specs.Compare.{IsTold, IsGiven, IsFrame, IsUntouched};

use super::compare::{numbers_same, outcome_agrees, places_same, rows_same, state_same};
use super::words::Reader;
use coding::BODY_BYTES;
use lpc::Rows;
use outcome::Outcome;
use state::State;

/// What an accepted frame call gives, its samples among it.
#[derive(Drop)]
pub struct Frame {
    pub outcome: Outcome,
    pub samples: [i16; 160],
    pub places: [usize; 4],
    pub rows: Rows,
    pub next: State,
}

/// What a refused frame call gives, and what was lent to it, 0x5555 in each sample before the call.
#[derive(Drop)]
pub struct Refused {
    pub outcome: Outcome,
    pub places: [usize; 4],
    pub rows: Rows,
    pub next: State,
    pub lent: [i16; 200],
}

const NO_ROWS: Rows = Rows {
    a: [0; 11],
    b: [0; 11],
    c: [0; 11],
    d: [0; 11],
};

// Whether an accepted frame call gave these.
fn is_given(samples: &[i16], places: &[usize], rows: Rows, next: &[u8], frame: &Frame) -> bool
    ensures { IsTrue result ↔ IsGiven samples.now places.now (row_list rows) next.now frame.now }
{
    frame.outcome.is_ok()
        && numbers_same(samples, &frame.samples)
        && places_same(places, &frame.places)
        && rows_same(rows, frame.rows)
        && state_same(next, frame.next)
}

/// Samples, places, rows and next state of an accepted frame call.
pub fn frame_agrees(reader: &mut Reader, frame: &Frame) -> Option<bool>
    ensures { Reads 842 (λ agrees. IsTrue agrees ↔ IsFrame reader.old frame.now) reader.old reader.new result }
{
    let samples: [i16; 160] = reader.numbers()?;
    let places = reader.places()?;
    let rows = reader.rows()?;
    let next = reader.array::<BODY_BYTES>()?;
    Some(is_given(&samples, &places, rows, next, frame))
}

/// The same, and the energies after it.
pub fn energies_agree(reader: &mut Reader, frame: &Frame, energies: [i16; 4]) -> Option<bool>
    ensures { Reads 850 (λ agrees. IsTrue agrees ↔ IsFrame reader.old frame.now × (words (take 8 (drop 842 reader.old)) ≡ energies))
        reader.old reader.new result }
{
    let agrees = frame_agrees(reader, frame)?;
    let after: [i16; 4] = reader.numbers()?;
    let same = numbers_same(&after, &energies);
    Some(agrees && same)
}

// Whether a refused frame call gave rows of zeros, places 40 and the state as it came, and left the lent output as it was.
fn is_untouched(refused: &Refused, before: &[u8]) -> bool
    ensures { IsTrue result ↔ IsUntouched refused.now before.now }
{
    places_same(&refused.places, &[40; 4])
        && rows_same(NO_ROWS, refused.rows)
        && state_same(before, refused.next)
        && numbers_same(&refused.lent, &[0x5555; 200])
}

/// A refused frame call names the recorded number and place, gives rows of zeros, places 40 and the state as it came, and leaves the lent
/// output as it was.
pub fn refusal_agrees(reader: &mut Reader, refused: &Refused, before: &[u8]) -> Option<bool>
    ensures { Reads 4 (λ agrees. IsTrue agrees ↔ IsTold reader.old refused.now.outcome × IsUntouched refused.now before.now)
        reader.old reader.new result }
{
    let told = outcome_agrees(reader, refused.outcome)?;
    Some(told && is_untouched(refused, before))
}

/// The same, and the energies as they came.
pub fn energies_refusal_agrees(
    reader: &mut Reader,
    refused: &Refused,
    before: &[u8],
    given: [i16; 4],
    taken: [i16; 4],
) -> Option<bool>
    ensures { Reads 4 (λ agrees. IsTrue agrees ↔ IsTold reader.old refused.now.outcome × IsUntouched refused.now before.now × (given ≡ taken))
        reader.old reader.new result }
{
    let agrees = refusal_agrees(reader, refused, before)?;
    let kept = numbers_same(&given, &taken);
    Some(agrees && kept)
}

/// Refused gains have the recorded number and place, and are 0 and 0, with the energies as they came.
pub fn gains_refusal_agrees(
    reader: &mut Reader,
    outcome: Outcome,
    gains: [i16; 2],
    given: [i16; 4],
    taken: [i16; 4],
) -> Option<bool>
    ensures { Reads 4 (λ agrees. IsTrue agrees ↔ IsTold reader.old outcome × (gains ≡ pos 0 ∷ pos 0 ∷ []) × (given ≡ taken))
        reader.old reader.new result }
{
    let told = outcome_agrees(reader, outcome)?;
    let silent = numbers_same(&gains, &[0, 0]);
    let kept = numbers_same(&given, &taken);
    Some(told && silent && kept)
}
