// What a call gives, compared with what a record has for it.
ghost use Rattle.std.specs.Prelude.{◌≡◌, ◌↔◌, IsTrue, Some, true, []};
ghost use Rattle.lpc.specs.Rows.{row_list};
ghost use Rattle.state.specs.Layout.{numbers_of};
ghost use Rattle.coding.specs.Bytes.{bytes_of};
ghost use Rattle.recorded.specs.Words.{Reads};
ghost use Rattle.recorded.specs.Compare.{IsTold, IsCutRefused};

use super::words::Reader;
use coding::BODY_BYTES;
use lpc::Rows;
use outcome::Outcome;
use state::State;

/// Whether numbers are the recorded ones.
pub fn numbers_same(recorded: &[i16], numbers: &[i16]) -> bool
    ensures { IsTrue result ↔ recorded.now ≡ numbers.now }
{
    recorded == numbers
}

/// Whether places are the recorded ones.
pub fn places_same(recorded: &[usize], places: &[usize]) -> bool
    ensures { IsTrue result ↔ recorded.now ≡ places.now }
{
    recorded == places
}

/// Whether rows are the recorded ones.
pub fn rows_same(recorded: Rows, rows: Rows) -> bool
    ensures { IsTrue result ↔ row_list recorded ≡ row_list rows }
{
    recorded == rows
}

/// Whether the bytes of a state are these.
pub fn state_same(recorded: &[u8], state: State) -> bool
    ensures { IsTrue result ↔ bytes_of (numbers_of state) ≡ recorded.now }
{
    let mut body = [0; BODY_BYTES];
    coding::write_body(state, &mut body);
    body.as_slice() == recorded
}

/// Refusal and place, 0 and 0 where the call is accepted.
pub fn outcome_agrees(reader: &mut Reader, outcome: Outcome) -> Option<bool>
    ensures { Reads 4 (λ agrees. IsTrue agrees ↔ IsTold reader.old outcome) reader.old reader.new result }
{
    let number = reader.bits()?;
    let place = reader.bits()?;
    Some(
        u64::from(number) == outcome::number(outcome)
            && usize::from(place) == outcome::place(outcome),
    )
}

/// Whether a stage agreed with a record, and left nothing of it.
pub fn is_whole(agreed: Option<bool>, reader: &Reader) -> bool
    ensures { IsTrue result ↔ (agreed ≡ Some true) × (reader.now ≡ []) }
{
    agreed == Some(true) && reader.is_empty()
}

/// Whether the first n and the last n bytes of a record of zeros are refused as they should be: both are under 8 bytes, or the first lack
/// the tag and the last the body.
pub fn cut_refused(n: usize, first: Outcome, last: Outcome) -> bool
    ensures { IsTrue result ↔ IsCutRefused n first last }
{
    let (first, last) = (outcome::number(first), outcome::number(last));
    if n < 8 {
        first == 11 && last == 11
    } else {
        first == 12 && last == 15
    }
}
