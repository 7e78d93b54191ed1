// What turns a read back, of the bytes: groups of checks, in the order 11 to 15.
ghost use Rattle.std.specs.Prelude.{◌≡◌, ◌++◌, ◌-◌, length, drop};
ghost use Rattle.outcome.specs.Checks.{first_met, Checked};
ghost use Rattle.state.specs.Layout.{state_of};
ghost use Rattle.coding.specs.Bytes.{words};
ghost use Rattle.record.specs.Record.{versions, trailer_of, field_at, note_length, numbers_in, trailer_checks, body_checks, byte_checks};
ghost use Rattle.record.specs.Inner.{trailer_by, body_numbers};

use super::version::Version;
use super::{TAG, TRAILER_BYTES};
use outcome::Refusal;
use state::State;

/// What the bytes of a record hold: a state, and before the body a note of so many bytes.
#[derive(Clone, Copy)]
pub struct Found {
    pub state: State,
    pub note_length: usize,
}

// 12 to 14: tag, version and layout, of the last 8 bytes; the version where they are right.
#[tactic(auto, unfolding(outcome::specs::Checks::first_met))]
fn check_trailer(t: &[u8; TRAILER_BYTES]) -> Result<Version, Refusal>
    ensures { Checked result (first_met (trailer_checks t.now)) (λ v. trailer_of (field_at t.now 2) versions ≡ trailer_by v) }
{
    let other_tag = [t[0], t[1]] != TAG;
    if other_tag {
        return Err(Refusal::Tag);
    }
    let Some(version) = Version::numbered(coding::unsigned(t[2], t[3])) else {
        return Err(Refusal::Version);
    };
    let other_distance = coding::unsigned(t[4], t[5]) as usize != version.distance();
    let other_count = coding::unsigned(t[6], t[7]) as usize != version.count();
    if other_distance || other_count {
        return Err(Refusal::Layout);
    }
    Ok(version)
}

// The state of a body, which stands before the trailer, or 15: fewer bytes than the version's body has.
fn state_before(before: &[u8], version: Version) -> Result<State, Refusal>
    ensures { Checked result (first_met (body_checks (length before.now) (trailer_by version).distance)) (λ s. s ≡ state_of (body_numbers (trailer_by version) before.now)) }
{
    match version {
        Version::Current => {
            let Some(body) = before.last_chunk() else {
                return Err(Refusal::BodyShort);
            };
            Ok(coding::state_in(body))
        }
        Version::First => {
            let Some(body) = before.last_chunk() else {
                return Err(Refusal::BodyShort);
            };
            Ok(coding::first_state_in(body))
        }
    }
}

/// What a record holds, or 11 to 15: under 8 bytes, what the trailer shows, fewer bytes before it than a body has.
pub fn found_in(bytes: &[u8]) -> Result<Found, Refusal>
    ensures { Checked result (first_met (byte_checks bytes.now)) (λ f. (f.state ≡ state_of (numbers_in bytes.now)) × (f.note_length ≡ note_length bytes.now)) }
{
    let Some((before, trailer)) = bytes.split_last_chunk() else {
        return Err(Refusal::RecordShort);
    };
    let version = check_trailer(trailer)?;
    let state = state_before(before, version)?;
    let note_length = before.len() - version.distance();
    Ok(Found { state, note_length })
}
