// What turns a frame call back: groups of checks, in the order 1, 5, 2, 6, then a kind's own, 3 and 4, or 3, 7 and 8, or 9, then 16 to 19.
ghost use Rattle.std.specs.Prelude.{◌≡◌, ◌≤◌, ◌++◌, length};
ghost use Rattle.outcome.specs.Checks.{first_met, Checked};
ghost use Rattle.kinds.specs.Checks.{length_checks, lsf_checks, pitch_checks, gain_checks, stage_checks};
ghost use Rattle.kinds.specs.Kind.{kind_of, frame_kind, index_kind, call_outcome};
ghost use Rattle.kinds.specs.Checked.{lent_kind, checked_kind};

use crate::kind::{CheckedKind, SheetKind};
use crate::sheet::CheckedSheet;
use gain::Tables;
use outcome::{Outcome, Refusal};
use state::State;

// LSF_GAP of Reorder_lsf.
const LSF_GAP: i32 = 205;

// 1 and 5: the sheet's count of numbers, and the room for samples.
#[tactic(auto, unfolding(outcome::specs::Checks::first_met))]
fn check_lengths(count: usize, numbers: usize, room: usize) -> Outcome
    ensures { result ≡ first_met (length_checks count numbers room) }
{
    let other_count = numbers != count;
    if other_count {
        return Err(Refusal::SheetLength);
    }
    outcome::check_room(room)
}

// 2: an LSF outside 0..=16384. 6: the first LSF below 205, or a later one less than 205 above the one before.
fn check_lsfs(sheet: &[i16]) -> Outcome
    requires { 10 ≤ length sheet.now }
    ensures { result ≡ first_met (lsf_checks sheet.now) }
{
    let lsfs = &sheet[..10];
    let limits = [16384i16; 10];
    if let Some(place) = outcome::first_outside(lsfs, &limits) {
        return Err(Refusal::Lsf(place));
    }
    if let Some(place) = outcome::first_close(LSF_GAP, lsfs) {
        return Err(Refusal::LsfGap(place));
    }
    Ok(())
}

// 3: a pitch index outside 0..=255 (subframes 0 and 2) or 0..=31.
fn check_pitch(sheet: &[i16]) -> Outcome
    requires { 14 ≤ length sheet.now }
    ensures { result ≡ first_met (pitch_checks sheet.now) }
{
    let limits = [255i16, 31, 255, 31];
    if let Some(place) = outcome::first_outside(&sheet[10..14], &limits) {
        return Err(Refusal::PitchIndex(place));
    }
    Ok(())
}

// 4: a negative gain. There is no upper limit: each is its own.
fn check_gains(sheet: &[i16]) -> Outcome
    requires { 22 ≤ length sheet.now }
    ensures { result ≡ first_met (gain_checks sheet.now) }
{
    let gains = &sheet[14..22];
    if let Some(place) = outcome::first_outside(gains, gains) {
        return Err(Refusal::Gain(place));
    }
    Ok(())
}

// 9: an attenuation stage outside 0..=6.
#[tactic(auto, unfolding(outcome::specs::Checks::first_met))]
fn check_stage(sheet: &[i16]) -> Outcome
    requires { 11 ≤ length sheet.now }
    ensures { result ≡ first_met (stage_checks sheet.now) }
{
    let outside = !(0..=6).contains(&sheet[10]);
    if outside {
        return Err(Refusal::Stage);
    }
    Ok(())
}

// A frame sheet's own: 3, 4.
fn check_frame(sheet: &[i16]) -> Outcome
    requires { 22 ≤ length sheet.now }
    ensures { result ≡ first_met (frame_kind.checks sheet.now) }
{
    check_pitch(sheet)?;
    check_gains(sheet)
}

// An index sheet's own, with the lent tables: 3, 7, 8.
fn check_index<'a>(sheet: &[i16], logs: &'a [i16], pows: &'a [i16]) -> Result<Tables<'a>, Refusal>
    requires { 18 ≤ length sheet.now }
    ensures { Checked result (first_met ((index_kind logs.now pows.now).checks sheet.now)) (λ tables. (tables.logs.now ≡ logs.now) × (tables.pows.now ≡ pows.now)) }
{
    check_pitch(sheet)?;
    let tables = gain::check_tables(logs, pows)?;
    gain::check_indices::<4>(copy::window(sheet, 14))?;
    Ok(tables)
}

// A kind's own.
fn check_own<'a>(kind: SheetKind<'a>, sheet: &[i16]) -> Result<CheckedKind<'a>, Refusal>
    requires { length sheet.now ≡ (kind_of (lent_kind kind)).count }
    ensures { Checked result (first_met ((kind_of (lent_kind kind.entry)).checks sheet.now)) (λ checked. checked_kind checked ≡ lent_kind kind.entry) }
{
    match kind {
        SheetKind::Frame => {
            check_frame(sheet)?;
            Ok(CheckedKind::Frame)
        }
        SheetKind::Index(logs, pows) => {
            let tables = check_index(sheet, logs, pows)?;
            Ok(CheckedKind::Index(tables))
        }
        SheetKind::Erased => {
            check_stage(sheet)?;
            Ok(CheckedKind::Erased)
        }
    }
}

/// Tests a call of any kind, in its order.
pub fn check_call<'a>(
    kind: SheetKind<'a>,
    sheet: &'a [i16],
    state: State,
    room: usize,
) -> Result<CheckedSheet<'a>, Refusal>
    ensures { Checked result (call_outcome (kind_of (lent_kind kind.entry)) sheet.now state room) (λ checked. (checked_kind checked.kind ≡ lent_kind kind.entry) × (checked.numbers.now ≡ sheet.now)) }
{
    check_lengths(kind.count(), sheet.len(), room)?;
    check_lsfs(sheet)?;
    let kind = check_own(kind, sheet)?;
    state::check_state(state)?;
    Ok(CheckedSheet {
        kind,
        numbers: sheet,
    })
}
