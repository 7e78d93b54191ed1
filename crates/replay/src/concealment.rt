// The stages of erased frames on their records: lags, energies, and the gains of erased frames and of good ones. Inputs, then the answers of the reference.
use super::stages::lag_agrees;
use basicop::{Gains, Q1, Q14};
use gain::GainDecoder;
use gain_concealment::{GainConcealment, UsedGains};
use pitch::{Fraction, PitchDecoder, PitchLag};
use recorded::Reader;

// The lags of four subframes, each after the one before.
pub fn pitch(record: &mut Reader) -> Option<bool> {
    let mut previous = PitchLag {
        samples: record.bits()?,
        fraction: Fraction::Zero,
    };
    for _ in 0..4 {
        previous = PitchDecoder { previous }.conceal();
        if !lag_agrees(record, previous)? {
            return Some(false);
        }
    }
    Some(true)
}

// The energies after one subframe.
pub fn energy(record: &mut Reader) -> Option<bool> {
    let decoder = GainDecoder {
        energies: record.numbers()?,
    };
    Some(record.numbers()? == decoder.conceal_energy().energies)
}

fn pair(record: &mut Reader) -> Option<Gains> {
    Some(Gains {
        pitch: Q14(record.number()?),
        code: Q1(record.number()?),
    })
}

fn pair_agrees(record: &mut Reader, gains: Gains) -> Option<bool> {
    Some(record.number()? == gains.pitch.0 && record.number()? == gains.code.0)
}

// The gain fields of a state.
fn fields(record: &mut Reader) -> Option<GainConcealment> {
    Some(GainConcealment {
        pitch_history: record.numbers()?,
        code_history: record.numbers()?,
        past: pair(record)?,
        last_good: pair(record)?,
    })
}

// The gains that a subframe is decoded with, and the gain fields after them.
fn used_agree(record: &mut Reader, used: UsedGains) -> Option<bool> {
    let next = used.next;
    Some(
        pair_agrees(record, used.gains)?
            && record.numbers()? == next.pitch_history
            && record.numbers()? == next.code_history
            && pair_agrees(record, next.past)?
            && pair_agrees(record, next.last_good)?,
    )
}

// A subframe of an erased frame.
pub fn conceal(record: &mut Reader) -> Option<bool> {
    let stage = usize::from(record.bits()?);
    let before = fields(record)?;
    if stage > 6 {
        return Some(false);
    }
    used_agree(record, before.conceal(stage))
}

// A subframe of a good frame.
pub fn update(record: &mut Reader) -> Option<bool> {
    let sent = pair(record)?;
    let erased = record.bits()? == 1;
    let before = fields(record)?;
    used_agree(record, before.update_good(sent, erased))
}
