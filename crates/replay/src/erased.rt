// The frame call of an erased sheet on its records, and the calls of all three kinds of sheets on theirs. Inputs, then the answers of the reference.
use super::frames::{given, refusal};
use coding::BODY_BYTES;
use gain::GainDecoder;
use mr74::{ERASED_SHEET, EnergiesAnswer, INDEX_SHEET};
use recorded::{Reader, energies_agree, energies_refusal_agrees};

// A whole frame of an erased sheet.
pub fn frame(record: &mut Reader) -> Option<bool> {
    let sheet: [i16; ERASED_SHEET] = record.numbers()?;
    let state = coding::state_in(record.array::<BODY_BYTES>()?);
    let decoder = GainDecoder {
        energies: record.numbers()?,
    };
    let mut samples = [0; 160];
    let answer = mr74::frame_erased(&sheet, state, decoder, &mut samples);
    energies_agree(
        record,
        &given(&answer.frame, samples),
        answer.gain_decoder.energies,
    )
}

// A frame of the recorded kind of sheet: 0 frame sheet, 1 index sheet, 2 erased sheet. Energies that a call does not take are those after it.
pub fn mixed(record: &mut Reader) -> Option<bool> {
    let kind = record.bits()?;
    let sheet: [i16; 182] = record.numbers()?;
    let state = coding::state_in(record.array::<BODY_BYTES>()?);
    let logs: [i16; 33] = record.numbers()?;
    let pows: [i16; 33] = record.numbers()?;
    let decoder = GainDecoder {
        energies: record.numbers()?,
    };
    let mut samples = [0; 160];
    let answer = match kind {
        0 => EnergiesAnswer {
            frame: mr74::frame(&sheet, state, &mut samples),
            gain_decoder: decoder,
        },
        1 => {
            let sheet = sheet.get(..INDEX_SHEET)?;
            mr74::frame_indexed(sheet, state, &logs, &pows, decoder, &mut samples)
        }
        2 => {
            let sheet = sheet.get(..ERASED_SHEET)?;
            mr74::frame_erased(sheet, state, decoder, &mut samples)
        }
        _ => return Some(false),
    };
    energies_agree(
        record,
        &given(&answer.frame, samples),
        answer.gain_decoder.energies,
    )
}

// A refused call of an erased sheet, which gives the energies as they came.
pub fn refused(record: &mut Reader) -> Option<bool> {
    let n = usize::from(record.bits()?);
    let room = usize::from(record.bits()?);
    let sheet: [i16; 184] = record.numbers()?;
    let before = record.array::<BODY_BYTES>()?;
    let energies = record.numbers()?;
    let mut lent = [0x5555; 200];
    let answer = mr74::frame_erased(
        sheet.get(..n)?,
        coding::state_in(before),
        GainDecoder { energies },
        lent.get_mut(..room)?,
    );
    energies_refusal_agrees(
        record,
        &refusal(&answer.frame, lent),
        before,
        answer.gain_decoder.energies,
        energies,
    )
}
