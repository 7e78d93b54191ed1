// The frame call on its records: what the call is given, then the answers of the reference.
use coding::BODY_BYTES;
use mr74::FrameAnswer;
use recorded::{Frame, Reader, Refused, frame_agrees, refusal_agrees};

// What a call has given, with the samples that it was lent.
pub fn given(answer: &FrameAnswer, samples: [i16; 160]) -> Frame {
    Frame {
        outcome: answer.outcome,
        samples,
        places: answer.places,
        rows: answer.rows,
        next: answer.next,
    }
}

// What a refused call has given, with what it was lent.
pub fn refusal(answer: &FrameAnswer, lent: [i16; 200]) -> Refused {
    Refused {
        outcome: answer.outcome,
        places: answer.places,
        rows: answer.rows,
        next: answer.next,
        lent,
    }
}

// A whole frame.
pub fn frame(record: &mut Reader) -> Option<bool> {
    let sheet: [i16; 182] = record.numbers()?;
    let state = coding::state_in(record.array::<BODY_BYTES>()?);
    let mut samples = [0; 160];
    let answer = mr74::frame(&sheet, state, &mut samples);
    frame_agrees(record, &given(&answer, samples))
}

// A refused call.
pub fn refused(record: &mut Reader) -> Option<bool> {
    let n = usize::from(record.bits()?);
    let room = usize::from(record.bits()?);
    let sheet: [i16; 184] = record.numbers()?;
    let before = record.array::<BODY_BYTES>()?;
    let mut lent = [0x5555; 200];
    let answer = mr74::frame(
        sheet.get(..n)?,
        coding::state_in(before),
        lent.get_mut(..room)?,
    );
    refusal_agrees(record, &refusal(&answer, lent), before)
}
