// Stages on their records: spectrum, rows, lags and prediction. Inputs, then the answers of the reference.
use pitch::{Fraction, PitchLag};
use recorded::{Reader, rows_same};

#[tactic(auto, using(outcome::proofs::Ranges::none_found, outcome::proofs::Ranges::in_range_all))]
pub fn lsp(record: &mut Reader) -> Option<bool> {
    let lsf = record.numbers()?;
    if outcome::first_outside(&lsf, &[16384; 10]).is_some() {
        return Some(false);
    }
    Some(record.numbers()? == spectral::lsf_to_lsp(lsf))
}

// Whole samples, then the thirds.
pub fn lag_agrees(record: &mut Reader, lag: PitchLag) -> Option<bool> {
    Some(record.bits()? == lag.samples && record.number()? == lag.fraction.thirds())
}

pub fn lag(record: &mut Reader) -> Option<bool> {
    let relative = record.bits()? == 1;
    let [index, _] = record.bits()?.to_le_bytes();
    let before = PitchLag {
        samples: record.bits()?,
        fraction: Fraction::Zero,
    };
    let lag = if relative {
        PitchLag::from_relative(index, before)
    } else {
        PitchLag::from_absolute(index)
    };
    lag_agrees(record, lag)
}

pub fn coefficient(record: &mut Reader) -> Option<bool> {
    let coefficient = lpc::rounded_coefficient(record.long()?);
    Some(record.number()? == coefficient)
}

pub fn convert(record: &mut Reader) -> Option<bool> {
    let row = lpc::convert(record.numbers()?);
    Some(record.numbers()? == row)
}

pub fn interpolate(record: &mut Reader) -> Option<bool> {
    let rows = lpc::interpolate(record.numbers()?, record.numbers()?);
    Some(rows_same(record.rows()?, rows))
}

// The fraction by the sign of its thirds.
fn fraction_of(thirds: i16) -> Fraction {
    if thirds < 0 {
        Fraction::MinusThird
    } else if 0 < thirds {
        Fraction::PlusThird
    } else {
        Fraction::Zero
    }
}

pub fn predict(record: &mut Reader) -> Option<bool> {
    let past = record.numbers()?;
    let samples = record.bits()?;
    let fraction = fraction_of(record.number()?);
    if !(19..=144).contains(&samples) {
        return Some(false);
    }
    let predicted = adaptive::predict(past, PitchLag { samples, fraction });
    Some(record.numbers()? == predicted)
}
