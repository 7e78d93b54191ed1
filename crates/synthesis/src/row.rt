// A row of the filter, with its weight tested once.
ghost use Rattle.std.specs.Prelude.{◌≡◌, nat_lt};
ghost use Rattle.synthesis.specs.Inner.{weight};

/// A row, a0 to a10 (Q12). It is light where its weight, |a0| + .. + |a10|, is below 32768: then no number up to a sum can leave 32 bits.
#[derive(Clone, Copy)]
pub struct Row {
    pub coefficients: [i16; 11],
    pub light: bool,
    pub ghost weighed: { light ≡ nat_lt (weight coefficients) 32768 },
}

impl Row {
    /// The row of these coefficients.
    pub fn new(coefficients: [i16; 11]) -> Row
        ensures { result.coefficients ≡ coefficients }
    {
        let weight: u32 = coefficients
            .iter()
            .map(|a| u32::from(a.unsigned_abs()))
            .sum();
        let light = weight < 32768;
        Row {
            coefficients,
            light,
        }
    }
}
