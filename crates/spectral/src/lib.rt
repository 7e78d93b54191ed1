// Line spectral frequencies to their cosines: Lsf_lsp of TS 26.073.
#![tactic(auto)]

ghost use Rattle.std.specs.Prelude.{◌≡◌, pos, ◌≤ℤ◌};
ghost use Rattle.spectral.specs.Lsp.{between, lsp_of, lsps_of, Frequencies};

use std::array;

// Q15.
const COSINE: [i16; 65] = [
    32767, 32729, 32610, 32413, 32138, 31786, 31357, 30853, 30274, 29622, 28899, 28106, 27246,
    26320, 25330, 24279, 23170, 22006, 20788, 19520, 18205, 16846, 15447, 14010, 12540, 11039,
    9512, 7962, 6393, 4808, 3212, 1608, 0, -1608, -3212, -4808, -6393, -7962, -9512, -11039,
    -12540, -14010, -15447, -16846, -18205, -19520, -20788, -22006, -23170, -24279, -25330, -26320,
    -27246, -28106, -28899, -29622, -30274, -30853, -31357, -31786, -32138, -32413, -32610, -32729,
    -32768,
];

// offset / 256 of the way from an entry to the next
#[tactic(auto, using(basicop::proofs::Calls::read_back), unfolding(crate::specs::Lsp::between))]
fn between(low: i16, next: i16, offset: i16) -> i16
    ensures { result ≡ between low next offset }
{
    let product = basicop::l_mult(basicop::sub(next, low), offset);
    basicop::add(low, basicop::extract_l(basicop::l_shr(product, 9)))
}

// One frequency. The caller tested its range.
fn frequency_to_cosine(frequency: i16) -> i16
    requires { (pos 0 ≤ℤ frequency) × (frequency ≤ℤ pos 16384) }
    ensures { result ≡ lsp_of frequency }
{
    let f = frequency as usize;
    if 16383 < f {
        return -32768;
    }
    between(COSINE[f / 256], COSINE[f / 256 + 1], (f % 256) as i16)
}

/// The LSPs (Q15) of ten LSFs (Q15). That each LSF lies in 0..=16384 is shown by the test of the sheet, refusal 2.
pub fn lsf_to_lsp(frequencies: [i16; 10]) -> [i16; 10]
    requires { Frequencies frequencies }
    ensures { result ≡ lsps_of frequencies }
{
    array::from_fn(|i| frequency_to_cosine(frequencies[i]))
}
