// What is lent, as numbers: sheets and tables, whose length the calls refuse, and the past energies.
ghost use Rattle.std.specs.Prelude.{◌≡◌, MatchOption};
ghost use Rattle.coding.specs.Bytes.{words, bytes_of};
ghost use Rattle.capi.specs.Capi.{no_numbers, lent_numbers};

use super::ENERGIES_BYTES;
use gain::GainDecoder;

// What stands for a sheet or a table of another length than its own, of an odd count of bytes too: no number at all. No call takes so many: it refuses the
// sheet by 1, the table by 7.
const NO_NUMBERS: [i16; 0] = [];

// The numbers of lent bytes, of which N are wanted, where the bytes have that length.
pub fn lent_numbers<const N: usize>(bytes: &[u8]) -> Option<[i16; N]>
    ensures { MatchOption result (lent_numbers N bytes.now ≡ no_numbers) (λ numbers. numbers ≡ lent_numbers N bytes.now) }
{
    if bytes.len() != 2 * N {
        return None;
    }
    Some(coding::numbers_in(bytes))
}

// As a call is lent them: these, or no number.
pub fn as_lent<const N: usize>(numbers: &Option<[i16; N]>) -> &[i16]
    ensures { MatchOption numbers.now (result.now ≡ no_numbers) (λ numbers. result.now ≡ numbers) }
{
    match numbers {
        Some(numbers) => numbers,
        None => &NO_NUMBERS,
    }
}

// The past energies of their bytes.
pub fn energies_in(energies: &[u8; ENERGIES_BYTES]) -> GainDecoder
    ensures { result.energies ≡ words energies.now }
{
    GainDecoder {
        energies: coding::numbers_in(energies),
    }
}

// The bytes of the past energies.
pub fn write_energies(decoder: GainDecoder, energies: &mut [u8; ENERGIES_BYTES])
    ensures { energies.new ≡ bytes_of decoder.energies }
{
    coding::put(energies, &decoder.energies);
}
