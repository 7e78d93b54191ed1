// energy_new of TS 26.073, and the sum of squares.
ghost use Rattle.std.specs.Prelude.{◌≡◌, ◌*◌, ◌≤◌, nat_abs, length};
ghost use Rattle.energy.specs.Energy.{squares, energy};

use basicop::{clamp32, quartered};

fn doubled_square(sample: i16) -> u64
    ensures { (result ≡ 2 * (nat_abs sample * nat_abs sample)) × (result ≤ 2147483648) }
{
    let wide = sample as i64;
    (2 * (wide * wide)) as u64
}

/// Squares never fall, so that the clamped sum is the exact one, held once. Every caller has fewer than 65536 samples, so that it fits.
pub fn squares(samples: &[i16]) -> i32
    requires { length samples.now ≤ 65536 }
    ensures { result ≡ squares samples.now }
{
    let sum: u64 = samples.iter().map(|sample| doubled_square(*sample)).sum();
    clamp32(sum as i64)
}

/// energy_new
pub fn energy(samples: [i16; 40]) -> i32
    ensures { result ≡ energy samples }
{
    let sum = squares(&samples);
    let at_limit = 2147483646 < sum;
    if at_limit {
        return squares(&quartered(samples));
    }
    sum >> 4
}
