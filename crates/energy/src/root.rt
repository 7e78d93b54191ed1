// Inv_sqrt of TS 26.073, in its order.
ghost use Rattle.std.specs.Prelude.{◌≡◌};
ghost use Rattle.energy.specs.Root.{inverse_root};

use basicop::{extract_h, extract_l, l_msu, l_shl, l_shr, norm_l, sub};

// table (Q15)
const INVERSE_TABLE: [i16; 49] = [
    32767, 31790, 30894, 30070, 29309, 28602, 27945, 27330, 26755, 26214, 25705, 25225, 24770,
    24339, 23930, 23541, 23170, 22817, 22479, 22155, 21845, 21548, 21263, 20988, 20724, 20470,
    20225, 19988, 19760, 19539, 19326, 19119, 18919, 18725, 18536, 18354, 18176, 18004, 17837,
    17674, 17515, 17361, 17211, 17064, 16921, 16782, 16646, 16514, 16384,
];

/// 1 / sqrt(value), value being the standard's L_x; zero or less gives 1073741823. Beside a line that sets a variable of the standard stands its name.
/// L_shr and shr by a constant are `>>`, L_deposit_h is `<< 16`, add of 1 is `+ 1`: none of these can clamp here.
pub fn inverse_sqrt(value: i32) -> i32
    ensures { result ≡ inverse_root value }
{
    let table = &INVERSE_TABLE; // table
    if value <= 0 {
        return 1073741823; // 0x3fffffff
    }
    let mut exponent = norm_l(value); // exp
    let mut x = l_shl(value, exponent); // L_x
    exponent = sub(30, exponent); // exp
    if (exponent & 1) == 0 {
        x >>= 1; // L_x, where exp is even
    }
    exponent = (exponent >> 1) + 1; // exp
    x >>= 9; // L_x
    let index = sub(extract_h(x), 16) as usize; // i
    x >>= 1; // L_x
    let fraction = extract_l(x) & 0x7fff; // a
    let mut y = (table[index] as i32) << 16; // L_y
    let step = sub(table[index], table[index + 1]); // tmp
    y = l_msu(y, step, fraction); // L_y
    l_shr(y, exponent) // L_y
}
