// How far a number can be shifted to the left.
ghost use Rattle.std.specs.Prelude.{◌≡◌, ◌-◌, ◌<◌, pos};
ghost use Rattle.std.specs.Int.Count.{count_leading_zeros};
ghost use Rattle.basicop.specs.Ops.{norm_l};

// how many zeros a number of 31 bits has above its highest digit
#[tactic(auto, using(crate::proofs::Norm::leading_from))]
fn headroom(n: u32) -> i16
    requires { n < 2147483648 }
    ensures { result ≡ pos (count_leading_zeros 32 n - 1) }
{
    (n.leading_zeros() - 1) as i16
}

pub fn norm_l(x: i32) -> i16
    ensures { result ≡ norm_l x }
{
    if x < 0 {
        headroom(!x as u32)
    } else if 0 < x {
        headroom(x as u32)
    } else {
        0
    }
}
