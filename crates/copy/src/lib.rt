// Copy and Set_zero of TS 26.073: arrays that are made of stretches of other numbers.
#![tactic(auto)]

ghost use Rattle.std.specs.Prelude.{◌≡◌, ◌+◌, ◌-◌, ◌≤◌, ◌++◌, length, take, drop, replicate, pos};

/// N of the numbers, from the one at `from` on, lent.
pub fn window<const N: usize>(numbers: &[i16], from: usize) -> &[i16; N]
    requires { from + N ≤ length numbers.now }
    ensures { result.now ≡ take N (drop from numbers.now) }
{
    numbers[from..from + N].first_chunk().unwrap()
}

/// The same, copied.
pub fn stretch<const N: usize>(numbers: &[i16], from: usize) -> [i16; N]
    requires { from + N ≤ length numbers.now }
    ensures { result ≡ take N (drop from numbers.now) }
{
    *window(numbers, from)
}

/// The numbers, and zeros after them.
pub fn padded<const N: usize>(numbers: &[i16]) -> [i16; N]
    requires { length numbers.now ≤ N }
    ensures { result ≡ numbers.now ++ replicate (N - length numbers.now) (pos 0) }
{
    let mut room = [0; N];
    room[..numbers.len()].copy_from_slice(numbers);
    room
}

/// The numbers of `front`, and those of `back` after them.
pub fn joined<const N: usize>(front: &[i16], back: &[i16]) -> [i16; N]
    requires { length front.now + length back.now ≡ N }
    ensures { result ≡ front.now ++ back.now }
{
    let mut both = [0; N];
    let (first, rest) = both.split_at_mut(front.len());
    first.copy_from_slice(front);
    rest.copy_from_slice(back);
    both
}
