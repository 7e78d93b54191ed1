// Numbers of 16 bits as bytes, low byte first.
ghost use Rattle.std.specs.Prelude.{◌≡◌, ◌*◌, length};
ghost use Rattle.coding.specs.Bytes.{signed16, unsigned, words, bytes_of};

use std::array;

/// Two bytes as a number from 0.
pub fn unsigned(low: u8, high: u8) -> u16
    ensures { result ≡ unsigned low high }
{
    u16::from_le_bytes([low, high])
}

/// Two bytes as a signed number: n, or n - 65536 from 32768 on.
pub fn word(low: u8, high: u8) -> i16
    ensures { result ≡ signed16 (unsigned low high) }
{
    i16::from_le_bytes([low, high])
}

/// The bytes of the numbers of src.
pub fn put(dst: &mut [u8], src: &[i16])
    requires { length dst.old ≡ 2 * length src.now }
    ensures { dst.new ≡ bytes_of src.now }
{
    for (i, x) in src.iter().enumerate() {
        let [low, high] = x.to_le_bytes();
        dst[2 * i] = low;
        dst[2 * i + 1] = high;
    }
}

/// The numbers of bytes, as an array.
pub fn numbers_in<const N: usize>(bytes: &[u8]) -> [i16; N]
    requires { length bytes.now ≡ 2 * N }
    ensures { result ≡ words bytes.now }
{
    array::from_fn(|i| word(bytes[2 * i], bytes[2 * i + 1]))
}
