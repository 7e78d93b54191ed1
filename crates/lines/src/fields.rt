//! A text of bytes with room for so many, and the fields that are put into it, each after the bytes that are there.
ghost use Rattle.std.specs.Prelude.{◌≡◌, [], ◌∷◌, ◌++◌, map, ◌+◌, ◌<◌, ◌≤◌, length};
ghost use Rattle.lines.specs.Lines.{decimal, flag_digit};

use itoa::Buffer;
use std::marker::Model;

/// The room of a line: more than any line of the programs has.
pub const LINE_ROOM: usize = 128;

/// A line of the programs, as far as it is made.
pub type Line = Text<LINE_ROOM>;

/// The bytes of a text, as far as it is made.
#[derive(Clone, Drop)]
pub struct Text<const ROOM: usize> {
    bytes: [u8; ROOM],
    count: usize,
}

impl<const ROOM: usize> Model for Text<ROOM> {
    ghost use Rattle.std.specs.Prelude.{List, ℕ, ◌≤◌, take};

    ghost Value = { List ℕ };

    ghost view = { λ t. take t.count t.bytes };

    ghost invariant = { λ t. t.count ≤ ROOM };
}

impl<const ROOM: usize> Text<ROOM> {
    /// The text of no bytes.
    pub fn new() -> Self
        ensures { result ≡ [] }
    {
        Text {
            bytes: [0; ROOM],
            count: 0,
        }
    }

    /// The bytes, as far as they are made.
    pub fn as_bytes(&self) -> &[u8]
        ensures { result.now ≡ self.now }
    {
        &self.bytes[..self.count]
    }

    /// Puts a byte behind those that are there.
    pub fn push(&mut self, byte: u8)
        requires { length self.old < ROOM }
        ensures { self.new ≡ self.old ++ byte ∷ [] }
    {
        self.bytes[self.count] = byte;
        self.count += 1;
    }

    /// Puts bytes behind those that are there.
    pub fn extend_from_slice(&mut self, bytes: &[u8])
        requires { length self.old + length bytes.now ≤ ROOM }
        ensures { self.new ≡ self.old ++ bytes.now }
    {
        let end = self.count + bytes.len();
        let room = &mut self.bytes[..];
        room[self.count..end].copy_from_slice(bytes);
        self.count = end;
    }

    /// The digits of a number.
    #[tactic(auto, using(crate::proofs::Decimals::decimal_digits))]
    pub fn push_decimal(&mut self, n: u64)
        requires { length self.old + 20 ≤ ROOM }
        ensures line { self.new ≡ self.old ++ decimal n }
        ensures within { length self.new ≤ length self.old + 20 }
    {
        let mut digits = Buffer::new();
        self.extend_from_slice(digits.format(n).as_bytes());
    }

    // The four flags, written together.
    pub(crate) fn push_flags(&mut self, flags: [bool; 4])
        requires { length self.old + 4 ≤ ROOM }
        ensures { self.new ≡ self.old ++ map flag_digit flags }
    {
        for flag in flags {
            self.push(b'0' + u8::from(flag));
        }
    }
}
