// A record's words, read one after another.
ghost use Rattle.std.specs.Prelude.{◌≡◌, ◌↔◌, ℕ, ◌*◌, List, [], ◌∷◌, IsTrue, length, take, slice_index};
ghost use Rattle.lists.specs.Parts.{cut};
ghost use Rattle.lpc.specs.Rows.{row_list};
ghost use Rattle.coding.specs.Bytes.{signed16, unsigned, words};
ghost use Rattle.recorded.specs.Words.{long_of, places_in, Reads};

use coding::numbers_in;
use lpc::Rows;
use std::marker::Model;

/// A record in reading: contracts see the bytes that are left of it.
#[derive(Drop)]
pub struct Reader<'a> {
    rest: &'a [u8],
}

impl<'a> Model for Reader<'a> {
    ghost Value = { List ℕ };

    ghost view = { λ r. r.rest.now };
}

impl<'a> Reader<'a> {
    /// A record, unread.
    pub fn new(bytes: &'a [u8]) -> Self
        ensures { result ≡ bytes.now }
    {
        Reader { rest: bytes }
    }

    /// Whether nothing is left.
    pub fn is_empty(&self) -> bool
        ensures { IsTrue result ↔ self.now ≡ [] }
    {
        self.rest.is_empty()
    }

    // The next n bytes.
    fn bytes(&mut self, n: usize) -> Option<&'a [u8]>
        ensures { Reads n (λ b. (b.now ≡ take n self.old) × (length b.now ≡ n)) self.old self.new result }
    {
        let (front, rest) = self.rest.split_at_checked(n)?;
        self.rest = rest;
        Some(front)
    }

    /// The next N bytes.
    pub fn array<const N: usize>(&mut self) -> Option<&'a [u8; N]>
        ensures { Reads N (λ b. b.now ≡ take N self.old) self.old self.new result }
    {
        let (front, rest) = self.rest.split_first_chunk()?;
        self.rest = rest;
        Some(front)
    }

    /// The next N numbers.
    pub fn numbers<const N: usize>(&mut self) -> Option<[i16; N]>
        ensures { Reads (2 * N) (λ xs. xs ≡ words (take (2 * N) self.old)) self.old self.new result }
    {
        Some(numbers_in(self.bytes(2 * N)?))
    }

    /// The next number.
    pub fn number(&mut self) -> Option<i16>
        ensures { Reads 2 (λ x. x ≡ signed16 (unsigned (slice_index self.old 0) (slice_index self.old 1))) self.old self.new result }
    {
        Some(self.bits()?.cast_signed())
    }

    /// 16 bits, as they stand.
    pub fn bits(&mut self) -> Option<u16>
        ensures { Reads 2 (λ x. x ≡ unsigned (slice_index self.old 0) (slice_index self.old 1)) self.old self.new result }
    {
        Some(u16::from_le_bytes(*self.array()?))
    }

    /// 32 bits, the low 16 first.
    pub fn long(&mut self) -> Option<i32>
        ensures { Reads 4 (λ x. x ≡ long_of self.old) self.old self.new result }
    {
        let &[a, b, c, d] = self.array::<4>()?;
        Some(i32::from_le_bytes([a, b, c, d]))
    }

    /// The four rows of a frame.
    pub fn rows(&mut self) -> Option<Rows>
        ensures { Reads 88 (λ rows. row_list rows ≡ cut (11 ∷ 11 ∷ 11 ∷ 11 ∷ []) (words self.old)) self.old self.new result }
    {
        Some(Rows {
            a: self.numbers()?,
            b: self.numbers()?,
            c: self.numbers()?,
            d: self.numbers()?,
        })
    }

    /// The four places of a frame.
    pub fn places(&mut self) -> Option<[usize; 4]>
        ensures { Reads 8 (λ places. places ≡ places_in self.old) self.old self.new result }
    {
        Some([
            self.bits()?.into(),
            self.bits()?.into(),
            self.bits()?.into(),
            self.bits()?.into(),
        ])
    }
}
