// Parts of a vector, for any position: past the end a part is empty and a number is 0.
ghost use Rattle.std.specs.Prelude.{◌≡◌, ◌+◌, ◌*◌, ◌<◌, ◌↔◌, IsTrue, EachIndex, slice_index, take, drop};
ghost use Rattle.wire.specs.Bytes.{byte};

use wire::byte::byte_at;

// Bytes as they are read out of a vector.
pub trait Parts<'a> {
    // The bytes from a place on.
    fn rest(self, at: usize) -> &'a [u8];

    // The first n bytes, or all where there are fewer.
    fn front(self, n: usize) -> &'a [u8];

    // The number of the byte at a place.
    fn number_at(self, at: usize) -> usize;

    // The number in the two bytes at a place.
    fn short_at(self, at: usize) -> usize;

    // The number in the four bytes at a place.
    fn long_at(self, at: usize) -> usize;

    // Whether these bytes stand at the front, and past the end zeros.
    fn begins(self, bytes: &[u8]) -> bool;
}

impl<'a> Parts<'a> for &'a [u8] {
    fn rest(self, at: usize) -> &'a [u8]
        ensures { result.now ≡ drop at self.now }
    {
        self.get(at..).unwrap_or(&[])
    }

    fn front(self, n: usize) -> &'a [u8]
        ensures { result.now ≡ take n self.now }
    {
        self.get(..n).unwrap_or(self)
    }

    fn number_at(self, at: usize) -> usize
        ensures number { result ≡ byte self.now at }
        ensures bound { result < 256 }
    {
        usize::from(byte_at(self, at))
    }

    fn short_at(self, at: usize) -> usize
        ensures number { result ≡ byte (drop at self.now) 0 * 256 + byte (drop at self.now) 1 }
        ensures bound { result < 65536 }
    {
        let bytes = self.rest(at);
        let high = bytes.number_at(0);
        let low = bytes.number_at(1);
        high * 256 + low
    }

    fn long_at(self, at: usize) -> usize
        ensures number { result ≡ ((byte (drop at self.now) 0 * 256 + byte (drop at self.now) 1) * 256
            + byte (drop at self.now) 2) * 256 + byte (drop at self.now) 3 }
    {
        let bytes = self.rest(at);
        ((bytes.number_at(0) * 256 + bytes.number_at(1)) * 256 + bytes.number_at(2)) * 256
            + bytes.number_at(3)
    }

    fn begins(self, bytes: &[u8]) -> bool
        ensures { IsTrue result ↔ EachIndex bytes.now (λ k. slice_index bytes.now k ≡ byte self.now k) }
    {
        bytes
            .iter()
            .enumerate()
            .all(|(i, byte)| *byte == byte_at(self, i))
    }
}

// The bytes that the length in the first byte announces.
pub(crate) fn announced(s: &[u8]) -> &[u8] {
    s.rest(1).front(s.number_at(0))
}

// What stands after them.
pub(crate) fn beyond(s: &[u8]) -> &[u8] {
    s.rest(1 + s.number_at(0))
}
