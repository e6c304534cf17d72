// Bytes of a slice.
ghost use Rattle.std.specs.Prelude.{◌≡◌};
ghost use Rattle.wire.specs.Bytes.{byte};

// The byte at a place of a slice; 0 past its end.
pub fn byte_at(s: &[u8], i: usize) -> u8
    ensures { result ≡ byte s.now i }
{
    if i < s.len() { s[i] } else { 0 }
}
