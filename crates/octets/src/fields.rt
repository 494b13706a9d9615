// Numbers read from bytes, and the bytes of a number.
ghost use Rattle.std.specs.Prelude.{◌≡◌, get_or};
ghost use Rattle.octets.specs.Fields.{field, little, blank};

use crate::parts::from;

// The byte at `at`, or 0 past the end.
fn byte(s: &[u8], at: usize) -> u8
    ensures { result ≡ get_or s.now at 0 }
{
    s.get(at).copied().unwrap_or(0)
}

// The two bytes at `at`, little-endian. Here and below they are written out: one function over the
// count of them would answer a `u64`, which each caller narrows, and its loop compiled to slower code.
#[tactic(auto, using(crate::proofs::Puts::field_from), unfolding(crate::specs::Fields::field))]
pub fn little16(s: &[u8], at: usize) -> u16
    ensures { result ≡ field s.now at 2 }
{
    let s = from(s, at);
    u16::from_le_bytes([byte(s, 0), byte(s, 1)])
}

// The four bytes at `at`, little-endian.
#[tactic(auto, using(crate::proofs::Puts::field_from), unfolding(crate::specs::Fields::field))]
pub fn little32(s: &[u8], at: usize) -> u32
    ensures { result ≡ field s.now at 4 }
{
    let s = from(s, at);
    u32::from_le_bytes([byte(s, 0), byte(s, 1), byte(s, 2), byte(s, 3)])
}

// Eight bytes as one number, little-endian.
#[tactic(auto, unfolding(crate::specs::Fields::field))]
pub fn word_of(b: [u8; 8]) -> u64
    ensures { result ≡ field b 0 8 }
{
    u64::from_le_bytes(b)
}

// The eight bytes of a number, little-endian.
pub fn bytes_of(n: u64) -> [u8; 8]
    ensures { result ≡ little 8 n }
{
    n.to_le_bytes()
}

// Whether the twelve bytes are 0. No caller of ours is left; a public function keeps its promise.
pub fn blank12(s: [u8; 12]) -> bool
    ensures { result ≡ blank 12 s }
{
    s == [0; 12]
}
