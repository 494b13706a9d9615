// Parts of a slice, and bytes put into one.
ghost use Rattle.std.specs.Prelude.{◌≡◌, drop, length};
ghost use Rattle.octets.specs.Fields.{little};
ghost use Rattle.octets.specs.Parts.{part, put};

// The bytes of `s` from `start`. What is empty lies in `s` too, here and below: C is told of a part of
// a buffer that it lent, and no contract sees where a part lies.
pub(crate) fn from(s: &[u8], start: usize) -> &[u8]
    ensures { result.now ≡ drop start s.now }
{
    s.get(start..).unwrap_or(&s[..0])
}

// The part of `s` from `start` of `len` bytes, or nothing where it does not fit.
#[tactic(auto, unfolding(crate::specs::Parts::part))]
pub fn part(s: &[u8], start: usize, len: usize) -> &[u8]
    ensures { result.now ≡ part s.now start len }
{
    let rest = from(s, start);
    rest.get(..len).unwrap_or(&s[..0])
}

// `src` over all of `to`. A loop, since `copy_from_slice` calls `memmove` of the C library, which the
// archive is not to need.
fn copy(to: &mut [u8], src: &[u8])
    requires { length to.old ≡ length src.now }
    ensures { to.new ≡ src.now }
{
    for (i, byte) in to.iter_mut().enumerate() {
        *byte = src[i];
    }
}

// `src` into `out` from `at`, or nothing where it does not fit.
#[tactic(auto, using(crate::proofs::Puts::put_lent, crate::proofs::Puts::put_not))]
pub fn put(out: &mut [u8], at: usize, src: &[u8])
    ensures { out.new ≡ put out.old at src.now }
{
    if at <= out.len() && src.len() <= out.len() - at {
        copy(&mut out[at..at + src.len()], src);
    }
}

// A number's two low bytes, little-endian, into `out` at `at`, or nothing where they do not fit.
pub fn put_little16(out: &mut [u8], at: usize, n: u64)
    ensures { out.new ≡ put out.old at (little 2 n) }
{
    put(out, at, &n.to_le_bytes()[..2]);
}

// A number's four low bytes, little-endian, into `out` at `at`, or nothing where they do not fit. One
// function over the count of bytes would ask of its callers that it be at most 8, and be no shorter.
pub fn put_little32(out: &mut [u8], at: usize, n: u64)
    ensures { out.new ≡ put out.old at (little 4 n) }
{
    put(out, at, &n.to_le_bytes()[..4]);
}
