// The nonce.
ghost use Rattle.std.specs.Prelude.{◌≡◌};
ghost use Rattle.octets.specs.Fields.{little};
ghost use Rattle.record.specs.Nonce.{spread_first, spread_last, masked_by, nonce_of};

use crate::setting::Setting;

// The eight bytes, XORed with those of the number, little-endian.
fn masked(b: [u8; 8], number: u64) -> [u8; 8]
    ensures { result ≡ masked_by 8 b (little 8 number) }
{
    octets::bytes_of(octets::word_of(b) ^ number)
}

// Layout 0: the number in the first eight bytes.
fn first(iv: [u8; 12], number: u64) -> [u8; 12]
    ensures { result ≡ masked_by 12 iv (spread_first number) }
{
    let b = masked(
        [iv[0], iv[1], iv[2], iv[3], iv[4], iv[5], iv[6], iv[7]],
        number,
    );
    [
        b[0], b[1], b[2], b[3], b[4], b[5], b[6], b[7], iv[8], iv[9], iv[10], iv[11],
    ]
}

// Layout 1: the number in the last eight bytes, the highest first. No twin of `first`: the order of the
// bytes differs too, and one loop over twelve bytes took longer than one XOR of a word.
fn last(iv: [u8; 12], number: u64) -> [u8; 12]
    ensures { result ≡ masked_by 12 iv (spread_last number) }
{
    let b = masked(
        [iv[11], iv[10], iv[9], iv[8], iv[7], iv[6], iv[5], iv[4]],
        number,
    );
    [
        iv[0], iv[1], iv[2], iv[3], b[7], b[6], b[5], b[4], b[3], b[2], b[1], b[0],
    ]
}

// The nonce of a number under an IV.
pub fn nonce(setting: Setting, iv: [u8; 12], number: u64) -> [u8; 12]
    ensures { result ≡ nonce_of setting iv number }
{
    if setting.number_first() {
        first(iv, number)
    } else {
        last(iv, number)
    }
}
