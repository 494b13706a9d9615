// The parts of an end and their words. A word is cut to what its field holds: the bits above are
// padding.
ghost use Rattle.std.specs.Prelude.{◌≡◌, get_or};
ghost use Rattle.octets.specs.Fields.{blank};
ghost use Rattle.record.specs.Setting.{is_zero_setting};
ghost use Rattle.channel.specs.Key.{is_zero_key};
ghost use Rattle.rows.specs.Part.{setting_of, count_of, iv_of, four_at, key_of, setting_words, iv_words, key_words};

use channel::Key;
use numbers::{Marks, Window};
use record::Setting;

// What two bytes hold is below this.
const PAIR: u64 = 65536;

// What half a word holds is below this.
const HALF: u64 = 4294967296;

// What six bytes hold is below this.
const SIX: u64 = 281474976710656;

// The mode, the layout, the MAC's length, the profile and the width share a word. The width by its
// quotient: put together from two bytes, the word was spilled, and writing it back took 6 ns more.
pub(crate) fn setting_of(head: u64, session: u64, limit: u64) -> Setting
    ensures { result ≡ setting_of head session limit }
{
    let b = head.to_le_bytes();
    Setting {
        mode: b[0],
        layout: b[1],
        mac: b[2],
        profile: b[3],
        width: (head / HALF % PAIR) as u16,
        session: (session % HALF) as u32,
        limit,
    }
}

pub(crate) fn count_of(count: u64) -> u32
    ensures { result ≡ count_of count }
{
    (count % HALF) as u32
}

// The IV whose first eight bytes are one word, and whose last four another.
pub(crate) fn iv_of(head: u64, tail: u64) -> [u8; 12]
    ensures { result ≡ iv_of head tail }
{
    let mut iv = [0; 12];
    iv[..8].copy_from_slice(&head.to_le_bytes());
    iv[8..].copy_from_slice(&tail.to_le_bytes()[..4]);
    iv
}

pub(crate) fn key_of(head: u64, tail: u64, next: u64, words: [u64; 4]) -> Key
    ensures { result ≡ key_of head tail next words }
{
    Key {
        iv: iv_of(head, tail),
        window: Window {
            next,
            marks: Marks { words },
        },
    }
}

// Here and below: whether a part is all zeros, seen at its words. To make it and ask `==` took three times as long.
#[tactic(auto, using(crate::proofs::Zeros::zero_setting_test))]
pub(crate) fn is_zero_setting(head: u64, session: u64, limit: u64) -> bool
    ensures { result ≡ is_zero_setting (setting_of head session limit) }
{
    (head % SIX == 0) & (session % HALF == 0) & (limit == 0)
}

#[tactic(auto, using(crate::proofs::Zeros::zero_iv_test))]
pub(crate) fn is_zero_iv(head: u64, tail: u64) -> bool
    ensures { result ≡ blank 12 (iv_of head tail) }
{
    (head == 0) & (tail % HALF == 0)
}

#[tactic(auto, unfolding(channel::specs::Key::is_zero_key))]
pub(crate) fn is_zero_key(head: u64, tail: u64, next: u64, words: [u64; 4]) -> bool
    ensures { result ≡ is_zero_key (key_of head tail next words) }
{
    let window = Window {
        next,
        marks: Marks { words },
    };
    is_zero_iv(head, tail) & window.is_empty()
}

// Here and below: the words written, and that they are read back as what was written.
pub(crate) fn setting_words(setting: Setting) -> [u64; 3]
    ensures { (result ≡ setting_words setting) × (setting_of (get_or result 0 0) (get_or result 1 0) (get_or result 2 0) ≡ setting) }
{
    let width = setting.width.to_le_bytes();
    let head = u64::from_le_bytes([
        setting.mode,
        setting.layout,
        setting.mac,
        setting.profile,
        width[0],
        width[1],
        0,
        0,
    ]);
    [head, u64::from(setting.session), setting.limit]
}

pub(crate) fn iv_words(iv: [u8; 12]) -> [u64; 2]
    ensures { (result ≡ iv_words iv) × (iv_of (get_or result 0 0) (get_or result 1 0) ≡ iv) }
{
    let head = u64::from_le_bytes([iv[0], iv[1], iv[2], iv[3], iv[4], iv[5], iv[6], iv[7]]);
    let tail = u32::from_le_bytes([iv[8], iv[9], iv[10], iv[11]]);
    [head, u64::from(tail)]
}

pub(crate) fn key_words(key: Key) -> [u64; 7]
    ensures { (result ≡ key_words key) × (key_of (get_or result 0 0) (get_or result 1 0) (get_or result 2 0) (four_at result 3) ≡ key) }
{
    let iv = key.iv;
    let w = iv_words(iv);
    let m = key.window.marks.words;
    [w[0], w[1], key.window.next, m[0], m[1], m[2], m[3]]
}
