// Where the fields of a record's header are, and a header written.
ghost use Rattle.std.specs.Prelude.{◌≡◌, ◌≤◌, length};
ghost use Rattle.octets.specs.Parts.{over};
ghost use Rattle.record.specs.Header.{length_at, head_of};
ghost use Rattle.record.specs.Shape.{head_len};

use crate::setting::Setting;

pub(crate) const SESSION_AT: usize = 0;

pub(crate) const PARTIAL_AT: usize = 4;

// Length behind a partial number, and without one.
const LENGTH_AT: usize = 6;

const BARE_LENGTH_AT: usize = 4;

#[tactic(auto, unfolding(crate::specs::Header::length_at))]
pub(crate) fn length_at(setting: Setting) -> usize
    ensures { result ≡ length_at setting }
{
    if setting.has_partial() {
        LENGTH_AT
    } else {
        BARE_LENGTH_AT
    }
}

// A header at the start of `out`.
pub(crate) fn put_head(setting: Setting, number: u64, len: u64, out: &mut [u8])
    requires { head_len setting ≤ length out.old }
    ensures { out.new ≡ over out.old 0 (head_of setting number len) }
{
    octets::put_little32(out, SESSION_AT, u64::from(setting.session));
    if setting.has_partial() {
        octets::put_little16(out, PARTIAL_AT, number);
        octets::put_little16(out, LENGTH_AT, len);
    } else {
        octets::put_little16(out, BARE_LENGTH_AT, len);
    }
}
