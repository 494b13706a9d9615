// The view of a record's data.
ghost use Rattle.std.specs.Prelude.{◌≡◌};
ghost use Rattle.record.specs.View.{view_of};

// The application data: a part of the record in mode 0, of the plaintext buffer in mode 1. Empty
// for another mode, or where it does not fit: C asks with any number for a mode, so it is none of an enum.
#[tactic(auto, unfolding(crate::specs::View::view_of))]
pub fn view<'a>(mode: u8, place: u64, len: u64, rec: &'a [u8], plain: &'a [u8]) -> &'a [u8]
    ensures { result.now ≡ view_of mode place len rec.now plain.now }
{
    match mode {
        0 => octets::part(rec, place as usize, len as usize),
        1 => octets::part(plain, place as usize, len as usize),
        _ => &plain[..0],
    }
}
