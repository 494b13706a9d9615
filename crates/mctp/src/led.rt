// A byte, and then the bytes that it leads.
ghost use Rattle.std.specs.Prelude.{◌≡◌, ◌∷◌};
ghost use Rattle.mctp.specs.Led.{as_wrote, room_rows, writes};

use answers::Refusal;

// `byte` and then `rest` at the start of `out`, and their length. The check 17.
#[tactic(auto, using(crate::proofs::Parts::byte_then_rest), unfolding(crate::specs::Led::writes, crate::specs::Led::room_rows))]
pub(crate) fn put_led(byte: u8, rest: &[u8], out: &mut [u8]) -> Result<u64, Refusal>
    ensures { (as_wrote result, out.new) ≡ writes (room_rows (byte ∷ rest.now) out.old) (byte ∷ rest.now) out.old }
{
    if out.len() <= rest.len() {
        return Err(Refusal::Room);
    }
    out[0] = byte;
    octets::put(out, 1, rest);
    Ok(rest.len() as u64 + 1)
}
