// An MCTP message: the byte of a secured message, and then the record.
ghost use Rattle.std.specs.Prelude.{◌≡◌};
ghost use Rattle.answers.specs.Answer.{code_of};
ghost use Rattle.mctp.specs.Led.{as_wrote};
ghost use Rattle.mctp.specs.Message.{wrap_record, read_message, record_of};

use crate::kind::Kind;
use crate::led;
use answers::Refusal;

// The message of a record at the start of `out`, and its length. The check 17.
pub fn wrap_record(rec: &[u8], out: &mut [u8]) -> Result<u64, Refusal>
    ensures { (as_wrote result, out.new) ≡ wrap_record rec.now out.old }
{
    led::put_led(Kind::SECURED, rec, out)
}

// Whether it is a message with a record. The check 21.
#[tactic(auto, unfolding(crate::specs::Message::frame_rows))]
pub fn read_message(message: &[u8]) -> Result<(), Refusal>
    ensures { code_of result ≡ read_message message.now }
{
    let Some(&byte) = message.first() else {
        return Err(Refusal::Frame);
    };
    if byte != Kind::SECURED {
        return Err(Refusal::Frame);
    }
    Ok(())
}

// The record of a message, or an empty part of it where `read_message` refuses it, as of
// application data.
#[tactic(auto, unfolding(crate::specs::Message::frame_rows, crate::specs::Led::behind))]
pub fn record_of(message: &[u8]) -> &[u8]
    ensures { result.now ≡ record_of message.now }
{
    match read_message(message) {
        Ok(()) => &message[1..],
        Err(_) => &message[..0],
    }
}
