// The receiver's calls, and the view.
ghost use Rattle.std.specs.Prelude.{◌≡◌, eqb};
ghost use Rattle.record.specs.View.{view_of};
ghost use Rattle.channel.specs.Receiver.{open_receiver, gaps_of, offer_of, settle_of, change_receiver, drop_of};

use crate::sender::Iv;
use channel::{Counted, Offered, Receiver, ReceiverStep, Settled, Verdict};
use record::Setting;

#[unsafe(no_mangle)]
pub extern "C" fn husk_open_receiver(setting: Setting, iv: Iv) -> ReceiverStep
    ensures { result ≡ open_receiver setting iv.bytes }
{
    let bytes = iv.bytes;
    ReceiverStep::after(Receiver::zeros(), Receiver::open(setting, bytes))
}

#[unsafe(no_mangle)]
pub extern "C" fn husk_gaps(receiver: Receiver, slot: u8) -> Counted
    ensures { result ≡ gaps_of receiver slot }
{
    receiver.gaps(slot).into()
}

#[unsafe(no_mangle)]
pub extern "C" fn husk_offer(receiver: Receiver, rec: &[u8], slot: u8) -> Offered
    ensures { result ≡ offer_of receiver rec.now slot }
{
    receiver.offer(rec, slot).into()
}

#[unsafe(no_mangle)]
pub extern "C" fn husk_settle(
    receiver: Receiver,
    rec: &[u8],
    slot: u8,
    count: u32,
    number: u64,
    yes: u8,
    plain: &[u8],
) -> Settled
    ensures { result ≡ settle_of receiver rec.now slot count number (eqb yes 1) plain.now }
{
    let verdict = Verdict {
        rec,
        slot,
        count,
        number,
        passed: yes == 1,
        plain,
    };
    receiver.settle(verdict).into()
}

#[unsafe(no_mangle)]
pub extern "C" fn husk_change_receiver(receiver: Receiver, iv: Iv) -> ReceiverStep
    ensures { result ≡ change_receiver receiver iv.bytes }
{
    let bytes = iv.bytes;
    ReceiverStep::after(receiver, receiver.change_key(bytes))
}

#[unsafe(no_mangle)]
pub extern "C" fn husk_drop(receiver: Receiver) -> ReceiverStep
    ensures { result ≡ drop_of receiver }
{
    ReceiverStep::after(receiver, receiver.drop())
}

// The part is lent back through `out`, since C returns no slice.
#[unsafe(no_mangle)]
pub extern "C" fn husk_view<'a>(
    mode: u8,
    place: u64,
    len: u64,
    rec: &'a [u8],
    plain: &'a [u8],
    out: &mut &'a [u8],
)
    ensures { out.new.now ≡ view_of mode place len rec.now plain.now }
{
    *out = record::view(mode, place, len, rec, plain);
}
