// The sender's calls.
ghost use Rattle.std.specs.Prelude.{◌≡◌, length};
ghost use Rattle.channel.specs.Sender.{open_sender, build_of, build_out, change_sender};

use channel::{Built, Sender, SenderStep};
use record::Setting;

// Twelve bytes in a struct, since C passes no array by value.
#[repr(C)]
#[derive(Clone, Copy)]
pub struct Iv {
    pub bytes: [u8; 12],
}

#[unsafe(no_mangle)]
pub extern "C" fn husk_open_sender(setting: Setting, iv: Iv) -> SenderStep
    ensures { result ≡ open_sender setting iv.bytes }
{
    let bytes = iv.bytes;
    SenderStep::after(Sender::zeros(), Sender::open(setting, bytes))
}

#[unsafe(no_mangle)]
pub extern "C" fn husk_build(sender: Sender, app: &[u8], random: &[u8], out: &mut [u8]) -> Built
    ensures { (result ≡ build_of sender (length app.now) (length random.now) (length out.old)) × (out.new ≡ build_out sender app.now random.now out.old) }
{
    Built::after(sender, sender.build(app, random, out))
}

#[unsafe(no_mangle)]
pub extern "C" fn husk_change_sender(sender: Sender, iv: Iv) -> SenderStep
    ensures { result ≡ change_sender sender iv.bytes }
{
    let bytes = iv.bytes;
    SenderStep::after(sender, sender.change_key(bytes))
}
