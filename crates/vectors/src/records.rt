// Records byte by byte.
use crate::failure::Failure;
use crate::hex::Hex;
use crate::settings;
use answers::Refusal;
use channel::Sender;
use record::{Form, Setting};

// A sender that has built the numbers 0 to 4.
fn at_five(setting: Setting) -> Result<Sender, Refusal> {
    let mut out = [0; 32];
    let mut s = Sender::open(setting, [0; 12])?;
    for _ in 0..5 {
        (_, s) = s.build(b"", b"", &mut out)?;
    }
    Ok(s)
}

// Of each record all but the MAC, with what its Build handed out.
pub(crate) fn shown(rt: &impl Print) -> Result<(), Failure> {
    let cases = [
        ("mode 0", settings::usual(0), &b""[..]),
        ("mode 1", settings::usual(1), b"\xFF"),
        ("bench, mode 0", settings::bench(0), b""),
        ("bench, mode 1", settings::bench(1), b"\xFF"),
    ];
    for (name, setting, random) in cases {
        let mut out = [0; 32];
        let (draft, _) = at_five(setting)?.build(b"\xA0\xA1\xA2", random, &mut out)?;
        let number = draft.number;
        let Form { assoc, text, total } = draft.form;
        let bytes = Hex(octets::part(&out, 0, text as usize));
        println!(rt;
            "{name}, number {number}, associated data to {assoc}, text to {text}, \
             {total} in all:{bytes}"
        )?;
    }
    Ok(())
}
