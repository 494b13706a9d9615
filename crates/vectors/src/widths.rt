// A record that is late by 150 at each width of the window (request f).
use crate::failure::Failure;
use crate::settings;
use answers::Refusal;
use channel::{Offered, Receiver, Sender, Verdict};
use record::Setting;

// The record of this number.
fn numbered(number: u64) -> Result<[u8; 27], Refusal> {
    let mut rec = [0; 27];
    let mut s = Sender::open(settings::usual(0), [0; 12])?;
    s.next = number;
    s.build(b"\xA0\xA1\xA2", b"", &mut rec)?;
    Ok(rec)
}

// That the record of this number passed.
fn passed(rec: &[u8], number: u64) -> Verdict<'_> {
    Verdict {
        rec,
        slot: 0,
        count: 0,
        number,
        passed: true,
        plain: b"",
    }
}

// A receiver that has marked number 999, so that 1000 is next.
fn after_999(width: u16) -> Result<Receiver, Refusal> {
    let setting = Setting {
        width,
        ..settings::usual(0)
    };
    let rec = numbered(999)?;
    let r = Receiver::open(setting, [0; 12])?;
    let (settled, next) = r.settle(passed(&rec, 999));
    settled?;
    Ok(next)
}

// Offers number 850, settles it and offers it again.
pub(crate) fn late_by_150(rt: &impl Print) -> Result<(), Failure> {
    let rec = numbered(850)?;
    for width in [64, 128, 192, 256] {
        let r = after_999(width)?;
        let first = Offered::from(r.offer(&rec, 0)).answer;
        let (_, r) = r.settle(passed(&rec, 850));
        let second = Offered::from(r.offer(&rec, 0)).answer;
        println!(rt; "width {width}, late by 150: offer {first}, settled and again {second}")?;
    }
    Ok(())
}
