// One offer settled twice on the test bench's cable (request h).
use crate::failure::Failure;
use crate::settings;
use channel::{Receiver, Sender, Settled, Verdict};
use record::Setting;

// Settles the offer of record 0 twice, under each limit.
pub(crate) fn settled_twice(rt: &impl Print) -> Result<(), Failure> {
    for (name, limit) in [
        ("bench, one offer", 2),
        ("bench, one offer at the limit", 1),
    ] {
        let setting = Setting {
            limit,
            ..settings::bench(0)
        };
        let mut rec = [0; 25];
        Sender::open(setting, [0; 12])?.build(b"\xA0\xA1\xA2", b"", &mut rec)?;
        let r = Receiver::open(setting, [0; 12])?;
        let offer = r.offer(&rec, 0)?;
        let verdict = Verdict {
            rec: &rec,
            slot: 0,
            count: offer.count,
            number: offer.number,
            passed: true,
            plain: b"",
        };
        let first = Settled::from(r.settle(verdict));
        let second = Settled::from(first.next.settle(verdict));
        println!(rt;
            "{name}: settle {}, again {}, {} bytes from {}",
            first.answer, second.answer, first.length, first.place
        )?;
    }
    Ok(())
}
