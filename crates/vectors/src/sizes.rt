// The largest records and the smallest.
use crate::failure::Failure;
use crate::settings;
use answers::Refusal;
use channel::{Built, Offered, Receiver, Sender, Settled, Verdict};
use record::Setting;

// What C is told of a Build of p bytes of data and q random bytes.
fn built(mac: u8, mode: u8, p: u16, q: u16) -> Result<Built, Refusal> {
    let source = [0; 65536];
    let mut out = [0; 65543];
    let setting = Setting {
        mac,
        ..settings::usual(mode)
    };
    let s = Sender::open(setting, [0; 12])?;
    let app = octets::part(&source, 0, usize::from(p));
    let random = octets::part(&source, 0, usize::from(q));
    Ok(Built::after(s, s.build(app, random, &mut out)))
}

// The largest record and the next that is refused, in both modes and with each MAC (request c).
pub(crate) fn largest(rt: &impl Print) -> Result<(), Failure> {
    let cases = [
        ("", 16, [65519, 65520], [517, 518]),
        ("MAC of 8, ", 8, [65527, 65528], [525, 526]),
        ("MAC of 12, ", 12, [65523, 65524], [521, 522]),
    ];
    for (name, mac, data, random) in cases {
        for p in data {
            let Built { answer, total, .. } = built(mac, 0, p, 0)?;
            println!(rt; "{name}mode 0, P = {p}: {answer}, {total} in all")?;
        }
        for q in random {
            let p = 65000;
            let Built { answer, total, .. } = built(mac, 1, p, q)?;
            let sum = u32::from(p) + u32::from(q);
            println!(rt; "{name}mode 1, P + R = {sum}: {answer}, {total} in all")?;
        }
    }
    Ok(())
}

// Records of Length 18: the text of the first says that its data has no byte, that of the second one.
pub(crate) fn smallest(rt: &impl Print) -> Result<(), Failure> {
    let mut first = [0; 26];
    let mut second = [0; 26];
    let s = Sender::open(settings::usual(1), [0; 12])?;
    let (_, s) = s.build(b"", b"", &mut first)?;
    s.build(b"", b"", &mut second)?;
    let mut r = Receiver::open(settings::usual(1), [0; 12])?;
    let cases = [
        ("Length 18, data length 0", first, 0),
        ("Length 18, data length 1", second, 1),
        ("the same record again", second, 1),
    ];
    for (name, rec, n) in cases {
        let plain = [n, 0];
        let offered = Offered::from(r.offer(&rec, 0));
        let settled = Settled::from(r.settle(Verdict {
            rec: &rec,
            slot: 0,
            count: offered.count,
            number: offered.number,
            passed: true,
            plain: &plain,
        }));
        let data = record::view(1, settled.place, settled.length, &rec, &plain);
        println!(rt;
            "{name}: offer {}, settle {}, place {}, {} bytes",
            offered.answer,
            settled.answer,
            settled.place,
            data.len()
        )?;
        r = settled.next;
    }
    Ok(())
}
