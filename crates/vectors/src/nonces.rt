// The nonces of two numbers, in both layouts.
use crate::hex::Hex;
use crate::settings;
use record::Setting;
use std::io;

pub(crate) fn shown(rt: &impl Print) -> io::Result<()> {
    let iv = [0, 1, 2, 3, 4, 5, 6, 7, 8, 9, 10, 11];
    let cases = [
        ("0x0102", 0, 0x0102),
        ("0x0102, layout 1", 1, 0x0102),
        ("0", 0, 0),
        ("0, layout 1", 1, 0),
    ];
    for (name, layout, number) in cases {
        let setting = Setting {
            layout,
            ..settings::usual(0)
        };
        let nonce = record::nonce(setting, iv, number);
        println!(rt; "nonce of {name}:{}", Hex(&nonce))?;
    }
    Ok(())
}
