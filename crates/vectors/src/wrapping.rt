// What may stand inside a record and around it.
use mctp::Data;
use std::io;

pub(crate) fn inner(rt: &impl Print) -> io::Result<()> {
    for byte in [0x05, 0x85, 0x06, 0x86] {
        let Data { answer, .. } = mctp::read_data(&[byte]).into();
        println!(rt; "data {byte:02x}: {answer}")?;
    }
    Ok(())
}

pub(crate) fn outer(rt: &impl Print) -> io::Result<()> {
    for byte in [0x06, 0x86] {
        let answer = answers::code(mctp::read_message(&[byte]));
        println!(rt; "message {byte:02x}: {answer}")?;
    }
    Ok(())
}
