// Bytes on a line.
use std::fmt;

// Each byte as two digits, with a space before it.
#[derive(Clone, Copy)]
pub(crate) struct Hex<'a>(pub &'a [u8]);

impl fmt::Display for Hex<'_> {
    fn fmt<W: fmt::Write>(&self, f: &mut fmt::Formatter<W>) -> fmt::Result {
        for b in self.0 {
            write!(f, " {b:02x}")?;
        }
        Ok(())
    }
}
