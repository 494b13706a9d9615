// Why the program ends before its last line.
use answers::Refusal;
use std::{fmt, io};

// A refusal that no worked case is about, or a line that could not be written.
#[derive(Drop)]
pub(crate) enum Failure {
    Refused(Refusal),
    Unwritten(io::Error),
}

// What `main` says of it on standard error: the reason alone.
impl fmt::Debug for Failure {
    fn fmt<W: fmt::Write>(&self, f: &mut fmt::Formatter<W>) -> fmt::Result {
        match self {
            Failure::Refused(why) => why.fmt(f),
            Failure::Unwritten(why) => why.fmt(f),
        }
    }
}

impl From<Refusal> for Failure {
    fn from(why: Refusal) -> Failure {
        Failure::Refused(why)
    }
}

impl From<io::Error> for Failure {
    fn from(why: io::Error) -> Failure {
        Failure::Unwritten(why)
    }
}
