// Message types.

// The type of an MCTP message, in the low bits of a byte whose top bit is the integrity check's. The
// types are numbers and no enum: whatever byte comes is answered for.
#[derive(Clone, Copy)]
pub struct Kind {
    pub number: u8,
}

impl Kind {
    // A secured message: the record behind the byte.
    pub const SECURED: u8 = 6;

    // The type that must not stand inside a record: a secured message again.
    pub const BARRED: u8 = Kind::SECURED;

    // The largest type, which is the mask of a type's bits too.
    pub const LARGEST: u8 = 127;

    // How many bits a type has.
    pub const BITS: u8 = 7;

    // The bit E-IC.
    pub const INTEGRITY: u8 = 128;
}
