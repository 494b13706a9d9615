// How the channels of the worked cases are set.
use record::Setting;

// How most of them are.
pub(crate) fn usual(mode: u8) -> Setting {
    Setting {
        mode,
        layout: 0,
        mac: 16,
        profile: 0,
        width: 64,
        session: 0x11223344,
        limit: u64::MAX,
    }
}

// The same on the test bench's cable (request h).
pub(crate) fn bench(mode: u8) -> Setting {
    Setting {
        profile: 1,
        ..usual(mode)
    }
}
