// How a call reaches a row: by a record's Session ID, or by the row's number.
ghost use Rattle.std.specs.Prelude.{◌≡◌};
ghost use Rattle.controller.specs.Doors.{session, number};
ghost use Rattle.controller.specs.Words.{as_reached, reached_in};

use crate::{scan, table};
use answers::Refusal;
use record::Record;
use rows::Row;

// The row, and its place in the table.
#[derive(Clone, Copy)]
pub(crate) struct Reach {
    pub(crate) at: usize,
    pub(crate) row: Row,
}

// The length of the shortest header.
const SHORTEST: usize = Record::BARE_HEADER as usize;

// State, then Short, then Unknown.
pub(crate) fn by_session(table: &[[u64; 26]], rec: &[u8]) -> Result<Reach, Refusal>
    ensures { as_reached result ≡ reached_in table.now (session rec.now) }
{
    if scan::clash(table) {
        return Err(Refusal::State);
    }
    if rec.len() < SHORTEST {
        return Err(Refusal::Short);
    }
    let at = scan::find_open(table, octets::little32(rec, 0)).ok_or(Refusal::Unknown)?;
    Ok(Reach {
        at,
        row: table::row_at(table, at),
    })
}

// State, then Unknown.
pub(crate) fn by_number(table: &[[u64; 26]], row: u8) -> Result<Reach, Refusal>
    ensures { as_reached result ≡ reached_in table.now (number row) }
{
    if scan::clash(table) {
        return Err(Refusal::State);
    }
    let at = usize::from(row);
    let row = table::row_at(table, at);
    if table::is_free(&row.words) {
        return Err(Refusal::Unknown);
    }
    Ok(Reach { at, row })
}
