// Rows opened and closed.
ghost use Rattle.std.specs.Prelude.{◌≡◌};
ghost use Rattle.answers.specs.Answer.{code_of};
ghost use Rattle.controller.specs.Calls.{enter, leave, open_in, close_in, table_after};
ghost use Rattle.controller.specs.Words.{rows_of, enter_words, leave_words};
ghost use Rattle.controller.specs.Answers.{as_opened};

use crate::table::Table;
use crate::{door, scan, table};
use answers::Refusal;
use channel::{Receiver, Sender};
use record::Setting;
use rows::Row;

// A receiver and a sender of this setting in the lowest free row, whose number is answered. The checks
// State, Setting, Twice and Rows.
pub fn open(table: &mut Table, setting: Setting, iv: [u8; 12], iw: [u8; 12]) -> Result<u8, Refusal>
    ensures { (as_opened result ≡ open_in (rows_of table.old) setting) × (table.new ≡ enter_words table.old setting iv iw) × (rows_of table.new ≡ table_after (rows_of table.old) (enter setting iv iw)) }
{
    if scan::clash(table) {
        return Err(Refusal::State);
    }
    let receiver = Receiver::open(setting, iv)?;
    let sender = Sender::open(setting, iw)?;
    let twice = scan::find_open(table, setting.session).is_some();
    if twice {
        return Err(Refusal::Twice);
    }
    let free = scan::find_free(table).ok_or(Refusal::Rows)?;
    let blank = Row { words: [0; 26] };
    let half = blank.with_receiver(receiver);
    table::put_row(table, free, half.with_sender(sender));
    // There are sixteen rows.
    Ok(free as u8)
}

// The row is free again. The checks State and Unknown.
pub fn close(table: &mut Table, row: u8) -> Result<(), Refusal>
    ensures { (code_of result ≡ close_in (rows_of table.old) row) × (table.new ≡ leave_words table.old row) × (rows_of table.new ≡ table_after (rows_of table.old) (leave row)) }
{
    let to = door::by_number(table, row)?;
    table::put_row(table, to.at, Row { words: [0; 26] });
    Ok(())
}
