// The calls of a row's sender.
ghost use Rattle.std.specs.Prelude.{◌≡◌, length};
ghost use Rattle.answers.specs.Answer.{code_of};
ghost use Rattle.controller.specs.Calls.{build_in, build_out_in, turn_in, turn, table_after};
ghost use Rattle.controller.specs.Calls as Calls;
ghost use Rattle.controller.specs.Words.{rows_of, build_words, turn_words};
ghost use Rattle.controller.specs.Answers.{sent, as_sent};

use crate::table::Table;
use crate::{door, table};
use answers::Refusal;
use channel::Draft;

// Build of a row's sender. The checks State and Unknown, then the row's own.
pub fn build(
    table: &mut Table,
    row: u8,
    app: &[u8],
    random: &[u8],
    out: &mut [u8],
) -> Result<Draft, Refusal>
    ensures { (as_sent result ≡ sent (build_in (rows_of table.old) row (length app.now) (length random.now) (length out.old))) × (out.new ≡ build_out_in (rows_of table.old) row app.now random.now out.old) × (table.new ≡ build_words table.old row (length app.now) (length random.now) (length out.old)) × (rows_of table.new ≡ table_after (rows_of table.old) (Calls.build row app.now random.now out.old)) }
{
    let to = door::by_number(table, row)?;
    let (draft, next) = to.row.sender().build(app, random, out)?;
    table::put_row(table, to.at, to.row.with_sender(next));
    Ok(draft)
}

// A new send key in a row. The checks State and Unknown, then the row's own.
pub fn change_sender(table: &mut Table, row: u8, iv: [u8; 12]) -> Result<(), Refusal>
    ensures { (code_of result ≡ turn_in (rows_of table.old) row iv) × (table.new ≡ turn_words table.old row iv) × (rows_of table.new ≡ table_after (rows_of table.old) (turn row iv)) }
{
    let to = door::by_number(table, row)?;
    let next = to.row.sender().change_key(iv)?;
    table::put_row(table, to.at, to.row.with_sender(next));
    Ok(())
}
