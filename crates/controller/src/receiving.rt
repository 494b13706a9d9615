// The calls of a row's receiver.
ghost use Rattle.std.specs.Prelude.{◌≡◌};
ghost use Rattle.answers.specs.Refusal.{authentic};
ghost use Rattle.answers.specs.Answer.{code_of};
ghost use Rattle.channel.specs.Call as Call;
ghost use Rattle.channel.specs.Receiver.{offered, counted};
ghost use Rattle.channel.specs.Told.{as_offered, as_counted, settle_call};
ghost use Rattle.controller.specs.Doors.{session, number};
ghost use Rattle.controller.specs.Calls.{receive, receive_in, table_after};
ghost use Rattle.controller.specs.Words.{rows_of, receive_words};
ghost use Rattle.controller.specs.Answers.{taken, as_taken};

use crate::table::Table;
use crate::{door, table};
use answers::Refusal;
use channel::{Offer, Span, Verdict};

// Offer of the row that has the record's Session ID. The checks State, Short and Unknown, then the
// row's own.
pub fn offer(table: &Table, rec: &[u8], slot: u8) -> Result<Offer, Refusal>
    ensures { as_offered result ≡ offered (receive_in (rows_of table.now) (session rec.now) (Call.offer rec.now slot)) }
{
    let to = door::by_session(table, rec)?;
    to.row.receiver().offer(rec, slot)
}

// Whether the row has another receiver after a Settle: where it is granted, and where its refusal marks.
#[tactic(auto, unfolding(answers::specs::Refusal::authentic))]
fn moves(settled: Result<Span, Refusal>) -> bool
    ensures { result ≡ authentic (code_of settled) }
{
    match settled {
        Ok(_) => true,
        Err(why) => why.marks(),
    }
}

// Settle of the row that has the record's Session ID. The checks State, Short and Unknown, then the
// row's own.
pub fn settle(table: &mut Table, verdict: Verdict) -> Result<Span, Refusal>
    ensures { (as_taken result ≡ taken (receive_in (rows_of table.old) (session verdict.entry.rec.now) (settle_call verdict.entry))) × (table.new ≡ receive_words table.old (session verdict.entry.rec.now) (settle_call verdict.entry)) × (rows_of table.new ≡ table_after (rows_of table.old) (receive (session verdict.entry.rec.now) (settle_call verdict.entry))) }
{
    let to = door::by_session(table, verdict.rec)?;
    let (settled, next) = to.row.receiver().settle(verdict);
    if moves(settled) {
        table::put_row(table, to.at, to.row.with_receiver(next));
    }
    settled
}

// The gap count of a row's key. The checks State and Unknown, then the row's own.
pub fn gaps(table: &Table, row: u8, slot: u8) -> Result<u32, Refusal>
    ensures { as_counted result ≡ counted (receive_in (rows_of table.now) (number row) (Call.gaps slot)) }
{
    let to = door::by_number(table, row)?;
    to.row.receiver().gaps(slot)
}

// A new receive key in a row. The checks State and Unknown, then the row's own.
pub fn change_receiver(table: &mut Table, row: u8, iv: [u8; 12]) -> Result<(), Refusal>
    ensures { (code_of result ≡ (receive_in (rows_of table.old) (number row) (Call.change_key iv)).code) × (table.new ≡ receive_words table.old (number row) (Call.change_key iv)) × (rows_of table.new ≡ table_after (rows_of table.old) (receive (number row) (Call.change_key iv))) }
{
    let to = door::by_number(table, row)?;
    let next = to.row.receiver().change_key(iv)?;
    table::put_row(table, to.at, to.row.with_receiver(next));
    Ok(())
}

// The old receive key of a row is forgotten. The checks State and Unknown, then the row's own. This and
// the key changes are four lines each; one function over a closure would state what the closure does.
pub fn drop(table: &mut Table, row: u8) -> Result<(), Refusal>
    ensures { (code_of result ≡ (receive_in (rows_of table.old) (number row) Call.drop_old).code) × (table.new ≡ receive_words table.old (number row) Call.drop_old) × (rows_of table.new ≡ table_after (rows_of table.old) (receive (number row) Call.drop_old)) }
{
    let to = door::by_number(table, row)?;
    let next = to.row.receiver().drop()?;
    table::put_row(table, to.at, to.row.with_receiver(next));
    Ok(())
}
