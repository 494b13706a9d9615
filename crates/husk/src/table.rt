// The calls of the controller's table. It is lent and changed in place.
ghost use Rattle.std.specs.Prelude.{◌≡◌, eqb, length};
ghost use Rattle.channel.specs.Call as Call;
ghost use Rattle.channel.specs.Receiver.{offered, counted};
ghost use Rattle.controller.specs.Doors.{session, number};
ghost use Rattle.controller.specs.Calls.{enter, leave, open_in, close_in, receive, receive_in, build_in, build_out_in, turn_in, turn, table_after};
ghost use Rattle.controller.specs.Calls as Calls;
ghost use Rattle.controller.specs.Words.{rows_of, enter_words, leave_words, receive_words, build_words, turn_words};
ghost use Rattle.controller.specs.Answers.{taken, sent};

use crate::sender::Iv;
use channel::{Counted, Offered, Verdict};
use controller::{Opened, Sent, Table, Taken};
use record::Setting;

#[unsafe(no_mangle)]
pub extern "C" fn husk_table_open(table: &mut Table, setting: Setting, iv: Iv, iw: Iv) -> Opened
    ensures { ((result.answer, result.row) ≡ open_in (rows_of table.old) setting) × (table.new ≡ enter_words table.old setting iv.bytes iw.bytes) × (rows_of table.new ≡ table_after (rows_of table.old) (enter setting iv.bytes iw.bytes)) }
{
    let receiving = iv.bytes;
    let sending = iw.bytes;
    controller::open(table, setting, receiving, sending).into()
}

#[unsafe(no_mangle)]
pub extern "C" fn husk_table_close(table: &mut Table, row: u8) -> u8
    ensures { (result ≡ close_in (rows_of table.old) row) × (table.new ≡ leave_words table.old row) × (rows_of table.new ≡ table_after (rows_of table.old) (leave row)) }
{
    answers::code(controller::close(table, row))
}

#[unsafe(no_mangle)]
pub extern "C" fn husk_table_offer(table: &Table, rec: &[u8], slot: u8) -> Offered
    ensures { result ≡ offered (receive_in (rows_of table.now) (session rec.now) (Call.offer rec.now slot)) }
{
    controller::offer(table, rec, slot).into()
}

#[unsafe(no_mangle)]
pub extern "C" fn husk_table_settle(
    table: &mut Table,
    rec: &[u8],
    slot: u8,
    count: u32,
    number: u64,
    yes: u8,
    plain: &[u8],
) -> Taken
    ensures { (result ≡ taken (receive_in (rows_of table.old) (session rec.now) (Call.settle rec.now slot count number (eqb yes 1) plain.now))) × (table.new ≡ receive_words table.old (session rec.now) (Call.settle rec.now slot count number (eqb yes 1) plain.now)) × (rows_of table.new ≡ table_after (rows_of table.old) (receive (session rec.now) (Call.settle rec.now slot count number (eqb yes 1) plain.now))) }
{
    let verdict = Verdict {
        rec,
        slot,
        count,
        number,
        passed: yes == 1,
        plain,
    };
    controller::settle(table, verdict).into()
}

#[unsafe(no_mangle)]
pub extern "C" fn husk_table_build(
    table: &mut Table,
    row: u8,
    app: &[u8],
    random: &[u8],
    out: &mut [u8],
) -> Sent
    ensures { (result ≡ sent (build_in (rows_of table.old) row (length app.now) (length random.now) (length out.old))) × (out.new ≡ build_out_in (rows_of table.old) row app.now random.now out.old) × (table.new ≡ build_words table.old row (length app.now) (length random.now) (length out.old)) × (rows_of table.new ≡ table_after (rows_of table.old) (Calls.build row app.now random.now out.old)) }
{
    controller::build(table, row, app, random, out).into()
}

#[unsafe(no_mangle)]
pub extern "C" fn husk_table_gaps(table: &Table, row: u8, slot: u8) -> Counted
    ensures { result ≡ counted (receive_in (rows_of table.now) (number row) (Call.gaps slot)) }
{
    controller::gaps(table, row, slot).into()
}

#[unsafe(no_mangle)]
pub extern "C" fn husk_table_change_receiver(table: &mut Table, row: u8, iv: Iv) -> u8
    ensures { (result ≡ (receive_in (rows_of table.old) (number row) (Call.change_key iv.bytes)).code) × (table.new ≡ receive_words table.old (number row) (Call.change_key iv.bytes)) × (rows_of table.new ≡ table_after (rows_of table.old) (receive (number row) (Call.change_key iv.bytes))) }
{
    let bytes = iv.bytes;
    answers::code(controller::change_receiver(table, row, bytes))
}

#[unsafe(no_mangle)]
pub extern "C" fn husk_table_change_sender(table: &mut Table, row: u8, iv: Iv) -> u8
    ensures { (result ≡ turn_in (rows_of table.old) row iv.bytes) × (table.new ≡ turn_words table.old row iv.bytes) × (rows_of table.new ≡ table_after (rows_of table.old) (turn row iv.bytes)) }
{
    let bytes = iv.bytes;
    answers::code(controller::change_sender(table, row, bytes))
}

#[unsafe(no_mangle)]
pub extern "C" fn husk_table_drop(table: &mut Table, row: u8) -> u8
    ensures { (result ≡ (receive_in (rows_of table.old) (number row) Call.drop_old).code) × (table.new ≡ receive_words table.old (number row) Call.drop_old) × (rows_of table.new ≡ table_after (rows_of table.old) (receive (number row) Call.drop_old)) }
{
    answers::code(controller::drop(table, row))
}
