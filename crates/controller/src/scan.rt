// What is asked of all rows.
ghost use Rattle.std.specs.Prelude.{◌≡◌};
ghost use Rattle.rows.specs.Ends.{ends_of, is_free};
ghost use Rattle.controller.specs.Table.{some, has, clashes, rises};
ghost use Rattle.controller.specs.Words.{rows_of, first_row};

use crate::table;

// Whether the row is open and has this Session ID.
#[tactic(auto, unfolding(crate::specs::Table::has))]
fn has_id(row: &[u64; 26], id: u32) -> bool
    ensures { result ≡ has id (ends_of row.now) }
{
    table::id_of(row) == id && !table::is_free(row)
}

// The lowest open row with this Session ID.
pub(crate) fn find_open(table: &[[u64; 26]], id: u32) -> Option<usize>
    ensures { result ≡ first_row (has id) table.now }
{
    table.iter().position(|row| has_id(row, id))
}

// The lowest free row.
pub(crate) fn find_free(table: &[[u64; 26]]) -> Option<usize>
    ensures { result ≡ first_row is_free table.now }
{
    table.iter().position(|row| table::is_free(row))
}

// Whether one of these rows is open and has this Session ID. By `find_open` each delivery through the table
// takes 40 ns longer and 600 bytes more of stack.
fn shared(rows: &[[u64; 26]], id: u32) -> bool
    ensures { result ≡ some (has id) (rows_of rows.now) }
{
    rows.iter().any(|row| has_id(row, id))
}

// Whether no row is split and the Session IDs of the open rows rise from row to row.
#[tactic(auto, unfolding(crate::specs::Table::rises))]
fn rising(table: &[[u64; 26]]) -> bool
    ensures { result ≡ rises 0 (rows_of table.now) }
{
    let mut least: u64 = 0;
    for row in table {
        if table::is_split(row) {
            return false;
        }
        if !table::is_free(row) {
            let id = u64::from(table::id_of(row));
            if id < least {
                return false;
            }
            least = id + 1;
        }
    }
    true
}

// Whether two open rows share a Session ID, or the two ends of a row differ in it.
#[tactic(auto, unfolding(crate::specs::Table::clashes))]
fn pairs_clash(table: &[[u64; 26]]) -> bool
    ensures { result ≡ clashes (rows_of table.now) }
{
    let mut rest = table;
    while let Some((row, after)) = rest.split_first() {
        if table::is_split(row) || !table::is_free(row) && shared(after, table::id_of(row)) {
            return true;
        }
        rest = after;
    }
    false
}

// The same, seen in one scan where the Session IDs rise, as they mostly do; else by pairs.
#[tactic(auto, using(crate::proofs::Rising::rises_apart))]
pub(crate) fn clash(table: &[[u64; 26]]) -> bool
    ensures { result ≡ clashes (rows_of table.now) }
{
    !rising(table) && pairs_clash(table)
}
