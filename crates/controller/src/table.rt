// The table's words, a row of them at a time.
ghost use Rattle.std.specs.Prelude.{◌≡◌, set};
ghost use Rattle.rows.specs.Ends.{ends_of, is_free, is_split, id_of};
ghost use Rattle.controller.specs.Words.{words_at};

use rows::Row;

// Words, and no Vec or map of rows: C lends the table, and there is no heap. A row is named by its number
// beside the table, as C names it.
pub type Table = [[u64; 26]; 16];

// A Session ID is below this: the bits above are padding.
const HALF: u64 = 4294967296;

// Of a row where it lies: its Session ID,
#[tactic(auto, unfolding(rows::specs::Ends::receiver_of))]
pub(crate) fn id_of(row: &[u64; 26]) -> u32
    ensures { result ≡ id_of (ends_of row.now) }
{
    (row[Row::ID] % HALF) as u32
}

// whether its two ends differ in it,
#[tactic(auto, unfolding(rows::specs::Ends::receiver_of, rows::specs::Ends::sender_of, rows::specs::Ends::is_split))]
pub(crate) fn is_split(row: &[u64; 26]) -> bool
    ensures { result ≡ is_split (ends_of row.now) }
{
    row[Row::ID] % HALF != row[Row::PEER_ID] % HALF
}

// and whether it is free: a row in use has a limit, so one look mostly tells.
#[tactic(auto, using(rows::proofs::Laws::limit_not_free), unfolding(rows::specs::Ends::receiver_of))]
pub(crate) fn is_free(row: &[u64; 26]) -> bool
    ensures { result ≡ is_free (ends_of row.now) }
{
    if row[Row::LIMIT] != 0 {
        return false;
    }
    is_blank(row)
}

// The same by all its words. Out of line and cold, so that the look at the limit stands in the scans
// themselves, and a full table goes straight on.
#[inline(never)]
#[cold]
fn is_blank(row: &[u64; 26]) -> bool
    ensures { result ≡ is_free (ends_of row.now) }
{
    Row { words: *row }.is_free()
}

// The row at `at`; beyond the last one a free one.
pub(crate) fn row_at(table: &[[u64; 26]], at: usize) -> Row
    ensures { result.words ≡ words_at table.now at }
{
    match table.get(at) {
        Some(words) => Row { words: *words },
        None => Row { words: [0; 26] },
    }
}

// The row at `at` becomes this one, where there is such a row.
pub(crate) fn put_row(table: &mut [[u64; 26]], at: usize, row: Row)
    ensures { table.new ≡ set table.old at row.words }
{
    let words = row.words;
    if at < table.len() {
        table[at] = words;
    }
}
