// The reader of any words. `read` answers the number and place of the first refusal of 1 to 9 that applies, or acceptance, as the
// ordered table of book/specs/Refusals.antt has it; no index leaves the book and no sum wraps, whatever the words. The places are found in
// header, rows, twins and parties.
#![tactic(auto)]

ghost use Rattle.std.specs.Prelude.{◌≡◌, ◌≤◌, drop};
ghost use Rattle.book.specs.Headed.{Headed};
ghost use Rattle.book.specs.Layout.{rows as rows_of, pool as pool_of, rows_before};
ghost use Rattle.book.specs.Said.{reading_says, accepted};
ghost use Rattle.book.specs.Refusals.{first_of, reading_table, verdict};

use book::{Layout, Refusal, pool};
use header::{counts, offsets};
use parties::{scan_parties, scan_steps};
use rows::{oversize, scan_rows};
use twins::repeated;

// Refusals 7 to 9, where the rows' counts are `before`.
fn read_parties(book: &[u32], before: usize) -> Result<(), Refusal>
    requires { Headed book.now × (before ≡ rows_before book.now (rows_of book.now)) × (before ≤ pool_of book.now) }
    ensures { reading_says result ≡ first_of (drop 6 (reading_table book.now)) accepted }
{
    let known = scan_parties(book, before).map_err(|stop| Refusal::Party(stop.place))?;
    let all = scan_steps(book, known).map_err(|stop| Refusal::Step(stop.place))?;
    if all != pool(book) {
        return Err(Refusal::Sum);
    }
    Ok(())
}

// Refusals 4 to 9.
fn read_rows(book: &[u32]) -> Result<(), Refusal>
    requires { Headed book.now }
    ensures { reading_says result ≡ first_of (drop 3 (reading_table book.now)) accepted }
{
    let parts = scan_rows(book).map_err(|stop| Refusal::Row(stop.place))?;
    if let Some(row) = oversize(book) {
        return Err(Refusal::Size(row));
    }
    if let Some(row) = repeated(book) {
        return Err(Refusal::Repeat(row));
    }
    read_parties(book, parts)
}

// The first of refusals 1 to 9 that applies to any words, or acceptance.
pub fn read(book: &[u32]) -> Result<(), Refusal>
    ensures { reading_says result ≡ verdict book.now }
{
    if book.len() < Layout::HEADER as usize {
        return Err(Refusal::Short);
    }
    if let Some(section) = counts(book) {
        return Err(Refusal::Count(2 * section));
    }
    if let Some(section) = offsets(book) {
        return Err(Refusal::Offset((2 * section + 1).min(Layout::HEADER)));
    }
    read_rows(book)
}
