// The hunt for a row that repeats an earlier one, refusal 6. Rows are chained by keys over their kind, tag and parts, so that a row is
// compared with few others.
#![tactic(auto)]

ghost use Rattle.std.specs.Prelude.{◌≡◌, ◌<◌};
ghost use Rattle.book.specs.Headed.{Headed};
ghost use Rattle.book.specs.Layout.{rows as rows_of};
ghost use Rattle.book.specs.Rules.{alike, repeats};
ghost use Rattle.header.specs.Scans.{Found};
ghost use Rattle.rows.specs.Scanned.{RowsKeep};
ghost use Rattle.twins.specs.Heads.{heads_differ};
ghost use Rattle.twins.specs.Keys.{mixed as mixed_of, key_of, ChainedFrom};

use book::{ByRow, Kind, pooled, row_count, row_first, row_kind, row_tag, rows};
use std::num::wrapping_add_u32;
use words::wide;

// One word more in a key: 33 times the key and the word, by sums that wrap around at 32 bits.
fn mixed(key: u32, word: u32) -> u32
    ensures { result ≡ mixed_of key word }
{
    // Kept: a key is made by sums that wrap around, and by no product.
    let two = wrapping_add_u32(key, key);
    let four = wrapping_add_u32(two, two);
    let eight = wrapping_add_u32(four, four);
    let sixteen = wrapping_add_u32(eight, eight);
    let most = wrapping_add_u32(sixteen, sixteen);
    let all = wrapping_add_u32(most, key);
    wrapping_add_u32(all, word)
}

// A row's key, over its kind, its tag and its parts in order. Rows that are alike have the same key.
fn row_key(book: &[u32], row: u32) -> u32
    requires { Headed book.now × RowsKeep book.now × (row < rows_of book.now) }
    ensures { result ≡ key_of book.now row }
{
    let first = row_first(book, row);
    let kind = row_kind(book, row);
    let tag = row_tag(book, row);
    let mut key = mixed(kind, tag);
    for j in 0..row_count(book, row) {
        key = mixed(key, pooled(book, first, j));
    }
    key
}

// The rows in chains, those of one bucket in one: each row's key, the first row of each bucket, and the next of each row's own.
fn chain(book: &[u32], keys: &mut ByRow, heads: &mut ByRow, nexts: &mut ByRow)
    requires { Headed book.now × RowsKeep book.now × ChainedFrom book.now (rows_of book.now) keys.old heads.old nexts.old }
    ensures { ChainedFrom book.now 0 keys.new heads.new nexts.new }
{
    for row in (0..rows(book)).rev() {
        let key = row_key(book, row);
        let bucket = wide(key % 1024);
        keys[wide(row)] = key;
        nexts[wide(row)] = heads[bucket];
        heads[bucket] = row;
    }
}

// The other row differs from the row in kind, in tag or in how many parts it has.
#[tactic(auto, unfolding(crate::specs::Heads::heads_differ, book::specs::Rules::one_of, book::specs::Rules::differs, words::specs::Choice::pick))]
fn heads_differ(book: &[u32], row: u32, other: u32) -> bool
    requires { Headed book.now × (row < rows_of book.now) × (other < rows_of book.now) }
    ensures { result ≡ heads_differ book.now row other }
{
    row_kind(book, other) != row_kind(book, row)
        || row_tag(book, other) != row_tag(book, row)
        || row_count(book, other) != row_count(book, row)
}

// The first row before this one that agrees with it in kind, tag and parts: only rows of its bucket can, and of these only those with its
// key.
fn twin(book: &[u32], keys: &ByRow, heads: &ByRow, nexts: &ByRow, row: u32) -> Option<u32>
    requires { Headed book.now × RowsKeep book.now × ChainedFrom book.now 0 keys.now heads.now nexts.now × (row < rows_of book.now) }
    ensures { Found (alike book.now row) row result }
{
    let key = keys[wide(row)];
    let first = row_first(book, row);
    let n = row_count(book, row);
    let mut k = heads[wide(key % 1024)];
    let found = 'rows: loop {
        if k == row {
            break 'rows None;
        }
        if keys[wide(k)] == key && !heads_differ(book, row, k) {
            let other = row_first(book, k);
            let mut j = 0;
            // Kept: the search for a part that differs is left by its label, and the whole hunt by its own, with the row that was found.
            'parts: loop {
                if j == n {
                    break 'rows Some(k);
                }
                if pooled(book, other, j) != pooled(book, first, j) {
                    break 'parts;
                }
                j += 1;
            }
        }
        k = nexts[wide(k)];
    };
    found
}

// The row repeats an earlier one.
fn row_repeats(book: &[u32], keys: &ByRow, heads: &ByRow, nexts: &ByRow, row: u32) -> bool
    requires { Headed book.now × RowsKeep book.now × ChainedFrom book.now 0 keys.now heads.now nexts.now × (row < rows_of book.now) }
    ensures { result ≡ repeats book.now row }
{
    row_kind(book, row) != Kind::ATOM && twin(book, keys, heads, nexts, row).is_some()
}

// Refusal 6: the first row that repeats an earlier one.
pub fn repeated(book: &[u32]) -> Option<u32>
    requires { Headed book.now × RowsKeep book.now }
    ensures { Found (repeats book.now) (rows_of book.now) result }
{
    let n = rows(book);
    let mut keys = [0u32; 1024];
    let mut heads = [n; 1024];
    let mut nexts = [0u32; 1024];
    chain(book, &mut keys, &mut heads, &mut nexts);
    for row in 0..n {
        if row_repeats(book, &keys, &heads, &nexts, row) {
            return Some(row);
        }
    }
    None
}
