// The rows of any words behind a header that is in order: of refusals 4 and 5 each has a function that finds the first row that breaks its
// rule. The rule of a list in the pool is one for rows, parties and steps, and so is the walk over them, `scan`.
#![tactic(auto)]

ghost use Rattle.std.specs.Prelude.{◌≡◌, ℕ, ◌+◌, ◌^◌, ◌≤◌, ◌<◌, Bool, false, List, leb, get_or};
ghost use Rattle.words.specs.First.{any};
ghost use Rattle.terms.specs.Table.{row_size};
ghost use Rattle.book.specs.Headed.{Headed};
ghost use Rattle.book.specs.Layout.{rows as rows_of, pool as pool_of, pooled as pooled_at, rows_before, table};
ghost use Rattle.book.specs.Rules.{list_breaks, row_breaks, size_breaks};
ghost use Rattle.header.specs.Scans.{Found};
ghost use Rattle.rows.specs.Scanned.{Scanned, RowsKeep};
ghost use Rattle.rows.specs.Scanned.Laws.{rows-inside};

use book::{ByRow, Kind, Limit, pool, pooled, row_count, row_first, row_kind, row_tag, rows};
use words::wide;

// Some entry of the list is no row below the bound.
fn entry_breaks(book: &[u32], first: usize, n: usize, bound: u32) -> bool
    requires { Headed book.now × (first + n ≤ pool_of book.now) }
    ensures { result ≡ any (λ j. leb bound (pooled_at book.now first j)) n }
{
    // Kept: a loop, since the proof did not close over `any` of a range: what it answers was not found to be a test of each number.
    for j in 0..n {
        if bound <= pooled(book, first, j) {
            return true;
        }
    }
    false
}

// A row's, a party's or a step's list breaks its rule: lo to hi entries below the bound, `passed` words before them.
#[tactic(auto, unfolding(book::specs::Rules::list_breaks, book::specs::Rules::one_of, book::specs::Rules::outside, book::specs::Rules::differs, words::specs::Choice::pick))]
pub fn list_breaks(
    book: &[u32],
    lo: usize,
    hi: usize,
    n: usize,
    first: usize,
    passed: usize,
    bound: u32,
) -> bool
    requires { Headed book.now × (n < 2 ^ 32) × (first < 2 ^ 32) }
    ensures { result ≡ list_breaks book.now lo hi n first passed bound }
{
    let words = pool(book);
    if n < lo || hi < n || first != passed || words < first + n {
        return true;
    }
    entry_breaks(book, first, n, bound)
}

// The rows, the parties or the steps of a book: how many there are, which of them break their rule, and the counts before each. Their lists
// lie in the pool one after another, and that of a place that keeps its rule lies there whole.
pub trait Records {
    ghost among: { List ℕ → ℕ };

    ghost breaks: { List ℕ → ℕ → Bool };

    ghost before: { List ℕ → ℕ → ℕ };

    // How many there are.
    fn among(book: &[u32]) -> u32
        requires { Headed book.now }
        ensures { result ≡ among book.now };

    // The record at the place breaks its rule, where the counts before it are `passed`.
    fn breaks(book: &[u32], place: u32, passed: usize) -> bool
        requires { Headed book.now × (place < among book.now) × (passed ≡ before book.now place) }
        ensures { result ≡ breaks book.now place };

    // The words of its list.
    fn count(book: &[u32], place: u32) -> usize
        requires { Headed book.now × (place < among book.now) }
        ensures { before book.now place + result ≡ before book.now (place + 1) };

    ghost inside: { (b : List ℕ) (k : ℕ) → breaks b k ≡ false → before b (k + 1) ≤ pool_of b };
}

// Where a walk stopped: at the first place that breaks its rule, and the counts before it.
#[derive(Drop)]
pub struct Stopped {
    pub place: u32,
    pub sum: usize,
}

// All counts with those before the first; or the first record that breaks its rule, and the counts before it.
pub fn scan<R: Records>(book: &[u32], before: usize) -> Result<usize, Stopped>
    requires { Headed book.now × (before ≡ R.before book.now 0) × (before ≤ pool_of book.now) }
    ensures { Scanned book.now (R.breaks book.now) (R.before book.now) (R.among book.now) result }
{
    let mut sum = before;
    for place in 0..R::among(book) {
        if R::breaks(book, place, sum) {
            return Err(Stopped { place, sum });
        }
        sum += R::count(book, place);
    }
    Ok(sum)
}

// The rows.
#[derive(Drop)]
struct Rows {}

impl Records for Rows {
    ghost among = { rows_of };

    ghost breaks = { row_breaks };

    ghost before = { rows_before };

    ghost inside = { rows-inside };

    fn among(book: &[u32]) -> u32 {
        rows(book)
    }

    #[tactic(auto, unfolding(book::specs::Rules::row_breaks, book::specs::Rules::one_of, words::specs::Choice::pick))]
    fn breaks(book: &[u32], row: u32, passed: usize) -> bool {
        let kind = row_kind(book, row);
        let tag = row_tag(book, row);
        let asked = Kind::of(kind);
        if Kind::PRIVATE < kind || asked.tag < tag {
            return true;
        }
        let n = row_count(book, row);
        let first = row_first(book, row);
        list_breaks(book, asked.fewest, asked.most, n, first, passed, row)
    }

    fn count(book: &[u32], row: u32) -> usize {
        row_count(book, row)
    }
}

// Refusal 4: the first row that breaks its rule, or the sum of all counts.
pub fn scan_rows(book: &[u32]) -> Result<usize, Stopped>
    requires { Headed book.now }
    ensures { Scanned book.now (row_breaks book.now) (rows_before book.now) (rows_of book.now) result }
{
    scan::<Rows>(book, 0)
}

// The size of a row, from those of the rows before it.
fn row_size(book: &[u32], sizes: &ByRow, row: u32) -> u32
    requires { Headed book.now × RowsKeep book.now × (row < rows_of book.now) × ((k : ℕ) → k < row → get_or sizes.now k 0 ≡ row_size (table book.now) k) × ((k : ℕ) → k < row → row_size (table book.now) k ≤ 1024) }
    ensures { result ≡ row_size (table book.now) row }
{
    let first = row_first(book, row);
    let kind = Kind::of(row_kind(book, row));
    let mut size = kind.size;
    for j in 0..row_count(book, row) {
        size += sizes[wide(pooled(book, first, j))];
    }
    size
}

// Refusal 5: the first row whose size is over 1,024.
pub fn oversize(book: &[u32]) -> Option<u32>
    requires { Headed book.now × RowsKeep book.now }
    ensures { Found (size_breaks book.now) (rows_of book.now) result }
{
    let mut sizes = [0u32; 1024];
    for row in 0..rows(book) {
        let size = row_size(book, &sizes, row);
        if Limit::SIZE < size {
            return Some(row);
        }
        sizes[wide(row)] = size;
    }
    None
}
