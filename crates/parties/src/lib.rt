// The parties and the steps of any words behind a header that is in order: of refusals 7 and 8 each has a function that finds the first place
// that breaks its rule.
#![tactic(auto)]

ghost use Rattle.std.specs.Prelude.{◌≡◌, ◌+◌, ◌-◌, ◌≤◌, ◌<◌, leb, eqb};
ghost use Rattle.words.specs.First.{any};
ghost use Rattle.book.specs.Headed.{Headed};
ghost use Rattle.book.specs.Layout.{rows as rows_of, parties as parties_of, steps as steps_of, pool as pool_of, pooled as pooled_at};
ghost use Rattle.book.specs.Layout.{name, rows_before, parties_before, steps_before};
ghost use Rattle.book.specs.Rules.{name_breaks, party_breaks, step_breaks};
ghost use Rattle.rows.specs.Scanned.{Scanned};
ghost use Rattle.parties.specs.Inside.{parties-inside, steps-inside};

use book::{
    Kind, Limit, Mark, parties, party_count, party_first, party_mark, party_name, pooled, row_kind,
    rows, step_count, step_first, step_receiver, step_sender, steps,
};
use rows::{Records, Stopped, list_breaks, scan};

// An earlier party has the party's name.
fn name_repeats(book: &[u32], party: u32) -> bool
    requires { Headed book.now × (party < parties_of book.now) }
    ensures { result ≡ any (λ k. eqb (name book.now k) (name book.now party)) party }
{
    let own = party_name(book, party);
    // Kept: a loop, as in `rows`, since the proof did not close over `any` of a range: what it answers was not found to be a test of each number.
    for k in 0..party {
        if party_name(book, k) == own {
            return true;
        }
    }
    false
}

// Some entry of the list is not below the next.
fn entry_falls(book: &[u32], first: usize, n: usize) -> bool
    requires { Headed book.now × (first + n ≤ pool_of book.now) }
    ensures { result ≡ any (λ j. leb (pooled_at book.now first (j + 1)) (pooled_at book.now first j)) (n - 1) }
{
    // Kept: a loop, as in `rows`, since the proof did not close over `any` of a range: what it answers was not found to be a test of each number.
    for j in 1..n {
        if pooled(book, first, j) <= pooled(book, first, j - 1) {
            return true;
        }
    }
    false
}

// The party's name is no atom's row, or an earlier party's name.
#[tactic(auto, unfolding(book::specs::Rules::name_breaks, book::specs::Rules::one_of, book::specs::Rules::differs, words::specs::Choice::pick))]
fn name_breaks(book: &[u32], party: u32) -> bool
    requires { Headed book.now × (party < parties_of book.now) }
    ensures { result ≡ name_breaks book.now party }
{
    let own = party_name(book, party);
    if rows(book) <= own || row_kind(book, own) != Kind::ATOM {
        return true;
    }
    name_repeats(book, party)
}

// The parties.
#[derive(Drop)]
struct Parties {}

impl Records for Parties {
    ghost among = { parties_of };

    ghost breaks = { party_breaks };

    ghost before = { parties_before };

    ghost inside = { parties-inside };

    fn among(book: &[u32]) -> u32 {
        parties(book)
    }

    #[tactic(auto, unfolding(book::specs::Rules::party_breaks, book::specs::Rules::one_of, words::specs::Choice::pick))]
    fn breaks(book: &[u32], party: u32, passed: usize) -> bool {
        if name_breaks(book, party) || Mark::MAKES < party_mark(book, party) {
            return true;
        }
        let first = party_first(book, party);
        let n = party_count(book, party);
        list_breaks(book, 0, Limit::KNOWN, n, first, passed, rows(book))
            || entry_falls(book, first, n)
    }

    fn count(book: &[u32], party: u32) -> usize {
        party_count(book, party)
    }
}

// Refusal 7: the first party that breaks its rule, or the sum of all rows' and parties' counts.
pub fn scan_parties(book: &[u32], before: usize) -> Result<usize, Stopped>
    requires { Headed book.now × (before ≡ rows_before book.now (rows_of book.now)) × (before ≤ pool_of book.now) }
    ensures { Scanned book.now (party_breaks book.now) (parties_before book.now) (parties_of book.now) result }
{
    scan::<Parties>(book, before)
}

// The steps.
#[derive(Drop)]
struct Steps {}

impl Records for Steps {
    ghost among = { steps_of };

    ghost breaks = { step_breaks };

    ghost before = { steps_before };

    ghost inside = { steps-inside };

    fn among(book: &[u32]) -> u32 {
        steps(book)
    }

    #[tactic(auto, unfolding(book::specs::Rules::step_breaks, book::specs::Rules::one_of, words::specs::Choice::pick))]
    fn breaks(book: &[u32], step: u32, passed: usize) -> bool {
        let from = step_sender(book, step);
        let to = step_receiver(book, step);
        let all = parties(book);
        if all <= from || all <= to || from == to {
            return true;
        }
        let n = step_count(book, step);
        let first = step_first(book, step);
        list_breaks(book, 0, Limit::MESSAGES, n, first, passed, rows(book))
    }

    fn count(book: &[u32], step: u32) -> usize {
        step_count(book, step)
    }
}

// Refusal 8: the first step that breaks its rule, or the sum of all counts.
pub fn scan_steps(book: &[u32], before: usize) -> Result<usize, Stopped>
    requires { Headed book.now × (before ≡ parties_before book.now (parties_of book.now)) × (before ≤ pool_of book.now) }
    ensures { Scanned book.now (step_breaks book.now) (steps_before book.now) (steps_of book.now) result }
{
    scan::<Steps>(book, before)
}
