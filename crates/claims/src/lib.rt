// From which step on each atom is taken: it is a party's name, known at the start, or in a message of an earlier step. `claims`
// answers the table of these steps for a valid book, an entry for each row.
#![tactic(auto, using(book::specs::Headed::Laws::headed_rules))]

ghost use Rattle.std.specs.Prelude.{◌≡◌, [], ◌∷◌, ◌++◌, map, ◌≤◌, ◌<◌, length};
ghost use Rattle.terms.specs.Term.{atom};
ghost use Rattle.terms.specs.Table.{term};
ghost use Rattle.book.specs.Layout.{rows as rows_of, parties as parties_of, table, list_at, known};
ghost use Rattle.book.specs.Valid.{Valid};
ghost use Rattle.translation.specs.Narration.{narration};
ghost use Rattle.translation.specs.Taken.{joined};
ghost use Rattle.book.specs.Span.{Span};
ghost use Rattle.claims.specs.Marked.{Marked, Ready};
ghost use Rattle.claims.specs.Claims.{Claims, ClaimsBefore};

use book::{
    ByRow, Kind, entry, parties, party_count, party_first, party_name, pooled, row_count,
    row_first, row_kind, rows, step_count, step_first, steps,
};
use words::wide;

// Whether each row was gone through.
type Seen = [bool; 1024];

// The atom gets an entry, unless it has one.
fn mark_atom(since: &mut ByRow, row: u32, from: u32)
    requires { (length since.old ≡ 1024) × (row < 1024) }
    ensures { Marked (atom row ∷ []) from since.old since.new }
{
    if since[wide(row)] == 0 {
        since[wide(row)] = from;
    }
}

// The atoms that occur in the row, unless it was gone through before.
#[cycle(mark_mark_list)]
fn mark(book: &[u32], since: &mut ByRow, seen: &mut Seen, row: u32, from: u32)
    requires { Valid book.now × Ready book.now since.old seen.old × (row < rows_of book.now) × (0 < from) }
    ensures { Marked (term (table book.now) row ∷ []) from since.old since.new × Ready book.now since.new seen.new }
{
    if row_kind(book, row) == Kind::ATOM {
        mark_atom(since, row, from);
        return;
    }
    if seen[wide(row)] {
        return;
    }
    mark_list(
        book,
        since,
        seen,
        row,
        row_first(book, row),
        row_count(book, row),
        from,
    );
    seen[wide(row)] = true;
}

// The atoms that occur in a list of rows below a bound.
// Kept: a recursion from a row to its list and back, as making and receiving are.
#[cycle(mark_mark_list)]
fn mark_list(
    book: &[u32],
    since: &mut ByRow,
    seen: &mut Seen,
    bound: u32,
    first: usize,
    left: usize,
    from: u32,
)
    requires { Valid book.now × Ready book.now since.old seen.old × (bound ≤ rows_of book.now) × Span book.now bound first left × (0 < from) }
    ensures { Marked (map (term (table book.now)) (list_at book.now first left)) from since.old since.new × Ready book.now since.new seen.new }
{
    if left == 0 {
        return;
    }
    mark(book, since, seen, entry(book, first, left, bound), from);
    mark_list(book, since, seen, bound, first + 1, left - 1, from);
}

// What a party knows at the start: taken from step 0 on.
fn mark_known(book: &[u32], since: &mut ByRow, seen: &mut Seen, party: u32)
    requires { Valid book.now × Ready book.now since.old seen.old × (party < parties_of book.now) }
    ensures { Marked (map (term (table book.now)) (known book.now party)) 1 since.old since.new × Ready book.now since.new seen.new }
{
    let first = party_first(book, party);
    for j in 0..party_count(book, party) {
        mark(book, since, seen, pooled(book, first, j), 1);
    }
}

// The names of the parties, and what they know at the start: taken from step 0 on, and so marked with 1.
fn mark_start(book: &[u32], since: &mut ByRow, seen: &mut Seen)
    requires { Valid book.now × Ready book.now since.old seen.old }
    ensures { Marked ((narration book.now).names ++ joined (narration book.now).knows) 1 since.old since.new × Ready book.now since.new seen.new }
{
    for party in 0..parties(book) {
        mark(book, since, seen, party_name(book, party), 1);
        mark_known(book, since, seen, party);
    }
}

// The messages of the steps, in order: those of step s are taken from step s + 1 on.
fn mark_steps(book: &[u32], since: &mut ByRow, seen: &mut Seen)
    requires { Valid book.now × ClaimsBefore book.now 0 since.old × Ready book.now since.old seen.old }
    ensures { Claims book.now since.new }
{
    for step in 0..steps(book) {
        mark_list(
            book,
            since,
            seen,
            rows(book),
            step_first(book, step),
            step_count(book, step),
            step + 2,
        );
    }
}

// For each row one more than the first step at which its atom is taken; 0 where it never is, and where the row is no atom.
// Kept: 0 stands for never, for the table is lent on to other rooms and is fixed memory of words.
pub fn claims(book: &[u32]) -> ByRow
    requires { Valid book.now }
    ensures { Claims book.now result }
{
    let mut since = [0u32; 1024];
    let mut seen = [false; 1024];
    mark_start(book, &mut since, &mut seen);
    mark_steps(book, &mut since, &mut seen);
    since
}
