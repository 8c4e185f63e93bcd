// Figure 3's S: what a party does to send a step's messages. `send` writes a NEW for each atom that has to be made, in building
// order, then the SEND with its images, and tells how many atoms were made and where making them stops: at the first that can't
// be made.
#![tactic(auto, using(book::specs::Headed::Laws::headed_rules))]

ghost use Rattle.std.specs.Prelude.{◌≡◌, ◌≤◌, ◌<◌, length};
ghost use Rattle.terms.specs.Table.{term, terms};
ghost use Rattle.book.specs.Layout.{rows as rows_of, table, list_at};
ghost use Rattle.book.specs.Valid.{Valid};
ghost use Rattle.translation.specs.Build.{build, build_all};
ghost use Rattle.holding.specs.Entry.{step_limit};
ghost use Rattle.holding.specs.View.{view};
ghost use Rattle.book.specs.Span.{Span};
ghost use Rattle.claims.specs.Since.{taken_in};
ghost use Rattle.sending.specs.Sending.{making, all_making, against_in, or_stop, SendReady, Makes, Sends};

use book::{Against, ByRow, Code, Kind, Mark, Stop, entry, row_count, row_first, row_kind, rows};
use holding::{Entry, write_images};
use words::{narrow, put_each, wide};

// Where the next word goes, and where making stopped, if it did.
#[derive(Drop)]
struct Made {
    at: usize,
    stop: Option<Stop>,
}

// What sending left: where the next word goes, how many atoms were made, and where making them stopped, if it did.
#[derive(Drop)]
pub struct Sent {
    pub at: usize,
    pub made: u32,
    pub stop: Option<Stop>,
}

// The atom of that row is taken at the step.
#[tactic(auto, unfolding(claims::specs::Since::taken_in, words::specs::Choice::pick))]
fn is_taken(since: &ByRow, row: u32, step: u32) -> bool
    requires { row < 1024 }
    ensures { result ≡ taken_in since.now step row }
{
    let from = since[wide(row)];
    from != 0 && from - 1 <= step
}

// What stands against making the atom of that row at the step, by a sender with that mark, if anything does.
#[tactic(auto, unfolding(crate::specs::Sending::against_in, words::specs::Choice::pick))]
fn against(since: &ByRow, mark: u32, row: u32, step: u32) -> Option<Against>
    requires { row < 1024 }
    ensures { result ≡ against_in since.now mark step row }
{
    if is_taken(since, row, step) {
        Some(Against::Taken)
    } else if mark == Mark::MAKES {
        None
    } else {
        Some(Against::Maker)
    }
}

// Where making stopped before, or else here if something stands against the row's atom.
fn first_stop(since: &ByRow, mark: u32, row: u32, step: u32, before: Option<Stop>) -> Option<Stop>
    requires { row < 1024 }
    ensures { result ≡ or_stop before (against_in since.now mark step row) step row }
{
    before.or_else(|| against(since, mark, row, step).map(|against| Stop { against, step, row }))
}

// Makes the atoms of a row that are not held, parts first, and writes a NEW for each.
#[cycle(make_make_list)]
fn make(
    book: &[u32],
    since: &ByRow,
    entries: &mut ByRow,
    mark: u32,
    step: u32,
    row: u32,
    m: Made,
    out: &mut [u32],
) -> Made
    requires { Valid book.now × (row < rows_of book.now) × (length entries.old ≡ 1024) × (step < step_limit) }
    ensures { Makes book.now since.now mark step (making (build step (term (table book.now) row) (view book.now entries.old))) m entries.new out.old out.new result }
{
    if Entry::held(entries[wide(row)]) {
        return m;
    }
    if row_kind(book, row) == Kind::ATOM {
        let made = Entry::made(step);
        entries[wide(row)] = made;
        let at = put_each(out, m.at, [Code::NEW, row]);
        let stop = first_stop(since, mark, row, step, m.stop);
        return Made { at, stop };
    }
    make_list(
        book,
        since,
        entries,
        mark,
        step,
        row,
        row_first(book, row),
        row_count(book, row),
        m,
        out,
    )
}

// The same for a list of rows below a bound.
// Kept: a recursion from a row to its list and back, as marking and receiving are.
#[cycle(make_make_list)]
fn make_list(
    book: &[u32],
    since: &ByRow,
    entries: &mut ByRow,
    mark: u32,
    step: u32,
    bound: u32,
    first: usize,
    left: usize,
    m: Made,
    out: &mut [u32],
) -> Made
    requires { Valid book.now × (bound ≤ rows_of book.now) × Span book.now bound first left × (length entries.old ≡ 1024) × (step < step_limit) }
    ensures { Makes book.now since.now mark step (all_making (build_all step (terms (table book.now) (list_at book.now first left)) (view book.now entries.old))) m entries.new out.old out.new result }
{
    if left == 0 {
        return m;
    }
    let next = make(
        book,
        since,
        entries,
        mark,
        step,
        entry(book, first, left, bound),
        m,
        out,
    );
    make_list(
        book,
        since,
        entries,
        mark,
        step,
        bound,
        first + 1,
        left - 1,
        next,
        out,
    )
}

// Sends a step's messages: a NEW for each atom that has to be made, then a SEND with the messages' images.
pub fn send(
    book: &[u32],
    since: &ByRow,
    entries: &mut ByRow,
    mark: u32,
    step: u32,
    first: usize,
    n: usize,
    out: &mut [u32],
    at: usize,
) -> Sent
    requires { SendReady book.now step first n entries.old at }
    ensures { Sends book.now since.now mark step (build_all step (terms (table book.now) (list_at book.now first n)) (view book.now entries.old)) at entries.new out.old out.new result }
{
    let bound = rows(book);
    let m = make_list(
        book,
        since,
        entries,
        mark,
        step,
        bound,
        first,
        n,
        Made { at, stop: None },
        out,
    );
    let next = put_each(out, m.at, [Code::SEND, step, narrow(n)]);
    let end = write_images(book, entries, bound, first, n, out, next);
    Sent {
        at: end,
        made: narrow((m.at - at) / 2),
        stop: m.stop,
    }
}
