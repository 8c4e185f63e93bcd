// Figure 3's R, opening first: what a party does with the terms that arrive at its placeholders. `receive_messages` and `receive` write the
// CHECKs and OPENs, put what is stored behind the last in the log, and give back the dictionary afterwards. All of it is the
// meaning's own (translation/specs/Receive.antt), for a valid book and the table of its partners.
#![tactic(auto, using(book::specs::Headed::Laws::headed_rules))]

ghost use Rattle.std.specs.Prelude.{◌≡◌, ◌<◌};
ghost use Rattle.words.specs.Overlay.{Wrote};
ghost use Rattle.terms.specs.Table.{term};
ghost use Rattle.book.specs.Layout.{rows, kind, table};
ghost use Rattle.book.specs.Valid.{Valid};
ghost use Rattle.translation.specs.Receive.{can_open, compared};
ghost use Rattle.translation.specs.Listing.{program_words};
ghost use Rattle.holding.specs.Partners.{Partners};
ghost use Rattle.holding.specs.View.{row_of, view};
ghost use Rattle.receiving.specs.Turn.{unlocked};
ghost use Rattle.receiving.specs.Receiving.{standing, row_did, list_did, rest_did, SettleReady, RowReady, RestReady, ListReady, Brought, Going};

use book::{ByRow, Code, Kind, entry, first_part, row_count, row_first, row_kind};
use holding::{Entry, buildable, can_open, write_image, write_partner};
use words::{narrow, put_each, wide};

// What a party holds, an entry for each row; the step that it is at; its next placeholder; the place in the log of what it stores next.
#[derive(Drop)]
pub struct Dictionary {
    pub entries: ByRow,
    pub step: u32,
    pub next: u32,
    pub kept: usize,
}

// How far receiving got: the dictionary, and the place of the next word.
// Kept: the dictionary goes by value into a level and back, so that a level has one.
#[derive(Drop)]
pub struct Received {
    pub dictionary: Dictionary,
    pub at: usize,
}

// How far it got, beside the entries: the next placeholder, and the places of what is stored next and of the next word.
#[derive(Drop)]
pub struct Reached {
    pub next: u32,
    pub kept: usize,
    pub at: usize,
}

// What is left of a list, and how far it got: where its rows stand in the pool and how many they are, and the placeholder of the first.
#[derive(Drop)]
struct Begun {
    next: u32,
    first: usize,
    left: usize,
    place: u32,
    kept: usize,
    at: usize,
}

// The places behind what was stored and written.
#[derive(Drop)]
struct Settled {
    kept: usize,
    at: usize,
}

impl Dictionary {
    // A fresh dictionary of what is held by now, at a step, with the next placeholder and the place in the log.
    pub fn new(entries: ByRow, step: u32, next: u32, kept: usize) -> Self
        ensures { result ≡ (standing step entries next kept 0).dictionary }
    {
        Dictionary {
            entries,
            step,
            next,
            kept,
        }
    }
}

// The row is a cipher, and the partner of its key is buildable.
fn opens(book: &[u32], partners: &ByRow, entries: &ByRow, row: u32) -> bool
    requires { Valid book.now × Partners book.now partners.now × (row < rows book.now) }
    ensures { result ≡ can_open (view book.now entries.now) (term (table book.now) row) }
{
    row_kind(book, row) == Kind::CIPHER && can_open(book, partners, entries, first_part(book, row))
}

// The event that compares the placeholder with the row's image.
fn put_check(
    book: &[u32],
    entries: &ByRow,
    row: u32,
    place: u32,
    out: &mut [u32],
    at: usize,
) -> usize
    requires { Valid book.now × (row < rows book.now) }
    ensures { Wrote (program_words (row_of book.now) (compared (term (table book.now) row) place (view book.now entries.now)).events) out.old at out.new result }
{
    let next = put_each(out, at, [Code::CHECK, place]);
    write_image(book, entries, row, out, next)
}

// The event that opens the cipher at the placeholder; its contents get the placeholders from `from` on.
fn put_open(
    book: &[u32],
    partners: &ByRow,
    entries: &ByRow,
    row: u32,
    place: u32,
    from: u32,
    out: &mut [u32],
    at: usize,
) -> usize
    requires { Valid book.now × Partners book.now partners.now × (row < rows book.now) × (kind book.now row ≡ 2) }
    ensures { Wrote (program_words (row_of book.now) (unlocked (term (table book.now) row) place (view book.now entries.now) from).events) out.old at out.new result }
{
    let contents = narrow(row_count(book, row) - 1);
    let next = put_each(out, at, [Code::OPEN, place, from, contents]);
    write_partner(book, partners, entries, first_part(book, row), out, next)
}

// A row that can't be opened: it is compared if it is buildable, and else stored. In the entries, with nothing handed on.
fn settle(
    book: &[u32],
    entries: &mut ByRow,
    step: u32,
    next: u32,
    kept: usize,
    row: u32,
    place: u32,
    log: &mut [u32],
    out: &mut [u32],
    at: usize,
) -> Settled
    requires { SettleReady book.now row place (standing step entries.old next kept at) }
    ensures { Brought book.now (row_did book.now row place (standing step entries.old next kept at)) (standing step entries.old next kept at) log.old log.new out.old out.new (standing step entries.new next result.kept result.at) }
{
    if buildable(book, entries, row) {
        let last = put_check(book, entries, row, place, out, at);
        return Settled { kept, at: last };
    }
    entries[wide(row)] = Entry::stored(step, place);
    let last = put_each(log, kept, [row, place, step]);
    Settled { kept: last, at }
}

// The rows of a list, below a bound, up to the first that opens: settled one after another, in the entries.
fn settle_run(
    book: &[u32],
    partners: &ByRow,
    entries: &mut ByRow,
    step: u32,
    next: u32,
    kept: usize,
    bound: u32,
    first: usize,
    left: usize,
    from: u32,
    log: &mut [u32],
    out: &mut [u32],
    at: usize,
) -> Begun
    requires { RestReady book.now partners.now bound first left from (standing step entries.old next kept at) }
    ensures { Going book.now bound (rest_did book.now first left from (standing step entries.old next kept at)) (standing step entries.old next kept at) log.old out.old result.first result.left result.place (standing step entries.new result.next result.kept result.at) log.new out.new }
{
    let mut stored = kept;
    let mut last = at;
    for j in 0..left {
        let row = entry(book, first + j, left - j, bound);
        let place = from + narrow(j);
        if opens(book, partners, entries, row) {
            return Begun {
                next,
                first: first + j,
                left: left - j,
                place,
                kept: stored,
                at: last,
            };
        }
        let settled = settle(
            book, entries, step, next, stored, row, place, log, out, last,
        );
        stored = settled.kept;
        last = settled.at;
    }
    Begun {
        next,
        first: 0,
        left: 0,
        place: next,
        kept: stored,
        at: last,
    }
}

// A row is begun, in the entries: opened, with its contents up to the first that opens; or settled, and nothing is left.
fn begin(
    book: &[u32],
    partners: &ByRow,
    entries: &mut ByRow,
    step: u32,
    next: u32,
    kept: usize,
    row: u32,
    place: u32,
    log: &mut [u32],
    out: &mut [u32],
    at: usize,
) -> Begun
    requires { RowReady book.now partners.now row place (standing step entries.old next kept at) }
    ensures { Going book.now row (row_did book.now row place (standing step entries.old next kept at)) (standing step entries.old next kept at) log.old out.old result.first result.left result.place (standing step entries.new result.next result.kept result.at) log.new out.new }
{
    if opens(book, partners, entries, row) {
        let last = put_open(book, partners, entries, row, place, next, out, at);
        let first = row_first(book, row) + 1;
        let left = row_count(book, row) - 1;
        return settle_run(
            book,
            partners,
            entries,
            step,
            next + narrow(left),
            kept,
            row,
            first,
            left,
            next,
            log,
            out,
            last,
        );
    }
    let settled = settle(book, entries, step, next, kept, row, place, log, out, at);
    Begun {
        next,
        first: 0,
        left: 0,
        place: next,
        kept: settled.kept,
        at: settled.at,
    }
}

// The row at the placeholder `place` is received. Ciphers nest 255 deep, so a level's stack counts: the call of `receive_list` is
// the last expression and unconditional, and both take and give back one value.
#[cycle(receive_receive_list)]
pub fn receive(
    book: &[u32],
    partners: &ByRow,
    before: Received,
    row: u32,
    place: u32,
    log: &mut [u32],
    out: &mut [u32],
) -> Received
    requires { RowReady book.now partners.now row place before }
    ensures { Brought book.now (row_did book.now row place before) before log.old log.new out.old out.new result }
{
    let mut here = before;
    let step = here.dictionary.step;
    let next = here.dictionary.next;
    let kept = here.dictionary.kept;
    let at = here.at;
    let begun = begin(
        book,
        partners,
        &mut here.dictionary.entries,
        step,
        next,
        kept,
        row,
        place,
        log,
        out,
        at,
    );
    here.dictionary.next = begun.next;
    here.dictionary.kept = begun.kept;
    here.at = begun.at;
    receive_list(
        book,
        partners,
        here,
        row,
        begun.first,
        begun.left,
        begun.place,
        log,
        out,
    )
}

// The rows of a list, below a bound, are received in turn, at the placeholders from `from` on. The dictionary is not lent here, so that
// one is enough for a level.
#[cycle(receive_receive_list)]
fn receive_list(
    book: &[u32],
    partners: &ByRow,
    mut here: Received,
    bound: u32,
    first: usize,
    left: usize,
    from: u32,
    log: &mut [u32],
    out: &mut [u32],
) -> Received
    requires { RestReady book.now partners.now bound first left from here }
    ensures { Brought book.now (rest_did book.now first left from here) here log.old log.new out.old out.new result }
{
    for j in 0..left {
        here = receive(
            book,
            partners,
            here,
            entry(book, first + j, left - j, bound),
            from + narrow(j),
            log,
            out,
        );
    }
    here
}

// The same for a step's messages, in the party's entries: the dictionary is handed on only to open. A loop of its own, so that
// `receive_list` has one caller and becomes one with it: a level of opened ciphers then takes one frame with one dictionary.
pub fn receive_messages(
    book: &[u32],
    partners: &ByRow,
    entries: &mut ByRow,
    step: u32,
    next: u32,
    kept: usize,
    bound: u32,
    first: usize,
    left: usize,
    log: &mut [u32],
    out: &mut [u32],
    at: usize,
) -> Reached
    requires { ListReady book.now partners.now bound first left (standing step entries.old next kept at) }
    ensures { Brought book.now (list_did book.now first left (standing step entries.old next kept at)) (standing step entries.old next kept at) log.old log.new out.old out.new (standing step entries.new result.next result.kept result.at) }
{
    let mut reached = Reached {
        next: next + narrow(left),
        kept,
        at,
    };
    for j in 0..left {
        let row = entry(book, first + j, left - j, bound);
        let place = next + narrow(j);
        if opens(book, partners, entries, row) {
            let held = *entries;
            let dictionary = Dictionary::new(held, step, reached.next, reached.kept);
            let here = Received {
                dictionary,
                at: reached.at,
            };
            let there = receive(book, partners, here, row, place, log, out);
            let after = there.dictionary;
            let holds = after.entries;
            *entries = holds;
            reached = Reached {
                next: after.next,
                kept: after.kept,
                at: there.at,
            };
        } else {
            let settled = settle(
                book,
                entries,
                step,
                reached.next,
                reached.kept,
                row,
                place,
                log,
                out,
                reached.at,
            );
            reached.kept = settled.kept;
            reached.at = settled.at;
        }
    }
    reached
}
