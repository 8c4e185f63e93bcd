// A party's way through its own steps of a valid book, by the tables of claims and of partners. There is one walk, and it leaves all that
// can be asked of a party: its events' words, what it stores, where its SENDs and RECEIVEs stand, and what it holds and how. Who wants less
// lends less: `measure` counts the words and notes the places, `write_program` writes the words, `hold` leaves what is held in the end.
// `act` and `is_own` are the walk's parts: one step, and whether the party has a part in it.
#![tactic(auto, using(book::specs::Headed::Laws::headed_rules))]

ghost use Rattle.std.specs.Prelude.{◌≡◌, ◌+◌, ◌≤◌, ◌<◌};
ghost use Rattle.words.specs.Overlay.{Wrote};
ghost use Rattle.book.specs.Layout.{steps as steps_of};
ghost use Rattle.book.specs.Valid.{Valid};
ghost use Rattle.translation.specs.Listing.{part_words};
ghost use Rattle.receiving.specs.Receiving.{standing};
ghost use Rattle.walking.specs.Walk.{Unrefused, own_step};
ghost use Rattle.walking.specs.Noted.{noted_by, NotedStep};
ghost use Rattle.walking.specs.Walking.{ActReady, Acting, WalkReady, Started, Walking, Measures, Holding};

use book::{
    ByRow, Code, Stop, Triple, party_mark, rows, step_count, step_first, step_receiver,
    step_sender, steps,
};
use holding::start;
use receiving::receive_messages;
use sending::send;
use words::{narrow, put, put_all, put_each, wide};

// What a step left: the next placeholder, the places of what is stored next and of the next word, the events ahead of its SEND or
// RECEIVE and all its events, and where it stops, if it does.
#[derive(Drop)]
pub struct Acted {
    pub next: u32,
    pub kept: usize,
    pub at: usize,
    pub ahead: u32,
    pub events: u32,
    pub stop: Option<Stop>,
}

// What the steps left: the places of what is stored next and of the next word, the number of events, and where the walk stopped, if it did.
#[derive(Drop)]
pub struct Passed {
    pub kept: usize,
    pub at: usize,
    pub events: u32,
    pub stop: Option<Stop>,
}

// A party's part in one step, in its entries.
pub fn act(
    book: &[u32],
    since: &ByRow,
    partners: &ByRow,
    entries: &mut ByRow,
    next: u32,
    kept: usize,
    party: u32,
    step: u32,
    log: &mut [u32],
    out: &mut [u32],
    at: usize,
) -> Acted
    requires { ActReady book.now partners.now party step (standing step entries.old next kept at) }
    ensures { Acting book.now since.now party step (standing step entries.old next kept at) log.old log.new out.old out.new (standing step entries.new result.next result.kept result.at) result.ahead result.events result.stop }
{
    let first = step_first(book, step);
    let n = step_count(book, step);
    if step_sender(book, step) == party {
        let mark = party_mark(book, party);
        let sent = send(book, since, entries, mark, step, first, n, out, at);
        return Acted {
            next,
            kept,
            at: sent.at,
            ahead: sent.made,
            events: sent.made + 1,
            stop: sent.stop,
        };
    }
    if step_receiver(book, step) == party {
        let last = put_each(out, at, [Code::RECEIVE, step, next, narrow(n)]);
        let there = receive_messages(
            book,
            partners,
            entries,
            step,
            next,
            kept,
            rows(book),
            first,
            n,
            log,
            out,
            last,
        );
        let stored = narrow((there.kept - kept) / Triple::WORDS);
        return Acted {
            next: there.next,
            kept: there.kept,
            at: there.at,
            ahead: 0,
            events: 1 + (there.next - next) - stored,
            stop: None,
        };
    }
    Acted {
        next,
        kept,
        at,
        ahead: 0,
        events: 0,
        stop: None,
    }
}

// The place in the party's program of a step that it does, into a list of places by step.
fn note_own(places: &mut [u32], who: u32, party: u32, step: u32, place: u32)
    ensures { places.new ≡ noted_by who party step place places.old }
{
    if who == party {
        put(places, wide(step), place);
    }
}

// A step's place, as its sender's or its receiver's.
fn note(book: &[u32], party: u32, step: u32, place: u32, sends: &mut [u32], receives: &mut [u32])
    requires { Valid book.now × (step < steps_of book.now) }
    ensures { NotedStep book.now party step place sends.old sends.new receives.old receives.new }
{
    let sender = step_sender(book, step);
    let receiver = step_receiver(book, step);
    note_own(sends, sender, party, step, place);
    note_own(receives, receiver, party, step, place);
}

// The party sends or receives the step. A party's dictionary is not handed on where nothing is to do.
pub fn is_own(book: &[u32], party: u32, step: u32) -> bool
    requires { Valid book.now × (step < steps_of book.now) }
    ensures { result ≡ own_step book.now party step }
{
    step_sender(book, step) == party || step_receiver(book, step) == party
}

// The steps before `upto`, for one party: what it holds is in `entries`, at first what it knows; its events' words go to `out`, what it
// stores to `log`, and the places of its SENDs and RECEIVEs to `sends` and `receives`, by step. The walk stops with the first step at which
// the party would have to make an atom that it can't, for such a book is refused.
pub fn walk(
    book: &[u32],
    since: &ByRow,
    partners: &ByRow,
    entries: &mut ByRow,
    party: u32,
    upto: u32,
    log: &mut [u32],
    out: &mut [u32],
    at: usize,
    sends: &mut [u32],
    receives: &mut [u32],
) -> Passed
    requires { WalkReady book.now since.now partners.now party upto at × Started book.now party entries.old }
    ensures { Walking book.now party upto entries.new log.old log.new at out.old out.new sends.old sends.new receives.old receives.new result }
{
    let mut next = 0;
    let mut kept = 0;
    let mut last = at;
    let mut events = 0;
    for i in 0..upto {
        if !is_own(book, party, i) {
            continue;
        }
        let acted = act(
            book, since, partners, entries, next, kept, party, i, log, out, last,
        );
        note(book, party, i, events + acted.ahead, sends, receives);
        next = acted.next;
        kept = acted.kept;
        last = acted.at;
        events += acted.events;
        if acted.stop.is_some() {
            return Passed {
                kept,
                at: last,
                events,
                stop: acted.stop,
            };
        }
    }
    let nowhere = None;
    Passed {
        kept,
        at: last,
        events,
        stop: nowhere,
    }
}

// A party's program, measured: how many words it has, how many events before its END, and where its walk stopped, if it did.
#[derive(Drop)]
pub struct Measured {
    pub words: usize,
    pub events: u32,
    pub stop: Option<Stop>,
}

// The walk with nothing lent for words. Steps from `upto` on are not looked at: all are before it, or a smaller one is refused
// already and nobody asks for the words.
pub fn measure(
    book: &[u32],
    since: &ByRow,
    partners: &ByRow,
    party: u32,
    upto: u32,
    sends: &mut [u32],
    receives: &mut [u32],
) -> Measured
    requires { WalkReady book.now since.now partners.now party upto 0 }
    ensures { Measures book.now party upto sends.old sends.new receives.old receives.new result }
{
    let mut entries = start(book, party);
    let passed = walk(
        book,
        since,
        partners,
        &mut entries,
        party,
        upto,
        &mut [],
        &mut [],
        0,
        sends,
        receives,
    );
    Measured {
        words: passed.at + 2 + passed.kept,
        events: passed.events,
        stop: passed.stop,
    }
}

// The program of a party whose walk stops nowhere. What it stores is kept beside it while its events are written, and follows behind
// them, in END.
pub fn write_program(
    book: &[u32],
    since: &ByRow,
    partners: &ByRow,
    party: u32,
    out: &mut [u32],
    at: usize,
) -> usize
    requires { WalkReady book.now since.now partners.now party (steps_of book.now) at × Unrefused book.now party (steps_of book.now) }
    ensures { Wrote (part_words book.now party) out.old at out.new result }
{
    let mut entries = start(book, party);
    let mut log = [0u32; Triple::ALL];
    let events = walk(
        book,
        since,
        partners,
        &mut entries,
        party,
        steps(book),
        &mut log,
        out,
        at,
        &mut [],
        &mut [],
    );
    let stored = events.kept;
    let triples = put_each(out, events.at, [Code::END, narrow(stored / Triple::WORDS)]);
    put_all(out, triples, &log[..stored])
}

// What a party whose walk stops nowhere holds in the end, and how.
pub fn hold(book: &[u32], since: &ByRow, partners: &ByRow, party: u32) -> ByRow
    requires { WalkReady book.now since.now partners.now party (steps_of book.now) 0 × Unrefused book.now party (steps_of book.now) }
    ensures { Holding book.now party result }
{
    let mut entries = start(book, party);
    walk(
        book,
        since,
        partners,
        &mut entries,
        party,
        steps(book),
        &mut [],
        &mut [],
        0,
        &mut [],
        &mut [],
    );
    entries
}
