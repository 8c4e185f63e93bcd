// The listing written as bytes, low byte first, with no listing of words between: each step's words go through a buffer that has room for
// any step's. `translate_words` answers as `translator::translate` does, and leaves the same words as bytes.
#![tactic(auto, using(book::specs::Headed::Laws::headed_rules))]

ghost use Rattle.std.specs.Prelude.{◌≡◌};
ghost use Rattle.words.specs.Overlay.{Wrote};
ghost use Rattle.octets.specs.Octets.{bytes_of_all};
ghost use Rattle.translation.specs.Listing.{listing, part_words};
ghost use Rattle.translation.specs.Outcome.{came};
ghost use Rattle.translator.specs.Parts.{HeadsIn, bodies_of};
ghost use Rattle.translator.specs.Ready.{Writable};
ghost use Rattle.writing.specs.Events.{EventsReady, WroteEvents};
ghost use Rattle.writing.specs.Translated.{translated};

use book::{ByRow, Code, Triple, parties, steps};
use holding::start;
use octets::put_words;
use translation::Answer;
use translator::{fit, survey};
use walking::{act, is_own};
use words::{narrow, wide};

// What is kept at most.
#[derive(Drop)]
struct Most {}

impl Most {
    // The words of a step's events.
    const STEP: usize = 16388;
}

// Behind a party's events: where the next byte goes, and the words of what it stored.
#[derive(Drop)]
struct Events {
    at: usize,
    kept: usize,
}

// A party's events, step by step: each step's words go to a buffer that has room for any step's, and from there, as bytes, to the output.
fn write_events(
    book: &[u32],
    since: &ByRow,
    partners: &ByRow,
    party: u32,
    log: &mut [u32],
    out: &mut [u8],
    at: usize,
) -> Events
    requires { EventsReady book.now partners.now party }
    ensures { WroteEvents book.now party log.old log.new out.old at out.new result.at result.kept }
{
    let mut step = [0u32; Most::STEP];
    let mut entries = start(book, party);
    let mut given = 0;
    let mut kept = 0;
    let mut next = at;
    for i in 0..steps(book) {
        if !is_own(book, party, i) {
            continue;
        }
        let acted = act(
            book,
            since,
            partners,
            &mut entries,
            given,
            kept,
            party,
            i,
            log,
            &mut step,
            0,
        );
        given = acted.next;
        kept = acted.kept;
        next = put_words(out, next, &step[..acted.at]);
    }
    Events { at: next, kept }
}

// The program of a party whose walk stops nowhere, as bytes.
fn write_program(
    book: &[u32],
    since: &ByRow,
    partners: &ByRow,
    party: u32,
    out: &mut [u8],
    at: usize,
) -> usize
    requires { EventsReady book.now partners.now party }
    ensures { Wrote (bytes_of_all (part_words book.now party)) out.old at out.new result }
{
    let mut log = [0u32; Triple::ALL];
    let events = write_events(book, since, partners, party, &mut log, out, at);
    let n = narrow(events.kept / Triple::WORDS);
    let triples = put_words(out, events.at, &[Code::END, n]);
    put_words(out, triples, &log[..events.kept])
}

// The programs, in party order, as bytes.
fn write_bodies(book: &[u32], since: &ByRow, partners: &ByRow, out: &mut [u8], at: usize) -> usize
    requires { Writable book.now since.now partners.now }
    ensures { Wrote (bytes_of_all (bodies_of book.now)) out.old at out.new result }
{
    let mut next = at;
    for party in 0..parties(book) {
        next = write_program(book, since, partners, party, out, next);
    }
    next
}

// The whole output, as bytes: its heads were found before.
fn write_listing(
    book: &[u32],
    since: &ByRow,
    partners: &ByRow,
    heads: &[u32],
    out: &mut [u8],
) -> usize
    requires { Writable book.now since.now partners.now × HeadsIn book.now heads.now }
    ensures { Wrote (bytes_of_all (listing book.now)) out.old 0 out.new result }
{
    let n = parties(book);
    let first = put_words(out, 0, &[n]);
    let next = put_words(out, first, &heads[..2 * wide(n)]);
    write_bodies(book, since, partners, out, next)
}

// The output of any words into any lent bytes, or the first refusal that applies.
pub fn translate_words(book: &[u32], out: &mut [u8]) -> Answer
    ensures { came result out.new ≡ translated book.now out.old }
{
    let all = survey(book);
    let n = fit(all.reading, all.end, out.len() / 4)?;
    write_listing(book, &all.since, &all.partners, &all.heads, out);
    Ok(n)
}
