// The translator. `survey` tells of any words refusals 1 to 10 and 13 and, where there is none, all that one walk through each party's steps
// leaves: the tables, the listing's heads and length, and where the programs' events stand. `translate` answers, for any words and any
// lent words, the first refusal of 1 to 10, 13 and 12 that applies, or leaves the listing; no other lent word changes. `fit` is what a
// translation answers for so much room; `accept` answers refusals 1 to 10 and 13, with no buffer.
#![tactic(auto, using(book::specs::Headed::Laws::headed_rules))]

ghost use Rattle.std.specs.Prelude.{◌≡◌, ◌≤◌};
ghost use Rattle.words.specs.Overlay.{Wrote};
ghost use Rattle.book.specs.Valid.{Valid};
ghost use Rattle.book.specs.Said.{reading_says};
ghost use Rattle.translation.specs.Listing.{listing};
ghost use Rattle.translation.specs.Long.{most_listing};
ghost use Rattle.translation.specs.Outcome.{acceptance, outcome, answer_says, came};
ghost use Rattle.book.specs.Stop.{stop_says};
ghost use Rattle.translator.specs.Parts.{HeadsIn, bodies_of};
ghost use Rattle.translator.specs.Ready.{Ready, Writable};
ghost use Rattle.translator.specs.Surveyed.{Lists, WroteHeads, Surveyed, fitted};

use book::{Against, ByRow, Refusal, Stop, parties, steps};
use claims::claims;
use holding::partners;
use reader::read;
use translation::Answer;
use walking::{measure, write_program};
use words::{narrow, put, put_all, put_each, wide};

// Behind the heads: where the next word goes, where the last program ends, and where the first of the parties' walks stops, if one does.
#[derive(Drop)]
struct Heads {
    at: usize,
    end: usize,
    stop: Option<Stop>,
}

// What is known of any words before anything is written: refusals 1 to 10 and 13 or, where there is none, the tables of claims and of partners,
// the heads, where the last program ends, and the places of each step's SEND and RECEIVE and of each party's END.
#[derive(Drop)]
pub struct Findings {
    pub reading: Result<(), Refusal>,
    pub since: ByRow,
    pub partners: ByRow,
    pub heads: [u32; 32],
    pub end: usize,
    pub sends: [u32; 64],
    pub receives: [u32; 64],
    pub ends: [u32; 16],
}

// Offset and count of each party's program; the first begins behind them. The places of its events are noted on the way. Where a party's
// walk stops there is no output, so what is written then says nothing, and the parties that follow are asked about the steps before alone.
fn write_heads(
    book: &[u32],
    since: &ByRow,
    partners: &ByRow,
    out: &mut [u32],
    at: usize,
    sends: &mut [u32],
    receives: &mut [u32],
    ends: &mut [u32],
) -> Heads
    requires { Ready book.now since.now partners.now × Lists sends.old receives.old ends.old }
    ensures { WroteHeads book.now out.old at out.new result.at sends.new receives.new ends.new result.end result.stop × Lists sends.new receives.new ends.new }
{
    let n = parties(book);
    let all = steps(book);
    let mut next = at;
    let mut end = 1 + 2 * wide(n);
    let mut stop: Option<Stop> = None;
    for party in 0..n {
        let upto = stop.map_or(all, |stop| stop.step);
        let part = measure(book, since, partners, party, upto, sends, receives);
        put(ends, wide(party), part.events);
        next = put_each(out, next, [narrow(end), narrow(part.words)]);
        end += part.words;
        stop = part.stop.or(stop);
    }
    Heads {
        at: next,
        end,
        stop,
    }
}

// The programs, in party order.
fn write_bodies(book: &[u32], since: &ByRow, partners: &ByRow, out: &mut [u32], at: usize) -> usize
    requires { Writable book.now since.now partners.now × (at ≤ most_listing) }
    ensures { Wrote (bodies_of book.now) out.old at out.new result }
{
    let mut next = at;
    for party in 0..parties(book) {
        next = write_program(book, since, partners, party, out, next);
    }
    next
}

// The whole output: its heads were found before.
fn write_listing(
    book: &[u32],
    since: &ByRow,
    partners: &ByRow,
    heads: &[u32],
    out: &mut [u32],
) -> usize
    requires { Writable book.now since.now partners.now × HeadsIn book.now heads.now }
    ensures { Wrote (listing book.now) out.old 0 out.new result }
{
    let n = parties(book);
    let first = put(out, 0, n);
    let next = put_all(out, first, &heads[..2 * wide(n)]);
    write_bodies(book, since, partners, out, next)
}

// What the walks say of the book by where they stop.
fn reading_of(stop: Option<Stop>) -> Result<(), Refusal>
    ensures { reading_says result ≡ stop_says stop }
{
    let Some(Stop { against, step, row }) = stop else {
        return Ok(());
    };
    match against {
        Against::Taken => Err(Refusal::Taken(step, row)),
        Against::Maker => Err(Refusal::Maker(step, row)),
    }
}

// Refusal 10 or 13 or, where there is none, all that is known before anything is written.
fn survey_valid(book: &[u32]) -> Findings
    requires { Valid book.now }
    ensures { Surveyed book.now result }
{
    let since = claims(book);
    let partners = partners(book);
    let mut heads = [0u32; 32];
    let mut sends = [0u32; 64];
    let mut receives = [0u32; 64];
    let mut ends = [0u32; 16];
    let all = write_heads(
        book,
        &since,
        &partners,
        &mut heads,
        0,
        &mut sends,
        &mut receives,
        &mut ends,
    );
    let reading = reading_of(all.stop);
    Findings {
        reading,
        since,
        partners,
        heads,
        end: all.end,
        sends,
        receives,
        ends,
    }
}

// The survey of any words; each party's steps are walked once.
pub fn survey(book: &[u32]) -> Findings
    ensures { Surveyed book.now result }
{
    match read(book) {
        Err(why) => Findings {
            reading: Err(why),
            since: [0u32; 1024],
            partners: [0u32; 1024],
            heads: [0u32; 32],
            end: 0,
            sends: [0u32; 64],
            receives: [0u32; 64],
            ends: [0u32; 16],
        },
        Ok(()) => survey_valid(book),
    }
}

// What a translation answers where there is room for so many words: the book's refusal, refusal 12, or the output's length.
pub fn fit(reading: Result<(), Refusal>, end: usize, room: usize) -> Answer
    ensures { answer_says result ≡ fitted (reading_says reading) end room }
{
    reading?;
    if room < end {
        return Err(Refusal::Room(end));
    }
    Ok(end)
}

// The output of any words into any lent buffer, or the first refusal that applies.
pub fn translate(book: &[u32], out: &mut [u32]) -> Answer
    ensures { came result out.new ≡ outcome book.now out.old }
{
    let all = survey(book);
    let n = fit(all.reading, all.end, out.len())?;
    write_listing(book, &all.since, &all.partners, &all.heads, out);
    Ok(n)
}

// Refusals 1 to 10 and 13 of any words, with no buffer.
pub fn accept(book: &[u32]) -> Result<(), Refusal>
    ensures { reading_says result ≡ acceptance book.now }
{
    survey(book).reading
}
