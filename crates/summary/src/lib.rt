// Who knew what, when. `write_summary` answers, for any words and any lent words, the first refusal of 1 to 10, 13 and 12 that applies, or
// leaves the summary; no other lent word changes. `ask` answers from the words of a summary alone, whatever words they are: did the party
// hold the row after the step? `find` says where the answer stands, by the summary's length and its first three words, wherever these lie;
// `decide` is what the word there answers.
#![tactic(auto, using(book::specs::Headed::Laws::headed_rules))]

ghost use Rattle.std.specs.Prelude.{◌≡◌, not, ◌+◌, ◌*◌, leb, eqb, length};
ghost use Rattle.words.specs.Overlay.{Wrote};
ghost use Rattle.book.specs.Layout.{parties as parties_of};
ghost use Rattle.translation.specs.Outcome.{came, Plays};
ghost use Rattle.translator.specs.Ready.{Writable};
ghost use Rattle.summary.specs.Summary.{held_words, held_to, summarized, asked};
ghost use Rattle.summary.specs.Writing.{since_words, PartyReady};
ghost use Rattle.summary.specs.Found.{Finds};
ghost use Rattle.summary.specs.Reply.{reply_says};

use book::{ByRow, Refusal, parties, rows, steps};
use holding::Entry;
use translation::Answer;
use translator::survey;
use walking::hold;
use words::{put, put_each, wide, word};

// The words before the parties' rows: the counts of parties, rows and steps.
#[derive(Drop)]
struct Front {}

impl Front {
    const WORDS: usize = 3;
}

// The words of a summary of so many parties and rows.
fn size(parties: u32, rows: u32) -> usize
    ensures { result ≡ 3 + parties * rows }
{
    Front::WORDS + wide(parties) * wide(rows)
}

// So many words are no summary of so many parties and rows.
fn misfits(n: usize, parties: u32, rows: u32) -> bool
    ensures { result ≡ not (eqb n (3 + parties * rows)) }
{
    n != size(parties, rows)
}

// The place of the word of a party and a row.
fn place(rows: u32, party: u32, row: u32) -> usize
    ensures { result ≡ 3 + party * rows + row }
{
    Front::WORDS + wide(party) * wide(rows) + wide(row)
}

// Where n words that begin with so many parties, rows and steps have the answer to a question.
pub fn find(
    n: usize,
    parties: u32,
    rows: u32,
    steps: u32,
    party: u32,
    row: u32,
    step: u32,
) -> Result<usize, Refusal>
    ensures { Finds n parties rows steps party row step result }
{
    let unfit = misfits(n, parties, rows);
    if unfit {
        return Err(Refusal::Summary(n));
    }
    if parties <= party {
        return Err(Refusal::Question(party));
    }
    if rows <= row {
        return Err(Refusal::Question(row));
    }
    if steps <= step {
        return Err(Refusal::Question(step));
    }
    Ok(place(rows, party, row))
}

// What the word of a party and a row answers: it is held after a step if the word is at most one more.
pub fn decide(word: u32, step: u32) -> bool
    ensures { result ≡ leb word (step + 1) }
{
    wide(word) <= wide(step) + 1
}

// Did the party hold the row after the step? Of any words and any numbers.
pub fn ask(summary: &[u32], party: u32, row: u32, step: u32) -> Result<bool, Refusal>
    ensures { reply_says result ≡ asked summary.now party row step }
{
    let i = find(
        summary.len(),
        word(summary, 0),
        word(summary, 1),
        word(summary, 2),
        party,
        row,
        step,
    )?;
    Ok(decide(word(summary, i), step))
}

// After how many steps each of the rows is first held, by its entry, and `never` where it is not.
fn write_since(entries: &[u32], never: u32, out: &mut [u32], at: usize) -> usize
    ensures { Wrote (since_words entries.now never (length entries.now)) out.old at out.new result }
{
    let mut next = at;
    for &entry in entries {
        next = put(out, next, Entry::since(entry).unwrap_or(never));
    }
    next
}

// The words of one party, read off what it holds in the end.
fn write_party(
    book: &[u32],
    since: &ByRow,
    partners: &ByRow,
    party: u32,
    out: &mut [u32],
    at: usize,
) -> usize
    requires { PartyReady book.now since.now partners.now party }
    ensures { Wrote (held_words book.now party) out.old at out.new result }
{
    let entries = hold(book, since, partners, party);
    let never = steps(book) + 1;
    let rows = wide(rows(book));
    write_since(&entries[..rows], never, out, at)
}

// The words of all parties, in their order.
fn write_parties(book: &[u32], since: &ByRow, partners: &ByRow, out: &mut [u32], at: usize) -> usize
    requires { Writable book.now since.now partners.now }
    ensures { Wrote (held_to book.now (parties_of book.now)) out.old at out.new result }
{
    let mut next = at;
    for party in 0..parties(book) {
        next = write_party(book, since, partners, party, out, next);
    }
    next
}

// Refusal 12 of an accepted book, or its summary.
fn summarize_accepted(book: &[u32], since: &ByRow, partners: &ByRow, out: &mut [u32]) -> Answer
    requires { Plays book.now × Writable book.now since.now partners.now }
    ensures { came result out.new ≡ summarized book.now out.old }
{
    let q = parties(book);
    let t = rows(book);
    let l = steps(book);
    let n = size(q, t);
    if out.len() < n {
        return Err(Refusal::Room(n));
    }
    let next = put_each(out, 0, [q, t, l]);
    write_parties(book, since, partners, out, next);
    Ok(n)
}

// The summary of any words into any lent buffer, or the first refusal that applies.
pub fn write_summary(book: &[u32], out: &mut [u32]) -> Answer
    ensures { came result out.new ≡ summarized book.now out.old }
{
    let all = survey(book);
    all.reading?;
    summarize_accepted(book, &all.since, &all.partners, out)
}
