// Rehearsals and summaries into bytes, low byte first, through words between, of which there are as many as the output has room for, or as it
// can have. `rehearse_words` and `summarize_words` answer as the faces on words do, and leave the same words as bytes; `ask_words` asks the
// words that the bytes of a summary make.
#![tactic(auto)]

ghost use Rattle.std.specs.Prelude.{◌≡◌, ◌/◌, min, length};
ghost use Rattle.octets.specs.Octets.{words_in};
ghost use Rattle.translation.specs.Outcome.{came};
ghost use Rattle.summary.specs.Summary.{asked};
ghost use Rattle.summary.specs.Reply.{reply_says};
ghost use Rattle.relaying.specs.Relayed.{rehearsed, summarized_on};

use book::Refusal;
use octets::{put_words, word_at};
use summary::{decide, find};
use translation::Answer;

// What is kept at most.
#[derive(Drop)]
struct Most {}

impl Most {
    const PARTIES: usize = 16;

    // The words of a summary: 3, and 1,024 for each of 16 parties.
    const SUMMARY: usize = 16387;
}

// A rehearsal into words, and from there, as bytes, to the output. There are as many words as the output has room for, or as parties
// can be.
fn rehearse_through(book: &[u32], schedule: &[u32], done: &mut [u32], out: &mut [u8]) -> Answer
    requires { length done.old ≡ min 16 (length out.old / 4) }
    ensures { came result out.new ≡ rehearsed book.now schedule.now out.old }
{
    let n = rehearsal::rehearse(book, schedule, done)?;
    put_words(out, 0, &done[..n]);
    Ok(n)
}

// The events done by each party of any words under any schedule, into any lent bytes, or the first refusal that applies.
pub fn rehearse_words(book: &[u32], schedule: &[u32], out: &mut [u8]) -> Answer
    ensures { came result out.new ≡ rehearsed book.now schedule.now out.old }
{
    let mut done = [0u32; Most::PARTIES];
    let room = Most::PARTIES.min(out.len() / 4);
    rehearse_through(book, schedule, &mut done[..room], out)
}

// A summary into words, and from there, as bytes, to the output. There are as many words as the output has room for, or as a summary can
// have.
fn summarize_through(book: &[u32], told: &mut [u32], out: &mut [u8]) -> Answer
    requires { length told.old ≡ min 16387 (length out.old / 4) }
    ensures { came result out.new ≡ summarized_on book.now out.old }
{
    let n = summary::write_summary(book, told)?;
    put_words(out, 0, &told[..n]);
    Ok(n)
}

// The summary of any words into any lent bytes, or the first refusal that applies.
pub fn summarize_words(book: &[u32], out: &mut [u8]) -> Answer
    ensures { came result out.new ≡ summarized_on book.now out.old }
{
    let mut told = [0u32; Most::SUMMARY];
    let room = Most::SUMMARY.min(out.len() / 4);
    summarize_through(book, &mut told[..room], out)
}

// Did the party hold the row after the step, by the words that the bytes of a summary make? They are read where they lie: a summary may
// be of any length.
pub fn ask_words(summary: &[u8], party: u32, row: u32, step: u32) -> Result<bool, Refusal>
    ensures { reply_says result ≡ asked (words_in summary.now) party row step }
{
    let i = find(
        summary.len() / 4,
        word_at(summary, 0),
        word_at(summary, 1),
        word_at(summary, 2),
        party,
        row,
        step,
    )?;
    Ok(decide(word_at(summary, i), step))
}
