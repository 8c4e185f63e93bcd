// The faces on bytes, low byte first. `translate`, `rehearse`, `summarize`, `ask` and `judge` answer for any bytes what the faces on words
// answer for the words that they make, and leave the same words as bytes; a book, a schedule, a summary or a listing that makes no
// whole words is refused before all else. Callers in other languages have them, and those of `examining`, by the crate editor_c.
#![tactic(auto)]

ghost use Rattle.std.specs.Prelude.{◌≡◌};
ghost use Rattle.translation.specs.Outcome.{came};
ghost use Rattle.summary.specs.Reply.{reply_says};
ghost use Rattle.editor.specs.Bytes.{translation_bytes, rehearsal_bytes, summary_bytes, asked_bytes, judged_bytes};
ghost use Rattle.renaming.specs.Verdict.{verdict_says};

use book::{Layout, Refusal};
use judge::judge_listing;
use octets::{is_uneven, load};
use relaying::{ask_words, rehearse_words, summarize_words};
use renaming::Verdict;
use translation::Answer;
use writing::translate_words;

// What is read at most.
#[derive(Drop)]
struct Most {}

impl Most {
    // One word more than the longest book has, and one move more than a schedule may have: what is longer is refused all the same.
    const WORDS: usize = Layout::LOADED;

    const MOVES: usize = 4097;
}

// The output of the bytes of a book into any lent bytes, or the first refusal that applies.
pub fn translate(book: &[u8], out: &mut [u8]) -> Answer
    ensures { came result out.new ≡ translation_bytes book.now out.old }
{
    if is_uneven(book) {
        return Err(Refusal::Short);
    }
    let mut words = [0u32; Most::WORDS];
    let n = load(book, &mut words);
    translate_words(&words[..n], out)
}

// The events done by each party, of the bytes of a book and of a schedule.
pub fn rehearse(book: &[u8], schedule: &[u8], out: &mut [u8]) -> Answer
    ensures { came result out.new ≡ rehearsal_bytes book.now schedule.now out.old }
{
    if is_uneven(book) {
        return Err(Refusal::Short);
    }
    if is_uneven(schedule) {
        return Err(Refusal::Short);
    }
    let mut words = [0u32; Most::WORDS];
    let n = load(book, &mut words);
    let mut moves = [0u32; Most::MOVES];
    let m = load(schedule, &mut moves);
    rehearse_words(&words[..n], &moves[..m], out)
}

// Did the party hold the row after the step, by the bytes of a summary?
pub fn ask(summary: &[u8], party: u32, row: u32, step: u32) -> Result<bool, Refusal>
    ensures { reply_says result ≡ asked_bytes summary.now party row step }
{
    if is_uneven(summary) {
        return Err(Refusal::Short);
    }
    ask_words(summary, party, row, step)
}

// The summary of the bytes of a book.
pub fn summarize(book: &[u8], out: &mut [u8]) -> Answer
    ensures { came result out.new ≡ summary_bytes book.now out.old }
{
    if is_uneven(book) {
        return Err(Refusal::Short);
    }
    let mut words = [0u32; Most::WORDS];
    let n = load(book, &mut words);
    summarize_words(&words[..n], out)
}

// The verdict on another translator's listing of a party, of the bytes of a book and of the listing, which is read where it lies: it may be
// of any length.
pub fn judge(book: &[u8], party: u32, listing: &[u8]) -> Result<Verdict, Refusal>
    ensures { verdict_says result ≡ judged_bytes book.now party listing.now }
{
    if is_uneven(book) {
        return Err(Refusal::Short);
    }
    if is_uneven(listing) {
        return Err(Refusal::Short);
    }
    let mut words = [0u32; Most::WORDS];
    let n = load(book, &mut words);
    let none = [0u32; 1];
    judge_listing(&words[..n], party, &none[0..0], listing)
}
