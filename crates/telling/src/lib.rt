// Answers that are no listings: a reply to a question, a verdict on a listing and what is found in a derivation. Each is asked of the bytes of
// slices, as words and as bytes, and has a line; the functions of lines leave exactly its bytes.
#![tactic(auto)]

ghost use Rattle.std.specs.Prelude.{◌≡◌, ◌≤◌, length, take, Ok};
ghost use Rattle.io.specs.Counts.{IsPrefixLen};
ghost use Rattle.octets.specs.Octets.{words_in};
ghost use Rattle.renaming.specs.Verdict.{judged, verdict_says};
ghost use Rattle.typing.specs.Apart.{keeps_apart};
ghost use Rattle.typing.specs.Derivation.{verdict};
ghost use Rattle.examining.specs.Checked.{found_says, checked_says, verdict_said, checked_said, apart_said, apart_asked};
ghost use Rattle.summary.specs.Summary.{asked};
ghost use Rattle.summary.specs.Reply.{reply_says};
ghost use Rattle.telling.specs.Numbered.{numbered_line};
ghost use Rattle.telling.specs.Found.{found_line};
ghost use Rattle.telling.specs.Judgement.{judgement_line};
ghost use Rattle.telling.specs.Reply.{reply_line};

use book::Refusal;
use checking::Finding;
use renaming::Verdict;

// The room that is lent for words.
#[derive(Drop)]
pub struct Room {}

impl Room {
    // Of a slice: more than the longest book has, and as many as `nghiralum` lends.
    pub const WORDS: usize = 16384;

    // Of what is asked and a derivation: each a slice's words.
    const BOTH: usize = 32768;
}

// The line of a text and a number behind it; answers its length.
fn numbered_line(line: &mut [u8], text: &[u8], number: u64) -> usize
    requires { (length text.now ≤ 50) × (71 ≤ length line.old) }
    ensures prefix_len { IsPrefixLen result line.new }
    ensures line_after { take result line.new ≡ numbered_line text.now number }
{
    let start = line::put_text(line, 0, text);
    let at = line::put_number(line, start, number);
    line::end(line, at)
}

// The reply to a question about the words that the bytes of a summary make.
pub fn ask_words(summary: &[u8], party: u32, row: u32, step: u32) -> Result<bool, Refusal>
    requires { length summary.now ≤ 65536 }
    ensures { reply_says result ≡ asked (words_in summary.now) party row step }
{
    let mut words = [0u32; Room::WORDS];
    let n = octets::load(summary, &mut words);
    summary::ask(&words[..n], party, row, step)
}

// The line of yes or no: that word.
fn yes_line(line: &mut [u8], yes: bool) -> usize
    requires { 71 ≤ length line.old }
    ensures prefix_len { IsPrefixLen result line.new }
    ensures line_after { take result line.new ≡ reply_line (reply_says (Ok yes)) }
{
    if yes {
        return line::put_text(line, 0, b"yes\n");
    }
    line::put_text(line, 0, b"no\n")
}

// The line of what is replied to a question: the word "yes" or "no", or its refusal.
pub fn reply_line(line: &mut [u8], reply: Result<bool, Refusal>) -> usize
    requires { 71 ≤ length line.old }
    ensures prefix_len { IsPrefixLen result line.new }
    ensures line_after { take result line.new ≡ reply_line (reply_says reply) }
{
    match reply {
        Ok(yes) => yes_line(line, yes),
        Err(refusal) => line::refusal_line(line, refusal),
    }
}

// The verdict on a listing, of the words that the bytes of the book and those of the listing make.
pub fn judge_words(book: &[u8], party: u32, listing: &[u8]) -> Result<Verdict, Refusal>
    requires { (length book.now ≤ 65536) × (length listing.now ≤ 65536) }
    ensures { verdict_says result ≡ judged (words_in book.now) party (words_in listing.now) }
{
    let mut words = [0u32; Room::WORDS];
    let n = octets::load(book, &mut words);
    let mut theirs = [0u32; Room::WORDS];
    let m = octets::load(listing, &mut theirs);
    judge::judge(&words[..n], party, &theirs[..m])
}

// The line of a verdict on a listing: the word "same", or where it differs.
fn verdict_line(line: &mut [u8], verdict: Verdict) -> usize
    requires { 71 ≤ length line.old }
    ensures prefix_len { IsPrefixLen result line.new }
    ensures line_after { take result line.new ≡ judgement_line (verdict_says (Ok verdict)) }
{
    match verdict {
        Verdict::Same => line::put_text(line, 0, b"same\n"),
        Verdict::Differs(place) => numbered_line(line, b"differs ", place as u64),
    }
}

// The same, or why there is none.
pub fn judgement_line(line: &mut [u8], verdict: Result<Verdict, Refusal>) -> usize
    requires { 71 ≤ length line.old }
    ensures prefix_len { IsPrefixLen result line.new }
    ensures line_after { take result line.new ≡ judgement_line (verdict_says verdict) }
{
    match verdict {
        Ok(verdict) => verdict_line(line, verdict),
        Err(refusal) => line::refusal_line(line, refusal),
    }
}

// What is found in a derivation of what is asked, of the words that the bytes of both make.
pub fn check_words(asked: &[u8], derivation: &[u8]) -> Result<Finding, Refusal>
    requires { (length asked.now ≤ 65536) × (length derivation.now ≤ 65536) }
    ensures { checked_says result ≡ verdict_said (verdict (words_in asked.now) (words_in derivation.now)) }
{
    let mut a = [0u32; Room::WORDS];
    let m = octets::load(asked, &mut a);
    let mut d = [0u32; Room::WORDS];
    let n = octets::load(derivation, &mut d);
    checking::check(&a[..m], &d[..n])
}

// The same on bytes. The room that is lent is enough for both.
pub fn check_bytes(asked: &[u8], derivation: &[u8]) -> Result<Finding, Refusal>
    requires { (length asked.now ≤ 65536) × (length derivation.now ≤ 65536) }
    ensures { checked_says result ≡ checked_said asked.now derivation.now }
{
    let mut room = [0u32; Room::BOTH];
    examining::check(asked, derivation, &mut room)
}

// The line of what is found: the word "safe", or "bad" and the line, or "another".
pub fn finding_line(line: &mut [u8], finding: Finding) -> usize
    requires { 71 ≤ length line.old }
    ensures prefix_len { IsPrefixLen result line.new }
    ensures line_after { take result line.new ≡ found_line (found_says finding) }
{
    match finding {
        Finding::Safe => line::put_text(line, 0, b"safe\n"),
        Finding::Bad(at) => numbered_line(line, b"bad ", at as u64),
        Finding::Another => line::put_text(line, 0, b"another\n"),
    }
}

// The same, or why nothing was found.
pub fn checked_line(line: &mut [u8], checked: Result<Finding, Refusal>) -> usize
    requires { 71 ≤ length line.old }
    ensures prefix_len { IsPrefixLen result line.new }
    ensures line_after { take result line.new ≡ found_line (checked_says checked) }
{
    match checked {
        Ok(finding) => finding_line(line, finding),
        Err(refusal) => line::refusal_line(line, refusal),
    }
}

// Whether what is asked keeps its bound names apart, by the words that its bytes make.
pub fn apart_words(asked: &[u8]) -> Result<bool, Refusal>
    requires { length asked.now ≤ 65536 }
    ensures { reply_says result ≡ apart_said (keeps_apart (words_in asked.now)) }
{
    let mut a = [0u32; Room::WORDS];
    let n = octets::load(asked, &mut a);
    Ok(apart::keeps_apart(&a[..n]))
}

// The same on bytes.
pub fn apart_bytes(asked: &[u8]) -> Result<bool, Refusal>
    requires { length asked.now ≤ 65536 }
    ensures { reply_says result ≡ apart_asked asked.now }
{
    let mut room = [0u32; Room::WORDS];
    examining::apart(asked, &mut room)
}
