// The line of any call: of a function's number and the bytes of its slices and numbers. `call_line` leaves exactly the line's bytes, for any
// bytes.
#![tactic(auto)]

ghost use Rattle.std.specs.Prelude.{◌≡◌, true, ◌/◌, ◌≤◌, ◌<◌, length, take};
ghost use Rattle.io.specs.Counts.{IsPrefixLen};
ghost use Rattle.octets.specs.Octets.{words_in};
ghost use Rattle.translation.specs.Outcome.{came};
ghost use Rattle.line.specs.Line.{Inside, line_of};
ghost use Rattle.functions.specs.Functions.{Known, OfBooks, OfTypes, asks, judges};
ghost use Rattle.calling.specs.Call.{OnWords, OnBytes, verdict_line, words_line, bytes_line, question_line, judge_line, typing_line, book_line, call_line};

use functions::{Function, is_judgement, is_question, on_bytes};
use telling::Room;
use translation::Answer;

// The line of a call that has no output, into the front of `line`; answers its length.
fn verdict_line(line: &mut [u8], function: u32, book: &[u32]) -> usize
    requires { (1 ≤ function) × (function < 3) × (71 ≤ length line.old) }
    ensures prefix_len { IsPrefixLen result line.new }
    ensures line_after { take result line.new ≡ verdict_line function book.now }
{
    if function == Function::READ {
        return line::reading_line(line, reader::read(book));
    }
    line::reading_line(line, translator::accept(book))
}

// The line of a call on words. The slices stand in the order of the function's parameters; what it has none for is not looked at.
fn words_line(
    line: &mut [u8],
    function: u32,
    first: &[u32],
    second: &mut [u32],
    third: &mut [u32],
) -> usize
    requires { OnWords function × (length second.old ≤ 16384) × (length third.old ≤ 16384) × (180234 ≤ length line.old) }
    ensures prefix_len { IsPrefixLen result line.new }
    ensures line_after { take result line.new ≡ words_line function first.now second.old third.old }
{
    if function < Function::TRANSLATE {
        return verdict_line(line, function, first);
    }
    if function == Function::TRANSLATE {
        let answer = translator::translate(first, second);
        return line::answer_line(line, answer, second);
    }
    if function == Function::WRITE_SUMMARY {
        let answer = summary::write_summary(first, second);
        return line::answer_line(line, answer, second);
    }
    let answer = rehearsal::rehearse(first, second, third);
    line::answer_line(line, answer, third)
}

// The same, of the bytes of the slices.
fn loaded_line(line: &mut [u8], function: u32, first: &[u8], second: &[u8], third: &[u8]) -> usize
    requires { OnWords function × (length first.now ≤ 65536) × (length second.now ≤ 65536) × (length third.now ≤ 65536) × (180234 ≤ length line.old) }
    ensures prefix_len { IsPrefixLen result line.new }
    ensures line_after { take result line.new ≡ words_line function (words_in first.now) (words_in second.now) (words_in third.now) }
{
    let mut a = [0u32; Room::WORDS];
    let l = octets::load(first, &mut a);
    let mut b = [0u32; Room::WORDS];
    let m = octets::load(second, &mut b);
    let mut c = [0u32; Room::WORDS];
    let n = octets::load(third, &mut c);
    words_line(line, function, &a[..l], &mut b[..m], &mut c[..n])
}

// The line of what a call on bytes came to: of the words that the lent bytes make, or of its refusal.
fn lent_line(line: &mut [u8], answer: Answer, lent: &[u8]) -> usize
    requires { (length lent.now ≤ 65536) × (180234 ≤ length line.old) × Inside answer (length lent.now / 4) }
    ensures prefix_len { IsPrefixLen result line.new }
    ensures line_after { take result line.new ≡ line_of (came answer (words_in lent.now)) }
{
    let mut words = [0u32; Room::WORDS];
    let n = octets::load(lent, &mut words);
    line::answer_line(line, answer, &words[..n])
}

// The line of a call on bytes that has an output.
fn bytes_line(
    line: &mut [u8],
    function: u32,
    first: &[u8],
    second: &mut [u8],
    third: &mut [u8],
) -> usize
    requires { OnBytes function × (length second.old ≤ 65536) × (length third.old ≤ 65536) × (180234 ≤ length line.old) }
    ensures prefix_len { IsPrefixLen result line.new }
    ensures line_after { take result line.new ≡ bytes_line function first.now second.old third.old }
{
    if function == Function::TRANSLATE_BYTES {
        let answer = editor::translate(first, second);
        return lent_line(line, answer, second);
    }
    if function == Function::SUMMARY_BYTES {
        let answer = editor::summarize(first, second);
        return lent_line(line, answer, second);
    }
    let answer = editor::rehearse(first, second, third);
    lent_line(line, answer, third)
}

// The line of a question about a summary, of the bytes of both: the numbers are a party, a row and a step.
fn question_line(line: &mut [u8], function: u32, summary: &[u8], numbers: &[u8]) -> usize
    requires { (asks function ≡ true) × (length summary.now ≤ 65536) × (71 ≤ length line.old) }
    ensures prefix_len { IsPrefixLen result line.new }
    ensures line_after { take result line.new ≡ question_line function summary.now numbers.now }
{
    let party = octets::word_at(numbers, 0);
    let row = octets::word_at(numbers, 1);
    let step = octets::word_at(numbers, 2);
    if function == Function::ASK {
        return telling::reply_line(line, telling::ask_words(summary, party, row, step));
    }
    telling::reply_line(line, editor::ask(summary, party, row, step))
}

// The line of a listing that is judged against a book, of the bytes of both and of the party's number.
fn judge_line(line: &mut [u8], function: u32, book: &[u8], listing: &[u8], number: &[u8]) -> usize
    requires { (judges function ≡ true) × (length book.now ≤ 65536) × (length listing.now ≤ 65536) × (71 ≤ length line.old) }
    ensures prefix_len { IsPrefixLen result line.new }
    ensures line_after { take result line.new ≡ judge_line function book.now listing.now number.now }
{
    let party = octets::word_at(number, 0);
    if function == Function::JUDGE {
        return telling::judgement_line(line, telling::judge_words(book, party, listing));
    }
    telling::judgement_line(line, editor::judge(book, party, listing))
}

// The line of a call about derivations, of the bytes of what is asked and of a derivation.
fn typing_line(line: &mut [u8], function: u32, asked: &[u8], derivation: &[u8]) -> usize
    requires { OfTypes function × (length asked.now ≤ 65536) × (length derivation.now ≤ 65536) × (71 ≤ length line.old) }
    ensures prefix_len { IsPrefixLen result line.new }
    ensures line_after { take result line.new ≡ typing_line function asked.now derivation.now }
{
    if function == Function::CHECK {
        return telling::checked_line(line, telling::check_words(asked, derivation));
    }
    if function == Function::CHECK_BYTES {
        return telling::checked_line(line, telling::check_bytes(asked, derivation));
    }
    if function == Function::APART {
        return telling::reply_line(line, telling::apart_words(asked));
    }
    telling::reply_line(line, telling::apart_bytes(asked))
}

// The line of a call about books, of the bytes that were read of its slices, and behind them of its numbers: of a question the second are
// those, and of a listing that is judged the third.
fn book_line(
    line: &mut [u8],
    function: u32,
    first: &[u8],
    second: &mut [u8],
    third: &mut [u8],
) -> usize
    requires { OfBooks function × (length first.now ≤ 65536) × (length second.old ≤ 65536) × (length third.old ≤ 65536) × (180234 ≤ length line.old) }
    ensures prefix_len { IsPrefixLen result line.new }
    ensures line_after { take result line.new ≡ book_line function first.now second.old third.old }
{
    if is_question(function) {
        return question_line(line, function, first, second);
    }
    if is_judgement(function) {
        return judge_line(line, function, first, second, third);
    }
    if on_bytes(function) {
        return bytes_line(line, function, first, second, third);
    }
    loaded_line(line, function, first, second, third)
}

// The line of any call.
pub fn call_line(
    line: &mut [u8],
    function: u32,
    first: &[u8],
    second: &mut [u8],
    third: &mut [u8],
) -> usize
    requires { Known function × (length first.now ≤ 65536) × (length second.old ≤ 65536) × (length third.old ≤ 65536) × (180234 ≤ length line.old) }
    ensures prefix_len { IsPrefixLen result line.new }
    ensures line_after { take result line.new ≡ call_line function first.now second.old third.old }
{
    if Function::JUDGE_BYTES < function {
        return typing_line(line, function, first, second);
    }
    book_line(line, function, first, second, third)
}
