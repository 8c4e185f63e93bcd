// The program over the whole shelf of books: reads books from standard input, each with its count of words before it, and prints
// of each the listing or the refusal, and what its rehearsal comes to under six schedules, a line for each. `lines_of` leaves exactly
// the lines' bytes, for any bytes that were read of a book; `run` prints these of each book that its reader has.
#![tactic(auto)]

ghost use Rattle.std.specs.Prelude.{◌≡◌, ◌+◌, ◌*◌, ◌^◌, ◌≤◌, ◌<◌, length, take, Ok, None};
ghost use Rattle.io.specs.Counts.{IsPrefixLen};
ghost use Rattle.words.specs.Run.{values};
ghost use Rattle.octets.specs.Octets.{word_at, words_in};
ghost use Rattle.book.specs.Layout.{most, loaded_bytes};
ghost use Rattle.line.specs.Line.{Put};
ghost use Rattle.shelf.specs.Lines.{translated_line, rehearsed_line, played_lines, refused_lines, book_lines};
ghost use Rattle.shelf.specs.Next.{Fits};
ghost use Rattle.shelf.specs.Shelf.{Filled, Found, Ran};
ghost use Rattle.shelf.specs.Turns.{turn, seats};

use book::{Layout, Limit};
use input::Failed;
use std::io::{Read, Write};

// What is read, lent, played and printed at most.
#[derive(Drop)]
struct Most {}

impl Most {
    // One word more than the longest book has, as `nghiralum` reads them, and its bytes.
    const WORDS: usize = Layout::LOADED;

    const BYTES: usize = Layout::LOADED_BYTES;

    const LENT: usize = 16384;

    const PARTIES: usize = 16;

    const MOVES: usize = 4096;

    // A word takes up to eleven bytes of a line, as `line` counts them. A translation's line, a rehearsal's, and a book's seven.
    const LISTING: usize = 180234;

    const COUNTS: usize = 186;

    const LINES: usize = 181350;

    // A run ends, so it has a last book.
    const BOOKS: usize = 65536;
}

// What came next: a book of so many bytes, or nothing more, and where that is no proper end, it was told. Or reading failed.
type Next = Result<Option<usize>, Failed>;

// Says on standard error why there is nothing more.
fn stop<E: Write>(errors: &mut E, why: &[u8]) -> Next
    ensures { result ≡ Ok None }
{
    let _ = errors.write_all(why);
    Ok(None)
}

// Reads bytes until those that are lent for them are full.
fn read_bytes<R: Read, E: Write>(reader: &mut R, errors: &mut E, bytes: &mut [u8]) -> Next
    requires { length bytes.old ≤ loaded_bytes }
    ensures fits { Fits result }
    ensures filled { Filled result (R.remaining reader.old) (R.remaining reader.new) bytes.new }
{
    let n = input::fill(reader, errors, b"standard input", bytes)?;
    if n < bytes.len() {
        return stop(errors, b"standard input ends inside a book\n");
    }
    Ok(Some(n))
}

// How many bytes a book takes: four for each of its words, whose count is the word that the first four bytes make.
fn size_of(head: &[u8; 4]) -> usize
    ensures { (result ≡ 4 * word_at head.now 0) × (result < 2 ^ 34) }
{
    4 * words::wide(octets::word(head[0], head[1], head[2], head[3]))
}

// Reads a book: its count of words, and then these.
fn read_book<R: Read, E: Write>(reader: &mut R, errors: &mut E, bytes: &mut [u8]) -> Next
    requires { loaded_bytes ≤ length bytes.old }
    ensures fits { Fits result }
    ensures found { Found result (R.remaining reader.old) (R.remaining reader.new) bytes.new }
{
    let mut head = [0u8; 4];
    let n = input::fill(reader, errors, b"standard input", &mut head)?;
    if n == 0 {
        return Ok(None);
    }
    if n < 4 {
        return stop(errors, b"standard input ends inside a book\n");
    }
    let size = size_of(&head);
    let most = Most::BYTES;
    if most < size {
        return stop(errors, b"a book has more words than are read\n");
    }
    read_bytes(reader, errors, &mut bytes[0..size])
}

// How many parties the schedules are for: as many as a book may have, or one.
fn seats_of(book: &[u32]) -> u32
    ensures value { result ≡ seats book.now }
    ensures lower_bound { (1 ≤ result) × (result ≤ most 1) }
{
    if book.len() < 3 {
        return 1;
    }
    let parties = book[2];
    if parties == 0 {
        return 1;
    }
    if Limit::PARTIES < parties {
        return 1;
    }
    parties
}

// The party of move i, where each of the parties moves so many times in a row, round and round, from
// the first on or from the last back.
fn turn_of(i: usize, parties: u32, times: usize, back: bool) -> u32
    requires { (0 < parties) × (0 < times) }
    ensures { result ≡ turn parties times back i }
{
    let party = (i / times % words::wide(parties)) as u32;
    if back {
        return parties - 1 - party;
    }
    party
}

// The schedule of these turns.
fn fill_turns(out: &mut [u32], parties: u32, times: usize, back: bool)
    requires { (0 < parties) × (0 < times) }
    ensures { out.new ≡ values (turn parties times back) 0 (length out.old) }
{
    for (i, party) in out.iter_mut().enumerate() {
        *party = turn_of(i, parties, times, back);
    }
}

// The line of a book's rehearsal under the schedule of these turns, which is made in the words lent for it.
fn play(
    line: &mut [u8],
    book: &[u32],
    schedule: &mut [u32],
    parties: u32,
    times: usize,
    back: bool,
) -> usize
    requires { (186 ≤ length line.old) × (0 < parties) × (0 < times) }
    ensures prefix_len { IsPrefixLen result line.new }
    ensures line_after { take result line.new ≡ rehearsed_line book.now (length schedule.old) parties times back }
{
    fill_turns(schedule, parties, times, back);
    let mut lent = [0u32; Most::PARTIES];
    let answer = rehearsal::rehearse(book, schedule, &mut lent);
    line::answer_line(line, answer, &lent)
}

// The same with so many moves.
fn rehearse(
    line: &mut [u8],
    book: &[u32],
    moves: usize,
    parties: u32,
    times: usize,
    back: bool,
) -> usize
    requires { (186 ≤ length line.old) × (moves ≤ 4097) × (0 < parties) × (0 < times) }
    ensures prefix_len { IsPrefixLen result line.new }
    ensures line_after { take result line.new ≡ rehearsed_line book.now moves parties times back }
{
    let mut schedule = [0u32; Most::MOVES + 1];
    play(line, book, &mut schedule[..moves], parties, times, back)
}

// The same at a place of the lines; answers the place behind it.
fn put_rehearsal(
    out: &mut [u8],
    at: usize,
    book: &[u32],
    moves: usize,
    parties: u32,
    times: usize,
    back: bool,
) -> usize
    requires { (at + 186 ≤ length out.old) × (moves ≤ 4097) × (0 < parties) × (0 < times) }
    ensures put { Put (rehearsed_line book.now moves parties times back) out.old at out.new result }
    ensures upper_bound { result ≤ at + 186 }
{
    let n = rehearse(
        &mut out[at..at + Most::COUNTS],
        book,
        moves,
        parties,
        times,
        back,
    );
    at + n
}

// The line of a book's translation.
fn translate(line: &mut [u8], book: &[u32]) -> usize
    requires { 180234 ≤ length line.old }
    ensures prefix_len { IsPrefixLen result line.new }
    ensures line_after { take result line.new ≡ translated_line book.now }
{
    let mut lent = [0u32; Most::LENT];
    let answer = translator::translate(book, &mut lent);
    line::answer_line(line, answer, &lent)
}

// The same at the lines' start.
fn put_translation(out: &mut [u8], book: &[u32]) -> usize
    requires { 180234 ≤ length out.old }
    ensures out_after { take result out.new ≡ translated_line book.now }
    ensures upper_bound { result ≤ 180234 }
{
    translate(&mut out[0..Most::LISTING], book)
}

// The lines of the four schedules that are in order where the book is.
fn put_played(out: &mut [u8], at: usize, book: &[u32], parties: u32) -> usize
    requires { (at + 744 ≤ length out.old) × (0 < parties) }
    ensures put { Put (played_lines book.now parties) out.old at out.new result }
    ensures upper_bound { result ≤ at + 744 }
{
    let first = put_rehearsal(out, at, book, Most::MOVES, parties, 1, false);
    let second = put_rehearsal(out, first, book, Most::MOVES, parties, 1, true);
    let third = put_rehearsal(out, second, book, Most::MOVES, parties, 32, false);
    put_rehearsal(out, third, book, 48, parties, 1, false)
}

// And of two that are refused: one has a party too many in its round, and one a move too many.
fn put_refused(out: &mut [u8], at: usize, book: &[u32], parties: u32) -> usize
    requires { (at + 372 ≤ length out.old) × (0 < parties) × (parties ≤ most 1) }
    ensures put { Put (refused_lines book.now parties) out.old at out.new result }
    ensures upper_bound { result ≤ at + 372 }
{
    let first = put_rehearsal(out, at, book, 48, parties + 1, 1, false);
    put_rehearsal(out, first, book, Most::MOVES + 1, parties, 1, false)
}

// A book's seven lines.
fn seven_lines(out: &mut [u8], book: &[u32]) -> usize
    requires { 181350 ≤ length out.old }
    ensures prefix_len { IsPrefixLen result out.new }
    ensures out_after { take result out.new ≡ book_lines book.now }
{
    let parties = seats_of(book);
    let first = put_translation(out, book);
    let second = put_played(out, first, book, parties);
    put_refused(out, second, book, parties)
}

// The lines that are printed of the bytes of a book, into the front of `out`; answers their length.
fn lines_of(bytes: &[u8], out: &mut [u8]) -> usize
    requires { (length bytes.now ≤ loaded_bytes) × (181350 ≤ length out.old) }
    ensures prefix_len { IsPrefixLen result out.new }
    ensures out_after { take result out.new ≡ book_lines (words_in bytes.now) }
{
    let mut words = [0u32; Most::WORDS];
    let n = octets::load(bytes, &mut words);
    seven_lines(out, &words[..n])
}

// Reads books and prints the lines of each, as long as books come; whether no read and no write failed.
fn run<R: Read, W: Write, E: Write>(reader: &mut R, out: &mut W, errors: &mut E) -> bool
    ensures { Ran result (R.remaining reader.old) (W.contents out.old) (W.contents out.new) }
{
    let mut bytes = [0u8; Most::BYTES];
    let mut lines = [0u8; Most::LINES];
    let mut all = true;
    for books in 0..Most::BOOKS {
        match read_book(reader, errors, &mut bytes) {
            Ok(Some(n)) => {
                let end = lines_of(&bytes[..n], &mut lines);
                all &= line::print(out, errors, &lines[..end]).is_ok();
            }
            Ok(None) => return all,
            Err(Failed) => return false,
        }
    }
    let _ = errors.write_all(b"no more than 65536 books are tried\n");
    all
}

fn main(rt: HostRuntime) {
    run(&mut rt.stdin(), &mut rt.stdout(), &mut rt.stderr());
}
