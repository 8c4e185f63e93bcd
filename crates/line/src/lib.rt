// The line that is printed of an answer: of a listing, of a refusal, and of a reading. `answer_line` and `reading_line` leave exactly
// the line's bytes, decimal with single spaces and one newline at the end; `print` writes them out.
#![tactic(auto)]

ghost use Rattle.std.specs.Prelude.{◌≡◌, ◌+◌, ◌*◌, ◌<◌, ◌≤◌, length, take};
ghost use Rattle.io.specs.Counts.{IsPrefixLen};
ghost use Rattle.book.specs.Said.{refusal_says, reading_says, told_says};
ghost use Rattle.translation.specs.Outcome.{came};
ghost use Rattle.line.specs.Line.{spaced_all, ended, listing_line, refusal_text, refusal_line, reading_line, line_of, Inside, Put, PutNumber, Printed};

use book::{Refusal, Told, told_of};
use input::Failed;
use std::io::{Error, ErrorKind, Write};
use translation::Answer;

// Puts a text at a place of the line; answers the place behind it.
pub fn put_text(line: &mut [u8], at: usize, text: &[u8]) -> usize
    requires { at + length text.now ≤ length line.old }
    ensures { Put text.now line.old at line.new result }
{
    let end = at + text.len();
    line[at..end].copy_from_slice(text);
    end
}

// The same for a number in decimal with a space behind it. A word takes up to eleven bytes of the line; another number can take
// twenty-one, and wherever a number is put, there is room for that.
pub fn put_number(line: &mut [u8], at: usize, x: u64) -> usize
    requires { at + 21 ≤ length line.old }
    ensures { PutNumber x line.old at line.new result }
{
    let mut digits = [0u8; 20];
    let n = io::decimal(x, &mut digits);
    let end = put_text(line, at, &digits[..n]);
    line[end] = b' ';
    end + 1
}

// The same for words, from the line's start.
fn put_words(line: &mut [u8], words: &[u32]) -> usize
    requires { 11 * length words.now + 10 ≤ length line.old }
    ensures { (take result line.new ≡ spaced_all words.now) × (result ≤ 11 * length words.now) }
{
    let mut at = 0;
    for word in words {
        at = put_number(line, at, u64::from(*word));
    }
    at
}

// The same for a refusal.
fn put_told(line: &mut [u8], told: Told) -> usize
    requires { 71 ≤ length line.old }
    ensures { (take result line.new ≡ refusal_text (told_says told)) × (result ≤ 71) }
{
    let start = put_text(line, 0, b"refused ");
    match told {
        Told::One(number, place) => {
            let first = put_number(line, start, number);
            put_number(line, first, place)
        }
        Told::Two(number, place, row) => {
            let first = put_number(line, start, number);
            let second = put_number(line, first, place);
            put_number(line, second, row)
        }
    }
}

// Puts a newline in the last space's place; answers the line's length.
pub fn end(line: &mut [u8], at: usize) -> usize
    requires { (at ≤ length line.old) × (0 < length line.old) }
    ensures prefix_len { IsPrefixLen result line.new }
    ensures line_after { take result line.new ≡ ended (take at line.old) }
{
    if at == 0 {
        line[0] = b'\n';
        return 1;
    }
    line[at - 1] = b'\n';
    at
}

// The line of a listing, and of a refusal.
fn listing_line(line: &mut [u8], words: &[u32]) -> usize
    requires { 11 * length words.now + 10 ≤ length line.old }
    ensures prefix_len { IsPrefixLen result line.new }
    ensures line_after { take result line.new ≡ listing_line words.now }
{
    let at = put_words(line, words);
    end(line, at)
}

pub fn refusal_line(line: &mut [u8], refusal: Refusal) -> usize
    requires { 71 ≤ length line.old }
    ensures prefix_len { IsPrefixLen result line.new }
    ensures line_after { take result line.new ≡ refusal_line (refusal_says refusal) }
{
    let at = put_told(line, told_of(refusal));
    end(line, at)
}

// The line of what a translation or a rehearsal came to: of its words, in front of what was lent, or of its refusal.
pub fn answer_line(line: &mut [u8], answer: Answer, lent: &[u32]) -> usize
    requires { (11 * length lent.now + 10 ≤ length line.old) × (71 ≤ length line.old) × Inside answer (length lent.now) }
    ensures prefix_len { IsPrefixLen result line.new }
    ensures line_after { take result line.new ≡ line_of (came answer lent.now) }
{
    match answer {
        Ok(n) => listing_line(line, &lent[..n]),
        Err(refusal) => refusal_line(line, refusal),
    }
}

// The line of what a reading came to: the word "accepted", as there is no output, or its refusal.
pub fn reading_line(line: &mut [u8], reading: Result<(), Refusal>) -> usize
    requires { 71 ≤ length line.old }
    ensures prefix_len { IsPrefixLen result line.new }
    ensures line_after { take result line.new ≡ reading_line (reading_says reading) }
{
    match reading {
        Ok(()) => put_text(line, 0, b"accepted\n"),
        Err(refusal) => refusal_line(line, refusal),
    }
}

// Writes a line out, or several; where not all of it was written, that is told. All of it is handed over at once and
// a newline comes last, so that where a write fails, what went out before is seen not to be whole.
pub fn print<W: Write, E: Write>(out: &mut W, errors: &mut E, line: &[u8]) -> Result<(), Failed>
    ensures { Printed result (W.contents out.old) (W.contents out.new) line.now }
{
    let mut done = 0;
    while done < line.len() {
        match out.write(&line[done..]) {
            Ok(0) => {
                fail(errors, &Error::from(ErrorKind::WriteZero));
                return Err(Failed);
            }
            Ok(more) => done += more,
            Err(error) => {
                fail(errors, &error);
                return Err(Failed);
            }
        }
    }
    Ok(())
}

// Tells that the line was not written, and the system's reason.
fn fail<E: Write>(errors: &mut E, error: &Error) {
    input::fail(errors, b"standard output", error);
}

#[cfg(test)]
mod tests {
    use super::print;
    use std::io::{Error, ErrorKind, Result, Write};
    use std::test::Fail;

    // Takes at most so many bytes a write, and fails where so many writes are over.
    #[derive(Drop)]
    struct Breaks {
        most: usize,
        writes: usize,
        taken: usize,
    }

    impl Write for Breaks {
        fn write(&mut self, buf: &[u8]) -> Result<usize> {
            if self.writes == 0 {
                return Err(Error::new(ErrorKind::Other, "broken"));
            }
            self.writes -= 1;
            let n = buf.len().min(self.most);
            self.taken = self.taken.saturating_add(n);
            Ok(n)
        }

        fn flush(&mut self) -> Result<()> {
            Ok(())
        }
    }

    #[test]
    fn prints_in_parts(rt: HostRuntime) -> std::result::Result<(), Fail> {
        let mut out = Breaks {
            most: 2,
            writes: 4,
            taken: 0,
        };
        let mut told = Vec::new(rt.alloc());
        assert!(rt; print(&mut out, &mut told, b"5 3 20\n").is_ok());
        assert_eq!(rt; out.taken, 7);
        assert_eq!(rt; told.len(), 0);
        Ok(())
    }

    #[test]
    fn tells_a_write_that_fails(rt: HostRuntime) -> std::result::Result<(), Fail> {
        let mut out = Breaks {
            most: 2,
            writes: 3,
            taken: 0,
        };
        let mut told = Vec::new(rt.alloc());
        assert!(rt; print(&mut out, &mut told, b"5 3 20\n").is_err());
        assert_eq!(rt; out.taken, 6);
        assert_eq!(rt; told.as_slice(), b"standard output: broken\n".as_slice());
        Ok(())
    }

    #[test]
    fn tells_a_write_that_takes_nothing(rt: HostRuntime) -> std::result::Result<(), Fail> {
        let mut out = Breaks {
            most: 0,
            writes: 3,
            taken: 0,
        };
        let mut told = Vec::new(rt.alloc());
        assert!(rt; print(&mut out, &mut told, b"5 3 20\n").is_err());
        assert_eq!(rt;
            told.as_slice(),
            b"standard output: write zero\n".as_slice()
        );
        Ok(())
    }
}
