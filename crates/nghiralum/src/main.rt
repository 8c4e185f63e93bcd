// The program: reads a book from the file that its argument names, or from standard input, and prints its listing or its refusal
// on one line. `reply` leaves exactly the line's bytes, for any bytes that were read; `run` prints that line of what its reader has, and
// the rest opens and tells.
#![tactic(auto)]

ghost use Rattle.std.specs.Prelude.{◌≡◌, ◌≤◌, length, take};
ghost use Rattle.io.specs.Counts.{IsPrefixLen};
ghost use Rattle.book.specs.Layout.{loaded_bytes};
ghost use Rattle.nghiralum.specs.Reply.{reply_line, Replied};

use book::Layout;
use input::Failed;
use std::env::{Env, FillError};
use std::fs::File;
use std::io::{self, Error, ErrorKind, Read, Write};
use std::rt::Files;

// What is read, lent and printed at most.
#[derive(Drop)]
struct Most {}

impl Most {
    // A word more than the longest book has, so that a longer one is seen to be too long.
    const BYTES: usize = Layout::LOADED_BYTES;

    // The bytes that are lent, and the words that they make.
    const OUT: usize = 65536;

    const LENT: usize = 16384;

    // A word takes up to eleven bytes of the line, as `line` counts them.
    const LINE: usize = 180234;

    // The bytes of a file's name.
    const NAME: usize = 4096;
}

// The line that is printed of the bytes that were read, into the front of `line`; answers its length.
fn reply(read: &[u8], line: &mut [u8]) -> usize
    requires { (length read.now ≤ loaded_bytes) × (180234 ≤ length line.old) }
    ensures prefix_len { IsPrefixLen result line.new }
    ensures line_after { take result line.new ≡ reply_line read.now }
{
    let mut out = [0u8; Most::OUT];
    let answer = editor::translate(read, &mut out);
    let mut lent = [0u32; Most::LENT];
    octets::load(&out, &mut lent);
    line::answer_line(line, answer, &lent)
}

// Reads a book from what is open, and prints what comes of it. Where not all was read and printed, that is told.
fn run<R: Read, W: Write, E: Write>(
    reader: &mut R,
    out: &mut W,
    errors: &mut E,
    name: &[u8],
) -> Result<(), Failed>
    ensures { Replied result (R.remaining reader.old) (W.contents out.old) (W.contents out.new) }
{
    let mut bytes = [0u8; Most::BYTES];
    let n = input::fill(reader, errors, name, &mut bytes)?;
    let mut line = [0u8; Most::LINE];
    let end = reply(&bytes[..n], &mut line);
    line::print(out, errors, &line[..end])
}

// Opens a file to be read. A name that is no text can't be opened.
fn open<F: Files>(files: &F, name: &[u8]) -> io::Result<F::File> {
    match str::from_utf8(name) {
        Ok(text) => File::open(files, text),
        Err(_) => Err(Error::new(ErrorKind::InvalidFilename, "the name is no UTF-8")),
    }
}

// The same from the file that the argument names.
fn run_file<S: Env + Files, W: Write, E: Write>(system: &S, out: &mut W, errors: &mut E) {
    let mut name = [0u8; Most::NAME];
    match system.arg(1, &mut name) {
        Ok(n) => match open(system, &name[..n]) {
            Ok(mut file) => {
                let _ = run(&mut file, out, errors, &name[..n]);
            }
            Err(error) => input::fail(errors, &name[..n], &error),
        },
        Err(_) => {
            let error = Error::new(ErrorKind::InvalidFilename, "File name too long");
            input::fail(errors, b"the file's name", &error);
        }
    }
}

// Whether there is an argument of this number, counted from the program's own name as 0.
fn is_argument(system: &impl Env, number: usize) -> bool {
    let mut name = [0u8; Most::NAME];
    !matches!(system.arg(number, &mut name), Err(FillError::NotPresent))
}

fn main(rt: HostRuntime) {
    let mut out = rt.stdout();
    let mut errors = rt.stderr();
    if !is_argument(&rt, 1) {
        let _ = run(&mut rt.stdin(), &mut out, &mut errors, b"standard input");
    } else if !is_argument(&rt, 2) {
        run_file(&rt, &mut out, &mut errors);
    } else {
        let _ = errors.write_all(b"one argument is taken, a file's name\n");
    }
}
