// Any call without code: reads requests from standard input, each a function's number, its slices and its numbers, calls the function and
// prints its answer on one line. What is read of a function is told by `functions`, its line by `calling`, for any bytes; here
// they are read and printed.
#![tactic(auto)]

ghost use Rattle.std.specs.Prelude.{◌≡◌, ◌≤◌, length, None};
ghost use Rattle.input.specs.Input.{Within};
ghost use Rattle.functions.specs.Functions.{Known};
ghost use Rattle.calls.specs.Next.{Asked};
ghost use Rattle.calls.specs.Request.{Filled, IsSlice, AreNumbers, IsNth, Came, Answered, Numbered};

use functions::Function;
use input::Failed;
use std::io::{Read, Write};

// What is read and printed at most.
#[derive(Drop)]
struct Most {}

impl Most {
    // Of a slice: as bytes, as many words as `telling` lends for one.
    const BYTES: usize = 65536;

    // A word takes up to eleven bytes of the line, as `line` counts them.
    const LINE: usize = 180234;

    // A run ends, so it has a last request.
    const REQUESTS: usize = 1048576;
}

// Reads bytes until those that are lent for them are full. Where they don't come, that is told.
fn read_all<R: Read, E: Write>(
    reader: &mut R,
    errors: &mut E,
    bytes: &mut [u8],
) -> Result<(), Failed>
    ensures { Filled result (R.remaining reader.old) (R.remaining reader.new) bytes.new }
{
    let n = input::fill(reader, errors, b"standard input", bytes)?;
    if n < bytes.len() {
        let _ = errors.write_all(b"standard input ends inside a request\n");
        return Err(Failed);
    }
    Ok(())
}

// Reads a slice of a function: its count, and then so many words or bytes. Where bytes don't fill the last word, it is filled up, and
// that is no part of the slice. Answers how many bytes the slice has.
fn read_slice<R: Read, E: Write>(
    reader: &mut R,
    errors: &mut E,
    function: u32,
    bytes: &mut [u8],
) -> Result<usize, Failed>
    requires { 65536 ≤ length bytes.old }
    ensures within { Within result 65536 }
    ensures came { Came (IsSlice function) result (R.remaining reader.old) (R.remaining reader.new) bytes.new }
{
    let mut head = [0u8; 4];
    read_all(reader, errors, &mut head)?;
    let size = functions::slice_size(function, &head);
    if Most::BYTES < size {
        let _ = errors.write_all(b"a slice has more than 65536 bytes\n");
        return Err(Failed);
    }
    read_all(reader, errors, &mut bytes[0..(size + 3) / 4 * 4])?;
    Ok(size)
}

// Reads the numbers of a function, a word each; answers how many bytes they have.
fn read_numbers<R: Read, E: Write>(
    reader: &mut R,
    errors: &mut E,
    function: u32,
    bytes: &mut [u8],
) -> Result<usize, Failed>
    requires { 65536 ≤ length bytes.old }
    ensures within { Within result 65536 }
    ensures came { Came (AreNumbers function) result (R.remaining reader.old) (R.remaining reader.new) bytes.new }
{
    let size = 4 * functions::numbers(function);
    read_all(reader, errors, &mut bytes[0..size])?;
    Ok(size)
}

// Reads slice k of a function, counted from 0, or behind its slices all of its numbers; where it has none, no bytes come.
fn read_nth<R: Read, E: Write>(
    reader: &mut R,
    errors: &mut E,
    function: u32,
    k: usize,
    bytes: &mut [u8],
) -> Result<usize, Failed>
    requires { 65536 ≤ length bytes.old }
    ensures within { Within result 65536 }
    ensures came { Came (IsNth function k) result (R.remaining reader.old) (R.remaining reader.new) bytes.new }
{
    let n = functions::slices(function);
    if k < n {
        return read_slice(reader, errors, function, bytes);
    }
    if k == n {
        return read_numbers(reader, errors, function, bytes);
    }
    Ok(0)
}

// Reads the slices and the numbers of a call, and prints its line, where all of them came. A line that can't be printed is told, and the
// next request is read.
fn answer<R: Read, W: Write, E: Write>(
    reader: &mut R,
    out: &mut W,
    errors: &mut E,
    function: u32,
) -> Result<(), Failed>
    requires { Known function }
    ensures { Answered result function (R.remaining reader.old) (R.remaining reader.new) (W.contents out.old) (W.contents out.new) }
{
    let mut first = [0u8; Most::BYTES];
    let l = read_nth(reader, errors, function, 0, &mut first)?;
    let mut second = [0u8; Most::BYTES];
    let m = read_nth(reader, errors, function, 1, &mut second)?;
    let mut third = [0u8; Most::BYTES];
    let n = read_nth(reader, errors, function, 2, &mut third)?;
    let mut line = [0u8; Most::LINE];
    let end = calling::call_line(
        &mut line,
        function,
        &first[..l],
        &mut second[..m],
        &mut third[..n],
    );
    let _ = line::print(out, errors, &line[..end]);
    Ok(())
}

// Says on standard error why nothing more is called.
fn stop<E: Write>(errors: &mut E, why: &[u8]) -> Option<u32>
    ensures { result ≡ None }
{
    let _ = errors.write_all(why);
    None
}

// Reads the number of the function that is called next. Where none comes, the requests are at their end; where that is no proper end, it is
// told.
fn read_next<R: Read, E: Write>(reader: &mut R, errors: &mut E) -> Option<u32>
    ensures asked { Asked result }
    ensures numbered { Numbered result (R.remaining reader.old) (R.remaining reader.new) }
{
    let mut head = [0u8; 4];
    let Ok(n) = input::fill(reader, errors, b"standard input", &mut head) else {
        return None;
    };
    if n == 0 {
        return None;
    }
    if n < 4 {
        return stop(errors, b"standard input ends inside a request\n");
    }
    let function = octets::word(head[0], head[1], head[2], head[3]);
    if function < Function::READ {
        return stop(errors, b"there is no function of this number\n");
    }
    if Function::APART_BYTES < function {
        return stop(errors, b"there is no function of this number\n");
    }
    Some(function)
}

fn main(rt: HostRuntime) {
    let mut reader = rt.stdin();
    let mut out = rt.stdout();
    let mut errors = rt.stderr();
    for _ in 0..Most::REQUESTS {
        let Some(function) = read_next(&mut reader, &mut errors) else {
            return;
        };
        if answer(&mut reader, &mut out, &mut errors, function).is_err() {
            return;
        }
    }
    let _ = errors.write_all(b"no more than 1048576 requests are answered\n");
}
