// A program's input: `fill` reads bytes and says how many came, never more than there is room for. Which bytes come is the system's.
// What fails is told at once, on standard error, so that of a failure no more is handed on than that it was.
#![tactic(auto)]

ghost use Rattle.std.specs.Prelude.{◌≤◌, length};
ghost use Rattle.input.specs.Input.{Within, Came};

use std::fmt;
use std::io::{Error, Read, Write};

// Reading or printing failed, which was told.
#[derive(Debug, Drop)]
pub struct Failed;

// Fills the bytes until there is no more room or no more to read. A read may bring fewer bytes
// than there is room for, so the end is a read that brings none.
pub fn fill<R: Read, E: Write>(
    reader: &mut R,
    errors: &mut E,
    name: &[u8],
    bytes: &mut [u8],
) -> Result<usize, Failed>
    ensures within { Within result (length bytes.old) }
    ensures came { Came result (R.remaining reader.old) (R.remaining reader.new) bytes.new }
{
    let mut n = 0;
    while n < bytes.len() {
        match reader.read(&mut bytes[n..]) {
            Ok(0) => return Ok(n),
            Ok(more) => n += more,
            Err(error) => {
                fail(errors, name, &error);
                return Err(Failed);
            }
        }
    }
    Ok(n)
}

// What a system's error says of itself, as far as there is room.
#[derive(Drop)]
struct Said {
    bytes: [u8; Said::ROOM],
    n: usize,
}

impl Said {
    const ROOM: usize = 512;
}

impl fmt::Write for Said {
    fn write_str(&mut self, text: &str) -> fmt::Result {
        for b in text.as_bytes() {
            let n = self.n;
            if n < Said::ROOM {
                self.bytes[n] = *b;
                self.n = n + 1;
            }
        }
        Ok(())
    }
}

// Where the error's number begins in what it says, or the end.
fn number_in(text: &[u8]) -> usize
    ensures { result ≤ length text.now }
{
    for i in 0..text.len() {
        if text[i..].starts_with(b" (os error ") {
            return i;
        }
    }
    text.len()
}

// Tells what failed, by its name, and the system's reason, without the number that std writes behind it.
pub fn fail<E: Write>(errors: &mut E, what: &[u8], error: &Error) {
    let mut said = Said {
        bytes: [0; Said::ROOM],
        n: 0,
    };
    let _ = fmt::Write::write_fmt(&mut said, format_args!("{error}"));
    let all = &said.bytes[..said.n.min(Said::ROOM)];
    let end = number_in(all);
    let _ = errors.write_all(what);
    let _ = errors.write_all(b": ");
    let _ = errors.write_all(&all[..end]);
    let _ = errors.write_all(b"\n");
}

#[cfg(test)]
mod tests {
    use super::fill;
    use std::io::{Error, ErrorKind, Read, Result};
    use std::test::Fail;

    // Gives two bytes a read, and fails where so many reads are over.
    #[derive(Drop)]
    struct Breaks {
        reads: usize,
    }

    impl Read for Breaks {
        fn read(&mut self, buf: &mut [u8]) -> Result<usize> {
            if self.reads == 0 {
                return Err(Error::new(ErrorKind::Other, "broken"));
            }
            self.reads -= 1;
            if buf.len() < 2 {
                return Ok(0);
            }
            buf[0] = b'a';
            buf[1] = b'b';
            Ok(2)
        }
    }

    #[test]
    fn reads_in_parts(rt: HostRuntime) -> std::result::Result<(), Fail> {
        let mut told = Vec::new(rt.alloc());
        let mut bytes = [0u8; 6];
        let input = fill(&mut Breaks { reads: 3 }, &mut told, b"input", &mut bytes);
        assert!(rt; matches!(input, Ok(6)));
        assert_eq!(rt; bytes.as_slice(), b"ababab".as_slice());
        assert_eq!(rt; told.len(), 0);
        Ok(())
    }

    #[test]
    fn tells_a_read_that_fails(rt: HostRuntime) -> std::result::Result<(), Fail> {
        let mut told = Vec::new(rt.alloc());
        let mut bytes = [0u8; 6];
        let input = fill(&mut Breaks { reads: 2 }, &mut told, b"input", &mut bytes);
        assert!(rt; input.is_err());
        assert_eq!(rt; told.as_slice(), b"input: broken\n".as_slice());
        Ok(())
    }
}
