// Words and bytes, low byte first. `is_uneven` is of bytes that make no whole words, `word_at` one of the words that bytes make, and `load`
// lays them over lent words; `put_word` and `put_words` write words as bytes, each byte whose place is inside, and answer the next place,
// also past the end.
#![tactic(auto)]

ghost use Rattle.std.specs.Prelude.{◌≡◌, [], ◌∷◌, length, get_or, take};
ghost use Rattle.words.specs.Overlay.{Wrote};
ghost use Rattle.octets.specs.Octets.{word_of, words_in, uneven, bytes_of, bytes_of_all};

use words::{Place, put};

// The word of four bytes.
pub fn word(a: u8, b: u8, c: u8, d: u8) -> u32
    ensures { result ≡ word_of a b c d }
{
    u32::from_le_bytes([a, b, c, d])
}

// The bytes make no whole words.
pub fn is_uneven(bytes: &[u8]) -> bool
    ensures { result ≡ uneven bytes.now }
{
    bytes.len() % 4 != 0
}

// Word i that the bytes make, or 0 where they make no such word.
pub fn word_at(bytes: &[u8], i: usize) -> u32
    ensures { result ≡ get_or (words_in bytes.now) i 0 }
{
    if i < bytes.len() / 4 {
        return word(
            bytes[4 * i],
            bytes[4 * i + 1],
            bytes[4 * i + 2],
            bytes[4 * i + 3],
        );
    }
    0
}

// The words of the bytes, over the front of out; those that have no room there are left out. Answers how many were written.
pub fn load(bytes: &[u8], out: &mut [u32]) -> usize
    ensures { Wrote (take (length out.old) (words_in bytes.now)) out.old 0 out.new result }
{
    let n = out.len().min(bytes.len() / 4);
    let mut next = 0;
    for i in 0..n {
        next = put(out, next, word_at(bytes, i));
    }
    next
}

// Writes one byte where the place is inside, and counts it in any case.
pub fn put_byte(out: &mut [u8], at: usize, x: u8) -> usize
    ensures { Wrote (x ∷ []) out.old at out.new result }
{
    if at < out.len() {
        let next = at + 1;
        out[at] = x;
        return next;
    }
    if at < Place::CAP {
        return at + 1;
    }
    at
}

// The same for the four bytes of a word.
pub fn put_word(out: &mut [u8], at: usize, w: u32) -> usize
    ensures { Wrote (bytes_of w) out.old at out.new result }
{
    let mut next = at;
    for b in w.to_le_bytes() {
        next = put_byte(out, next, b);
    }
    next
}

// The same for the words of a slice.
pub fn put_words(out: &mut [u8], at: usize, from: &[u32]) -> usize
    ensures { Wrote (bytes_of_all from.now) out.old at out.new result }
{
    let mut next = at;
    for w in from {
        next = put_word(out, next, *w);
    }
    next
}
