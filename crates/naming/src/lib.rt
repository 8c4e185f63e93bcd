// The numbers by which another translator's listing calls our placeholders. Which of them its words hand out, told by the words alone: whether
// a new run is free is seen by the range of their numbers so far and, inside it, by their own words. And what they call each of ours, which is
// kept for the step at hand, and of the steps before for those that are stored: no other is used later. Their listing is words and, behind
// them, the words that bytes make, either of which may be none.
#![tactic(auto)]

ghost use Rattle.std.specs.Prelude.{◌≡◌, [], false, ◌+◌, ◌-◌, ◌≤◌, ◌<◌, MatchOption, length, get_or};
ghost use Rattle.words.specs.Choice.{pick};
ghost use Rattle.words.specs.First.{first};
ghost use Rattle.words.specs.Overlay.{Wrote};
ghost use Rattle.renaming.specs.Slot.{Slot};
ghost use Rattle.renaming.specs.Renaming.{numbers, fresh, agrees};
ghost use Rattle.scanning.specs.Scan.{of_length};
ghost use Rattle.naming.specs.Mirror.{theirs, handed_by};
ghost use Rattle.naming.specs.Called.{Ranged, Wider, is_placeholder, name_of, recent_names};

use book::Triple;
use octets::word_at;
use scanning::{Class, Mode};
use words::{put, wide, word};

// How many numbers 32 bits hold: no run goes past the last.
#[derive(Drop)]
pub struct Numbers {}

impl Numbers {
    pub const ALL: usize = 4294967296;
}

// How many words their listing has.
pub fn size(words: &[u32], bytes: &[u8]) -> usize
    ensures { result ≡ length (theirs words.now bytes.now) }
{
    words.len() + bytes.len() / 4
}

// Word i of their listing, or 0 past its end.
pub fn their(words: &[u32], bytes: &[u8], i: usize) -> u32
    ensures { result ≡ get_or (theirs words.now bytes.now) i 0 }
{
    let n = words.len();
    if i < n {
        words[i]
    } else {
        word_at(bytes, i - n)
    }
}

// None of the m numbers from x on is one of the n numbers from y on.
fn apart(x: u32, m: u32, y: u32, n: u32) -> bool
    requires { 0 < n }
    ensures { result ≡ fresh (numbers x m) y n }
{
    m == 0 || wide(x) + wide(m) <= wide(y) || wide(y) + wide(n) <= wide(x)
}

// Still free, behind a word that may be the length of a run.
fn still(free: bool, class: Class, x: u32, m: u32, y: u32, n: u32) -> bool
    requires { 0 < n }
    ensures { result ≡ pick free (fresh (pick (of_length class) (numbers x m) []) y n) false }
{
    match class {
        Class::Length => free && apart(x, m, y, n),
        _ => free,
    }
}

// None of the n numbers from y on is handed out by their words before the place.
fn free_before(words: &[u32], bytes: &[u8], place: usize, y: u32, n: u32) -> bool
    requires { 0 < n }
    ensures { result ≡ fresh (handed_by (theirs words.now bytes.now) place) y n }
{
    let mut mode = Mode::Event;
    let mut last = 0;
    let mut free = true;
    for i in 0..place {
        let w = their(words, bytes, i);
        free = still(free, mode.class(), last, w, y, n);
        mode = mode.next(w);
        last = w;
    }
    free
}

// The range of all their numbers.
#[derive(Clone, Copy)]
pub struct Range {
    pub low: usize,
    pub high: usize,
}

// Their word y begins a run of n numbers that are no names yet; a run of none has our number f. All numbers so far are in the range.
pub fn begins_run(
    words: &[u32],
    bytes: &[u8],
    place: usize,
    f: u32,
    n: u32,
    y: u32,
    range: Range,
) -> bool
    requires { Ranged range.low range.high (handed_by (theirs words.now bytes.now) place) }
    ensures { result ≡ agrees (handed_by (theirs words.now bytes.now) place) (Slot.runs f n) y }
{
    if n == 0 {
        return y == f;
    }
    let begin = wide(y);
    let end = begin + wide(n);
    if Numbers::ALL < end {
        return false;
    }
    let outside = range.high <= begin || end <= range.low;
    outside || free_before(words, bytes, place, y, n)
}

// Which of the n stored placeholders x is.
fn find(log: &[u32], n: usize, x: u32) -> Option<usize>
    requires { n ≤ 1024 }
    ensures { MatchOption result (n ≡ first (is_placeholder log.now x) n) (λ k. k ≡ first (is_placeholder log.now x) n) }
{
    for k in 0..n {
        if word(log, Triple::WORDS * k + 1) == x {
            return Some(k);
        }
    }
    None
}

// What they call our placeholder x of the step at hand, whose first is `begin`.
fn recent(x: u32, begin: u32, table: &[u32]) -> u32
    ensures { result ≡ get_or table.now (x - begin) 0 }
{
    word(table, wide(x.saturating_sub(begin)))
}

// What they call our placeholder x: of the step at hand by the step's table, and else by the n that are stored.
pub fn name_of(x: u32, begin: u32, table: &[u32], log: &[u32], n: usize, called: &[u32]) -> u32
    requires { n ≤ 1024 }
    ensures { result ≡ name_of x begin table.now log.now n called.now }
{
    if begin <= x {
        recent(x, begin, table)
    } else {
        word(called, find(log, n, x).unwrap_or(n))
    }
}

// A run's numbers, into the step's table.
pub fn fill(table: &mut [u32], at: usize, y: u32, n: u32) -> usize
    requires { y + n ≤ 4294967296 }
    ensures { Wrote (numbers y n) table.old at table.new result }
{
    let mut next = at;
    for j in 0..n {
        next = put(table, next, y + j);
    }
    next
}

// With a run more.
pub fn widened(range: Range, y: u32, n: u32) -> Range
    ensures { Wider range.low range.high y n result.low result.high }
{
    if n == 0 {
        return range;
    }
    let begin = wide(y);
    let end = begin + wide(n);
    Range {
        low: range.low.min(begin),
        high: range.high.max(end),
    }
}

// What they call the placeholders of the triples from the first on to before the last, which a step stored, by the step's table.
pub fn keep_names(
    log: &[u32],
    first: usize,
    last: usize,
    begin: u32,
    table: &[u32],
    called: &mut [u32],
) -> usize
    requires { (first ≤ last) × (last ≤ 1024) }
    ensures { Wrote (recent_names log.now begin table.now first (last - first)) called.old first called.new result }
{
    let mut next = first;
    for k in first..last {
        let x = word(log, Triple::WORDS * k + 1);
        next = put(called, next, recent(x, begin, table));
    }
    next
}
