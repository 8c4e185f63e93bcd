// Derivations of authenticity types on bytes, low byte first: `check` is the verdict on one, and `apart` says whether a process keeps its
// bound names apart, each of the words that the bytes make, in a room that the caller lends; bytes that make no whole words are refused
// before all else.
#![tactic(auto)]

ghost use Rattle.std.specs.Prelude.{◌≡◌, ◌+◌, ◌/◌, ◌≤◌, length};
ghost use Rattle.octets.specs.Octets.{words_in};
ghost use Rattle.checking.specs.Large.{too_large};
ghost use Rattle.examining.specs.Checked.{checked, checked_in, checked_bytes, apart_found, replied, apart_in, apart_bytes};

use apart::keeps_apart;
use book::Refusal;
use checking::{Finding, too_large};
use octets::{is_uneven, load};

// What is read at most.
#[derive(Drop)]
struct Most {}

impl Most {
    // The words of a derivation's lines: their number, and nine for each of 1,024.
    const LINES: usize = 9217;
}

// Refusal 24's count of the words that a derivation's bytes make, or none. It is told by the lines' own words.
fn large(derivation: &[u8]) -> Option<u32>
    ensures { result ≡ too_large (words_in derivation.now) }
{
    let mut words = [0u32; Most::LINES];
    let n = load(derivation, &mut words);
    too_large(&words[..n])
}

// The words of the derivation at the front of the room, those of what is asked behind them, and what is found in them. The rest of the
// room stays.
fn check_in(asked: &[u8], derivation: &[u8], room: &mut [u32]) -> Result<Finding, Refusal>
    requires { length derivation.now / 4 + length asked.now / 4 ≤ length room.old }
    ensures { checked result room.new ≡ checked_in asked.now derivation.now room.old }
{
    let n = load(derivation, room);
    let m = load(asked, &mut room[n..]);
    let end = n + m;
    let words = &room[..];
    checking::check(&words[n..end], &words[..n])
}

// The verdict on a derivation of what is asked, of the bytes of both. Neither has a bound on its words, so that the caller lends room for
// them all.
#[tactic(auto, using(crate::specs::Checked::Laws::outcomes))]
pub fn check(asked: &[u8], derivation: &[u8], room: &mut [u32]) -> Result<Finding, Refusal>
    ensures { checked result room.new ≡ checked_bytes asked.now derivation.now room.old }
{
    if is_uneven(asked) || is_uneven(derivation) {
        return Err(Refusal::Short);
    }
    if let Some(count) = large(derivation) {
        return Err(Refusal::Large(count));
    }
    let needed = derivation.len() / 4 + asked.len() / 4;
    if room.len() < needed {
        return Err(Refusal::Room(needed));
    }
    check_in(asked, derivation, room)
}

// Whether what is asked keeps its bound names apart, by the words that its bytes make, at the front of the room.
fn apart_in(asked: &[u8], room: &mut [u32]) -> bool
    requires { length asked.now / 4 ≤ length room.old }
    ensures { apart_found result room.new ≡ apart_in asked.now room.old }
{
    let n = load(asked, room);
    let words = &room[..];
    keeps_apart(&words[..n])
}

// The same for any bytes, and any room.
#[tactic(auto, using(crate::specs::Checked::Laws::outcomes))]
pub fn apart(asked: &[u8], room: &mut [u32]) -> Result<bool, Refusal>
    ensures { replied result room.new ≡ apart_bytes asked.now room.old }
{
    if is_uneven(asked) {
        return Err(Refusal::Short);
    }
    let needed = asked.len() / 4;
    if room.len() < needed {
        return Err(Refusal::Room(needed));
    }
    Ok(apart_in(asked, room))
}
