// An answer in one number, for callers in another language: the answer's number in 8 bits, its first value in 32, its second in 24. `pack`
// is of a translation, a rehearsal or a summary, `pack_reply` of a question or of bound names, `pack_verdict` of a listing that was judged
// and `pack_checked` of a derivation. Where a value may not fit 32 bits, the largest number that they hold is told.
#![tactic(auto)]

ghost use Rattle.std.specs.Prelude.{◌≡◌, Ok};
ghost use Rattle.book.specs.Said.{told_says};
ghost use Rattle.translation.specs.Outcome.{answer_says};
ghost use Rattle.renaming.specs.Verdict.{verdict_says};
ghost use Rattle.summary.specs.Reply.{reply_says};
ghost use Rattle.examining.specs.Checked.{found_says, checked_says};
ghost use Rattle.packing.specs.Packed.{pack as pack_of, capped as capped_of, Small, Packs};

use book::{Refusal, Told, told_of};
use checking::Finding;
use renaming::Verdict;
use translation::Answer;

// What is told at most.
#[derive(Drop)]
struct Most {}

impl Most {
    // The largest number that 32 bits hold.
    const VALUE: u64 = 4294967295;
}

// An answer's number and values in one number.
fn pack_told(told: Told) -> u64
    requires { Packs (told_says told) }
    ensures { result ≡ pack_of (told_says told) }
{
    match told {
        Told::One(number, first) => number + 256 * first,
        Told::Two(number, first, second) => number + 256 * first + 1099511627776 * second,
    }
}

pub fn pack(answer: Answer) -> u64
    requires { Small (answer_says answer) }
    ensures { result ≡ pack_of (answer_says answer) }
{
    match answer {
        Ok(n) => pack_told(Told::One(0, n as u64)),
        Err(refusal) => pack_told(told_of(refusal)),
    }
}

// What is told, where no value is larger than 32 bits hold.
fn capped(told: Told) -> Told
    ensures { told_says result ≡ capped_of (told_says told) }
{
    match told {
        Told::One(number, first) => Told::One(number, Most::VALUE.min(first)),
        Told::Two(number, first, second) => {
            Told::Two(number, Most::VALUE.min(first), Most::VALUE.min(second))
        }
    }
}

// The number and the value of a reply.
fn told_reply(yes: bool) -> Told
    ensures { told_says result ≡ reply_says (Ok yes) }
{
    if yes {
        return Told::One(0, 1);
    }
    Told::One(0, 0)
}

// A reply in one number.
pub fn pack_reply(reply: Result<bool, Refusal>) -> u64
    requires { Small (capped_of (reply_says reply)) }
    ensures { result ≡ pack_of (capped_of (reply_says reply)) }
{
    match reply {
        Ok(yes) => pack_told(capped(told_reply(yes))),
        Err(refusal) => pack_told(capped(told_of(refusal))),
    }
}

// The number and the values of a verdict.
fn told_verdict(verdict: Verdict) -> Told
    ensures { told_says result ≡ verdict_says (Ok verdict) }
{
    match verdict {
        Verdict::Same => Told::One(0, 1),
        Verdict::Differs(place) => Told::Two(0, 0, place as u64),
    }
}

// A verdict in one number.
pub fn pack_verdict(verdict: Result<Verdict, Refusal>) -> u64
    requires { Packs (verdict_says verdict) }
    ensures { result ≡ pack_of (verdict_says verdict) }
{
    match verdict {
        Ok(verdict) => pack_told(told_verdict(verdict)),
        Err(refusal) => pack_told(told_of(refusal)),
    }
}

// The number and the values of what is found.
fn told_finding(finding: Finding) -> Told
    ensures { told_says result ≡ found_says finding }
{
    match finding {
        Finding::Safe => Told::One(0, 1),
        Finding::Bad(line) => Told::Two(0, 0, line as u64),
        Finding::Another => Told::One(0, 2),
    }
}

// The number and the values of what is said of a derivation.
fn told_checked(checked: Result<Finding, Refusal>) -> Told
    ensures { told_says result ≡ checked_says checked }
{
    match checked {
        Ok(finding) => told_finding(finding),
        Err(why) => told_of(why),
    }
}

// What is said of a derivation, in one number.
pub fn pack_checked(checked: Result<Finding, Refusal>) -> u64
    requires { Packs (capped_of (checked_says checked)) }
    ensures { result ≡ pack_of (capped_of (checked_says checked)) }
{
    pack_told(capped(told_checked(checked)))
}
