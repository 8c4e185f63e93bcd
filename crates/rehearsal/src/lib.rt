// The programs of a book played under a schedule. `rehearse` answers, for any words, any schedule and any lent words, the first
// refusal of 1 to 12 that applies, or leaves the events done by each party of the plain machine; no other lent word changes.
#![tactic(auto, using(book::specs::Headed::Laws::headed_rules))]

ghost use Rattle.std.specs.Prelude.{◌≡◌, [], ◌<◌, leb, length, position};
ghost use Rattle.words.specs.Run.{All};
ghost use Rattle.words.specs.Overlay.{Wrote};
ghost use Rattle.book.specs.Layout.{parties as parties_of, steps as steps_of};
ghost use Rattle.book.specs.Valid.{Valid};
ghost use Rattle.translation.specs.Outcome.{came, Plays};
ghost use Rattle.walking.specs.Placed.{Placed};
ghost use Rattle.playing.specs.Rehearsal.{events_done, rehearsal};
ghost use Rattle.playing.specs.Counting.{waits_for, waits as waits_at, ticked, ticked_all};
ghost use Rattle.rehearsal.specs.Kept.{places, counts};

use book::{Limit, Refusal, parties, step_receiver, step_sender, steps};
use translation::Answer;
use translator::survey;
use words::{narrow, put_all, wide};

// The first move that names no party.
fn first_bad(schedule: &[u32], q: u32) -> Option<usize>
    ensures { result ≡ position (λ m. leb q m) schedule.now }
{
    schedule.iter().position(|m| q <= *m)
}

// The party waits for the step: its next event is the RECEIVE, and the SEND is not done yet.
fn waits_for(
    book: &[u32],
    sends: &[u32; 64],
    receives: &[u32; 64],
    done: &[u32; 16],
    party: u32,
    step: u32,
) -> bool
    requires { Valid book.now × (party < parties_of book.now) × (step < steps_of book.now) }
    ensures { result ≡ waits_for book.now (places sends.now receives.now []) (counts done.now) party step }
{
    step_receiver(book, step) == party
        && receives[wide(step)] == done[wide(party)]
        && done[wide(step_sender(book, step))] <= sends[wide(step)]
}

// The party waits for some step.
fn waits(
    book: &[u32],
    sends: &[u32; 64],
    receives: &[u32; 64],
    done: &[u32; 16],
    party: u32,
) -> bool
    requires { Valid book.now × (party < parties_of book.now) }
    ensures { result ≡ waits_at book.now (places sends.now receives.now []) (counts done.now) party }
{
    for step in 0..steps(book) {
        if waits_for(book, sends, receives, done, party, step) {
            return true;
        }
    }
    false
}

// A party moves: it does its next event, or nothing if it is at END or waits.
fn tick(
    book: &[u32],
    sends: &[u32; 64],
    receives: &[u32; 64],
    ends: &[u32; 16],
    done: &mut [u32; 16],
    party: u32,
)
    requires { Valid book.now × (party < parties_of book.now) × (length done.old ≡ 16) }
    ensures { (counts done.new ≡ ticked book.now (places sends.now receives.now ends.now) party (counts done.old)) × (length done.new ≡ 16) }
{
    let at = done[wide(party)];
    let end = ends[wide(party)];
    if at < end && !waits(book, sends, receives, done, party) {
        done[wide(party)] = at + 1;
    }
}

// The parties of the schedule move one after another.
fn play(
    book: &[u32],
    sends: &[u32; 64],
    receives: &[u32; 64],
    ends: &[u32; 16],
    schedule: &[u32],
    done: &mut [u32; 16],
)
    requires { Valid book.now × All (λ q. q < parties_of book.now) schedule.now × (length done.old ≡ 16) }
    ensures { counts done.new ≡ ticked_all book.now (places sends.now receives.now ends.now) schedule.now (counts done.old) }
{
    for &party in schedule {
        tick(book, sends, receives, ends, done, party);
    }
}

// The events done by each party under a schedule whose moves all name parties, by the places of the events.
fn perform(
    book: &[u32],
    sends: &[u32; 64],
    receives: &[u32; 64],
    ends: &[u32; 16],
    schedule: &[u32],
    out: &mut [u32],
) -> usize
    requires { Plays book.now × Placed book.now sends.now receives.now ends.now × All (λ q. q < parties_of book.now) schedule.now }
    ensures { Wrote (events_done book.now schedule.now) out.old 0 out.new result }
{
    let mut done = [0u32; 16];
    play(book, sends, receives, ends, schedule, &mut done);
    let n = wide(parties(book));
    put_all(out, 0, &done[..n])
}

// Refusals 11 and 12 of an accepted book, or the output.
fn rehearse_accepted(
    book: &[u32],
    sends: &[u32; 64],
    receives: &[u32; 64],
    ends: &[u32; 16],
    schedule: &[u32],
    out: &mut [u32],
) -> Answer
    requires { Plays book.now × Placed book.now sends.now receives.now ends.now }
    ensures { came result out.new ≡ rehearsal book.now schedule.now out.old }
{
    let moves = schedule.len();
    if Limit::MOVES < moves {
        return Err(Refusal::Move(narrow(Limit::MOVES)));
    }
    let q = parties(book);
    if let Some(bad) = first_bad(schedule, q) {
        return Err(Refusal::Move(narrow(bad)));
    }
    let n = wide(q);
    if out.len() < n {
        return Err(Refusal::Room(n));
    }
    Ok(perform(book, sends, receives, ends, schedule, out))
}

// The events done by each party of any words under any schedule, or the first refusal that applies.
pub fn rehearse(book: &[u32], schedule: &[u32], out: &mut [u32]) -> Answer
    ensures { came result out.new ≡ rehearsal book.now schedule.now out.old }
{
    let all = survey(book);
    all.reading?;
    rehearse_accepted(book, &all.sends, &all.receives, &all.ends, schedule, out)
}
