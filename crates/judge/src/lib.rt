// The judge of another translator's listing of one party. `judge` answers, for any words, any number and any words of a listing, the book's
// refusal, refusal 22, or the verdict: ours up to a one-to-one renaming of its placeholders, or the smallest word at which no renaming can
// agree. `judge_listing` is the same of a listing that is words and, behind them, the words that bytes make, either of which may be none: so
// words and bytes are judged by one function, and neither is copied.
#![tactic(auto, using(book::specs::Headed::Laws::headed_rules))]

ghost use Rattle.std.specs.Prelude.{◌≡◌};
ghost use Rattle.translation.specs.Outcome.{Plays};
ghost use Rattle.renaming.specs.Verdict.{verdict_says, judged};
ghost use Rattle.naming.specs.Mirror.{theirs};
ghost use Rattle.following.specs.Stepping.{Buffers, StepsReady};
ghost use Rattle.judge.specs.Program.{ProgramFollowed};

use book::{ByRow, Code, Refusal, Triple, parties};
use following::{Far, follow_steps, follow_words};
use naming::size;
use renaming::Verdict;
use translator::survey;
use words::{narrow, put_all, put_each};

// What is kept at most: the words of a step's events, and the placeholders that a step hands out.
#[derive(Drop)]
struct Most {}

impl Most {
    const STEP: usize = 16388;

    const PLACEHOLDERS: usize = 8192;
}

// A party's program: its steps and, behind them, END, whose words go to the step's buffer.
fn follow_program(
    book: &[u32],
    since: &ByRow,
    partners: &ByRow,
    party: u32,
    words: &[u32],
    bytes: &[u8],
    step: &mut [u32],
    table: &mut [u32],
    log: &mut [u32],
    called: &mut [u32],
) -> Result<Far, usize>
    requires { StepsReady book.now partners.now party × Buffers step.old table.old log.old called.old }
    ensures { ProgramFollowed book.now party (theirs words.now bytes.now) result }
{
    let reached = follow_steps(
        book, since, partners, party, words, bytes, step, table, log, called,
    )?;
    let n = reached.kept / Triple::WORDS;
    let triples = put_each(step, 0, [Code::END, narrow(n)]);
    let end = put_all(step, triples, &log[..reached.kept]);
    follow_words(
        &step[..end],
        words,
        bytes,
        reached.at,
        reached.given,
        table,
        log,
        n,
        called,
        reached.range,
    )
}

// The verdict on a party of an accepted book.
fn judge_program(
    book: &[u32],
    since: &ByRow,
    partners: &ByRow,
    party: u32,
    words: &[u32],
    bytes: &[u8],
) -> Verdict
    requires { Plays book.now × StepsReady book.now partners.now party }
    ensures { verdict_says (Ok result) ≡ judged book.now party (theirs words.now bytes.now) }
{
    let mut step = [0u32; Most::STEP];
    let mut table = [0u32; Most::PLACEHOLDERS];
    let mut log = [0u32; Triple::ALL];
    let mut called = [0u32; 1024];
    let followed = follow_program(
        book,
        since,
        partners,
        party,
        words,
        bytes,
        &mut step,
        &mut table,
        &mut log,
        &mut called,
    );
    match followed {
        Ok(far) => {
            let at = far.at;
            if at != size(words, bytes) {
                return Verdict::Differs(at);
            }
            Verdict::Same
        }
        Err(at) => Verdict::Differs(at),
    }
}

// The verdict on any words and, behind them, the words that any bytes make.
pub fn judge_listing(
    book: &[u32],
    party: u32,
    words: &[u32],
    bytes: &[u8],
) -> Result<Verdict, Refusal>
    ensures { verdict_says result ≡ judged book.now party (theirs words.now bytes.now) }
{
    let all = survey(book);
    all.reading?;
    if parties(book) <= party {
        return Err(Refusal::Nobody(party));
    }
    Ok(judge_program(book, &all.since, &all.partners, party, words, bytes))
}

// The verdict on any words.
pub fn judge(book: &[u32], party: u32, listing: &[u32]) -> Result<Verdict, Refusal>
    ensures { verdict_says result ≡ judged book.now party listing.now }
{
    judge_listing(book, party, listing, &[])
}
