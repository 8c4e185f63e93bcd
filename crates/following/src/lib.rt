// Another translator's words, compared with ours. Our program is made step by step, in a buffer that has room for any step's words, and read
// as a row of slots; theirs are followed as far as a one-to-one renaming of their placeholders can agree. `follow_words` compares any words
// of ours with theirs from a place on, `follow_steps` all of a party's steps.
#![tactic(auto, using(book::specs::Headed::Laws::headed_rules))]

ghost use Rattle.std.specs.Prelude.{◌≡◌, ◌<◌};
ghost use Rattle.book.specs.Layout.{steps as steps_of};
ghost use Rattle.renaming.specs.Renaming.{stands};
ghost use Rattle.holding.specs.Partners.{Partners};
ghost use Rattle.scanning.specs.Scan.{class_of, slot_of};
ghost use Rattle.naming.specs.Mirror.{theirs, told};
ghost use Rattle.following.specs.Agreeing.{AgreeReady, WordsReady, WordsFollowed};
ghost use Rattle.following.specs.Stepping.{Buffers, StepsReady, Stepped, StepFollowed, StepsFollowed};

use book::{ByRow, Triple, steps};
use holding::start;
use naming::{Numbers, Range, begins_run, fill, keep_names, name_of, size, their, widened};
use scanning::{Class, Mode, run_of};
use walking::{act, is_own};
use words::word;

// Their word y agrees with ours, w, behind which v stands, by the mode of ours. `names` are what they call our placeholders so far: of the
// step at hand by the table, from the step's first, `begin`, on, and of the n that are stored by `called`.
fn agree(
    words: &[u32],
    bytes: &[u8],
    total: usize,
    place: usize,
    mode: Mode,
    w: u32,
    v: u32,
    begin: u32,
    table: &[u32],
    log: &[u32],
    n: usize,
    called: &[u32],
    range: Range,
) -> bool
    requires { AgreeReady (theirs words.now bytes.now) total place mode w begin table.now log.now n called.now range }
    ensures { result ≡ stands (theirs words.now bytes.now) place (told (theirs words.now bytes.now) place mode w) (slot_of (class_of mode) w v) }
{
    if total <= place {
        return false;
    }
    let y = their(words, bytes, place);
    match mode.class() {
        Class::Use => y == name_of(w, begin, table, log, n, called),
        Class::First => begins_run(words, bytes, place, w, v, y, range),
        _ => y == w,
    }
}

// How far their words agree: the place behind them all, and the range of their numbers.
#[derive(Drop)]
pub struct Far {
    pub at: usize,
    pub range: Range,
}

// Their words from the place on, compared with ours, which begin with an event: how far they agree or, where one doesn't, the place of the
// first that doesn't. What they call the placeholders that are handed out goes to the table.
pub fn follow_words(
    ours: &[u32],
    words: &[u32],
    bytes: &[u8],
    place: usize,
    begin: u32,
    table: &mut [u32],
    log: &[u32],
    n: usize,
    called: &[u32],
    range: Range,
) -> Result<Far, usize>
    requires { WordsReady (theirs words.now bytes.now) ours.now place begin table.old log.now n called.now range }
    ensures { WordsFollowed (theirs words.now bytes.now) ours.now place begin table.new log.now n called.now result }
{
    let total = size(words, bytes);
    let mut mode = Mode::Event;
    let mut at = place;
    let mut filled = 0;
    let mut all = range;
    for (k, &w) in ours.iter().enumerate() {
        let v = word(ours, k + 1);
        let agreed = agree(
            words, bytes, total, at, mode, w, v, begin, table, log, n, called, all,
        );
        if !agreed {
            return Err(at);
        }
        let y = their(words, bytes, at);
        let run = run_of(mode, v);
        filled = fill(table, filled, y, run);
        all = widened(all, y, run);
        mode = mode.next(w);
        at += 1;
    }
    Ok(Far { at, range: all })
}

// Behind steps that agree: the place behind their words, the range of their numbers, the next placeholder of ours, and the words of what is
// stored.
#[derive(Drop)]
pub struct Reached {
    pub at: usize,
    pub range: Range,
    pub given: u32,
    pub kept: usize,
}

// A step's events: its words go to a buffer that has room for any step's, and are compared from there, behind those of the steps before.
fn follow_step(
    book: &[u32],
    since: &ByRow,
    partners: &ByRow,
    entries: &mut ByRow,
    party: u32,
    i: u32,
    words: &[u32],
    bytes: &[u8],
    step: &mut [u32],
    table: &mut [u32],
    log: &mut [u32],
    called: &mut [u32],
    reached: Reached,
) -> Result<Reached, usize>
    requires { (i < steps_of book.now) × Partners book.now partners.now × Stepped book.now party i (theirs words.now bytes.now) step.old table.old log.old called.old entries.old reached }
    ensures { StepFollowed book.now party i (theirs words.now bytes.now) step.new table.new log.new called.new entries.new result }
{
    let given = reached.given;
    let kept = reached.kept;
    let acted = act(
        book, since, partners, entries, given, kept, party, i, log, step, 0,
    );
    let stored = kept / Triple::WORDS;
    let far = follow_words(
        &step[..acted.at],
        words,
        bytes,
        reached.at,
        given,
        table,
        log,
        stored,
        called,
        reached.range,
    )?;
    keep_names(
        log,
        stored,
        acted.kept / Triple::WORDS,
        given,
        table,
        called,
    );
    Ok(Reached {
        at: far.at,
        range: far.range,
        given: acted.next,
        kept: acted.kept,
    })
}

// The steps, one after another: what is reached behind them all, or the place of the first word that doesn't agree.
pub fn follow_steps(
    book: &[u32],
    since: &ByRow,
    partners: &ByRow,
    party: u32,
    words: &[u32],
    bytes: &[u8],
    step: &mut [u32],
    table: &mut [u32],
    log: &mut [u32],
    called: &mut [u32],
) -> Result<Reached, usize>
    requires { StepsReady book.now partners.now party × Buffers step.old table.old log.old called.old }
    ensures { StepsFollowed book.now party (theirs words.now bytes.now) log.new called.new result × Buffers step.new table.new log.new called.new }
{
    let n = steps(book);
    let mut entries = start(book, party);
    let mut reached = Reached {
        at: 0,
        range: Range {
            low: Numbers::ALL,
            high: 0,
        },
        given: 0,
        kept: 0,
    };
    for i in 0..n {
        if !is_own(book, party, i) {
            continue;
        }
        reached = follow_step(
            book,
            since,
            partners,
            &mut entries,
            party,
            i,
            words,
            bytes,
            step,
            table,
            log,
            called,
            reached,
        )?;
    }
    Ok(reached)
}
