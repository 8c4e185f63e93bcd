// The check of a derivation of authenticity types: `too_large` is refusal 24's count, and `check` the verdict, each line by its rule from
// earlier lines, and whether the last one gives what is asked.
#![tactic(auto)]

ghost use Rattle.std.specs.Prelude.{◌≡◌, true, ◌^◌, ◌+◌, ◌<◌};
ghost use Rattle.std.proofs.Math.Option.{some};
ghost use Rattle.typing.specs.Derivation.{line_word, given, passes, asked as asked_for, agree, verdict};
ghost use Rattle.choosing.specs.Named.{number_of, kind_says, kind_found, Names};
ghost use Rattle.choosing.specs.Kinds.{kind_at};
ghost use Rattle.checking.specs.Large.{too_large};
ghost use Rattle.checking.specs.Lines.{line_of, fits_at, fits_all, first_failing, Passed};
ghost use Rattle.checking.specs.Finding.{finding_says};

use alike::same_environment;
use book::Refusal;
use choosing::{Kind, Rule, UnknownRule};
use parts::same_process;
use ruling::Line;
use spans::{environment_end, process_end};
use words::{wide, word};

// The most lines, and the most effects that a line states.
#[derive(Drop)]
struct Most {}

impl Most {
    const LINES: u32 = 1024;

    const EFFECTS: u32 = 64;
}

// What is found: the asked process has the empty effect; the smallest line that is no instance of its rule; or all lines are, and the last
// gives something else than is asked.
#[derive(Drop)]
pub enum Finding {
    Safe,
    Bad(usize),
    Another,
}

// Line i's word k.
#[tactic(auto, unfolding(typing::specs::Derivation::line_word))]
fn line_word(w: &[u32], i: usize, k: usize) -> u32
    requires { (i < 2 ^ 32) × (k < 9) }
    ensures { result ≡ line_word w.now i k }
{
    word(w, 1 + 9 * i + k)
}

// The same as a place, or a count.
fn line_place(w: &[u32], i: usize, k: usize) -> usize
    requires { (i < 2 ^ 32) × (k < 9) }
    ensures { (result ≡ line_word w.now i k) × (result < 2 ^ 32) }
{
    wide(line_word(w, i, k))
}

// Refusal 24's count: the number of lines where it is too large, else the number of effects of the smallest line that has too many; none
// where none is too large.
pub fn too_large(w: &[u32]) -> Option<u32>
    ensures { result ≡ too_large w.now }
{
    let lines = word(w, 0);
    if Most::LINES < lines {
        return Some(lines);
    }
    for i in 0..wide(lines) {
        let effects = line_word(w, i, 8);
        if Most::EFFECTS < effects {
            return Some(effects);
        }
    }
    None
}

// Line i's rule.
fn rule_at(w: &[u32], i: usize) -> Result<Rule, UnknownRule>
    requires { i < 2 ^ 32 }
    ensures { Names (line_word w.now i 0) result }
{
    Rule::try_from(line_word(w, i, 0))
}

// The kind of what line i's rule concludes, where it names one.
fn concluded(w: &[u32], i: usize) -> Option<Kind>
    requires { i < 2 ^ 32 }
    ensures { kind_found result ≡ kind_at (line_word w.now i 0) 0 }
{
    match rule_at(w, i) {
        Ok(rule) => Some(rule.conclusion()),
        Err(_) => None,
    }
}

// The places that line i names, and how many effects.
#[tactic(auto, unfolding(typing::specs::Derivation::effect_count, crate::specs::Lines::line_of))]
fn line_at(w: &[u32], i: usize) -> Line
    requires { i < 2 ^ 32 }
    ensures { result ≡ line_of w.now i }
{
    Line {
        e: line_place(w, i, 4),
        s: line_place(w, i, 5),
        t: line_place(w, i, 6),
        f: line_place(w, i, 7),
        k: line_place(w, i, 8),
    }
}

// Line i names as its premise p an earlier line, whose rule concludes what is of this kind.
fn fits(w: &[u32], i: usize, p: usize, kind: Kind) -> bool
    requires { (i < 2 ^ 32) × (p < 9) }
    ensures { result ≡ fits_at w.now i p (kind_says kind) }
{
    let j = line_place(w, i, p);
    j < i && concluded(w, j) == Some(kind)
}

// All premises of a rule fit at line i.
fn all_fit(w: &[u32], i: usize, rule: Rule) -> bool
    requires { i < 2 ^ 32 }
    ensures { result ≡ fits_all w.now i (number_of rule) }
{
    for (p, kind) in rule.premises().iter().enumerate() {
        if !fits(w, i, p + 1, *kind) {
            return false;
        }
    }
    true
}

// Line i passes, where those before it do.
fn line_passes(w: &[u32], i: usize) -> bool
    requires { (i < 2 ^ 32) × Passed w.now i }
    ensures { result ≡ passes w.now i }
{
    let Ok(rule) = rule_at(w, i) else {
        return false;
    };
    let own = line_at(w, i);
    if !rule.conclusion().is_there(w, own) || !all_fit(w, i, rule) {
        return false;
    }
    let j = line_at(w, line_place(w, i, 1));
    let k = line_at(w, line_place(w, i, 2));
    let l = line_at(w, line_place(w, i, 3));
    rule.follows(w, own, j, k, l)
}

// The smallest of n lines that does not pass.
#[tactic(auto, using(crate::specs::Finding::Laws::passing))]
fn first_bad(w: &[u32], n: usize) -> Option<usize>
    requires { n < 2 ^ 32 }
    ensures { result ≡ first_failing w.now n }
{
    for i in 0..n {
        if !line_passes(w, i) {
            return Some(i);
        }
    }
    None
}

// Line i, which passes, gives what is asked: an environment and behind it, to the end, a process, with the empty effect.
fn gives(asked: &[u32], w: &[u32], i: usize) -> bool
    requires { (i < 2 ^ 32) × (passes w.now i ≡ true) }
    ensures { result ≡ agree (given w.now i) (asked_for asked.now) }
{
    let Some(p) = environment_end(asked, 0) else {
        return false;
    };
    let Some(end) = process_end(asked, p) else {
        return false;
    };
    if end != asked.len() || concluded(w, i) != Some(Kind::Process) {
        return false;
    }
    let l = line_at(w, i);
    if l.k != 0 {
        return false;
    }
    let e = environment_end(w, l.e).unwrap();
    let f = process_end(w, l.s).unwrap();
    same_environment(w, l.e, e, asked, 0, p) && same_process(w, l.s, f, asked, p, end)
}

// The verdict on a derivation of what is asked.
#[tactic(auto, using(crate::specs::Finding::Laws::verdicts))]
pub fn check(asked: &[u32], derivation: &[u32]) -> Result<Finding, Refusal>
    ensures { finding_says result ≡ some (verdict asked.now derivation.now) }
{
    if let Some(count) = too_large(derivation) {
        return Err(Refusal::Large(count));
    }
    let n = wide(word(derivation, 0));
    if let Some(bad) = first_bad(derivation, n) {
        return Ok(Finding::Bad(bad));
    }
    if n == 0 {
        return Ok(Finding::Another);
    }
    if gives(asked, derivation, n - 1) {
        return Ok(Finding::Safe);
    }
    Ok(Finding::Another)
}
