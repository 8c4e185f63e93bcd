// Whether a type is another one with a name bound, or with a term put for its own variable.
#![tactic(auto)]

ghost use Rattle.std.specs.Prelude.{◌≡◌, ◌+◌, ◌≤◌, ◌<◌, length, drop, get_or};
ghost use Rattle.std.proofs.Math.Option.{some};
ghost use Rattle.typing.specs.Term.{same_term, same_effect, change_term, change_effect, term_words};
ghost use Rattle.typing.specs.Bag.{bag, count};
ghost use Rattle.typing.specs.Types.{same_effects, same_type, change_type};
ghost use Rattle.typing.specs.Reading.{term, effects, type_at};
ghost use Rattle.spans.specs.Behind.{At, rest_of, term_turn};
ghost use Rattle.alike.specs.Same.Each.{EffectAt};
ghost use Rattle.alike.specs.Same.{term_in, effect_in, effects_in, type_in, test};
ghost use Rattle.changed.specs.Put.{Stood, There, change_by, leaf_term, step_words, changed_effects};

use alike::{count_effect, count_where, every_effect, same_type_where};
use spans::{term_own, term_parts};

// What happens to names and variables: the name x is bound, or the term from a place to its end is put for the own variable.
#[derive(Clone, Copy)]
pub enum By {
    Bind(u32),
    Put(usize, usize),
}

// The place behind the words that stand at i; none where they don't.
fn words_end(w: &[u32], i: usize, words: &[u32]) -> Option<usize>
    requires { i ≤ length w.now }
    ensures { Stood w.now i words.now result }
{
    if w[i..].starts_with(words) {
        Some(i + words.len())
    } else {
        None
    }
}

// The place behind what the name or the variable at j becomes, at i; none where that does not stand there.
fn leaf_end(w: &[u32], i: usize, j: usize, by: By) -> Option<usize>
    requires { (i ≤ length w.now) × (j + 1 < length w.now) × There w.now by }
    ensures { Stood w.now i (term_words (change_term (change_by w.now by) (leaf_term (get_or w.now j 0) (get_or w.now (j + 1) 0)))) result }
{
    let n = w[j + 1];
    match by {
        By::Bind(x) => match (w[j], n == x) {
            (1, true) => words_end(w, i, &[4, 0]),
            (1, false) => words_end(w, i, &[1, n]),
            _ => words_end(w, i, &[4, n.checked_add(1)?]),
        },
        By::Put(m, end) => match (w[j], n) {
            (1, _) => words_end(w, i, &[1, n]),
            (_, 0) => words_end(w, i, &w[m..end]),
            _ => words_end(w, i, &[4, n - 1]),
        },
    }
}

// The place behind what the word at j becomes, with its number if it has one, at i; none where that does not stand there.
fn step_end(w: &[u32], i: usize, j: usize, by: By) -> Option<usize>
    requires { (i ≤ length w.now) × (j < length w.now) × (term_turn (get_or w.now j 0) ≡ 1 → j + 1 < length w.now) × (0 < term_turn (get_or w.now j 0)) × There w.now by }
    ensures { Stood w.now i (step_words (change_by w.now by) (get_or w.now j 0) (get_or w.now (j + 1) 0)) result }
{
    if term_parts(w[j]) == 2 {
        words_end(w, i, &[w[j]])
    } else {
        leaf_end(w, i, j, by)
    }
}

// The term from a to e is the one from b to f, changed. `due` terms of that are still to come.
fn same_changed_term(w: &[u32], a: usize, e: usize, b: usize, f: usize, by: By) -> bool
    requires { At w.now a (rest_of (term (drop a w.now))) e × At w.now b (rest_of (term (drop b w.now))) f × There w.now by }
    ensures { result ≡ test (same_term (term_in w.now a) (change_term (change_by w.now by) (term_in w.now b))) }
{
    let mut i = a;
    let mut j = b;
    let mut due = 1;
    while 0 < due {
        let Some(next) = step_end(w, i, j, by) else {
            return false;
        };
        due = due + term_parts(w[j]) - 1;
        i = next;
        j = term_own(w, j).unwrap();
    }
    true
}

// The effect from i to e is the one from j to f, changed.
fn is_changed(w: &[u32], i: usize, e: usize, j: usize, f: usize, by: By) -> bool
    requires { EffectAt w.now i e × EffectAt w.now j f × There w.now by }
    ensures { result ≡ test (same_effect (change_effect (change_by w.now by) (effect_in w.now j)) (effect_in w.now i)) }
{
    w[i] == w[j] && same_changed_term(w, i + 1, e, j + 1, f, by)
}

// How often the effect from b to f stands among the k effects from a to end, changed.
fn count_changed(w: &[u32], a: usize, k: usize, end: usize, b: usize, f: usize, by: By) -> usize
    requires { (rest_of (effects k (drop a w.now)) ≡ some (drop end w.now)) × EffectAt w.now b f × There w.now by }
    ensures { result ≡ count (effect_in w.now b) (changed_effects (change_by w.now by) (effects_in w.now a k)) }
{
    count_where(w, a, k, end, |i, e| is_changed(w, b, f, i, e, by))
}

// The k effects from a to end are, as a multiset, the m effects from b to last, changed.
fn same_changed_bag(
    w: &[u32],
    a: usize,
    k: usize,
    end: usize,
    b: usize,
    m: usize,
    last: usize,
    by: By,
) -> bool
    requires { (rest_of (effects k (drop a w.now)) ≡ some (drop end w.now)) × (rest_of (effects m (drop b w.now)) ≡ some (drop last w.now)) × There w.now by }
    ensures { result ≡ test (same_effects (bag (effects_in w.now a k)) (bag (changed_effects (change_by w.now by) (effects_in w.now b m)))) }
{
    k == m
        && every_effect(w, a, k, end, |i, e| {
            count_effect(w, a, k, end, w, i, e) == count_changed(w, b, m, last, i, e, by)
        })
}

// The type from a to e is the one from b to f, changed.
pub fn same_changed(w: &[u32], a: usize, e: usize, b: usize, f: usize, by: By) -> bool
    requires { At w.now a (rest_of (type_at (drop a w.now))) e × At w.now b (rest_of (type_at (drop b w.now))) f × There w.now by }
    ensures { result ≡ test (same_type (type_in w.now a) (change_type (change_by w.now by) (type_in w.now b))) }
{
    same_type_where(w, a, e, w, b, f, |a, k, end, b, m, last| {
        same_changed_bag(w, a, k, end, b, m, last, by)
    })
}
