// Whether a multiset of effects is what is left of another when some are taken away, with others added: by counting.
#![tactic(auto)]

ghost use Rattle.std.specs.Prelude.{◌≡◌, ◌+◌, ◌≤◌, ◌<◌, length, drop};
ghost use Rattle.std.specs.List.{list_all};
ghost use Rattle.std.proofs.Math.Option.{some};
ghost use Rattle.typing.specs.Term.{same_effect};
ghost use Rattle.typing.specs.Bag.{bag, plus, minus, count};
ghost use Rattle.typing.specs.Types.{same_effects};
ghost use Rattle.typing.specs.Reading.{term, effects};
ghost use Rattle.spans.specs.Behind.{At, rest_of};
ghost use Rattle.alike.specs.Same.Each.{EffectAt};
ghost use Rattle.alike.specs.Same.{term_in, effect_in, test};
ghost use Rattle.balance.specs.Sum.{effect_by, list_of, There, level_at};

use alike::{count_where, every_effect, same_few};

// Effects in the words: one, by its word and its term's place and end; or several, by their place, their number and their end.
// Kept: an effect's kind is its word, 1 or 2, as callers read it and as it is compared with those in the words.
#[derive(Clone, Copy)]
pub enum Effects {
    One(u32, usize, usize),
    Many(usize, usize, usize),
}

// The effect with the word d and the term from a to e is the one with the word c and the term from b to f.
fn is_effect(w: &[u32], d: u32, a: usize, e: usize, c: u32, b: usize, f: usize) -> bool
    requires { (0 < d) × (d ≤ 2) × At w.now a (rest_of (term (drop a w.now))) e × (0 < c) × (c ≤ 2) × At w.now b (rest_of (term (drop b w.now))) f }
    ensures { result ≡ test (same_effect (effect_by d (term_in w.now a)) (effect_by c (term_in w.now b))) }
{
    d == c && same_few(&w[a..e], &w[b..f])
}

// How often the effect with the word c and the term from b to f stands among those of a list.
fn count_in(w: &[u32], s: Effects, c: u32, b: usize, f: usize) -> usize
    requires { There w.now s × (0 < c) × (c ≤ 2) × At w.now b (rest_of (term (drop b w.now))) f }
    ensures { (result ≡ count (effect_by c (term_in w.now b)) (list_of w.now s)) × (result ≤ length w.now) }
{
    match s {
        Effects::One(d, a, e) => usize::from(is_effect(w, d, a, e, c, b, f)),
        Effects::Many(a, k, end) => {
            count_where(w, a, k, end, |i, e| is_effect(w, w[i], i + 1, e, c, b, f))
        }
    }
}

// That effect stands in r as often as in a, less as often as in b, and as in d.
#[tactic(auto, unfolding(crate::specs::Sum::level_at))]
fn level(
    w: &[u32],
    r: Effects,
    a: Effects,
    b: Effects,
    d: Effects,
    c: u32,
    t: usize,
    f: usize,
) -> bool
    requires { There w.now r × There w.now a × There w.now b × There w.now d × (0 < c) × (c ≤ 2) × At w.now t (rest_of (term (drop t w.now))) f }
    ensures { result ≡ level_at w.now r a b d (effect_by c (term_in w.now t)) }
{
    let have = count_in(w, r, c, t, f);
    let from = count_in(w, a, c, t, f);
    let less = count_in(w, b, c, t, f);
    let more = count_in(w, d, c, t, f);
    let rest = from.saturating_sub(less);
    have == rest + more
}

// The effect from i to e does.
fn level_from(w: &[u32], r: Effects, a: Effects, b: Effects, d: Effects, i: usize, e: usize) -> bool
    requires { There w.now r × There w.now a × There w.now b × There w.now d × EffectAt w.now i e }
    ensures { result ≡ level_at w.now r a b d (effect_in w.now i) }
{
    level(w, r, a, b, d, w[i], i + 1, e)
}

// Every effect of a list does.
fn level_all(w: &[u32], r: Effects, a: Effects, b: Effects, d: Effects, s: Effects) -> bool
    requires { There w.now r × There w.now a × There w.now b × There w.now d × There w.now s }
    ensures { result ≡ list_all (level_at w.now r a b d) (list_of w.now s) }
{
    match s {
        Effects::One(c, t, f) => level(w, r, a, b, d, c, t, f),
        Effects::Many(p, k, end) => {
            every_effect(w, p, k, end, |i, e| level_from(w, r, a, b, d, i, e))
        }
    }
}

// The multiset r is a, with b taken away and then d added.
pub fn balanced(w: &[u32], r: Effects, a: Effects, b: Effects, d: Effects) -> bool
    requires { There w.now r × There w.now a × There w.now b × There w.now d }
    ensures { result ≡ test (same_effects (bag (list_of w.now r)) (plus (bag (list_of w.now d)) (minus (bag (list_of w.now a)) (bag (list_of w.now b))))) }
{
    level_all(w, r, a, b, d, r) && level_all(w, r, a, b, d, a) && level_all(w, r, a, b, d, d)
}
