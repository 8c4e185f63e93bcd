// Whether two things that words spell are the same: terms and effects by their words, effects as multisets by counting, types and
// environments up to the order of effects; and the names of terms and effects, and the entries of environments. `count_where` and
// `every_effect` ask a test of each of several effects, `some_leaf` of each leaf of a term, and `same_type_where` of the effects of two
// nonces.
#![tactic(auto)]

ghost use Rattle.std.specs.Prelude.{◌≡◌, ℕ, Bool, List, ◌+◌, ◌≤◌, ◌<◌, length, drop, get_or, eqb};
ghost use Rattle.std.specs.Cmp.Lexicographic.{pointwise};
ghost use Rattle.std.proofs.Math.Option.{some};
ghost use Rattle.words.specs.Run.{run, same_words};
ghost use Rattle.std.specs.List.{list_all, count_by};
ghost use Rattle.typing.specs.Term.{Effect, same_term, closed, occurs, mentions};
ghost use Rattle.typing.specs.Bag.{bag, count};
ghost use Rattle.typing.specs.Types.{Ty, same_type, same_effects, same_environment, same_entry, ◌⦂◌};
ghost use Rattle.typing.specs.Check.{stands};
ghost use Rattle.typing.specs.Reading.{term, effect_of, effects, type_at, environment_at};
ghost use Rattle.spans.specs.Behind.{At, rest_of, type_own};
ghost use Rattle.alike.specs.Same.Types.{Makes};
ghost use Rattle.alike.specs.Same.Each.{AskedOfEach, Tells};
ghost use Rattle.alike.specs.Same.{term_in, effect_in, effects_in, type_in, environment_in, test, own_effects, any_leaf, TellsLeaf};

use spans::{term_end, type_end, type_own, type_parts};
use words::wide;

// The n words from a on and those from b on are the same.
pub fn same_run(u: &[u32], a: usize, v: &[u32], b: usize, n: usize) -> bool
    requires { (a + n ≤ length u.now) × (b + n ≤ length v.now) }
    ensures { result ≡ same_words (run u.now a n) (run v.now b n) }
{
    u[a..a + n] == v[b..b + n]
}

// A few words are the same. One by one: `==` of slices makes a call for each pair of them, which takes longer than two or three words do.
pub fn same_few(x: &[u32], y: &[u32]) -> bool
    ensures { result ≡ pointwise eqb x.now y.now }
{
    x.iter().eq(y)
}

// The terms from a to e and from b to f are the same.
pub fn same_term(u: &[u32], a: usize, e: usize, v: &[u32], b: usize, f: usize) -> bool
    requires { At u.now a (rest_of (term (drop a u.now))) e × At v.now b (rest_of (term (drop b v.now))) f }
    ensures { result ≡ test (same_term (term_in u.now a) (term_in v.now b)) }
{
    u[a..e] == v[b..f]
}

// How often the effect from b to f stands among the k effects from a to end.
pub fn count_effect(
    u: &[u32],
    a: usize,
    k: usize,
    end: usize,
    v: &[u32],
    b: usize,
    f: usize,
) -> usize
    requires { (rest_of (effects k (drop a u.now)) ≡ some (drop end u.now)) × At v.now b (rest_of (effect_of (drop b v.now))) f }
    ensures { result ≡ count (effect_in v.now b) (effects_in u.now a k) }
{
    count_where(u, a, k, end, |i, e| same_few(&u[i..e], &v[b..f]))
}

// The k effects from a to end and the l effects from b to last are one multiset.
pub fn same_bag(
    u: &[u32],
    a: usize,
    k: usize,
    end: usize,
    v: &[u32],
    b: usize,
    l: usize,
    last: usize,
) -> bool
    requires { (rest_of (effects k (drop a u.now)) ≡ some (drop end u.now)) × (rest_of (effects l (drop b v.now)) ≡ some (drop last v.now)) }
    ensures { result ≡ test (same_effects (bag (effects_in u.now a k)) (bag (effects_in v.now b l))) }
{
    k == l
        && every_effect(v, b, l, last, |i, e| {
            let first = count_effect(u, a, k, end, v, i, e);
            let second = count_effect(v, b, l, last, v, i, e);
            first == second
        })
}

// The type from a to e is what a change makes of the type from b to f, where a test says whether the effects of a nonce are what it makes
// of another's: it is asked of the k effects from one place to an end, and of the l effects from another to theirs. `due` types are still
// to come.
pub fn same_type_where<F: Fn(usize, usize, usize, usize, usize, usize) -> bool>(
    u: &[u32],
    a: usize,
    e: usize,
    v: &[u32],
    b: usize,
    f: usize,
    holds: F,
) -> bool
    requires reads { At u.now a (rest_of (type_at (drop a u.now))) e × At v.now b (rest_of (type_at (drop b v.now))) f }
    requires asked { (a k end b l last : ℕ) → rest_of (effects k (drop a u.now)) ≡ some (drop end u.now) → rest_of (effects l (drop b v.now)) ≡ some (drop last v.now) → F.pre holds a k end b l last }
    ensures { (ch : Ty → Ty) (g : List Effect → List Effect) → Makes u.now v.now (F.post holds) ch g → result ≡ test (same_type (type_in u.now a) (ch (type_in v.now b))) }
{
    let mut i = a;
    let mut j = b;
    let mut due = 1;
    while 0 < due {
        let own = type_own(u, i).unwrap();
        let other = type_own(v, j).unwrap();
        if u[i] != v[j] {
            return false;
        }
        // Kept: the words and a nonce's effects are two questions; one test would mix `||` and `&&`.
        if u[i] == 5 && !holds(i + 2, wide(u[i + 1]), own, j + 2, wide(v[j + 1]), other) {
            return false;
        }
        due = due + type_parts(u[i]) - 1;
        i = own;
        j = other;
    }
    true
}

// The types from a to e and from b to f are the same.
pub fn same_type(u: &[u32], a: usize, e: usize, v: &[u32], b: usize, f: usize) -> bool
    requires { At u.now a (rest_of (type_at (drop a u.now))) e × At v.now b (rest_of (type_at (drop b v.now))) f }
    ensures { result ≡ test (same_type (type_in u.now a) (type_in v.now b)) }
{
    same_type_where(u, a, e, v, b, f, |a, k, end, b, l, last| {
        same_bag(u, a, k, end, v, b, l, last)
    })
}

// The environments from a to e and from b to f are the same.
pub fn same_environment(u: &[u32], a: usize, e: usize, v: &[u32], b: usize, f: usize) -> bool
    requires { At u.now a (rest_of (environment_at (drop a u.now))) e × At v.now b (rest_of (environment_at (drop b v.now))) f }
    ensures { result ≡ test (same_environment (environment_in u.now a) (environment_in v.now b)) }
{
    let mut i = a;
    let mut j = b;
    while u[i] == 2 && v[j] == 2 {
        let own = type_end(u, i + 2).unwrap();
        let other = type_end(v, j + 2).unwrap();
        if u[i + 1] != v[j + 1] || !same_type(u, i + 2, own, v, j + 2, other) {
            return false;
        }
        i = own;
        j = other;
    }
    u[i] == v[j]
}

// Some leaf of the term from a to end, by its first word, 1 for a name and 4 for a variable, and its number, is of the kind that a test
// holds of. `due` terms are still to come.
fn some_leaf<F: Fn(u32, u32) -> bool>(w: &[u32], a: usize, end: usize, holds: F) -> bool
    requires reads { At w.now a (rest_of (term (drop a w.now))) end }
    requires asked { (c n : ℕ) → F.pre holds c n }
    ensures { (p : ℕ → ℕ → Bool) → TellsLeaf (F.post holds) p → result ≡ any_leaf p (term_in w.now a) }
{
    let mut i = a;
    let mut due: usize = 1;
    while 0 < due {
        match w[i] {
            2 | 3 => {
                due += 1;
                i += 1;
            }
            c => {
                if holds(c, w[i + 1]) {
                    return true;
                }
                due -= 1;
                i += 2;
            }
        }
    }
    false
}

// The name x is one of those of the term from a to end.
pub fn term_mentions(w: &[u32], a: usize, end: usize, x: u32) -> bool
    requires { At w.now a (rest_of (term (drop a w.now))) end }
    ensures { result ≡ occurs x (term_in w.now a) }
{
    some_leaf(w, a, end, |c, n| c == 1 && n == x)
}

// No pair type's own variable stands in the term from a to end.
pub fn term_closed(w: &[u32], a: usize, end: usize) -> bool
    requires { At w.now a (rest_of (term (drop a w.now))) end }
    ensures { result ≡ closed (term_in w.now a) }
{
    !some_leaf(w, a, end, |c, _| c == 4)
}

// The name x is one of those of the k effects from a to end.
pub fn effects_mention(w: &[u32], a: usize, k: usize, end: usize, x: u32) -> bool
    requires { rest_of (effects k (drop a w.now)) ≡ some (drop end w.now) }
    ensures { result ≡ mentions x (effects_in w.now a k) }
{
    !every_effect(w, a, k, end, |i, e| !term_mentions(w, i + 1, e, x))
}

// The entry at i, whose type ends at own, is x with the type from b to f.
fn is_entry(w: &[u32], i: usize, own: usize, x: u32, v: &[u32], b: usize, f: usize) -> bool
    requires { (i + 1 < length w.now) × At w.now (i + 2) (rest_of (type_at (drop (i + 2) w.now))) own × At v.now b (rest_of (type_at (drop b v.now))) f }
    ensures { result ≡ test (same_entry (x ⦂ type_in v.now b) (get_or w.now (i + 1) 0 ⦂ type_in w.now (i + 2))) }
{
    w[i + 1] == x && same_type(w, i + 2, own, v, b, f)
}

// The entry x with the type from b to f stands in the environment from a to e.
pub fn entry_stands(w: &[u32], a: usize, e: usize, x: u32, v: &[u32], b: usize, f: usize) -> bool
    requires { At w.now a (rest_of (environment_at (drop a w.now))) e × At v.now b (rest_of (type_at (drop b v.now))) f }
    ensures { result ≡ stands (x ⦂ type_in v.now b) (environment_in w.now a) }
{
    let mut i = a;
    while w[i] == 2 {
        let own = type_end(w, i + 2).unwrap();
        if is_entry(w, i, own, x, v, b, f) {
            return true;
        }
        i = own;
    }
    false
}

// How many of the k effects from a to end a test holds of. It is asked of each by its place and its end.
pub fn count_where<F: Fn(usize, usize) -> bool>(
    w: &[u32],
    a: usize,
    k: usize,
    end: usize,
    holds: F,
) -> usize
    requires reads { rest_of (effects k (drop a w.now)) ≡ some (drop end w.now) }
    requires asked { AskedOfEach w.now (F.pre holds) }
    ensures counts { (p : Effect → Bool) → Tells w.now (F.post holds) p → result ≡ count_by p (effects_in w.now a k) }
    ensures few { result ≤ k }
{
    let mut i = a;
    let mut n = 0;
    for _ in 0..k {
        let e = term_end(w, i + 1).unwrap();
        if holds(i, e) {
            n += 1;
        }
        i = e;
    }
    n
}

// A test holds of every one of the k effects from a to end. It is asked of each by its place and its end.
pub fn every_effect<F: Fn(usize, usize) -> bool>(
    w: &[u32],
    a: usize,
    k: usize,
    end: usize,
    holds: F,
) -> bool
    requires reads { rest_of (effects k (drop a w.now)) ≡ some (drop end w.now) }
    requires asked { AskedOfEach w.now (F.pre holds) }
    ensures { (p : Effect → Bool) → Tells w.now (F.post holds) p → result ≡ list_all p (effects_in w.now a k) }
{
    let mut i = a;
    for _ in 0..k {
        let e = term_end(w, i + 1).unwrap();
        if !holds(i, e) {
            return false;
        }
        i = e;
    }
    true
}
