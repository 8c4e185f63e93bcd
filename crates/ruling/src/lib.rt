// Whether a line follows by its rule from the lines that it names: the rules of environments, effects, types and terms.
#![tactic(auto)]

ghost use Rattle.std.specs.Prelude.{◌≡◌, [], ◌∷◌, ◌+◌, ◌-◌, ◌≤◌, ◌<◌, length, drop, get_or, ◌&&◌};
ghost use Rattle.std.proofs.Math.Option.{some};
ghost use Rattle.typing.specs.Rule.{Rule};
ghost use Rattle.typing.specs.Check.{follows};
ghost use Rattle.typing.specs.Term.{same_term};
ghost use Rattle.typing.specs.Bag.{insert, bag};
ghost use Rattle.typing.specs.Types.{same_type, same_effects, same_environment};
ghost use Rattle.typing.specs.Reading.{term, effects, environment_at};
ghost use Rattle.alike.specs.Same.{term_in, effects_in, type_in, environment_in, test};
ghost use Rattle.balance.specs.Sum.{effect_by, list_of, There as Stated};
ghost use Rattle.spans.specs.Behind.{rest_of};
ghost use Rattle.shapes.specs.Shape.{Reads, There, made_type};
ghost use Rattle.ruling.specs.Rules.{join, join_Un};
ghost use Rattle.ruling.specs.Line.{says_environment, says_type, says_effect, says_term, EnvironmentThere, TypeThere, EffectThere, TermThere};

use alike::entry_stands;
use balance::{Effects, balanced};
use changed::{By, same_changed};
use shapes::{Made, behind, extended, same_as, same_at};
use spans::{Environment, Term, Type, effects_end};
use words::word;

// What a line names: the places of its environment, its subject, its type and its effects, and how many effects.
#[derive(Clone, Copy)]
pub struct Line {
    pub e: usize,
    pub s: usize,
    pub t: usize,
    pub f: usize,
    pub k: usize,
}

// The place behind the k effects at a.
pub fn effects_behind(w: &[u32], a: usize, k: usize) -> usize
    requires { Reads (effects k) w.now a }
    ensures { rest_of (effects k (drop a w.now)) ≡ some (drop result w.now) }
{
    if k == 0 {
        return a;
    }
    let e = behind::<Term>(w, a + 1);
    effects_end(w, e, k - 1).unwrap()
}

// The k effects at a, as sums and differences are made of them.
pub fn effects_at(w: &[u32], a: usize, k: usize) -> Effects
    requires { Reads (effects k) w.now a }
    ensures { Stated w.now result × (list_of w.now result ≡ effects_in w.now a k) }
{
    Effects::Many(a, k, effects_behind(w, a, k))
}

// φ ⊢ ⋄
pub fn by_empty(w: &[u32], i: Line) -> bool
    requires { EnvironmentThere w.now i }
    ensures { result ≡ follows Rule.empty [] (says_environment w.now i) }
{
    word(w, i.e) == 1
}

// E ⊢ T  ⟹  E, x : T ⊢ ⋄
pub fn by_entry(w: &[u32], i: Line, j: Line) -> bool
    requires { EnvironmentThere w.now i × TypeThere w.now j }
    ensures { result ≡ follows Rule.entry (says_type w.now j ∷ []) (says_environment w.now i) }
{
    let x = word(w, i.e + 1);
    extended(w, i.e, x, Made::Same(j.t), j.e)
}

// E ⊢ ⋄  ⟹  E ⊢ []
pub fn by_effect_none(w: &[u32], i: Line, j: Line) -> bool
    requires { EffectThere w.now i × EnvironmentThere w.now j }
    ensures { result ≡ follows Rule.effect-none (says_environment w.now j ∷ []) (says_effect w.now i) }
{
    same_at::<Environment>(w, j.e, i.e) && i.k == 0
}

// Lines j and k are in line i's environment, whose effects are those of line j with one more: the effect with this word (1 end, 2 check)
// of line k's term.
fn effect_added(w: &[u32], i: Line, j: Line, k: Line, code: u32) -> bool
    requires { EffectThere w.now i × EffectThere w.now j × TermThere w.now k × (0 < code) × (code ≤ 2) }
    ensures { result ≡ (test (same_environment (environment_in w.now j.e) (environment_in w.now i.e)) && (test (same_environment (environment_in w.now k.e) (environment_in w.now i.e)) && test (same_effects (bag (effects_in w.now i.f i.k)) (insert (effect_by code (term_in w.now k.s)) (bag (effects_in w.now j.f j.k)))))) }
{
    let all = effects_at(w, i.f, i.k);
    let own = effects_at(w, j.f, j.k);
    let more = Effects::One(code, k.s, behind::<Term>(w, k.s));
    same_at::<Environment>(w, j.e, i.e)
        && same_at::<Environment>(w, k.e, i.e)
        && balanced(w, all, own, Effects::Many(0, 0, 0), more)
}

// E ⊢ es, E ⊢ L : T  ⟹  E ⊢ es + [end L]
pub fn by_effect_end(w: &[u32], i: Line, j: Line, k: Line) -> bool
    requires { EffectThere w.now i × EffectThere w.now j × TermThere w.now k }
    ensures { result ≡ follows Rule.effect-end (says_effect w.now j ∷ says_term w.now k ∷ []) (says_effect w.now i) }
{
    effect_added(w, i, j, k, 1)
}

// E ⊢ es, E ⊢ N : Un  ⟹  E ⊢ es + [check N]
pub fn by_effect_check(w: &[u32], i: Line, j: Line, k: Line) -> bool
    requires { EffectThere w.now i × EffectThere w.now j × TermThere w.now k }
    ensures { result ≡ follows Rule.effect-check (says_effect w.now j ∷ says_term w.now k ∷ []) (says_effect w.now i) }
{
    effect_added(w, i, j, k, 2) && same_as(w, k.t, Made::Un)
}

// The environment at e is line i's, and line i's type is the one that is made.
fn type_made(w: &[u32], i: Line, e: usize, made: Made) -> bool
    requires { TypeThere w.now i × Reads environment_at w.now e × There w.now made }
    ensures { result ≡ (test (same_environment (environment_in w.now e) (environment_in w.now i.e)) && test (same_type (type_in w.now i.t) (made_type w.now made))) }
{
    same_at::<Environment>(w, e, i.e) && same_as(w, i.t, made)
}

// E ⊢ ⋄  ⟹  E ⊢ Un
pub fn by_type_Un(w: &[u32], i: Line, j: Line) -> bool
    requires { TypeThere w.now i × EnvironmentThere w.now j }
    ensures { result ≡ follows Rule.type-Un (says_environment w.now j ∷ []) (says_type w.now i) }
{
    type_made(w, i, j.e, Made::Un)
}

// E ⊢ T, E, x : T ⊢ U  ⟹  E ⊢ (x : T, U)
pub fn by_type_pair(w: &[u32], i: Line, j: Line, k: Line) -> bool
    requires { TypeThere w.now i × TypeThere w.now j × TypeThere w.now k }
    ensures { result ≡ follows Rule.type-pair (says_type w.now j ∷ says_type w.now k ∷ []) (says_type w.now i) }
{
    let x = word(w, k.e + 1);
    type_made(w, i, j.e, Made::Pair(j.t, k.t, x)) && extended(w, k.e, x, Made::Same(j.t), i.e)
}

// E ⊢ T  ⟹  E ⊢ ch(T)
pub fn by_type_channel(w: &[u32], i: Line, j: Line) -> bool
    requires { TypeThere w.now i × TypeThere w.now j }
    ensures { result ≡ follows Rule.type-channel (says_type w.now j ∷ []) (says_type w.now i) }
{
    type_made(w, i, j.e, Made::Channel(j.t))
}

// E ⊢ T  ⟹  E ⊢ symkey(T)
pub fn by_type_symkey(w: &[u32], i: Line, j: Line) -> bool
    requires { TypeThere w.now i × TypeThere w.now j }
    ensures { result ≡ follows Rule.type-symkey (says_type w.now j ∷ []) (says_type w.now i) }
{
    type_made(w, i, j.e, Made::Symkey(j.t))
}

// E ⊢ es  ⟹  E ⊢ nonce es
pub fn by_type_nonce(w: &[u32], i: Line, j: Line) -> bool
    requires { TypeThere w.now i × EffectThere w.now j }
    ensures { result ≡ follows Rule.type-nonce (says_effect w.now j ∷ []) (says_type w.now i) }
{
    type_made(
        w,
        i,
        j.e,
        Made::Nonce(j.f, j.k, effects_behind(w, j.f, j.k)),
    )
}

// Line j gives a term in line i's environment: the one at m.
pub fn term_premise(w: &[u32], i: Line, j: Line, m: usize) -> bool
    requires { Reads environment_at w.now i.e × TermThere w.now j × Reads term w.now m }
    ensures { result ≡ (test (same_environment (environment_in w.now j.e) (environment_in w.now i.e)) && test (same_term (term_in w.now j.s) (term_in w.now m))) }
{
    same_at::<Environment>(w, j.e, i.e) && same_at::<Term>(w, j.s, m)
}

// E', x : T, E'' ⊢ ⋄  ⟹  E', x : T, E'' ⊢ x : T
pub fn by_name(w: &[u32], i: Line, j: Line) -> bool
    requires { TermThere w.now i × EnvironmentThere w.now j }
    ensures { result ≡ follows Rule.name (says_environment w.now j ∷ []) (says_term w.now i) }
{
    if word(w, i.s) != 1 {
        return false;
    }
    let x = word(w, i.s + 1);
    let e = behind::<Environment>(w, i.e);
    let f = behind::<Type>(w, i.t);
    same_at::<Environment>(w, j.e, i.e) && entry_stands(w, i.e, e, x, w, i.t, f)
}

// Line i's term has this word (2 a pair, 3 a cipher), and is made of the terms of lines j and k, in its environment.
// Kept: the kind is the word itself. It is only compared with the term's own, so an enum would be made of literals to be turned into them.
fn joined(w: &[u32], i: Line, j: Line, k: Line, code: u32) -> bool
    requires { TermThere w.now i × TermThere w.now j × TermThere w.now k × (2 ≤ code) × (code ≤ 3) }
    ensures { result ≡ (test (same_term (term_in w.now i.s) (join code (term_in w.now j.s) (term_in w.now k.s))) && (test (same_environment (environment_in w.now j.e) (environment_in w.now i.e)) && test (same_environment (environment_in w.now k.e) (environment_in w.now i.e)))) }
{
    if word(w, i.s) != code {
        return false;
    }
    let left = i.s + 1;
    let right = behind::<Term>(w, left);
    term_premise(w, i, j, left) && term_premise(w, i, k, right)
}

// Line i's term has this word (2 a pair, 3 a cipher), and it and the terms of lines j and k, of which it is made, are all of type Un.
fn joined_Un(w: &[u32], i: Line, j: Line, k: Line, code: u32) -> bool
    requires { TermThere w.now i × TermThere w.now j × TermThere w.now k × (2 ≤ code) × (code ≤ 3) }
    ensures { result ≡ follows (join_Un code) (says_term w.now j ∷ says_term w.now k ∷ []) (says_term w.now i) }
{
    joined(w, i, j, k, code)
        && same_as(w, i.t, Made::Un)
        && same_as(w, j.t, Made::Un)
        && same_as(w, k.t, Made::Un)
}

// E ⊢ M : T, E ⊢ N : U[M/x]  ⟹  E ⊢ (M, N) : (x : T, U)
pub fn by_pair(w: &[u32], i: Line, j: Line, k: Line) -> bool
    requires { TermThere w.now i × TermThere w.now j × TermThere w.now k }
    ensures { result ≡ follows Rule.pair (says_term w.now j ∷ says_term w.now k ∷ []) (says_term w.now i) }
{
    if word(w, i.s) != 2 || word(w, i.t) != 2 {
        return false;
    }
    let left = i.s + 1;
    let right = behind::<Term>(w, left);
    let second = behind::<Type>(w, i.t + 1);
    let e = behind::<Type>(w, k.t);
    let f = behind::<Type>(w, second);
    term_premise(w, i, j, left)
        && term_premise(w, i, k, right)
        && same_at::<Type>(w, i.t + 1, j.t)
        && same_changed(w, k.t, e, second, f, By::Put(left, right))
}

// E ⊢ M : T, E ⊢ N : symkey(T)  ⟹  E ⊢ {M}N : Un
pub fn by_cipher(w: &[u32], i: Line, j: Line, k: Line) -> bool
    requires { TermThere w.now i × TermThere w.now j × TermThere w.now k }
    ensures { result ≡ follows Rule.cipher (says_term w.now j ∷ says_term w.now k ∷ []) (says_term w.now i) }
{
    joined(w, i, j, k, 3) && same_as(w, i.t, Made::Un) && same_as(w, k.t, Made::Symkey(j.t))
}

// E ⊢ M : Un, E ⊢ N : Un  ⟹  E ⊢ {M}N : Un
pub fn by_cipher_Un(w: &[u32], i: Line, j: Line, k: Line) -> bool
    requires { TermThere w.now i × TermThere w.now j × TermThere w.now k }
    ensures { result ≡ follows Rule.cipher-Un (says_term w.now j ∷ says_term w.now k ∷ []) (says_term w.now i) }
{
    joined_Un(w, i, j, k, 3)
}

// E ⊢ M : Un, E ⊢ N : Un  ⟹  E ⊢ (M, N) : Un
pub fn by_pair_Un(w: &[u32], i: Line, j: Line, k: Line) -> bool
    requires { TermThere w.now i × TermThere w.now j × TermThere w.now k }
    ensures { result ≡ follows Rule.pair-Un (says_term w.now j ∷ says_term w.now k ∷ []) (says_term w.now i) }
{
    joined_Un(w, i, j, k, 2)
}
