// Whether a line follows by its rule from the lines that it names: the rules of processes.
#![tactic(auto)]

ghost use Rattle.std.specs.Prelude.{◌≡◌, ◌&&◌, [], ◌∷◌, ◌+◌, ◌-◌, ◌≤◌, ◌<◌, length, drop, get_or, MatchOption};
ghost use Rattle.typing.specs.Bag.{plus, minus, bag};
ghost use Rattle.typing.specs.Types.{generatable, same_environment, same_effects, ◌⦂◌};
ghost use Rattle.typing.specs.Rule.{Rule};
ghost use Rattle.typing.specs.Check.{follows};
ghost use Rattle.typing.specs.Reading.{term, effects, type_at, environment_at, process_at};
ghost use Rattle.alike.specs.Same.{effects_in, type_in, environment_in, test};
ghost use Rattle.balance.specs.Sum.{list_of, There as Stated};
ghost use Rattle.parts.specs.Place.{process_in};
ghost use Rattle.shapes.specs.Shape.{Reads, There, made_type};
ghost use Rattle.ruling.specs.Line.{says_environment, says_term, says_process, EnvironmentThere, TermThere, ProcessThere};
ghost use Rattle.running.specs.Rules.{code_of, label_rule, open_rule};
ghost use Rattle.running.specs.Premises.{gives_term, gives_process, gives_effects, is_fresh};
ghost use Rattle.running.specs.Rules.Pieces.{KindAt, OutAt, InpAt, SplitAt};

use alike::{effects_mention, same_bag, term_closed};
use balance::{Effects, balanced};
use changed::{By, same_changed};
use pieces::{Pieces, pieces_of};
use ruling::{Line, effects_at, effects_behind, term_premise};
use shapes::{Made, behind, extended, same_as, same_at};
use spans::{Environment, Process, Term, Type};
use words::{wide, word};

// Line j gives a process in line i's environment: the one at p.
fn process_premise(w: &[u32], i: Line, j: Line, p: usize) -> bool
    requires { Reads environment_at w.now i.e × ProcessThere w.now j × Reads process_at w.now p }
    ensures { result ≡ gives_process w.now (environment_in w.now i.e) j p }
{
    same_at::<Environment>(w, j.e, i.e) && same_at::<Process>(w, j.s, p)
}

// Line j gives the process at p in line i's environment with the entry x of the type that is made.
fn entered(w: &[u32], i: Line, j: Line, x: u32, made: Made, p: usize) -> bool
    requires { Reads environment_at w.now i.e × ProcessThere w.now j × There w.now made × Reads process_at w.now p }
    ensures { result ≡ gives_process w.now ((x ⦂ made_type w.now made) ∷ environment_in w.now i.e) j p }
{
    extended(w, j.e, x, made, i.e) && same_at::<Process>(w, j.s, p)
}

// The environment at a is the one at b with the entry x of the type at t, and then y of the type at u.
fn extended_twice(w: &[u32], a: usize, y: u32, u: usize, x: u32, t: usize, b: usize) -> bool
    requires { Reads environment_at w.now a × Reads type_at w.now u × Reads type_at w.now t × Reads environment_at w.now b }
    ensures { result ≡ test (same_environment (environment_in w.now a) ((y ⦂ type_in w.now u) ∷ (x ⦂ type_in w.now t) ∷ environment_in w.now b)) }
{
    if w[a] != 2 {
        return false;
    }
    let older = behind::<Type>(w, a + 2);
    w[a + 1] == y && same_at::<Type>(w, a + 2, u) && extended(w, older, x, Made::Same(t), b)
}

// Line j gives the process at p in line i's environment with both entries.
fn entered_twice(w: &[u32], i: Line, j: Line, y: u32, u: usize, x: u32, t: usize, p: usize) -> bool
    requires { Reads environment_at w.now i.e × ProcessThere w.now j × Reads type_at w.now u × Reads type_at w.now t × Reads process_at w.now p }
    ensures { result ≡ gives_process w.now ((y ⦂ type_in w.now u) ∷ (x ⦂ type_in w.now t) ∷ environment_in w.now i.e) j p }
{
    extended_twice(w, j.e, y, u, x, t, i.e) && same_at::<Process>(w, j.s, p)
}

// Lines i and j state one multiset of effects.
fn unchanged(w: &[u32], i: Line, j: Line) -> bool
    requires { ProcessThere w.now i × ProcessThere w.now j }
    ensures { result ≡ gives_effects w.now i j }
{
    let e = effects_behind(w, i.f, i.k);
    let f = effects_behind(w, j.f, j.k);
    same_bag(w, i.f, i.k, e, w, j.f, j.k, f)
}

// Line i's effects are those of line j, less some and with others.
fn restated(w: &[u32], i: Line, j: Line, less: Effects, more: Effects) -> bool
    requires { ProcessThere w.now i × ProcessThere w.now j × Stated w.now less × Stated w.now more }
    ensures { result ≡ test (same_effects (bag (effects_in w.now i.f i.k)) (plus (bag (list_of w.now more)) (minus (bag (effects_in w.now j.f j.k)) (bag (list_of w.now less))))) }
{
    balanced(
        w,
        effects_at(w, i.f, i.k),
        effects_at(w, j.f, j.k),
        less,
        more,
    )
}

// The name x is none of those of line i's effects.
fn fresh(w: &[u32], i: Line, x: u32) -> bool
    requires { ProcessThere w.now i }
    ensures { result ≡ is_fresh w.now i x }
{
    let e = effects_behind(w, i.f, i.k);
    !effects_mention(w, i.f, i.k, e, x)
}

// The pieces of the process at s, if it begins with this word.
// Kept: the kind is the word itself. It is only compared with the process's own, so an enum would be made of literals to be turned into them.
fn spelled(w: &[u32], s: usize, code: u32) -> Option<Pieces>
    requires { Reads process_at w.now s }
    ensures { (s < length w.now) × MatchOption result (code_of (process_in w.now s) ≡ code → ⊥) (λ p. KindAt code w.now s p) }
{
    let p = pieces_of(w, s);
    if word(w, s) == code { Some(p) } else { None }
}

// E ⊢ ⋄  ⟹  E ⊢ STOP : []
pub fn by_stop(w: &[u32], i: Line, j: Line) -> bool
    requires { ProcessThere w.now i × EnvironmentThere w.now j }
    ensures { result ≡ follows Rule.stop (says_environment w.now j ∷ []) (says_process w.now i) }
{
    let Some(_) = spelled(w, i.s, 5) else {
        return false;
    };
    same_at::<Environment>(w, j.e, i.e) && i.k == 0
}

// Line i, a process with this word (9 begin, 10 end), follows from line j: its effects are those of line j less end L, or with it.
fn by_label(w: &[u32], i: Line, j: Line, code: u32) -> bool
    requires { ProcessThere w.now i × ProcessThere w.now j × (9 ≤ code) × (code ≤ 10) }
    ensures { result ≡ follows (label_rule code) (says_process w.now j ∷ []) (says_process w.now i) }
{
    let Some(p) = spelled(w, i.s, code) else {
        return false;
    };
    let end = behind::<Term>(w, p.m);
    let label = Effects::One(1, p.m, end);
    let none = Effects::Many(0, 0, 0);
    process_premise(w, i, j, p.p)
        && term_closed(w, p.m, end)
        && if code == 9 {
            restated(w, i, j, label, none)
        } else {
            restated(w, i, j, none, label)
        }
}

// E ⊢ P : es  ⟹  E ⊢ begin L; P : es − [end L]
pub fn by_begin(w: &[u32], i: Line, j: Line) -> bool
    requires { ProcessThere w.now i × ProcessThere w.now j }
    ensures { result ≡ follows Rule.begin (says_process w.now j ∷ []) (says_process w.now i) }
{
    by_label(w, i, j, 9)
}

// E ⊢ P : es  ⟹  E ⊢ end L; P : es + [end L]
pub fn by_end(w: &[u32], i: Line, j: Line) -> bool
    requires { ProcessThere w.now i × ProcessThere w.now j }
    ensures { result ≡ follows Rule.end (says_process w.now j ∷ []) (says_process w.now i) }
{
    by_label(w, i, j, 10)
}

// E ⊢ P : es_p, E ⊢ Q : es_q  ⟹  E ⊢ P | Q : es_p + es_q
pub fn by_parallel(w: &[u32], i: Line, j: Line, k: Line) -> bool
    requires { ProcessThere w.now i × ProcessThere w.now j × ProcessThere w.now k }
    ensures { result ≡ follows Rule.parallel (says_process w.now j ∷ says_process w.now k ∷ []) (says_process w.now i) }
{
    let Some(p) = spelled(w, i.s, 4) else {
        return false;
    };
    let q = behind::<Process>(w, p.p);
    let first = effects_at(w, j.f, j.k);
    process_premise(w, i, j, p.p)
        && process_premise(w, i, k, q)
        && restated(w, i, k, Effects::Many(0, 0, 0), first)
}

// Lines j, k and l give the terms and the process of line i with these pieces, in its environment, and l states its effects.
fn sent(w: &[u32], i: Line, j: Line, k: Line, l: Line, p: Pieces) -> bool
    requires { ProcessThere w.now i × TermThere w.now j × TermThere w.now k × ProcessThere w.now l × OutAt w.now i.s p }
    ensures { result ≡ (gives_term w.now (environment_in w.now i.e) j p.m && (gives_term w.now (environment_in w.now i.e) k p.n && (gives_process w.now (environment_in w.now i.e) l p.p && gives_effects w.now i l))) }
{
    term_premise(w, i, j, p.m)
        && term_premise(w, i, k, p.n)
        && process_premise(w, i, l, p.p)
        && unchanged(w, i, l)
}

// E ⊢ M : ch(T), E ⊢ N : T, E ⊢ P : es  ⟹  E ⊢ out M N; P : es
pub fn by_out(w: &[u32], i: Line, j: Line, k: Line, l: Line) -> bool
    requires { ProcessThere w.now i × TermThere w.now j × TermThere w.now k × ProcessThere w.now l }
    ensures { result ≡ follows Rule.out (says_term w.now j ∷ says_term w.now k ∷ says_process w.now l ∷ []) (says_process w.now i) }
{
    let Some(p) = spelled(w, i.s, 2) else {
        return false;
    };
    sent(w, i, j, k, l, p) && same_as(w, j.t, Made::Channel(k.t))
}

// E ⊢ M : Un, E ⊢ N : Un, E ⊢ P : es  ⟹  E ⊢ out M N; P : es
pub fn by_out_Un(w: &[u32], i: Line, j: Line, k: Line, l: Line) -> bool
    requires { ProcessThere w.now i × TermThere w.now j × TermThere w.now k × ProcessThere w.now l }
    ensures { result ≡ follows Rule.out-Un (says_term w.now j ∷ says_term w.now k ∷ says_process w.now l ∷ []) (says_process w.now i) }
{
    let Some(p) = spelled(w, i.s, 2) else {
        return false;
    };
    sent(w, i, j, k, l, p) && same_as(w, j.t, Made::Un) && same_as(w, k.t, Made::Un)
}

// Line j gives the term and line k the process of line i with these pieces, which receives x, a new name; k states its effects.
fn received(w: &[u32], i: Line, j: Line, k: Line, p: Pieces) -> bool
    requires { ProcessThere w.now i × TermThere w.now j × ProcessThere w.now k × (i.s < length w.now) × InpAt w.now i.s p }
    ensures { result ≡ (gives_term w.now (environment_in w.now i.e) j p.m && (gives_process w.now ((get_or w.now (i.s + 1) 0 ⦂ type_in w.now p.t) ∷ environment_in w.now i.e) k p.p && (gives_effects w.now i k && is_fresh w.now i (get_or w.now (i.s + 1) 0)))) }
{
    let x = word(w, i.s + 1);
    term_premise(w, i, j, p.m)
        && entered(w, i, k, x, Made::Same(p.t), p.p)
        && unchanged(w, i, k)
        && fresh(w, i, x)
}

// E ⊢ M : ch(T), E, x : T ⊢ P : es  ⟹  E ⊢ inp M x : T; P : es
pub fn by_inp(w: &[u32], i: Line, j: Line, k: Line) -> bool
    requires { ProcessThere w.now i × TermThere w.now j × ProcessThere w.now k }
    ensures { result ≡ follows Rule.inp (says_term w.now j ∷ says_process w.now k ∷ []) (says_process w.now i) }
{
    let Some(p) = spelled(w, i.s, 3) else {
        return false;
    };
    received(w, i, j, k, p) && same_as(w, j.t, Made::Channel(p.t))
}

// E ⊢ M : Un, E, x : Un ⊢ P : es  ⟹  E ⊢ inp M x : Un; P : es
pub fn by_inp_Un(w: &[u32], i: Line, j: Line, k: Line) -> bool
    requires { ProcessThere w.now i × TermThere w.now j × ProcessThere w.now k }
    ensures { result ≡ follows Rule.inp-Un (says_term w.now j ∷ says_process w.now k ∷ []) (says_process w.now i) }
{
    let Some(p) = spelled(w, i.s, 3) else {
        return false;
    };
    received(w, i, j, k, p) && same_as(w, j.t, Made::Un) && same_as(w, p.t, Made::Un)
}

// Line j gives the term and line k the process of line i with these pieces, which takes a pair apart, as x and y, new names; k states its
// effects.
fn taken_apart(w: &[u32], i: Line, j: Line, k: Line, p: Pieces) -> bool
    requires { ProcessThere w.now i × TermThere w.now j × ProcessThere w.now k × SplitAt w.now i.s p }
    ensures { result ≡ (gives_term w.now (environment_in w.now i.e) j p.m && (gives_process w.now ((get_or w.now (i.s + 2) 0 ⦂ type_in w.now p.u) ∷ (get_or w.now (i.s + 1) 0 ⦂ type_in w.now p.t) ∷ environment_in w.now i.e) k p.p && (gives_effects w.now i k && (is_fresh w.now i (get_or w.now (i.s + 1) 0) && is_fresh w.now i (get_or w.now (i.s + 2) 0))))) }
{
    let x = word(w, i.s + 1);
    let y = word(w, i.s + 2);
    term_premise(w, i, j, p.m)
        && entered_twice(w, i, k, y, p.u, x, p.t, p.p)
        && unchanged(w, i, k)
        && fresh(w, i, x)
        && fresh(w, i, y)
}

// E ⊢ M : (x : T, U), E, x : T, y : U ⊢ P : es  ⟹  E ⊢ split M = (x : T, y : U); P : es
pub fn by_split(w: &[u32], i: Line, j: Line, k: Line) -> bool
    requires { ProcessThere w.now i × TermThere w.now j × ProcessThere w.now k }
    ensures { result ≡ follows Rule.split (says_term w.now j ∷ says_process w.now k ∷ []) (says_process w.now i) }
{
    let Some(p) = spelled(w, i.s, 6) else {
        return false;
    };
    let x = word(w, i.s + 1);
    taken_apart(w, i, j, k, p) && same_as(w, j.t, Made::Pair(p.t, p.u, x))
}

// E ⊢ M : Un, E, x : Un, y : Un ⊢ P : es  ⟹  E ⊢ split M = (x : Un, y : Un); P : es
pub fn by_split_Un(w: &[u32], i: Line, j: Line, k: Line) -> bool
    requires { ProcessThere w.now i × TermThere w.now j × ProcessThere w.now k }
    ensures { result ≡ follows Rule.split-Un (says_term w.now j ∷ says_process w.now k ∷ []) (says_process w.now i) }
{
    let Some(p) = spelled(w, i.s, 6) else {
        return false;
    };
    taken_apart(w, i, j, k, p)
        && same_as(w, j.t, Made::Un)
        && same_as(w, p.t, Made::Un)
        && same_as(w, p.u, Made::Un)
}

// Lines j and k give the terms and line l the process of line i with these pieces, which makes x, a new name, known; l states its effects.
fn opened(w: &[u32], i: Line, j: Line, k: Line, l: Line, p: Pieces) -> bool
    requires { ProcessThere w.now i × TermThere w.now j × TermThere w.now k × ProcessThere w.now l × (i.s < length w.now) × Reads term w.now p.m × Reads term w.now p.n × Reads type_at w.now p.t × Reads process_at w.now p.p }
    ensures { result ≡ (gives_term w.now (environment_in w.now i.e) j p.m && (gives_term w.now (environment_in w.now i.e) k p.n && (gives_process w.now ((get_or w.now (i.s + 1) 0 ⦂ type_in w.now p.t) ∷ environment_in w.now i.e) l p.p && (gives_effects w.now i l && is_fresh w.now i (get_or w.now (i.s + 1) 0))))) }
{
    let x = word(w, i.s + 1);
    term_premise(w, i, j, p.m)
        && term_premise(w, i, k, p.n)
        && entered(w, i, l, x, Made::Same(p.t), p.p)
        && unchanged(w, i, l)
        && fresh(w, i, x)
}

// Line i, a process with this word (7 match, 8 decrypt), follows from the lines j, k and l, all types being Un.
fn opened_Un(w: &[u32], i: Line, j: Line, k: Line, l: Line, code: u32) -> bool
    requires { ProcessThere w.now i × TermThere w.now j × TermThere w.now k × ProcessThere w.now l × (7 ≤ code) × (code ≤ 8) }
    ensures { result ≡ follows (open_rule code) (says_term w.now j ∷ says_term w.now k ∷ says_process w.now l ∷ []) (says_process w.now i) }
{
    let Some(p) = spelled(w, i.s, code) else {
        return false;
    };
    opened(w, i, j, k, l, p)
        && same_as(w, j.t, Made::Un)
        && same_as(w, k.t, Made::Un)
        && same_as(w, p.t, Made::Un)
}

// E ⊢ M : Un, E ⊢ N : symkey(T), E, x : T ⊢ P : es  ⟹  E ⊢ decrypt M (N) to x : T; P : es
pub fn by_decrypt(w: &[u32], i: Line, j: Line, k: Line, l: Line) -> bool
    requires { ProcessThere w.now i × TermThere w.now j × TermThere w.now k × ProcessThere w.now l }
    ensures { result ≡ follows Rule.decrypt (says_term w.now j ∷ says_term w.now k ∷ says_process w.now l ∷ []) (says_process w.now i) }
{
    let Some(p) = spelled(w, i.s, 8) else {
        return false;
    };
    opened(w, i, j, k, l, p) && same_as(w, j.t, Made::Un) && same_as(w, k.t, Made::Symkey(p.t))
}

// E ⊢ M : Un, E ⊢ N : Un, E, x : Un ⊢ P : es  ⟹  E ⊢ decrypt M (N) to x : Un; P : es
pub fn by_decrypt_Un(w: &[u32], i: Line, j: Line, k: Line, l: Line) -> bool
    requires { ProcessThere w.now i × TermThere w.now j × TermThere w.now k × ProcessThere w.now l }
    ensures { result ≡ follows Rule.decrypt-Un (says_term w.now j ∷ says_term w.now k ∷ says_process w.now l ∷ []) (says_process w.now i) }
{
    opened_Un(w, i, j, k, l, 8)
}

// E ⊢ M : Un, E ⊢ N : Un, E, y : Un ⊢ P : es  ⟹  E ⊢ match M = (N, y : Un); P : es
pub fn by_match_Un(w: &[u32], i: Line, j: Line, k: Line, l: Line) -> bool
    requires { ProcessThere w.now i × TermThere w.now j × TermThere w.now k × ProcessThere w.now l }
    ensures { result ≡ follows Rule.match-Un (says_term w.now j ∷ says_term w.now k ∷ says_process w.now l ∷ []) (says_process w.now i) }
{
    opened_Un(w, i, j, k, l, 7)
}

// E ⊢ M : Un, E, x : nonce fs ⊢ P : es  ⟹  E ⊢ cast M is x : nonce fs; P : es + fs
pub fn by_cast(w: &[u32], i: Line, j: Line, k: Line) -> bool
    requires { ProcessThere w.now i × TermThere w.now j × ProcessThere w.now k }
    ensures { result ≡ follows Rule.cast (says_term w.now j ∷ says_process w.now k ∷ []) (says_process w.now i) }
{
    let Some(p) = spelled(w, i.s, 11) else {
        return false;
    };
    let x = word(w, i.s + 1);
    let all = effects_at(w, i.f, i.k);
    let own = effects_at(w, k.f, k.k);
    let cast = effects_at(w, p.f, p.k);
    let end = effects_behind(w, p.f, p.k);
    term_premise(w, i, j, p.m)
        && entered(w, i, k, x, Made::Nonce(p.f, p.k, end), p.p)
        && same_as(w, j.t, Made::Un)
        && fresh(w, i, x)
        && balanced(w, all, cast, Effects::Many(0, 0, 0), own)
}

// A type that `new` may generate: Un, ch or symkey.
fn may_generate(w: &[u32], t: usize) -> bool
    requires { Reads type_at w.now t }
    ensures { result ≡ generatable (type_in w.now t) }
{
    let c = word(w, t);
    c != 2 && c != 5
}

// E, x : T ⊢ P : es, T generatable  ⟹  E ⊢ new (x : T); P : es − [check x]. The process's own words 1, x spell the name x.
pub fn by_new(w: &[u32], i: Line, j: Line) -> bool
    requires { ProcessThere w.now i × ProcessThere w.now j }
    ensures { result ≡ follows Rule.new (says_process w.now j ∷ []) (says_process w.now i) }
{
    let Some(p) = spelled(w, i.s, 1) else {
        return false;
    };
    let name = word(w, i.s + 1);
    entered(w, i, j, name, Made::Same(p.t), p.p)
        && may_generate(w, p.t)
        && fresh(w, i, name)
        && restated(
            w,
            i,
            j,
            Effects::One(2, i.s, i.s + 2),
            Effects::Many(0, 0, 0),
        )
}

// E ⊢ M : Un, E ⊢ N : nonce fs, E ⊢ P : es  ⟹  E ⊢ check M = N; P : es − fs + [check M]
pub fn by_check(w: &[u32], i: Line, j: Line, k: Line, l: Line) -> bool
    requires { ProcessThere w.now i × TermThere w.now j × TermThere w.now k × ProcessThere w.now l }
    ensures { result ≡ follows Rule.check (says_term w.now j ∷ says_term w.now k ∷ says_process w.now l ∷ []) (says_process w.now i) }
{
    let Some(p) = spelled(w, i.s, 12) else {
        return false;
    };
    if word(w, k.t) != 5 {
        return false;
    }
    let many = wide(word(w, k.t + 1));
    let last = behind::<Type>(w, k.t);
    let end = behind::<Term>(w, p.m);
    term_premise(w, i, j, p.m)
        && term_premise(w, i, k, p.n)
        && process_premise(w, i, l, p.p)
        && same_as(w, j.t, Made::Un)
        && restated(
            w,
            i,
            l,
            Effects::Many(k.t + 2, many, last),
            Effects::One(2, p.m, end),
        )
}

// E ⊢ M : (x : T, U), E ⊢ N : T, E, y : U[N/x] ⊢ P : es  ⟹  E ⊢ match M = (N, y : U[N/x]); P : es
pub fn by_match(w: &[u32], i: Line, j: Line, k: Line, l: Line) -> bool
    requires { ProcessThere w.now i × TermThere w.now j × TermThere w.now k × ProcessThere w.now l }
    ensures { result ≡ follows Rule.match (says_term w.now j ∷ says_term w.now k ∷ says_process w.now l ∷ []) (says_process w.now i) }
{
    let Some(p) = spelled(w, i.s, 7) else {
        return false;
    };
    if word(w, j.t) != 2 {
        return false;
    }
    let second = behind::<Type>(w, j.t + 1);
    let last = behind::<Type>(w, second);
    let own = behind::<Type>(w, p.t);
    let end = behind::<Term>(w, p.n);
    opened(w, i, j, k, l, p)
        && same_at::<Type>(w, j.t + 1, k.t)
        && same_changed(w, p.t, own, second, last, By::Put(p.n, end))
}
