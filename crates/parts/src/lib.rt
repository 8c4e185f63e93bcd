// What a process's own words say: where its names, terms, types and effects stand, and the processes in it; whether two processes are
// the same. `Same` is the trait of sorts of things that can be compared, and `same_several` compares several of one sort.
#![tactic(auto)]

ghost use Rattle.std.specs.Prelude.{◌≡◌, ℕ, List, [], drop, get_or, refl};
ghost use Rattle.std.proofs.Math.Option.{some};
ghost use Rattle.typing.specs.Term.{Term as TermValue, same_term};
ghost use Rattle.typing.specs.Types.{Ty, Environment as EnvironmentValue, same_list, same_type, same_environment, same_effects};
ghost use Rattle.typing.specs.Process.{Process as ProcessValue, same_process};
ghost use Rattle.typing.specs.Reading.{Read, term, type_at, environment_at, several, process_at};
ghost use Rattle.spans.specs.Behind.{At, rest_of};
ghost use Rattle.alike.specs.Same.{test, value_or, term_in, type_in, environment_in};
ghost use Rattle.parts.specs.Own.{Counted, cast_effects};
ghost use Rattle.parts.specs.Place.{Spelled, Places, list_in, process_in, own_in, same_own};
ghost use Rattle.parts.specs.Place.Values.{term_reads, type_reads, environment_reads, process_reads};

use alike::{same_bag, same_environment, same_run, same_term, same_type};
use spans::{Environment, Process, Term, Thing, Type, list_end, process_parts, several_end};
use words::wide;

// A sort of things that can be compared: `read` reads one, and `value` is the one that is read at a place.
pub trait Same: Thing {
    ghost Value: { Type 0 };

    ghost read: { List ℕ → Read Value };

    ghost value: { List ℕ → ℕ → Value };

    ghost same: { (x y : Value) → Dec (x ≡ y) };

    // The ones from a to e and from b to f are the same.
    fn same(u: &[u32], a: usize, e: usize, v: &[u32], b: usize, f: usize) -> bool
        requires { At u.now a (rest_of (read (drop a u.now))) e × At v.now b (rest_of (read (drop b v.now))) f }
        ensures { result ≡ test (same (value u.now a) (value v.now b)) };

    ghost skips: { (u : List ℕ) → Self.skip u ≡ rest_of (read u) };

    ghost reads: { (w : List ℕ) (a e : ℕ) → rest_of (read (drop a w)) ≡ some (drop e w) → read (drop a w) ≡ some (value w a, drop e w) };
}

impl Same for Term {
    ghost Value = { TermValue };

    ghost read = { term };

    ghost value = { term_in };

    ghost same = { same_term };

    ghost skips = { λ u. refl };

    ghost reads = { term_reads };

    fn same(u: &[u32], a: usize, e: usize, v: &[u32], b: usize, f: usize) -> bool {
        same_term(u, a, e, v, b, f)
    }
}

impl Same for Type {
    ghost Value = { Ty };

    ghost read = { type_at };

    ghost value = { type_in };

    ghost same = { same_type };

    ghost skips = { λ u. refl };

    ghost reads = { type_reads };

    fn same(u: &[u32], a: usize, e: usize, v: &[u32], b: usize, f: usize) -> bool {
        same_type(u, a, e, v, b, f)
    }
}

impl Same for Environment {
    ghost Value = { EnvironmentValue };

    ghost read = { environment_at };

    ghost value = { environment_in };

    ghost same = { same_environment };

    ghost skips = { λ u. refl };

    ghost reads = { environment_reads };

    fn same(u: &[u32], a: usize, e: usize, v: &[u32], b: usize, f: usize) -> bool {
        same_environment(u, a, e, v, b, f)
    }
}

impl Same for Process {
    ghost Value = { ProcessValue };

    ghost read = { process_at };

    ghost value = { process_in };

    ghost same = { same_process };

    ghost skips = { λ u. refl };

    ghost reads = { process_reads };

    fn same(u: &[u32], a: usize, e: usize, v: &[u32], b: usize, f: usize) -> bool {
        same_process(u, a, e, v, b, f)
    }
}

// How many names, terms and types a process has of its own.
#[derive(Clone, Copy)]
pub struct Counts {
    pub names: usize,
    pub terms: usize,
    pub types: usize,
}

// Where they stand: the terms, the types, a cast's effects with their count, and what is behind.
#[derive(Clone, Copy)]
pub struct Parts {
    pub terms: usize,
    pub types: usize,
    pub list: usize,
    pub next: usize,
}

// The numbers of the table, by the first word.
pub fn counts_of(c: u32) -> Counts
    ensures { Counted c result.names result.terms result.types }
{
    let (names, terms, types) = match c {
        1 => (1, 0, 1),
        2 => (0, 2, 0),
        3 => (1, 1, 1),
        6 => (2, 1, 2),
        7 | 8 => (1, 2, 1),
        9 | 10 => (0, 1, 0),
        11 => (1, 1, 0),
        12 => (0, 2, 0),
        _ => (0, 0, 0),
    };
    Counts {
        names,
        terms,
        types,
    }
}

// Where the parts of the process that begins at i stand.
pub fn parts_of(w: &[u32], i: usize) -> Parts
    requires { Spelled w.now i }
    ensures { Places w.now i result }
{
    let c = w[i];
    let counts = counts_of(c);
    let terms = i + 1 + counts.names;
    let types = several_end::<Term>(w, terms, counts.terms).unwrap();
    let list = several_end::<Type>(w, types, counts.types).unwrap();
    let next = if c == 11 {
        list_end(w, list).unwrap()
    } else {
        list
    };
    Parts {
        terms,
        types,
        list,
        next,
    }
}

// The k things of one sort from a to e and from b to f are the same.
fn same_several<T: Same>(
    u: &[u32],
    a: usize,
    e: usize,
    v: &[u32],
    b: usize,
    f: usize,
    k: usize,
) -> bool
    requires { At u.now a (rest_of (several T.read k (drop a u.now))) e × At v.now b (rest_of (several T.read k (drop b v.now))) f }
    ensures { result ≡ test (same_list T.same (list_in T.read u.now a k) (list_in T.read v.now b k)) }
{
    let mut i = a;
    let mut j = b;
    for _ in 0..k {
        let own = T::end(u, i).unwrap();
        let other = T::end(v, j).unwrap();
        if !T::same(u, i, own, v, j, other) {
            return false;
        }
        i = own;
        j = other;
    }
    true
}

// The effects of two casts, with their count from a to e and from b to f, are one multiset; no other process has any.
fn same_lists(c: u32, u: &[u32], a: usize, e: usize, v: &[u32], b: usize, f: usize) -> bool
    requires { At u.now a (rest_of (cast_effects c (drop a u.now))) e × At v.now b (rest_of (cast_effects c (drop b v.now))) f }
    ensures { result ≡ test (same_effects (value_or [] (cast_effects c (drop a u.now))) (value_or [] (cast_effects c (drop b v.now)))) }
{
    c != 11 || same_bag(u, a + 1, wide(u[a]), e, v, b + 1, wide(v[b]), f)
}

// The own words of the processes that begin at i and at j, with the same word, are the same.
fn same_own(u: &[u32], i: usize, p: Parts, v: &[u32], j: usize, q: Parts) -> bool
    requires { Places u.now i p × Places v.now j q × (get_or u.now i 0 ≡ get_or v.now j 0) }
    ensures { result ≡ same_own (own_in u.now i p) (own_in v.now j q) }
{
    let c = u[i];
    let counts = counts_of(c);
    same_run(u, i + 1, v, j + 1, counts.names)
        && same_several::<Term>(u, p.terms, p.types, v, q.terms, q.types, counts.terms)
        && same_several::<Type>(u, p.types, p.list, v, q.types, q.list, counts.types)
        && same_lists(c, u, p.list, p.next, v, q.list, q.next)
}

// The processes from a to e and from b to f are the same. `due` processes are still to come.
pub fn same_process(u: &[u32], a: usize, e: usize, v: &[u32], b: usize, f: usize) -> bool
    requires { At u.now a (rest_of (process_at (drop a u.now))) e × At v.now b (rest_of (process_at (drop b v.now))) f }
    ensures { result ≡ test (same_process (process_in u.now a) (process_in v.now b)) }
{
    let mut i = a;
    let mut j = b;
    let mut due = 1;
    while 0 < due {
        let p = parts_of(u, i);
        let q = parts_of(v, j);
        if u[i] != v[j] || !same_own(u, i, p, v, j, q) {
            return false;
        }
        due = due + process_parts(u[i]) - 1;
        i = p.next;
        j = q.next;
    }
    true
}
