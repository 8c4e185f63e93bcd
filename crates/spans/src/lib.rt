// Where the things that words spell end: terms, effects, types, environments and processes of a derivation. Each sort is a type that is
// a `Thing`, which has its `end`; `several_end` passes over several. Terms, types and processes are `Nested` as well: words of their
// own, and their parts behind them. `nested_end` counts the parts that are still to come, so that no nesting takes any stack.
#![tactic(auto)]

ghost use Rattle.std.specs.Prelude.{◌≡◌, ℕ, ◌+◌, ◌≤◌, ◌<◌, List, length, drop};
ghost use Rattle.std.proofs.Math.Option.{Option};
ghost use Rattle.typing.specs.Reading.{term, effects, type_at, environment_at, process_at};
ghost use Rattle.spans.specs.Behind.{Ends, rest_of, term_own, term_parts, type_own, type_parts, process_own, process_parts};
ghost use Rattle.spans.specs.Behind.{nested_one, skip_term, skip_effect, skip_type, skip_environment, skip_process, skip_effects, times, skips};

use words::wide;

// A sort of things that words spell; `skip` passes over one of them.
pub trait Thing {
    ghost skip: { List ℕ → Option (List ℕ) };

    // The place behind the one that begins at a; none where none does.
    fn end(w: &[u32], a: usize) -> Option<usize>
        ensures { Ends w.now a (skip (drop a w.now)) result };
}

// A sort of things that have words of their own, and their parts behind them.
pub trait Nested {
    ghost own: { List ℕ → Option (List ℕ) };

    ghost parts: { ℕ → ℕ };

    // The place behind the own words of the one that begins at i; none where none does.
    fn own(w: &[u32], i: usize) -> Option<usize>
        requires { i < length w.now }
        ensures { Ends w.now (i + 1) (own (drop i w.now)) result };

    // How many parts the one with this first word has.
    fn parts(c: u32) -> usize
        ensures { (result ≡ parts c) × (result ≤ 2) };
}

// The sort of terms.
#[derive(Drop)]
pub struct Term {}

// The sort of effects.
#[derive(Drop)]
pub struct Effect {}

// The sort of types.
#[derive(Drop)]
pub struct Type {}

// The sort of environments.
#[derive(Drop)]
pub struct Environment {}

// The sort of processes.
#[derive(Drop)]
pub struct Process {}

// The place behind the thing with parts that begins at a; none where none does. `due` such things are still to come.
pub fn nested_end<T: Nested>(w: &[u32], a: usize) -> Option<usize>
    ensures { Ends w.now a (nested_one T.own T.parts (drop a w.now)) result }
{
    let mut i = a;
    let mut due = 1;
    while 0 < due {
        let first = *w.get(i)?;
        i = T::own(w, i)?;
        due = due + T::parts(first) - 1;
    }
    Some(i)
}

// The place behind k things that begin at a; none where they are not there.
pub fn several_end<T: Thing>(w: &[u32], a: usize, k: usize) -> Option<usize>
    requires { (0 < a) × (a ≤ length w.now) }
    ensures { Ends w.now a (times T.skip k (drop a w.now)) result }
{
    let mut i = a;
    for _ in 0..k {
        i = T::end(w, i)?;
    }
    Some(i)
}

// The place behind a term's own words, two for a name or a variable, else one; none where none begins at i.
pub fn term_own(w: &[u32], i: usize) -> Option<usize>
    requires { i < length w.now }
    ensures { Ends w.now (i + 1) (term_own (drop i w.now)) result }
{
    match w[i] {
        1 | 4 if 2 <= w.len() - i => Some(i + 2),
        2 | 3 => Some(i + 1),
        _ => None,
    }
}

// How many terms a term with this first word has as its parts.
pub fn term_parts(c: u32) -> usize
    ensures { (result ≡ term_parts c) × (result ≤ 2) }
{
    match c {
        2 | 3 => 2,
        _ => 0,
    }
}

impl Nested for Term {
    ghost own = { term_own };

    ghost parts = { term_parts };

    fn own(w: &[u32], i: usize) -> Option<usize> {
        term_own(w, i)
    }

    fn parts(c: u32) -> usize {
        term_parts(c)
    }
}

// The place behind the term that begins at a; none where none does.
pub fn term_end(w: &[u32], a: usize) -> Option<usize>
    ensures { Ends w.now a (rest_of (term (drop a w.now))) result }
{
    nested_end::<Term>(w, a)
}

impl Thing for Term {
    ghost skip = { skip_term };

    fn end(w: &[u32], a: usize) -> Option<usize> {
        term_end(w, a)
    }
}

impl Thing for Effect {
    ghost skip = { skip_effect };

    fn end(w: &[u32], a: usize) -> Option<usize> {
        match *w.get(a)? {
            1 | 2 => term_end(w, a + 1),
            _ => None,
        }
    }
}

// The place behind k effects that begin at a; none where they are not there.
pub fn effects_end(w: &[u32], a: usize, k: usize) -> Option<usize>
    requires { (0 < a) × (a ≤ length w.now) }
    ensures { Ends w.now a (rest_of (effects k (drop a w.now))) result }
{
    several_end::<Effect>(w, a, k)
}

// The place behind a count and so many effects; none where they are not there.
pub fn list_end(w: &[u32], a: usize) -> Option<usize>
    requires { (0 < a) × (a ≤ length w.now) }
    ensures { Ends w.now a (skip_effects (drop a w.now)) result }
{
    let count = *w.get(a)?;
    effects_end(w, a + 1, wide(count))
}

// The place behind a type's own words; none where none begins at i.
pub fn type_own(w: &[u32], i: usize) -> Option<usize>
    requires { i < length w.now }
    ensures { Ends w.now (i + 1) (type_own (drop i w.now)) result }
{
    match w[i] {
        1..=4 => Some(i + 1),
        5 => list_end(w, i + 1),
        _ => None,
    }
}

// How many types a type with this first word has as its parts.
pub fn type_parts(c: u32) -> usize
    ensures { (result ≡ type_parts c) × (result ≤ 2) }
{
    match c {
        2 => 2,
        3 | 4 => 1,
        _ => 0,
    }
}

impl Nested for Type {
    ghost own = { type_own };

    ghost parts = { type_parts };

    fn own(w: &[u32], i: usize) -> Option<usize> {
        type_own(w, i)
    }

    fn parts(c: u32) -> usize {
        type_parts(c)
    }
}

// The place behind the type that begins at a; none where none does.
pub fn type_end(w: &[u32], a: usize) -> Option<usize>
    ensures { Ends w.now a (rest_of (type_at (drop a w.now))) result }
{
    nested_end::<Type>(w, a)
}

impl Thing for Type {
    ghost skip = { skip_type };

    fn end(w: &[u32], a: usize) -> Option<usize> {
        type_end(w, a)
    }
}

// The place behind the environment that begins at a; none where none does.
pub fn environment_end(w: &[u32], a: usize) -> Option<usize>
    ensures { Ends w.now a (rest_of (environment_at (drop a w.now))) result }
{
    let mut i = a;
    loop {
        match *w.get(i)? {
            1 => return Some(i + 1),
            2 => i = type_end(w, i + 2)?,
            _ => return None,
        }
    }
}

impl Thing for Environment {
    ghost skip = { skip_environment };

    fn end(w: &[u32], a: usize) -> Option<usize> {
        environment_end(w, a)
    }
}

// The place behind some names, terms and types; none where they are not there.
fn skip(w: &[u32], a: usize, names: usize, terms: usize, types: usize) -> Option<usize>
    requires { (0 < a) × (a ≤ length w.now) }
    ensures { Ends w.now a (skips names terms types (drop a w.now)) result }
{
    if w.len() - a < names {
        return None;
    }
    let end = several_end::<Term>(w, a + names, terms)?;
    several_end::<Type>(w, end, types)
}

// The place behind a process's own words; none where none begins at i.
pub fn process_own(w: &[u32], i: usize) -> Option<usize>
    requires { i < length w.now }
    ensures { Ends w.now (i + 1) (process_own (drop i w.now)) result }
{
    let a = i + 1;
    match w[i] {
        1 => skip(w, a, 1, 0, 1),
        2 | 12 => skip(w, a, 0, 2, 0),
        3 => skip(w, a, 1, 1, 1),
        4 | 5 => Some(a),
        6 => skip(w, a, 2, 1, 2),
        7 | 8 => skip(w, a, 1, 2, 1),
        9 | 10 => skip(w, a, 0, 1, 0),
        11 => {
            let end = skip(w, a, 1, 1, 0)?;
            list_end(w, end)
        }
        _ => None,
    }
}

// How many processes a process with this first word has as its parts.
pub fn process_parts(c: u32) -> usize
    ensures { (result ≡ process_parts c) × (result ≤ 2) }
{
    match c {
        4 => 2,
        5 => 0,
        _ => 1,
    }
}

impl Nested for Process {
    ghost own = { process_own };

    ghost parts = { process_parts };

    fn own(w: &[u32], i: usize) -> Option<usize> {
        process_own(w, i)
    }

    fn parts(c: u32) -> usize {
        process_parts(c)
    }
}

// The place behind the process that begins at a; none where none does.
pub fn process_end(w: &[u32], a: usize) -> Option<usize>
    ensures { Ends w.now a (rest_of (process_at (drop a w.now))) result }
{
    nested_end::<Process>(w, a)
}

impl Thing for Process {
    ghost skip = { skip_process };

    fn end(w: &[u32], a: usize) -> Option<usize> {
        process_end(w, a)
    }
}
