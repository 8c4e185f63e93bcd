// Whether an asked process keeps its bound names apart: all its binders are different from each other and from the environment's names.
#![tactic(auto)]

ghost use Rattle.std.specs.Prelude.{◌≡◌, ◌+◌, ◌-◌, ◌≤◌, ◌<◌, ltb, length, drop, take, get_or};
ghost use Rattle.typing.specs.Apart.{among, keeps_apart};
ghost use Rattle.typing.specs.Reading.{environment_at};
ghost use Rattle.apart.specs.Bound.{process_names, times_in, binders_at, names_in, name_apart, all_apart, Placed};

use spans::{environment_end, process_end, process_own, process_parts, type_end};

// How many names a process with this first word binds.
fn process_names(c: u32) -> usize
    ensures { (result ≡ process_names c) × (result ≤ 2) }
{
    match c {
        6 => 2,
        1 | 3 | 7 | 8 | 11 => 1,
        _ => 0,
    }
}

// The names that the process at i binds, behind its first word.
fn names_of(w: &[u32], i: usize) -> &[u32]
    requires { i + process_names (get_or w.now i 0) < length w.now }
    ensures { result.now ≡ take (process_names (get_or w.now i 0)) (drop (i + 1) w.now) }
{
    let first = i + 1;
    &w[first..first + process_names(w[i])]
}

// How many of the names that the process at i binds are x.
fn same_names(w: &[u32], i: usize, x: u32) -> usize
    requires { i + process_names (get_or w.now i 0) < length w.now }
    ensures { (result ≡ times_in x (take (process_names (get_or w.now i 0)) (drop (i + 1) w.now))) × (result ≤ 2) }
{
    names_of(w, i).iter().filter(|y| **y == x).count()
}

// The process that begins at p binds x more than once.
fn bound_twice(w: &[u32], p: usize, end: usize, x: u32) -> bool
    requires { Placed w.now p end }
    ensures { result ≡ ltb 1 (times_in x (binders_at w.now p)) }
{
    let mut i = p;
    let mut due = 1;
    let mut n = 0;
    while 0 < due {
        let own = process_own(w, i).unwrap();
        let more = same_names(w, i, x);
        if 1 < n + more {
            return true;
        }
        n += more;
        due = due + process_parts(w[i]) - 1;
        i = own;
    }
    false
}

// The environment at the beginning has an entry for x.
fn in_environment(w: &[u32], p: usize, end: usize, x: u32) -> bool
    requires { Placed w.now p end }
    ensures { result ≡ among x (names_in (environment_at w.now)) }
{
    let mut i = 0;
    while w[i] == 2 {
        if w[i + 1] == x {
            return true;
        }
        i = type_end(w, i + 2).unwrap();
    }
    false
}

// The name is bound once, and no name of the environment's.
fn name_apart(w: &[u32], p: usize, end: usize, x: u32) -> bool
    requires { Placed w.now p end }
    ensures { result ≡ name_apart (names_in (environment_at w.now)) (binders_at w.now p) x }
{
    !in_environment(w, p, end, x) && !bound_twice(w, p, end, x)
}

// The names that the process at i binds are apart.
fn names_apart(w: &[u32], p: usize, end: usize, i: usize) -> bool
    requires { Placed w.now p end × (i + process_names (get_or w.now i 0) < length w.now) }
    ensures { result ≡ all_apart (names_in (environment_at w.now)) (binders_at w.now p) (take (process_names (get_or w.now i 0)) (drop (i + 1) w.now)) }
{
    names_of(w, i).iter().all(|x| name_apart(w, p, end, *x))
}

// All names that the process at p binds are apart.
fn all_apart(w: &[u32], p: usize, end: usize) -> bool
    requires { Placed w.now p end }
    ensures { result ≡ all_apart (names_in (environment_at w.now)) (binders_at w.now p) (binders_at w.now p) }
{
    let mut i = p;
    let mut due = 1;
    while 0 < due {
        let own = process_own(w, i).unwrap();
        if !names_apart(w, p, end, i) {
            return false;
        }
        due = due + process_parts(w[i]) - 1;
        i = own;
    }
    true
}

// What is asked is an environment, and behind it a process whose binders are different from each other and from the environment's
// names.
pub fn keeps_apart(asked: &[u32]) -> bool
    ensures { result ≡ keeps_apart asked.now }
{
    let Some(p) = environment_end(asked, 0) else {
        return false;
    };
    let Some(end) = process_end(asked, p) else {
        return false;
    };
    end == asked.len() && all_apart(asked, p, end)
}
