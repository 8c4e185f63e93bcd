// Whether things that a line names are what a rule asks for: the same things (`same_at`, of any sort), types that are made of others
// (`same_as`), environments with an entry more (`extended`). Things at one place are the same; else they are compared. `behind` is where a
// thing that is there ends.
#![tactic(auto)]

ghost use Rattle.std.specs.Prelude.{◌≡◌, ◌∷◌, ◌+◌, ◌≤◌, drop};
ghost use Rattle.std.proofs.Math.Option.{some};
ghost use Rattle.typing.specs.Bag.{bag};
ghost use Rattle.typing.specs.Types.{Ty, same_type, same_environment, ◌⦂◌};
ghost use Rattle.typing.specs.Rule.{binding};
ghost use Rattle.typing.specs.Reading.{effects, type_at, environment_at};
ghost use Rattle.spans.specs.Behind.{At, rest_of};
ghost use Rattle.alike.specs.Same.{effects_in, type_in, environment_in, test};
ghost use Rattle.shapes.specs.Shape.{Reads, made_type, There, wrapped};

use alike::same_bag;
use changed::{By, same_changed};
use parts::Same;
use spans::{Environment, Type};
use words::wide;

// A type that a rule makes: of types by their places, or of effects by their place, their number and their end. A pair's second type is
// taken with a name bound in it.
#[derive(Drop)]
pub enum Made {
    Un,
    Same(usize),
    Channel(usize),
    Symkey(usize),
    Nonce(usize, usize, usize),
    Pair(usize, usize, u32),
}

// The place behind the thing of a sort that begins at a.
pub fn behind<T: Same>(w: &[u32], a: usize) -> usize
    requires { Reads T.read w.now a }
    ensures { At w.now a (rest_of (T.read (drop a w.now))) result }
{
    T::end(w, a).unwrap()
}

// The things of a sort that begin at a and at b are the same.
pub fn same_at<T: Same>(w: &[u32], a: usize, b: usize) -> bool
    requires { Reads T.read w.now a × Reads T.read w.now b }
    ensures { result ≡ test (T.same (T.value w.now a) (T.value w.now b)) }
{
    a == b || T::same(w, a, behind::<T>(w, a), w, b, behind::<T>(w, b))
}

// The type at a is the one at b, in brackets behind the word c: 3 is ch, 4 is symkey.
// Kept: the kind is the word itself, which the word at a is compared with; an enum would be turned back into it.
fn wraps(w: &[u32], a: usize, c: u32, b: usize) -> bool
    requires { Reads type_at w.now a × Reads type_at w.now b × (3 ≤ c) × (c ≤ 4) }
    ensures { result ≡ test (same_type (type_in w.now a) (wrapped c (type_in w.now b))) }
{
    w[a] == c && same_at::<Type>(w, a + 1, b)
}

// The type at a is a nonce with the k effects from b to e.
fn is_nonce(w: &[u32], a: usize, b: usize, k: usize, e: usize) -> bool
    requires { Reads type_at w.now a × (rest_of (effects k (drop b w.now)) ≡ some (drop e w.now)) }
    ensures { result ≡ test (same_type (type_in w.now a) (Ty.nonce (bag (effects_in w.now b k)))) }
{
    w[a] == 5 && same_bag(w, a + 2, wide(w[a + 1]), behind::<Type>(w, a), w, b, k, e)
}

// The type at a is a pair of the type at t and of the one at u with the name x bound.
fn is_pair(w: &[u32], a: usize, t: usize, u: usize, x: u32) -> bool
    requires { Reads type_at w.now a × Reads type_at w.now t × Reads type_at w.now u }
    ensures { result ≡ test (same_type (type_in w.now a) (Ty.pair (type_in w.now t) (binding x (type_in w.now u)))) }
{
    if w[a] != 2 || !same_at::<Type>(w, a + 1, t) {
        return false;
    }
    let second = behind::<Type>(w, a + 1);
    let e = behind::<Type>(w, second);
    let f = behind::<Type>(w, u);
    same_changed(w, second, e, u, f, By::Bind(x))
}

// The type at a is the one that is made.
pub fn same_as(w: &[u32], a: usize, made: Made) -> bool
    requires { Reads type_at w.now a × There w.now made }
    ensures { result ≡ test (same_type (type_in w.now a) (made_type w.now made)) }
{
    match made {
        Made::Un => w[a] == 1,
        Made::Same(t) => same_at::<Type>(w, a, t),
        Made::Channel(t) => wraps(w, a, 3, t),
        Made::Symkey(t) => wraps(w, a, 4, t),
        Made::Nonce(b, k, e) => is_nonce(w, a, b, k, e),
        Made::Pair(t, u, x) => is_pair(w, a, t, u, x),
    }
}

// The environment at a is the one at b with the entry x of the type that is made.
pub fn extended(w: &[u32], a: usize, x: u32, made: Made, b: usize) -> bool
    requires { Reads environment_at w.now a × There w.now made × Reads environment_at w.now b }
    ensures { result ≡ test (same_environment (environment_in w.now a) ((x ⦂ made_type w.now made) ∷ environment_in w.now b)) }
{
    if w[a] != 2 || w[a + 1] != x || !same_as(w, a + 2, made) {
        return false;
    }
    let older = behind::<Type>(w, a + 2);
    same_at::<Environment>(w, older, b)
}
