// A process by its pieces: where its terms, its types, its effects and the process in it stand.
#![tactic(auto)]

ghost use Rattle.std.specs.Prelude.{◌≡◌, ◌+◌, ◌-◌, ◌≤◌, ◌<◌, length, drop, get_or};
ghost use Rattle.typing.specs.Reading.{process_at};
ghost use Rattle.shapes.specs.Shape.{Reads};
ghost use Rattle.pieces.specs.Piece.{Pieced};

use parts::parts_of;
use spans::{term_end, type_end};
use words::wide;

// The places of the first and the second term, the first and the second type, the effects with their number, 0 where it is no cast, and
// the process in it. A place where nothing is asked for is any number.
// Kept: no options. Who asks knows from the process's word what it has, so each would only be unwrapped.
#[derive(Clone, Copy)]
pub struct Pieces {
    pub m: usize,
    pub n: usize,
    pub t: usize,
    pub u: usize,
    pub f: usize,
    pub k: usize,
    pub p: usize,
}

// The pieces of the process at s.
pub fn pieces_of(w: &[u32], s: usize) -> Pieces
    requires { Reads process_at w.now s }
    ensures { Pieced w.now s result }
{
    let parts = parts_of(w, s);
    let n = term_end(w, parts.terms).unwrap_or(parts.terms);
    let u = type_end(w, parts.types).unwrap_or(parts.types);
    let k = if w[s] == 11 { wide(w[parts.list]) } else { 0 };
    Pieces {
        m: parts.terms,
        n,
        t: parts.types,
        u,
        f: parts.list + 1,
        k,
        p: parts.next,
    }
}
