// The header of any words: of refusals 2 and 3 each has a function that finds the first section that breaks its rule. No index leaves the
// book and no sum wraps.
#![tactic(auto)]

ghost use Rattle.std.specs.Prelude.{◌≡◌, ◌+◌, ◌≤◌, length};
ghost use Rattle.book.specs.Layout.{header, sections};
ghost use Rattle.book.specs.Rules.{outside as outside_of, count_breaks, offset_breaks};
ghost use Rattle.header.specs.Counted.{Counted};
ghost use Rattle.header.specs.Scans.{Found};

use book::{Layout, Section};
use words::wide;

// x is below lo or above hi.
#[tactic(auto, unfolding(book::specs::Rules::outside))]
fn outside(lo: u32, hi: u32, x: u32) -> bool
    ensures { result ≡ outside_of lo hi x }
{
    !(lo..=hi).contains(&x)
}

// Refusal 2: the first section whose count is outside its bounds.
pub fn counts(book: &[u32]) -> Option<u32>
    requires { header ≤ length book.now }
    ensures { Found (count_breaks book.now) sections result }
{
    for i in 0..Layout::SECTIONS {
        let section = Section::of(i);
        if outside(section.least, section.most, book[wide(2 * i)]) {
            return Some(i);
        }
    }
    None
}

// Refusal 3: the first section that does not begin where it has to, or the number of sections if only the length is wrong. `next` is where
// section i has to begin.
pub fn offsets(book: &[u32]) -> Option<u32>
    requires { (header ≤ length book.now) × Counted book.now }
    ensures { Found (offset_breaks book.now) (sections + 1) result }
{
    let mut next = Layout::HEADER;
    for i in 0..Layout::SECTIONS {
        if book[wide(2 * i + 1)] != next {
            return Some(i);
        }
        let section = Section::of(i);
        next += section.width * book[wide(2 * i)];
    }
    if book.len() != wide(next) {
        return Some(Layout::SECTIONS);
    }
    None
}
