// What a party holds, an entry for each row: how an entry is coded is the business of `Entry` and `put_entry`. `start` answers what is known
// at the start, `buildable` and `can_open` whether a row, and a key's partner, can be built; the `write_..` functions write images.
// All of it is the meaning's own (translation/specs/Dictionary.antt), for a valid book. Where the partners' rows are is looked up in a
// table, which `partners` makes once for the book.
#![tactic(auto, using(book::specs::Headed::Laws::headed_rules))]

ghost use Rattle.std.specs.Prelude.{ℕ, true, ◌≡◌, map, ◌+◌, ◌-◌, ◌≤◌, ◌<◌, unwrap_or};
ghost use Rattle.words.specs.Overlay.{Wrote};
ghost use Rattle.terms.specs.Term.{partner};
ghost use Rattle.terms.specs.Image.{words};
ghost use Rattle.terms.specs.Table.{term};
ghost use Rattle.book.specs.Layout.{rows as rows_of, parties as parties_of, kind, known, table};
ghost use Rattle.book.specs.Valid.{Valid};
ghost use Rattle.translation.specs.Dictionary.{Held, is_held, start as start_of, buildable as buildable_from, image};
ghost use Rattle.translation.specs.Source.{since_of};
ghost use Rattle.holding.specs.Entry.{held_of, limit, step_limit};
ghost use Rattle.holding.specs.View.{row_of, view};
ghost use Rattle.book.specs.Span.{Span};
ghost use Rattle.holding.specs.AtRow.{image_at, images_at, head_words, entry_words};
ghost use Rattle.holding.specs.Partners.{PartnersBefore, Partners, PartnerRow};

use book::{
    ByRow, ImageCode, Kind, Limit, entry, first_part, is_half, other_half, party_count,
    party_first, pooled, row_count, row_first, row_kind, row_tag, rows,
};
use words::{narrow, put, put_each, wide};

// An entry of a dictionary, a word: what it says is `held_of`, specs/Entry.antt. From 2 to 63 nothing is written.
// Kept: an entry is coded in one word, 0 for none, so that a dictionary is 1,024 words that are handed on by value at each level.
#[derive(Drop)]
pub struct Entry {}

impl Entry {
    const GIVEN: u32 = 1;

    const MADE: u32 = Limit::STEPS;

    const STORED: u32 = 2 * Limit::STEPS;

    // The row is held.
    pub fn held(entry: u32) -> bool
        ensures { result ≡ is_held (held_of entry) }
    {
        entry != 0
    }

    // Not held.
    pub fn free() -> u32
        ensures { held_of result ≡ Held.free }
    {
        0
    }

    // Given at the start.
    pub fn given() -> u32
        ensures { held_of result ≡ Held.given }
    {
        Entry::GIVEN
    }

    // Made at the step.
    pub fn made(step: u32) -> u32
        requires { step < step_limit }
        ensures { held_of result ≡ Held.made step }
    {
        Entry::MADE + step
    }

    // Stored at the step, under the placeholder.
    pub fn stored(step: u32, place: u32) -> u32
        requires { (step < step_limit) × (place < limit) }
        ensures { held_of result ≡ Held.stored step place }
    {
        Entry::STORED + Limit::STEPS * place + step
    }

    // After how many steps the row is first held, if it is.
    pub fn since(entry: u32) -> Option<u32>
        ensures { (never : ℕ) → unwrap_or result never ≡ since_of never (held_of entry) }
    {
        if entry == 0 {
            None
        } else if entry < Entry::MADE {
            Some(0)
        } else {
            Some(entry % Limit::STEPS + 1)
        }
    }
}

// What a party holds at the start: each row that it knows, as given.
pub fn start(book: &[u32], party: u32) -> ByRow
    requires { Valid book.now × (party < parties_of book.now) }
    ensures { view book.now result ≡ start_of (map (term (table book.now)) (known book.now party)) }
{
    let first = party_first(book, party);
    let mut entries = [Entry::free(); 1024];
    for j in 0..party_count(book, party) {
        entries[wide(pooled(book, first, j))] = Entry::given();
    }
    entries
}

// The row is in the dictionary, or it isn't an atom and all its parts are buildable.
pub fn buildable(book: &[u32], entries: &ByRow, row: u32) -> bool
    requires { Valid book.now × (row < rows_of book.now) }
    ensures { result ≡ buildable_from (view book.now entries.now) (term (table book.now) row) }
{
    if Entry::held(entries[wide(row)]) {
        return true;
    }
    if row_kind(book, row) == Kind::ATOM {
        return false;
    }
    let first = row_first(book, row);
    let n = row_count(book, row);
    for j in 0..n {
        if !buildable(book, entries, entry(book, first + j, n - j, row)) {
            return false;
        }
    }
    true
}

// A half finds the other half of its part, where that stands before it, and each is entered as the other's partner.
fn join(book: &[u32], table: &mut ByRow, seen: &mut ByRow, row: u32)
    requires { Valid book.now × PartnersBefore book.now row table.old seen.old × (row < rows_of book.now) × (3 ≤ kind book.now row) }
    ensures { PartnersBefore book.now (row + 1) table.new seen.new }
{
    let part = first_part(book, row);
    let other = seen[wide(part)];
    table[wide(row)] = other;
    if other < rows(book) {
        table[wide(other)] = row;
    }
    seen[wide(part)] = row;
}

// The row of each row's partner, or the number of rows where that is no row, made once for the book. A row that is no half is its own partner.
// Kept: the number of rows stands for none, for the table is lent on to other rooms as words, and what was seen is copied into it as it stands.
pub fn partners(book: &[u32]) -> ByRow
    requires { Valid book.now }
    ensures { Partners book.now result }
{
    let n = rows(book);
    let mut table = [0u32; 1024];
    let mut seen = [n; 1024];
    for row in 0..n {
        if is_half(row_kind(book, row)) {
            join(book, &mut table, &mut seen, row);
        } else {
            table[wide(row)] = row;
        }
    }
    table
}

// The row of the key's partner, if that is a row.
fn partner_row(book: &[u32], partners: &ByRow, key: u32) -> Option<u32>
    requires { Valid book.now × Partners book.now partners.now × (key < rows_of book.now) }
    ensures { PartnerRow book.now key result }
{
    let other = partners[wide(key)];
    if other < rows(book) {
        Some(other)
    } else {
        None
    }
}

// The partner of the key is buildable. It need not be a row: then it is buildable from its part.
pub fn can_open(book: &[u32], partners: &ByRow, entries: &ByRow, key: u32) -> bool
    requires { Valid book.now × Partners book.now partners.now × (key < rows_of book.now) }
    ensures { result ≡ buildable_from (view book.now entries.now) (partner (term (table book.now) key)) }
{
    match partner_row(book, partners, key) {
        Some(other) => buildable(book, entries, other),
        None => {
            let part = first_part(book, key);
            buildable(book, entries, part)
        }
    }
}

// How the image of a row begins that is not held.
fn put_head(book: &[u32], row: u32, out: &mut [u32], at: usize) -> usize
    requires { Valid book.now × (row < rows_of book.now) }
    ensures { Wrote (head_words book.now row) out.old at out.new result }
{
    let kind = row_kind(book, row);
    let head = Kind::of(kind);
    match kind {
        Kind::ATOM => put_each(out, at, [head.code, row]),
        Kind::OPERATION => {
            let arguments = narrow(row_count(book, row));
            put_each(out, at, [head.code, row_tag(book, row), arguments])
        }
        Kind::CIPHER => put_each(out, at, [head.code, narrow(row_count(book, row) - 1)]),
        _ => put(out, at, head.code),
    }
}

// The image of a row that is held: itself, or its placeholder.
fn put_entry(row: u32, held: u32, out: &mut [u32], at: usize) -> usize
    requires { is_held (held_of held) ≡ true }
    ensures { Wrote (entry_words row (held_of held)) out.old at out.new result }
{
    if held < Entry::STORED {
        return put_each(out, at, [ImageCode::ITSELF, row]);
    }
    let place = (held - Entry::STORED) / Limit::STEPS;
    put_each(out, at, [ImageCode::PLACEHOLDER, place])
}

// The image of a row, in prefix words.
#[cycle(write_image_write_images)]
pub fn write_image(book: &[u32], entries: &ByRow, row: u32, out: &mut [u32], at: usize) -> usize
    requires { Valid book.now × (row < rows_of book.now) }
    ensures { Wrote (image_at book.now entries.now row) out.old at out.new result }
{
    let word = entries[wide(row)];
    if Entry::held(word) {
        return put_entry(row, word, out, at);
    }
    let next = put_head(book, row, out, at);
    write_images(
        book,
        entries,
        row,
        row_first(book, row),
        row_count(book, row),
        out,
        next,
    )
}

// The images of a list of rows below a bound.
// Kept: a recursion from a row to its list and back, as making and receiving are.
#[cycle(write_image_write_images)]
pub fn write_images(
    book: &[u32],
    entries: &ByRow,
    bound: u32,
    first: usize,
    left: usize,
    out: &mut [u32],
    at: usize,
) -> usize
    requires { Valid book.now × (bound ≤ rows_of book.now) × Span book.now bound first left }
    ensures { Wrote (images_at book.now entries.now first left) out.old at out.new result }
{
    if left == 0 {
        return at;
    }
    let next = write_image(book, entries, entry(book, first, left, bound), out, at);
    write_images(book, entries, bound, first + 1, left - 1, out, next)
}

// The image of the key's partner.
pub fn write_partner(
    book: &[u32],
    partners: &ByRow,
    entries: &ByRow,
    key: u32,
    out: &mut [u32],
    at: usize,
) -> usize
    requires { Valid book.now × Partners book.now partners.now × (key < rows_of book.now) }
    ensures { Wrote (words (row_of book.now) (image (view book.now entries.now) (partner (term (table book.now) key)))) out.old at out.new result }
{
    if let Some(other) = partner_row(book, partners, key) {
        return write_image(book, entries, other, out, at);
    }
    let side = row_kind(book, key);
    let turned = other_half(side);
    let half = Kind::of(turned);
    let next = put(out, at, half.code);
    write_image(book, entries, first_part(book, key), out, next)
}
