// The book as the other rooms read it: refusals, the words' layout, limits, codes, and a function for each word. Each answers
// exactly what specs/Layout.antt gives its name, of a book whose header is right and a number within its section; `Section::of` and
// `Kind::of` answer a section's and a kind's line (specs/Sections.antt, specs/Kinds.antt), `entry` and `first_part` a row of a valid
// book.
#![tactic(auto)]

ghost use Rattle.std.specs.Prelude.{◌≡◌, ◌+◌, ◌^◌, ◌≤◌, ◌<◌};
ghost use Rattle.book.specs.Headed.{Headed};
ghost use Rattle.terms.specs.Kind.{is_half, other_half};
ghost use Rattle.book.specs.Kinds.{OfKind};
ghost use Rattle.book.specs.Sections.{OfSection};
ghost use Rattle.book.specs.Said.{refusal_says, told_says};
ghost use Rattle.book.specs.Span.{entry as entry_at, Span};
ghost use Rattle.book.specs.Valid.{Valid};
ghost use Rattle.book.specs.Layout.{sections, width, rows as rows_of, parties as parties_of, steps as steps_of, pool as pool_of, counted, field as field_at, pooled as pooled_at};
ghost use Rattle.book.specs.Layout.{kind, tag, row_first, row_count, name, party_first, party_count, mark, sender, receiver, step_first, step_count};

use words::wide;

// Why a book, a schedule, a buffer, a summary, a question, a party's number or a derivation is refused: document 01's table and document 02's
// lines, a case a line.
#[derive(Drop)]
pub enum Refusal {
    Short,
    Count(u32),
    Offset(u32),
    Row(u32),
    Size(u32),
    Repeat(u32),
    Party(u32),
    Step(u32),
    Sum,
    Taken(u32, u32),
    Move(u32),
    Room(usize),
    Summary(usize),
    Question(u32),
    Maker(u32, u32),
    Nobody(u32),
    Large(u32),
}

// A refusal as it is told: its number with one value, or with two.
#[derive(Drop)]
pub enum Told {
    One(u64, u64),
    Two(u64, u64, u64),
}

// What stands against making an atom: it is taken, or its sender makes nothing.
#[derive(Clone, Copy)]
pub enum Against {
    Taken,
    Maker,
}

// Where a party's walk through its steps stops, at the first atom that can't be made: what stands against it, with the step and the
// atom's row.
#[derive(Clone, Copy)]
pub struct Stop {
    pub against: Against,
    pub step: u32,
    pub row: u32,
}

// A party's mark, if it may make atoms; 0 if it may not.
#[derive(Drop)]
pub struct Mark {}

impl Mark {
    pub const MAKES: u32 = 1;
}

// Where a book's words lie: the words of the header, the number of sections, and the words of a record of each.
#[derive(Drop)]
pub struct Layout {}

impl Layout {
    pub const HEADER: u32 = 8;

    pub const SECTIONS: u32 = 4;

    pub const ROW: u32 = 4;

    pub const PARTY: u32 = 4;

    pub const STEP: u32 = 4;

    pub const POOL: u32 = 1;

    // The longest book.
    pub const LONGEST: usize = (Layout::HEADER
        + Layout::ROW * Limit::ROWS
        + Layout::PARTY * Limit::PARTIES
        + Layout::STEP * Limit::STEPS
        + Layout::POOL * Limit::POOL) as usize;

    // What is loaded of a book, as words and as bytes: a word more than the longest has, so that a longer one is seen to be too long.
    pub const LOADED: usize = Layout::LONGEST + 1;

    pub const LOADED_BYTES: usize = 4 * Layout::LOADED;
}

// The sections, and what each asks of its count: the words of a record, the least count and the largest.
#[derive(Drop)]
pub struct Section {
    pub width: u32,
    pub least: u32,
    pub most: u32,
}

impl Section {
    pub const ROWS: u32 = 0;

    pub const PARTIES: u32 = 1;

    pub const STEPS: u32 = 2;

    // A section's line.
    pub fn of(section: u32) -> Section
        requires { section < sections }
        ensures { OfSection section result }
    {
        match section {
            Section::ROWS => Section {
                width: Layout::ROW,
                least: 1,
                most: Limit::ROWS,
            },
            Section::PARTIES => Section {
                width: Layout::PARTY,
                least: 1,
                most: Limit::PARTIES,
            },
            Section::STEPS => Section {
                width: Layout::STEP,
                least: 0,
                most: Limit::STEPS,
            },
            _ => Section {
                width: Layout::POOL,
                least: 0,
                most: Limit::POOL,
            },
        }
    }
}

// The kinds of rows, and what each asks of its rows and says of them: what it adds to its parts' sizes, the fewest and the most parts,
// the largest tag, the word that an image of it begins with.
#[derive(Drop)]
pub struct Kind {
    pub size: u32,
    pub fewest: usize,
    pub most: usize,
    pub tag: u32,
    pub code: u32,
}

impl Kind {
    pub const ATOM: u32 = 0;

    pub const OPERATION: u32 = 1;

    pub const CIPHER: u32 = 2;

    pub const PUBLIC: u32 = 3;

    pub const PRIVATE: u32 = 4;

    // A kind's line. Any other number has the private half's.
    pub fn of(kind: u32) -> Kind
        ensures { OfKind kind result }
    {
        match kind {
            Kind::ATOM => Kind {
                size: 2,
                fewest: 0,
                most: 0,
                tag: 0,
                code: ImageCode::ITSELF,
            },
            Kind::OPERATION => Kind {
                size: 3,
                fewest: 0,
                most: Limit::ARGUMENTS,
                tag: Limit::TAG,
                code: ImageCode::OPERATION,
            },
            Kind::CIPHER => Kind {
                size: 2,
                fewest: 1,
                most: Limit::PARTS,
                tag: 0,
                code: ImageCode::CIPHER,
            },
            Kind::PUBLIC => Kind {
                size: 1,
                fewest: 1,
                most: 1,
                tag: 0,
                code: ImageCode::PUBLIC,
            },
            _ => Kind {
                size: 1,
                fewest: 1,
                most: 1,
                tag: 0,
                code: ImageCode::PRIVATE,
            },
        }
    }
}

// The kind is a half's.
pub fn is_half(kind: u32) -> bool
    ensures { result ≡ is_half kind }
{
    Kind::PUBLIC <= kind
}

// The kind of the other half.
pub fn other_half(kind: u32) -> u32
    ensures { result ≡ other_half kind }
{
    if kind == Kind::PUBLIC {
        Kind::PRIVATE
    } else {
        Kind::PUBLIC
    }
}

// The events' codes.
#[derive(Drop)]
pub struct Code {}

impl Code {
    pub const NEW: u32 = 1;

    pub const SEND: u32 = 2;

    pub const RECEIVE: u32 = 3;

    pub const CHECK: u32 = 4;

    pub const OPEN: u32 = 5;

    pub const END: u32 = 6;
}

// What END tells of each stored row: the row, its placeholder and the step. No row is stored twice.
#[derive(Drop)]
pub struct Triple {}

impl Triple {
    pub const WORDS: usize = 3;

    // The words of all that a party can store.
    pub const ALL: usize = Triple::WORDS * (Limit::ROWS as usize);
}

// The images' codes.
#[derive(Drop)]
pub struct ImageCode {}

impl ImageCode {
    pub const ITSELF: u32 = 0;

    pub const PLACEHOLDER: u32 = 1;

    pub const OPERATION: u32 = 2;

    pub const CIPHER: u32 = 3;

    pub const PUBLIC: u32 = 4;

    pub const PRIVATE: u32 = 5;
}

// The largest counts, sizes and tags.
#[derive(Drop)]
pub struct Limit {}

impl Limit {
    pub const ROWS: u32 = 1024;

    pub const PARTIES: u32 = 16;

    pub const STEPS: u32 = 64;

    pub const POOL: u32 = 8192;

    pub const SIZE: u32 = 1024;

    pub const TAG: u32 = 65535;

    pub const ARGUMENTS: usize = 8;

    pub const PARTS: usize = 9;

    pub const KNOWN: usize = 256;

    pub const MESSAGES: usize = 8;

    pub const MOVES: usize = 4096;
}

// A number for each row that a book can have.
pub type ByRow = [u32; 1024];

// The header's counts.
pub fn rows(book: &[u32]) -> u32
    requires { Headed book.now }
    ensures { result ≡ rows_of book.now }
{
    book[0]
}

pub fn parties(book: &[u32]) -> u32
    requires { Headed book.now }
    ensures { result ≡ parties_of book.now }
{
    book[2]
}

pub fn steps(book: &[u32]) -> u32
    requires { Headed book.now }
    ensures { result ≡ steps_of book.now }
{
    book[4]
}

pub fn pool(book: &[u32]) -> usize
    requires { Headed book.now }
    ensures { result ≡ pool_of book.now }
{
    wide(book[6])
}

// Word k of record i of a section: a row's, a party's or a step's.
pub fn field(book: &[u32], section: u32, i: u32, k: usize) -> u32
    requires { Headed book.now × (section < 3) × (i < counted book.now section) × (k < width section) }
    ensures { result ≡ field_at book.now section i k }
{
    let record = book[wide(2 * section + 1)] + Section::of(section).width * i;
    book[wide(record) + k]
}

// Word j of the list that begins at `first` in the pool.
pub fn pooled(book: &[u32], first: usize, j: usize) -> u32
    requires { Headed book.now × (first + j < pool_of book.now) }
    ensures { result ≡ pooled_at book.now first j }
{
    book[wide(book[7]) + first + j]
}

// A row's record: kind, tag, first, count.
pub fn row_kind(book: &[u32], row: u32) -> u32
    requires { Headed book.now × (row < rows_of book.now) }
    ensures { result ≡ kind book.now row }
{
    field(book, Section::ROWS, row, 0)
}

pub fn row_tag(book: &[u32], row: u32) -> u32
    requires { Headed book.now × (row < rows_of book.now) }
    ensures { result ≡ tag book.now row }
{
    field(book, Section::ROWS, row, 1)
}

pub fn row_first(book: &[u32], row: u32) -> usize
    requires { Headed book.now × (row < rows_of book.now) }
    ensures { (result ≡ row_first book.now row) × (result < 2 ^ 32) }
{
    wide(field(book, Section::ROWS, row, 2))
}

pub fn row_count(book: &[u32], row: u32) -> usize
    requires { Headed book.now × (row < rows_of book.now) }
    ensures { (result ≡ row_count book.now row) × (result < 2 ^ 32) }
{
    wide(field(book, Section::ROWS, row, 3))
}

// A party's record: name, first, count, mark.
pub fn party_name(book: &[u32], party: u32) -> u32
    requires { Headed book.now × (party < parties_of book.now) }
    ensures { result ≡ name book.now party }
{
    field(book, Section::PARTIES, party, 0)
}

pub fn party_first(book: &[u32], party: u32) -> usize
    requires { Headed book.now × (party < parties_of book.now) }
    ensures { (result ≡ party_first book.now party) × (result < 2 ^ 32) }
{
    wide(field(book, Section::PARTIES, party, 1))
}

pub fn party_count(book: &[u32], party: u32) -> usize
    requires { Headed book.now × (party < parties_of book.now) }
    ensures { (result ≡ party_count book.now party) × (result < 2 ^ 32) }
{
    wide(field(book, Section::PARTIES, party, 2))
}

pub fn party_mark(book: &[u32], party: u32) -> u32
    requires { Headed book.now × (party < parties_of book.now) }
    ensures { result ≡ mark book.now party }
{
    field(book, Section::PARTIES, party, 3)
}

// A step's record: sender, receiver, first, count.
pub fn step_sender(book: &[u32], step: u32) -> u32
    requires { Headed book.now × (step < steps_of book.now) }
    ensures { result ≡ sender book.now step }
{
    field(book, Section::STEPS, step, 0)
}

pub fn step_receiver(book: &[u32], step: u32) -> u32
    requires { Headed book.now × (step < steps_of book.now) }
    ensures { result ≡ receiver book.now step }
{
    field(book, Section::STEPS, step, 1)
}

pub fn step_first(book: &[u32], step: u32) -> usize
    requires { Headed book.now × (step < steps_of book.now) }
    ensures { (result ≡ step_first book.now step) × (result < 2 ^ 32) }
{
    wide(field(book, Section::STEPS, step, 2))
}

pub fn step_count(book: &[u32], step: u32) -> usize
    requires { Headed book.now × (step < steps_of book.now) }
    ensures { (result ≡ step_count book.now step) × (result < 2 ^ 32) }
{
    wide(field(book, Section::STEPS, step, 3))
}

// The row that stands at a place of the pool, of a list that goes on there.
pub fn entry(book: &[u32], first: usize, n: usize, bound: u32) -> u32
    requires { Valid book.now × Span book.now bound first n × (0 < n) }
    ensures { (result ≡ entry_at book.now first) × (result < bound) }
{
    pooled(book, first, 0)
}

// A row's first part: a cipher's key, a half's part.
pub fn first_part(book: &[u32], row: u32) -> u32
    requires { Valid book.now × (row < rows_of book.now) × (2 ≤ kind book.now row) }
    ensures { (result ≡ entry_at book.now (row_first book.now row)) × (result < row) }
{
    pooled(book, row_first(book, row), 0)
}

// The number and the values of a refusal.
pub fn told_of(refusal: Refusal) -> Told
    ensures { told_says result ≡ refusal_says refusal }
{
    match refusal {
        Refusal::Short => Told::One(1, 0),
        Refusal::Count(word) => Told::One(2, word as u64),
        Refusal::Offset(word) => Told::One(3, word as u64),
        Refusal::Row(row) => Told::One(4, row as u64),
        Refusal::Size(row) => Told::One(5, row as u64),
        Refusal::Repeat(row) => Told::One(6, row as u64),
        Refusal::Party(party) => Told::One(7, party as u64),
        Refusal::Step(step) => Told::One(8, step as u64),
        Refusal::Sum => Told::One(9, 0),
        Refusal::Taken(step, row) => Told::Two(10, step as u64, row as u64),
        Refusal::Move(place) => Told::One(11, place as u64),
        Refusal::Room(needed) => Told::One(12, needed as u64),
        Refusal::Summary(length) => Told::One(20, length as u64),
        Refusal::Question(number) => Told::One(21, number as u64),
        Refusal::Maker(step, row) => Told::Two(13, step as u64, row as u64),
        Refusal::Nobody(party) => Told::One(22, party as u64),
        Refusal::Large(count) => Told::One(24, count as u64),
    }
}
