// What a request's number says: whose slices are of bytes, which function asks a question and which judges a listing, how many slices and
// numbers follow, and how many bytes a slice has. The numbers are those of docs/CALLS.md.
#![tactic(auto)]

ghost use Rattle.std.specs.Prelude.{◌≡◌, ◌^◌, ◌≤◌, ◌<◌};
ghost use Rattle.octets.specs.Octets.{word_at};
ghost use Rattle.functions.specs.Functions.{on_bytes, asks, judges, slices_of, numbers_of, slice_size};

// The functions' numbers. Each stays its function's own.
#[derive(Drop)]
pub struct Function {}

impl Function {
    pub const READ: u32 = 1;

    pub const ACCEPT: u32 = 2;

    pub const TRANSLATE: u32 = 3;

    pub const REHEARSE: u32 = 4;

    pub const TRANSLATE_BYTES: u32 = 5;

    pub const REHEARSE_BYTES: u32 = 6;

    pub const WRITE_SUMMARY: u32 = 7;

    pub const ASK: u32 = 8;

    pub const SUMMARY_BYTES: u32 = 9;

    pub const ASK_BYTES: u32 = 10;

    pub const JUDGE: u32 = 11;

    pub const JUDGE_BYTES: u32 = 12;

    pub const CHECK: u32 = 13;

    pub const CHECK_BYTES: u32 = 14;

    pub const APART: u32 = 15;

    pub const APART_BYTES: u32 = 16;
}

// What is read at most.
#[derive(Drop)]
struct Most {}

impl Most {
    // Behind the summary of a question: a party, a row and a step.
    const NUMBERS: usize = 3;
}

// The function's slices are of bytes.
pub fn on_bytes(function: u32) -> bool
    ensures { result ≡ on_bytes function }
{
    if function < Function::TRANSLATE_BYTES {
        return false;
    }
    if function < Function::WRITE_SUMMARY {
        return true;
    }
    if function == Function::JUDGE {
        return false;
    }
    if function == Function::CHECK {
        return false;
    }
    if function == Function::APART {
        return false;
    }
    Function::ASK < function
}

// The function answers a question: numbers stand behind its slice.
pub fn is_question(function: u32) -> bool
    ensures { result ≡ asks function }
{
    if function == Function::ASK {
        return true;
    }
    function == Function::ASK_BYTES
}

// The function judges a listing: a party's number stands behind its slices.
pub fn is_judgement(function: u32) -> bool
    ensures { result ≡ judges function }
{
    if function == Function::JUDGE {
        return true;
    }
    function == Function::JUDGE_BYTES
}

// How many bytes a slice of a function has: by its count, the word that the first four bytes make, which is of words or of bytes.
pub fn slice_size(function: u32, head: &[u8; 4]) -> usize
    ensures { (result ≡ slice_size function (word_at head.now 0)) × (result < 2 ^ 34) }
{
    let count = words::wide(octets::word(head[0], head[1], head[2], head[3]));
    if on_bytes(function) {
        return count;
    }
    4 * count
}

// How many slices a function has: a reading, a question and the test of bound names one, a rehearsal three, the others two.
pub fn slices(function: u32) -> usize
    ensures { result ≡ slices_of function }
{
    if function < Function::TRANSLATE {
        return 1;
    }
    if is_question(function) {
        return 1;
    }
    if function == Function::REHEARSE {
        return 3;
    }
    if function == Function::REHEARSE_BYTES {
        return 3;
    }
    if Function::CHECK_BYTES < function {
        return 1;
    }
    2
}

// How many numbers a function has behind its slices: a question three, a judgement one.
pub fn numbers(function: u32) -> usize
    ensures { (result ≡ numbers_of function) × (result ≤ 3) }
{
    if is_question(function) {
        return Most::NUMBERS;
    }
    if is_judgement(function) {
        return 1;
    }
    0
}
