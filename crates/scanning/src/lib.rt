// A party's program, gone through word by word: what each word is says `Mode`, from what the word before it is. By that a word is compared as
// it is, as a placeholder or as the first number of a run, and it hands out placeholders or none: the words are read as a row of slots
// (renaming/specs/Slot.antt).
#![tactic(auto)]

ghost use Rattle.std.specs.Prelude.{◌≡◌};
ghost use Rattle.scanning.specs.Scan.{more_pending, resumed, in_event, in_image, next_mode, class_of, run_of};

use book::{Code, ImageCode};
use words::{Place, wide};

// What the next word of a program is; with a number, so many images follow behind it.
#[derive(Clone, Copy)]
pub enum Mode {
    // An event's code.
    Event,
    // An image's code.
    Image(usize),
    // The last word of an event or of an image's head.
    Last(usize),
    // A step or a tag, with a number of images behind it.
    Tag(usize),
    // The number of images that come next.
    More(usize),
    // RECEIVE's step.
    Step,
    // A run's first placeholder, and its length.
    First(usize),
    Length(usize),
    // A placeholder.
    Use(usize),
    // OPEN's placeholder, with a run behind it.
    Opened,
    // END's rows, placeholders and steps.
    Row,
    Stored,
    Since,
}

// More images to come. There are never so many that they are not counted.
fn more(images: usize, n: u32) -> usize
    ensures { result ≡ more_pending images n }
{
    if images < Place::CAP {
        images + wide(n)
    } else {
        images
    }
}

// Behind a whole image, or a whole head of one: the next image, or the next event.
fn resume(images: usize) -> Mode
    ensures { result ≡ resumed images }
{
    match images {
        0 => Mode::Event,
        _ => Mode::Image(images - 1),
    }
}

// Behind an event's code.
fn in_event(code: u32) -> Mode
    ensures { result ≡ in_event code }
{
    match code {
        Code::NEW => Mode::Last(0),
        Code::SEND => Mode::Tag(0),
        Code::RECEIVE => Mode::Step,
        Code::CHECK => Mode::Use(1),
        Code::OPEN => Mode::Opened,
        _ => Mode::Since,
    }
}

// Behind an image's code, with so many images behind the image.
fn in_image(code: u32, images: usize) -> Mode
    ensures { result ≡ in_image code images }
{
    match code {
        ImageCode::ITSELF => Mode::Last(images),
        ImageCode::PLACEHOLDER => Mode::Use(images),
        ImageCode::OPERATION => Mode::Tag(images),
        ImageCode::CIPHER => Mode::More(more(images, 1)),
        _ => Mode::Image(images),
    }
}

impl Mode {
    // What the word behind this one is.
    pub fn next(self, word: u32) -> Mode
        ensures { result ≡ next_mode self word }
    {
        match self {
            Mode::Event => in_event(word),
            Mode::Image(images) => in_image(word, images),
            Mode::Last(images) | Mode::Length(images) | Mode::Use(images) => resume(images),
            Mode::Tag(images) => Mode::More(images),
            Mode::More(images) => resume(more(images, word)),
            Mode::Step => Mode::First(0),
            Mode::First(images) => Mode::Length(images),
            Mode::Opened => Mode::First(1),
            Mode::Row => Mode::Stored,
            Mode::Stored => Mode::Since,
            Mode::Since => Mode::Row,
        }
    }

    // How a word is compared: by what it is.
    pub fn class(self) -> Class
        ensures { result ≡ class_of self }
    {
        match self {
            Mode::Event
            | Mode::Image(_)
            | Mode::Last(_)
            | Mode::Tag(_)
            | Mode::More(_)
            | Mode::Step
            | Mode::Row
            | Mode::Since => Class::Plain,
            Mode::Use(_) | Mode::Opened | Mode::Stored => Class::Use,
            Mode::First(_) => Class::First,
            Mode::Length(_) => Class::Length,
        }
    }
}

// How a word is compared.
#[derive(Clone, Copy)]
pub enum Class {
    // As it is.
    Plain,
    // As a placeholder.
    Use,
    // As the first of a run.
    First,
    // As it is: a run's length.
    Length,
}

// How many placeholders are handed out with the word, behind which v stands.
pub fn run_of(mode: Mode, v: u32) -> u32
    ensures { result ≡ run_of mode v }
{
    match mode.class() {
        Class::First => v,
        _ => 0,
    }
}
