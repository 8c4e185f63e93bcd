// The faces on bytes for callers in other languages. `nghiralum_translate`, `nghiralum_rehearse`, `nghiralum_summary`, `nghiralum_ask`,
// `nghiralum_judge`, `nghiralum_check` and `nghiralum_apart` answer for any bytes what the faces on words answer for the words that they
// make, in one number, and leave the same words as bytes; a book, a schedule, a summary, a listing, what is asked or a derivation that
// makes no whole words is refused before all else.
#![tactic(auto)]

ghost use Rattle.std.specs.Prelude.{◌≡◌};
ghost use Rattle.editor.specs.Bytes.{translation_bytes, rehearsal_bytes, summary_bytes, asked_bytes, judged_bytes};
ghost use Rattle.examining.specs.Checked.{checked_bytes, apart_bytes};
ghost use Rattle.packing.specs.Packed.{pack as pack_of, capped as capped_of, returned, packed, packed_capped};

use editor::{ask, judge, rehearse, summarize, translate};
use examining::{apart, check};
use packing::{pack, pack_checked, pack_reply, pack_verdict};

// The translation for callers in other languages.
#[unsafe(no_mangle)]
pub extern "C" fn nghiralum_translate(book: &[u8], out: &mut [u8]) -> u64
    ensures { returned result out.new ≡ packed (translation_bytes book.now out.old) }
{
    let answer = translate(book, out);
    pack(answer)
}

// The summary for them.
#[unsafe(no_mangle)]
pub extern "C" fn nghiralum_summary(book: &[u8], out: &mut [u8]) -> u64
    ensures { returned result out.new ≡ packed (summary_bytes book.now out.old) }
{
    let answer = summarize(book, out);
    pack(answer)
}

// The rehearsal for them.
#[unsafe(no_mangle)]
pub extern "C" fn nghiralum_rehearse(book: &[u8], schedule: &[u8], out: &mut [u8]) -> u64
    ensures { returned result out.new ≡ packed (rehearsal_bytes book.now schedule.now out.old) }
{
    let answer = rehearse(book, schedule, out);
    pack(answer)
}

// The question for them.
#[unsafe(no_mangle)]
pub extern "C" fn nghiralum_ask(summary: &[u8], party: u32, row: u32, step: u32) -> u64
    ensures { result ≡ pack_of (capped_of (asked_bytes summary.now party row step)) }
{
    let reply = ask(summary, party, row, step);
    pack_reply(reply)
}

// The judge for them.
#[unsafe(no_mangle)]
pub extern "C" fn nghiralum_judge(book: &[u8], party: u32, listing: &[u8]) -> u64
    ensures { result ≡ pack_of (judged_bytes book.now party listing.now) }
{
    let verdict = judge(book, party, listing);
    pack_verdict(verdict)
}

// The check for them.
#[unsafe(no_mangle)]
pub extern "C" fn nghiralum_check(asked: &[u8], derivation: &[u8], room: &mut [u32]) -> u64
    ensures { returned result room.new ≡ packed_capped (checked_bytes asked.now derivation.now room.old) }
{
    let checked = check(asked, derivation, room);
    pack_checked(checked)
}

// And whether bound names are kept apart.
#[unsafe(no_mangle)]
pub extern "C" fn nghiralum_apart(asked: &[u8], room: &mut [u32]) -> u64
    ensures { returned result room.new ≡ packed_capped (apart_bytes asked.now room.old) }
{
    let reply = apart(asked, room);
    pack_reply(reply)
}
