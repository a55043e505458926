// The listing: a heading, and a line for each call.
ghost use Rattle.std.specs.Prelude.{◌≡◌, ◌<◌, IfOk, string_bytes};
ghost use Rattle.rehearsal.specs.Listing.{shown_byte, got_text, entry_text, listing_text};

use crate::columns::Why;
use link::runs::Line;
use params::call::Call;
use std::alloc::{AllocError, Global};

const HEADING: &str = "step end do state got reason\n";

// The character for a delivered byte; what is no ASCII shows as `?`.
fn shown(byte: u8) -> char
    ensures value { result ≡ shown_byte byte }
    ensures bound { result < 128 }
{
    if byte < 128 { char::from(byte) } else { '?' }
}

// The text of delivered bytes, `-` for none. A text and no `Display`: that was tried, and what its loop has written is not found.
fn got_text(heap: Global, got: &[u8]) -> Result<String, AllocError>
    ensures { IfOk result (λ t. string_bytes t ≡ got_text got.now) }
{
    if got.is_empty() {
        return String::from_str(heap, "-");
    }
    let mut text = String::new(heap);
    for byte in got {
        text.push(shown(*byte))?;
    }
    Ok(text)
}

// The line of one call.
fn entry_text(
    heap: Global,
    step: usize,
    call: &Call<Vec<u8>>,
    line: &Line,
) -> Result<String, AllocError>
    ensures { IfOk result (λ t. string_bytes t ≡ entry_text step call.now line.now) }
{
    let end = call.end;
    let action = &call.action;
    let state = line.answer.status;
    let got = got_text(heap, line.got.as_slice())?;
    let why = Why::from(line.answer);
    format!(in heap; "{step} {end} {action} {state} {got} {why}\n")
}

// The listing of calls and of what each answered.
pub(crate) fn listing(
    heap: Global,
    calls: &[Call<Vec<u8>>],
    lines: &[Line],
) -> Result<String, AllocError>
    ensures { IfOk result (λ t. string_bytes t ≡ listing_text calls.now lines.now) }
{
    let mut text = String::from_str(heap, HEADING)?;
    for (i, (call, line)) in calls.iter().zip(lines.iter()).enumerate() {
        let entry = entry_text(heap, i + 1, call, line)?;
        text.push_str(entry.as_str())?;
    }
    Ok(text)
}
