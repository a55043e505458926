// A rehearsal whose text goes to the caller's buffer.
ghost use Rattle.std.specs.Prelude.{◌≡◌, ◌^◌, ◌<◌, IfOk};
ghost use Rattle.terms.specs.Buffers.{put_answer, put_after};
ghost use Rattle.capi.specs.Rehearsing.{answer_of, Rehearsing};

use crate::NO_MEMORY;
use rehearsal::rehearsing::printed;
use std::alloc::Global;
use terms::refusal::Refusal;

// Lays the text at the start of `out`, if that has room for all of it, and says how long it is.
fn lay(text: &[u8], out: &mut [u8]) -> Result<usize, Refusal>
    ensures answer { result ≡ put_answer text.now out.old }
    ensures after { out.new ≡ put_after text.now out.old }
    ensures bound { IfOk result (λ n. n < 2 ^ 63) }
{
    let n = text.len();
    if out.len() < n {
        return Err(Refusal::BufferTooShort);
    }
    out[..n].copy_from_slice(text);
    Ok(n)
}

// A length as it is, or the refusal's number below zero.
fn answer(laid: Result<usize, Refusal>) -> i64
    requires { IfOk laid (λ n. n < 2 ^ 63) }
    ensures { result ≡ answer_of laid }
{
    match laid {
        Ok(n) => n as i64,
        Err(refusal) => -i64::from(u8::from(refusal)),
    }
}

#[unsafe(no_mangle)]
pub extern "C" fn falldate_rehearse(
    heap: Global,
    sheet: &[u8],
    script: &[u8],
    out: &mut [u8],
) -> i64
    ensures { Rehearsing sheet.now script.now out.old out.new result }
{
    match printed(heap, sheet, script) {
        Ok(text) => answer(lay(text.as_bytes(), out)),
        Err(_) => NO_MEMORY,
    }
}
