// The line of names that a file begins with, and a line with its end.
ghost use Rattle.std.specs.Prelude.{◌≡◌, IfOk};
ghost use Rattle.texts.specs.Faults.{verdict};
ghost use Rattle.texts.specs.Headings.{read_names, read_end};
ghost use Rattle.texts.specs.Pieces.{before, after};

use super::cutting::split_once;
use super::fault::{Fault, LineFault};
use super::words::is;

// What stands behind the line of names that the text begins with: a line of just these names.
pub fn names<'a>(text: &'a [u8], wanted: &str) -> Result<&'a [u8], LineFault>
    ensures value { verdict result ≡ read_names wanted.now text.now }
    ensures behind { IfOk result (λ rest. rest.now ≡ after 10 text.now) }
{
    match split_once(text, b'\n') {
        Some((line, rest)) if is(line, wanted) => Ok(rest),
        _ => Err(Fault::NamesDiffer.whole_line()),
    }
}

// The line that the text begins with, which has its end, and what stands behind it.
pub fn ended(text: &[u8]) -> Result<(&[u8], &[u8]), LineFault>
    ensures value { verdict result ≡ read_end text.now }
    ensures parts { IfOk result (λ p. (p.0.now ≡ before 10 text.now) × (p.1.now ≡ after 10 text.now)) }
{
    split_once(text, b'\n').ok_or(Fault::WrongCount.whole_line())
}
