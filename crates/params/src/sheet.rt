// A sheet: the line of names, the initiator's line, the responder's line.
ghost use Rattle.std.specs.Prelude.{◌≡◌, IfOk, IfErr};
ghost use Rattle.texts.specs.Pieces.{after};
ghost use Rattle.params.specs.Calls.{giving};
ghost use Rattle.params.specs.Sheets.{read_row, read_rows, read_sheet};
ghost use Rattle.params.specs.FirstFault.{FirstFault};
ghost use Rattle.params.specs.Laws.{InRange};
ghost use Rattle.params.specs.Made.{both_values, sheet_values};
ghost use Rattle.params.specs.Writing.{sheet_text};

use super::columns::NAMES;
use super::line::read_line;
use super::params::Params;
use terms::role::Role;
use terms::sides::Sides;
use texts::fault::{Fault, File, FileFault};
use texts::heading::{ended, names};

// The parameter sets of the two ends.
pub type Sheet = Sides<Params>;

// The line that a text begins with, which is the given line of the sheet, and what stands behind it.
fn read_row(text: &[u8], role: Role, line: u16) -> Result<(Params, &[u8]), FileFault>
    ensures value { giving (λ p. p.0.values) result ≡ read_row role line text.now }
    ensures behind { IfOk result (λ p. p.1.now ≡ after 10 text.now) }
{
    let (row, rest) = ended(text).map_err(|fault| fault.on(File::Sheet, line))?;
    let params = read_line(row, role).map_err(|fault| fault.on(File::Sheet, line))?;
    Ok((params, rest))
}

// The two lines behind the names.
fn read_rows(text: &[u8]) -> Result<Sheet, FileFault>
    ensures { sheet_values result ≡ read_rows text.now }
{
    let (initiator, rest) = read_row(text, Role::Initiator, 2)?;
    let (responder, rest) = read_row(rest, Role::Responder, 3)?;
    if !rest.is_empty() {
        return Err(Fault::WrongCount.whole_line().on(File::Sheet, 4));
    }
    Ok(Sides {
        initiator,
        responder,
    })
}

// The sheet that a text is, or its first fault. Every value of it lies in its range, and written again it is the same text.
pub fn read_sheet(text: &[u8]) -> Result<Sheet, FileFault>
    ensures value { sheet_values result ≡ read_sheet text.now }
    ensures inside { IfOk result (λ s. InRange s.initiator.values × InRange s.responder.values) }
    ensures first { IfErr result (λ f. FirstFault text.now f) }
    ensures rewritten { IfOk result (λ s. sheet_text (both_values s) ≡ text.now) }
{
    let rows = names(text, NAMES).map_err(|fault| fault.on(File::Sheet, 1))?;
    read_rows(rows)
}
