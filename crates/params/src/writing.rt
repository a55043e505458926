// Writing a sheet: what is written reads back as the same sheet.
ghost use Rattle.std.specs.Prelude.{◌≡◌, IfOk, Some, Ok, string_bytes};
ghost use Rattle.params.specs.Made.{both_values};
ghost use Rattle.params.specs.Sheets.{read_sheet};
ghost use Rattle.params.specs.Writing.{identifiers_text, ages_text, limits_text, line_text, sheet_text};

use super::columns::{NAMES, ROLES};
use super::sheet::Sheet;
use super::values::{Milliseconds, Values};
use std::alloc::{AllocError, Global};
use std::fmt;
use terms::counters::{ExecutionCycle, Ticks};
use terms::role::Role;
use texts::writing::Hex;

// A line is shown in three parts. One text of its fifteen values proves too, but a wrong one is then refused in the written proof alone.

// Who speaks to whom: columns 2 to 5 of a line.
#[derive(Clone, Copy)]
pub(crate) struct Identifiers(pub(crate) Values);

impl fmt::Display for Identifiers {
    ghost output = { λ i. Some (identifiers_text i.0) };

    fn fmt<W: fmt::Write>(&self, f: &mut fmt::Formatter<W>) -> fmt::Result {
        let Values { own, far, .. } = self.0;
        let own1 = Hex(own.first);
        let own2 = Hex(own.second);
        let far1 = Hex(far.first);
        let far2 = Hex(far.second);
        write!(f, "{own1} {own2} {far1} {far2}")
    }
}

// What a telegram is judged by: columns 6 to 10.
#[derive(Clone, Copy)]
pub(crate) struct Ages(pub(crate) Values);

impl fmt::Display for Ages {
    ghost output = { λ a. Some (ages_text a.0) };

    fn fmt<W: fmt::Write>(&self, f: &mut fmt::Formatter<W>) -> fmt::Result {
        let Values {
            version,
            period: Milliseconds(period),
            window,
            mmin,
            mmax,
            ..
        } = self.0;
        write!(f, "{version} {period} {window} {mmin} {mmax}")
    }
}

// The limits of an end, and where it starts: columns 11 to 15.
#[derive(Clone, Copy)]
pub(crate) struct Limits(pub(crate) Values);

impl fmt::Display for Limits {
    ghost output = { λ l. Some (limits_text l.0) };

    fn fmt<W: fmt::Write>(&self, f: &mut fmt::Formatter<W>) -> fmt::Result {
        let Values {
            ask: Ticks(ask),
            wait: Ticks(wait),
            setup: Ticks(setup),
            longest,
            ec: ExecutionCycle(ec),
            ..
        } = self.0;
        write!(f, "{ask} {wait} {setup} {longest} {ec}")
    }
}

// One line of a sheet, without its end.
#[derive(Clone, Copy)]
pub(crate) struct Line {
    pub(crate) role: Role,
    pub(crate) values: Values,
}

impl fmt::Display for Line {
    ghost output = { λ l. Some (line_text l.role l.values) };

    fn fmt<W: fmt::Write>(&self, f: &mut fmt::Formatter<W>) -> fmt::Result {
        let role = ROLES.at(self.role).range.low;
        let identifiers = Identifiers(self.values);
        let ages = Ages(self.values);
        let limits = Limits(self.values);
        write!(f, "{role} {identifiers} {ages} {limits}")
    }
}

// The text of a sheet, which reads back as the same sheet.
#[tactic(auto, using(crate::proofs::SheetTrips::sheet_reads))]
pub fn write_sheet(heap: Global, sheet: &Sheet) -> Result<String, AllocError>
    ensures text { IfOk result (λ t. string_bytes t ≡ sheet_text (both_values sheet.now)) }
    ensures reread { IfOk result (λ t. read_sheet (string_bytes t) ≡ Ok (both_values sheet.now)) }
{
    let initiator = Line {
        role: Role::Initiator,
        values: sheet.initiator.values,
    };
    let responder = Line {
        role: Role::Responder,
        values: sheet.responder.values,
    };
    format!(in heap; "{NAMES}\n{initiator}\n{responder}\n")
}
