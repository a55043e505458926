// One line of a sheet: fifteen values with single spaces between them.
ghost use Rattle.std.specs.Prelude.{◌≡◌};
ghost use Rattle.params.specs.Lines.{read_identifier, read_values, read_line};
ghost use Rattle.params.specs.Made.{values_of};

use super::columns::{
    ASK, COLUMNS, DATA, EC, FAR1, FAR2, MMAX, MMIN, OWN1, OWN2, PERIOD, ROLES, SETUP, VERSION,
    WAIT, WINDOW,
};
use super::params::Params;
use super::values::{Milliseconds, Values};
use terms::counters::{ExecutionCycle, Ticks};
use terms::identifier::Identifier;
use terms::role::Role;
use texts::columns::{below_in, hex_in, number_in};
use texts::cutting::count;
use texts::fault::{Fault, LineFault};

// The two halves of an identifier, by their columns.
fn read_identifier(line: &[u8], first: u8, second: u8) -> Result<Identifier, LineFault>
    ensures { result ≡ read_identifier first second line.now }
{
    Ok(Identifier {
        first: hex_in(line, first)?,
        second: hex_in(line, second)?,
    })
}

// The values of a line for the given role, each within its column's range.
fn read_values(line: &[u8], role: Role) -> Result<Values, LineFault>
    ensures { result ≡ read_values role line.now }
{
    number_in(line, *ROLES.at(role))?;
    Ok(Values {
        own: read_identifier(line, OWN1, OWN2)?,
        far: read_identifier(line, FAR1, FAR2)?,
        version: number_in(line, VERSION)? as u8,
        period: Milliseconds(number_in(line, PERIOD)? as u16),
        window: number_in(line, WINDOW)?,
        mmin: below_in(line, MMIN)?,
        mmax: number_in(line, MMAX)?,
        ask: Ticks(number_in(line, ASK)?),
        wait: Ticks(number_in(line, WAIT)?),
        setup: Ticks(number_in(line, SETUP)?),
        longest: number_in(line, DATA)? as u16,
        ec: ExecutionCycle(number_in(line, EC)?),
    })
}

// The parameter set in a line for the given role.
pub(crate) fn read_line(line: &[u8], role: Role) -> Result<Params, LineFault>
    ensures { values_of result ≡ read_line role line.now }
{
    if count(line, b' ') != COLUMNS - 1 {
        return Err(Fault::WrongCount.whole_line());
    }
    Params::new(read_values(line, role)?)
}
