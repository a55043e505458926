// Making a parameter set of checked values, and reading it.
ghost use Rattle.std.specs.Prelude.{◌≡◌, ◌+◌, ◌<◌, ◌≤◌, pos, negsuc, ◌≤ℤ◌, OnOk};
ghost use Rattle.params.specs.Columns.{Keeps, KeepsBelow, Halves, Apart};
ghost use Rattle.params.specs.Checks.{kept, kept_below, apart, checked};
ghost use Rattle.params.specs.Laws.{InRange};
ghost use Rattle.params.specs.Made.{values_of};

use super::columns::{ASK, DATA, DIFFERING, EC, MMAX, MMIN, PERIOD, SETUP, VERSION, WAIT, WINDOW};
use super::params::Params;
use super::values::Values;
use terms::counters::Ticks;
use texts::columns::Column;
use texts::fault::{Fault, LineFault};

// That a value lies within its column's range.
fn keeps(n: u32, column: Column) -> Result<(), LineFault>
    ensures answer { result ≡ kept column n }
    ensures inside { OnOk result (Keeps column n) }
{
    if !column.range.contains(u64::from(n)) {
        return Err(Fault::OutOfRange.at(column.place));
    }
    Ok(())
}

// That a value lies as far below zero as its column's range says. The tests are of two kinds of numbers, so each has its own function.
fn keeps_below(z: i64, column: Column) -> Result<(), LineFault>
    ensures answer { result ≡ kept_below column z }
    ensures inside { OnOk result (KeepsBelow column z) }
{
    let range = -i64::from(column.range.high)..=-i64::from(column.range.low);
    if !range.contains(&z) {
        return Err(Fault::OutOfRange.at(column.place));
    }
    Ok(())
}

// That two halves of identifiers differ enough, and not too much.
fn differ(own: u32, far: u32) -> Result<(), LineFault>
    ensures answer { result ≡ apart own far }
    ensures halves { Halves own far }
    ensures inside { OnOk result (Apart own far) }
{
    let bits = (own ^ far).count_ones();
    if !DIFFERING.contains(u64::from(bits)) {
        return Err(Fault::DifferingBits.whole_line());
    }
    Ok(())
}

impl Params {
    // A parameter set of these values, or the first of them that is at fault, by its column.
    pub fn new(values: Values) -> Result<Params, LineFault>
        ensures { values_of result ≡ checked values }
    {
        keeps(u32::from(values.version), VERSION)?;
        keeps(u32::from(values.period.0), PERIOD)?;
        keeps(values.window, WINDOW)?;
        keeps_below(values.mmin, MMIN)?;
        keeps(values.mmax, MMAX)?;
        keeps(values.ask.0, ASK)?;
        keeps(values.wait.0, WAIT)?;
        keeps(values.setup.0, SETUP)?;
        keeps(u32::from(values.longest), DATA)?;
        keeps(values.ec.0, EC)?;
        differ(values.own.first, values.far.first)?;
        differ(values.own.second, values.far.second)?;
        Ok(Params { values })
    }

    // The values of the set.
    #[tactic(auto, using(crate::proofs::Ranges::params_inside))]
    pub fn values(&self) -> Values
        ensures value { result ≡ self.now.values }
        ensures inside { InRange result }
    {
        self.values
    }

    // The count above which an end that is up gives up: the sum fits with no test.
    pub fn up_limit(&self) -> Ticks
        ensures value { result.0 ≡ self.now.values.ask.0 + self.now.values.wait.0 }
        ensures bound { result.0 ≤ 11000 }
    {
        Ticks(self.values.ask.0 + self.values.wait.0)
    }
}
