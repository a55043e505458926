// The values of a line by their columns. A fault of a value names its column.
ghost use Rattle.std.specs.Fn.{FnOnceReturnsAt};
ghost use Rattle.std.specs.Prelude.{◌≡◌, ◌-◌, IfOk, Result};
ghost use Rattle.texts.specs.Numbers.{Within};
ghost use Rattle.texts.specs.Columns.{text_in, number_in, below_in, hex_in};
ghost use Rattle.texts.specs.Faults.{at_column};
ghost use Rattle.texts.specs.declared.fault.Fault.{Fault as FaultValue};

use super::cutting::value;
use super::fault::{Fault, LineFault};
use super::numbers::{Range, below_zero, hex, number};

// A column of numbers: its place in a line, from 1, and their range.
#[derive(Clone, Copy)]
pub struct Column {
    pub place: u8,
    pub range: Range,
}

// The text in a column, by its place from 1.
pub fn text_in(line: &[u8], place: u8) -> &[u8]
    ensures { result.now ≡ text_in place line.now }
{
    value(line, usize::from(place.saturating_sub(1)))
}

// What `read` makes of the text in a column. Private: to call a closure it needs a `requires`, and no public function has one.
fn read_in<T, F: FnOnce(&[u8]) -> Result<T, Fault>>(
    line: &[u8],
    place: u8,
    read: F,
) -> Result<T, LineFault>
    requires { F.IsAlwaysCallable read }
    ensures { (r : Result T FaultValue) × FnOnceReturnsAt F.FnOnce read (text_in place line.now) r × (result ≡ at_column r place) }
{
    read(text_in(line, place)).map_err(|fault| fault.at(place))
}

// The number in a column, within the column's range.
#[tactic(auto, using(crate::proofs::Digits::number_in))]
pub fn number_in(line: &[u8], column: Column) -> Result<u32, LineFault>
    ensures value { result ≡ number_in column line.now }
    ensures inside { IfOk result (Within column.range) }
{
    read_in(line, column.place, |text| number(text, column.range))
}

// The number below zero in a column, as far below as the column's range says.
pub fn below_in(line: &[u8], column: Column) -> Result<i64, LineFault>
    ensures { result ≡ below_in column line.now }
{
    read_in(line, column.place, |text| below_zero(text, column.range))
}

// The eight hexadecimal digits in a column.
pub fn hex_in(line: &[u8], place: u8) -> Result<u32, LineFault>
    ensures { result ≡ hex_in place line.now }
{
    read_in(line, place, hex)
}
