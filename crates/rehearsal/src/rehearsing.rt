// A rehearsal: the files read, a link opened over a wire, the calls made and listed.
ghost use Rattle.std.specs.Prelude.{◌≡◌, IfOk, string_bytes};
ghost use Rattle.rehearsal.specs.Rehearsals.{Performed, Prints, Rehearses};

use crate::faults::FaultLine;
use crate::listing::listing;
use carrier::fifo::FifoWire;
use ends::session::SessionNumber;
use link::runs::{Numbers, RunError, run};
use params::call::Call;
use params::script::read_script;
use params::sheet::{Sheet, read_sheet};
use std::alloc::{AllocError, Global};
use terms::failure::Failure;
use texts::fault::FileFault;

// The memory of the wire for what waits for either side, in bytes.
pub const WIRE: usize = 8192;

// Why there is no listing: a faulty file, or want of memory.
pub type RehearsalError = Failure<FileFault>;

// The calls made on a link over a new wire, and listed.
fn perform(heap: Global, sheet: &Sheet, calls: &[Call<Vec<u8>>]) -> Result<String, AllocError>
    ensures { IfOk result (λ t. Performed sheet.now calls.now (string_bytes t)) }
{
    let mut wire = FifoWire::new(heap, WIRE, WIRE)?;
    let numbers = Numbers {
        ra: SessionNumber::new(3),
        rb: SessionNumber::new(1),
        rc: SessionNumber::new(2),
    };
    match run(heap, &mut wire, sheet, numbers, calls) {
        Ok(lines) => listing(heap, calls, lines.as_slice()),
        Err(RunError::NoMemory) => Err(AllocError),
        // the wire takes the longest frame
        Err(RunError::Cause(_)) => unreachable(),
    }
}

// The listing of a script's calls with a sheet's parameter sets; the sheet is read first.
pub fn rehearse(heap: Global, sheet: &[u8], script: &[u8]) -> Result<String, RehearsalError>
    ensures { Rehearses sheet.now script.now result }
{
    let sheet = read_sheet(sheet)?;
    let calls = read_script(heap, script)?;
    let text = perform(heap, &sheet, calls.as_slice())?;
    Ok(text)
}

// What a rehearsal prints: its listing, or the line of the fault.
pub fn printed(heap: Global, sheet: &[u8], script: &[u8]) -> Result<String, RehearsalError>
    ensures { IfOk result (λ t. Prints sheet.now script.now (string_bytes t)) }
{
    match rehearse(heap, sheet, script) {
        Err(RehearsalError::Cause(fault)) => Ok(format!(in heap; "{}", FaultLine(fault))?),
        done => done,
    }
}
