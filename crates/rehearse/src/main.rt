// Reads the files `sheet` and `script` in the current folder, and prints the listing of their rehearsal.
// A faulty file gives its one line and status 1.
#![tactic(auto)]

use anyhow::anyhow;
use rehearsal::faults::FaultLine;
use rehearsal::rehearsing::{RehearsalError, rehearse};
use std::fs;
use std::process::ExitCode;

fn read(rt: &HostRuntime, file: &str) -> anyhow::Result<Vec<u8>> {
    fs::read(rt, file).try_map_err(|error| {
        Ok(anyhow!(format!(in rt.alloc(); "cannot read the file {file}: {error}")?))
    })
}

fn main(rt: HostRuntime) -> anyhow::Result<ExitCode> {
    let sheet = read(&rt, "sheet")?;
    let script = read(&rt, "script")?;
    match rehearse(rt.alloc(), sheet.as_slice(), script.as_slice()) {
        Ok(listing) => {
            rt.print(listing)?;
            Ok(ExitCode::SUCCESS)
        }
        Err(RehearsalError::Cause(fault)) => {
            rt.print(FaultLine(fault))?;
            Ok(ExitCode::FAILURE)
        }
        Err(RehearsalError::NoMemory) => Err(anyhow!("no memory")),
    }
}
