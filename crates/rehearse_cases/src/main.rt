// Rehearses the examples that its arguments name, each a folder with a sheet, a script and the listing that they give, and compares.
#![tactic(auto)]

use anyhow::anyhow;
use rehearsal::rehearsing::printed;
use std::{env, fs};

fn read(rt: &HostRuntime, example: &str, file: &str) -> anyhow::Result<Vec<u8>> {
    let path = format!(in rt.alloc(); "{example}/{file}")?;
    let bytes = fs::read(rt, path.as_str())?;
    Ok(bytes)
}

// What the program `rehearse` prints of the example.
fn listed(rt: &HostRuntime, example: &str) -> anyhow::Result<String> {
    let sheet = read(rt, example, "sheet")?;
    let script = read(rt, example, "script")?;
    printed(rt.alloc(), sheet.as_slice(), script.as_slice()).map_err(|_| anyhow!("no memory"))
}

fn compare(rt: &HostRuntime, example: &str) -> anyhow::Result<()> {
    let listing = read(rt, example, "listing")?;
    let text = listed(rt, example)?;
    if text.as_bytes() == listing.as_slice() {
        println!(rt; "{example}: as listed")?;
    } else {
        println!(rt; "{example}: not as listed, but\n{text}")?;
    }
    Ok(())
}

fn main(rt: HostRuntime) -> anyhow::Result<()> {
    for example in env::args(&rt)?.skip(1) {
        compare(&rt, example.as_str())?;
    }
    Ok(())
}
