// Reads many good and faulty files from standard input and prints what becomes of each.
// A case is `S` (a sheet) or `T` (a script), the file's bytes, and `|`; a line feed before the letter is passed over.
#![tactic(auto)]

use anyhow::anyhow;
use params::call::{Action, Call};
use params::script::read_script;
use params::sheet::{Sheet, read_sheet};
use params::writing::write_sheet;
use std::alloc::Global;
use std::io::Read;
use terms::failure::Failure;
use terms::role::Role;
use texts::cutting::{count, cut};
use texts::fault::FileFault;

const END: u8 = b'|';

fn print_fault(rt: &HostRuntime, n: usize, fault: FileFault) -> anyhow::Result<()> {
    println!(rt; "{n} {fault}")?;
    Ok(())
}

// What a parameter set carries is known here too: neither sum nor difference needs a test.
fn print_params(rt: &HostRuntime, role: Role, sheet: &Sheet) -> anyhow::Result<()> {
    let params = sheet.at(role);
    let values = params.values();
    let ask = values.ask.0;
    let limit = values.ask.0 + values.wait.0;
    let wait = params.up_limit().0 - values.ask.0;
    let ages = i64::from(values.mmax) - values.mmin;
    let longest = values.longest;
    let ec = values.ec.0;
    println!(rt; "  {role} ask {ask} wait {wait} limit {limit} ages {ages}")?;
    println!(rt; "  {role} longest {longest} ec {ec}")?;
    Ok(())
}

fn print_sheet(rt: &HostRuntime, n: usize, text: &[u8], sheet: &Sheet) -> anyhow::Result<()> {
    let again = write_sheet(rt.alloc(), sheet)?;
    let word = if again.as_bytes() == text {
        "same"
    } else {
        "another"
    };
    println!(rt; "{n} good sheet, written again the {word}")?;
    print_params(rt, Role::Initiator, sheet)?;
    print_params(rt, Role::Responder, sheet)
}

fn print_call(rt: &HostRuntime, call: &Call<Vec<u8>>) -> anyhow::Result<()> {
    let Call { end, action } = call;
    match action {
        Action::Tick(message) => {
            let bytes = message.len();
            println!(rt; "  {end} {action} {bytes}")?;
        }
        _ => println!(rt; "  {end} {action}")?,
    }
    Ok(())
}

fn print_calls(rt: &HostRuntime, n: usize, calls: &[Call<Vec<u8>>]) -> anyhow::Result<()> {
    let number = calls.len();
    println!(rt; "{n} good script, {number} calls")?;
    for call in calls.iter().take(4) {
        print_call(rt, call)?;
    }
    Ok(())
}

fn run_case(rt: &HostRuntime, n: usize, case: &[u8]) -> anyhow::Result<()> {
    match case {
        [b'S', text @ ..] => match read_sheet(text) {
            Ok(sheet) => print_sheet(rt, n, text, &sheet),
            Err(fault) => print_fault(rt, n, fault),
        },
        [b'T', text @ ..] => match read_script(rt.alloc(), text) {
            Ok(calls) => print_calls(rt, n, &calls),
            Err(Failure::Cause(fault)) => print_fault(rt, n, fault),
            Err(Failure::NoMemory) => Err(anyhow!("no memory")),
        },
        _ => Err(anyhow!("a case begins with S or T")),
    }
}

fn input(heap: Global, rt: &HostRuntime) -> anyhow::Result<Vec<u8>> {
    let mut text = Vec::new(heap);
    rt.stdin().read_to_end(&mut text)?;
    Ok(text)
}

fn run(rt: &HostRuntime) -> anyhow::Result<()> {
    let text = input(rt.alloc(), rt)?;
    let mut rest = text.as_slice();
    for n in 0..count(rest, END) {
        let (case, more) = cut(rest, END);
        run_case(rt, n, case.strip_prefix(b"\n").unwrap_or(case))?;
        rest = more;
    }
    Ok(())
}

fn main(rt: HostRuntime) -> anyhow::Result<()> {
    run(&rt)
}
