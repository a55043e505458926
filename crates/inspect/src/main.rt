// Reads a captured session from standard input and says of each line what it is.
#![tactic(auto)]

mod again;
mod report;

use captures::line::without_end;
use inspector::tally::Tally;
use report::Report;
use std::io;
use std::io::{BufRead, BufReader};

fn run(rt: &HostRuntime) -> io::Result<()> {
    let mut input = BufReader::new(rt.alloc(), rt.stdin())?;
    let mut line = Vec::new(rt.alloc());
    let mut report = Report::new(rt);
    let mut tally = Tally::new();
    // one buffer for all lines; `split` would allocate one for each, and cut the LF off by no function of `captures`
    for _ in 1..u64::MAX {
        line.clear();
        if input.read_until(b'\n', &mut line)? == 0 {
            break;
        }
        let outcome = report.line(without_end(line.as_slice()))?;
        tally.count(outcome);
    }
    println!(rt; "{tally}")
}

fn main(rt: HostRuntime) -> io::Result<()> {
    run(&rt)
}
