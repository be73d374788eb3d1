// Reads a picture from standard input and writes the line of its survey.
#![tactic(auto)]

use report::report;
use std::io::{Read, Write};

// One byte more than the longest input that is surveyed, so that a longer one is seen to be longer.
const ENOUGH: u64 = 65_537;

fn main(rt: HostRuntime) -> anyhow::Result<()> {
    let mut input = Vec::new(rt.alloc());
    rt.stdin().take(ENOUGH).read_to_end(&mut input)?;
    let line = report(rt.alloc(), input.as_slice())?;
    rt.print(line.as_str())?;
    Ok(())
}
