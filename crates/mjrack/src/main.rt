// Puts readings into a rack, and prints what the rack tells of them and what is read back from it.
#![tactic(auto)]

mod output;
mod readings;
mod report;

use output::output;
use std::io::{Read, Write};

// Each program has its own three lines: a crate for them would be no plainer.
fn main(rt: HostRuntime) -> anyhow::Result<()> {
    let mut given = Vec::new(rt.alloc());
    rt.stdin().read_to_end(&mut given)?;
    let printed = output(rt.alloc(), &given)?;
    rt.stdout().write_all(&printed)?;
    Ok(())
}
