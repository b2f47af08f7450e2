// Lists the nodes of a recipe's tree: one line for each, and their count.
#![tactic(auto)]

mod label;
mod listing;

use bundle::divide;
use listing::listing;
use std::io::{Read, Write};

// Each program has its own three lines: a crate for them would be no plainer.
fn main(rt: HostRuntime) -> anyhow::Result<()> {
    let mut given = Vec::new(rt.alloc());
    rt.stdin().read_to_end(&mut given)?;
    let lines = listing(rt.alloc(), divide(&given).recipe)?;
    rt.stdout().write_all(&lines)?;
    Ok(())
}
