// Tells what the parser makes of many short texts, whose results were worked out from the rules by hand: each line of standard
// input is a text, in which a backslash with `n` or `r` stands for a line feed or a carriage return, and with any other byte for that.
#![tactic(auto)]

use slicevec::SliceVec;
use std::alloc::{AllocError, Global};
use std::io::Read;
use syntax::{UNUSED, parse};

// The text that a line stands for.
fn text_of(heap: Global, line: &[u8]) -> Result<Vec<u8>, AllocError> {
    let mut text = Vec::new(heap);
    let mut rest = line.iter();
    while let Some(byte) = rest.next() {
        let meant = match *byte {
            b'\\' => match rest.next() {
                Some(b'n') => b'\n',
                Some(b'r') => b'\r',
                Some(other) => *other,
                None => b'\\',
            },
            other => other,
        };
        text.push(meant)?;
    }
    Ok(text)
}

fn main(rt: HostRuntime) -> anyhow::Result<()> {
    let mut given = Vec::new(rt.alloc());
    rt.stdin().read_to_end(&mut given)?;
    let mut entries = vec![in rt.alloc(); UNUSED; 65_542]?;
    for line in given.split_inclusive(|byte| *byte == b'\n') {
        let text = text_of(rt.alloc(), line.strip_suffix(b"\n").unwrap_or(line))?;
        match parse(&text, &mut SliceVec::new(&mut entries)) {
            Ok(count) => println!(rt; "{count}")?,
            Err(refusal) => println!(rt; "{refusal}")?,
        }
    }
    Ok(())
}
