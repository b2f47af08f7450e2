// The readings of a text, one to a line.
ghost use Rattle.std.specs.Prelude.{length, IfOk, MatchResult};
ghost use Rattle.std.specs.Option.{SomeIff};
ghost use Rattle.lexer.specs.Runs.{decimal};
ghost use Rattle.mjrack.specs.Lines.{IsReading, Refused as NoReadings, Sofar};

use std::alloc::{AllocError, Global};

/// The least number that is no reading. It stands for every larger one too.
const TOO_LARGE: u32 = 1 << 16;

/// The line of this number, counted from 1, is no reading.
#[derive(Clone, Copy, Debug, PartialEq)]
pub(crate) struct NotAReading(pub(crate) usize);

// The reading that a line is, its line feed left out.
fn reading(line: &[u8]) -> Option<u16>
    ensures { SomeIff result (IsReading line.now) (decimal line.now) }
{
    if line.is_empty() {
        return None;
    }
    // No `parse`: it takes text, and to see that digits are text takes as long as to read them.
    let mut value: u32 = 0;
    for byte in line {
        if !byte.is_ascii_digit() {
            return None;
        }
        value = (value * 10 + u32::from(*byte - b'0')).min(TOO_LARGE);
    }
    u16::try_from(value).ok()
}

/// The readings of a text, one to a line; the outer error is a lack of memory.
// Two results, as std's own calls have: the allocator's error passes by `?`, and no error is made by hand.
pub(crate) fn readings(
    heap: Global,
    text: &[u8],
) -> Result<Result<Vec<u16>, NotAReading>, AllocError>
    ensures { IfOk result (λ r. MatchResult r (λ v. Sofar text.now (length text.now) v.items) (λ e. NoReadings text.now e.0)) }
{
    let mut found = Vec::new(heap);
    for line in text.split_inclusive(|byte| *byte == b'\n') {
        let Some(value) = reading(line.strip_suffix(b"\n").unwrap_or(line)) else {
            return Ok(Err(NotAReading(found.len() + 1)));
        };
        found.push(value)?;
    }
    Ok(Ok(found))
}
