// What is printed of a text of readings.
ghost use Rattle.std.specs.Prelude.{IfOk};
ghost use Rattle.mjrack.specs.Output.{Printed};

use crate::readings::{NotAReading, readings};
use crate::report::report;
use std::alloc::{AllocError, Global};

/// All that is printed of a text: the report of its readings, or which line is none.
pub(crate) fn output(heap: Global, text: &[u8]) -> Result<Vec<u8>, AllocError>
    ensures { IfOk result (λ v. Printed text.now v.items) }
{
    match readings(heap, text)? {
        Ok(found) => report(heap, &found),
        Err(NotAReading(line)) => {
            Ok(format!(in heap; "not a reading: line {line}\n")?.into_bytes())
        }
    }
}
