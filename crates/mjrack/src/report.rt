// What is printed of readings.
ghost use Rattle.std.specs.Prelude.{◌≡◌, ◌<◌, List, ◌++◌, length, ℤ, IfOk, OnOk};
ghost use Rattle.std.specs.Fmt.{signed_decimal};
ghost use Rattle.mjrack.specs.Report.{dead_of, java_sum, ReadBack, Reported, sum_of};

use arith::text::print_word;
use arith::{Arithmetic, Java, Operation};
use slicevec::SliceVec;
use source::{Rack, Source, read_int};
use std::alloc::{AllocError, Global};

// The sum of the ints read back, and how many of them are -1.
#[derive(Clone, Copy)]
struct Totals {
    sum: i32,
    dead: usize,
}

// The bytes that wait in a source, taken one by one.
fn told<S: Source>(heap: Global, source: &mut S) -> Result<Vec<u8>, AllocError>
    ensures { IfOk result (λ v. v.items ≡ S.waiting source.old) }
{
    let mut bytes = Vec::new(heap);
    while let Some(byte) = source.take() {
        bytes.push(byte)?;
    }
    Ok(bytes)
}

// The sum of two words in Java; every addition has one.
fn java_sum(a: i32, b: i32) -> i32
    ensures { result ≡ java_sum a b }
{
    Java.compute(Operation::Add(a, b)).unwrap()
}

// The totals of the ints read from a source in which not too many bytes wait to count them.
fn read_back<S: Source>(source: &mut S) -> Totals
    requires { length (S.waiting source.old) < 9223372036854775808 }
    ensures { (zs : List ℤ) × ReadBack (S.waiting source.old) zs × (result.sum ≡ sum_of zs) × (result.dead ≡ dead_of zs) }
{
    let mut sum = 0;
    let mut dead = 0;
    while let Ok(value) = read_int(source) {
        sum = java_sum(sum, value);
        dead += usize::from(value == -1);
    }
    Totals { sum, dead }
}

// Writes an int behind what is there, as a page prints it.
fn write_int(out: &mut Vec<u8>, int: i32) -> Result<(), AllocError>
    ensures { OnOk result (out.new.items ≡ out.old.items ++ signed_decimal int) }
{
    // A minus and ten digits fit.
    let mut memory = [0; 11];
    let mut page = SliceVec::new(&mut memory);
    let _ = print_word(&mut page, int, 0);
    out.extend_from_slice(page.as_slice())
}

/// All that is printed of readings.
pub(crate) fn report(heap: Global, readings: &[u16]) -> Result<Vec<u8>, AllocError>
    ensures { IfOk result (λ v. Reported readings.now v.items) }
{
    let mut out = told(heap, &mut Rack::new(readings))?;
    let many = readings.len();
    let Totals { sum, dead } = read_back(&mut Rack::new(readings));
    out.extend_from_slice(format!(in heap; "readings {many}, sum ")?.as_bytes())?;
    write_int(&mut out, sum)?;
    out.extend_from_slice(format!(in heap; ", dead {dead}\n")?.as_bytes())?;
    Ok(out)
}
