// Compares the arithmetic that is proved to be Java's with a table that Java made.
#![tactic(auto)]

mod table;

use arith::{Arithmetic, Java, Operation};
use std::io;
use table::{Row, TABLE};

// Whether each answer of the row is that of the arithmetic.
fn agrees(row: &Row) -> bool {
    // An array and no struct: the table's rows are what the Java program prints.
    let [a, b, sum, difference, product, quotient, remainder, negated] = *row;
    let divided = Java.compute(Operation::Div(a, b));
    let left_over = Java.compute(Operation::Rem(a, b));
    let division = if b == 0 {
        divided == None && left_over == None
    } else {
        divided == Some(quotient) && left_over == Some(remainder)
    };
    division
        && Java.compute(Operation::Add(a, b)) == Some(sum)
        && Java.compute(Operation::Sub(a, b)) == Some(difference)
        && Java.compute(Operation::Mul(a, b)) == Some(product)
        && Java.compute(Operation::Neg(a)) == Some(negated)
}

fn main(rt: HostRuntime) -> io::Result<()> {
    let pairs = TABLE.iter().filter(|row| agrees(row)).count();
    println!(rt; "{pairs} pairs agree")
}
