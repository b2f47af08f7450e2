// Arithmetic on words of 32 bits by two rules, their order, and their decimal text.
#![tactic(auto)]

ghost use Rattle.std.specs.Prelude.{◌≡◌, true, false, ℤ, Option as Maybe};
ghost use Rattle.arith.specs.declared.Operation.{Operation};
ghost use Rattle.arith.specs.Examples.{Examples};
ghost use Rattle.arith.specs.Words.{SameMeaning, WordOrNone, by_zero, java, of_words, related, stopping, exact};
ghost use Rattle.std.specs.Int.{int_wrap, w32};
ghost use Rattle.std.proofs.lemmas.Int.{SFits-int_wrap};
ghost use Rattle.arith.specs.Wrapping.{word_or_none};
ghost use Rattle.std.proofs.Common.{rules};

pub mod text;

/// An operation with its operands.
#[derive(Clone, Copy, Debug, PartialEq)]
pub enum Operation {
    Add(i32, i32),
    Sub(i32, i32),
    Mul(i32, i32),
    Div(i32, i32),
    Rem(i32, i32),
    Neg(i32),
}

impl Operation {
    /// Whether the operation divides by zero, which no arithmetic answers.
    #[tactic(auto, using(crate::proofs::Worked::worked))]
    pub fn divides_by_zero(self) -> bool
        ensures value { result ≡ by_zero self }
        ensures examples { Examples }
    {
        matches!(self, Operation::Div(_, 0) | Operation::Rem(_, 0))
    }
}

/// A rule by which each operation comes to a word, or to nothing where it is out of range.
/// The answer hangs on the operands alone. A division by zero has no answer: who asks tests for zero before.
pub trait Arithmetic {
    ghost meaning: { Operation → Maybe ℤ };

    fn compute(&self, operation: Operation) -> Option<i32>
        ensures { result ≡ meaning operation };

    ghost words: { (o : Operation) → WordOrNone (meaning o) };
}

/// Java's arithmetic of `int`: the exact result wraps around.
#[derive(Clone, Copy)]
pub struct Java;

impl Arithmetic for Java {
    ghost meaning = { java };

    ghost words = { λ o. word_or_none (by_zero o) (int_wrap w32 (exact o)) (SFits-int_wrap w32 (exact o)) };

    fn compute(&self, operation: Operation) -> Option<i32> {
        if operation.divides_by_zero() {
            return None;
        }
        Some(match operation {
            Operation::Add(a, b) => a.wrapping_add(b),
            Operation::Sub(a, b) => a.wrapping_sub(b),
            Operation::Mul(a, b) => a.wrapping_mul(b),
            Operation::Div(a, b) => a.wrapping_div(b),
            Operation::Rem(a, b) => a.wrapping_rem(b),
            Operation::Neg(a) => a.wrapping_neg(),
        })
    }
}

/// The arithmetic that stops: an exact result that is no word is out of range.
#[derive(Clone, Copy)]
pub struct Stopping;

impl Arithmetic for Stopping {
    ghost meaning = { stopping };

    ghost words = { Prim.search rules };

    fn compute(&self, operation: Operation) -> Option<i32> {
        if operation.divides_by_zero() {
            return None;
        }
        match operation {
            Operation::Add(a, b) => a.checked_add(b),
            Operation::Sub(a, b) => a.checked_sub(b),
            Operation::Mul(a, b) => a.checked_mul(b),
            Operation::Div(a, b) => a.checked_div(b),
            Operation::Rem(a, b) => Some(a.wrapping_rem(b)),
            Operation::Neg(a) => a.checked_neg(),
        }
    }
}

/// How two words may compare.
#[derive(Clone, Copy, Debug, PartialEq)]
pub enum Relation {
    Equal,
    NotEqual,
    Less,
    LessEqual,
    Greater,
    GreaterEqual,
}

impl Relation {
    /// Whether the relation holds between `a` and `b`.
    pub fn holds(self, a: i32, b: i32) -> bool
        ensures { result ≡ related self a b }
    {
        match self {
            Relation::Equal => a == b,
            Relation::NotEqual => a != b,
            Relation::Less => a < b,
            Relation::LessEqual => a <= b,
            Relation::Greater => a > b,
            Relation::GreaterEqual => a >= b,
        }
    }
}

#[cfg(test)]
mod tests {
    use super::*;

    // Two arithmetics of one meaning answer alike.
    fn agree<L: Arithmetic, R: Arithmetic>(left: &L, right: &R, operation: Operation) -> bool
        ensures { SameMeaning L.Arithmetic.meaning R.Arithmetic.meaning → of_words operation ≡ true → by_zero operation ≡ false → result ≡ true }
    {
        left.compute(operation) == right.compute(operation)
    }

    #[test]
    fn arithmetics_differ_where_the_result_is_no_word(rt: HostRuntime) {
        assert!(rt; agree(&Java, &Stopping, Operation::Sub(i32::MIN + 1, 1)));
        assert!(rt; !agree(&Java, &Stopping, Operation::Sub(i32::MIN, 1)));
        assert!(rt; agree(&Java, &Stopping, Operation::Rem(i32::MIN, -1)));
        assert!(rt; !agree(&Java, &Stopping, Operation::Neg(i32::MIN)));
    }

    #[test]
    fn stopping_has_no_answer_out_of_range(rt: HostRuntime) {
        assert_eq!(rt; Stopping.compute(Operation::Add(i32::MAX, 1)), None);
        assert_eq!(rt; Stopping.compute(Operation::Mul(46_341, 46_341)), None);
        assert_eq!(rt;
            Stopping.compute(Operation::Mul(46_340, -46_340)),
            Some(-2_147_395_600)
        );
        assert_eq!(rt; Stopping.compute(Operation::Div(7, -2)), Some(-3));
        assert_eq!(rt; Stopping.compute(Operation::Div(7, 0)), None);
    }

    #[test]
    fn relations_order_signed_words(rt: HostRuntime) {
        assert!(rt; Relation::Less.holds(i32::MIN, i32::MAX));
        assert!(rt; !Relation::Less.holds(3, 3) && Relation::LessEqual.holds(3, 3));
        assert!(rt; !Relation::Greater.holds(3, 3) && Relation::GreaterEqual.holds(3, 3));
        assert!(rt; Relation::Equal.holds(-1, -1) && Relation::NotEqual.holds(-1, 1));
    }
}
