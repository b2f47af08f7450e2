// Sources of bytes, and the reading of numbers and characters from any of them.
#![tactic(auto)]

ghost use Rattle.std.specs.Prelude.{◌≡◌, ℕ, ◌<◌, List, drop, slice_index};
ghost use Rattle.source.specs.Waiting.{first};

mod rack;
mod read;
mod tape;

pub use rack::Rack;
pub use read::{ReadFault, read_char, read_int};
pub use tape::Tape;

/// A source means the list of its waiting bytes.
pub trait Source {
    ghost waiting: { Self → List ℕ };

    /// The first waiting byte, or none exactly when nothing waits; it stays.
    fn look(&self) -> Option<u8>
        ensures { result ≡ first (waiting self.now) };

    /// The same, and the byte is removed, if any.
    fn take(&mut self) -> Option<u8>
        ensures answer { result ≡ first (waiting self.old) }
        ensures rest { waiting self.new ≡ drop 1 (waiting self.old) };

    // What waits are bytes. A source is no `Model`: its value would be a list with a proof of this in it, which is no plainer.
    ghost bytes: { (s : Self) (i : ℕ) → slice_index (waiting s) i < 256 };
}

#[cfg(test)]
mod tests {
    use super::*;

    // What is read as ints, one after the other, from some text, and what is next then.
    fn read_two<S: Source>(source: &mut S) -> [Result<i32, ReadFault>; 2] {
        [read_int(source), read_int(source)]
    }

    #[test]
    fn ints_from_a_tape(rt: HostRuntime) {
        let mut tape = Tape::new(b" \t\n-12x -2147483648 2147483648 - 7");
        assert_eq!(rt; read_two(&mut tape), [Ok(-12), Err(ReadFault::NoNumber)]);
        assert_eq!(rt; read_char(&mut tape), Ok(b'x'));
        assert_eq!(rt;
            read_two(&mut tape),
            [Ok(i32::MIN), Err(ReadFault::NoNumber)]
        );
        assert_eq!(rt; read_two(&mut tape), [Err(ReadFault::NoNumber), Ok(7)]);
        assert_eq!(rt; read_two(&mut tape), [Err(ReadFault::NothingWaits); 2]);
        assert_eq!(rt; read_char(&mut tape), Err(ReadFault::NothingWaits));
    }

    #[test]
    fn ints_from_a_rack(rt: HostRuntime) {
        let mut rack = Rack::new(&[1434, 9, 10_000, 9_999]);
        assert_eq!(rt; read_two(&mut rack), [Ok(143), Ok(0)]);
        assert_eq!(rt; read_two(&mut rack), [Ok(-1), Ok(999)]);
        assert_eq!(rt; read_char(&mut rack), Ok(b'\n'));
        assert_eq!(rt; rack.take(), None);
        assert_eq!(rt; read_int(&mut rack), Err(ReadFault::NothingWaits));
    }
}
