// A growable sequence over a lent slice.
#![tactic(auto)]

ghost use Rattle.std.specs.Prelude.{◌≡◌, ◌-◌, ◌<◌, ◌≤◌, [], ◌∷◌, ◌++◌, length, min, take, if◌then◌else◌, MatchOption, MatchResult, ◌==◌, nat_lt, slice_index_or, slice_set};

/// Only the first `MAX_ENTRIES` entries of a longer slice are ever taken.
pub const MAX_ENTRIES: usize = 1_048_576;

/// The refusal of a push: every entry there can be is taken.
#[derive(Clone, Copy, Debug, PartialEq)]
pub struct Full;

/// The first `taken` entries of a lent slice. What the slice holds beyond them is never read.
// The count stands beside the slice, since the memory is lent and of fixed size.
#[derive(Drop)]
pub struct SliceVec<'a, T> {
    entries: &'a mut [T],
    taken: usize,
    ghost within: { taken ≤ min (length entries.now) 1048576 },
}

impl<'a, T: Copy> SliceVec<'a, T> {
    ghost use Rattle.slicevec.specs.Held.{held, room, memory, lender, KeepsMemory};

    /// An empty sequence over `entries`, whose lender finds there what is pushed.
    pub fn new(entries: &'a mut [T]) -> SliceVec<'a, T>
        ensures empty { held result ≡ [] }
        ensures memory { memory result ≡ entries.old }
        ensures lender { lender result ≡ entries.entry.ghost_name }
    {
        SliceVec { entries, taken: 0 }
    }

    /// The entries taken.
    pub fn as_slice(&self) -> &[T]
        ensures { result.now ≡ held self.now }
    {
        &self.entries[..self.taken]
    }

    /// How many entries are taken.
    pub fn len(&self) -> usize
        ensures { result ≡ length (held self.now) }
    {
        self.as_slice().len()
    }

    /// Whether no entry is taken.
    pub fn is_empty(&self) -> bool
        ensures { result ≡ (length (held self.now) == 0) }
    {
        self.len() == 0
    }

    /// How many more entries can be pushed.
    pub fn room_left(&self) -> usize
        ensures { result ≡ room self.now - length (held self.now) }
    {
        self.capacity() - self.taken
    }

    // How many entries there can be.
    fn capacity(&self) -> usize
        ensures { result ≡ room self.now }
    {
        self.entries.len().min(MAX_ENTRIES)
    }

    /// Adds `x` at the end and answers its index; refused exactly when there is no room.
    pub fn push(&mut self, x: T) -> Result<usize, Full>
        ensures refused { MatchResult result (λ i. (i ≡ length (held self.old)) × (i < room self.old)) (λ _. room self.old ≤ length (held self.old)) }
        ensures pushed { MatchResult result (λ _. held self.new ≡ held self.old ++ x ∷ []) (λ _. held self.new ≡ held self.old) }
        ensures memory { MatchResult result (λ i. memory self.new ≡ slice_set (memory self.old) i x) (λ _. memory self.new ≡ memory self.old) }
        ensures kept { KeepsMemory self.old self.new }
    {
        let at = self.taken;
        if at >= self.capacity() {
            return Err(Full);
        }
        self.entries[at] = x;
        self.taken = at + 1;
        Ok(at)
    }

    /// The entry at `i`, or nothing where no such entry is taken.
    pub fn get(&self, i: usize) -> Option<T>
        ensures { MatchOption result (length (held self.now) ≤ i) (λ x. (i < length (held self.now)) × (x ≡ slice_index_or (held self.now) i x)) }
    {
        self.as_slice().get(i).copied()
    }

    /// Puts `x` in the place of the entry at `i` and answers whether such an entry is taken; no other entry changes.
    pub fn set(&mut self, i: usize, x: T) -> bool
        ensures found { result ≡ nat_lt i (length (held self.old)) }
        ensures changed { held self.new ≡ slice_set (held self.old) i x }
        ensures memory { memory self.new ≡ (if result then slice_set (memory self.old) i x else memory self.old) }
        ensures kept { KeepsMemory self.old self.new }
    {
        let found = i < self.len();
        if found {
            self.entries[i] = x;
        }
        found
    }

    /// Keeps the first `n` entries taken, or all where there are no more than `n`.
    pub fn truncate(&mut self, n: usize)
        ensures cut { held self.new ≡ take n (held self.old) }
        ensures memory { memory self.new ≡ memory self.old }
        ensures kept { KeepsMemory self.old self.new }
    {
        if n < self.taken {
            self.taken = n;
        }
    }
}

#[cfg(test)]
mod tests {
    use super::*;
    use std::test::Fail;

    #[derive(Clone, Copy, Debug, PartialEq)]
    struct Point {
        x: u8,
        y: u32,
    }

    #[derive(Clone, Copy, Debug, PartialEq)]
    enum Step {
        Stay,
        Go(u32),
    }

    // The lender finds what was pushed at the front of its memory, and the rest as it was.
    fn push_two(memory: &mut [Point], a: Point, b: Point) -> Result<(), Full>
        ensures { MatchResult result (λ _. memory.new ≡ slice_set (slice_set memory.old 0 a) 1 b) (λ _. length memory.old < 2) }
    {
        let mut points = SliceVec::new(memory);
        points.push(a)?;
        points.push(b)?;
        Ok(())
    }

    #[test]
    fn lender_finds_what_was_pushed(rt: HostRuntime) -> Result<(), Fail> {
        let a = Point { x: 1, y: 10 };
        let b = Point { x: 2, y: 20 };
        let rest = Point { x: 9, y: 90 };
        let mut memory = [rest; 3];
        push_two(&mut memory, a, b)?;
        assert_eq!(rt; memory, [a, b, rest]);
        Ok(())
    }

    #[test]
    fn full_refuses_and_changes_nothing(rt: HostRuntime) {
        let mut memory = [Step::Stay; 2];
        let mut steps = SliceVec::new(&mut memory);
        assert!(rt; steps.is_empty());
        let pushed = [
            steps.push(Step::Go(7)),
            steps.push(Step::Stay),
            steps.push(Step::Go(9)),
        ];
        assert_eq!(rt; pushed, [Ok(0), Ok(1), Err(Full)]);
        assert_eq!(rt; [steps.len(), steps.room_left()], [2, 0]);
        assert_eq!(rt; steps.as_slice(), [Step::Go(7), Step::Stay].as_slice());
    }

    #[test]
    fn set_leaves_the_others(rt: HostRuntime) {
        let mut memory = [Step::Stay; 4];
        let mut steps = SliceVec::new(&mut memory);
        let _ = steps.push(Step::Go(1));
        let _ = steps.push(Step::Go(2));
        assert_eq!(rt;
            [steps.set(1, Step::Go(5)), steps.set(2, Step::Go(6))],
            [true, false]
        );
        assert_eq!(rt;
            [steps.get(0), steps.get(1), steps.get(2)],
            [Some(Step::Go(1)), Some(Step::Go(5)), None]
        );
        assert_eq!(rt; memory, [Step::Go(1), Step::Go(5), Step::Stay, Step::Stay]);
    }

    #[test]
    fn truncate_then_push(rt: HostRuntime) {
        let mut memory = [Step::Stay; 3];
        let mut steps = SliceVec::new(&mut memory);
        let _ = steps.push(Step::Go(1));
        let _ = steps.push(Step::Go(2));
        steps.truncate(5);
        assert_eq!(rt; steps.len(), 2);
        steps.truncate(1);
        assert_eq!(rt; steps.push(Step::Go(3)), Ok(1));
        assert_eq!(rt; steps.as_slice(), [Step::Go(1), Step::Go(3)].as_slice());
    }
}
