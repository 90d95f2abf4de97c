ghost use Rattle.std.specs.Prelude.{◌≡◌, ℕ, List, ◌≤◌, length, IfOk};
ghost use Rattle.std.specs.declared.option.Option.{Option};
ghost use Rattle.ppd_io.specs.Causes.{HasCause};
ghost use Rattle.ppd_io.specs.Content.{Reads};

use crate::sink::Failed;

/// Where bytes are read.
pub trait Source {
    /// The bytes that are left, where they are told.
    ghost left: { Self → Option (List ℕ) };

    /// What was left when the last read began, where it is told: before any read it may be anything.
    ghost before_last: { Self → Option (List ℕ) };

    /// How often a read failed.
    ghost faults: { Self → ℕ };

    /// Reads some bytes to the front of `into` and answers how many: none only at the end, or where
    /// `into` is empty. `Failed` comes only where the count of faults rose, and takes none.
    fn read(&mut self, into: &mut [u8]) -> Result<usize, Failed>
        ensures bound { IfOk result (λ n. n ≤ length into.new) }
        ensures bytes { Reads (left self.old) (left self.new) result into.new }
        ensures last { before_last self.new ≡ left self.old }
        ensures cause { HasCause (faults self.old) (faults self.new) result };
}
