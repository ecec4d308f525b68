ghost use Rattle.std.specs.Prelude.{◌≡◌, ◌⊎◌, ◌≤◌, ◌++◌, [], length, take, IfOk, OnErr, Bool};
ghost use Rattle.tl_model.specs.Devices.{SourceSeen};
ghost use Rattle.tl_model.specs.Seen.{Told};
ghost use Rattle.tl_model.specs.Causes.{HasCause};

use crate::host::Failed;

/// Bytes that come in one after another. It takes no memory of the caller's.
pub trait Source {
    /// Whether it tells what is left.
    ghost tells: { Bool };

    /// What it is seen as.
    ghost seen: { Self → SourceSeen };

    /// Takes a front of what is left into the buffer's first places, and gives its length: at least one byte where
    /// neither the buffer nor what is left is empty, so that 0 for a buffer that isn't empty is the end of input. Where
    /// it fails, nothing is taken.
    fn read(&mut self, into: &mut [u8]) -> Result<usize, Failed>
        ensures bound { IfOk result (λ count. count ≤ length into.new) }
        ensures taken { Told tells (IfOk result (λ count.
            (seen self.old).left ≡ take count into.new ++ (seen self.new).left)) }
        ensures ended { Told tells (IfOk result (λ count.
            count ≡ 0 → (into.new ≡ []) ⊎ ((seen self.old).left ≡ []))) }
        ensures kept { Told tells (OnErr result ((seen self.new).left ≡ (seen self.old).left)) }
        ensures cause { HasCause (seen self.old).faults (seen self.new).faults result };
}
