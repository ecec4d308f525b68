//! Where the files of a container go.
ghost use Rattle.std.specs.Prelude.{◌≡◌, ◌≤◌, ◌++◌, ◌∷◌, [], Bool, length, OnOk};
ghost use Rattle.tl_model.specs.Causes.{HasCause};
ghost use Rattle.tl_model.specs.Seen.{Told};
ghost use Rattle.tl_fetch.specs.Sinks.{SinkSeen, IsAwaited, HasBegun, HasBrought, behind_last};

use tl_host::Failed;
use tl_path::Path;

/// Takes files, each in pieces, one after the other. It takes no memory of the caller's.
pub trait FileSink {
    /// Whether it tells what it was given.
    ghost tells: { Bool };

    /// What else is known of it since it was another one: no call changes that.
    ghost since: { Self → Self → Type 0 };

    /// What it is seen as.
    ghost seen: { Self → SinkSeen };

    /// Begins a file of so many bytes, which `piece` brings. The one before has come whole, and the path is one that is still taken.
    fn file(&mut self, path: &Path, len: u64) -> Result<(), Failed>
        requires { IsAwaited path.now (seen self.old) }
        ensures since { (first : Self) → since first self.old → since first self.new }
        ensures begun { OnOk result (HasBegun path.now len (seen self.old) (seen self.new)) }
        ensures given { Told tells (OnOk result ((seen self.new).given ≡ (seen self.old).given ++ (path.now, []) ∷ [])) }
        ensures cause { HasCause (seen self.old).faults (seen self.new).faults result };

    /// Brings the next bytes of the last file, no more than it lacks.
    fn piece(&mut self, bytes: &[u8]) -> Result<(), Failed>
        requires { length bytes.now ≤ (seen self.old).lacks }
        ensures since { (first : Self) → since first self.old → since first self.new }
        ensures brought { OnOk result (HasBrought (length bytes.now) (seen self.old) (seen self.new)) }
        ensures given { Told tells (OnOk result ((seen self.new).given ≡ behind_last bytes.now (seen self.old).given)) }
        ensures cause { HasCause (seen self.old).faults (seen self.new).faults result };
}
