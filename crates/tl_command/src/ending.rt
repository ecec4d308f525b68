//! How a command ends.
ghost use Rattle.std.specs.Prelude.{◌≡◌};
ghost use Rattle.tl_command.specs.Endings.{status_of};

use tl_refusal::Refusal;

/// How a command ended.
#[derive(Debug, Drop)]
pub enum Ending {
    /// It was carried out.
    Done,
    /// It was refused, and the refusal was said.
    Refused(Refusal),
    /// A call of the host failed.
    HostFault,
    /// A call of the repositories failed.
    ShelfFault,
    /// A call of the input failed.
    InputFault,
    /// Memory ran out.
    NoMemory,
}

impl Ending {
    /// The status that the program ends with: 0 where the command was carried out, 2 where the words are no command, 1
    /// where it was refused otherwise, 3 after a fault, 4 for want of memory. No memory.
    pub fn status(&self) -> u8
        ensures { result ≡ status_of self.now }
    {
        match self {
            Ending::Done => 0,
            Ending::Refused(refusal) => refusal.status(),
            Ending::HostFault | Ending::ShelfFault | Ending::InputFault => 3,
            Ending::NoMemory => 4,
        }
    }
}
