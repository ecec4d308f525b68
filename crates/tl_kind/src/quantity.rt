//! Quantities that have a limit.
ghost use Rattle.std.specs.Prelude.{◌≡◌};
ghost use Rattle.tl_kind.specs.Quantities.{quantity_name, limit_of};

/// A quantity that has a limit.
#[derive(Clone, Copy, Debug, PartialEq, Eq)]
pub enum What {
    /// A line of input, in bytes.
    Line,
    /// The input of a session, in bytes.
    Input,
    /// A package's source, in bytes.
    Source,
    /// The pins, in bytes.
    Pins,
    /// The database, in bytes.
    Database,
    /// The marks, in bytes.
    Marks,
    /// A file, in bytes.
    File,
    /// A container, in bytes.
    Frame,
    /// The entries of a database.
    Packages,
    /// The sources of a master.
    Sources,
    /// The files of a volume.
    Files,
}

impl What {
    /// The quantity's name, as a refusal says it. No memory.
    pub fn name(self) -> &'static str
        ensures { result.now ≡ quantity_name self }
    {
        match self {
            What::Line => "Line",
            What::Input => "Input",
            What::Source => "Source",
            What::Pins => "Pins",
            What::Database => "Database",
            What::Marks => "Marks",
            What::File => "File",
            What::Frame => "Frame",
            What::Packages => "Packages",
            What::Sources => "Sources",
            What::Files => "Files",
        }
    }

    /// The greatest number of it that is allowed: bytes, or entries, sources and files. No memory.
    pub fn limit(self) -> u64
        ensures { result ≡ limit_of self }
    {
        match self {
            What::Line => 65_536,
            What::Input => 17_179_869_184,
            What::Source | What::Pins => 1_048_576,
            What::Database | What::Marks | What::File => 268_435_456,
            What::Frame => 1_073_741_824,
            What::Packages | What::Sources => 65_536,
            What::Files => 1_048_576,
        }
    }
}
