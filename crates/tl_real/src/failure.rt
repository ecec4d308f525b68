// Why a call of a folder failed.
ghost use Rattle.std.specs.Prelude.{◌≡◌, Some};
ghost use Rattle.tl_real.specs.Words.{words_of};

use std::alloc::Global;
use std::fmt::Write as _;
use std::io::ErrorKind;
use std::{fmt, io};

/// What was being done when a call failed.
#[derive(Clone, Copy, Debug, PartialEq, Eq)]
pub enum Doing {
    /// The whole folder was being opened.
    Open,
    /// The whole folder was being locked.
    Lock,
    /// A file was being looked for.
    Look,
    /// A file was being read.
    Read,
    /// A folder was being listed.
    List,
    /// A file or a folder for it was being made.
    Create,
    /// Bytes were being added to a file.
    Write,
    /// A file or an empty folder was being removed.
    Remove,
    /// What was written was being made durable.
    Sync,
    /// Bytes were being said to standard output.
    Say,
}

impl Doing {
    // Takes no memory.
    fn words(self) -> &'static str
        ensures { result.now ≡ words_of self }
    {
        match self {
            Doing::Open => "cannot open",
            Doing::Lock => "cannot lock",
            Doing::Look => "cannot look for",
            Doing::Read => "cannot read",
            Doing::List => "cannot list",
            Doing::Create => "cannot create",
            Doing::Write => "cannot write to",
            Doing::Remove => "cannot remove",
            Doing::Sync => "cannot make durable",
            Doing::Say => "cannot write to",
        }
    }
}

impl fmt::Display for Doing {
    ghost output = { λ doing. Some (words_of doing) };

    fn fmt<W: fmt::Write>(&self, f: &mut fmt::Formatter<W>) -> fmt::Result {
        f.write_str(self.words())
    }
}

/// What this program has changed of a tree, told by the journal that it opened.
#[derive(Clone, Copy, Debug, PartialEq, Eq)]
pub enum Changes {
    /// Nothing.
    Nothing,
    /// Each change was made, and something was said after it.
    Said,
    /// A change was decided, and nothing was said since: it stands, and where it isn't made yet the next program makes it.
    Unsaid,
}

/// A call that failed: what was being done, at which path, and the system's own words. It prints as a line without
/// its end.
#[derive(Drop)]
pub struct Failure {
    doing: Doing,
    path: Option<String>,
    cause: io::Error,
    changes: Changes,
}

impl Failure {
    // Without the path where no memory is left for it.
    pub(crate) fn new(
        alloc: Global,
        doing: Doing,
        path: &str,
        cause: io::Error,
        changes: Changes,
    ) -> Failure {
        Failure {
            doing,
            path: String::from_str(alloc, path).ok(),
            cause,
            changes,
        }
    }

    /// What was being done. It takes no memory.
    pub fn doing(&self) -> Doing {
        self.doing
    }

    /// Of which kind the system's error was. It takes no memory.
    pub fn kind(&self) -> ErrorKind {
        self.cause.kind()
    }

    /// What was changed until then. It takes no memory.
    pub fn changes(&self) -> Changes {
        self.changes
    }
}

impl fmt::Display for Failure {
    fn fmt<W: fmt::Write>(&self, f: &mut fmt::Formatter<W>) -> fmt::Result {
        let path = match &self.path {
            Some(path) => path.as_str(),
            None => "a file",
        };
        write!(f, "{} {}: {}", self.doing, OneLine(path), self.cause)
    }
}

/// A text that prints as one line: each control character in it as a backslash and a letter, or as a question mark.
#[derive(Clone, Copy)]
pub struct OneLine<'a>(pub &'a str);

impl fmt::Display for OneLine<'_> {
    fn fmt<W: fmt::Write>(&self, f: &mut fmt::Formatter<W>) -> fmt::Result {
        for letter in self.0.chars() {
            match letter {
                '\n' => f.write_str("\\n")?,
                '\r' => f.write_str("\\r")?,
                '\t' => f.write_str("\\t")?,
                letter if letter.is_control() => f.write_str("?")?,
                letter => f.write_char(letter)?,
            }
        }
        Ok(())
    }
}
