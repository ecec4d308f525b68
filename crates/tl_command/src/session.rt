//! The state between commands.
ghost use Rattle.std.specs.Prelude.{◌≡◌, is_ok};
ghost use Rattle.tl_model.specs.Causes.{HasCause};
ghost use Rattle.tl_model.specs.Seen.{Told, Says};
ghost use Rattle.tl_command.specs.Performs.{last_of};
ghost use Rattle.tl_command.specs.Sessions.{seen_held};

use std::marker::Model;
use tl_host::Host;
use tl_journal::Clean;
use tl_tree::Tree;

// A volume at rest, or one whose tree is loaded.
#[derive(Drop)]
pub(crate) enum Held<H: Host> {
    Rest(Clean<H>),
    Loaded(Tree<H>),
}

/// The state between two commands: a volume at rest, and its tree where a command has loaded it, so that the next one needn't.
/// Contracts see its host.
#[derive(Drop)]
pub struct Session<H: Host> {
    held: Held<H>,
}

impl<H: Host> Model for Session<H> {
    ghost use Rattle.tl_model.specs.Seen.{Seen, seen_code};

    ghost Value = { Seen };

    ghost coded = { seen_code };

    ghost use Rattle.tl_command.specs.Sessions.{seen_held};

    ghost view = { λ s. seen_held s.held };
}

impl<H: Host> Session<H> {
    /// The session of a volume at rest. No memory.
    pub(crate) fn of_journal(journal: Clean<H>) -> Session<H>
        ensures { result ≡ journal }
    {
        Session {
            held: Held::Rest(journal),
        }
    }

    /// The session of a tree, which stays loaded. No memory.
    pub fn of_tree(tree: Tree<H>) -> Session<H>
        ensures { result ≡ tree.seen }
    {
        Session {
            held: Held::Loaded(tree),
        }
    }

    /// What the session holds. No memory.
    pub(crate) fn into_held(self) -> Held<H>
        ensures { seen_held result ≡ self }
    {
        self.held
    }

    /// The volume at rest; a tree isn't kept. No memory.
    pub(crate) fn into_journal(self) -> Clean<H>
        ensures { result ≡ self }
    {
        match self.held {
            Held::Rest(journal) => journal,
            Held::Loaded(tree) => tree.release(),
        }
    }

    /// Says bytes; where it fails, a front of them is said, and the host is handed back. No memory.
    pub(crate) fn say(self, bytes: &[u8]) -> Result<Session<H>, H>
        ensures says { Told H.tells (Says (is_ok result) bytes.now self (last_of H.seen result)) }
        ensures cause { HasCause self.faults (last_of H.seen result).faults result }
    {
        match self.held {
            Held::Rest(journal) => say_at_rest(journal, bytes),
            Held::Loaded(tree) => say_loaded(tree, bytes),
        }
    }
}

fn say_at_rest<H: Host>(journal: Clean<H>, bytes: &[u8]) -> Result<Session<H>, H>
    ensures says { Told H.tells (Says (is_ok result) bytes.now journal (last_of H.seen result)) }
    ensures cause { HasCause journal.faults (last_of H.seen result).faults result }
{
    let mut journal = journal;
    match journal.say(bytes) {
        Ok(()) => Ok(Session::of_journal(journal)),
        Err(_) => Err(journal.into_host()),
    }
}

fn say_loaded<H: Host>(tree: Tree<H>, bytes: &[u8]) -> Result<Session<H>, H>
    ensures says { Told H.tells (Says (is_ok result) bytes.now tree.seen (last_of H.seen result)) }
    ensures cause { HasCause tree.seen.faults (last_of H.seen result).faults result }
{
    let mut tree = tree;
    match tree.say(bytes) {
        Ok(()) => Ok(Session::of_tree(tree)),
        Err(_) => Err(tree.release().into_host()),
    }
}
