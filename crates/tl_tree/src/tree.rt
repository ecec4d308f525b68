ghost use Rattle.std.specs.Prelude.{◌≡◌, ◌≤◌, ◌+◌, [], false, Some, IfOk, IfErr, is_ok, option_copied};
ghost use Rattle.tl_model.specs.Causes.{HasCause, HasCauseOf};
ghost use Rattle.tl_model.specs.Seen.{Told, Quiet, Says};
ghost use Rattle.tl_journal_text.specs.Stand.{stand, tree_of, Stays};
ghost use Rattle.tl_journal.specs.Spent.{Stages};
ghost use Rattle.tl_db.specs.Reading.{IsRead};
ghost use Rattle.tl_tree.specs.Owners.{owner_of};
ghost use Rattle.tl_tree.specs.Planted.{database_text, left_tree};
ghost use Rattle.tl_tree.specs.Changes.{entries_after};
ghost use Rattle.tl_tree.specs.Conditions.{IsChange, has_later};
ghost use Rattle.tl_tree.specs.Opened.{left_step, begun, given};
ghost use Rattle.tl_tree.specs.Answers.{IsTreeError, IsAllowed, IsLostStep, IsStepError, IsStepped};
ghost use Rattle.tl_tree.specs.declared.error.TreeError.TheVariants.{HostFault as LoadFault};
ghost use Rattle.tl_tree.specs.declared.error.StepError.TheVariants.{HostFault as StepFault};

use crate::change::Change;
use crate::error::{StepError, TreeError};
use crate::load::read_entries;
use crate::own::owner;
use crate::step::{Step, open};
use std::alloc::Global;
use std::marker::Model;
use tl_db::Db;
use tl_host::{Failed, Host};
use tl_journal::{Clean, Lost};
use tl_path::{Name, Path};

/// An installed tree: a volume at rest, and the entries of its database.
#[derive(Drop)]
pub struct Tree<H: Host> {
    pub(crate) journal: Clean<H>,
    pub(crate) entries: Db,
}

impl<H: Host> Model for Tree<H> {
    ghost use Rattle.tl_model.specs.Seen.{Told};
    ghost use Rattle.tl_journal_text.specs.Stand.{tree_of};
    ghost use Rattle.tl_db.specs.Reading.{IsRead};
    ghost use Rattle.tl_tree.specs.Planted.{Planted, planted_code, database_text};
    ghost use Rattle.tl_entry.specs.contracts.object.Object as object;

    ghost Value = { Planted };

    ghost coded = { planted_code object.the_row.coded };

    ghost view = { λ t. record { seen = t.journal; db = t.entries } };

    ghost invariant = { λ t. Told H.tells (IsRead (database_text (tree_of t.journal.present.held)) t.entries) };
}

impl<H: Host> Tree<H> {
    /// The tree of a volume at rest, whose database is read; an absent one is the empty one. In this order: `TooLarge` of
    /// `Database`, `BadDatabase`, `TooLarge` of `Packages`, each exactly as `tl_db::read_db` gives it. `HostFault` comes only
    /// where the host's faults rose. It reads the database alone, and changes nothing.
    pub fn load(alloc: Global, journal: Clean<H>) -> Result<Tree<H>, Lost<H, TreeError>>
        ensures db { Told H.tells (IfOk result (λ tree. IsRead (database_text (tree_of journal.present.held)) tree.db)) }
        ensures error { Told H.tells (IfErr result (λ lost. IsTreeError (database_text (tree_of journal.present.held)) lost.fault)) }
        ensures same { Told H.tells (Quiet journal (left_tree H.seen result)) }
        ensures cause { HasCauseOf (λ lost. lost.fault ≡ LoadFault) journal.faults (left_tree H.seen result).faults result }
    {
        let mut journal = journal;
        match read_entries(alloc, &mut journal) {
            Ok(entries) => Ok(Tree { journal, entries }),
            Err(fault) => Err(Lost {
                host: journal.into_host(),
                fault,
            }),
        }
    }

    /// The entries of the database. Takes no memory.
    pub fn db(&self) -> &Db
        ensures { result.now ≡ self.now.db }
    {
        &self.entries
    }

    /// The least name of an entry among whose files the path is; `None` exactly where no entry has it. Takes no memory.
    pub fn owner(&self, path: &Path) -> Option<&Name>
        ensures { option_copied result ≡ owner_of path.now self.now.db }
    {
        owner(&self.entries, path)
    }

    /// Gives the volume back as it is, at rest.
    pub fn release(self) -> Clean<H>
        ensures { result ≡ self.seen }
    {
        self.journal
    }

    /// Says bytes. Where it fails, a front of them is said.
    pub fn say(&mut self, bytes: &[u8]) -> Result<(), Failed>
        ensures says { Told H.tells (Says (is_ok result) bytes.now self.old.seen self.new.seen) }
        ensures db { self.new.db ≡ self.old.db }
        ensures cause { HasCause self.old.seen.faults self.new.seen.faults result }
    {
        self.journal.say(bytes)
    }

    /// The entries are what the database in the tree reads as, within its limits, and the volume stands for its tree, as does each
    /// picture that a stop may leave now.
    pub fn stands(&self)
        ensures read { Told H.tells (IsRead (database_text (tree_of self.now.seen.present.held)) self.now.db) }
        ensures tree { Told H.tells (stand self.now.seen.present.held ≡ Some (tree_of self.now.seen.present.held)) }
        ensures stays { Told H.tells (Stays self.now.seen self.now.seen) }
    {
        self.journal.stands();
    }

    /// Makes a step: in it all files of the old entries of the names put or removed leave, the files put and written come, the
    /// paths erased go, and the database changes at those names and entries; where it does, the database and the five files made
    /// from it are written. After the commit the label is said. Each picture that a stop may leave stands for the tree before
    /// the step or after it, and for the latter once the label's line is whole. No bytes of the change come later.
    ///
    /// `TooLarge` comes exactly where the change speaks of an entry and the database that it would leave passes a limit:
    /// `Packages`, 65,536 entries, before `Database`, 268,435,456 bytes. `HostFault` comes only where the host's faults rose;
    /// `NoMemory` only before the commit. It syncs twice at most.
    pub fn step(self, alloc: Global, change: &Change) -> Result<Tree<H>, Lost<H, StepError>>
        requires change { IsChange self.db change.now.parts change.now.label }
        requires whole { has_later change.now.parts ≡ false }
        ensures db { IfOk result (λ tree. (tree.db ≡ entries_after change.now.parts self.db) × IsAllowed self change.now.parts) }
        ensures stepped { Told H.tells (IfOk result (IsStepped self change.now.parts change.now.label)) }
        ensures error { IfErr result (λ lost. IsStepError self change.now.parts lost.fault) }
        ensures lost { Told H.tells (IfErr result (λ lost. IsLostStep self change.now.parts change.now.label lost.fault (H.seen lost.host))) }
        ensures syncs { Told H.tells ((left_tree H.seen result).syncs ≤ self.seen.syncs + 2) }
        ensures cause { HasCauseOf (λ lost. lost.fault ≡ StepFault) self.seen.faults (left_tree H.seen result).faults result }
    {
        self.stands();
        let step = match self.open_step(alloc, change) {
            Ok(step) => step,
            Err(lost) => return Err(lost),
        };
        match step.finish() {
            Ok(tree) => Ok(tree),
            Err(lost) => Err(Lost {
                host: lost.host,
                fault: StepError::HostFault,
            }),
        }
    }

    /// Opens the step of a change, files of which may come later: all else of it is made and staged. `Step::finish` makes it, and
    /// until then the volume stands for the old tree. The old entries stay beside the new ones. `TooLarge` as of `step`; `HostFault`
    /// comes only where the host's faults rose.
    pub fn open_step<'a>(
        self,
        alloc: Global,
        change: &'a Change,
    ) -> Result<Step<'a, H>, Lost<H, StepError>>
        requires { IsChange self.db change.now.parts change.now.label }
        ensures opened { IfOk result (λ step. (step ≡ begun self change.now.parts change.now.label step.seen) × IsAllowed self change.now.parts) }
        ensures given { Told H.tells (IfOk result (λ step. given step ≡ [])) }
        ensures stages { Told H.tells (Stages self.seen (left_step H.seen result)) }
        ensures error { IfErr result (λ lost. IsStepError self change.now.parts lost.fault) }
        ensures cause { HasCauseOf (λ lost. lost.fault ≡ StepFault) self.seen.faults (left_step H.seen result).faults result }
    {
        let journal = self.journal;
        let entries = self.entries;
        open(alloc, journal, entries, change)
    }
}
