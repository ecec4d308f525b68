//! A step whose bytes come later.
ghost use Rattle.std.specs.Prelude.{◌≡◌, ◌≤◌, ◌+◌, ◌++◌, [], ◌∷◌, true, IfOk, IfErr, length, map, if◌then◌else◌};
ghost use Rattle.std.specs.FinSet as set;
ghost use Rattle.std.specs.Option.{unwrap_or};
ghost use Rattle.tl_model.specs.Causes.{HasCause, HasCauseOf};
ghost use Rattle.tl_model.specs.Seen.{Told, Quiet};
ghost use Rattle.tl_model.specs.Trace.{Cut};
ghost use Rattle.tl_journal_text.specs.Stand.{stand, tree_of};
ghost use Rattle.tl_journal.specs.States.{staged, coming as staged_with};
ghost use Rattle.tl_journal.specs.Spent.{left_by, Stages};
ghost use Rattle.tl_db.specs.Reading.{IsRead};
ghost use Rattle.tl_db.specs.Text.{db_text};
ghost use Rattle.tl_tree.specs.Planted.{planted, database_text, left_tree};
ghost use Rattle.tl_tree.specs.Changes.{named_bytes, coming, later, leaving, has_entries, made, entries_after};
ghost use Rattle.tl_tree.specs.Conditions.{IsChange};
ghost use Rattle.tl_tree.specs.Filled.{filled};
ghost use Rattle.tl_tree.specs.Staged.{AreOutside, FilesOutside, HasStaged};
ghost use Rattle.tl_tree.specs.Opened.{left_step, begun, over, may_begin, with_file, may_come, with_piece, given, given_file, given_piece, with_bytes, IsWhole};
ghost use Rattle.tl_tree.specs.Under.{seen_of, lacks_of};
ghost use Rattle.tl_tree.specs.Answers.{IsAllowed, IsPlanError, IsStageError, IsStepError, IsStepped, step_of};
ghost use Rattle.tl_tree.specs.declared.error.StepError.TheVariants.{HostFault as StepFault};

use crate::arrange::{Work, arrange};
use crate::change::{Change, Part};
use crate::entries::{Plan, plan_change};
use crate::error::StepError;
use crate::leaving::later;
use crate::stage::{ask_sizes, commit_step, stage_all};
use crate::tree::Tree;
use crate::waiting::Waiting;
use std::alloc::Global;
use std::marker::Model;
use tl_db::Db;
use tl_file::FileBytes;
use tl_host::{Failed, Host};
use tl_journal::{Clean, HostFault, Lost, Staging, Writing};
use tl_path::Path;

// Where a step is: between two files, or within one.
#[derive(Drop)]
enum Place<H: Host> {
    Between(Staging<H>),
    Within(Writing<H>),
}

/// A step that was opened. All of its change is staged but the files whose bytes come later: these are given by `file` and `piece`,
/// in any order of the files, and then `finish` makes the step. Until then the volume stands for the old tree. Contracts see the
/// host, the old entries, the change, which paths haven't come, how many bytes the last file lacks, and whether a call was out of
/// place; `given` is the files given so far.
#[derive(Drop)]
pub struct Step<'a, H: Host> {
    place: Place<H>,
    old: Db,
    next: Option<Db>,
    waiting: Waiting,
    change: &'a Change,
    astray: bool,
}

impl<'a, H: Host> Model for Step<'a, H> {
    ghost use Rattle.tl_model.specs.Seen.{Told};
    ghost use Rattle.tl_tree.specs.Opened.{Opened, opened_code};
    ghost use Rattle.tl_tree.specs.Under.{seen_as, IsPlanned, IsUnderWay};
    ghost use Rattle.tl_entry.specs.contracts.object.Object as object;
    ghost use Rattle.tl_tree.specs.contracts.change.Part as part;

    ghost Value = { Opened };

    ghost coded = { opened_code object.the_row.coded part.the_row.coded };

    ghost view = { λ s. seen_as s.place s.old s.change.now.parts s.change.now.label s.waiting s.astray };

    ghost invariant = { λ s. let step = seen_as s.place s.old s.change.now.parts s.change.now.label s.waiting s.astray in
        IsPlanned step s.next × Told H.tells (IsUnderWay step) };
}

// Ends the last file, all of which has come.
fn ended<H: Host>(place: Place<H>) -> Staging<H>
    requires { lacks_of place ≡ 0 }
    ensures seen { result ≡ seen_of place }
    ensures staged { Told H.tells (staged result ≡ staged_with (record { seen = seen_of place; left = 0 }) []) }
{
    match place {
        Place::Between(staging) => staging,
        Place::Within(writing) => writing.end(),
    }
}

// Asks for the size of each file that comes, now or later.
fn ask_all<H: Host>(
    journal: &mut Clean<H>,
    work: &Work<'_>,
    waiting: &Waiting,
) -> Result<(), Failed>
    ensures same { Told H.tells (Quiet journal.old journal.new) }
    ensures cause { HasCause journal.old.faults journal.new.faults result }
{
    ask_sizes(journal, work.writes.as_slice())?;
    waiting.ask_sizes(journal)
}

// Stages all of a change but the files whose bytes come later.
fn stage_plan<H: Host>(
    alloc: Global,
    journal: Clean<H>,
    names: Vec<Path>,
    parts: &[Part],
    made: &[FileBytes],
    waiting: &Waiting,
) -> Result<Staging<H>, Lost<H, StepError>>
    requires names { AreOutside names.items }
    requires files { FilesOutside (coming parts.now ++ map named_bytes made.now) }
    ensures staged { Told H.tells (IfOk result (HasStaged (coming parts.now ++ map named_bytes made.now) waiting.now names.items)) }
    ensures stages { Told H.tells (Stages journal (left_by H.seen result)) }
    ensures error { IfErr result (λ lost. IsStageError lost.fault) }
    ensures cause { HasCauseOf (λ lost. lost.fault ≡ StepFault) journal.faults (left_by H.seen result).faults result }
{
    journal.stands();
    let work = match arrange(alloc, names, parts, made, waiting) {
        Ok(work) => work,
        Err(_) => return Err(Lost {
            host: journal.into_host(),
            fault: StepError::NoMemory,
        }),
    };
    let mut journal = journal;
    if ask_all(&mut journal, &work, waiting).is_err() {
        return Err(Lost {
            host: journal.into_host(),
            fault: StepError::HostFault,
        });
    }
    match stage_all(journal, &work) {
        Ok(staging) => Ok(staging),
        Err(lost) => Err(Lost {
            host: lost.host,
            fault: StepError::HostFault,
        }),
    }
}

// What a change takes and makes, and the paths whose bytes come later.
fn prepare(alloc: Global, db: &Db, parts: &[Part]) -> Result<(Plan, Waiting), StepError>
    ensures leaving { IfOk result (λ both. both.0.names.items ≡ leaving db.now parts.now) }
    ensures made { IfOk result (λ both. map named_bytes both.0.files.items
        ≡ (if has_entries parts.now then made (entries_after parts.now db.now) else [])) }
    ensures next { IfOk result (λ both. unwrap_or both.0.next db.now ≡ entries_after parts.now db.now) }
    ensures read { IfOk result (λ both. has_entries parts.now ≡ true
        → IsRead (db_text (entries_after parts.now db.now)) (entries_after parts.now db.now)) }
    ensures waiting { IfOk result (λ both. both.1 ≡ set.from_list (later parts.now)) }
    ensures error { IfErr result (IsPlanError db.now parts.now) }
{
    let plan = plan_change(alloc, db, parts)?;
    let waiting = Waiting::new(alloc, later(alloc, parts)?)?;
    Ok((plan, waiting))
}

/// Opens the step of a change over a volume whose database has these entries.
pub(crate) fn open<'a, H: Host>(
    alloc: Global,
    journal: Clean<H>,
    old: Db,
    change: &'a Change,
) -> Result<Step<'a, H>, Lost<H, StepError>>
    requires change { IsChange old change.now.parts change.now.label }
    requires read { Told H.tells (IsRead (database_text (tree_of journal.present.held)) old) }
    ensures opened { IfOk result (λ step. step ≡ begun (planted journal old) change.now.parts change.now.label step.seen) }
    ensures given { Told H.tells (IfOk result (λ step. given step ≡ [])) }
    ensures allowed { IfOk result (λ step. IsAllowed (planted journal old) change.now.parts) }
    ensures stages { Told H.tells (Stages journal (left_step H.seen result)) }
    ensures error { IfErr result (λ lost. IsStepError (planted journal old) change.now.parts lost.fault) }
    ensures cause { HasCauseOf (λ lost. lost.fault ≡ StepFault) journal.faults (left_step H.seen result).faults result }
{
    journal.stands();
    let parts = change.parts.as_slice();
    let (plan, waiting) = match prepare(alloc, &old, parts) {
        Ok(both) => both,
        Err(fault) => return Err(Lost {
            host: journal.into_host(),
            fault,
        }),
    };
    let Plan { names, files, next } = plan;
    match stage_plan(alloc, journal, names, parts, files.as_slice(), &waiting) {
        Ok(staging) => Ok(Step {
            place: Place::Between(staging),
            old,
            next,
            waiting,
            change,
            astray: false,
        }),
        Err(lost) => Err(lost),
    }
}

impl<'a, H: Host> Step<'a, H> {
    // Whether a file with this path may begin.
    fn may_begin(&self, path: &Path) -> bool
        ensures { result ≡ may_begin path.now self.now }
    {
        !self.astray && (self.lacks() == 0 && self.waiting.has(path))
    }

    // Whether so many bytes may come.
    fn may_come(&self, count: usize) -> bool
        ensures { result ≡ may_come count self.now }
    {
        !self.astray && count as u64 <= self.lacks()
    }

    // How many bytes the last file lacks.
    fn lacks(&self) -> u64
        ensures { result ≡ self.now.lacks }
    {
        match &self.place {
            Place::Between(_) => 0,
            Place::Within(writing) => writing.left(),
        }
    }

    // The step after a call out of place.
    fn astray(self) -> Step<'a, H>
        ensures { result ≡ record self.entry { astray = true } }
    {
        let mut step = self;
        step.astray = true;
        step
    }

    // Begins a file that may begin.
    fn begin(self, path: &Path, len: u64) -> Result<Step<'a, H>, Lost<H, HostFault>>
        requires { may_begin path.now self ≡ true }
        ensures step { IfOk result (λ step. step ≡ with_file path.now len (over step.seen self.entry)) }
        ensures given { Told H.tells (IfOk result (λ step. given step ≡ given self.entry ++ (path.now, []) ∷ [])) }
        ensures stages { Told H.tells (Stages self.entry.seen (left_step H.seen result)) }
        ensures cause { HasCause self.entry.seen.faults (left_step H.seen result).faults result }
    {
        let Step {
            place,
            old,
            next,
            waiting,
            change,
            astray,
        } = self;
        let mut waiting = waiting;
        let _there = waiting.take(path);
        match ended(place).begin_write(path, len) {
            Ok(writing) => Ok(Step {
                place: Place::Within(writing),
                old,
                next,
                waiting,
                change,
                astray,
            }),
            Err(lost) => Err(lost),
        }
    }

    // Adds bytes that may come to the last file.
    fn add(self, bytes: &[u8]) -> Result<Step<'a, H>, Lost<H, HostFault>>
        requires { may_come (length bytes.now) self ≡ true }
        ensures step { IfOk result (λ step. step ≡ with_piece (length bytes.now) (over step.seen self.entry)) }
        ensures given { Told H.tells (IfOk result (λ step. given step ≡ with_bytes bytes.now (given self.entry))) }
        ensures stages { Told H.tells (Stages self.entry.seen (left_step H.seen result)) }
        ensures cause { HasCause self.entry.seen.faults (left_step H.seen result).faults result }
    {
        let Step {
            place,
            old,
            next,
            waiting,
            change,
            astray,
        } = self;
        let place = match place {
            Place::Between(staging) => Place::Between(staging),
            Place::Within(writing) => match writing.piece(bytes) {
                Ok(writing) => Place::Within(writing),
                Err(lost) => return Err(lost),
            },
        };
        Ok(Step {
            place,
            old,
            next,
            waiting,
            change,
            astray,
        })
    }

    /// Begins the file of a path that hasn't come, of so many bytes, which `piece` brings. Where the file before lacks bytes, or the
    /// path isn't one of those whose bytes come later and haven't come, the call is out of place: it stages nothing, and neither
    /// does any later one, so that the step can only be abandoned. `HostFault` comes only where the host's faults rose. Takes no memory.
    pub fn file(self, path: &Path, len: u64) -> Result<Step<'a, H>, Lost<H, HostFault>>
        ensures step { IfOk result (λ step. step ≡ with_file path.now len (over step.seen self.entry)) }
        ensures given { Told H.tells (IfOk result (λ step. given step ≡ given_file path.now self.entry)) }
        ensures stages { Told H.tells (Stages self.entry.seen (left_step H.seen result)) }
        ensures cause { HasCause self.entry.seen.faults (left_step H.seen result).faults result }
    {
        if self.may_begin(path) {
            self.begin(path, len)
        } else {
            Ok(self.astray())
        }
    }

    /// Gives the next bytes of the last file. Where they are more than that file lacks, or none has begun, the call is out of place,
    /// as `file` says. `HostFault` comes only where the host's faults rose. Takes no memory.
    pub fn piece(self, bytes: &[u8]) -> Result<Step<'a, H>, Lost<H, HostFault>>
        ensures step { IfOk result (λ step. step ≡ with_piece (length bytes.now) (over step.seen self.entry)) }
        ensures given { Told H.tells (IfOk result (λ step. given step ≡ given_piece bytes.now self.entry)) }
        ensures stages { Told H.tells (Stages self.entry.seen (left_step H.seen result)) }
        ensures cause { HasCause self.entry.seen.faults (left_step H.seen result).faults result }
    {
        if self.may_come(bytes.len()) {
            self.add(bytes)
        } else {
            Ok(self.astray())
        }
    }

    /// Makes the step, as `Tree::step` makes that of the change with the files that were given: all of them have come whole, and no
    /// call was out of place. `HostFault` comes only where the host's faults rose. Takes no memory.
    pub fn finish(self) -> Result<Tree<H>, Lost<H, HostFault>>
        requires { IsWhole self }
        ensures db { IfOk result (λ tree. tree.db ≡ entries_after (filled (given self.entry) self.entry.parts) self.entry.db) }
        ensures stepped { Told H.tells (IfOk result (IsStepped (planted self.entry.seen self.entry.db)
            (filled (given self.entry) self.entry.parts) self.entry.label)) }
        ensures lost { Told H.tells (IfErr result (λ lost. Cut stand self.entry.seen (H.seen lost.host) (tree_of self.entry.seen.present.held)
            (step_of (planted self.entry.seen self.entry.db) (filled (given self.entry) self.entry.parts) self.entry.label ∷ []))) }
        ensures syncs { Told H.tells ((left_tree H.seen result).syncs ≤ self.entry.seen.syncs + 2) }
        ensures cause { HasCause self.entry.seen.faults (left_tree H.seen result).faults result }
    {
        let Step {
            place,
            old,
            next,
            waiting: _,
            change,
            astray: _,
        } = self;
        match commit_step(ended(place), change.label.as_slice()) {
            Ok(journal) => Ok(Tree {
                journal,
                entries: next.unwrap_or(old),
            }),
            Err(lost) => Err(lost),
        }
    }

    /// Gives the old tree back. Nothing of the change is left. Takes no memory.
    pub fn abandon(self) -> Tree<H>
        ensures { result ≡ planted self.entry.seen self.entry.db }
    {
        let Step {
            place,
            old,
            next: _,
            waiting: _,
            change: _,
            astray: _,
        } = self;
        let journal = match place {
            Place::Between(staging) => staging.abandon(),
            Place::Within(writing) => writing.abandon(),
        };
        Tree {
            journal,
            entries: old,
        }
    }
}
