//! `dump-tlpdb`: the text of the database.
ghost use Rattle.tl_tree.specs.Planted.{database_text};
ghost use Rattle.tl_command.specs.Endings.{no_devices};
ghost use Rattle.tl_command.specs.Performs.{Performs};
ghost use Rattle.tl_command.specs.Runs.{over_database};
ghost use Rattle.tl_show.specs.Dump.{dump_run};

use std::alloc::Global;
use tl_command::{Acted, Session, canonical_database, say};
use tl_host::Host;

/// Carries `dump-tlpdb` out: says the text of the database in its canonical form, or refuses it at its first fault.
pub fn dump_tlpdb<H: Host>(alloc: Global, session: Session<H>) -> Acted<H>
    ensures { Performs H.tells H.seen (λ tree. over_database dump_run (database_text tree))
        0 session no_devices no_devices result.ending result.state }
{
    match canonical_database(alloc, session) {
        Ok((text, session)) => say(&text, session),
        Err(acted) => acted,
    }
}
