//! The reading of a master.
ghost use Rattle.std.specs.Prelude.{◌≡◌};
ghost use Rattle.tl_master.specs.Answers.{Asks, Finds};
ghost use Rattle.tl_master.specs.Masters.{listing_in, master_behind, master_of, master_with};

use crate::error::MasterError;
use crate::files::source_files;
use crate::leaves::index_of;
use crate::listing::merged;
use crate::marks::{platforms_mark, platforms_named, read_marks};
use crate::master::Master;
use crate::names::names;
use crate::sources::sources_in;
use std::alloc::Global;
use tl_host::Host;
use tl_marks::{MarkedPath, Marks};
use tl_pattern::Regexps;
use tl_tree::Tree;

// The names of a tree and the marked paths, in one list.
fn listing_in<H: Host>(
    alloc: Global,
    tree: &mut Tree<H>,
    marks: &Marks,
) -> Result<Vec<MarkedPath>, MasterError>
    ensures { Asks H.tells (λ listing. listing.items) (λ t. listing_in t marks.now) tree.old tree.new result }
{
    let names = names(alloc, tree)?;
    let listing = merged(alloc, names, marks.paths())?;
    Ok(listing)
}

// The master of a tree with these marks and listed paths.
fn master_with<H: Host>(
    alloc: Global,
    tree: &mut Tree<H>,
    marks: &Marks,
    listing: Vec<MarkedPath>,
    regexps: &mut Regexps,
) -> Result<Master, MasterError>
    ensures { Finds H.tells (λ master. master) (λ verdicts t. master_with verdicts t marks.now listing.items)
        tree.old tree.new regexps.old regexps.new result }
{
    let files = source_files(alloc, &listing)?;
    let platforms = platforms_named(alloc, marks)?;
    let sources = sources_in(alloc, tree, &files, &platforms, regexps)?;
    let index = index_of(alloc, tree, listing)?;
    Ok(Master {
        sources,
        index,
        platforms,
        platforms_mark: platforms_mark(marks),
        counter: marks.counter(),
    })
}

// The master of a tree with these marks.
fn master_behind<H: Host>(
    alloc: Global,
    tree: &mut Tree<H>,
    marks: &Marks,
    regexps: &mut Regexps,
) -> Result<Master, MasterError>
    ensures { Finds H.tells (λ master. master) (λ verdicts t. master_behind verdicts t marks.now)
        tree.old tree.new regexps.old regexps.new result }
{
    let listing = listing_in(alloc, tree, marks)?;
    master_with(alloc, tree, marks, listing, regexps)
}

impl Master {
    /// The master of a tree. In this order: `TooLarge` of `Marks` and `BadMarks`; `TooLarge` of `Files` where the tree has more than
    /// 1,048,576 names, and of `Sources` where more than 65,536 of them are those of sources; then for each source in the order of the
    /// packages `TooLarge` of `Source`, `BadSource`, and the first fault of its patterns, those of run files before those of
    /// documentation, of sources and of the binaries of each platform. A regular expression is refused for its size only where the count
    /// of `regexps` rose, and `HostFault` comes only where the host's faults rose.
    ///
    /// One walk over all names; it reads the marks and each source, asks for the size of each other file, and changes nothing.
    pub fn load<H: Host>(
        alloc: Global,
        tree: &mut Tree<H>,
        regexps: &mut Regexps,
    ) -> Result<Master, MasterError>
        ensures { Finds H.tells (λ master. master) master_of tree.old tree.new regexps.old regexps.new result }
    {
        let marks = read_marks(alloc, tree)?;
        master_behind(alloc, tree, &marks, regexps)
    }
}
