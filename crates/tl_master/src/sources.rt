//! The sources of a master.
ghost use Rattle.std.specs.Prelude.{◌≡◌, ◌≤◌, ◌++◌, ◌∷◌, [], length, vec_len, IfOk, IfErr, OnOk};
ghost use Rattle.tl_kind.specs.Quantities.{limit_of};
ghost use Rattle.tl_kind.specs.declared.quantity.What.TheVariants as quantities;
ghost use Rattle.tl_srctext.specs.Reading.{source_of};
ghost use Rattle.tl_expand.specs.Objects.{objects_of};
ghost use Rattle.tl_master.specs.Answers.{Asks, Finds, Judges};
ghost use Rattle.tl_master.specs.Sources.{checked, from_text, no_stamp, pattern_fault, source_in, sources_in, text_of_source};

use crate::error::MasterError;
use crate::files::SourceFile;
use crate::master::MarkedSource;
use std::alloc::{AllocError, Global};
use tl_auto::{AutoError, Platforms};
use tl_expand::{Stamp, expand};
use tl_host::Host;
use tl_index::Index;
use tl_kind::{RegexpKind, What};
use tl_path::Name;
use tl_pattern::Regexps;
use tl_srctext::{SourceError, SourceText, read};
use tl_tree::{ContentsError, Tree};

/// The fault of a pattern of a package's source.
pub(crate) fn pattern_fault(name: Name, fault: AutoError) -> MasterError
    ensures { result ≡ pattern_fault name fault }
{
    match fault {
        AutoError::UnsetVariable { line } => MasterError::UnsetVariable { name, line },
        AutoError::BadPath { line } => MasterError::BadPath { name, line },
        AutoError::Syntax { line } => {
            let kind = RegexpKind::Syntax;
            MasterError::Regexp { name, line, kind }
        }
        AutoError::Size { line } => {
            let kind = RegexpKind::Size;
            MasterError::Regexp { name, line, kind }
        }
        AutoError::NoMemory => MasterError::NoMemory,
    }
}

// The text of a source; an absent one is empty.
fn text_of<H: Host>(
    alloc: Global,
    tree: &mut Tree<H>,
    file: &SourceFile,
) -> Result<Vec<u8>, MasterError>
    ensures text { Asks H.tells (λ text. text.items) (λ t. text_of_source t file.now) tree.old tree.new result }
    ensures within { IfOk result (λ text. vec_len text ≤ limit_of quantities.Source) }
{
    match tree.contents(alloc, file.path.view(), What::Source) {
        Ok(Some(text)) => Ok(text),
        Ok(None) => Ok(Vec::new(alloc)),
        Err(ContentsError::TooLarge { what, limit }) => Err(MasterError::TooLarge { what, limit }),
        Err(ContentsError::HostFault) => Err(MasterError::HostFault),
        Err(ContentsError::NoMemory) => Err(MasterError::NoMemory),
    }
}

// A source, where its patterns have no fault: they are looked at in the order in which its entries are made, of which there are none yet.
fn checked(
    alloc: Global,
    file: &SourceFile,
    source: SourceText,
    platforms: &Platforms,
    regexps: &mut Regexps,
) -> Result<MarkedSource, MasterError>
    ensures { Judges (λ source. source)
        (λ verdicts. checked file.now source (objects_of verdicts source no_stamp [] platforms.now)) regexps.old regexps.new result }
{
    let stamp = Stamp {
        source: 0,
        platforms: 0,
    };
    let files = Index::new(alloc);
    match expand(alloc, &source, stamp, &files, platforms, regexps) {
        Ok(_) => Ok(MarkedSource {
            source,
            mark: file.mark,
        }),
        Err(fault) => Err(pattern_fault(file.name.clone()?, fault)),
    }
}

// A source, by its text.
fn from_text(
    alloc: Global,
    file: &SourceFile,
    text: &[u8],
    platforms: &Platforms,
    regexps: &mut Regexps,
) -> Result<MarkedSource, MasterError>
    requires { length text.now ≤ limit_of quantities.Source }
    ensures { Judges (λ source. source)
        (λ verdicts. from_text verdicts platforms.now file.now (source_of file.now.name text.now)) regexps.old regexps.new result }
{
    match read(alloc, &file.name, text) {
        Ok(source) => checked(alloc, file, source, platforms, regexps),
        Err(SourceError::BadSource { line, kind }) => {
            let name = file.name.clone()?;
            Err(MasterError::BadSource { name, line, kind })
        }
        Err(SourceError::TooLarge { .. }) => unreachable!(),
        Err(SourceError::NoMemory) => Err(MasterError::NoMemory),
    }
}

// The source of a file.
fn source_in<H: Host>(
    alloc: Global,
    tree: &mut Tree<H>,
    file: &SourceFile,
    platforms: &Platforms,
    regexps: &mut Regexps,
) -> Result<MarkedSource, MasterError>
    ensures { Finds H.tells (λ source. source) (λ verdicts t. source_in verdicts t platforms.now file.now)
        tree.old tree.new regexps.old regexps.new result }
{
    let text = text_of(alloc, tree, file)?;
    from_text(alloc, file, &text, platforms, regexps)
}

fn push(sources: &mut Vec<MarkedSource>, source: MarkedSource) -> Result<(), AllocError>
    ensures { OnOk result (sources.new.items ≡ sources.old.items ++ source ∷ []) }
{
    sources.push(source)?;
    Ok(())
}

/// The sources of files, in their order. `TooLarge` of `Source`, `BadSource`, and then the first fault of the patterns: of the first source
/// that has one of these.
pub(crate) fn sources_in<H: Host>(
    alloc: Global,
    tree: &mut Tree<H>,
    files: &[SourceFile],
    platforms: &Platforms,
    regexps: &mut Regexps,
) -> Result<Vec<MarkedSource>, MasterError>
    ensures { Finds H.tells (λ sources. sources.items) (λ verdicts t. sources_in verdicts t platforms.now files.now)
        tree.old tree.new regexps.old regexps.new result }
{
    let mut sources = Vec::new(alloc);
    for file in files {
        let source = source_in(alloc, tree, file, platforms, regexps)?;
        push(&mut sources, source)?;
    }
    Ok(sources)
}
