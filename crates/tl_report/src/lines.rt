//! The lines of a report on what is wrong with a tree.
ghost use Rattle.std.specs.Prelude.{◌≡◌, ◌==◌, [], ◌++◌, ◌∷◌, length, string_bytes, map, IfOk, OnOk};
ghost use Rattle.tl_model.specs.Acks.{IsPlain};
ghost use Rattle.tl_model.specs.Lines.{IsLine, text_of};
ghost use Rattle.tl_entry.specs.FilePaths.{rising_of};
ghost use Rattle.tl_report.specs.Lines.{IsReportLine, word_of, line_of, in_order};

use std::alloc::{AllocError, Global};
use std::marker::Model;

/// What is wrong with something.
#[derive(Clone, Copy)]
pub(crate) enum Finding {
    /// A file of a package isn't there.
    Missing,
    /// A depend of a package stands for a name that no package has.
    Depends,
    /// Two packages have a path.
    Duplicate,
    /// An execute of a package doesn't read.
    Execute,
}

impl Finding {
    fn word(self) -> &'static str
        ensures { result.now ≡ word_of self }
    {
        match self {
            Finding::Missing => "missing",
            Finding::Depends => "depends",
            Finding::Duplicate => "duplicate",
            Finding::Execute => "execute",
        }
    }
}

// The line of a finding.
fn line_of(alloc: Global, finding: Finding, thing: &str, about: &str) -> Result<String, AllocError>
    requires thing { IsLine thing.now }
    requires about { IsLine about.now }
    ensures line { IfOk result (λ line. string_bytes line ≡ line_of finding thing.now about.now) }
    ensures report { IfOk result (λ line. IsReportLine (string_bytes line)) }
{
    let word = finding.word();
    format!(in alloc; "{word} {thing} {about}")
}

/// Lines of a report, in the order in which they were found. None is an acknowledgement.
#[derive(Drop)]
pub(crate) struct Lines {
    items: Vec<String>,
}

impl Model for Lines {
    ghost use Rattle.std.specs.Prelude.{List, ℕ, map, string_bytes};
    ghost use Rattle.std.specs.List.{AllByRecursion};
    ghost use Rattle.tl_report.specs.Lines.{IsReportLine};

    ghost Value = { List (List ℕ) };

    ghost view = { λ l. map string_bytes l.items.items };

    ghost invariant = { λ l. AllByRecursion IsReportLine (map string_bytes l.items.items) };
}

impl Lines {
    /// No lines. Takes no memory.
    pub(crate) fn new(alloc: Global) -> Lines
        ensures { result ≡ [] }
    {
        Lines {
            items: Vec::new(alloc),
        }
    }

    /// Adds the line of a finding.
    pub(crate) fn push(
        &mut self,
        alloc: Global,
        finding: Finding,
        thing: &str,
        about: &str,
    ) -> Result<(), AllocError>
        requires thing { IsLine thing.now }
        requires about { IsLine about.now }
        ensures { OnOk result (self.new ≡ self.old ++ line_of finding thing.now about.now ∷ []) }
    {
        let line = line_of(alloc, finding, thing, about)?;
        self.items.push(line)?;
        Ok(())
    }

    /// Adds a line that is whole and no acknowledgement.
    pub(crate) fn add(&mut self, line: String) -> Result<(), AllocError>
        requires { IsReportLine (string_bytes line) }
        ensures { OnOk result (self.new ≡ self.old ++ string_bytes line ∷ []) }
    {
        self.items.push(line)?;
        Ok(())
    }

    /// Whether there is no line. Takes no memory.
    pub(crate) fn is_empty(&self) -> bool
        ensures { result ≡ (length self.now == 0) }
    {
        self.items.is_empty()
    }

    /// The lines as a text, in the order in which they were added.
    pub(crate) fn to_text(&self, alloc: Global) -> Result<Vec<u8>, AllocError>
        ensures text { IfOk result (λ text. text.items ≡ text_of self.now) }
        ensures plain { IfOk result (λ text. IsPlain text.items) }
    {
        text_of(alloc, &self.items)
    }

    /// The lines as a text, in the order of their bytes, each once. n lines cost n log n comparisons.
    pub(crate) fn into_text(self, alloc: Global) -> Result<Vec<u8>, AllocError>
        ensures text { IfOk result (λ text. text.items ≡ in_order self) }
        ensures plain { IfOk result (λ text. IsPlain text.items) }
    {
        let mut lines = self.items;
        lines.sort_unstable();
        lines.dedup();
        text_of(alloc, &lines)
    }
}

// The text of some lines, each with its end.
fn text_of(alloc: Global, lines: &[String]) -> Result<Vec<u8>, AllocError>
    ensures { IfOk result (λ text. text.items ≡ text_of (map string_bytes lines.now)) }
{
    let mut text = Vec::new(alloc);
    for line in lines {
        text.extend_from_slice(line.as_bytes())?;
        text.push(b'\n')?;
    }
    Ok(text)
}
