//! A source as a value.
ghost use Rattle.std.specs.Prelude.{◌≡◌, IfOk, OnOk};
ghost use Rattle.tl_srctext.specs.Reading.{no_fields, with_said, with_pattern};

use crate::key::Section;
use crate::line::Said;
use crate::pattern::SourcePattern;
use crate::series::Series;
use crate::variable::Vars;
use std::alloc::{AllocError, Global};
use tl_entry::Texts;
use tl_path::{Category, Name};
use tl_text::Text;

/// What a source says. Its texts have no blanks at their ends, and of those but the descriptions none is empty.
#[derive(Drop)]
pub struct SourceFields {
    /// The package's name, which is that of the source's file.
    pub name: Name,
    /// What kind of package it is.
    pub category: Category,
    /// The package's name in the catalogue, where that is another one.
    pub catalogue: Option<Text>,
    /// What the package is, in short.
    pub shortdesc: Option<Text>,
    /// What the package is, at length.
    pub longdesc: Texts,
    /// The packages that it needs.
    pub depends: Texts,
    /// What it adds to generated files.
    pub executes: Texts,
    /// What is to be done once it is installed.
    pub postactions: Texts,
    /// Values that stand for variables in its patterns.
    pub vars: Vars,
    /// The patterns of the files that it needs at work.
    pub run: Series<SourcePattern>,
    /// The patterns of its sources.
    pub src: Series<SourcePattern>,
    /// The patterns of its documentation.
    pub doc: Series<SourcePattern>,
    /// The patterns of its binaries.
    pub bin: Series<SourcePattern>,
}

impl SourceFields {
    // A source that says nothing.
    pub(crate) fn new(alloc: Global, name: &Name) -> Result<SourceFields, AllocError>
        ensures { IfOk result (λ fields. fields ≡ no_fields name.now) }
    {
        Ok(SourceFields {
            name: name.clone()?,
            category: Category::Package,
            catalogue: None,
            shortdesc: None,
            longdesc: Texts::new(Vec::new(alloc)),
            depends: Texts::new(Vec::new(alloc)),
            executes: Texts::new(Vec::new(alloc)),
            postactions: Texts::new(Vec::new(alloc)),
            vars: Vars::new(alloc),
            run: Series::new(Vec::new(alloc)),
            src: Series::new(Vec::new(alloc)),
            doc: Series::new(Vec::new(alloc)),
            bin: Series::new(Vec::new(alloc)),
        })
    }

    fn add_pattern(&mut self, section: Section, pattern: SourcePattern) -> Result<(), AllocError>
        ensures { OnOk result (self.new ≡ with_pattern self.old section pattern) }
    {
        match section {
            Section::Run => self.run.push(pattern),
            Section::Src => self.src.push(pattern),
            Section::Doc => self.doc.push(pattern),
            Section::Bin => self.bin.push(pattern),
        }
    }

    // Takes what a further line says.
    pub(crate) fn take(&mut self, said: Said) -> Result<(), AllocError>
        ensures { OnOk result (self.new ≡ with_said self.old said) }
    {
        match said {
            Said::Name => {}
            Said::Category(category) => self.category = category,
            Said::Catalogue(text) => self.catalogue = Some(text),
            Said::Shortdesc(text) => self.shortdesc = Some(text),
            Said::Longdesc(text) => self.longdesc.push(text)?,
            Said::Depend(text) => self.depends.push(text)?,
            Said::Execute(text) => self.executes.push(text)?,
            Said::Postaction(text) => self.postactions.push(text)?,
            Said::Variable(name, value) => self.vars.set(name, value)?,
            Said::Pattern(section, pattern) => self.add_pattern(section, pattern)?,
        }
        Ok(())
    }
}
