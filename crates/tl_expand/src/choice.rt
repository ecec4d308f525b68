//! What the sections of a source choose among files.
ghost use Rattle.std.specs.Prelude.{◌≡◌, ◌++◌, ◌∷◌, [], true, not, ◌==◌, length, IfOk, OnOk};
ghost use Rattle.tl_entry.specs.Rising.{is_rising};
ghost use Rattle.tl_index.specs.Entries.{path_of};
ghost use Rattle.tl_auto.specs.Pushing.{Judges};
ghost use Rattle.tl_auto.specs.Wanted.{IsSectionOf};
ghost use Rattle.tl_auto.specs.declared.section.Section.TheVariants.{Bin};
ghost use Rattle.tl_expand.specs.Choices.{chosen_in, chosen_bins, bin_count, choice_in, has_binaries, greatest_mark, greatest_of_all, first_mark, revision_of};

use std::alloc::{AllocError, Global};
use std::marker::Model;
use tl_auto::{AutoError, Platforms, Section, effective};
use tl_host::{Steps, Tally};
use tl_index::{Hit, Index};
use tl_pattern::Regexps;
use tl_srctext::{Series, SourceFields, SourceText};

/// The marks of a source and of the platforms.
#[derive(Clone, Copy, Debug, PartialEq, Eq)]
pub struct Stamp {
    pub source: u32,
    pub platforms: u32,
}

// What a section chooses, in the order of the paths.
#[derive(Drop)]
pub(crate) struct Chosen {
    hits: Vec<Hit>,
}

impl Model for Chosen {
    ghost use Rattle.std.specs.Prelude.{◌≡◌, true, List};
    ghost use Rattle.tl_entry.specs.Rising.{is_rising};
    ghost use Rattle.tl_index.specs.declared.hit.Hit.{Hit};
    ghost use Rattle.tl_index.specs.Entries.{path_of};

    ghost Value = { List Hit };

    ghost view = { λ a. a.hits.items };

    ghost invariant = { λ a. is_rising path_of a.hits.items ≡ true };
}

impl Chosen {
    pub(crate) fn hits(&self) -> &[Hit]
        ensures hits { result.now ≡ self.now }
        ensures rising { is_rising path_of self.now ≡ true }
    {
        self.hits.as_slice()
    }
}

fn push(lists: &mut Vec<Chosen>, chosen: Chosen) -> Result<(), AllocError>
    ensures { OnOk result (lists.new.items ≡ lists.old.items ++ chosen ∷ []) }
{
    lists.push(chosen)?;
    Ok(())
}

// What all sections choose; the binaries by platform, none where the source has no pattern of binaries.
#[derive(Drop)]
pub(crate) struct Choice {
    pub(crate) run: Chosen,
    pub(crate) doc: Chosen,
    pub(crate) src: Chosen,
    pub(crate) bins: Series<Chosen>,
}

// A source, the platforms and the files that there are.
#[derive(Drop)]
pub(crate) struct Expansion<'s> {
    pub(crate) source: &'s SourceText,
    pub(crate) platforms: &'s Platforms,
    pub(crate) index: &'s Index,
}

impl<'s> Expansion<'s> {
    fn chosen(
        &self,
        alloc: Global,
        section: Section,
        regexps: &mut Regexps,
    ) -> Result<Chosen, AutoError>
        requires { IsSectionOf section (length self.now.platforms.now) }
        ensures { Judges (λ chosen. chosen)
            (λ verdicts. chosen_in verdicts self.now.source.now self.now.platforms.now self.now.index.now section) regexps.old regexps.new result }
    {
        let patterns = effective(alloc, self.source, section, self.platforms, regexps)?;
        let mut steps = Steps::new(Tally::new());
        let hits = self.index.select(alloc, &patterns, &mut steps)?;
        Ok(Chosen { hits })
    }

    fn bin_count(&self) -> u32
        ensures { result ≡ bin_count self.now.source.now self.now.platforms.now }
    {
        if has_binaries(self.source.fields()) {
            self.platforms.len()
        } else {
            0
        }
    }

    fn bins(&self, alloc: Global, regexps: &mut Regexps) -> Result<Series<Chosen>, AutoError>
        ensures { Judges (λ bins. bins)
            (λ verdicts. chosen_bins (λ i. chosen_in verdicts self.now.source.now self.now.platforms.now self.now.index.now (Bin i))
            (bin_count self.now.source.now self.now.platforms.now)) regexps.old regexps.new result }
    {
        let mut bins = Vec::new(alloc);
        for number in 0..self.bin_count() {
            let chosen = self.chosen(alloc, Section::Bin(number), regexps)?;
            push(&mut bins, chosen)?;
        }
        Ok(Series::new(bins))
    }

    // What all sections choose.
    pub(crate) fn choice(&self, alloc: Global, regexps: &mut Regexps) -> Result<Choice, AutoError>
        ensures { Judges (λ choice. choice)
            (λ verdicts. choice_in verdicts self.now.source.now self.now.platforms.now self.now.index.now) regexps.old regexps.new result }
    {
        let run = self.chosen(alloc, Section::Run, regexps)?;
        let doc = self.chosen(alloc, Section::Doc, regexps)?;
        let src = self.chosen(alloc, Section::Src, regexps)?;
        let bins = self.bins(alloc, regexps)?;
        Ok(Choice {
            run,
            doc,
            src,
            bins,
        })
    }
}

// Whether a source has patterns of binaries.
pub(crate) fn has_binaries(source: &SourceFields) -> bool
    ensures { result ≡ has_binaries source.now }
{
    !source.bin.as_slice().is_empty()
}

// The greatest of a mark and those of some files.
fn greatest_mark(mark: u32, hits: &[Hit]) -> u32
    ensures { result ≡ greatest_mark mark hits.now }
{
    hits.iter()
        .fold(mark, |greatest, hit| greatest.max(hit.leaf.mark))
}

fn greatest_of_all(mark: u32, lists: &[Chosen]) -> u32
    ensures { result ≡ greatest_of_all mark lists.now }
{
    let mut greatest = mark;
    for chosen in lists {
        greatest = greatest_mark(greatest, chosen.hits());
    }
    greatest
}

fn first_mark(source: &SourceFields, stamp: Stamp) -> u32
    ensures { result ≡ first_mark source.now stamp }
{
    if has_binaries(source) {
        stamp.source.max(stamp.platforms)
    } else {
        stamp.source
    }
}

// The revision of a source's entries.
pub(crate) fn revision_of(source: &SourceFields, stamp: Stamp, choice: &Choice) -> u32
    ensures { result ≡ revision_of source.now stamp choice.now }
{
    let of_run = greatest_mark(first_mark(source, stamp), choice.run.hits());
    let of_doc = greatest_mark(of_run, choice.doc.hits());
    let of_src = greatest_mark(of_doc, choice.src.hits());
    greatest_of_all(of_src, choice.bins.as_slice())
}
