//! A master as a value.
ghost use Rattle.std.specs.Prelude.{◌≡◌};

use std::marker::Model;
use tl_auto::Platforms;
use tl_index::Index;
use tl_srctext::SourceText;

/// The source of a package, and the mark of its last change.
#[derive(Drop)]
pub struct MarkedSource {
    pub source: SourceText,
    pub mark: u32,
}

/// The master of a tree: its sources in the order of their names, its paths, gone ones too, its platforms and its counter.
#[derive(Drop)]
pub struct Master {
    pub(crate) sources: Vec<MarkedSource>,
    pub(crate) index: Index,
    pub(crate) platforms: Platforms,
    pub(crate) platforms_mark: u32,
    pub(crate) counter: u32,
}

impl Model for Master {
    ghost use Rattle.tl_master.specs.Masters as masters;

    ghost Value = { masters.Master };

    ghost view = { λ m. record {
      sources = m.sources.items;
      index = m.index;
      platforms = m.platforms;
      platforms_mark = m.platforms_mark;
      counter = m.counter;
    } };
}

impl Master {
    /// The sources, in the order of their names. Takes no memory.
    pub fn sources(&self) -> &[MarkedSource]
        ensures { result.now ≡ self.now.sources }
    {
        self.sources.as_slice()
    }

    /// The paths that aren't reserved: those that are there, and those that are gone and have a mark. Takes no memory.
    pub fn index(&self) -> &Index
        ensures { result.now ≡ self.now.index }
    {
        &self.index
    }

    /// The platforms. Takes no memory.
    pub fn platforms(&self) -> &Platforms
        ensures { result.now ≡ self.now.platforms }
    {
        &self.platforms
    }

    /// The mark of the platforms, 0 where they were never set. Takes no memory.
    pub fn platforms_mark(&self) -> u32
        ensures { result ≡ self.now.platforms_mark }
    {
        self.platforms_mark
    }

    /// How many changes there were. Takes no memory.
    pub fn counter(&self) -> u32
        ensures { result ≡ self.now.counter }
    {
        self.counter
    }
}
