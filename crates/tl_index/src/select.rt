//! What patterns choose among the entries: each pattern is looked for where it can hit alone.
ghost use Rattle.std.specs.Prelude.{◌≡◌, ◌≤◌, ◌+◌, true, if◌then◌else◌, IfOk, OnOk};
ghost use Rattle.std.specs.List.Sorted.{IsStrictlySortedBy};
ghost use Rattle.std.specs.Ordering.{nat_cmp};
ghost use Rattle.tl_path.specs.Components.{components, is_below};
ghost use Rattle.tl_pattern.specs.declared.kind.PatternKind.TheVariants.{F, R};
ghost use Rattle.tl_pattern.specs.Hits.{hits, hits_tree, is_in_range};
ghost use Rattle.tl_entry.specs.Rising.{is_rising};
ghost use Rattle.tl_index.specs.Entries.{path_of};
ghost use Rattle.tl_index.specs.Select.{selected, range_count, range_counts, IsApplied, at_places};
ghost use Rattle.tl_index.specs.Trees.{AreWords};

use crate::fronts::{plain_front, stretch};
use crate::hit::Hit;
use crate::index::Index;
use crate::places::Places;
use crate::trees::{bounds, folder_in};
use std::alloc::{AllocError, Global};
use std::ops::Bound;
use tl_host::{Ledger, Steps};
use tl_path::Path;
use tl_pattern::{PlacedPattern, Reach, is_beside, matcher, matches, matches_re};

impl Index {
    ghost use Rattle.std.specs.Prelude.{ℕ, List};

    /// The entries whose last pattern that hits is positive, gone ones too, in the order of their bytes. A pattern of the kind `F` is
    /// looked for at the front that its glob has, `D` below its folder, `T` below the folders of its name that are below its first words,
    /// and `R` everywhere; so the time grows with what is hit. One tick for each pattern that is tested against a path.
    pub fn select<L: Ledger>(
        &self,
        alloc: Global,
        patterns: &[PlacedPattern],
        steps: &mut Steps<L>,
    ) -> Result<Vec<Hit>, AllocError>
        ensures hits { IfOk result (λ hits. hits.items ≡ selected patterns.now self.now) }
        ensures order { IfOk result (λ hits. is_rising path_of hits.items ≡ true) }
        ensures ticks { L.count steps.new ≤ L.count steps.old + range_counts patterns.now self.now }
    {
        let mut places = Places::new(alloc);
        for placed in patterns {
            self.apply(alloc, placed, &mut places, steps)?;
        }
        hits_at(alloc, self.hits(), &places)
    }

    // Puts in the places of what a pattern hits, or takes them out.
    fn apply<L: Ledger>(
        &self,
        alloc: Global,
        placed: &PlacedPattern,
        places: &mut Places,
        steps: &mut Steps<L>,
    ) -> Result<(), AllocError>
        ensures applied { OnOk result (IsApplied (hits placed.now.pattern) placed.now.positive self.now places.old places.new) }
        ensures ticks { L.count steps.new ≤ L.count steps.old + range_count placed.now.pattern self.now }
    {
        match placed.pattern.reach() {
            Reach::File(file) => self.apply_file(placed, file, places, steps),
            Reach::Folder(folder) => self.apply_folder(alloc, folder, placed.positive, places),
            Reach::Tree(words, name) => self.apply_tree(
                alloc,
                words,
                name,
                placed.positive,
                places,
            ),
            Reach::All => self.apply_all(alloc, placed, places, steps),
        }
    }

    fn apply_file<L: Ledger>(
        &self,
        placed: &PlacedPattern,
        file: &Path,
        places: &mut Places,
        steps: &mut Steps<L>,
    ) -> Result<(), AllocError>
        requires kind { placed.now.pattern.kind ≡ F }
        requires file { file.now ≡ placed.now.pattern.text }
        ensures applied { OnOk result (IsApplied (hits placed.now.pattern) placed.now.positive self.now places.old places.new) }
        ensures ticks { L.count steps.new ≤ L.count steps.old + range_count placed.now.pattern self.now }
    {
        let (low, high) = stretch(&self.entries, plain_front(file.bytes()));
        for place in low..high {
            let is_hit = is_file_hit(placed, file, &self.entries[place].path, steps);
            places.set_if(is_hit, place, placed.positive)?;
        }
        Ok(())
    }

    fn apply_folder(
        &self,
        alloc: Global,
        folder: &Path,
        positive: bool,
        places: &mut Places,
    ) -> Result<(), AllocError>
        ensures { OnOk result (IsApplied (λ path. is_below path folder.now) positive self.now places.old places.new) }
    {
        let (low, high) = self.stretch_below(alloc, folder.bytes())?;
        places.set_all(low, high, positive)
    }

    fn apply_tree(
        &self,
        alloc: Global,
        words: &[Path],
        name: &Path,
        positive: bool,
        places: &mut Places,
    ) -> Result<(), AllocError>
        requires { AreWords words.now name.now }
        ensures { OnOk result (IsApplied (λ path. hits_tree words.now name.now (components path)) positive self.now places.old places.new) }
    {
        let (front, behind) = bounds(alloc, words, name)?;
        for key in self
            .folders
            .keys
            .range((Bound::Included(&front), Bound::Excluded(&behind)))
        {
            let (low, high) = self.stretch_below(alloc, folder_in(key))?;
            places.set_all(low, high, positive)?;
        }
        Ok(())
    }

    fn apply_all<L: Ledger>(
        &self,
        alloc: Global,
        placed: &PlacedPattern,
        places: &mut Places,
        steps: &mut Steps<L>,
    ) -> Result<(), AllocError>
        requires { placed.now.pattern.kind ≡ R }
        ensures applied { OnOk result (IsApplied (hits placed.now.pattern) placed.now.positive self.now places.old places.new) }
        ensures ticks { L.count steps.new ≤ L.count steps.old + range_count placed.now.pattern self.now }
    {
        let mut matcher = matcher(alloc, &placed.pattern)?;
        for place in 0..self.entries.len() {
            let path = &self.entries[place].path;
            let is_hit = matches_re(&placed.pattern, &mut matcher, path, steps)?;
            places.set_if(is_hit, place, placed.positive)?;
        }
        Ok(())
    }
}

// The entries at some places.
fn hits_at(alloc: Global, entries: &[Hit], places: &Places) -> Result<Vec<Hit>, AllocError>
    ensures hits { IfOk result (λ hits. hits.items ≡ at_places places.now entries.now) }
    ensures order { IsStrictlySortedBy nat_cmp places.now }
{
    let mut hits = Vec::new(alloc);
    for place in &places.set {
        if *place < entries.len() {
            hits.push(entries[*place].clone()?)?;
        }
    }
    Ok(hits)
}

// Whether a pattern of the kind `F` hits a path; one tick for a path directly in its folder.
fn is_file_hit<L: Ledger>(
    placed: &PlacedPattern,
    file: &Path,
    path: &Path,
    steps: &mut Steps<L>,
) -> bool
    requires kind { placed.now.pattern.kind ≡ F }
    requires file { file.now ≡ placed.now.pattern.text }
    ensures hit { result ≡ hits placed.now.pattern path.now }
    ensures ticks { L.count steps.new ≤ L.count steps.old + (if is_in_range placed.now.pattern path.now then 1 else 0) }
{
    is_beside(file, path) && matches(&placed.pattern, path, steps)
}
