//! The order of packages.
ghost use Rattle.std.specs.Prelude.{◌≡◌, ◌++◌, IfOk, OnOk};
ghost use Rattle.std.specs.Prelude.{IsPermutation, IsSorted};
ghost use Rattle.std.specs.Ordering.{nat_cmp};
ghost use Rattle.std.specs.Cmp.Lexicographic.{slice_cmp};
ghost use Rattle.tl_db.specs.Entries.{entry_of};
ghost use Rattle.tl_depend.specs.Order.{entry_rank, same_rank, of_rank, IsInstallOrder};

use indexmap::IndexSet;
use std::alloc::{AllocError, Global};
use tl_db::Db;
use tl_path::{Category, Name};

// What is installed before what: members of collections before these, collections before schemes.
#[derive(Clone, Copy)]
enum Rank {
    Member,
    Collection,
    Scheme,
}

fn rank_of(db: &Db, name: &Name) -> Rank
    ensures { result ≡ entry_rank (entry_of name.now db.now) }
{
    match db.get(name) {
        Some(entry) => match entry.category {
            Category::Collection => Rank::Collection,
            Category::Scheme => Rank::Scheme,
            Category::Package | Category::TLCore | Category::ConTeXt => Rank::Member,
        },
        None => Rank::Member,
    }
}

fn is_same(a: Rank, b: Rank) -> bool
    ensures { result ≡ same_rank a b }
{
    matches!(
        (a, b),
        (Rank::Member, Rank::Member)
            | (Rank::Collection, Rank::Collection)
            | (Rank::Scheme, Rank::Scheme)
    )
}

fn sorted_names(alloc: Global, names: &IndexSet<Name>) -> Result<Vec<Name>, AllocError>
    ensures same { IfOk result (λ sorted. IsPermutation names.now.keys sorted.items) }
    ensures rising { IfOk result (λ sorted. IsSorted (slice_cmp nat_cmp) sorted.items) }
{
    let mut sorted = names.as_slice().to_vec(alloc)?;
    sorted.sort_unstable();
    Ok(sorted)
}

// Adds the names of a rank.
fn push_rank(ordered: &mut Vec<Name>, db: &Db, rank: Rank, names: &[Name]) -> Result<(), AllocError>
    ensures { OnOk result (ordered.new.items ≡ ordered.old.items ++ of_rank db.now rank names.now) }
{
    for name in names {
        if is_same(rank_of(db, name), rank) {
            ordered.push(name.clone()?)?;
        }
    }
    Ok(())
}

/// Names in the order in which they are installed: first those of no collection and no scheme, then the collections, then the
/// schemes, each in the order of their bytes. A name without an entry is none of the two.
pub fn order(alloc: Global, db: &Db, names: &IndexSet<Name>) -> Result<Vec<Name>, AllocError>
    ensures { IfOk result (λ ordered. IsInstallOrder db.now names.now.keys ordered.items) }
{
    let sorted = sorted_names(alloc, names)?;
    let mut ordered = Vec::with_capacity(alloc, sorted.len())?;
    push_rank(&mut ordered, db, Rank::Member, sorted.as_slice())?;
    push_rank(&mut ordered, db, Rank::Collection, sorted.as_slice())?;
    push_rank(&mut ordered, db, Rank::Scheme, sorted.as_slice())?;
    Ok(ordered)
}
