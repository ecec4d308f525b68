// The category of a package, and what is checked of a tree.
ghost use Rattle.std.specs.Prelude.{◌≡◌, bytes_eq, find};
ghost use Rattle.tl_path.specs.Kinds.{category_text, all_categories, check_word, all_checks};

/// The category of a package.
#[derive(Clone, Copy, Debug, PartialEq, Eq)]
pub enum Category {
    /// A package.
    Package,
    /// A part of the core system.
    TLCore,
    /// A package for ConTeXt.
    ConTeXt,
    /// A collection of packages.
    Collection,
    /// A scheme of collections.
    Scheme,
}

impl Category {
    /// The category as it is written.
    pub fn text(&self) -> &'static str
        ensures { result.now ≡ category_text self.now }
    {
        match self {
            Category::Package => "Package",
            Category::TLCore => "TLCore",
            Category::ConTeXt => "ConTeXt",
            Category::Collection => "Collection",
            Category::Scheme => "Scheme",
        }
    }

    /// The category that is written so, if one is.
    pub fn read(text: &[u8]) -> Option<Category>
        ensures { result ≡ find (λ category. bytes_eq (category_text category) text.now) all_categories }
    {
        category_among(&CATEGORIES, text)
    }
}

const CATEGORIES: [Category; 5] = [
    Category::Package,
    Category::TLCore,
    Category::ConTeXt,
    Category::Collection,
    Category::Scheme,
];

fn category_among(all: &[Category], text: &[u8]) -> Option<Category>
    ensures { result ≡ find (λ category. bytes_eq (category_text category) text.now) all.now }
{
    all.iter()
        .copied()
        .find(|category| category.text().as_bytes() == text)
}

/// What is checked of a tree.
#[derive(Clone, Copy, Debug, PartialEq, Eq)]
pub enum Check {
    /// That the files of each package are there.
    Files,
    /// That the packages that others depend on are there.
    Depends,
    /// That no two packages have one file.
    Duplicates,
    /// That the execute lines read.
    Executes,
    /// All of these.
    All,
}

impl Check {
    /// The word for the check.
    pub fn text(&self) -> &'static str
        ensures { result.now ≡ check_word self.now }
    {
        match self {
            Check::Files => "files",
            Check::Depends => "depends",
            Check::Duplicates => "duplicates",
            Check::Executes => "executes",
            Check::All => "all",
        }
    }

    /// The check that the word asks for, if it does.
    pub fn read(word: &[u8]) -> Option<Check>
        ensures { result ≡ find (λ check. bytes_eq (check_word check) word.now) all_checks }
    {
        check_among(&CHECKS, word)
    }
}

const CHECKS: [Check; 5] = [
    Check::Files,
    Check::Depends,
    Check::Duplicates,
    Check::Executes,
    Check::All,
];

fn check_among(all: &[Check], word: &[u8]) -> Option<Check>
    ensures { result ≡ find (λ check. bytes_eq (check_word check) word.now) all.now }
{
    all.iter()
        .copied()
        .find(|check| check.text().as_bytes() == word)
}
