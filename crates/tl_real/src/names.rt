// Names that stand in a folder, and the folders that hold them. A folder ends in a slash; the whole folder is the empty text.

// A path has no more components.
pub(crate) const MOST_COMPONENTS: u64 = 64;

/// The folder of the journal.
pub(crate) const JOURNAL: &str = "tlpkg/journal/";

/// The file that says at which body the journal is open.
pub(crate) const GATE: &str = "tlpkg/journal/gate";

/// The files of the journal, each after those that it speaks of.
pub(crate) const JOURNAL_FILES: [&str; 3] = ["tlpkg/journal/body", "tlpkg/journal/body2", GATE];

/// The folders in which a name of the journal came or went.
pub(crate) const JOURNAL_FOLDERS: [&str; 3] = [JOURNAL, "tlpkg/", ""];

/// The folder that holds a name.
pub(crate) fn folder_of(name: &str) -> &str {
    match name.rsplit_once('/') {
        Some((_, last)) => name.strip_suffix(last).unwrap_or(""),
        None => "",
    }
}

/// The folder that holds a folder.
pub(crate) fn folder_above(folder: &str) -> &str {
    folder_of(folder.strip_suffix('/').unwrap_or(folder))
}
