//! What is wrong with a line, an edit or an execute, in words.
use tl_execute::ExecuteKind;
use tl_kind::{EditKind, RegexpKind, SourceKind, What};
use tl_object::LineKind;

/// What is wrong with a line of a database. No memory.
pub fn line_words(kind: LineKind) -> &'static str {
    match kind {
        LineKind::Missing => "an entry begins with a line name NAME",
        LineKind::Utf8 => "the line is no UTF-8",
        LineKind::Key => "no line of an entry begins like this",
        LineKind::Value => "the value is not in the form that its key takes",
        LineKind::Repeated => "it stands there for the second time",
        LineKind::File => "a file's line stands behind no list of files, or is not in its form",
        LineKind::TooLong => "the value has more than 65536 bytes",
    }
}

/// What is wrong with a line of a source. No memory.
pub fn source_words(kind: SourceKind) -> &'static str {
    match kind {
        SourceKind::Utf8 => "the line is no UTF-8",
        SourceKind::Key => "no line of a source begins like this",
        SourceKind::Value => "the value is empty",
        SourceKind::TooLong => "the value is too long",
        SourceKind::Name => "the name is not the file's, or may not be a source's",
        SourceKind::Category => "there is no such category",
        SourceKind::Variable => "the variable or its value is not in its form",
        SourceKind::Pattern => "the pattern is not in its form",
    }
}

/// What is wrong with a regular expression. No memory.
pub fn regexp_words(kind: RegexpKind) -> &'static str {
    match kind {
        RegexpKind::Syntax => "the regular expression does not read",
        RegexpKind::Size => "the regular expression would become too large",
    }
}

/// What is wrong with an edit. No memory.
pub fn edit_words(kind: EditKind) -> &'static str {
    match kind {
        EditKind::Command => "there is no such edit",
        EditKind::Operand => "it has too few or too many words",
        EditKind::Name => "its word is not how a package is named",
        EditKind::Path => "its word is no path of a tree",
        EditKind::Number => "its number of bytes does not read",
        EditKind::Platforms => "its words are no platforms",
        EditKind::Cut => "its bytes are fewer than it says, or no line end follows them",
    }
}

/// What is wrong with an execute. No memory.
pub fn execute_words(kind: ExecuteKind) -> &'static str {
    match kind {
        ExecuteKind::Quote => "a double quote has no partner",
        ExecuteKind::Word => "no execute begins like this",
        ExecuteKind::Key => "a word has no equals sign, or a key that does not belong there",
        ExecuteKind::Repeated => "a key comes twice",
        ExecuteKind::Missing => "a key or a map's file is missing",
        ExecuteKind::Number => "a least number of letters is no number",
        ExecuteKind::Value => "a value is empty or not in its form",
    }
}

/// What passes a limit. No memory.
pub fn quantity_words(what: What) -> &'static str {
    match what {
        What::Line => "the bytes of a line",
        What::Input => "the bytes of the input",
        What::Source => "the bytes of a source",
        What::Pins => "the bytes of tlpkg/pinning.txt",
        What::Database => "the bytes of the database, or of texmf-dist/ls-R,",
        What::Marks => "the bytes of tlpkg/marks",
        What::File => "the bytes of a file",
        What::Frame => "the bytes of a container",
        What::Packages => "the number of packages",
        What::Sources => "the number of sources",
        What::Files => "the number of files",
    }
}
