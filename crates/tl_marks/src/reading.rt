//! The reading of marks.
ghost use Rattle.std.specs.Prelude.{◌≡◌, ◌<◌, ◌≤◌, ◌+◌, ◌^◌, [], length, Ok, IfOk, IfErr, MatchResult};
ghost use Rattle.tl_text.specs.Spans.{stretches, AreRising};
ghost use Rattle.tl_marks.specs.Form.{may_follow, path_in};
ghost use Rattle.tl_marks.specs.Reading.{following, paths_in, Fails, BehindCounter, FailsBehind, ReadsMarks, IsMarksError};

use crate::line::{counter_of, is_platforms_line, path_in, platforms_in};
use crate::marks::{MarkedPath, Marks, MarksError};
use std::alloc::{AllocError, Global};
use tl_path::Path;
use tl_text::{Span, lines};

// Whether a path may follow marked paths: it is greater than the last one.
fn may_follow(paths: &[MarkedPath], path: &Path) -> bool
    ensures { result ≡ may_follow paths.now path.now }
{
    match paths.last() {
        Some(last) => last.path < *path,
        None => true,
    }
}

// The marked path of a line, where it may follow others; `None` where the line has another form.
fn next_path(
    alloc: Global,
    counter: u32,
    paths: &[MarkedPath],
    line: &[u8],
) -> Result<Option<MarkedPath>, AllocError>
    ensures { IfOk result (λ marked. following paths.now (path_in counter line.now) ≡ marked) }
{
    match path_in(alloc, counter, line)? {
        Some(marked) => {
            if may_follow(paths, &marked.path) {
                Ok(Some(marked))
            } else {
                Ok(None)
            }
        }
        None => Ok(None),
    }
}

// The marked paths of some lines of a text, the first of which has this number.
fn paths_in(
    alloc: Global,
    counter: u32,
    first: u32,
    text: &[u8],
    spans: &[Span],
) -> Result<Vec<MarkedPath>, MarksError>
    requires rising { AreRising (length text.now) spans.now }
    requires few { first + length spans.now ≤ 2 ^ 32 }
    ensures paths { IfOk result (λ paths. paths_in counter [] first (stretches text.now spans.now) ≡ Ok paths.items) }
    ensures fault { IfErr result (λ e. Fails e (paths_in counter [] first (stretches text.now spans.now))) }
{
    let mut paths = Vec::new(alloc);
    for (before, span) in spans.iter().enumerate() {
        let line = span.of(text);
        match next_path(alloc, counter, &paths, line)? {
            Some(marked) => paths.push(marked).map_err(AllocError::from)?,
            None => return Err(MarksError::BadMarks {
                line: first + before as u32,
            }),
        }
    }
    Ok(paths)
}

// The marks of a text behind the line of the counter.
fn read_behind(
    alloc: Global,
    counter: u32,
    text: &[u8],
    spans: &[Span],
) -> Result<Marks, MarksError>
    requires rising { AreRising (length text.now) spans.now }
    requires few { length spans.now + 1 < 2 ^ 32 }
    requires small { length text.now < 2 ^ 32 }
    ensures marks { IfOk result (λ marks. (marks.counter ≡ counter) × BehindCounter (stretches text.now spans.now) marks) }
    ensures fault { IfErr result (λ e. FailsBehind e counter (stretches text.now spans.now)) }
{
    match spans.split_first() {
        Some((line, others)) if is_platforms_line(line.of(text)) => {
            let Some(marked) = platforms_in(alloc, counter, line.of(text))? else {
                return Err(MarksError::BadMarks { line: 2 });
            };
            let paths = paths_in(alloc, counter, 3, text, others)?;
            Ok(Marks::of(counter, Some(marked), paths))
        }
        _ => {
            let paths = paths_in(alloc, counter, 2, text, spans)?;
            Ok(Marks::of(counter, None, paths))
        }
    }
}

impl Marks {
    /// The marks of a text: `counter N`, perhaps `platforms MARK P1 P2 ..`, then lines `lives MARK PATH` and `gone MARK PATH`.
    /// `BadMarks` comes exactly for a text with another line, or with none, at the first such line.
    pub fn read(alloc: Global, text: &[u8]) -> Result<Marks, MarksError>
        requires { length text.now < 2 ^ 32 }
        ensures { MatchResult result (ReadsMarks text.now) (IsMarksError text.now) }
    {
        let spans = lines(alloc, text)?;
        let Some((first, others)) = spans.split_first() else {
            return Err(MarksError::BadMarks { line: 1 });
        };
        let Some(counter) = counter_of(first.of(text)) else {
            return Err(MarksError::BadMarks { line: 1 });
        };
        read_behind(alloc, counter, text, others)
    }
}
