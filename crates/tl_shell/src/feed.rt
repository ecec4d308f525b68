//! Lines of an input.
ghost use Rattle.std.specs.Prelude.{◌≡◌, ◌+◌, ◌≤◌, ◌<◌, ◌++◌, [], true, false, drop, length, Some, IfOk, IfErr, IfSome, OnOk, option_map};
ghost use Rattle.tl_model.specs.Causes.{HasCauseOf};
ghost use Rattle.tl_model.specs.Seen.{Told};
ghost use Rattle.tl_kind.specs.Quantities.{limit_of};
ghost use Rattle.tl_kind.specs.declared.quantity.What.TheVariants.{Line, Input};
ghost use Rattle.tl_shell.specs.Feeds.{FeedsLine, IsFeedFault, IsInputFault, IsLimitPassed, TakesPart, IsPartPassed, passed_limit, left_behind};

use crate::cut::front;
use crate::error::FeedError;
use std::alloc::Global;
use std::marker::Model;
use tl_host::Source;
use tl_kind::What;

const PIECE: usize = 65536;

/// Reads lines from an input. Contracts see it as the bytes that it has read ahead, and how many bytes the lines before took.
#[derive(Drop)]
pub struct Feed {
    bytes: Vec<u8>,
    at: usize,
    taken: u64,
}

impl Model for Feed {
    ghost use Rattle.std.specs.Prelude.{◌≤◌, length, drop};
    ghost use Rattle.tl_kind.specs.Quantities.{limit_of};
    ghost use Rattle.tl_kind.specs.declared.quantity.What.TheVariants.{Input};
    ghost use Rattle.tl_shell.specs.Feeds.{Feeding, feeding_code};

    ghost Value = { Feeding };

    ghost coded = { feeding_code };

    ghost view = { λ f. record { ahead = drop f.at f.bytes.items; taken = f.taken } };

    ghost invariant = { λ f. (f.at ≤ length f.bytes.items) × (f.taken ≤ limit_of Input) };
}

// The limit that a line passes of which so many bytes were read, or used with its end, behind so many of the lines before.
fn passed_limit(start: u64, size: usize, used: usize) -> Option<What>
    requires { start ≤ limit_of Input }
    ensures { result ≡ passed_limit start size used }
{
    let line = What::Line.limit();
    let input = What::Input.limit();
    if size as u64 > line && start + line <= input {
        Some(What::Line)
    } else if used as u64 > input - start {
        Some(What::Input)
    } else {
        None
    }
}

// The bytes from a place on.
fn left(bytes: &[u8], at: usize) -> &[u8]
    requires { at ≤ length bytes.now }
    ensures { result.now ≡ drop at bytes.now }
{
    &bytes[at..]
}

impl Feed {
    /// A feed that has read nothing. No memory.
    pub fn new(alloc: Global) -> Feed
        ensures { result ≡ record { ahead = []; taken = 0 } }
    {
        Feed {
            bytes: Vec::new(alloc),
            at: 0,
            taken: 0,
        }
    }

    // Sees to it that a byte is read ahead; false at the end of the input.
    fn fill<I: Source>(&mut self, input: &mut I) -> Result<bool, FeedError>
        ensures full { IfOk result (λ is. is ≡ true → 0 < length self.new.ahead) }
        ensures ended { IfOk result (λ is. is ≡ false → self.new.ahead ≡ []) }
        ensures left { Told I.tells (IfOk result (λ is. is ≡ false → (I.seen input.new).left ≡ [])) }
        ensures all { Told I.tells (OnOk result
            (left_behind self.new (I.seen input.new) ≡ left_behind self.old (I.seen input.old))) }
        ensures taken { self.new.taken ≡ self.old.taken }
        ensures fault { IfErr result (IsLimitPassed None) }
        ensures cause { HasCauseOf IsInputFault (I.seen input.old).faults (I.seen input.new).faults result }
    {
        if self.at < self.bytes.len() {
            return Ok(true);
        }
        let mut piece = [0; PIECE];
        let count = input.read(&mut piece)?;
        self.at = 0;
        self.bytes.clear();
        self.bytes.extend_from_slice(&piece[..count])?;
        Ok(count > 0)
    }

    // Takes what is read ahead, up to the line's end, to a line; whether the line has ended.
    fn take_part(&mut self, line: &mut Vec<u8>) -> Result<bool, FeedError>
        requires { length line.old.items ≤ limit_of Line }
        ensures part { IfOk result (λ ended. TakesPart ended self.old self.new line.old.items line.new.items) }
        ensures fault { IfErr result (IsPartPassed self.old line.old.items) }
    {
        let (part, ended) = front(left(&self.bytes, self.at));
        let size = line.len() + part.len();
        match passed_limit(self.taken, size, size + usize::from(ended)) {
            Some(what) => Err(FeedError::TooLarge {
                what,
                limit: what.limit(),
            }),
            None => {
                line.extend_from_slice(part)?;
                self.at += part.len() + usize::from(ended);
                Ok(ended)
            }
        }
    }

    /// Takes the next line, without its end; `None` at the end of the input. A line ends with the byte 10, which the last may lack.
    ///
    /// `TooLarge` of `Line` where the line passes that limit, or of `Input` where what was taken does, whichever place comes first. A feed
    /// of which a call has failed isn't to be called again. It reads 65,536 bytes at once, and takes time by the line's length.
    pub fn line<I: Source>(
        &mut self,
        alloc: Global,
        input: &mut I,
    ) -> Result<Option<Vec<u8>>, FeedError>
        ensures line { Told I.tells (IfOk result (λ found. FeedsLine self.old self.new
            (left_behind self.old (I.seen input.old)) (left_behind self.new (I.seen input.new)) (option_map (λ v. v.items) found))) }
        ensures within { IfOk result (λ found. IfSome found (λ line. length line.items ≤ limit_of Line)) }
        ensures fault { IfErr result (IsFeedFault I.tells self.old.taken (left_behind self.old (I.seen input.old))) }
        ensures cause { HasCauseOf IsInputFault (I.seen input.old).faults (I.seen input.new).faults result }
    {
        let mut line = Vec::new(alloc);
        while self.fill(input)? {
            if self.take_part(&mut line)? {
                self.taken += line.len() as u64 + 1;
                return Ok(Some(line));
            }
        }
        if line.is_empty() {
            return Ok(None);
        }
        self.taken += line.len() as u64;
        Ok(Some(line))
    }
}
