//! What a reader of a frame waits for.
use crate::error::FrameError;

/// The field that a reader waits for, or why it waits for none.
#[derive(Clone, Copy)]
pub enum Stage {
    Magic,
    EntrySize,
    /// The entry's text of so many bytes.
    EntryText(u32),
    Count,
    PathSize,
    /// A path of so many bytes.
    PathText(u16),
    Size,
    /// The bytes of a file, of which so many are still to come.
    Content(u64),
    Mark,
    /// The frame has ended: nothing may come.
    Ended,
    /// A field is wrong: whatever comes is passed over.
    Faulty,
    /// No memory was found.
    Spent,
}

/// Where a reader is.
#[derive(Clone, Copy)]
pub struct Waiting {
    /// What it waits for.
    pub stage: Stage,
    /// The place of that field's first byte, or of the field that is wrong.
    pub place: u64,
    /// The number of files behind the one that is being read.
    pub files: u32,
    /// The number of bytes of the file that is being read.
    pub size: u64,
}

impl Stage {
    ghost use Rattle.std.specs.Prelude.{◌≡◌};
    ghost use Rattle.tl_frame.specs.States.{wanted_by, is_spent_stage};

    /// The number of bytes that are kept until they are whole.
    pub fn wanted(self) -> Option<usize>
        ensures { result ≡ wanted_by self }
    {
        match self {
            Stage::Magic | Stage::Size | Stage::Mark => Some(8),
            Stage::EntrySize | Stage::Count => Some(4),
            Stage::EntryText(size) => Some(size as usize),
            Stage::PathSize => Some(2),
            Stage::PathText(size) => Some(size as usize),
            Stage::Content(_) | Stage::Ended | Stage::Faulty | Stage::Spent => None,
        }
    }

    /// Whether no memory was found.
    pub fn is_spent(self) -> bool
        ensures { result ≡ is_spent_stage self }
    {
        matches!(self, Stage::Spent)
    }
}

impl Waiting {
    ghost use Rattle.std.specs.Prelude.{◌≡◌, ◌+◌};
    ghost use Rattle.tl_frame.specs.States.{before_files, told_place};
    ghost use Rattle.tl_frame.specs.Answers.{stage_fault, stage_ending};

    /// The same place, with another stage.
    pub fn at(self, stage: Stage) -> Waiting
        ensures { result ≡ record self { stage = stage } }
    {
        Waiting {
            stage,
            place: self.place,
            files: self.files,
            size: self.size,
        }
    }

    /// The place behind so many bytes, with another stage.
    pub fn behind(self, size: u64, stage: Stage) -> Waiting
        ensures { result ≡ record self { stage = stage; place = told_place (self.place + size) } }
    {
        Waiting {
            stage,
            place: self.place.saturating_add(size),
            files: self.files,
            size: self.size,
        }
    }

    /// The place behind so many bytes, before so many files.
    pub fn before_files(self, size: u64, files: u32) -> Waiting
        ensures { result ≡ before_files (told_place (self.place + size)) files }
    {
        let place = self.place.saturating_add(size);
        if files == 0 {
            Waiting {
                stage: Stage::Mark,
                place,
                files: 0,
                size: 0,
            }
        } else {
            Waiting {
                stage: Stage::PathSize,
                place,
                files: files - 1,
                size: 0,
            }
        }
    }

    /// A field that is wrong.
    pub fn fault(self) -> Result<(), FrameError>
        ensures { result ≡ stage_fault self.stage self.place }
    {
        match self.stage {
            Stage::Faulty => Err(FrameError::BadFrame { at: self.place }),
            _ => Ok(()),
        }
    }

    /// A field that is wrong or isn't whole.
    pub fn ending(self) -> Result<(), FrameError>
        ensures { result ≡ stage_ending self.stage self.place }
    {
        match self.stage {
            Stage::Spent => Err(FrameError::NoMemory),
            Stage::Ended => Ok(()),
            _ => Err(FrameError::BadFrame { at: self.place }),
        }
    }
}
