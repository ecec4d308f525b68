ghost use Rattle.std.specs.Prelude.{◌≡◌, Some};
ghost use Rattle.tl_journal_text.specs.Slots.{other, byte_of, spare, opens};

/// One of the two files that a body is written to.
#[derive(Clone, Copy, Debug, PartialEq, Eq)]
pub enum Slot {
    One,
    Two,
}

impl Slot {
    /// The slot that isn't this one.
    pub fn other(self) -> Slot
        ensures { result ≡ other self }
    {
        match self {
            Slot::One => Slot::Two,
            Slot::Two => Slot::One,
        }
    }

    /// The byte of a gate that is open at this slot.
    pub fn byte(self) -> u8
        ensures { result ≡ byte_of self }
    {
        match self {
            Slot::One => 1,
            Slot::Two => 2,
        }
    }

    /// The slot that the next body is written to, by the slot at which the gate is open.
    pub fn spare(opened: Option<Slot>) -> Slot
        ensures { result ≡ spare opened }
    {
        match opened {
            Some(slot) => slot.other(),
            None => Slot::One,
        }
    }

    /// The slot at which a gate with these bytes is open, if it is.
    pub fn opened_by(gate: &[u8]) -> Option<Slot>
        ensures { result ≡ opens (Some gate.now) }
    {
        match gate {
            [1] => Some(Slot::One),
            [2] => Some(Slot::Two),
            _ => None,
        }
    }
}
