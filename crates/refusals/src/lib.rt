// The refusals of the documents, by name and by number.
#![tactic(auto)]

ghost use Rattle.std.specs.Prelude.{◌≡◌};
ghost use Rattle.refusals.specs.Numbers.{number_of, whole};

// Why an input is refused, with the documents' numbers: document 01, the refusal numbers, and document 02, request 1.
#[derive(Clone, Copy, Debug, PartialEq, Eq)]
pub enum Refusal {
    NotWholeCycles = 1,
    TooLong = 2,
    NoRoom = 3,
    NothingToOperate = 4,
    StrayPin = 5,
    BusClash = 6,
    Unlisted = 7,
    AccTwice = 8,
    BitTooHigh = 9,
    DisabledImmediate = 10,
    NotWholeBlocks = 11,
    WrongCheck = 12,
    WrongPlace = 13,
    WrongShape = 14,
    NoSuchName = 20,
    NoSuchNumber = 21,
    RestOfLine = 22,
}

// A refusal and where it is met: the index of a cycle or of a block, or the column of an item; 0 where it is of the whole input.
#[derive(Clone, Copy, Debug, PartialEq, Eq)]
pub struct Refused {
    pub refusal: Refusal,
    pub index: usize,
}

// A refusal of the whole input.
impl From<Refusal> for Refused {
    ghost from_gives = { λ refusal refused. refused ≡ whole refusal };

    fn from(refusal: Refusal) -> Refused {
        Refused { refusal, index: 0 }
    }
}

// The number of a refusal.
impl From<Refusal> for u8 {
    ghost from_gives = { λ refusal number. number ≡ number_of refusal };

    fn from(refusal: Refusal) -> u8 {
        refusal as u8
    }
}
