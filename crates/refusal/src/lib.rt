// Why a run is refused, by name: documents 01 and 02 give each reason its number.
#![tactic(auto)]

ghost use Rattle.std.specs.Prelude.{◌≡◌};
ghost use Rattle.refusal.specs.Numbers.{number};

#[derive(Clone, Copy, Debug, PartialEq, Eq)]
pub enum Refusal {
    JobTooLong = 1,
    // Of the lent work or gaps there is too little.
    LentTooShort = 2,
    // An unknown kind or form byte, a record that is cut, out of place or missing, bytes behind the last.
    Malformed = 3,
    // An entry's or a request's number that isn't there.
    NotThere = 4,
    TableFull = 5,
    RawSlotOutside = 6,
    RawSlotTaken = 7,
    RawConstantTwice = 8,
    RawBootstrapOutside = 9,
    RawBootstrapTwice = 10,
    NameTwice = 11,
    NameUndefined = 12,
    Circular = 13,
    NoSlot = 14,
    NoSlotForLdc = 15,
    // What ldc is to name has a slot above 255.
    OutOfReachOfLdc = 16,
    NoBootstrapIndex = 17,
    OutputTooShort = 18,
    BadBlock = 19,
    NotBlocks = 20,
    NotPool = 21,
    // An expression too deep, of two kinds, or with a byte that is neither leaf tag nor sign.
    BadExpression = 22,
    DividesByZero = 23,
    // A constant of a kind that the job's version doesn't have.
    KindTooNew = 24,
    NotText = 25,
    BadHighestSlot = 26,
    NotClassFile = 27,
    BadTrace = 28,
}

impl From<Refusal> for u32 {
    ghost from_gives = { λ r n. n ≡ number r };

    fn from(r: Refusal) -> u32 {
        r as u32
    }
}

// A refusal and its place: a record, in a block file a block.
#[derive(Clone, Copy, Debug, PartialEq, Eq)]
pub struct Refused {
    pub refusal: Refusal,
    pub place: usize,
}
