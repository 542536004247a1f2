// The numbers and limits that both lines share. specs/Numbers.antt says how numbers are tried in their order, specs/Refusals.antt
// which number each refusal gives back, specs/Promise.antt what it is to promise one outcome, and the crates above cite them.
#![tactic(auto)]

ghost use Rattle.std.specs.Prelude.{◌≡◌};
ghost use Rattle.numbers.specs.Refusals.{number_of, number_if};

// Nothing is met.
pub const NONE: u8 = 0;

// Every reply has room in a buffer of this length.
pub const LEAST_BUFFER: usize = 256;

// The highest address of a device.
pub const LAST_ADDRESS: u8 = 99;

// Why something is refused, with the number that is given back for it.
#[derive(Clone, Copy, Debug, PartialEq, Eq)]
pub enum Refusal {
    // ---- the caller's faults
    // the table has not one entry for each item
    WrongLength = 1,
    // an entry is outside its range, or an alarm state is not true
    EntryOutside = 2,
    // the reply buffer is shorter than LEAST_BUFFER
    ShortBuffer = 3,
    // an address or a line structure that no line has
    BadSetting = 4,
    // a link state outside its limits, or bytes of another length
    BadState = 5,
    // a number that no item has
    NoSuchItem = 6,
    // a value outside the item's range, or any value for an alarm state
    ValueOutside = 7,
    // ---- number text
    // the value does not fit six characters
    DoesNotFit = 8,
    TooManyDecimals = 9,
    // ---- a block of the RKC line
    LineError = 11,
    WrongBcc = 12,
    // fewer characters than an identifier has
    UnderTwo = 13,
    UnknownIdentifier = 14,
    OverSixCharacters = 15,
    NoNumber = 16,
    ReadOnly = 17,
    OutOfRange = 18,
    // ---- a frame of Modbus RTU, a line of Modbus ASCII
    WrongFrameLength = 21,
    WrongCrc = 22,
    OtherAddress = 23,
    WrongLine = 24,
    WrongLrc = 25,
    // ---- a message of Modbus: exceptions 1, 2 and 3
    UnknownFunction = 31,
    WrongRegister = 32,
    WrongData = 33,
    // ---- what goes with EOT
    // a byte that doesn't belong into a poll
    NotBelonging = 41,
    // the identifier of a poll is unknown
    UnknownPolled = 42,
    // a byte while waiting that is neither ACK, NAK, EOT nor printable
    NotAwaited = 43,
    // the host fell silent
    TimedOut = 44,
    // the list has no next item: an end and no fault
    ListEnded = 45,
    // the value of a polled item does not fit six characters
    NoRoom = 46,
    // ---- a capture
    BadCapture = 51,
    NoSuchFrame = 52,
}

impl Refusal {
    // The number given back.
    pub fn number(self) -> u8
        ensures { result ≡ number_of self }
    {
        self as u8
    }
}

// The number that is given back where something may have been refused: NONE where nothing was.
pub fn number_if(refused: Option<Refusal>) -> u8
    ensures { result ≡ number_if refused }
{
    match refused {
        Some(refusal) => refusal.number(),
        None => NONE,
    }
}
