// Characters on the RKC line: whether a byte keeps the line structure, how it is heard and sent, and the BCC.
// What is heard is one number: 00H to 7FH is a character, and 80H up a line error with its low seven bits. The definition `heard` says
// so, and the BCC takes in the low seven bits of either.
#![tactic(auto)]

ghost use Rattle.std.specs.Prelude.{◌≡◌};
ghost use Rattle.line.specs.Line.{low_seven, keeps, top_unless, heard, sent, bcc};

pub const STX: u8 = 0x02;

pub const ETX: u8 = 0x03;

pub const EOT: u8 = 0x04;

pub const ENQ: u8 = 0x05;

pub const ACK: u8 = 0x06;

pub const NAK: u8 = 0x15;

// The line structures are 0, 1 and 2: numbers, as the C interface hands them over.
pub const LAST_STRUCTURE: u8 = 2;

// The bit above the seven of a character.
pub const TOP_BIT: u8 = 0x80;

// The low seven bits of what was heard: the character, also of a line error.
pub fn low_seven(c: u8) -> u8
    ensures { result ≡ low_seven c }
{
    c % TOP_BIT
}

// Whether a byte keeps the line structure. A structure over 2 is refused by every caller before; it is read as 2. One count of
// ones serves both parities, so that a caller's loop is compiled for two structures and not for three.
pub fn keeps(structure: u8, byte: u8) -> bool
    ensures { result ≡ keeps structure byte }
{
    if structure == 0 {
        return byte < TOP_BIT;
    }
    (byte.count_ones() % 2 == 0) == (structure == 1)
}

// The low seven bits, with the top bit added unless the structure is kept: in what is heard it is the mark of a line error,
// in what is sent it makes the parity that seven bits alone lack.
fn top_unless(kept: bool, c: u8) -> u8
    ensures { result ≡ top_unless kept c }
{
    let plain = low_seven(c);
    if kept { plain } else { plain + TOP_BIT }
}

// A byte as it is heard. In structure 0 that is the byte: the top bit breaks the structure, and it marks a line error.
pub fn heard(structure: u8, byte: u8) -> u8
    ensures { result ≡ heard structure byte }
{
    if structure == 0 {
        return byte;
    }
    top_unless(keeps(structure, byte), byte)
}

// A character as it is sent.
pub fn sent(structure: u8, c: u8) -> u8
    ensures { result ≡ sent structure c }
{
    top_unless(keeps(structure, low_seven(c)), c)
}

// The BCC of characters.
pub fn bcc(chars: &[u8]) -> u8
    ensures { result ≡ bcc chars.now }
{
    chars.iter().fold(0, |sum, c| sum ^ c)
}
