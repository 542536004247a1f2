// The decision over phase and character: what a byte asks for in a phase of the RKC link. Bytes come as they were heard, 80H up
// being line errors, so that matches have ranges for digits, printable and control characters and for line errors too.
// Nothing here touches a state, a table or a buffer: the caller does what an act says.
#![tactic(auto)]

ghost use Rattle.std.specs.Prelude.{◌≡◌};
ghost use Rattle.phases.specs.Decision.{at_digit, first_or, at_addressed, at_one_character, at_two_characters, at_waiting, at_text, at_answered, decided};

use line::{ACK, ENQ, EOT, ETX, NAK, STX};
use numbers::Refusal;

// ---- the phases, as numbers: a link state comes back from C with any byte for its phase, which has to be told from these

pub const REST: u8 = 0;

pub const FIRST_DIGIT: u8 = 1;

pub const SECOND_DIGIT: u8 = 2;

pub const ADDRESSED: u8 = 3;

pub const ONE_CHARACTER: u8 = 4;

pub const TWO_CHARACTERS: u8 = 5;

pub const WAITING: u8 = 6;

pub const TEXT: u8 = 7;

pub const BCC_DUE: u8 = 8;

pub const ANSWERED: u8 = 9;

// What a link has that the decision looks at: the kept identifier characters and the item that was sent last, as far as the phase
// uses them.
#[derive(Clone, Copy)]
pub struct Standing {
    pub phase: u8,
    pub first: u8,
    pub second: u8,
    pub item: u8,
}

// What a byte asks for.
#[derive(Clone, Copy)]
pub enum Act {
    // silence, and this phase with all else 0
    Go(u8),
    // an identifier's first character is kept
    First(u8),
    // both of its characters are kept
    Both(u8, u8),
    // the text has one more character, as it was heard
    More(u8),
    // the text has ended
    Ended,
    // EOT with the number of this refusal, and rest
    Quit(Refusal),
    // the identifier with these characters is polled
    Poll(u8, u8),
    // this item is sent
    Send(u8),
    // the block is judged with this BCC, as it was heard
    Judge(u8),
}

// A digit of the address is compared as it comes.
fn at_digit(digit: u8, next: u8, c: u8) -> Act
    ensures { result ≡ at_digit digit next c }
{
    if c.is_ascii_digit() && c - b'0' == digit {
        Act::Go(next)
    } else {
        Act::Go(REST)
    }
}

// A printable character is the first of an identifier; any other byte asks for the other act.
fn first_or(c: u8, other: Act) -> Act
    ensures { result ≡ first_or c other }
{
    match c {
        0x20..=0x7E => Act::First(c),
        _ => other,
    }
}

// After the address a block opens or an identifier begins.
fn at_addressed(c: u8) -> Act
    ensures { result ≡ at_addressed c }
{
    match c {
        STX => Act::Go(TEXT),
        _ => first_or(c, Act::Go(REST)),
    }
}

// The second character of an identifier. DEL is neither printable nor a line error.
fn at_one_character(first: u8, c: u8) -> Act
    ensures { result ≡ at_one_character first c }
{
    match c {
        0x20..=0x7E => Act::Both(first, c),
        0x80..=0xFF => Act::Go(REST),
        _ => Act::Quit(Refusal::NotBelonging),
    }
}

// ENQ ends a poll.
fn at_two_characters(first: u8, second: u8, c: u8) -> Act
    ensures { result ≡ at_two_characters first second c }
{
    match c {
        ENQ => Act::Poll(first, second),
        0x00..=0x7F => Act::Quit(Refusal::NotBelonging),
        0x80..=0xFF => Act::Go(REST),
    }
}

// The host goes on through the list by ACK, asks again by NAK, or begins a new poll of the same address. Past the last item there
// is no next one, whatever the item.
fn at_waiting(last: u8, item: u8, c: u8) -> Act
    ensures { result ≡ at_waiting last item c }
{
    match c {
        ACK => if item < last {
            Act::Send(item + 1)
        } else {
            Act::Quit(Refusal::ListEnded)
        },
        NAK => Act::Send(item),
        _ => first_or(c, Act::Quit(Refusal::NotAwaited)),
    }
}

// Text goes on up to ETX, over STX and line errors too.
fn at_text(c: u8) -> Act
    ensures { result ≡ at_text c }
{
    match c {
        ETX => Act::Ended,
        _ => Act::More(c),
    }
}

// Another block may follow one that was answered.
fn at_answered(c: u8) -> Act
    ensures { result ≡ at_answered c }
{
    match c {
        STX => Act::Go(TEXT),
        _ => Act::Go(REST),
    }
}

// What a byte asks for, where last is the number of the list's last item. The BCC comes before EOT: a byte in its place is the
// BCC, also one that looks like EOT.
#[tactic(auto, unfolding(crate::specs::Decision::decided))]
pub fn decide(last: u8, at: Standing, address: u8, c: u8) -> Act
    ensures { result ≡ decided last at.phase at.first at.second at.item address c }
{
    if at.phase == BCC_DUE {
        return Act::Judge(c);
    }
    if c == EOT {
        return Act::Go(FIRST_DIGIT);
    }
    match at.phase {
        FIRST_DIGIT => at_digit(address / 10, SECOND_DIGIT, c),
        SECOND_DIGIT => at_digit(address % 10, ADDRESSED, c),
        ADDRESSED => at_addressed(c),
        ONE_CHARACTER => at_one_character(at.first, c),
        TWO_CHARACTERS => at_two_characters(at.first, at.second, c),
        WAITING => at_waiting(last, at.item, c),
        TEXT => at_text(c),
        ANSWERED => at_answered(c),
        _ => Act::Go(REST),
    }
}
