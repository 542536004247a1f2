// A whole block of the RKC line, judged once its BCC has come: the item that takes a value, or the number that refuses the
// block. The numbers are tried in document 01's order, 11 to 18.
#![tactic(auto)]

ghost use Rattle.block.specs.Block.{Judges};

use numbers::Refusal;

// What a block asks for: the item at this place of the list takes this value.
#[derive(Clone, Copy)]
pub struct Setting {
    pub place: usize,
    pub value: i32,
}

// How many characters an identifier has, and how many of a block are kept: the identifier and a number.
const IDENTIFIER_LENGTH: usize = 2;

pub const MOST_KEPT: usize = IDENTIFIER_LENGTH + text::WIDTH;

// The verdict on a block, where XU gives so many decimals: one that was marked or not, with the BCC of its text and ETX, the count of
// its characters, those that were kept, and the byte in the BCC's place as it was heard.
#[tactic(auto, using(crate::proofs::Cases::marked, crate::proofs::Cases::wrong, crate::proofs::Cases::short, crate::proofs::Cases::unknown, crate::proofs::Cases::long, crate::proofs::Cases::unread, crate::proofs::Cases::protected))]
pub fn judge(
    xu: u8,
    mark: bool,
    bcc: u8,
    count: u8,
    kept: [u8; MOST_KEPT],
    c: u8,
) -> Result<Setting, Refusal>
    ensures { Judges xu mark bcc count kept c result }
{
    if mark || line::TOP_BIT <= c {
        return Err(Refusal::LineError);
    }
    if c != bcc {
        return Err(Refusal::WrongBcc);
    }
    let end = usize::from(count);
    if end < IDENTIFIER_LENGTH {
        return Err(Refusal::UnderTwo);
    }
    let Some(place) = items::find(kept[0], kept[1]) else {
        return Err(Refusal::UnknownIdentifier);
    };
    if MOST_KEPT < end {
        return Err(Refusal::OverSixCharacters);
    }
    let reading = text::read(items::decimals(xu, place), &kept[IDENTIFIER_LENGTH..end]);
    let Ok(value) = reading else {
        return Err(reading.unwrap_err());
    };
    if !items::writable(place) {
        return Err(Refusal::ReadOnly);
    }
    if !items::in_range(place, value) {
        return Err(Refusal::OutOfRange);
    }
    Ok(Setting { place, value })
}
