// The characters that a block keeps of its text: cut at the count, with one more in its place, and the numbers that bytes make.
#![tactic(auto)]

ghost use Rattle.std.specs.Prelude.{◌≡◌, [], ◌∷◌, ◌^◌, ◌<◌, set};
ghost use Rattle.kept.specs.Bytes.{from_low};
ghost use Rattle.kept.specs.Kept.{places, up_to};

// How many characters are cut as one number: as many as 64 bits have bytes.
pub const PLACES: usize = 8;

// The number that four bytes make, the low one first.
pub fn from_low(a: u8, b: u8, c: u8, d: u8) -> u32
    ensures { result ≡ from_low (a ∷ b ∷ c ∷ d ∷ []) }
{
    u32::from_le_bytes([a, b, c, d])
}

// The number that all of them make.
fn number_of(kept: [u8; PLACES]) -> u64
    ensures { result ≡ from_low kept }
{
    let low = from_low(kept[0], kept[1], kept[2], kept[3]);
    let high = from_low(kept[4], kept[5], kept[6], kept[7]);
    low as u64 + 0x1_0000_0000 * (high as u64)
}

// The first number that so many bytes have no room for.
fn past_bytes(count: u8) -> u64
    requires { count < places }
    ensures { result ≡ 256 ^ count }
{
    1 << (8 * (count as u64))
}

// The cut at the count: the kept characters up to it, and 0 past it. All places together make one number, which one remainder
// cuts: that takes fewer instructions than a test of the count at each place, and it is done for each byte of a text.
pub fn up_to(kept: [u8; PLACES], count: u8) -> [u8; PLACES]
    ensures { result ≡ up_to count kept }
{
    if PLACES <= count as usize {
        return kept;
    }
    (number_of(kept) % past_bytes(count)).to_le_bytes()
}

// One more character is kept in its place, if there is one left.
pub fn keep(kept: [u8; PLACES], count: u8, c: u8) -> [u8; PLACES]
    ensures { result ≡ set kept count c }
{
    let mut more = kept;
    let place = count as usize;
    // `get_mut` is not proved here: nothing is told of the array that its reference wrote to once it is handed back
    if place < PLACES {
        more[place] = c;
    }
    more
}
