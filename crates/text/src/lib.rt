// Number text both ways: what the characters of a number say, and the characters of a value. The numbers of a refusal are
// document 01's.
#![tactic(auto)]

ghost use Rattle.std.specs.Prelude.{◌≡◌, false, ◌+◌, ◌-◌, ◌/◌, ◌<◌, ◌≤◌, ◌^◌, length, MatchResult};
ghost use Rattle.numbers.specs.declared.Refusal.TheVariants.{TooManyDecimals};
ghost use Rattle.sign.specs.Sign.{made};
ghost use Rattle.text.specs.Numbers.{width, most_decimals, value_of};
ghost use Rattle.text.specs.Reading.{digits_from, of_parts, of_unsigned, point_at, ReadAs};
ghost use Rattle.text.specs.Writing.{room, text_of, written, written_as};

use numbers::Refusal;

// How many characters a number has: as many when it is written, at most as many when it is read.
pub const WIDTH: usize = 6;

const TENS: [u32; WIDTH + 1] = [1, 10, 100, 1000, 10000, 100000, 1000000];

// 10 to the power k. A table has it in one step, where `10u32.pow(k)` would multiply in a loop.
fn power(k: usize) -> u32
    requires { k ≤ width }
    ensures { result ≡ 10 ^ k }
{
    TENS[k]
}

// As many decimals as number text can have.
#[derive(Clone, Copy)]
struct Decimals {
    count: usize,
    ghost few: { count ≤ most_decimals },
}

impl Decimals {
    const MOST: u8 = 3;

    fn new(count: u8) -> Result<Decimals, Refusal>
        ensures { MatchResult result (λ d. d.count ≡ count) (λ r. (r ≡ TooManyDecimals) × (most_decimals < count)) }
    {
        if Decimals::MOST < count {
            return Err(Refusal::TooManyDecimals);
        }
        Ok(Decimals {
            count: usize::from(count),
        })
    }

    // The least size that has no room beside the minus and the point: ten to the places that are left. Each of the four is a
    // constant, where one power at a place that is worked out would be read from the table at run time.
    fn limit(self, minus: bool) -> u32
        ensures { result ≡ 10 ^ room width self.count minus }
    {
        match (self.count, minus) {
            (0, true) => power(WIDTH - 1),
            (0, false) => power(WIDTH),
            (_, true) => power(WIDTH - 2),
            (_, false) => power(WIDTH - 1),
        }
    }
}

// The number that these characters write after the digits of `from`, where each of them is a digit.
fn digits_from(from: u32, chars: &[u8]) -> Option<u32>
    requires { (length chars.now ≤ width) × (from < 10 ^ (width - length chars.now)) }
    ensures { result ≡ digits_from from chars.now }
{
    let mut n = from;
    for c in chars {
        if !c.is_ascii_digit() {
            return None;
        }
        n = n * 10 + u32::from(*c - b'0');
    }
    Some(n)
}

// A size over a power of ten. The quotient cuts the fraction off, and the sign comes last, so that the cut is toward zero.
fn cut_off(minus: bool, size: u32, tens: u32) -> i32
    requires { (size < 10 ^ (width + most_decimals)) × (0 < tens) × (tens ≤ 10 ^ width) }
    ensures { result ≡ made minus (size / tens) }
{
    sign::make(minus, size / tens)
}

// What the characters before and after the point say.
#[tactic(auto, using(crate::proofs::Steps::no_whole, crate::proofs::Steps::no_fraction))]
fn of_parts(minus: bool, decimals: Decimals, whole: &[u8], fraction: &[u8]) -> Result<i32, Refusal>
    requires { length whole.now + length fraction.now ≤ width }
    ensures { result ≡ of_parts minus decimals.count whole.now fraction.now }
{
    let front = digits_from(0, whole).ok_or(Refusal::NoNumber)?;
    let n = digits_from(front, fraction).ok_or(Refusal::NoNumber)?;
    if whole.is_empty() && fraction.is_empty() {
        return Err(Refusal::NoNumber);
    }
    let size = n * power(decimals.count);
    Ok(cut_off(minus, size, power(fraction.len())))
}

// How many characters stand before the first point, or in all where there is none.
fn point_at(chars: &[u8]) -> usize
    ensures { result ≡ point_at chars.now }
{
    chars.iter().position(|c| *c == b'.').unwrap_or(chars.len())
}

// What the characters after the sign say. Where there is no point, nothing stands after it.
fn of_unsigned(minus: bool, decimals: Decimals, chars: &[u8]) -> Result<i32, Refusal>
    requires { length chars.now ≤ width }
    ensures { result ≡ of_unsigned minus decimals.count chars.now }
{
    let point = point_at(chars);
    let fraction = chars.get(point + 1..).unwrap_or(&[]);
    of_parts(minus, decimals, &chars[..point], fraction)
}

// What the characters say of a value with so many decimals.
pub fn read(decimals: u8, chars: &[u8]) -> Result<i32, Refusal>
    ensures { ReadAs width decimals chars.now result }
{
    let decimals = Decimals::new(decimals)?;
    if chars.len() > WIDTH {
        return Err(Refusal::OverSixCharacters);
    }
    let (minus, digits) = match chars {
        [b'-', digits @ ..] => (true, digits),
        digits => (false, digits),
    };
    of_unsigned(minus, decimals, digits)
}

// The value of a reading, 0 where it was refused.
pub fn value_of(reading: Result<i32, Refusal>) -> i32
    ensures { result ≡ value_of reading }
{
    reading.unwrap_or(0)
}

// The digits of a size with the point and no sign, in every place. d0 is its last digit, d1 the one before, and so on. The four texts
// stand here as they are read, and a loop would have to find the point's place.
fn places(decimals: Decimals, size: u32) -> [u8; WIDTH]
    ensures { result ≡ text_of width decimals.count false size }
{
    let tens = size / 10;
    let hundreds = tens / 10;
    let thousands = hundreds / 10;
    let ten_thousands = thousands / 10;
    let d0 = b'0' + (size % 10) as u8;
    let d1 = b'0' + (tens % 10) as u8;
    let d2 = b'0' + (hundreds % 10) as u8;
    let d3 = b'0' + (thousands % 10) as u8;
    let d4 = b'0' + (ten_thousands % 10) as u8;
    let d5 = b'0' + (ten_thousands / 10 % 10) as u8;
    match decimals.count {
        0 => [d5, d4, d3, d2, d1, d0],
        1 => [d4, d3, d2, d1, b'.', d0],
        2 => [d4, d3, d2, b'.', d1, d0],
        _ => [d4, d3, b'.', d2, d1, d0],
    }
}

// The characters of a size that has room: the minus takes the first place, where such a size has a zero.
fn layout(minus: bool, decimals: Decimals, size: u32) -> [u8; WIDTH]
    ensures { result ≡ text_of width decimals.count minus size }
{
    let mut chars = places(decimals, size);
    if minus {
        chars[0] = b'-';
    }
    chars
}

// The value with its decimals in six characters.
#[tactic(auto, using(crate::proofs::Texts::many_decimals))]
pub fn write(decimals: u8, value: i32) -> Result<[u8; WIDTH], Refusal>
    ensures { written_as width result ≡ written width decimals value }
{
    let checked = Decimals::new(decimals)?;
    let minus = sign::less(value, 0);
    let size = sign::size(value);
    if size >= checked.limit(minus) {
        return Err(Refusal::DoesNotFit);
    }
    Ok(layout(minus, checked, size))
}

// The characters of a writing, zero bytes where it was refused.
pub fn characters_of(written: Result<[u8; WIDTH], Refusal>) -> [u8; WIDTH]
    ensures { result ≡ (written_as width written).chars }
{
    written.unwrap_or([0; WIDTH])
}
