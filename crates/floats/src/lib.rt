// A reading as a float: the single-precision quotient of a whole number by ten to its decimals.
#![tactic(auto)]

ghost use Rattle.std.specs.Prelude.{◌≡◌, ◌≤◌, ◌^◌};
ghost use Rattle.floats.specs.Quotient.{most_decimals, exact, float_bits};

// The most decimals, and the powers of ten up to it: a table has each in one step.
const MOST_DECIMALS: u8 = 3;

const TENS: [u16; MOST_DECIMALS as usize + 1] = [1, 10, 100, 1000];

// Single precision has every whole number up to this size.
const MOST_EXACT: u32 = 16777216;

// 10 to the power of some decimals.
fn power(decimals: u8) -> u16
    requires { decimals ≤ most_decimals }
    ensures { result ≡ 10 ^ decimals }
{
    TENS[decimals as usize]
}

// Whether single precision has the number and the power of ten, so that both are converted without loss.
fn exact(value: i32, decimals: u8) -> bool
    ensures { result ≡ exact value decimals }
{
    (value.unsigned_abs() <= MOST_EXACT) & (decimals <= MOST_DECIMALS)
}

// The four bytes of the float, as one number: one division, rounded once. 0 where number or power is not exact, as none is in a good table.
pub fn bits(value: i32, decimals: u8) -> u32
    ensures { result ≡ float_bits value decimals }
{
    if exact(value, decimals) {
        (value as f32 / power(decimals) as f32).to_bits()
    } else {
        0
    }
}
