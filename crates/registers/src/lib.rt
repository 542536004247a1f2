// What the body of a message asks for: its two words, the registers they name, the fault that a read or a loopback meets, and the form
// of a write of several registers.
#![tactic(auto)]

ghost use Rattle.std.specs.Prelude.{◌≡◌, get_or};
ghost use Rattle.numbers.specs.Refusals.{number_given};
ghost use Rattle.registers.specs.Register.{to_register, of_register, word, register_at};
ghost use Rattle.registers.specs.Faults.{first_word, second_word, in_map};
ghost use Rattle.registers.specs.Faults.{read_fault, right_counts, loopback_fault};

use numbers::Refusal;

// The length of a body of 03H, 06H and 08H, and the most registers that one message reads.
pub const BODY_LENGTH: usize = 6;

const MOST_REGISTERS: u16 = 125;

// ---- words

// A byte of a body, 0 past its end: a body of any length has its words.
pub fn byte_at(body: &[u8], i: usize) -> u8
    ensures { result ≡ get_or body.now i 0 }
{
    body.get(i).copied().unwrap_or(0)
}

// The number that two bytes make, the high one first.
pub fn word(high: u8, low: u8) -> u16
    ensures { result ≡ word high low }
{
    u16::from_be_bytes([high, low])
}

// The two words behind the function.
pub fn first_word(body: &[u8]) -> u16
    ensures { result ≡ first_word body.now }
{
    word(byte_at(body, 2), byte_at(body, 3))
}

pub fn second_word(body: &[u8]) -> u16
    ensures { result ≡ second_word body.now }
{
    word(byte_at(body, 4), byte_at(body, 5))
}

// ---- registers

// A value as a register holds it: its low sixteen bits.
fn to_register(value: i32) -> u16
    ensures { result ≡ to_register value }
{
    (value.cast_unsigned() & 0xFFFF) as u16
}

// The value that a register holds: from 8000H up it is below zero.
pub fn of_register(register: u16) -> i32
    ensures { result ≡ of_register register }
{
    i32::from(register.cast_signed())
}

// What a register of the map reads.
#[tactic(auto, unfolding(crate::specs::Register::register_at))]
pub fn register_at(table: &[i32], register: u16) -> u16
    ensures { result ≡ register_at table.now register }
{
    match items::find_register(register) {
        Some(i) => to_register(table::answer(table, i)),
        None => 0,
    }
}

// ---- 03H: a register to start from and a quantity

// Whether the registers lie in the map.
fn in_map(start: u16, quantity: u16) -> bool
    ensures { result ≡ in_map start quantity }
{
    usize::from(start) + usize::from(quantity) <= items::MAP_SIZE
}

// The fault of a request to read.
#[tactic(auto, unfolding(crate::specs::Faults::read_fault))]
pub fn read_fault(body: &[u8]) -> Result<(), Refusal>
    ensures { number_given result ≡ read_fault body.now }
{
    let quantity = second_word(body);
    if body.len() != BODY_LENGTH || !(1..=MOST_REGISTERS).contains(&quantity) {
        return Err(Refusal::WrongData);
    }
    if in_map(first_word(body), quantity) {
        Ok(())
    } else {
        Err(Refusal::WrongRegister)
    }
}

// ---- 08H: a test code and data

// The fault of a loopback.
#[tactic(auto, unfolding(crate::specs::Faults::loopback_fault))]
pub fn loopback_fault(body: &[u8]) -> Result<(), Refusal>
    ensures { number_given result ≡ loopback_fault body.now }
{
    if body.len() == BODY_LENGTH && first_word(body) == 0 {
        Ok(())
    } else {
        Err(Refusal::WrongData)
    }
}

// ---- 10H: a register to start from, a quantity, a byte count, and the values of the registers

// Where in a body the byte count stands, and behind it the values.
pub const COUNT_PLACE: usize = 6;

pub const DATA_PLACE: usize = 7;

// The most registers that one message writes.
const MOST_WRITTEN: u16 = 123;

// Whether length, quantity and byte count are right, and agree.
#[tactic(auto, unfolding(crate::specs::Faults::right_counts))]
pub fn right_counts(body: &[u8]) -> bool
    ensures { result ≡ right_counts body.now }
{
    let Some(count) = body.get(COUNT_PLACE) else {
        return false;
    };
    let count = usize::from(*count);
    let quantity = second_word(body);
    body.len() == DATA_PLACE + count
        && (1..=MOST_WRITTEN).contains(&quantity)
        && count == 2 * usize::from(quantity)
}
