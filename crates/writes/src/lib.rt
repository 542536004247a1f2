// What a message writes, by 06H to one register and by 10H to several: either all of its values are stored or none.
#![tactic(auto)]

ghost use Rattle.std.specs.Prelude.{◌≡◌, ◌+◌, ◌*◌, ◌<◌, ◌≤◌, true, length, get_or};
ghost use Rattle.std.specs.Iterator.{YieldsFirstBy, at_most};
ghost use Rattle.numbers.specs.Promise.{Lent};
ghost use Rattle.numbers.specs.Refusals.{number_given};
ghost use Rattle.items.specs.ItemList.{map_size, place_of};
ghost use Rattle.registers.specs.Register.{of_register, word};
ghost use Rattle.registers.specs.Faults.{first_word, second_word, right_counts, data_place};
ghost use Rattle.writes.specs.Writes.{writes, allowed, each, given};
ghost use Rattle.writes.specs.Requests.{writes_from, write_fault, written_by_one, several_fault, written_by_several};
ghost use Rattle.writes.specs.Asked.{write, left};

use numbers::Refusal;
use registers::{BODY_LENGTH, DATA_PLACE};

// ---- 06H: a register and a value
// It has code of its own, though it asks for one write: through the loops of 10H it was measured as slower than libmodbus.

// The fault of a request to write one register.
fn write_fault(body: &[u8]) -> Result<(), Refusal>
    ensures { number_given result ≡ write_fault body.now }
{
    if body.len() != BODY_LENGTH {
        return Err(Refusal::WrongData);
    }
    let i = items::place_of(registers::first_word(body));
    if !items::writable(i) {
        return Err(Refusal::WrongRegister);
    }
    if items::in_range(i, registers::of_register(registers::second_word(body))) {
        Ok(())
    } else {
        Err(Refusal::WrongData)
    }
}

// One register is written, or the write refused for its fault.
pub fn write_one(table: &mut [i32], body: &[u8]) -> Result<(), Refusal>
    ensures { Lent (write_fault body.now)
        (written_by_one table.old body.now) (number_given result) table.new }
{
    write_fault(body)?;
    table::store(
        table,
        items::place_of(registers::first_word(body)),
        registers::of_register(registers::second_word(body)),
    );
    Ok(())
}

// ---- the writes that data asks for

// The writes that are left: two bytes, the high one first, for each register from this one on.
#[derive(Drop)]
struct Asked<'a> {
    register: u16,
    bytes: &'a [u8],
}

// Its items are the places of items, past the list where a register is no item's, and the values that they take. No register past the
// last one that a number names is an item's, so there it stays.
impl<'a> Iterator for Asked<'a> {
    type Item = (usize, i32);

    ghost next_gives = { YieldsFirstBy write left };

    ghost remaining = { λ walk. at_most (length walk.bytes.now) };

    fn next(&mut self) -> Option<(usize, i32)> {
        let [high, low, behind @ ..] = self.bytes else {
            return None;
        };
        let place = items::place_of(self.register);
        let value = registers::of_register(registers::word(*high, *low));
        self.register = self.register.saturating_add(1);
        self.bytes = behind;
        Some((place, value))
    }
}

// ---- 10H: a register to start from, a quantity, a byte count, and the values of the registers

// The writes of a body of the right form, whose span lies in the map.
fn several_asked(body: &[u8]) -> Asked<'_>
    requires counts { right_counts body.now ≡ true }
    requires span { first_word body.now + second_word body.now ≤ map_size }
    ensures { left result ≡ writes_from data_place body.now }
{
    Asked {
        register: registers::first_word(body),
        bytes: &body[DATA_PLACE..],
    }
}

// The fault of a request to write several registers. A span that leaves the map has a register that is no item's, and none of it is
// looked at; the sum is made in 64 bits, where it does not wrap. A value out of range is told of only where every register is a
// writable item's.
#[tactic(auto, using(crate::proofs::Faults::to_judge))]
fn several_fault(body: &[u8]) -> Result<(), Refusal>
    ensures { number_given result ≡ several_fault body.now }
{
    if !registers::right_counts(body) {
        return Err(Refusal::WrongData);
    }
    let end = usize::from(registers::first_word(body)) + usize::from(registers::second_word(body));
    if items::MAP_SIZE < end {
        return Err(Refusal::WrongRegister);
    }
    let mut inside = true;
    for (place, value) in several_asked(body) {
        if !items::writable(place) {
            return Err(Refusal::WrongRegister);
        }
        inside &= items::in_range(place, value);
    }
    if inside {
        Ok(())
    } else {
        Err(Refusal::WrongData)
    }
}

// Several registers are written, or the write refused for their fault. No value is stored before all are judged.
#[tactic(auto, using(crate::proofs::Faults::to_store))]
pub fn write_several(table: &mut [i32], body: &[u8]) -> Result<(), Refusal>
    ensures { Lent (several_fault body.now)
        (written_by_several table.old body.now) (number_given result) table.new }
{
    several_fault(body)?;
    let asked = several_asked(body);
    for (place, value) in asked {
        table::store(table, place, value);
    }
    Ok(())
}

// ---- what data gives, where its request is allowed

// Whether each register is that of a writable item and each value in the range of its item. Which fails is not told, and one walk serves
// requests of either kind.
pub fn all_allowed(start: u16, bytes: &[u8]) -> bool
    ensures { result ≡ each allowed (writes start bytes.now) }
{
    let mut asked = Asked {
        register: start,
        bytes,
    };
    asked.all(|(place, value)| items::writable(place) & items::in_range(place, value))
}

// The value that the bytes have for the register so many behind the start.
fn value_behind(bytes: &[u8], i: usize) -> i32
    requires { 2 * i + 1 < length bytes.now }
    ensures { result ≡ of_register (word (get_or bytes.now (2 * i) 0) (get_or bytes.now (2 * i + 1) 0)) }
{
    registers::of_register(registers::word(bytes[2 * i], bytes[2 * i + 1]))
}

// The place of the item whose register is so many behind the start; past the list where no item has it.
fn item_behind(start: u16, i: usize) -> usize
    requires { i < 0x8000000000000000 }
    ensures { result ≡ place_of (start + i) }
{
    let register = (usize::from(start) + i).min(items::MAP_SIZE);
    items::place_of(register as u16)
}

// What bytes of data for the registers from a start on give an item. The last of them that is the item's counts, so they are
// looked at from the back, and a value is worked out for it alone.
pub fn given_to(start: u16, bytes: &[u8], item: usize) -> Option<i32>
    ensures { result ≡ given (writes start bytes.now) item }
{
    for i in (0..bytes.len() / 2).rev() {
        if item_behind(start, i) == item {
            return Some(value_behind(bytes, i));
        }
    }
    None
}
