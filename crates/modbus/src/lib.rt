// The rules of Modbus for a message body: address, function, data. The check bytes that a line adds are that line's.
#![tactic(auto)]

ghost use Rattle.std.specs.Prelude.{◌≡◌, List, ◌+◌, ◌*◌, ◌≤◌, ◌<◌, ℤ, length};
ghost use Rattle.std.proofs.lemmas.List.Edits.{sets};
ghost use Rattle.numbers.specs.Numbers.{none};
ghost use Rattle.numbers.specs.Refusals.{number_of};
ghost use Rattle.registers.specs.Register.{registers_from};
ghost use Rattle.registers.specs.Faults.{read_fault};
ghost use Rattle.modbus.specs.Outcome.{head_length, top_bit_set, exception_reply};
ghost use Rattle.modbus.specs.Rules.{read_reply, reading, writing, writing_several, looping_back, obeying, ours, acted_within};
ghost use Rattle.modbus.specs.Promise.{Sends, Gives, Puts, Serves};

use numbers::{LEAST_BUFFER, NONE, Refusal};
use registers::COUNT_PLACE;

// What a call hands back: the number, 0 for none, and the length of the reply. An exception is sent together with its number, and the
// clauses of the C face read both, so this is no `Result`.
#[derive(Clone, Copy)]
pub struct Answered {
    pub number: u8,
    pub len: usize,
}

// Where a reply is put: the front of a buffer, in which every reply has room.
type Reply = [u8; LEAST_BUFFER];

// The bytes at the front of every message: its address and its function.
const HEAD_LENGTH: usize = 2;

// Functions. They are bytes and no enum, since one match on a byte answers every other function, too.
const READ_REGISTERS: u8 = 0x03;

pub const WRITE_REGISTER: u8 = 0x06;

const LOOPBACK: u8 = 0x08;

pub const WRITE_SEVERAL: u8 = 0x10;

// ---- replies

// A function with its top bit set.
fn top_bit_set(function: u8) -> u8
    ensures { result ≡ top_bit_set function }
{
    function | 0x80
}

// The exception that goes with a number: 31, 32 and 33 are exceptions 1, 2 and 3.
fn exception(reply: &mut Reply, body: &[u8], refusal: Refusal) -> Answered
    requires { (head_length ≤ length body.now) × (30 ≤ number_of refusal) }
    ensures { Sends (number_of refusal) (exception_reply body.now (number_of refusal))
        result reply.old reply.new }
{
    let number = refusal.number();
    reply[0] = body[0];
    reply[1] = top_bit_set(body[1]);
    reply[2] = number - 30;
    Answered { number, len: 3 }
}

// The request again, or its front.
#[tactic(auto, using(crate::proofs::Stores::in_front))]
fn echo(reply: &mut Reply, body: &[u8]) -> usize
    requires { length body.now ≤ length reply.old }
    ensures { Puts body.now result reply.old reply.new }
{
    reply[..body.len()].copy_from_slice(body);
    body.len()
}

// ---- 03H: a register to start from and a quantity

// The registers, from the buffer's fourth byte on.
// They go by their index, since the library's `chunks_exact_mut` promises nothing of what the buffer ends as.
fn put_registers(table: &[i32], reply: &mut Reply, start: u16, quantity: u16)
    requires { (start + quantity < 0x10000) × (3 + 2 * quantity ≤ length reply.old) }
    ensures { reply.new
        ≡ sets reply.old 3 (registers_from table.now start quantity) }
{
    for i in 0..quantity {
        let [high, low] = registers::register_at(table, start + i).to_be_bytes();
        let at = 3 + 2 * usize::from(i);
        reply[at] = high;
        reply[at + 1] = low;
    }
}

// The reply to a request to read that meets no fault.
fn send_registers(table: &[i32], reply: &mut Reply, body: &[u8]) -> usize
    requires { read_fault body.now ≡ none }
    ensures { Puts (read_reply table.now body.now)
        result reply.old reply.new }
{
    let start = registers::first_word(body);
    let quantity = registers::second_word(body);
    reply[0] = body[0];
    reply[1] = body[1];
    reply[2] = (2 * quantity) as u8;
    put_registers(table, reply, start, quantity);
    3 + 2 * usize::from(quantity)
}

// Registers are read.
fn read(table: &[i32], reply: &mut Reply, body: &[u8]) -> Result<usize, Refusal>
    ensures { Serves (reading table.now body.now) body.now
        result reply.old reply.new table.now }
{
    registers::read_fault(body)?;
    Ok(send_registers(table, reply, body))
}

// ---- 06H: a register and a value

// A register is written.
fn write(table: &mut [i32], reply: &mut Reply, body: &[u8]) -> Result<usize, Refusal>
    ensures { Serves (writing table.old body.now) body.now
        result reply.old reply.new table.new }
{
    writes::write_one(table, body)?;
    Ok(echo(reply, body))
}

// ---- 08H: a test code and data

// The request comes back.
fn loop_back(reply: &mut Reply, body: &[u8]) -> Result<usize, Refusal>
    ensures { (t : List ℤ) → Serves (looping_back t body.now) body.now
        result reply.old reply.new t }
{
    registers::loopback_fault(body)?;
    Ok(echo(reply, body))
}

// ---- 10H: a register to start from, a quantity, a byte count, and the values of the registers

// Several registers are written.
fn write_several(table: &mut [i32], reply: &mut Reply, body: &[u8]) -> Result<usize, Refusal>
    ensures { Serves (writing_several table.old body.now) body.now
        result reply.old reply.new table.new }
{
    writes::write_several(table, body)?;
    Ok(echo(reply, &body[..COUNT_PLACE]))
}

// ---- any message

// The function decides what is done.
fn serve(table: &mut [i32], reply: &mut Reply, body: &[u8]) -> Result<usize, Refusal>
    requires { head_length ≤ length body.now }
    ensures { Serves (obeying table.old body.now) body.now
        result reply.old reply.new table.new }
{
    match body[1] {
        READ_REGISTERS => read(&table[..], reply, body),
        WRITE_REGISTER => write(table, reply, body),
        LOOPBACK => loop_back(reply, body),
        WRITE_SEVERAL => write_several(table, reply, body),
        _ => Err(Refusal::UnknownFunction),
    }
}

// A message is served, or answered by the exception of its refusal.
fn obey(table: &mut [i32], reply: &mut Reply, body: &[u8]) -> Answered
    requires { head_length ≤ length body.now }
    ensures { Gives (obeying table.old body.now)
        result reply.old reply.new table.new }
{
    match serve(table, reply, body) {
        Ok(len) => Answered { number: NONE, len },
        Err(refusal) => exception(reply, body, refusal),
    }
}

// Nothing is sent.
fn silent(refusal: Refusal) -> Answered
    ensures { result ≡ record { number = number_of refusal; len = 0 } }
{
    Answered {
        number: refusal.number(),
        len: 0,
    }
}

// Whether a message has an address and a function, and the address is ours.
pub fn ours(address: u8, body: &[u8]) -> bool
    ensures { result ≡ ours address body.now }
{
    HEAD_LENGTH <= body.len() && body[0] == address
}

// One message, for a device with this address: the number, and the reply at the buffer's front.
pub fn respond(table: &mut [i32], reply: &mut [u8], address: u8, body: &[u8]) -> Answered
    ensures { Gives (acted_within table.old (length reply.old) address body.now)
        result reply.old reply.new table.new }
{
    let Some(front) = reply.first_chunk_mut() else {
        return silent(Refusal::ShortBuffer);
    };
    if ours(address, body) {
        obey(table, front, body)
    } else {
        silent(Refusal::OtherAddress)
    }
}
