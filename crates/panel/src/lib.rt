// The C face: functions for firmware, which lends the link state as 24 bytes. A slice passes as pointer and length. A result is
// the number given back plus 256 times the length of the reply.
#![tactic(auto)]

ghost use Rattle.std.specs.Prelude.{◌≡◌, ◌≤◌};
ghost use Rattle.numbers.specs.Promise.{Lent};
ghost use Rattle.table.specs.Table.{start_number, start_table, put_number, put_table};
ghost use Rattle.text.specs.Numbers.{width};
ghost use Rattle.text.specs.Reading.{read_number, read_value};
ghost use Rattle.rkc.specs.Outcome.{received, idled};
ghost use Rattle.state.specs.State.{unpacked};
ghost use Rattle.modbus.specs.Promise.{Gives};
ghost use Rattle.rtu.specs.Promise.{Acts};
ghost use Rattle.ascii.specs.Line.{acted_on};
ghost use Rattle.capture.specs.Show.{Shows};
ghost use Rattle.playback.specs.Playback.{play_number, played};
ghost use Rattle.panel.specs.Calls.{result_of, answer_in, is_call_fault, link_start_number, link_start, text_number, text_left};
ghost use Rattle.panel.specs.Promise.{longest_reply, Holdable, Held, StepLeft, ByteLeft, Told};

use capture::Stretch;
use last_write::LastWrite;
use numbers::{Refusal, number_if};
use rkc::{Link, Stepped};

// ---- what a step hands back

// Whether a number is one of those that hand the state back as it came.
fn is_call_fault(number: u8) -> bool
    ensures { result ≡ is_call_fault number }
{
    matches!(number, 1..=5)
}

// The number and the length of the reply in one.
fn result(number: u8, len: usize) -> u32
    requires { len ≤ longest_reply }
    ensures { result ≡ result_of number len }
{
    u32::from(number) + 256 * (len as u32)
}

// The state is held again, unless the call had a fault.
fn hold(state: &mut [u8], stepped: Stepped) -> u32
    requires { Holdable stepped state.old }
    ensures { Held stepped result state.old state.new }
{
    if !is_call_fault(stepped.number) {
        state::pack(state, stepped.link);
    }
    result(stepped.number, stepped.len)
}

// ---- the functions

// Every item takes its start value.
pub fn vb_start_table(table: &mut [i32]) -> u32
    ensures { Lent (start_number table.old) (start_table table.old) result table.new }
{
    u32::from(number_if(table::start(table).err()))
}

// The link starts at rest.
pub fn vb_start_link(state: &mut [u8]) -> u32
    ensures { Lent (link_start_number state.old) (link_start state.old)
        result state.new }
{
    if state.len() != state::STATE_BYTES {
        return u32::from(Refusal::BadState.number());
    }
    state::pack(state, Link::start());
    0
}

// One received byte of the RKC line.
pub fn vb_byte(
    state: &mut [u8],
    table: &mut [i32],
    reply: &mut [u8],
    address: u8,
    structure: u8,
    time: u32,
    byte: u8,
) -> u32
    ensures { ByteLeft (received (record {
      link = unpacked state.old;
      table = table.old;
      buffer = reply.old;
      address = address;
      structure = structure;
      time = time;
      byte = byte;
    })) result state.old state.new reply.old reply.new table.new }
{
    let link = state::unpack(&state[..]);
    let stepped = link.byte(table, reply, address, structure, time, byte);
    hold(state, stepped)
}

// No byte of the RKC line came.
pub fn vb_idle(state: &mut [u8], reply: &mut [u8], structure: u8, time: u32) -> u32
    ensures { StepLeft (idled (record {
      link = unpacked state.old;
      buffer = reply.old;
      structure = structure;
      time = time;
    })) result state.old state.new reply.old reply.new }
{
    let link = state::unpack(&state[..]);
    let stepped = link.idle(reply, structure, time);
    hold(state, stepped)
}

// One RTU frame.
pub fn vb_rtu(table: &mut [i32], reply: &mut [u8], address: u8, frame: &[u8]) -> u32
    ensures { Acts (record { table = table.old; buffer = reply.old; address = address })
        frame.now (answer_in result) reply.new table.new }
{
    let answered = rtu::frame(table, reply, address, frame);
    result(answered.number, answered.len)
}

// One line of Modbus ASCII.
pub fn vb_ascii(table: &mut [i32], reply: &mut [u8], address: u8, line: &[u8]) -> u32
    ensures { Gives (acted_on (record {
      table = table.old;
      buffer = reply.old;
      address = address;
    }) line.now) (answer_in result) reply.old reply.new table.new }
{
    let answer = ascii::line(table, reply, address, line);
    result(answer.number, answer.len)
}

// The firmware sets an item, by its number from 1.
pub fn vb_put(table: &mut [i32], item: u32, value: i32) -> u32
    ensures { Lent (put_number table.old item value) (put_table table.old item value)
        result table.new }
{
    u32::from(number_if(table::put(table, item, value).err()))
}

// Number text is read.
pub fn vb_read_text(decimals: u8, chars: &[u8], value: &mut i32) -> u32
    ensures { Lent (read_number width decimals chars.now)
        (read_value width decimals chars.now) result value.new }
{
    let read = text::read(decimals, chars);
    *value = text::value_of(read);
    u32::from(number_if(read.err()))
}

// Number text is written, where there is room for six characters.
pub fn vb_write_text(decimals: u8, value: i32, chars: &mut [u8]) -> u32
    ensures { Lent (text_number decimals value chars.old)
        (text_left decimals value chars.old) result chars.new }
{
    if chars.len() < text::WIDTH {
        return u32::from(Refusal::ShortBuffer.number());
    }
    let written = text::write(decimals, value);
    let six = text::characters_of(written);
    chars[..text::WIDTH].copy_from_slice(&six);
    u32::from(number_if(written.err()))
}

// ---- captures

// A capture is played back into the table.
pub fn vb_playback(table: &mut [i32], address: u8, capture: &[u8]) -> u32
    ensures { Lent (play_number table.old address capture.now)
        (played table.old address capture.now) result table.new }
{
    u32::from(number_if(playback::play(table, address, capture).err()))
}

// A frame of a capture is shown by its place and its length.
pub fn vb_show(capture: &[u8], frame: u32, place: &mut u32, length: &mut u32) -> u32
    ensures { Shows capture.now frame
        (record { number = result; place = place.new; len = length.new }) }
{
    let shown = capture::look_up(capture, frame);
    let stretch = shown.unwrap_or(Stretch { place: 0, len: 0 });
    *place = stretch.place as u32;
    *length = stretch.len as u32;
    u32::from(number_if(shown.err()))
}

// What was last written to an item, by the value and the records that it sets; 256 more where a write was found.
pub fn vb_last_write(
    capture: &[u8],
    address: u8,
    item: u32,
    value: &mut i32,
    records: &mut u32,
) -> u32
    ensures { Told (record { address = address; item = item }) capture.now
        result value.new records.new }
{
    let asked = last_write::ask(capture, address, item);
    let found = asked.unwrap_or(LastWrite {
        written: None,
        records: 0,
    });
    *value = found.written.unwrap_or(0);
    *records = found.records as u32;
    result(number_if(asked.err()), usize::from(found.written.is_some()))
}
