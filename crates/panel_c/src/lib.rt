// The C library: each function of the C face under the C name that it has there. It calls that function of panel and promises what
// that one promises: the C interface has these twelve names, so the twelve stand here a second time. A slice passes as pointer and length.
#![tactic(auto)]

ghost use Rattle.numbers.specs.Promise.{Lent};
ghost use Rattle.table.specs.Table.{start_number, start_table, put_number, put_table};
ghost use Rattle.text.specs.Numbers.{width};
ghost use Rattle.text.specs.Reading.{read_number, read_value};
ghost use Rattle.rkc.specs.Outcome.{received, idled};
ghost use Rattle.state.specs.State.{unpacked};
ghost use Rattle.modbus.specs.Promise.{Gives};
ghost use Rattle.rtu.specs.Promise.{Acts};
ghost use Rattle.ascii.specs.Line.{acted_on};
ghost use Rattle.capture.specs.Show.{Shows};
ghost use Rattle.playback.specs.Playback.{play_number, played};
ghost use Rattle.panel.specs.Calls.{answer_in, link_start_number, link_start, text_number, text_left};
ghost use Rattle.panel.specs.Promise.{StepLeft, ByteLeft, Told};

// Every item takes its start value.
#[unsafe(no_mangle)]
pub extern "C" fn vb_start_table(table: &mut [i32]) -> u32
    ensures { Lent (start_number table.old) (start_table table.old) result table.new }
{
    panel::vb_start_table(table)
}

// The link starts at rest.
#[unsafe(no_mangle)]
pub extern "C" fn vb_start_link(state: &mut [u8]) -> u32
    ensures { Lent (link_start_number state.old) (link_start state.old)
        result state.new }
{
    panel::vb_start_link(state)
}

// One received byte of the RKC line.
#[unsafe(no_mangle)]
pub extern "C" fn vb_byte(
    state: &mut [u8],
    table: &mut [i32],
    reply: &mut [u8],
    address: u8,
    structure: u8,
    time: u32,
    byte: u8,
) -> u32
    ensures { ByteLeft (received (record {
      link = unpacked state.old;
      table = table.old;
      buffer = reply.old;
      address = address;
      structure = structure;
      time = time;
      byte = byte;
    })) result state.old state.new reply.old reply.new table.new }
{
    panel::vb_byte(state, table, reply, address, structure, time, byte)
}

// No byte of the RKC line came.
#[unsafe(no_mangle)]
pub extern "C" fn vb_idle(state: &mut [u8], reply: &mut [u8], structure: u8, time: u32) -> u32
    ensures { StepLeft (idled (record {
      link = unpacked state.old;
      buffer = reply.old;
      structure = structure;
      time = time;
    })) result state.old state.new reply.old reply.new }
{
    panel::vb_idle(state, reply, structure, time)
}

// One RTU frame.
#[unsafe(no_mangle)]
pub extern "C" fn vb_rtu(table: &mut [i32], reply: &mut [u8], address: u8, frame: &[u8]) -> u32
    ensures { Acts (record { table = table.old; buffer = reply.old; address = address })
        frame.now (answer_in result) reply.new table.new }
{
    panel::vb_rtu(table, reply, address, frame)
}

// One line of Modbus ASCII.
#[unsafe(no_mangle)]
pub extern "C" fn vb_ascii(table: &mut [i32], reply: &mut [u8], address: u8, line: &[u8]) -> u32
    ensures { Gives (acted_on (record {
      table = table.old;
      buffer = reply.old;
      address = address;
    }) line.now) (answer_in result) reply.old reply.new table.new }
{
    panel::vb_ascii(table, reply, address, line)
}

// The firmware sets an item, by its number from 1.
#[unsafe(no_mangle)]
pub extern "C" fn vb_put(table: &mut [i32], item: u32, value: i32) -> u32
    ensures { Lent (put_number table.old item value) (put_table table.old item value)
        result table.new }
{
    panel::vb_put(table, item, value)
}

// Number text is read.
#[unsafe(no_mangle)]
pub extern "C" fn vb_read_text(decimals: u8, chars: &[u8], value: &mut i32) -> u32
    ensures { Lent (read_number width decimals chars.now)
        (read_value width decimals chars.now) result value.new }
{
    panel::vb_read_text(decimals, chars, value)
}

// Number text is written, where there is room for six characters.
#[unsafe(no_mangle)]
pub extern "C" fn vb_write_text(decimals: u8, value: i32, chars: &mut [u8]) -> u32
    ensures { Lent (text_number decimals value chars.old)
        (text_left decimals value chars.old) result chars.new }
{
    panel::vb_write_text(decimals, value, chars)
}

// A capture is played back into the table.
#[unsafe(no_mangle)]
pub extern "C" fn vb_playback(table: &mut [i32], address: u8, capture: &[u8]) -> u32
    ensures { Lent (play_number table.old address capture.now)
        (played table.old address capture.now) result table.new }
{
    panel::vb_playback(table, address, capture)
}

// A frame of a capture is shown by its place and its length.
#[unsafe(no_mangle)]
pub extern "C" fn vb_show(capture: &[u8], frame: u32, place: &mut u32, length: &mut u32) -> u32
    ensures { Shows capture.now frame
        (record { number = result; place = place.new; len = length.new }) }
{
    panel::vb_show(capture, frame, place, length)
}

// What was last written to an item, by the value and the records that it sets; 256 more where a write was found.
#[unsafe(no_mangle)]
pub extern "C" fn vb_last_write(
    capture: &[u8],
    address: u8,
    item: u32,
    value: &mut i32,
    records: &mut u32,
) -> u32
    ensures { Told (record { address = address; item = item }) capture.now
        result value.new records.new }
{
    panel::vb_last_write(capture, address, item, value, records)
}
