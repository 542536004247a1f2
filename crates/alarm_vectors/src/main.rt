// Runs the worked examples of the alarm states, which stand in the table, through the library and writes a line for each: the example,
// and what comes of it.
#![tactic(auto)]

use instrument::{A1, A2, AA, AB, F1, Instrument, M1};
use numbers::number_if;
use std::rt::Stdout;

// ---- the line of one example

// An instrument into which the firmware puts M1, A1 and A2, one after the other; the three are shown.
fn started(out: &Stdout, puts: [i32; 3]) -> Instrument {
    show::numbers(out, &puts);
    show::text(out, b":");
    let [measured, first, second] = puts;
    Instrument::start()
        .with(M1, measured)
        .with(A1, first)
        .with(A2, second)
}

// The number, and the alarm states as the table holds them.
fn came_of_it(out: &Stdout, number: u8, instrument: Instrument) {
    show::arrow(out);
    show::number(out, number.into());
    show::text(out, b":");
    show::number(out, instrument.table[AA as usize].into());
    show::number(out, instrument.table[AB as usize].into());
    show::end_of_line(out);
}

// The firmware puts a value to the item that has a number.
fn put_number(out: &Stdout, puts: [i32; 3], number: u32, value: i32) {
    show::text(out, b"put");
    let mut instrument = started(out, puts);
    show::number(out, number.into());
    show::number(out, value.into());
    let put = table::put(&mut instrument.table, number, value);
    came_of_it(out, number_if(put.err()), instrument);
}

// The same by the item's place in the list.
fn put(out: &Stdout, puts: [i32; 3], place: u8, value: i32) {
    put_number(out, puts, u32::from(place) + 1, value);
}

fn block(out: &Stdout, puts: [i32; 3], place: u8, text: &[u8]) {
    show::text(out, b"block");
    let mut instrument = started(out, puts);
    instrument::block(out, place, text);
    let number = instrument.bring(place, text).number;
    came_of_it(out, number, instrument);
}

// The frame is shown without its CRC.
fn frame(out: &Stdout, puts: [i32; 3], frame: &[u8]) {
    show::text(out, b"frame");
    let mut instrument = started(out, puts);
    show::part(out, frame, 0, frame.len().saturating_sub(2));
    let mut reply = [0u8; numbers::LEAST_BUFFER];
    let number = rtu::frame(&mut instrument.table, &mut reply, 1, frame).number;
    came_of_it(out, number, instrument);
}

// M1, A1 and A2 are stored as they are, and both alarm states, and then the firmware puts 0 to F1.
fn table(out: &Stdout, values: [i32; 3], states: [i32; 2]) {
    show::text(out, b"table");
    show::numbers(out, &values);
    show::numbers(out, &states);
    let mut table = Instrument::start().table;
    [table[M1 as usize], table[A1 as usize], table[A2 as usize]] = values;
    [table[AA as usize], table[AB as usize]] = states;
    show::arrow(out);
    let put = table::put(&mut table, u32::from(F1) + 1, 0);
    show::number(out, number_if(put.err()).into());
    show::end_of_line(out);
}

// ---- the examples

// M1 is put below the alarms' values, at them, and at the ends of its range.
fn measured_values(out: &Stdout) {
    put(out, [0, 500, 500], M1, 499);
    put(out, [0, 500, 500], M1, 500);
    put(out, [500, 500, 500], M1, 499);
    put(out, [0, 500, 501], M1, 500);
    put(out, [0, -1999, 9999], M1, -1999);
    put(out, [0, -1999, 9999], M1, 9999);
}

// An alarm's value is put one above M1 and at it; one out of range is refused.
fn alarm_values(out: &Stdout) {
    put(out, [0, 500, 500], A1, 1);
    put(out, [0, 500, 500], A1, 0);
    put(out, [0, 0, 0], A1, 1);
    put(out, [-150, 500, -149], A2, -150);
    put(out, [-150, 500, -150], A2, -149);
    put(out, [500, 500, 500], A1, 10000);
}

// The alarm states themselves cannot be put, whatever the value; and there is no item 0 or 14.
fn states_and_no_items(out: &Stdout) {
    put(out, [0, 500, 500], AA, 0);
    put(out, [0, 500, 500], AA, 1);
    put(out, [500, 500, 501], AB, 0);
    put(out, [500, 500, 501], AB, 1);
    put_number(out, [0, 500, 500], 0, 0);
    put_number(out, [0, 500, 500], 14, 0);
}

// On the RKC line, with blocks to the states themselves at the end.
fn blocks(out: &Stdout) {
    block(out, [0, 500, 500], A1, b".1");
    block(out, [0, 500, 500], A1, b"0");
    block(out, [0, 0, 0], A1, b".1");
    block(out, [0, 500, 500], A2, b".09");
    block(out, [-1, 500, 500], A2, b"-.1");
    block(out, [-1, 500, -1], A2, b"0");
    block(out, [500, 500, 500], A2, b"1000");
    block(out, [0, 500, 500], AA, b"1");
    block(out, [500, 500, 500], AB, b"1");
    block(out, [0, 500, 500], AB, b"");
}

// In Modbus: one register, several, the states themselves, and a read.
fn frames(out: &Stdout) {
    frame(out, [0, 500, 500], b"\x01\x06\x00\x0C\x00\x01\x88\x09");
    frame(out, [0, 500, 500], b"\x01\x06\x00\x0C\x00\x00\x49\xC9");
    frame(out, [-1, 500, -1], b"\x01\x06\x00\x0E\x00\x00\xE8\x09");
    frame(out, [-1, 500, 500], b"\x01\x06\x00\x0E\xFF\xFF\xE9\xB9");
    frame(
        out,
        [0, 500, 500],
        b"\x01\x10\x00\x0B\x00\x02\x04\x27\x0F\x00\x00\x88\xAB",
    );
    frame(
        out,
        [0, 0, 0],
        b"\x01\x10\x00\x0C\x00\x01\x02\x00\x01\x67\x5C",
    );
    frame(
        out,
        [0, 500, 500],
        b"\x01\x10\x00\x0B\x00\x02\x04\x27\x10\x00\x00\xB9\x6D",
    );
    frame(
        out,
        [0, 500, 500],
        b"\x01\x10\x00\x0C\x00\x03\x06\x00\x00\x00\x00\x00\x00\x26\xBF",
    );
    frame(out, [0, 500, 500], b"\x01\x06\x00\x01\x00\x01\x19\xCA");
    frame(
        out,
        [500, 500, 500],
        b"\x01\x10\x00\x01\x00\x02\x04\x00\x01\x00\x01\xA2\x63",
    );
    frame(out, [500, 500, 501], b"\x01\x03\x00\x00\x00\x03\x05\xCB");
}

// Tables in which the states agree with M1, A1 and A2, and in which one or both do not.
fn tables(out: &Stdout) {
    table(out, [500, 500, 500], [1, 1]);
    table(out, [500, 500, 500], [0, 1]);
    table(out, [500, 500, 500], [1, 0]);
    table(out, [500, 500, 500], [0, 0]);
    table(out, [499, 500, 500], [0, 0]);
    table(out, [499, 500, 500], [1, 0]);
    table(out, [499, 500, 500], [0, 1]);
    table(out, [499, 500, 500], [1, 1]);
    table(out, [500, 500, 501], [1, 0]);
    table(out, [500, 500, 501], [0, 1]);
    table(out, [500, 500, 500], [2, 1]);
    table(out, [499, 500, 500], [0, -1]);
}

fn main(rt: HostRuntime) {
    let out = rt.stdout();
    measured_values(&out);
    alarm_values(&out);
    states_and_no_items(&out);
    blocks(&out);
    frames(&out);
    tables(&out);
}
