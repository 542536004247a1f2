// Runs the worked examples of the decimal point chosen on site through the library and writes a line for each: the example, and what
// comes of it.
#![tactic(auto)]

use instrument::{A1, A2, F1, Instrument, M1, PB, PR, S1, XU};
use line::{ENQ, EOT};
use std::rt::Stdout;

// ---- the line of one example

// A block to an item, at an XU: the number, and what the item and XU hold afterwards.
fn told(out: &Stdout, xu: u8, place: u8, text: &[u8]) {
    show::text(out, b"told");
    show::number(out, xu.into());
    show::text(out, b":");
    instrument::block(out, place, text);
    let mut instrument = Instrument::start().with(XU, xu.into());
    let number = instrument.bring(place, text).number;
    show::arrow(out);
    show::number(out, number.into());
    show::text(out, b":");
    show::number(out, table::answer(&instrument.table, place as usize).into());
    show::number(out, table::answer(&instrument.table, XU as usize).into());
    show::end_of_line(out);
}

// What the firmware puts before an example: the item and its value.
fn put_first(out: &Stdout, place: u8, value: i32) {
    show::text(out, b", ");
    show::text(out, &items::identifier(place as usize));
    show::number(out, value.into());
}

// A poll of an item with a value, at an XU: the six characters of its reply.
fn polled(out: &Stdout, xu: u8, place: u8, value: i32) {
    show::text(out, b"polled");
    show::number(out, xu.into());
    put_first(out, place, value);
    let mut instrument = Instrument::start().with(XU, xu.into()).with(place, value);
    let name = items::identifier(place as usize);
    let mut reply = [0u8; numbers::LEAST_BUFFER];
    for byte in [EOT, b'0', b'1', name[0], name[1], ENQ] {
        instrument.hear(&mut reply, byte);
    }
    show::arrow(out);
    show::quoted(out, &reply[3..9]);
    show::end_of_line(out);
}

// Bytes come from a host, and all that is replied is shown.
fn bench(out: &Stdout, place: u8, value: i32, bytes: &[u8]) {
    show::text(out, b"bench");
    put_first(out, place, value);
    show::text(out, b":");
    show::bytes(out, bytes);
    show::arrow(out);
    instrument::replies(out, Instrument::start().with(place, value), bytes);
    show::end_of_line(out);
}

// A frame comes at address 1. It is shown without its CRC, and the reply with it.
fn exchange(out: &Stdout, mut instrument: Instrument, frame: &[u8]) {
    show::text(out, b":");
    show::part(out, frame, 0, frame.len().saturating_sub(2));
    let mut reply = [0u8; numbers::LEAST_BUFFER];
    let answered = rtu::frame(&mut instrument.table, &mut reply, 1, frame);
    show::answer(out, answered.number, &reply, answered.len);
}

fn ask(out: &Stdout, frame: &[u8]) {
    show::text(out, b"ask 01");
    exchange(out, Instrument::start(), frame);
}

// The same after the firmware has put XU.
fn ask_at(out: &Stdout, xu: i32, frame: &[u8]) {
    show::text(out, b"ask 01");
    put_first(out, XU, xu);
    exchange(out, Instrument::start().with(XU, xu), frame);
}

// ---- the examples

// S1 "12" is another number at each XU, and at 3 it is out of range.
fn twelve_at_each(out: &Stdout) {
    told(out, 0, S1, b"12");
    told(out, 1, S1, b"12");
    told(out, 2, S1, b"12");
    told(out, 3, S1, b"12");
}

// Stored ranges stay: at each XU the highest, one above it, the lowest and one below it.
fn ends_of_ranges(out: &Stdout) {
    told(out, 0, S1, b"9999");
    told(out, 0, A1, b"10000");
    told(out, 0, A2, b"-1999");
    told(out, 0, S1, b"-2000");
    told(out, 1, A1, b"999.9");
    told(out, 1, A2, b"1000");
    told(out, 1, S1, b"-199.9");
    told(out, 1, A1, b"-200");
    told(out, 2, A2, b"99.99");
    told(out, 2, S1, b"100");
    told(out, 2, A1, b"-19.99");
    told(out, 2, A2, b"-20");
    told(out, 3, S1, b"9.999");
    told(out, 3, A1, b"10");
    told(out, 3, A2, b"-1.999");
    told(out, 3, S1, b"-2");
}

// The fraction is cut off behind as many decimals as XU gives.
fn fractions(out: &Stdout) {
    told(out, 0, A1, b"-.5678");
    told(out, 1, A1, b"-.5678");
    told(out, 2, A1, b"-.5678");
    told(out, 3, A1, b"-.5678");
}

// XU itself, which has no decimals whatever it is, and items whose decimals it does not give.
fn xu_itself_and_others(out: &Stdout) {
    told(out, 1, XU, b"2");
    told(out, 1, XU, b"3.9");
    told(out, 3, XU, b"2.9");
    told(out, 3, XU, b"4");
    told(out, 2, XU, b"-.9");
    told(out, 1, XU, b"-1");
    told(out, 0, XU, b"");
    told(out, 0, PB, b"-.5");
    told(out, 3, PB, b"-.058");
    told(out, 0, PR, b"1.2345");
    told(out, 3, F1, b"100.9");
    told(out, 0, M1, b"12");
}

// One stored number, with the point where XU has it.
fn sent_at_each(out: &Stdout) {
    polled(out, 0, M1, 1005);
    polled(out, 1, M1, 1005);
    polled(out, 2, M1, 1005);
    polled(out, 3, M1, 1005);
    polled(out, 0, M1, -1999);
    polled(out, 1, M1, -1999);
    polled(out, 2, M1, -1999);
    polled(out, 3, M1, -1999);
    polled(out, 0, M1, 9999);
    polled(out, 1, M1, 9999);
    polled(out, 2, M1, 9999);
    polled(out, 3, M1, 9999);
    polled(out, 3, S1, -5);
    polled(out, 2, A1, -150);
    polled(out, 0, A2, 500);
    polled(out, 0, PB, -5);
    polled(out, 0, PR, 1500);
    polled(out, 3, XU, 2);
}

// M1 polled before and after XU is set; S1 set and polled with XU set in between; a poll run to its end; an alarm state at two XU.
fn whole_sessions(out: &Stdout) {
    bench(
        out,
        M1,
        1005,
        b"\x0401M1\x05\x0401\x02XU2\x03\x3C\x0401M1\x05XU\x05",
    );
    bench(
        out,
        XU,
        0,
        b"\x0401\x02S112\x03\x62\x0401S1\x05\x0401\x02XU3\x03\x3D\x0401S1\x05",
    );
    bench(out, XU, 3, b"\x0401TM\x05\x06\x06");
    bench(
        out,
        M1,
        500,
        b"\x0401AA\x05\x0401\x02XU0\x03\x3E\x0401AA\x05A1\x05",
    );
}

// Reads up to the end of the map, and past it.
fn map_read(out: &Stdout) {
    ask(out, b"\x01\x03\x00\x00\x00\x14\x45\xC5");
    ask_at(out, 3, b"\x01\x03\x00\x13\x00\x01\x75\xCF");
    ask(out, b"\x01\x03\x00\x00\x00\x15\x84\x05");
    ask(out, b"\x01\x03\x00\x13\x00\x02\x35\xCE");
}

// XU is written alone, and together with its neighbours, in its range and out of it.
fn xu_written(out: &Stdout) {
    ask(out, b"\x01\x06\x00\x13\x00\x00\x78\x0F");
    ask(out, b"\x01\x06\x00\x13\x00\x01\xB9\xCF");
    ask(out, b"\x01\x06\x00\x13\x00\x02\xF9\xCE");
    ask(out, b"\x01\x06\x00\x13\x00\x03\x38\x0E");
    ask(out, b"\x01\x06\x00\x13\x00\x04\x79\xCC");
    ask(out, b"\x01\x06\x00\x13\xFF\xFF\x79\xBF");
    ask(
        out,
        b"\x01\x10\x00\x10\x00\x04\x08\xFF\x6A\x03\xE8\x00\x64\x00\x02\x52\xBD",
    );
    ask(
        out,
        b"\x01\x10\x00\x10\x00\x04\x08\xFF\x6A\x03\xE8\x00\x64\x00\x04\xD2\xBF",
    );
}

// Registers hold stored numbers, whatever XU is.
fn registers_at_each(out: &Stdout) {
    ask_at(out, 0, b"\x01\x03\x00\x0B\x00\x04\x35\xCB");
    ask_at(out, 3, b"\x01\x03\x00\x0B\x00\x04\x35\xCB");
    ask_at(out, 3, b"\x01\x06\x00\x0B\x27\x0F\xA3\xFC");
}

fn main(rt: HostRuntime) {
    let out = rt.stdout();
    twelve_at_each(&out);
    ends_of_ranges(&out);
    fractions(&out);
    xu_itself_and_others(&out);
    sent_at_each(&out);
    whole_sessions(&out);
    map_read(&out);
    xu_written(&out);
    registers_at_each(&out);
}
