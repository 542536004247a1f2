// The examples of registers, CRC and Modbus RTU. Each public function writes the line of one example.
use instrument::{Instrument, M1, S1};
use modbus::Answered;
use std::rt::Stdout;

// The bytes of an example have room for a CRC behind them.
const LONGEST_FRAME: usize = 256;

// Bytes go to the front of a frame, as far as it has room.
fn copy(bytes: &[u8], frame: &mut [u8]) {
    for (place, &byte) in frame.iter_mut().zip(bytes) {
        *place = byte;
    }
}

pub fn crc(out: &Stdout, bytes: &[u8]) {
    show::text(out, b"crc");
    show::bytes(out, bytes);
    show::arrow(out);
    let mut frame = [0u8; LONGEST_FRAME];
    copy(bytes, &mut frame);
    if let Some(end) = crc::seal(&mut frame, bytes.len()) {
        show::part(out, &frame, bytes.len(), end);
    }
    show::end_of_line(out);
}

pub fn rtu(out: &Stdout, address: u8, frame: &[u8]) {
    show::text(out, b"rtu");
    show::byte(out, address);
    show::text(out, b":");
    show::bytes(out, frame);
    let mut table = Instrument::start().table;
    let mut reply = [0u8; numbers::LEAST_BUFFER];
    let answered = rtu::frame(&mut table, &mut reply, address, frame);
    show::answer(out, answered.number, &reply, answered.len);
}

// A request is sent to an address and answered there: the frame has the address in front and the CRC behind.
fn exchange(table: &mut [i32], reply: &mut [u8], address: u8, request: &[u8]) -> Answered {
    let mut frame = [0u8; LONGEST_FRAME];
    frame[0] = address;
    copy(request, &mut frame[1..]);
    let end = crc::seal(&mut frame, 1 + request.len()).unwrap_or(0);
    rtu::frame(table, reply, address, &frame[..end])
}

// The request behind the address, and what an instrument answers to it.
fn show_exchange(out: &Stdout, mut instrument: Instrument, address: u8, request: &[u8]) {
    show::text(out, b":");
    show::byte(out, address);
    show::bytes(out, request);
    let mut reply = [0u8; numbers::LEAST_BUFFER];
    let answered = exchange(&mut instrument.table, &mut reply, address, request);
    show::answer(out, answered.number, &reply, answered.len);
}

pub fn ask(out: &Stdout, address: u8, request: &[u8]) {
    show::text(out, b"ask");
    show::byte(out, address);
    show_exchange(out, Instrument::start(), address, request);
}

// The same after the firmware has put a value to M1.
pub fn ask_with_m1(out: &Stdout, address: u8, value: i32, request: &[u8]) {
    show::text(out, b"ask");
    show::byte(out, address);
    show::text(out, b", M1");
    show::number(out, value.into());
    show_exchange(out, Instrument::start().with(M1, value), address, request);
}

// The reply is shown bare of its address and CRC.
pub fn pdu(out: &Stdout, request: &[u8]) {
    show::text(out, b"pdu");
    show::bytes(out, request);
    let mut table = Instrument::start().table;
    let mut reply = [0u8; numbers::LEAST_BUFFER];
    let answered = exchange(&mut table, &mut reply, 1, request);
    show::arrow(out);
    show::number(out, answered.number.into());
    show::text(out, b":");
    show::part(out, &reply, 1, answered.len.saturating_sub(2));
    show::end_of_line(out);
}

// The firmware puts a value to S1, and a host reads its register, 000BH.
pub fn register(out: &Stdout, value: i32) {
    show::text(out, b"register");
    show::number(out, value.into());
    show::arrow(out);
    let mut table = Instrument::start().with(S1, value).table;
    let mut reply = [0u8; numbers::LEAST_BUFFER];
    exchange(&mut table, &mut reply, 1, b"\x03\x00\x0B\x00\x01");
    show::word(out, u16::from_be_bytes([reply[3], reply[4]]));
    show::end_of_line(out);
}
