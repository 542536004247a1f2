// Runs the worked examples of Modbus ASCII through the library and writes a line for each: the example, and what comes of it.
#![tactic(auto)]

use instrument::{Instrument, M1};
use std::rt::Stdout;

// ---- the line of one example

fn lrc(out: &Stdout, bytes: &[u8]) {
    show::text(out, b"lrc");
    show::bytes(out, bytes);
    show::arrow(out);
    show::byte(out, ascii::lrc(bytes));
    show::end_of_line(out);
}

// A line as text, without the two characters at its end.
fn as_text(out: &Stdout, line: &[u8]) {
    if let Some((front, _)) = line.split_last_chunk::<2>() {
        show::quoted(out, front);
    }
}

// A line to an instrument, the number, and the line that is sent back, if any: each line behind a colon, as it is to be shown.
fn exchange<S: Fn(&[u8])>(
    out: &Stdout,
    mut instrument: Instrument,
    address: u8,
    line: &[u8],
    show_line: S,
)
    requires { S.IsAlwaysCallable show_line }
{
    show::text(out, b":");
    show_line(line);
    let mut reply = [0u8; numbers::LEAST_BUFFER];
    let answered = ascii::line(&mut instrument.table, &mut reply, address, line);
    show::arrow(out);
    show::number(out, answered.number.into());
    match reply.get(..answered.len) {
        Some(sent) if !sent.is_empty() => {
            show::text(out, b":");
            show_line(sent);
        }
        _ => {}
    }
    show::end_of_line(out);
}

fn text(out: &Stdout, address: u8, line: &[u8]) {
    show::text(out, b"ascii");
    show::byte(out, address);
    exchange(out, Instrument::start(), address, line, |l| as_text(out, l));
}

fn bytes(out: &Stdout, address: u8, line: &[u8]) {
    show::text(out, b"line");
    show::byte(out, address);
    exchange(
        out,
        Instrument::start(),
        address,
        line,
        |l| show::bytes(out, l),
    );
}

// A line as text after the firmware has put a value to M1.
fn text_with_m1(out: &Stdout, address: u8, value: i32, line: &[u8]) {
    show::text(out, b"ascii");
    show::byte(out, address);
    show::text(out, b", M1");
    show::number(out, value.into());
    exchange(
        out,
        Instrument::start().with(M1, value),
        address,
        line,
        |l| as_text(out, l),
    );
}

// ---- the examples

// What the documents print: LRCs, with a sum that has a carry; a byte as two characters; and an LRC as the last of them.
fn printed(out: &Stdout) {
    lrc(out, b"\x01\x83\x03");
    text(out, 1, b":01030000007E7E\r\n");
    lrc(out, b"\x53");
    lrc(out, b"\xFF\x54");
    bytes(out, 1, b":01080000005B9C\r\n");
    lrc(out, b"\x06\x03\x06\x02\x2B\x00\x00\x00\x63");
    lrc(out, b"\x01\x08\x00\x00\x96\x00");
    bytes(out, 1, b":01080000960061\r\n");
}

// The messages of the RTU examples.
fn messages_of_rtu(out: &Stdout) {
    lrc(out, b"\x01\x08\x00\x00\x1F\x34");
    text(out, 1, b":010800001F34A4\r\n");
    text(out, 1, b":010800011F34A3\r\n");
    text(out, 1, b":010600100102E6\r\n");
    text(out, 1, b":010600F40032D3\r\n");
    text_with_m1(out, 2, 25, b":020300000004F7\r\n");
    text(out, 2, b":02030000007E7D\r\n");
    text(out, 1, b":01100010000306FF6A03E800641E\r\n");
    text(out, 1, b":011000F40002040032003291\r\n");
    text(out, 1, b":010100130013D8\r\n");
}

// The fewest bytes, and fewer; wrong LRCs, another address and a broadcast.
fn short_or_passed_over(out: &Stdout) {
    text(out, 1, b":0107F8\r\n");
    text(out, 1, b":0108F7\r\n");
    text(out, 1, b":01FF\r\n");
    text(out, 1, b":010800001F34A\r\n");
    text(out, 1, b":010800001F34A5\r\n");
    text(out, 1, b":010800001F345C\r\n");
    text(out, 1, b":020800001F34A3\r\n");
    text(out, 1, b":000800001F34A5\r\n");
}

// A colon starts afresh; without one there is no line. No lower case, and no spaces.
fn colons_and_characters(out: &Stdout) {
    text(out, 1, b":0108:010800001F34A4\r\n");
    text(out, 1, b"no line:010800001F34A4\r\n");
    text(out, 1, b":010800001F34A4:0108\r\n");
    text(out, 1, b":010800001F34A4:0108F8\r\n");
    text(out, 1, b"010800001F34A4\r\n");
    text(out, 1, b":010800001f34a4\r\n");
    text(out, 1, b":01 08 00 00 1F 34 A4\r\n");
}

// What stands at the end, and bytes of 80H up.
fn ends_and_top_bits(out: &Stdout) {
    bytes(out, 1, b":0107F8\r\n");
    bytes(out, 1, b":0107F8\r");
    bytes(out, 1, b":0107F8\n");
    bytes(out, 1, b":0107F8\n\r");
    bytes(out, 1, b":0107F8\r\n\n");
    bytes(out, 1, b"\xBA0107F8\r\n");
    bytes(out, 1, b":0\xB107F8\r\n");
}

fn main(rt: HostRuntime) {
    let out = rt.stdout();
    printed(&out);
    messages_of_rtu(&out);
    short_or_passed_over(&out);
    colons_and_characters(&out);
    ends_and_top_bits(&out);
}
