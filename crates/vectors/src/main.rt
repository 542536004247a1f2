// Runs the worked examples of documents 01 and 02, of the manuals 000, 002, 003 and 004 and of the Modbus documents through the
// library and writes a line for each: the example, and what comes of it. An example that more than one document prints stands where
// it comes first. Those of captures, of Modbus ASCII, of the alarm states and of the decimal point have programs of their own,
// `capture_vectors`, `ascii_vectors`, `alarm_vectors` and `point_vectors`.
#![tactic(auto)]

mod modbus_rtu;
mod rkc_line;

use instrument::{F1, PB, PR};
use modbus_rtu::{ask, ask_with_m1, crc, pdu, register, rtu};
use rkc_line::{bcc, bench, bench_with_m1, read, sent, write};
use std::rt::Stdout;

// Document 01, both sides of each edge: number text to PB, then to F1 and PR; number text written; characters, registers and frames,
// with the two BCC in the example of the bench.
fn edges_of_reading(out: &Stdout) {
    read(out, PB, b"-.5");
    read(out, PB, b"-5");
    read(out, PB, b"-.058");
    read(out, PB, b"-0");
    read(out, PB, b".05");
    read(out, PB, b"10.009");
    read(out, PB, b"-10.01");
    read(out, PB, b"+0");
    read(out, PB, b"-.");
    read(out, PB, b"");
    read(out, PB, b"-01.500");
}

fn edges_of_other_ranges(out: &Stdout) {
    read(out, F1, b"-.9");
    read(out, F1, b"100.9");
    read(out, F1, b"101");
    read(out, PR, b".4999");
    read(out, PR, b".5");
}

fn edges_of_writing(out: &Stdout) {
    write(out, 2, -5);
    write(out, 1, 0);
    write(out, 1, -9999);
    write(out, 1, -10000);
    write(out, 1, 99999);
    write(out, 1, 100000);
}

fn edges_on_the_lines(out: &Stdout) {
    sent(out, 1, 0x43);
    sent(out, 2, 0x43);
    register(out, -150);
    crc(out, b"\x01\x08\x00\x00\x1F\x34");
    rtu(out, 1, b"\x01\x08\x00\x00\x1F\x34\xE9\xEC");
    crc(out, b"\x02\x03\x00\xE0\x00\x04");
    crc(out, b"\x01\x06\x00\xF4\x00\x32");
    crc(out, b"\x01\x86\x02");
    crc(out, b"\x02\x83\x03");
    bench(out, b"\x0401\x02PB-8\x03\x04\x0401PB\x05");
    bcc(out, b"PB-8\x03");
    bcc(out, b"PB-08.00\x03");
}

// Document 000: polling and selecting, 5.1.1 and 5.2.1.
fn rkc_line_of_document_000(out: &Stdout) {
    bcc(out, b"M1000500\x03");
    read(out, PB, b"-001.5");
    read(out, PB, b"-01.5");
    read(out, PB, b"-1.5");
    read(out, PB, b"-1.50");
    read(out, PB, b"-1.500");
    read(out, F1, b"0.5");
    read(out, F1, b"100.5");
    read(out, PB, b"+");
    read(out, PB, b"-");
    read(out, PB, b".");
}

// Document 000: Modbus, 6.6 and 6.7.
fn modbus_of_document_000(out: &Stdout) {
    crc(out, b"\x02\x03\x00\x00\x00\x03");
    crc(out, b"\x02\x03\x06\x00\x00\x00\x00\x00\x63");
    crc(out, b"\x01\x06\x00\x10\x01\x02");
    rtu(out, 1, b"\x01\x06\x00\x10\x01\x02\x08\x5E");
    crc(out, b"\x01\x88\x03");
    ask(out, 1, b"\x08\x00\x01\x1F\x34");
    register(out, -1);
    register(out, 555);
    register(out, 50);
    register(out, -200);
}

// Documents 002, 4.2.1, and 003, 4.1.1.
fn documents_002_and_003(out: &Stdout) {
    read(out, PB, b".03");
    bcc(out, b"M1023.000\x03");
}

// Document 004: polling, 3.1.1, with the host program of document 02 that polls on as 004 says; and Modbus, 4.6 and 5.3.
fn document_004(out: &Stdout) {
    bcc(out, b"M10100.0\x03");
    bench_with_m1(out, 1000, b"\x0401M1\x05");
    bench_with_m1(out, 1000, b"\x0401M1\x05M1\x05");
    bench(out, b"\x0401M1\x05S1\x05");
    crc(out, b"\x02\x03\x08\x00\x19\x00\x00\x00\x00\x00\x00");
    ask_with_m1(out, 2, 25, b"\x03\x00\x00\x00\x04");
    ask(out, 2, b"\x03\x00\x00\x00\x7E");
    rtu(out, 1, b"\x01\x06\x00\xF4\x00\x32\x49\xED");
    crc(out, b"\x01\x10\x00\xF4\x00\x02");
    rtu(
        out,
        1,
        b"\x01\x10\x00\xF4\x00\x02\x04\x00\x32\x00\x32\xDD\x02",
    );
    register(out, 1050);
}

// Modbus over Serial Line: the CRC of its appendix. Modbus Application Protocol: the requests of section 6 to functions that are
// here, that are not, and to registers that are not; and three settings of document 02 in one message.
fn modbus_documents(out: &Stdout) {
    crc(out, b"\x02\x07");
    pdu(out, b"\x08\x00\x00\xA5\x37");
    pdu(out, b"\x01\x00\x13\x00\x13");
    pdu(out, b"\x02\x00\xC4\x00\x16");
    pdu(out, b"\x04\x00\x08\x00\x01");
    pdu(out, b"\x05\x00\xAC\xFF\x00");
    pdu(out, b"\x07");
    pdu(out, b"\x0F\x00\x13\x00\x0A\x02\xCD\x01");
    pdu(out, b"\x16\x00\x04\x00\xF2\x00\x25");
    pdu(out, b"\x03\x00\x6B\x00\x03");
    pdu(out, b"\x06\x00\x01\x00\x03");
    pdu(out, b"\x10\x00\x01\x00\x02\x04\x00\x0A\x01\x02");
    pdu(out, b"\x10\x00\x10\x00\x03\x06\xFF\x6A\x03\xE8\x00\x64");
}

fn main(rt: HostRuntime) {
    let out = rt.stdout();
    edges_of_reading(&out);
    edges_of_other_ranges(&out);
    edges_of_writing(&out);
    edges_on_the_lines(&out);
    rkc_line_of_document_000(&out);
    modbus_of_document_000(&out);
    documents_002_and_003(&out);
    document_004(&out);
    modbus_documents(&out);
}
