// Runs the worked examples of captures, from the words of document 02, through the library and writes a line for each: the example, and
// what comes of it.
#![tactic(auto)]

use instrument::{F1, PB};
use std::rt::Stdout;

// Document 000's write of 0102H to the offset, one of FF6AH, and document 004's write of a register that the map does not have.
const THREE_WRITES: [u8; 36] =
    *b"\x01\x06\x00\x10\x01\x02\x08\x5E\x00\x08\x01\x06\x00\x10\xFF\x6A\x49\xD0\x00\x08\x01\x06\x00\xF4\x00\x32\x49\xED\x00\x08\x00\x03\x00\x00\x00\x14";

// The same, but for a length of 0 in the first record.
const DAMAGED_IN_FRONT: [u8; 36] =
    *b"\x01\x06\x00\x10\x01\x02\x08\x5E\x00\x00\x01\x06\x00\x10\xFF\x6A\x49\xD0\x00\x08\x01\x06\x00\xF4\x00\x32\x49\xED\x00\x08\x00\x03\x00\x00\x00\x14";

// One record, where the trailer counts two.
const MISCOUNTED: [u8; 16] = *b"\x01\x06\x00\x10\x01\x02\x08\x5E\x00\x08\x00\x02\x00\x00\x00\x00";

// ---- the line of one example

// The capture that a function is handed, up to what comes of it.
fn handed(out: &Stdout, capture: &[u8]) {
    show::text(out, b":");
    show::bytes(out, capture);
    show::arrow(out);
}

fn playback(out: &Stdout, address: u8, capture: &[u8]) {
    show::text(out, b"playback");
    show::byte(out, address);
    handed(out, capture);
    // A table of zeros is lent, so that the line shows where playback begins.
    let mut table = [0i32; items::ITEMS];
    match playback::play(&mut table, address, capture) {
        Ok(()) => {
            show::text(out, b" 0:");
            show::numbers(out, &table);
        }
        Err(refusal) => show::number(out, refusal.number().into()),
    }
    show::end_of_line(out);
}

fn frame(out: &Stdout, frame: u8, capture: &[u8]) {
    show::text(out, b"show");
    show::number(out, frame.into());
    handed(out, capture);
    match capture::look_up(capture, u32::from(frame)) {
        Ok(_) => {
            show::text(out, b" 0:");
            show::bytes(out, capture::show(capture, u32::from(frame)));
        }
        Err(refusal) => show::number(out, refusal.number().into()),
    }
    show::end_of_line(out);
}

fn told(out: &Stdout, written: Option<i32>) {
    match written {
        Some(value) => show::number(out, value.into()),
        None => show::text(out, b" never written"),
    }
}

// The item is shown by its number, which is its place in the list counted from 1.
fn last_write(out: &Stdout, address: u8, place: u8, capture: &[u8]) {
    let item = u32::from(place) + 1;
    show::text(out, b"last");
    show::byte(out, address);
    show::text(out, b", item");
    show::number(out, item.into());
    handed(out, capture);
    match last_write::ask(capture, address, item) {
        Ok(found) => {
            show::text(out, b" 0:");
            told(out, found.written);
            show::text(out, b", records");
            show::count(out, found.records);
        }
        Err(refusal) => show::number(out, refusal.number().into()),
    }
    show::end_of_line(out);
}

// ---- the examples

// 3/14: a capture with no record; three writes played back and shown; and a trailer that counts one record too many.
fn played_back_and_shown(out: &Stdout) {
    playback(out, 1, b"\x00\x00\x00\x00\x00\x00");
    playback(out, 1, &THREE_WRITES);
    frame(out, 2, &THREE_WRITES);
    frame(out, 4, &THREE_WRITES);
    playback(out, 1, &MISCOUNTED);
}

// 7/14: the alarm states are true at the end. A1 is written to 0, where M1 is, and then above it; A2 below it, and then out of range.
fn played_back_to_alarms(out: &Stdout) {
    playback(
        out,
        1,
        b"\x01\x06\x00\x0C\x00\x00\x49\xC9\x00\x08\x00\x01\x00\x00\x00\x00",
    );
    playback(
        out,
        1,
        b"\x01\x06\x00\x0C\x00\x00\x49\xC9\x00\x08\x01\x06\x00\x0C\x00\x01\x88\x09\x00\x08\x00\x02\x00\x00\x00\x0A",
    );
    playback(
        out,
        1,
        b"\x01\x10\x00\x0E\x00\x01\x02\xFF\xFF\xA6\xCE\x00\x0B\x01\x06\x00\x0E\x27\x10\xF2\x35\x00\x08\x00\x02\x00\x00\x00\x0D",
    );
}

// 4/14: the last write to the offset, and to the filter, which has none; with damage in front of the one; and where the count is wrong.
fn last_written(out: &Stdout) {
    last_write(out, 1, PB, &THREE_WRITES);
    last_write(out, 1, F1, &THREE_WRITES);
    last_write(out, 1, PB, &DAMAGED_IN_FRONT);
    last_write(out, 1, F1, &DAMAGED_IN_FRONT);
    last_write(out, 1, PB, &MISCOUNTED);
    last_write(out, 1, F1, &MISCOUNTED);
}

fn main(rt: HostRuntime) {
    let out = rt.stdout();
    played_back_and_shown(&out);
    played_back_to_alarms(&out);
    last_written(&out);
}
