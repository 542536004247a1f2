// Lines of text on standard output, for the programs that run worked examples. Bytes, numbers and quotes come with a space before
// them. A write that fails is passed over: whoever compares these lines compares all of them.
#![tactic(auto)]

use std::rt::Stdout;

pub fn text(out: &Stdout, chars: &[u8]) {
    let _ = out.write_all(chars);
}

// Between an example and what comes of it.
pub fn arrow(out: &Stdout) {
    text(out, b" ->");
}

pub fn end_of_line(out: &Stdout) {
    text(out, b"\n");
}

pub fn byte(out: &Stdout, byte: u8) {
    let _ = print!(out; " {byte:02X}");
}

pub fn bytes(out: &Stdout, bytes: &[u8]) {
    for &b in bytes {
        byte(out, b);
    }
}

// The bytes from one place up to another, as far as there are any.
pub fn part(out: &Stdout, bytes: &[u8], from: usize, to: usize) {
    for &b in bytes.iter().take(to).skip(from) {
        byte(out, b);
    }
}

// What a register holds.
pub fn word(out: &Stdout, word: u16) {
    let _ = print!(out; " {word:04X}");
}

pub fn quoted(out: &Stdout, chars: &[u8]) {
    text(out, b" \"");
    text(out, chars);
    text(out, b"\"");
}

pub fn number(out: &Stdout, n: i64) {
    let _ = print!(out; " {n}");
}

pub fn numbers(out: &Stdout, values: &[i32]) {
    for &value in values {
        number(out, value.into());
    }
}

// The number that is given back, and as many bytes of a buffer as are the reply; with that the line ends.
pub fn answer(out: &Stdout, given: u8, reply: &[u8], len: usize) {
    arrow(out);
    number(out, given.into());
    text(out, b":");
    part(out, reply, 0, len);
    end_of_line(out);
}

// How many there are. That each function of a library has one outcome is said of functions without type parameters, so this one and
// `number` stay two.
pub fn count(out: &Stdout, n: usize) {
    let _ = print!(out; " {n}");
}
