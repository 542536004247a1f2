// The examples of number text and of the RKC line. Each public function writes the line of one example.
use instrument::{Instrument, M1};
use numbers::NONE;
use std::rt::Stdout;

// A block brings an item a text, and its value is shown where that is acknowledged. A block that was passed over in silence gives 0
// too, and brings nothing.
pub fn read(out: &Stdout, place: u8, chars: &[u8]) {
    let name = items::identifier(place as usize);
    show::text(out, b"read ");
    show::text(out, &name);
    show::quoted(out, chars);
    show::arrow(out);
    let mut instrument = Instrument::start();
    let judged = instrument.bring(place, chars);
    if judged.number == NONE && judged.len == 1 {
        show::number(out, table::answer(&instrument.table, place as usize).into());
    } else {
        show::number(out, judged.number.into());
    }
    show::end_of_line(out);
}

pub fn write(out: &Stdout, decimals: u8, value: i32) {
    show::text(out, b"write");
    show::number(out, decimals.into());
    show::number(out, value.into());
    show::arrow(out);
    match text::write(decimals, value) {
        Ok(chars) => show::quoted(out, &chars),
        Err(refusal) => show::number(out, refusal.number().into()),
    }
    show::end_of_line(out);
}

pub fn sent(out: &Stdout, structure: u8, c: u8) {
    show::text(out, b"sent");
    show::number(out, structure.into());
    show::byte(out, c);
    show::arrow(out);
    show::byte(out, line::sent(structure, c));
    show::end_of_line(out);
}

pub fn bcc(out: &Stdout, chars: &[u8]) {
    show::text(out, b"bcc");
    show::bytes(out, chars);
    show::arrow(out);
    show::byte(out, line::bcc(chars));
    show::end_of_line(out);
}

pub fn bench(out: &Stdout, bytes: &[u8]) {
    show::text(out, b"bench");
    show::bytes(out, bytes);
    show::arrow(out);
    instrument::replies(out, Instrument::start(), bytes);
    show::end_of_line(out);
}

// The same after the firmware has put a value to M1.
pub fn bench_with_m1(out: &Stdout, value: i32, bytes: &[u8]) {
    show::text(out, b"bench, M1");
    show::number(out, value.into());
    show::text(out, b":");
    show::bytes(out, bytes);
    show::arrow(out);
    instrument::replies(out, Instrument::start().with(M1, value), bytes);
    show::end_of_line(out);
}
