// An instrument as the examples have it: the values that its firmware has put, and its link, on a line of structure 0 at address 1,
// where the time stays 0. The places of the items are those of the item list.
#![tactic(auto)]

ghost use Rattle.std.specs.Prelude.{◌≡◌};
ghost use Rattle.rkc.specs.Promise.{Leads};
ghost use Rattle.instrument.specs.Session.{at_start, with_value, call_of, told, brought, Hears};

use line::{EOT, ETX, STX};
use numbers::{LEAST_BUFFER, NONE};
use rkc::{Link, Stepped};
use std::rt::Stdout;

pub const M1: u8 = 0;

pub const AA: u8 = 1;

pub const AB: u8 = 2;

pub const S1: u8 = 5;

pub const A1: u8 = 6;

pub const A2: u8 = 7;

pub const PB: u8 = 8;

pub const PR: u8 = 9;

pub const F1: u8 = 10;

pub const XU: u8 = 12;

const ADDRESS: u8 = 1;

const STRUCTURE: u8 = 0;

const TIME: u32 = 0;

#[derive(Clone, Copy)]
pub struct Instrument {
    pub table: [i32; items::ITEMS],
    pub link: Link,
}

impl Instrument {
    // At rest, with start values.
    pub fn start() -> Instrument
        ensures { result ≡ at_start }
    {
        let mut table = [0i32; items::ITEMS];
        let _ = table::start(&mut table);
        Instrument {
            table,
            link: Link::start(),
        }
    }

    // The firmware has put a value to the item at a place.
    pub fn with(self, place: u8, value: i32) -> Instrument
        ensures { result ≡ with_value self place value }
    {
        let mut table = self.table;
        let _ = table::put(&mut table, u32::from(place) + 1, value);
        Instrument {
            table,
            link: self.link,
        }
    }

    // A byte comes from a host, and the reply to it stands at the front of the buffer.
    pub fn hear(&mut self, reply: &mut [u8], byte: u8) -> Stepped
        ensures leads { Leads (call_of self.old reply.old byte) result reply.new self.new.table }
        ensures link { self.new.link ≡ result.link }
    {
        let stepped = self
            .link
            .byte(&mut self.table, reply, ADDRESS, STRUCTURE, TIME, byte);
        self.link = stepped.link;
        stepped
    }

    // Bytes come one after another, and their replies go unheard: what the last byte came to.
    fn hear_all(&mut self, bytes: &[u8]) -> Stepped
        ensures { Hears (told self.old bytes.now) result self.new }
    {
        let mut last = Stepped {
            link: self.link,
            number: NONE,
            len: 0,
        };
        for &byte in bytes {
            let mut reply = [0u8; LEAST_BUFFER];
            last = self.hear(&mut reply, byte);
        }
        last
    }

    // A block brings the item at a place a text: what its BCC came to.
    pub fn bring(&mut self, place: u8, text: &[u8]) -> Stepped
        ensures { Hears (brought self.old place text.now) result self.new }
    {
        let name = items::identifier(place as usize);
        self.hear_all(&[EOT, b'0', b'1', STX]);
        self.hear_all(&name);
        self.hear_all(text);
        self.hear_all(&[ETX, line::bcc(&name) ^ line::bcc(text) ^ ETX])
    }
}

// ---- on standard output

// Bytes come from a host, and all that the instrument replies is shown.
pub fn replies(out: &Stdout, mut instrument: Instrument, bytes: &[u8]) {
    let mut reply = [0u8; LEAST_BUFFER];
    for &byte in bytes {
        let len = instrument.hear(&mut reply, byte).len;
        show::part(out, &reply, 0, len);
    }
}

// The text of a block to the item at a place: its identifier and what it is brought.
pub fn block(out: &Stdout, place: u8, text: &[u8]) {
    show::text(out, b" \"");
    show::text(out, &items::identifier(place as usize));
    show::text(out, text);
    show::text(out, b"\"");
}
