// The RKC link on a pipe: bytes come from standard input and the replies, nothing else, go to standard output. The address is 1,
// the structure 0, the time stays 0, and the table starts at its start values.
#![tactic(auto)]

use instrument::Instrument;
use numbers::LEAST_BUFFER;
use std::io::Read;
use std::rt::{Stdin, Stdout};

// How many bytes one read takes at most.
const READ_BYTES: usize = 4096;

// One byte, and its reply at once: a host that waits for it sends nothing before. A reply that can't be written is lost, as on a wire.
fn hear(out: &Stdout, instrument: &mut Instrument, byte: u8) {
    let mut reply = [0u8; LEAST_BUFFER];
    let len = instrument.hear(&mut reply, byte).len;
    let _ = out.write_all(&reply[..len]);
}

// Reads once: how many bytes came, none at the end of the input or where it can't be read. A read of a pipe brings what is there and
// does not wait for a full buffer.
fn hear_some(input: &mut Stdin, out: &Stdout, instrument: &mut Instrument) -> usize {
    let mut buffer = [0u8; READ_BYTES];
    let Ok(n) = input.read(&mut buffer) else {
        return 0;
    };
    for &byte in &buffer[..n] {
        hear(out, instrument, byte);
    }
    n
}

fn main(rt: HostRuntime) {
    let mut input = rt.stdin();
    let out = rt.stdout();
    let mut instrument = Instrument::start();
    // a proved loop has to end, and nothing says that the input does: no run uses up so many reads
    for _ in 0..u64::MAX {
        if hear_some(&mut input, &out, &mut instrument) == 0 {
            break;
        }
    }
}
