// One line of Modbus ASCII: it is taken apart, its message is obeyed as in RTU, and the reply goes back as such a line.
#![tactic(auto)]

ghost use Rattle.std.specs.Prelude.{◌≡◌, ◌+◌, ◌*◌, ◌%◌, ◌<◌, ◌≤◌, true, cond, Some, None, is_some, [], ◌∷◌, length, take, unwrap_or};
ghost use Rattle.std.proofs.lemmas.List.Edits.{sets};
ghost use Rattle.numbers.specs.Numbers.{none};
ghost use Rattle.numbers.specs.Refusals.{number_of, number_given};
ghost use Rattle.modbus.specs.Promise.{Gives};
ghost use Rattle.call.specs.Call.{refusal, answered_as};
ghost use Rattle.ascii.specs.Hexadecimal.{digit_of, hex_of, is_hex, all_hex, half_of, bytes_of};
ghost use Rattle.ascii.specs.Line.{lrc_of, line_of, acted_on};
ghost use Rattle.ascii.specs.Promise.{bytes_made, bytes_behind, bytes_taken, bytes_fault, Takes, Writes};

use modbus::Answered;
use numbers::Refusal;

// The characters at both ends of a line.
const COLON: u8 = b':';

const CR: u8 = b'\r';

const LF: u8 = b'\n';

// The bytes that a line has with its LRC.
const FEWEST: usize = 3;

const MOST: usize = 255;

// The bytes that the same message has in RTU, at most, and those of its CRC.
const LONGEST_FRAME: usize = 256;

const CRC_BYTES: usize = 2;

// ---- hexadecimal

// The character of half a byte. A table of the sixteen would be laid out anew for each.
#[tactic(auto, unfolding(crate::specs::Hexadecimal::digit_of))]
fn digit_of(half: u8) -> u8
    requires { half < 16 }
    ensures { result ≡ digit_of half }
{
    match half {
        0..=9 => b'0' + half,
        _ => b'A' + (half - 10),
    }
}

// The two characters of a byte, at a place of the buffer. Two stores say it as plainly as a copy of the pair.
fn put_hex(buffer: &mut [u8], at: usize, byte: u8)
    requires { at + 2 ≤ length buffer.old }
    ensures { buffer.new ≡ sets buffer.old at (hex_of (byte ∷ [])) }
{
    buffer[at] = digit_of(byte / 16);
    buffer[at + 1] = digit_of(byte % 16);
}

// The half byte that a hexadecimal character stands for. Lower case stands for none.
#[tactic(auto, unfolding(crate::specs::Hexadecimal::is_hex, crate::specs::Hexadecimal::half_of))]
fn half_of(c: u8) -> Option<u8>
    ensures { result ≡ cond (is_hex c) (Some (half_of c)) None }
{
    match c {
        b'0'..=b'9' => Some(c - b'0'),
        b'A'..=b'F' => Some(10 + (c - b'A')),
        _ => None,
    }
}

// The bytes that characters make go to the buffer's front, unless one of the characters is not hexadecimal.
fn put_bytes(bytes: &mut [u8], characters: &[u8]) -> Option<()>
    requires { (length characters.now % 2 ≡ 0) × (length characters.now ≤ 2 * length bytes.old) }
    ensures hex { is_some result ≡ all_hex characters.now }
    ensures stored { all_hex characters.now ≡ true → bytes.new ≡ sets bytes.old 0 (bytes_of characters.now) }
{
    // a byte's place is that of its two characters too, so one index serves what is read and what is written
    for i in 0..characters.len() / 2 {
        bytes[i] = 16 * half_of(characters[2 * i])? + half_of(characters[2 * i + 1])?;
    }
    Some(())
}

// ---- the LRC

// The LRC of some bytes.
pub fn lrc(bytes: &[u8]) -> u8
    ensures { result ≡ lrc_of bytes.now }
{
    let mut sum: u8 = 0;
    for byte in bytes {
        sum = sum.wrapping_add(*byte);
    }
    sum.wrapping_neg()
}

// ---- a line is taken apart

// The bytes of a line go to the buffer's front, and their number is handed back, unless the line's form is wrong. So it is for the
// characters between, for what stands behind the last colon, and for the line.
fn take_characters(bytes: &mut [u8; LONGEST_FRAME], characters: &[u8]) -> Option<usize>
    ensures { Takes (bytes_made characters.now) bytes.new (unwrap_or result 0) }
{
    let n = characters.len();
    let right = (n % 2 == 0) & (FEWEST..=MOST).contains(&(n / 2));
    if !right {
        return None;
    }
    put_bytes(bytes, characters)?;
    Some(n / 2)
}

fn take_rest(bytes: &mut [u8; LONGEST_FRAME], rest: &[u8]) -> Option<usize>
    ensures { Takes (bytes_behind rest.now) bytes.new (unwrap_or result 0) }
{
    let (characters, end) = rest.split_last_chunk::<2>()?;
    let right = (end[0] == CR) & (end[1] == LF);
    if !right {
        return None;
    }
    take_characters(bytes, characters)
}

fn take_apart(bytes: &mut [u8; LONGEST_FRAME], line: &[u8]) -> Option<usize>
    ensures { Takes (bytes_taken line.now) bytes.new (unwrap_or result 0) }
{
    let colon = line.iter().rposition(|&c| c == COLON)?;
    take_rest(bytes, &line[colon + 1..])
}

// The fault of a line by the bytes that were taken from it.
fn bytes_fault(bytes: &[u8]) -> Result<(), Refusal>
    ensures { number_given result ≡ bytes_fault bytes.now }
{
    let Some((check, body)) = bytes.split_last() else {
        return Err(Refusal::WrongLine);
    };
    if lrc(body) == *check {
        Ok(())
    } else {
        Err(Refusal::WrongLrc)
    }
}

// ---- a line is made

// The characters of a buffer's first n bytes, from its second place on. The last byte goes first: its characters stand where no
// byte is that is still to be read.
fn spread(buffer: &mut [u8], n: usize)
    requires { 2 * n + 1 ≤ length buffer.old }
    ensures { buffer.new ≡ sets buffer.old 1 (hex_of (take n buffer.old)) }
{
    for i in (0..n).rev() {
        let byte = buffer[i];
        put_hex(buffer, 2 * i + 1, byte);
    }
}

// The body that a buffer's first n bytes are becomes its line, whose length is handed back. The buffer stays whole, since the line is
// longer than the body and is written over it.
fn write_line(buffer: &mut [u8], n: usize) -> usize
    requires { 2 * n + 5 ≤ length buffer.old }
    ensures { Writes buffer.old n buffer.new result }
{
    let check = lrc(&buffer[..n]);
    spread(buffer, n);
    put_hex(buffer, 2 * n + 1, check);
    buffer[0] = COLON;
    buffer[2 * n + 3] = CR;
    buffer[2 * n + 4] = LF;
    2 * n + 5
}

// ---- any line

// A line with a fault is refused, by the caller's fault where there is one.
fn refuse(table: &[i32], reply: &[u8], address: u8, fault: Refusal) -> Answered
    ensures { result ≡ record {
      number = refusal (record { table = table.now; buffer = reply.now; address = address }) (number_of fault);
      len = 0;
    } }
{
    let met = call::fault(table, reply, address).err().unwrap_or(fault);
    Answered {
        number: met.number(),
        len: 0,
    }
}

// The message that is the first n of these bytes goes on as the frame that it would be in RTU, and the body of the reply becomes a
// line. So the rules for a message have one caller, into which the compiler copies them; called from two places, they would cost
// every RTU frame some thirty instructions more than it takes.
fn answer(
    table: &mut [i32],
    reply: &mut [u8],
    address: u8,
    bytes: &mut [u8; LONGEST_FRAME],
    n: usize,
) -> Answered
    requires { (2 ≤ n) × (n ≤ 254) }
    ensures { Gives (answered_as line_of (record {
      table = table.old;
      buffer = reply.old;
      address = address;
    }) none (take n bytes.old)) result reply.old reply.new table.new }
{
    let end = crc::seal(bytes, n).unwrap();
    let answered = rtu::frame(table, reply, address, &bytes[..end]);
    if answered.len == 0 {
        return answered;
    }
    let len = write_line(reply, answered.len - CRC_BYTES);
    Answered {
        number: answered.number,
        len,
    }
}

// One line, for a device with this address: the number, and the line of the reply at the buffer's front.
pub fn line(table: &mut [i32], reply: &mut [u8], address: u8, line: &[u8]) -> Answered
    ensures { Gives (acted_on (record {
      table = table.old;
      buffer = reply.old;
      address = address;
    }) line.now) result reply.old reply.new table.new }
{
    let mut bytes = [0u8; LONGEST_FRAME];
    // a line of a wrong form has no bytes
    let n = take_apart(&mut bytes, line).unwrap_or(0);
    if let Err(fault) = bytes_fault(&bytes[..n]) {
        return refuse(&table[..], &reply[..], address, fault);
    }
    answer(table, reply, address, &mut bytes, n - 1)
}
