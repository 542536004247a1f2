// The CRC-16 of Modbus RTU: start FFFFH, A001H, low bit first, low byte sent first.
#![tactic(auto)]

ghost use Rattle.std.specs.Prelude.{◌≡◌, ℕ, ◌<◌, get_or, is_some, unwrap_or};
ghost use Rattle.std.specs.Int.Bits.{bit_xor};
ghost use Rattle.crc.specs.Crc.{shifts, crc16_of, is_right, has_room, Seals};

const START: u16 = 0xFFFF;

// What four shifts make of each half byte, 0 to 15.
const SHIFTED: [u16; 16] = [
    0x0000, 0xCC01, 0xD801, 0x1400, 0xF001, 0x3C00, 0x2800, 0xE401, 0xA001, 0x6C00, 0x7800, 0xB401,
    0x5000, 0x9C01, 0x8801, 0x4400,
];

// The register after four shifts at once.
fn shift_four(shifted: &[u16; 16], crc: u16) -> u16
    requires { (k : ℕ) → k < 16 → get_or shifted.now k 0 ≡ shifts 4 k }
    ensures { result ≡ shifts 4 crc }
{
    (crc >> 4) ^ shifted[(crc % 16) as usize]
}

// The register after one byte more: four shifts for each half of it, the low one first.
fn take_in(shifted: &[u16; 16], crc: u16, byte: u8) -> u16
    requires { (k : ℕ) → k < 16 → get_or shifted.now k 0 ≡ shifts 4 k }
    ensures { result ≡ shifts 8 (bit_xor crc byte) }
{
    shift_four(shifted, shift_four(shifted, crc ^ (byte as u16)))
}

// The CRC of some bytes. The constants are laid out once, before the first byte: named in `shift_four` they would be laid out
// anew for each half.
pub fn crc16(bytes: &[u8]) -> u16
    ensures { result ≡ crc16_of bytes.now }
{
    let shifted = SHIFTED;
    let mut crc = START;
    for byte in bytes {
        crc = take_in(&shifted, crc, *byte);
    }
    crc
}

// Whether a frame's last two bytes are the CRC of all before them; a frame of under two bytes is not right.
pub fn is_right(frame: &[u8]) -> bool
    ensures { result ≡ is_right frame.now }
{
    let Some((body, last)) = frame.split_last_chunk::<2>() else {
        return false;
    };
    crc16(body) == u16::from_le_bytes(*last)
}

// Writes the CRC of a buffer's first n bytes behind them and hands back the length of that frame; where the buffer has no
// room for it, nothing is written and there is no length. The buffer is longer than what it holds, since the CRC needs room behind.
// Nothing is added to n before the test, since n may be any number.
pub fn seal(buffer: &mut [u8], n: usize) -> Option<usize>
    ensures frame { Seals buffer.old n buffer.new (unwrap_or result 0) }
    ensures room { is_some result ≡ has_room buffer.old n }
{
    if buffer.len() < 2 || buffer.len() - 2 < n {
        return None;
    }
    let crc = crc16(&buffer[..n]);
    buffer[n..n + 2].copy_from_slice(&crc.to_le_bytes());
    Some(n + 2)
}
