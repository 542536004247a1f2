// One Modbus RTU frame: the message rules between a test of its CRC and a reply that is sealed with one.
#![tactic(auto)]

ghost use Rattle.std.specs.Prelude.{◌≡◌};
ghost use Rattle.numbers.specs.Numbers.{none};
ghost use Rattle.numbers.specs.Refusals.{number_given};
ghost use Rattle.crc.specs.Crc.{framed, body_of};
ghost use Rattle.modbus.specs.Rules.{acted};
ghost use Rattle.modbus.specs.Promise.{Gives};
ghost use Rattle.call.specs.Call.{refusal, sending};
ghost use Rattle.rtu.specs.Frame.{frame_fault};
ghost use Rattle.rtu.specs.Promise.{Acts};

use modbus::Answered;
use numbers::Refusal;

// The lengths that a frame can have.
const SHORTEST: usize = 4;

const LONGEST: usize = 256;

// The frame's fault.
#[tactic(auto, unfolding(crate::specs::Frame::frame_fault))]
pub fn frame_fault(frame: &[u8]) -> Result<(), Refusal>
    ensures { number_given result ≡ frame_fault frame.now }
{
    if !(SHORTEST..=LONGEST).contains(&frame.len()) {
        return Err(Refusal::WrongFrameLength);
    }
    if !crc::is_right(frame) {
        return Err(Refusal::WrongCrc);
    }
    Ok(())
}

// The caller's fault, or else the frame's.
fn refusal(table: &[i32], reply: &[u8], address: u8, frame: &[u8]) -> Result<(), Refusal>
    ensures { number_given result
        ≡ refusal (record { table = table.now; buffer = reply.now; address = address })
        (frame_fault frame.now) }
{
    call::fault(table, reply, address)?;
    frame_fault(frame)
}

// The message rules act on the body of a frame that is not refused, and a reply gets its CRC.
fn answer(table: &mut [i32], reply: &mut [u8], address: u8, frame: &[u8]) -> Answered
    requires { refusal (record { table = table.old; buffer = reply.old; address = address }) (frame_fault frame.now)
        ≡ none }
    ensures { Gives (sending framed (acted table.old address (body_of frame.now)))
        result reply.old reply.new table.new }
{
    let n = frame.len() - 2;
    let answered = modbus::respond(table, reply, address, &frame[..n]);
    if answered.len == 0 {
        return answered;
    }
    let len = crc::seal(reply, answered.len).unwrap();
    Answered {
        number: answered.number,
        len,
    }
}

// One frame, for a device with this address: the number, and the sealed reply at the buffer's front.
pub fn frame(table: &mut [i32], reply: &mut [u8], address: u8, frame: &[u8]) -> Answered
    ensures { Acts (record { table = table.old; buffer = reply.old; address = address })
        frame.now result reply.new table.new }
{
    if let Err(refusal) = refusal(&table[..], &reply[..], address, frame) {
        return Answered {
            number: refusal.number(),
            len: 0,
        };
    }
    answer(table, reply, address, frame)
}
