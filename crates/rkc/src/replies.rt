// What is sent: nothing, one character, or an item's data reply. Buffer and structure stay two parameters: of a struct that held the
// buffer, each promise would have to say that it still holds the same one.
ghost use Rattle.std.specs.Prelude.{◌≡◌, ◌<◌, ◌≤◌, map, length};
ghost use Rattle.std.proofs.lemmas.List.Edits.{sets};
ghost use Rattle.numbers.specs.Refusals.{number_of};
ghost use Rattle.line.specs.Line.{sent};
ghost use Rattle.rkc.specs.Outcome.{sends, quit, data_reply};
ghost use Rattle.rkc.specs.Promise.{Steps};

use crate::states::in_phase;
use crate::{Link, Stepped};
use line::{EOT, ETX, STX};
use numbers::{NONE, Refusal};
use phases::REST;

// A call with a fault: the state as it came, and the fault's number.
pub(crate) fn handed_back(state: Link, fault: Refusal) -> Stepped
    ensures { result ≡ record { link = state; number = number_of fault; len = 0 } }
{
    Stepped {
        link: state,
        number: fault.number(),
        len: 0,
    }
}

// Nothing is sent.
pub(crate) fn silent(link: Link) -> Stepped
    ensures { result ≡ record { link = link; number = 0; len = 0 } }
{
    Stepped {
        link,
        number: NONE,
        len: 0,
    }
}

// The characters go to the buffer's front, each as it is sent.
pub(crate) fn put(reply: &mut [u8], structure: u8, chars: &[u8]) -> usize
    requires { length chars.now ≤ length reply.old }
    ensures { (result ≡ length chars.now)
        × (reply.new ≡ sets reply.old 0 (map (sent structure) chars.now)) }
{
    for (i, c) in chars.iter().enumerate() {
        reply[i] = line::sent(structure, *c);
    }
    chars.len()
}

// One character is sent.
pub(crate) fn send_one(reply: &mut [u8], structure: u8, c: u8, link: Link, number: u8) -> Stepped
    requires { 0 < length reply.old }
    ensures { Steps (sends structure c link number) result reply.old reply.new }
{
    reply[0] = line::sent(structure, c);
    Stepped {
        link,
        number,
        len: 1,
    }
}

// EOT is sent with the number of a refusal, and the link rests.
pub(crate) fn quit(reply: &mut [u8], structure: u8, refusal: Refusal) -> Stepped
    requires { 0 < length reply.old }
    ensures { Steps (quit structure (number_of refusal)) result reply.old reply.new }
{
    send_one(reply, structure, EOT, in_phase(REST), refusal.number())
}

// An item's data reply about its six characters. The BCC goes over what stands between STX and itself. Written out, the
// array shows the whole reply, which copies of its parts would not.
pub(crate) fn data_reply(i: usize, six: [u8; 6]) -> [u8; 11]
    ensures { result ≡ data_reply i six }
{
    let name = items::identifier(i);
    let mut reply = [
        STX, name[0], name[1], six[0], six[1], six[2], six[3], six[4], six[5], ETX, 0,
    ];
    reply[10] = line::bcc(&reply[1..10]);
    reply
}
