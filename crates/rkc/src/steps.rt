// What an act does: a state, a number, and a reply; a block that is judged also stores. An idle call goes by the time.
//
// The buffer has room in each act: `byte_fault` has looked, behind the table, as 01 has it. Taken as an array there, its type would say so,
// but an arm would be left for the buffer that is too short, which no call reaches.
ghost use Rattle.std.specs.Prelude.{◌≡◌, ◌<◌, ◌≤◌, length};
ghost use Rattle.numbers.specs.Numbers.{least_buffer};
ghost use Rattle.items.specs.ItemList.{items, found};
ghost use Rattle.phases.specs.Limits.{Limited};
ghost use Rattle.rkc.specs.State.{as_block};
ghost use Rattle.rkc.specs.Outcome.{item_sent, polled, judged, performed, elapsed};
ghost use Rattle.rkc.specs.Promise.{Steps, Does};

use crate::replies::{data_reply, put, quit, send_one, silent};
use crate::states::{holding_one, holding_two, in_phase, waiting_on};
use crate::{Link, Stepped};
use line::{ACK, NAK};
use numbers::{NONE, Refusal};
use phases::{ANSWERED, Act};

// An item is sent with its value and its decimals now, and waited on.
fn send_item(table: &[i32], reply: &mut [u8], structure: u8, time: u32, i: usize) -> Stepped
    requires { (least_buffer ≤ length reply.old) × (i < items) }
    ensures { Steps (item_sent structure time table.now i) result
        reply.old reply.new }
{
    let value = table::answer(table, i);
    let Ok(six) = text::write(items::decimals(table::xu(table), i), value) else {
        return quit(reply, structure, Refusal::NoRoom);
    };
    let chars = data_reply(i, six);
    let len = put(reply, structure, &chars);
    Stepped {
        link: waiting_on((i + 1) as u8, time),
        number: NONE,
        len,
    }
}

// What an identifier names is sent.
fn poll(table: &[i32], reply: &mut [u8], structure: u8, time: u32, a: u8, b: u8) -> Stepped
    requires { least_buffer ≤ length reply.old }
    ensures { Steps (polled structure time table.now (found a b)) result
        reply.old reply.new }
{
    match items::find(a, b) {
        Some(i) => send_item(table, reply, structure, time, i),
        None => quit(reply, structure, Refusal::UnknownPolled),
    }
}

impl Link {
    // The block is judged: ACK with the item stored, or NAK.
    #[tactic(auto, using(crate::proofs::Cases::judged_refused))]
    fn judge(self, table: &mut [i32], reply: &mut [u8], structure: u8, c: u8) -> Stepped
        requires { least_buffer ≤ length reply.old }
        ensures { Does (judged structure table.old self c) result
            reply.old reply.new table.new }
    {
        let xu = table::xu(&table[..]);
        match block::judge(xu, self.mark, self.bcc, self.count, self.kept, c) {
            Ok(setting) => {
                table::store(table, setting.place, setting.value);
                send_one(reply, structure, ACK, in_phase(ANSWERED), NONE)
            }
            Err(refusal) => send_one(reply, structure, NAK, in_phase(ANSWERED), refusal.number()),
        }
    }

    // What an act says is done. Only in a block does an act ask for the state.
    #[tactic(auto, using(crate::proofs::Used::judged_up_to), unfolding(crate::specs::Outcome::performed))]
    pub(crate) fn perform(
        self,
        act: Act,
        table: &mut [i32],
        reply: &mut [u8],
        structure: u8,
        time: u32,
    ) -> Stepped
        requires { (least_buffer ≤ length reply.old) × Limited items act }
        ensures { Does (performed (as_block self) table.old structure time act) result
            reply.old reply.new table.new }
    {
        match act {
            Act::Go(phase) => silent(in_phase(phase)),
            Act::First(a) => silent(holding_one(a)),
            Act::Both(a, b) => silent(holding_two(a, b)),
            Act::More(c) => silent(self.with_more(c)),
            Act::Ended => silent(self.with_end()),
            Act::Quit(refusal) => quit(reply, structure, refusal),
            Act::Poll(a, b) => poll(&table[..], reply, structure, time, a, b),
            Act::Send(item) => send_item(&table[..], reply, structure, time, (item - 1) as usize),
            Act::Judge(c) => self.judge(table, reply, structure, c),
        }
    }
}

// Milliseconds from a time to the present, right also when the count has gone round.
pub(crate) fn elapsed(present: u32, since: u32) -> u32
    ensures { result ≡ elapsed present since }
{
    present.wrapping_sub(since)
}
