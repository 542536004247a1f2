// The RKC link: one received byte, one idle call. The state is taken in by value and handed back by each step.
//
// A byte call goes through these: byte_fault (the caller's faults), phases::decide (what the character asks for), and perform, the
// only one that changes the table and the reply buffer. Each looks at no more than the phase uses, so that only a block has its
// kept characters cut at the count.
#![tactic(auto)]

mod faults;
mod replies;
mod states;
mod steps;

ghost use Rattle.std.specs.Prelude.{◌≡◌};
ghost use Rattle.phases.specs.Phases.{rest};
ghost use Rattle.rkc.specs.State.{in_phase};
ghost use Rattle.rkc.specs.Promise.{Leads, Idles};

use block::MOST_KEPT;
use numbers::Refusal;
use phases::{REST, Standing, WAITING};
use replies::{handed_back, quit, silent};
use states::in_phase;
use steps::elapsed;

// The state of a link. Its phase is a number of `phases`, and may be any byte: one that is handed in from C with none of them is
// handed back as it came, with BadState.
#[derive(Clone, Copy)]
pub struct Link {
    pub phase: u8,
    pub item: u8,
    pub count: u8,
    pub bcc: u8,
    pub mark: bool,
    pub kept: [u8; MOST_KEPT],
    pub time: u32,
}

// What a step hands back: the state, the number, and how many bytes of the buffer are the reply. EOT and NAK are sent together with
// the number of a refusal, so it stands beside the reply and not in its place.
#[derive(Clone, Copy)]
pub struct Stepped {
    pub link: Link,
    pub number: u8,
    pub len: usize,
}

// The number of the list's last item, counted from 1.
const LAST_ITEM: u8 = items::ITEMS as u8;

// Milliseconds.
const PATIENCE: u32 = 3000;

impl Link {
    // The start state.
    pub fn start() -> Link
        ensures { result ≡ in_phase rest }
    {
        in_phase(REST)
    }

    // One received byte.
    #[tactic(auto, unfolding(crate::specs::Outcome::received, crate::specs::Outcome::byte_fault))]
    pub fn byte(
        self,
        table: &mut [i32],
        reply: &mut [u8],
        address: u8,
        structure: u8,
        time: u32,
        byte: u8,
    ) -> Stepped
        ensures { Leads (record {
          link = self;
          table = table.old;
          buffer = reply.old;
          address = address;
          structure = structure;
          time = time;
          byte = byte;
        }) result reply.new table.new }
    {
        if let Err(refusal) = self.byte_fault(&table[..], reply.len(), address, structure) {
            return handed_back(self, refusal);
        }
        let standing = Standing {
            phase: self.phase,
            first: self.kept[0],
            second: self.kept[1],
            item: self.item,
        };
        let c = line::heard(structure, byte);
        let act = phases::decide(LAST_ITEM, standing, address, c);
        self.perform(act, table, reply, structure, time)
    }

    // No byte came: a host that is waited on for three seconds or more is told EOT.
    #[tactic(auto, unfolding(crate::specs::Outcome::idled, crate::specs::Outcome::idle_fault, crate::specs::Outcome::step_fault))]
    pub fn idle(self, reply: &mut [u8], structure: u8, time: u32) -> Stepped
        ensures { Idles
            (record { link = self; buffer = reply.old; structure = structure; time = time })
            result reply.new }
    {
        if let Err(refusal) = self.idle_fault(reply.len(), structure) {
            return handed_back(self, refusal);
        }
        if self.phase == WAITING && PATIENCE <= elapsed(time, self.time) {
            return quit(reply, structure, Refusal::TimedOut);
        }
        silent(self.used())
    }
}
