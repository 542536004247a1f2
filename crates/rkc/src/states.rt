// The states of the link, and how a block's text changes one.
ghost use Rattle.std.specs.Prelude.{◌≡◌, ◌||◌};
ghost use Rattle.line.specs.Line.{is_line_error};
ghost use Rattle.rkc.specs.State.{in_phase, holding_one, holding_two, waiting_on, block, as_block, used, one_more, with_more, with_end};

use crate::Link;
use block::MOST_KEPT;
use line::{ETX, TOP_BIT};
use phases::{BCC_DUE, ONE_CHARACTER, REST, TEXT, TWO_CHARACTERS, WAITING};

// Up to here a block's characters are counted: one more than are kept tells that it is too long.
pub(crate) const MOST_COUNTED: u8 = MOST_KEPT as u8 + 1;

// All at 0: what a phase does not use.
const AT_REST: Link = Link {
    phase: REST,
    item: 0,
    count: 0,
    bcc: 0,
    mark: false,
    kept: [0; MOST_KEPT],
    time: 0,
};

// A phase that uses nothing else.
pub(crate) fn in_phase(phase: u8) -> Link
    ensures { result ≡ in_phase phase }
{
    Link { phase, ..AT_REST }
}

// One identifier character is kept.
pub(crate) fn holding_one(a: u8) -> Link
    ensures { result ≡ holding_one a }
{
    Link {
        phase: ONE_CHARACTER,
        kept: [a, 0, 0, 0, 0, 0, 0, 0],
        ..AT_REST
    }
}

// Both identifier characters are kept.
pub(crate) fn holding_two(a: u8, b: u8) -> Link
    ensures { result ≡ holding_two a b }
{
    Link {
        phase: TWO_CHARACTERS,
        kept: [a, b, 0, 0, 0, 0, 0, 0],
        ..AT_REST
    }
}

// An item was sent at a time.
pub(crate) fn waiting_on(item: u8, time: u32) -> Link
    ensures { result ≡ waiting_on item time }
{
    Link {
        phase: WAITING,
        item,
        time,
        ..AT_REST
    }
}

// A block with its text so far, open or with its BCC due.
fn block(phase: u8, count: u8, bcc: u8, mark: bool, kept: [u8; MOST_KEPT]) -> Link
    ensures { result ≡ block phase count bcc mark kept }
{
    Link {
        phase,
        count,
        bcc,
        mark,
        kept,
        ..AT_REST
    }
}

// The count with one more, up to the most that are counted.
fn one_more(count: u8) -> u8
    ensures { result ≡ one_more count }
{
    count.saturating_add(1).min(MOST_COUNTED)
}

// Whether a block is marked after one more character, as it was heard.
fn marked(mark: bool, c: u8) -> bool
    ensures { result ≡ (mark || is_line_error c) }
{
    mark || TOP_BIT <= c
}

impl Link {
    // The state with all that its phase doesn't use at 0.
    #[tactic(auto, unfolding(crate::specs::State::used))]
    pub(crate) fn used(self) -> Link
        ensures { result ≡ used self }
    {
        match self.phase {
            ONE_CHARACTER => holding_one(self.kept[0]),
            TWO_CHARACTERS => holding_two(self.kept[0], self.kept[1]),
            WAITING => waiting_on(self.item, self.time),
            TEXT..=BCC_DUE => {
                let front = kept::up_to(self.kept, self.count);
                block(self.phase, self.count, self.bcc, self.mark, front)
            }
            _ => in_phase(self.phase),
        }
    }

    // The block with one more character of its text, as it was heard.
    #[tactic(auto, unfolding(crate::specs::State::with_more))]
    pub(crate) fn with_more(self, c: u8) -> Link
        ensures { result ≡ with_more (as_block self) c }
    {
        let low = line::low_seven(c);
        let front = kept::up_to(self.kept, self.count);
        let kept = kept::keep(front, self.count, low);
        block(
            TEXT,
            one_more(self.count),
            self.bcc ^ low,
            marked(self.mark, c),
            kept,
        )
    }

    // The block whose text has ended.
    #[tactic(auto, unfolding(crate::specs::State::with_end))]
    pub(crate) fn with_end(self) -> Link
        ensures { result ≡ with_end (as_block self) }
    {
        let kept = kept::up_to(self.kept, self.count);
        block(BCC_DUE, self.count, self.bcc ^ ETX, self.mark, kept)
    }
}
