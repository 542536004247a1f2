// The caller's faults: what a state's limits are, and the order in which a call looks at what it is handed.
ghost use Rattle.std.specs.Prelude.{◌≡◌, [], ◌∷◌, nat_le};
ghost use Rattle.numbers.specs.Numbers.{first_met};
ghost use Rattle.numbers.specs.Refusals.{number_given};
ghost use Rattle.table.specs.Table.{table_fault};
ghost use Rattle.line.specs.Line.{last_structure};
ghost use Rattle.rkc.specs.State.{all_characters, block_in_limits, in_limits};
ghost use Rattle.rkc.specs.Outcome.{step_fault, good_settings};

use crate::Link;
use crate::states::MOST_COUNTED;
use line::{LAST_STRUCTURE, TOP_BIT};
use numbers::{LAST_ADDRESS, LEAST_BUFFER, Refusal};
use phases::{ANSWERED, BCC_DUE, ONE_CHARACTER, TEXT, TWO_CHARACTERS, WAITING};

// Whether no character is 80H or more.
fn all_characters(chars: &[u8]) -> bool
    ensures { result ≡ all_characters chars.now }
{
    chars.iter().all(|c| *c < TOP_BIT)
}

// Whether address and structure are ones that a line has.
fn good_settings(address: u8, structure: u8) -> bool
    ensures { result ≡ good_settings address structure }
{
    address <= LAST_ADDRESS && structure <= LAST_STRUCTURE
}

impl Link {
    // Whether a block's fields are within their limits.
    fn block_in_limits(self) -> bool
        ensures { result ≡ block_in_limits self }
    {
        let front = kept::up_to(self.kept, self.count);
        self.count <= MOST_COUNTED && self.bcc < TOP_BIT && all_characters(&front)
    }

    // Whether the fields that the phase uses are within their limits. A block's phases are told first, since most bytes are a block's:
    // as an arm of the match they take a byte of text three instructions more.
    #[tactic(auto, unfolding(crate::specs::State::in_limits))]
    fn in_limits(self) -> bool
        ensures { result ≡ in_limits self }
    {
        if TEXT <= self.phase && self.phase <= BCC_DUE {
            return self.block_in_limits();
        }
        match self.phase {
            ONE_CHARACTER => self.kept[0] < TOP_BIT,
            TWO_CHARACTERS => self.kept[0] < TOP_BIT && self.kept[1] < TOP_BIT,
            WAITING => items::listed(self.item as u32),
            phase => phase <= ANSWERED,
        }
    }

    // What every step looks at, in this order: buffer, settings, state.
    #[tactic(auto, unfolding(crate::specs::Outcome::step_fault))]
    fn step_fault(self, room: usize, settings: bool) -> Result<(), Refusal>
        ensures { number_given result ≡ step_fault self room settings }
    {
        if room < LEAST_BUFFER {
            return Err(Refusal::ShortBuffer);
        }
        if !settings {
            return Err(Refusal::BadSetting);
        }
        if !self.in_limits() {
            return Err(Refusal::BadState);
        }
        Ok(())
    }

    // The caller's fault in a byte call: the table is looked at first.
    pub(crate) fn byte_fault(
        self,
        table: &[i32],
        room: usize,
        address: u8,
        structure: u8,
    ) -> Result<(), Refusal>
        ensures { number_given result ≡ first_met
            (table_fault table.now ∷ step_fault self room (good_settings address structure) ∷ []) }
    {
        table::check(table)?;
        self.step_fault(room, good_settings(address, structure))
    }

    // The caller's fault in an idle call, which has no table and no address.
    pub(crate) fn idle_fault(self, room: usize, structure: u8) -> Result<(), Refusal>
        ensures { number_given result ≡ step_fault self room (nat_le structure last_structure) }
    {
        self.step_fault(room, structure <= LAST_STRUCTURE)
    }
}
