// A call of either Modbus line: what the caller hands in beside a frame or a line, and its fault.
#![tactic(auto)]

ghost use Rattle.std.specs.Prelude.{◌≡◌};
ghost use Rattle.numbers.specs.Refusals.{number_given};
ghost use Rattle.call.specs.Call.{is_address, call_fault};

use numbers::{LAST_ADDRESS, LEAST_BUFFER, Refusal};

// The least address that a device can have.
const FIRST_ADDRESS: u8 = 1;

// Whether a device can have this address.
pub fn is_address(address: u8) -> bool
    ensures { result ≡ is_address address }
{
    (FIRST_ADDRESS..=LAST_ADDRESS).contains(&address)
}

// The caller's fault. What it hands in stays apart: in one struct, clauses would name what is lent for writing by nested pairs.
#[tactic(auto, unfolding(crate::specs::Call::call_fault))]
pub fn fault(table: &[i32], reply: &[u8], address: u8) -> Result<(), Refusal>
    ensures { number_given result
        ≡ call_fault (record { table = table.now; buffer = reply.now; address = address }) }
{
    table::check(table)?;
    if reply.len() < LEAST_BUFFER {
        return Err(Refusal::ShortBuffer);
    }
    if is_address(address) {
        Ok(())
    } else {
        Err(Refusal::BadSetting)
    }
}
