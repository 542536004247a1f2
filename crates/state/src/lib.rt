// The link state as firmware holds it, in 24 bytes: taken out of them, and put back.
#![tactic(auto)]

ghost use Rattle.std.specs.Prelude.{◌≡◌, length};
ghost use Rattle.state.specs.State.{state_bytes, fields, unpacked, packed, packed_into};

use block::MOST_KEPT;
use rkc::Link;

// How many bytes hold the link state.
pub const STATE_BYTES: usize = 24;

// A phase that no link has. It is a number, as phases are.
const UNKNOWN_PHASE: u8 = 255;

// The state, each field from its place.
fn fields(state: &[u8; STATE_BYTES]) -> Link
    ensures { result ≡ fields state.now }
{
    let mut kept = [0; MOST_KEPT];
    kept.copy_from_slice(&state[12..20]);
    Link {
        phase: state[0],
        item: state[1],
        count: state[2],
        bcc: state[3],
        mark: state[4] != 0,
        kept,
        time: kept::from_low(state[8], state[9], state[10], state[11]),
    }
}

// The state that bytes hold. Bytes of another length hold one that each step refuses in its place among the faults.
pub fn unpack(state: &[u8]) -> Link
    ensures { result ≡ unpacked state.now }
{
    match state.as_array::<STATE_BYTES>() {
        Some(whole) => fields(whole),
        None => Link {
            phase: UNKNOWN_PHASE,
            ..Link::start()
        },
    }
}

// The bytes take this state: each field its place, and the others 0.
fn lay_out(state: &mut [u8], link: Link)
    requires { length state.old ≡ state_bytes }
    ensures { state.new ≡ packed link }
{
    state[0] = link.phase;
    state[1] = link.item;
    state[2] = link.count;
    state[3] = link.bcc;
    state[4] = u8::from(link.mark);
    state[5] = 0;
    state[6] = 0;
    state[7] = 0;
    state[8..12].copy_from_slice(&link.time.to_le_bytes());
    state[12..20].copy_from_slice(&link.kept);
    state[20..24].copy_from_slice(&[0; 4]);
}

// The bytes hold this state; those of another length stay.
pub fn pack(state: &mut [u8], link: Link)
    ensures { state.new ≡ packed_into state.old link }
{
    if state.len() == STATE_BYTES {
        lay_out(state, link);
    }
}
