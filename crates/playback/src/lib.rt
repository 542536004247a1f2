// A capture played back: the table that a device ends with that begins at the start values and is handed the capture's frames one at a
// time. Records can only be walked from the back, so one walk back settles each item by the first write to it that is met. What is known
// then is written over the start values, and the alarm states are made true at the end.
#![tactic(auto)]

ghost use Rattle.std.specs.Prelude.{◌≡◌, length, ◌≤◌};
ghost use Rattle.numbers.specs.Numbers.{none};
ghost use Rattle.numbers.specs.Promise.{Lent};
ghost use Rattle.numbers.specs.Refusals.{number_given};
ghost use Rattle.items.specs.ItemList.{items};
ghost use Rattle.crc.specs.Crc.{body_of};
ghost use Rattle.writes.specs.Writes.{given};
ghost use Rattle.settings.specs.Settings.{writes_of};
ghost use Rattle.capture.specs.Format.{capture_fault, frames};
ghost use Rattle.playback.specs.Playback.{play_number, played};
ghost use Rattle.playback.specs.Written.{accepts_frame, wrote};
ghost use Rattle.playback.specs.Settling.{Settles, AllKnown, WrittenOver};

use numbers::Refusal;

// The fault of a call.
#[tactic(auto, using(crate::proofs::Played::play_length, crate::proofs::Played::play_address, crate::proofs::Played::play_capture))]
fn play_fault(table: &[i32], address: u8, capture: &[u8]) -> Result<(), Refusal>
    ensures { number_given result ≡ play_number table.now address capture.now }
{
    if table.len() != items::ITEMS {
        return Err(Refusal::WrongLength);
    }
    if !call::is_address(address) {
        return Err(Refusal::BadSetting);
    }
    capture::fault(capture)
}

// ---- what a frame writes

// The message of a frame: all but its CRC.
fn body_of(frame: &[u8]) -> &[u8]
    requires { 2 ≤ length frame.now }
    ensures { result.now ≡ body_of frame.now }
{
    &frame[..frame.len() - 2]
}

// Whether a frame is a write that the rules accept, for a device with this address.
#[tactic(auto, using(crate::proofs::Frames::by_message, crate::proofs::Frames::with_body))]
fn accepts_frame(address: u8, frame: &[u8]) -> bool
    ensures { result ≡ accepts_frame address frame.now }
{
    let Ok(()) = rtu::frame_fault(frame) else {
        return false;
    };
    settings::accepts_write(address, body_of(frame))
}

// What a frame writes to an item.
#[tactic(auto, using(crate::proofs::Frames::accepted_body, crate::proofs::Frames::accepted_writes, crate::proofs::Frames::other_writes))]
pub fn wrote(address: u8, frame: &[u8], item: usize) -> Option<i32>
    ensures { result ≡ wrote address frame.now item }
{
    if accepts_frame(address, frame) {
        settings::given_by(body_of(frame), item)
    } else {
        None
    }
}

// ---- the walk back

// What each item is known to end with.
type Known = [Option<i32>; items::ITEMS];

// An item of which nothing is known yet is known to end with what a message gives it.
#[tactic(auto, using(crate::proofs::Walked::come_starts, crate::proofs::Walked::settles_next))]
fn settle_each(known: &mut Known, body: &[u8])
    ensures { Settles (given (writes_of body.now)) known.old known.new }
{
    for (item, value) in known.iter_mut().enumerate() {
        *value = value.or_else(|| settings::given_by(body, item));
    }
}

// Items are settled by what a frame writes. One that is no write that the rules accept settles none.
fn settle(known: &mut Known, address: u8, frame: &[u8])
    ensures { Settles (wrote address frame.now) known.old known.new }
{
    if accepts_frame(address, frame) {
        settle_each(known, body_of(frame));
    }
}

// All items, from the trailer to place 0.
#[tactic(auto, using(crate::proofs::Walked::walk_on, crate::proofs::Walked::walk_ends))]
fn settle_all(address: u8, capture: &[u8]) -> Known
    requires { capture_fault capture.now ≡ none }
    ensures { AllKnown address (frames capture.now) result }
{
    let mut known = [None; items::ITEMS];
    let back = capture::Back {
        capture,
        end: capture::trailer_begins(capture),
    };
    for end in back {
        settle(&mut known, address, capture::frame_before(capture, end));
    }
    known
}

// The entries of items of which something is known become that.
fn write_over(table: &mut [i32], known: &Known)
    requires { length table.old ≡ items }
    ensures { WrittenOver known.now table.old table.new }
{
    for (item, entry) in table.iter_mut().enumerate() {
        if let Some(value) = known[item] {
            *entry = value;
        }
    }
}

// The table becomes what the frames of a capture leave, or stays where the call has a fault.
pub fn play(table: &mut [i32], address: u8, capture: &[u8]) -> Result<(), Refusal>
    ensures { Lent (play_number table.old address capture.now)
        (played table.old address capture.now) (number_given result) table.new }
{
    let fault = play_fault(&table[..], address, capture);
    let Ok(()) = fault else {
        return fault;
    };
    table::start(table)?;
    write_over(table, &settle_all(address, capture));
    table::keep_alarms(table);
    Ok(())
}
