// Who last set an item: a walk back from the trailer of a capture, up to the first frame that is met and writes the item. What lies in
// front of that frame is not read.
#![tactic(auto)]

ghost use Rattle.std.specs.Prelude.{◌≡◌};
ghost use Rattle.last_write.specs.LastWrite.{Answers, Askable, answer_as};

use numbers::Refusal;

// What the walk finds: the last value that was written, if any was, and how many records were read.
#[derive(Clone, Copy)]
pub struct LastWrite {
    pub written: Option<i32>,
    pub records: usize,
}

// The walk back. Each record is looked at before its frame, and the count only once place 0 is reached.
fn walk(capture: &[u8], address: u8, item: u32) -> Result<LastWrite, Refusal>
    requires { Askable (record { address = address; item = item }) capture.now }
    ensures { Answers (record { address = address; item = item }) capture.now (answer_as result) }
{
    let place = item as usize - 1;
    let mut records = 0;
    let mut back = capture::Back {
        capture,
        end: capture::trailer_begins(capture),
    };
    // No `for` over `&mut back`: before each step it is looked at whether `back` is at place 0, and what a `for` leaves in it is not proved.
    while 0 < back.end {
        let Some(end) = back.next() else {
            return Err(Refusal::BadCapture);
        };
        records += 1;
        let written = playback::wrote(address, capture::frame_before(capture, end), place);
        if written.is_some() {
            return Ok(LastWrite { written, records });
        }
    }
    if records == capture::count(capture) {
        Ok(LastWrite {
            written: None,
            records,
        })
    } else {
        Err(Refusal::BadCapture)
    }
}

// What was last written to an item, by its number from 1, for a device with this address.
pub fn ask(capture: &[u8], address: u8, item: u32) -> Result<LastWrite, Refusal>
    ensures { Answers (record { address = address; item = item }) capture.now (answer_as result) }
{
    if !call::is_address(address) {
        return Err(Refusal::BadSetting);
    }
    if !items::listed(item) {
        return Err(Refusal::NoSuchItem);
    }
    if !capture::trailer_right(capture) {
        return Err(Refusal::BadCapture);
    }
    walk(capture, address, item)
}
