// A capture of RTU frames: records, found from the back, and a trailer that points to the last of them. Every public
// function takes bytes of any length: past the end of a capture a byte counts as 0, and a difference below zero is 0.
#![tactic(auto)]

ghost use Rattle.std.specs.Prelude.{◌≡◌, ◌+◌, ◌≤◌, ◌<◌, Some, None, cond, length, take};
ghost use Rattle.std.specs.Iterator.{at_most};
ghost use Rattle.numbers.specs.Numbers.{none};
ghost use Rattle.numbers.specs.Refusals.{number_given};
ghost use Rattle.capture.specs.Format.{two_at, size, begins, record_ends, frame_before, PartOf, trailer_begins, count, last_place};
ghost use Rattle.capture.specs.Format.{reaches, trailer_right, capture_fault, frames};
ghost use Rattle.capture.specs.Recorded.{place_behind};
ghost use Rattle.capture.specs.Back.{Steps};
ghost use Rattle.capture.specs.Show.{shown_as, shown_frame, shown_place, Shows};

use numbers::Refusal;

// The lengths of a trailer, and of the number behind a frame; the most bytes of a capture, and of a frame.
const TRAILER_LENGTH: usize = 6;

const SIZE_BYTES: usize = 2;

const LONGEST_CAPTURE: usize = 65536;

const LONGEST_FRAME: usize = 256;

// Where a frame stands in a capture.
#[derive(Clone, Copy)]
pub struct Stretch {
    pub place: usize,
    pub len: usize,
}

// ---- numbers

// The number that two bytes from a place on make, the high one first.
fn two_at(capture: &[u8], i: usize) -> usize
    requires { i + 1 < 0x10000000000000000 }
    ensures { result ≡ two_at capture.now i }
{
    usize::from(registers::word(
        registers::byte_at(capture, i),
        registers::byte_at(capture, i + 1),
    ))
}

// ---- a record: the bytes of a frame, then two with their number
// A capture and a place stand apart here, since these are the public functions: a walk back holds both in one.

// How many bytes the frame has whose record ends in front of a place.
#[tactic(auto, unfolding(crate::specs::Format::size))]
fn size(capture: &[u8], end: usize) -> usize
    ensures { result ≡ size capture.now end }
{
    two_at(capture, end.saturating_sub(SIZE_BYTES))
}

// Where that record begins.
#[tactic(auto, using(crate::proofs::Parts::size_small), unfolding(crate::specs::Format::begins))]
pub fn begins(capture: &[u8], end: usize) -> usize
    ensures { result ≡ begins capture.now end }
{
    end.saturating_sub(size(capture, end) + SIZE_BYTES)
}

// The same where a record ends there, which is three tests in one, with no branch. The size is looked up once for both.
#[tactic(auto, using(crate::proofs::Parts::size_small), unfolding(crate::specs::Format::begins, crate::specs::Format::record_ends))]
fn record_before(capture: &[u8], end: usize) -> Option<usize>
    ensures { result ≡ cond (record_ends capture.now end) (Some (begins capture.now end)) None }
{
    let size = size(capture, end);
    if (1 <= size) & (size <= LONGEST_FRAME) & (size + SIZE_BYTES <= end) {
        Some(end - (size + SIZE_BYTES))
    } else {
        None
    }
}

// Whether a record ends there.
pub fn record_ends(capture: &[u8], end: usize) -> bool
    ensures { result ≡ record_ends capture.now end }
{
    record_before(capture, end).is_some()
}

// The frame of the record that ends in front of a place: it begins where the record does, or where the capture ends before that.
pub fn frame_before(capture: &[u8], end: usize) -> &[u8]
    ensures { PartOf capture.entry (length (take (begins capture.now end) capture.now))
        (frame_before capture.now end) result }
{
    let begin = begins(capture, end);
    let from = begin.min(capture.len());
    let to = (begin + size(capture, end)).min(capture.len());
    &capture[from..to]
}

// ---- the trailer: two bytes with the number of records, four with the place where the last one begins

#[tactic(auto, unfolding(crate::specs::Format::trailer_begins))]
pub fn trailer_begins(capture: &[u8]) -> usize
    ensures { result ≡ trailer_begins capture.now }
{
    capture.len().saturating_sub(TRAILER_LENGTH)
}

#[tactic(auto, unfolding(crate::specs::Format::trailer_begins, crate::specs::Format::count))]
pub fn count(capture: &[u8]) -> usize
    ensures { result ≡ count capture.now }
{
    two_at(capture, trailer_begins(capture))
}

#[tactic(auto, using(crate::proofs::Parts::two_small), unfolding(crate::specs::Format::trailer_begins, crate::specs::Format::last_place))]
fn last_place(capture: &[u8]) -> usize
    ensures { result ≡ last_place capture.now }
{
    let place = trailer_begins(capture);
    two_at(capture, place + 2) * 0x10000 + two_at(capture, place + 4)
}

// ---- the walk back

// A walk back over a capture: the next record ends in front of `end`, where one does.
#[derive(Drop)]
pub struct Back<'a> {
    pub capture: &'a [u8],
    pub end: usize,
}

// Its items are the places in front of which a record ends. It stops where none does, as at place 0.
impl<'a> Iterator for Back<'a> {
    type Item = usize;

    ghost next_gives = { Steps };

    ghost remaining = { λ walk. at_most walk.end };

    #[tactic(auto, using(crate::proofs::Walk::nearer))]
    fn next(&mut self) -> Option<usize> {
        let end = self.end;
        self.end = record_before(self.capture, end)?;
        Some(end)
    }
}

// Whether so many records lead back from a place to place 0.
#[tactic(auto, using(crate::proofs::Walk::leads_here, crate::proofs::Walk::leads_nowhere, crate::proofs::Walk::leads_on))]
fn reaches(capture: &[u8], records: usize, place: usize) -> bool
    ensures { result ≡ reaches capture.now records place }
{
    let mut back = Back {
        capture,
        end: place,
    };
    for _ in 0..records {
        if back.next().is_none() {
            return false;
        }
    }
    back.end == 0
}

// Whether a walk back can begin: the length is allowed, and the trailer says where the last record begins.
pub fn trailer_right(capture: &[u8]) -> bool
    ensures { result ≡ trailer_right capture.now }
{
    if capture.len() < TRAILER_LENGTH || LONGEST_CAPTURE < capture.len() {
        return false;
    }
    last_place(capture) == begins(capture, trailer_begins(capture))
}

// The fault of a capture.
pub fn fault(capture: &[u8]) -> Result<(), Refusal>
    ensures { number_given result ≡ capture_fault capture.now }
{
    if trailer_right(capture) && reaches(capture, count(capture), trailer_begins(capture)) {
        Ok(())
    } else {
        Err(Refusal::BadCapture)
    }
}

// ---- a frame is shown

// The place in front of which the record of a frame ends.
#[tactic(auto, using(crate::proofs::ByNumber::fronted_place))]
fn end_of(capture: &[u8], frame: usize) -> usize
    requires { (capture_fault capture.now ≡ none) × (frame ≤ count capture.now) }
    ensures { result ≡ place_behind frame (frames capture.now) }
{
    let mut back = Back {
        capture,
        end: trailer_begins(capture),
    };
    for _ in frame..count(capture) {
        back.next();
    }
    back.end
}

// Where a frame stands, by its number from 1.
pub fn look_up(capture: &[u8], frame: u32) -> Result<Stretch, Refusal>
    ensures { Shows capture.now frame (shown_as result) }
{
    fault(capture)?;
    if frame == 0 || count(capture) < frame as usize {
        return Err(Refusal::NoSuchFrame);
    }
    let end = end_of(capture, frame as usize);
    Ok(Stretch {
        place: begins(capture, end),
        len: size(capture, end),
    })
}

// The frame itself, as a part of the capture, empty where it is refused.
pub fn show(capture: &[u8], frame: u32) -> &[u8]
    ensures { PartOf capture.entry (shown_place capture.now frame)
        (shown_frame capture.now frame) result }
{
    let Ok(shown) = look_up(capture, frame) else {
        return &capture[..0];
    };
    let from = shown.place;
    let to = from + shown.len;
    &capture[from..to]
}
