// What a message sets: whether it is a write that the rules accept, and what it gives an item. The claims of specs/Settings.antt are
// about the rules, which stand in `modbus`, and not about this code.
#![tactic(auto)]

ghost use Rattle.std.specs.Prelude.{◌≡◌, drop};
ghost use Rattle.writes.specs.Writes.{given};
ghost use Rattle.settings.specs.Settings.{data_of, writes_of, right_form, accepts_write};

use modbus::{WRITE_REGISTER, WRITE_SEVERAL};
use registers::{BODY_LENGTH, DATA_PLACE};

// Where the value of 06H stands.
const VALUE_PLACE: usize = 4;

// What a body has from a place on.
fn behind(body: &[u8], place: usize) -> &[u8]
    ensures { result.now ≡ drop place body.now }
{
    body.get(place..).unwrap_or_default()
}

// The bytes of data that a message brings to be written.
fn data_of(body: &[u8]) -> &[u8]
    ensures { result.now ≡ data_of body.now }
{
    let function = registers::byte_at(body, 1);
    match function {
        WRITE_REGISTER => behind(body, VALUE_PLACE),
        WRITE_SEVERAL => behind(body, DATA_PLACE),
        _ => &body[..0],
    }
}

// Whether a message has the form of a request to write.
fn right_form(body: &[u8]) -> bool
    ensures { result ≡ right_form body.now }
{
    let function = registers::byte_at(body, 1);
    match function {
        WRITE_REGISTER => body.len() == BODY_LENGTH,
        WRITE_SEVERAL => registers::right_counts(body),
        _ => false,
    }
}

// Whether a message is a write that the rules accept, for a device with this address.
#[tactic(auto, unfolding(crate::specs::Settings::accepts_write))]
pub fn accepts_write(address: u8, body: &[u8]) -> bool
    ensures { result ≡ accepts_write address body.now }
{
    if !modbus::ours(address, body) {
        return false;
    }
    if !right_form(body) {
        return false;
    }
    writes::all_allowed(registers::first_word(body), data_of(body))
}

// What a message gives the item at a place.
pub fn given_by(body: &[u8], item: usize) -> Option<i32>
    ensures { result ≡ given (writes_of body.now) item }
{
    writes::given_to(registers::first_word(body), data_of(body), item)
}
