// The item list: what it says of an item, and looking one up. Inside, an item is known by its place in the list, from 0.
#![tactic(auto)]

ghost use Rattle.std.specs.Prelude.{◌≡◌, bytes_eq, position};
ghost use Rattle.items.specs.ItemList.{item_at, identifier_of, decimals_of, listed, in_range, found, found_by_register, place_of};
ghost use Rattle.items.specs.Rows.{row};

// How many items there are.
pub const ITEMS: usize = 13;

// How many lines a column has: one for each item, and last the line that is no item.
const LINES: usize = ITEMS + 1;

// The registers from 0000H to 0013H.
pub const MAP_SIZE: usize = 20;

// What the list says of an item but its register.
#[derive(Clone, Copy)]
struct Item {
    name: [u8; 2],
    writable: bool,
    // on the RKC line; none where XU gives them
    decimals: Option<u8>,
    low: i32,
    high: i32,
    start: i32,
}

// The item list, in its order.
#[rattlefmt::skip]
const LIST: [Item; ITEMS] = [
    Item { name: *b"M1", writable: false, decimals: None, low: -1999, high: 9999, start: 0 },
    Item { name: *b"AA", writable: false, decimals: Some(0), low: 0, high: 1, start: 0 },
    Item { name: *b"AB", writable: false, decimals: Some(0), low: 0, high: 1, start: 0 },
    Item { name: *b"B1", writable: false, decimals: Some(0), low: 0, high: 1, start: 0 },
    Item { name: *b"ER", writable: false, decimals: Some(0), low: 0, high: 255, start: 0 },
    Item { name: *b"S1", writable: true, decimals: None, low: -1999, high: 9999, start: 0 },
    Item { name: *b"A1", writable: true, decimals: None, low: -1999, high: 9999, start: 500 },
    Item { name: *b"A2", writable: true, decimals: None, low: -1999, high: 9999, start: 500 },
    Item { name: *b"PB", writable: true, decimals: Some(2), low: -1000, high: 1000, start: 0 },
    Item { name: *b"PR", writable: true, decimals: Some(3), low: 500, high: 1500, start: 1000 },
    Item { name: *b"F1", writable: true, decimals: Some(0), low: 0, high: 100, start: 0 },
    Item { name: *b"TM", writable: true, decimals: Some(0), low: 0, high: 999, start: 0 },
    Item { name: *b"XU", writable: true, decimals: Some(0), low: 0, high: 3, start: 1 },
];

// What stands past the list: nothing may be written to it, and no value is in its range.
#[rattlefmt::skip]
const NO_ITEM: Item = Item { name: [0, 0], writable: false, decimals: Some(0), low: 1, high: 0, start: 0 };

// Columns of the list, for what goes over many entries: the processor compares four limits at once only where they stand side by side.
#[rattlefmt::skip]
pub const LOW: [i32; LINES] = [
    LIST[0].low, LIST[1].low, LIST[2].low, LIST[3].low, LIST[4].low, LIST[5].low, LIST[6].low,
    LIST[7].low, LIST[8].low, LIST[9].low, LIST[10].low, LIST[11].low, LIST[12].low, NO_ITEM.low,
];

#[rattlefmt::skip]
pub const HIGH: [i32; LINES] = [
    LIST[0].high, LIST[1].high, LIST[2].high, LIST[3].high, LIST[4].high, LIST[5].high, LIST[6].high,
    LIST[7].high, LIST[8].high, LIST[9].high, LIST[10].high, LIST[11].high, LIST[12].high, NO_ITEM.high,
];

#[rattlefmt::skip]
pub const START: [i32; LINES] = [
    LIST[0].start, LIST[1].start, LIST[2].start, LIST[3].start, LIST[4].start, LIST[5].start, LIST[6].start,
    LIST[7].start, LIST[8].start, LIST[9].start, LIST[10].start, LIST[11].start, LIST[12].start, NO_ITEM.start,
];

// The place of a register that no item has: past the list, where `NO_ITEM` stands, so that no write asks for an item first.
const NOWHERE: u8 = ITEMS as u8;

// The place of the item that has a register, for each register of the map, and last for those past it.
const PLACE_AT: [u8; MAP_SIZE + 1] = [
    0, // 0000H
    1, // 0001H
    2, // 0002H
    3, // 0003H
    4, // 0004H
    NOWHERE, // 0005H
    NOWHERE, // 0006H
    NOWHERE, // 0007H
    11, // 0008H
    NOWHERE, // 0009H
    NOWHERE, // 000AH
    5, // 000BH
    6, // 000CH
    NOWHERE, // 000DH
    7, // 000EH
    NOWHERE, // 000FH
    8, // 0010H
    9, // 0011H
    10, // 0012H
    12, // 0013H
    NOWHERE, // past the map
];

// The item at a place; past the list none.
fn item_at(i: usize) -> Item
    ensures { result ≡ row (item_at i) }
{
    LIST.get(i).copied().unwrap_or(NO_ITEM)
}

// The two characters of an item's identifier; 0 past the list.
pub fn identifier(i: usize) -> [u8; 2]
    ensures { result ≡ identifier_of (item_at i) }
{
    item_at(i).name
}

// Whether a host may write an item; nothing past the list.
pub fn writable(i: usize) -> bool
    ensures { result ≡ (item_at i).writable }
{
    item_at(i).writable
}

// The decimals of an item on the RKC line, where XU gives so many; none past the list.
pub fn decimals(xu: u8, i: usize) -> u8
    ensures { result ≡ decimals_of xu i }
{
    item_at(i).decimals.unwrap_or(xu)
}

// Whether an item has this number, counted from 1.
pub fn listed(number: u32) -> bool
    ensures { result ≡ listed number }
{
    (1 <= number) & (number as usize <= ITEMS)
}

// The place of the first item with a name.
fn place_named(items: &[Item], name: [u8; 2]) -> Option<usize>
    ensures { result ≡ position (λ x. bytes_eq x.name name) items.now }
{
    items.iter().position(|item| item.name == name)
}

// The place of the item that two characters name.
#[tactic(auto, using(crate::proofs::Lookup::row_found))]
pub fn find(a: u8, b: u8) -> Option<usize>
    ensures { result ≡ found a b }
{
    place_named(&LIST, [a, b])
}

// The place of the item that has a register; past the list where none has it.
pub fn place_of(register: u16) -> usize
    ensures { result ≡ place_of register }
{
    PLACE_AT[(register as usize).min(MAP_SIZE)] as usize
}

// The place of the item that has a register.
#[tactic(auto, using(crate::proofs::Lookup::told_by_place))]
pub fn find_register(register: u16) -> Option<usize>
    ensures { result ≡ found_by_register register }
{
    let place = place_of(register);
    (place < ITEMS).then_some(place)
}

// Whether a value is from the low to the high of the item at a place; no value is past the list.
pub fn in_range(i: usize, value: i32) -> bool
    ensures { result ≡ in_range i value }
{
    let item = item_at(i);
    item.low <= value && value <= item.high
}
