// The lent table, which has one entry for each item: its check, its start values, what either line answers for an item,
// storing a value, and the firmware's put. The alarm states, AA and AB, stand in it and are kept true; XU gives the decimals of some items.
#![tactic(auto)]

ghost use Rattle.std.specs.Prelude.{◌≡◌, length, set};
ghost use Rattle.numbers.specs.Promise.{Lent};
ghost use Rattle.numbers.specs.Refusals.{number_given};
ghost use Rattle.items.specs.ItemList.{items, item_list};
ghost use Rattle.table.specs.Table.{is_alarm_state, entry, alarm, alarms_agree, alarms_kept, all_in_range, table_fault};
ghost use Rattle.table.specs.Table.{xu_of, start_number, start_table, answered, stored, may_put, put_number, put_table};

use numbers::Refusal;

// The places of the alarm states, AA and AB, and of the items that they go by. They index the table: as variants each would be cast.
const M1: usize = 0;

const AA: usize = 1;

const AB: usize = 2;

const A1: usize = 6;

const A2: usize = 7;

// The place of XU.
const XU: usize = 12;

// ---- entries

// What stands at a place of the table, 0 past its end.
fn entry_at(table: &[i32], place: usize) -> i32
    ensures { result ≡ entry table.now place }
{
    table.get(place).copied().unwrap_or(0)
}

// An entry takes a value. Nothing happens past the table's end. It is written at its index, since what is written through the reference
// that a slice's `get_mut` lends is not known of the slice.
fn set_entry(table: &mut [i32], place: usize, value: i32)
    ensures { table.new ≡ set table.old place value }
{
    if place < table.len() {
        table[place] = value;
    }
}

// ---- the alarm states

// Whether a place is that of an alarm state.
fn is_alarm_state(i: usize) -> bool
    ensures { result ≡ is_alarm_state i }
{
    matches!(i, AA | AB)
}

// The state of the alarm whose value stands at a place: 1 exactly when M1 is at least that value.
#[tactic(auto, unfolding(crate::specs::Table::alarm))]
fn alarm_state(table: &[i32], limit: usize) -> i32
    ensures { result ≡ alarm table.now limit }
{
    i32::from(entry_at(table, limit) <= entry_at(table, M1))
}

// Whether AA agrees with M1 and A1, and AB with M1 and A2. Both states are worked out before either is compared, so that the compiler
// compares both in one.
fn alarms_agree(table: &[i32]) -> bool
    ensures { result ≡ alarms_agree table.now }
{
    let first = alarm_state(table, A1);
    let second = alarm_state(table, A2);
    (entry_at(table, AA) == first) & (entry_at(table, AB) == second)
}

// AA and AB are made true.
#[tactic(auto, unfolding(crate::specs::Table::alarms_kept))]
pub fn keep_alarms(table: &mut [i32])
    ensures { table.new ≡ alarms_kept table.old }
{
    let first = alarm_state(table, A1);
    let second = alarm_state(table, A2);
    set_entry(table, AA, first);
    set_entry(table, AB, second);
}

// ---- the check

// Whether each entry is in the range of its item. Every entry is looked at, with no way out before the last, so that the compiler
// compares several at once.
fn all_in_range(table: &[i32]) -> bool
    requires { length table.now ≡ items }
    ensures { result ≡ all_in_range item_list table.now }
{
    table.iter().zip(&items::LOW).zip(&items::HIGH).fold(
        true,
        |inside, ((value, low), high)| inside & (low <= value) & (value <= high),
    )
}

// The table's fault. Alarm states and ranges have one number, so it does not show which is looked at first; with the alarm states first
// it costs less.
#[tactic(auto, unfolding(crate::specs::Table::table_fault))]
pub fn check(table: &[i32]) -> Result<(), Refusal>
    ensures { number_given result ≡ table_fault table.now }
{
    if table.len() != items::ITEMS {
        return Err(Refusal::WrongLength);
    }
    if !alarms_agree(table) {
        return Err(Refusal::EntryOutside);
    }
    if all_in_range(table) {
        Ok(())
    } else {
        Err(Refusal::EntryOutside)
    }
}

// ---- what is done with the table

// Every item takes its start value; a table of another length is left as it is.
#[tactic(auto, unfolding(crate::specs::Table::start_number, crate::specs::Table::start_table), using(crate::proofs::Turns::start_column))]
pub fn start(table: &mut [i32]) -> Result<(), Refusal>
    ensures { Lent (start_number table.old) (start_table table.old) (number_given result) table.new }
{
    if table.len() == items::ITEMS {
        table.copy_from_slice(&items::START[..items::ITEMS]);
        Ok(())
    } else {
        Err(Refusal::WrongLength)
    }
}

// What either line answers for an item: its entry.
#[tactic(auto, unfolding(crate::specs::Table::answered))]
pub fn answer(table: &[i32], i: usize) -> i32
    ensures { result ≡ answered table.now i }
{
    entry_at(table, i)
}

// The decimals that XU gives: its entry, and none where that is outside its range, which it is in no good table. The range tells that
// the cast loses nothing, so that no conversion has to try it again.
#[tactic(auto, unfolding(crate::specs::Table::xu_of, items::specs::ItemList::in_range))]
pub fn xu(table: &[i32]) -> u8
    ensures { result ≡ xu_of table.now }
{
    let value = entry_at(table, XU);
    if items::in_range(XU, value) {
        value as u8
    } else {
        0
    }
}

// An item takes a value, and AA and AB are made true again. Past the table's end nothing happens: if they were made true there too,
// the compiler would hold M1, A1 and A2 from the table's check on, at each call. It is written at its index, as in `set_entry`.
#[tactic(auto, unfolding(crate::specs::Table::stored))]
pub fn store(table: &mut [i32], i: usize, value: i32)
    ensures { table.new ≡ stored table.old i value }
{
    if i < table.len() {
        table[i] = value;
        keep_alarms(table);
    }
}

// Whether the firmware may put a value to an item: none to an alarm state, which only M1 and its alarm's value decide.
fn may_put(i: usize, value: i32) -> bool
    ensures { result ≡ may_put i value }
{
    !is_alarm_state(i) && items::in_range(i, value)
}

// The firmware sets an item, by its number from 1, to any value in its range. An alarm state it cannot set.
#[tactic(auto, unfolding(crate::specs::Table::put_number, crate::specs::Table::put_table))]
pub fn put(table: &mut [i32], number: u32, value: i32) -> Result<(), Refusal>
    ensures { Lent (put_number table.old number value)
        (put_table table.old number value) (number_given result) table.new }
{
    check(table)?;
    if !items::listed(number) {
        return Err(Refusal::NoSuchItem);
    }
    let i = number as usize - 1;
    if may_put(i, value) {
        store(table, i, value);
        Ok(())
    } else {
        Err(Refusal::ValueOutside)
    }
}
