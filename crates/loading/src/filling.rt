// Reading the lines of a saved replica or of an archive into lent arrays, in which columns lie one behind another. A
// line that is out of range, or has no slot left, does not end the reading: a fault of the layout after it comes first.
// The functions take arrays of zeros: whoever lends them has just made them.
ghost use Rattle.std.specs.Prelude.{◌≡◌, true, [], map, ◌*◌, ◌<◌, length, take};
ghost use Rattle.lists.specs.Padding.{pad};
ghost use Rattle.lines.specs.Lines.{lines};
ghost use Rattle.woot.specs.Memory.{toggle_counts, own_key, first_key, second_key, value_of, character_slots, pending_slots};
ghost use Rattle.woot.specs.Memory.{character_numbers, pending_numbers};
ghost use Rattle.woot.specs.Table.{key};
ghost use Rattle.woot.specs.State.{blank_operation};
ghost use Rattle.saved.specs.Rows.{characters_held, pending_held};
ghost use Rattle.loading.specs.Reading.{blank_row, line_place, line_character};
ghost use Rattle.loading.specs.Filling.{set_in, kept_in, kept_at, rows_ahead, front_read, line_operation};
ghost use Rattle.loading.specs.Filling.{starts_from, Past};
ghost use Rattle.loading.specs.Filling.{back_read, operations_laid};

use crate::reading::head;
use decimal::Fault;
use saved::{Rows, Version};
use saved_lines::{Row, Unread};
use woot::{CHARACTERS, Character, Identifier, Insert, Operation, PENDING};

// How many rows or operations there are, and whether each is in range.
#[derive(Clone, Copy)]
pub(crate) struct Front {
    pub(crate) count: usize,
    pub(crate) in_range: bool,
}

// The same, and how far the rows go in the bytes.
#[derive(Clone, Copy)]
pub(crate) struct Ahead {
    pub(crate) front: Front,
    pub(crate) end: usize,
}

// Stores four numbers in slot i of four columns, m slots each.
fn store(columns: &mut [u32], m: usize, i: usize, w: u32, x: u32, y: u32, z: u32)
    requires i_lt_m { i < m }
    requires columns_len { length columns.old ≡ 4 * m }
    requires m_bound { m < 65536 }
    ensures { columns.new ≡ set_in m i w x y z columns.old }
{
    columns[i] = w;
    columns[m + i] = x;
    columns[2 * m + i] = y;
    columns[3 * m + i] = z;
}

// Stores the four numbers of a character in slot i, if there is one.
fn store_character(characters: &mut [u32], i: usize, character: Character)
    requires { length characters.old ≡ character_numbers }
    ensures { characters.new
        ≡ kept_in character_slots i (key character.id) (key character.previous) (key character.next)
        character.code_point characters.old }
{
    if CHARACTERS <= i {
        return;
    }
    let id = character.id;
    let previous = character.previous;
    let next = character.next;
    store(
        characters,
        CHARACTERS,
        i,
        index::key(id),
        index::key(previous),
        index::key(next),
        character.code_point,
    );
}

// Stores an item in slot i, if there is one.
fn store_at<T: Copy>(slots: &mut [T], i: usize, item: T)
    ensures { slots.new ≡ kept_at (length slots.old) i item slots.old }
{
    if i < slots.len() {
        slots[i] = item;
    }
}

// Stores the four numbers of an operation in slot i, if there is one.
fn store_operation(pending: &mut [u32], i: usize, operation: Operation)
    requires { length pending.old ≡ pending_numbers }
    ensures { pending.new
        ≡ kept_in pending_slots i (own_key operation) (first_key operation) (second_key operation) (value_of operation)
        pending.old }
{
    if PENDING <= i {
        return;
    }
    let own = memory::own_key(operation);
    let first = memory::first_key(operation);
    let second = memory::second_key(operation);
    store(
        pending,
        PENDING,
        i,
        own,
        first,
        second,
        memory::value_of(operation),
    );
}

// What zeros say as a row: it is stored of a line with a number above its limit. Nobody reads the arrays then.
fn blank_row(rows: Rows) -> Row
    ensures { result ≡ blank_row rows }
{
    let none = Identifier::BEGIN;
    let character = Character {
        id: none,
        code_point: 0,
        toggles: rows.version().toggle_field(0) as u8,
        previous: none,
        next: none,
    };
    Row {
        place: 0,
        character,
    }
}

// What is stored of an operation out of range.
fn blank_operation() -> Operation
    ensures { result ≡ blank_operation }
{
    let none = Identifier::BEGIN;
    Operation::Insert(Insert {
        id: none,
        code_point: 0,
        previous: none,
        next: none,
    })
}

// Reads the rows at the front of the bytes, and the offset of each.
pub(crate) fn read_rows_at(
    rows: Rows,
    bytes: &[u8],
    starts: &mut [usize],
    places: &mut [u32],
    characters: &mut [u32],
    toggles: &mut [u8],
) -> Ahead
    requires starts_value { starts.old ≡ pad (length starts.old) 0 [] }
    requires places_value { places.old ≡ pad (length places.old) 0 [] }
    requires characters_value { characters.old ≡ characters_held [] }
    requires toggles_value { toggles.old ≡ pad character_slots 0 [] }
    ensures front_value { result.front ≡ front_read rows (rows_ahead rows bytes.now) }
    ensures past { Past bytes.now result.end result.front.count }
    ensures starts_after { starts.new
        ≡ pad (length starts.old) 0
        (take (length starts.old) (starts_from 0 (rows_ahead rows bytes.now))) }
    ensures places_after { places.new
        ≡ pad (length places.old) 0
        (map (line_place rows) (take (length places.old) (rows_ahead rows bytes.now))) }
    ensures characters_after { characters.new
        ≡ characters_held (take character_slots (map (line_character rows) (rows_ahead rows bytes.now))) }
    ensures toggles_after { toggles.new
        ≡ pad character_slots 0
        (toggle_counts (take character_slots (map (line_character rows) (rows_ahead rows bytes.now)))) }
{
    let mut count = 0;
    let mut in_range = true;
    let mut left = bytes;
    // No count of the rows is known before: the first line that is none ends the loop.
    loop {
        let ahead = saved_lines::read_row_front(rows, left);
        let at = bytes.len() - left.len();
        let row = match ahead.line {
            Ok(row) => row,
            Err(Unread::OutOfRange(row)) => {
                in_range = false;
                row
            }
            Err(Unread::Above) => {
                in_range = false;
                blank_row(rows)
            }
            Err(Unread::Malformed) => {
                let front = Front { count, in_range };
                return Ahead { front, end: at };
            }
        };
        store_at(starts, count, at);
        store_at(places, count, row.place);
        store_character(characters, count, row.character);
        store_at(toggles, count, row.character.toggles);
        count += 1;
        let next = ahead.next;
        let rest = &left[next..];
        left = rest;
    }
}

// The same where nobody asks where they begin.
pub(crate) fn read_rows(
    rows: Rows,
    bytes: &[u8],
    places: &mut [u32],
    characters: &mut [u32],
    toggles: &mut [u8],
) -> Front
    requires places_value { places.old ≡ pad (length places.old) 0 [] }
    requires characters_value { characters.old ≡ characters_held [] }
    requires toggles_value { toggles.old ≡ pad character_slots 0 [] }
    ensures value { result ≡ front_read rows (rows_ahead rows bytes.now) }
    ensures places_after { places.new
        ≡ pad (length places.old) 0
        (map (line_place rows) (take (length places.old) (rows_ahead rows bytes.now))) }
    ensures characters_after { characters.new
        ≡ characters_held (take character_slots (map (line_character rows) (rows_ahead rows bytes.now))) }
    ensures toggles_after { toggles.new
        ≡ pad character_slots 0
        (toggle_counts (take character_slots (map (line_character rows) (rows_ahead rows bytes.now)))) }
{
    let mut starts = [0usize; 1];
    read_rows_at(rows, bytes, &mut starts, places, characters, toggles).front
}

// Reads all lines as pending operations: how many they are, and whether each is in range. With a line that lacks the
// layout there is None.
pub(crate) fn read_operations(version: Version, bytes: &[u8], pending: &mut [u32]) -> Option<Front>
    requires { pending.old ≡ pending_held [] }
    ensures value { result ≡ back_read version bytes.now }
    ensures pending_len { length pending.new ≡ pending_numbers }
    ensures pending_after { operations_laid version bytes.now ≡ true
        → pending.new
        ≡ pending_held (take pending_slots (map (line_operation version) (lines bytes.now))) }
{
    let mut count = 0;
    let mut in_range = true;
    let mut left = bytes;
    // No count of the lines is known before, so that the loop asks what is left of the bytes.
    while 0 < left.len() {
        let operation = match saved_lines::read_operation(version, head(left)) {
            Ok(operation) => operation,
            Err(Fault::Above) => {
                in_range = false;
                blank_operation()
            }
            Err(Fault::Malformed) => return None,
        };
        store_operation(pending, count, operation);
        count += 1;
        let next = lines::rest(left);
        left = next;
    }
    Some(Front { count, in_range })
}
