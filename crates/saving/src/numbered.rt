// One line of a file as its numbers, which are read off the arrays as they are: no identifier and no
// operation is made for it, and whatever the numbers, they are those that the definitions say.
ghost use Rattle.std.specs.Prelude.{◌≡◌, ◌≤◌};
ghost use Rattle.output.specs.Output.{placed, past};
ghost use Rattle.lines.specs.Room.{room_for};
ghost use Rattle.woot.specs.Memory.{character_of, operation_of};
ghost use Rattle.saved.specs.Format.{character_line, saved_line};
ghost use Rattle.saved.specs.Archive.{placed_line};
ghost use Rattle.saved.specs.Rows.{row_line};
ghost use Rattle.saving.specs.Documents.{line_bytes, row_of};

use codec::{DELETE, INSERT, TOGGLE};
use saved::{CHARACTER, PLACED, Rows, Version};

// The head word of a line, and its numbers, of which the first few count.
#[derive(Clone, Copy)]
pub struct Line {
    pub head: u8,
    pub numbers: [u64; 9],
    pub count: usize,
}

// The line of the character with these numbers.
fn character(
    version: Version,
    id: u32,
    previous: u32,
    next: u32,
    code_point: u32,
    toggles: u8,
) -> Line
    ensures result_value { line_bytes result
        ≡ character_line version (character_of id previous next code_point toggles) }
    ensures count_bound { result.count ≤ 9 }
{
    let field = version.toggle_field(toggles as u64);
    Line {
        head: CHARACTER,
        numbers: [
            (id / 65536) as u64,
            (id % 65536) as u64,
            code_point as u64,
            field,
            (previous / 65536) as u64,
            (previous % 65536) as u64,
            (next / 65536) as u64,
            (next % 65536) as u64,
            0,
        ],
        count: 8,
    }
}

// The line of the character with these numbers and its place before them.
fn placed(place: u32, id: u32, previous: u32, next: u32, code_point: u32, toggles: u8) -> Line
    ensures result_value { line_bytes result
        ≡ placed_line (row_of place (character_of id previous next code_point toggles)) }
    ensures count_bound { result.count ≤ 9 }
{
    Line {
        head: PLACED,
        numbers: [
            place as u64,
            (id / 65536) as u64,
            (id % 65536) as u64,
            code_point as u64,
            toggles as u64,
            (previous / 65536) as u64,
            (previous % 65536) as u64,
            (next / 65536) as u64,
            (next % 65536) as u64,
        ],
        count: 9,
    }
}

// The line of the row with these numbers: a saved replica's has no place.
pub(crate) fn row(
    rows: Rows,
    place: u32,
    id: u32,
    previous: u32,
    next: u32,
    code_point: u32,
    toggles: u8,
) -> Line
    ensures result_value { line_bytes result
        ≡ row_line rows (row_of place (character_of id previous next code_point toggles)) }
    ensures count_bound { result.count ≤ 9 }
{
    match rows {
        Rows::Saved(version) => character(version, id, previous, next, code_point, toggles),
        Rows::Archived => placed(place, id, previous, next, code_point, toggles),
    }
}

// The line of the pending insert with these numbers, whose own key is not 0.
fn insert(own: u32, first: u32, second: u32, value: u32) -> Line
    requires { own ≡ 0 → ⊥ }
    ensures result_value { (version : Version)
        → line_bytes result ≡ saved_line version (operation_of own first second value) }
    ensures count_bound { result.count ≤ 9 }
{
    Line {
        head: INSERT,
        numbers: [
            (own / 65536) as u64,
            (own % 65536) as u64,
            value as u64,
            (first / 65536) as u64,
            (first % 65536) as u64,
            (second / 65536) as u64,
            (second % 65536) as u64,
            0,
            0,
        ],
        count: 7,
    }
}

// The line of the pending toggle with these numbers. The first form has another word for it, and leaves out its count.
fn toggle(version: Version, first: u32, second: u32, value: u32) -> Line
    ensures result_value { line_bytes result ≡ saved_line version (operation_of 0 first second value) }
    ensures count_bound { result.count ≤ 9 }
{
    let numbers = [
        second as u64 * 256 + (value / 256) as u64,
        (first / 65536) as u64,
        (first % 65536) as u64,
        (value % 256) as u64,
        0,
        0,
        0,
        0,
        0,
    ];
    match version {
        Version::First => Line {
            head: DELETE,
            numbers,
            count: 3,
        },
        Version::Second => Line {
            head: TOGGLE,
            numbers,
            count: 4,
        },
    }
}

// The line of the pending operation with these numbers.
pub(crate) fn operation(version: Version, own: u32, first: u32, second: u32, value: u32) -> Line
    ensures result_value { line_bytes result ≡ saved_line version (operation_of own first second value) }
    ensures count_bound { result.count ≤ 9 }
{
    if own == 0 {
        return toggle(version, first, second, value);
    }
    insert(own, first, second, value)
}

// Internal step: where a line ends that begins at the offset in a slice of the given size.
pub fn measure(line: Line, size: usize, at: usize) -> Option<usize>
    requires { line.count ≤ 9 }
    ensures { result ≡ room_for size at (line_bytes line) }
{
    let head = [line.head];
    let numbers = line.numbers;
    let count = line.count;
    lines::writing::measure(&head, &numbers[..count], size, at)
}

// Internal step: puts a line into the slice at the offset, all of it or nothing, and answers the offset just past it.
pub fn put_numbered(line: Line, out: &mut [u8], at: usize) -> usize
    requires { line.count ≤ 9 }
    ensures value { result ≡ past out.old at (line_bytes line) }
    ensures out_after { out.new ≡ placed out.old at (line_bytes line) }
{
    let head = [line.head];
    let numbers = line.numbers;
    let count = line.count;
    lines::writing::put_line(&head, &numbers[..count], out, at)
}
