// Writing a file from its lent arrays. The lines of the rows and those of the pending operations are one list after the
// site's line: measured in one loop, and put in another.
ghost use Rattle.std.specs.Prelude.{◌≡◌, [], ◌+◌, ◌≤◌, ◌<◌, length, get_or};
ghost use Rattle.output.specs.Output.{placed};
ghost use Rattle.lines.specs.Room.{room_for};
ghost use Rattle.woot.specs.Memory.{pending_slots};
ghost use Rattle.woot.specs.Writing.{written_as, output_after};
ghost use Rattle.saving.specs.Documents.{line_bytes, HasSlots, lists_of, lines_as, body_as, file_bytes, site_with};

use crate::numbered::Line;
use crate::{numbered, site_line};
use answers::Refusal;
use saved::Rows;
use woot::{CODE_POINTS, NEXT_KEYS, PENDING, PREVIOUS_KEYS};

// Internal step: the line at an index: of the n rows first, and then of the w pending operations, whose numbers lie in
// columns of the given slots.
pub fn line<'a>(
    rows: Rows,
    places: &'a [u32],
    characters: &'a [u32],
    toggles: &'a [u8],
    n: usize,
    pending: &'a [u32],
    slots: usize,
    w: usize,
    at: usize,
) -> Line
    requires has_slots { HasSlots places.now characters.now toggles.now n pending.now slots w }
    requires at_bound { at < n + w }
    ensures result_value { line_bytes result
        ≡ get_or (lines_as rows (lists_of places.now characters.now toggles.now n
        pending.now slots w)) at [] }
    ensures count_bound { result.count ≤ 9 }
{
    if at < n {
        return numbered::row(
            rows,
            places[at],
            characters[at],
            characters[PREVIOUS_KEYS + at],
            characters[NEXT_KEYS + at],
            characters[CODE_POINTS + at],
            toggles[at],
        );
    }
    let j = at - n;
    numbered::operation(
        rows.version(),
        pending[j],
        pending[slots + j],
        pending[2 * slots + j],
        pending[3 * slots + j],
    )
}

// Where the lines end that begin at the offset in a slice of the given size.
pub(crate) fn measure<'a>(
    rows: Rows,
    places: &'a [u32],
    characters: &'a [u32],
    toggles: &'a [u8],
    n: usize,
    pending: &'a [u32],
    slots: usize,
    w: usize,
    size: usize,
    at: usize,
) -> Option<usize>
    requires has_slots { HasSlots places.now characters.now toggles.now n pending.now slots w }
    requires at_le_size { at ≤ size }
    ensures { result
        ≡ room_for size at (body_as rows (lists_of places.now characters.now
        toggles.now n pending.now slots w)) }
{
    let all = n + w;
    let mut end = at;
    for i in 0..all {
        let line = line(rows, places, characters, toggles, n, pending, slots, w, i);
        let room = numbered::measure(line, size, end);
        let Some(past) = room else {
            return None;
        };
        end = past;
    }
    Some(end)
}

// Puts the lines at the offset, where there is room.
pub(crate) fn put_lines<'a>(
    rows: Rows,
    places: &'a [u32],
    characters: &'a [u32],
    toggles: &'a [u8],
    n: usize,
    pending: &'a [u32],
    slots: usize,
    w: usize,
    out: &mut [u8],
    at: usize,
)
    requires has_slots { HasSlots places.now characters.now toggles.now n pending.now slots w }
    requires w_in_bounds { at + length (body_as rows (lists_of places.now characters.now toggles.now n pending.now slots w))
        ≤ length out.old }
    ensures { out.new
        ≡ placed out.old at (body_as rows (lists_of places.now characters.now
        toggles.now n pending.now slots w)) }
{
    let all = n + w;
    let mut end = at;
    for i in 0..all {
        let line = line(rows, places, characters, toggles, n, pending, slots, w, i);
        end = numbered::put_numbered(line, out, end);
    }
}

// Writes a file, well formed or not, with the line of its site's number and clock at the front of the slice. A refused
// call leaves every byte as it was.
pub(crate) fn put_columns_with<'a>(
    rows: Rows,
    number: u8,
    clock: u16,
    places: &'a [u32],
    characters: &'a [u32],
    toggles: &'a [u8],
    n: usize,
    pending: &'a [u32],
    w: usize,
    out: &mut [u8],
) -> Result<usize, Refusal>
    requires { HasSlots places.now characters.now toggles.now n pending.now pending_slots w }
    ensures value { result
        ≡ written_as [] (file_bytes rows (site_with number clock) (lists_of places.now
        characters.now toggles.now n pending.now pending_slots w))
        out.old }
    ensures out_after { out.new
        ≡ output_after [] (file_bytes rows (site_with number clock) (lists_of places.now
        characters.now toggles.now n pending.now pending_slots w))
        out.old }
{
    let size = out.len();
    let version = rows.version();
    let front = site_line::measure_site_with(version, number, clock, size);
    let Some(start) = front else {
        return Err(Refusal::Output);
    };
    let room = measure(
        rows, places, characters, toggles, n, pending, PENDING, w, size, start,
    );
    let Some(length) = room else {
        return Err(Refusal::Output);
    };
    let at = site_line::put_site_with(version, number, clock, out);
    put_lines(
        rows, places, characters, toggles, n, pending, PENDING, w, out, at,
    );
    Ok(length)
}
