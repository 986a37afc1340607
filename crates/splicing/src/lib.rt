// Writing a replica that was read and then changed in one row: the lines of its other rows are copied as they were
// read. Each line has one spelling, so they are the bytes that would be written.
#![tactic(auto)]

ghost use Rattle.std.specs.Prelude.{◌≡◌, cond, [], ◌++◌, ◌+◌, ◌≤◌, ltb, length, get_or};
ghost use Rattle.output.specs.Output.{placed};
ghost use Rattle.lines.specs.Room.{room_for};
ghost use Rattle.woot.specs.Memory.{character_numbers, character_slots, pending_numbers, pending_slots};
ghost use Rattle.woot.specs.Writing.{written_as, output_after};
ghost use Rattle.saved.specs.Format.{site_line, saved_bytes};
ghost use Rattle.saving.specs.Documents.{line_bytes, state_in, site_with};
ghost use Rattle.splicing.specs.Splicing.{between, Spliced, Copied};

use answers::Refusal;
use saved::{Rows, Version};
use saving::numbered::Line;
use saving::{columns, numbered, site_line};
use woot::{PENDING, Site};

// What a call changed of the rows that it read.
#[derive(Clone, Copy)]
pub enum Change {
    // Nothing is known of it.
    Any,
    // The row with this index is new, and the others are as they were.
    Inserted(usize),
    // The row with this index says something else, and the others are as they were.
    Altered(usize),
}

// Where bytes end that begin at the offset in a slice of the given size.
fn room(bytes: &[u8], size: usize, at: usize) -> Option<usize>
    ensures { result ≡ room_for size at bytes.now }
{
    if !output::has_room(size, at, bytes.len()) {
        return None;
    }
    Some(at + bytes.len())
}

// The same of a line between two runs of bytes.
fn measure<'a>(front: &'a [u8], line: Line, back: &'a [u8], size: usize, at: usize) -> Option<usize>
    requires { line.count ≤ 9 }
    ensures { result
        ≡ room_for size at (between front.now (line_bytes line) back.now) }
{
    let first = room(front, size, at);
    let Some(middle) = first else {
        return None;
    };
    let second = numbered::measure(line, size, middle);
    let Some(end) = second else {
        return None;
    };
    room(back, size, end)
}

// Puts a line between two runs of bytes at the offset, where there is room.
fn put<'a>(front: &'a [u8], line: Line, back: &'a [u8], out: &mut [u8], at: usize)
    requires count_bound { line.count ≤ 9 }
    requires back_in_bounds { at + length (between front.now (line_bytes line) back.now) ≤ length out.old }
    ensures { out.new
        ≡ placed out.old at (between front.now (line_bytes line) back.now) }
{
    let middle = output::put_all(out, at, front);
    let end = numbered::put_numbered(line, out, middle);
    output::put_all(out, end, back);
}

// Writes a site's line, and after it a line between two runs of bytes, at the front of the slice. A refused call leaves
// every byte as it was.
fn put_file<'a>(
    number: u8,
    clock: u16,
    front: &'a [u8],
    line: Line,
    back: &'a [u8],
    out: &mut [u8],
) -> Result<usize, Refusal>
    requires { line.count ≤ 9 }
    ensures value { result
        ≡ written_as [] (site_line Version.Second (site_with number clock)
        ++ between front.now (line_bytes line) back.now) out.old }
    ensures out_after { out.new
        ≡ output_after [] (site_line Version.Second (site_with number clock)
        ++ between front.now (line_bytes line) back.now) out.old }
{
    let size = out.len();
    let head = site_line::measure_site_with(Version::Second, number, clock, size);
    let Some(start) = head else {
        return Err(Refusal::Output);
    };
    let rest = measure(front, line, back, size, start);
    let Some(length) = rest else {
        return Err(Refusal::Output);
    };
    let at = site_line::put_site_with(Version::Second, number, clock, out);
    put(front, line, back, out, at);
    Ok(length)
}

// The offset of the row with an index, of n rows, or the end of them.
fn start_of(starts: &[usize], k: usize, n: usize, end: usize) -> usize
    requires { n ≤ length starts.now }
    ensures { result ≡ cond (ltb k n) (get_or starts.now k 0) end }
{
    if k < n {
        return starts[k];
    }
    end
}

// Writes the replica with these arrays, whose row k is new, with skip 0, or in the place of one, with skip 1. The lines
// before it and after it are copied.
fn put_row<'a>(
    body: &'a [u8],
    starts: &'a [usize],
    k: usize,
    skip: usize,
    site: Site,
    characters: &'a [u32],
    toggles: &'a [u8],
    n: usize,
    pending: &'a [u32],
    w: usize,
    out: &mut [u8],
) -> Result<usize, Refusal>
    requires characters_len { length characters.now ≡ character_numbers }
    requires n_le_character_slots { n ≤ character_slots }
    requires n_in_bounds { n ≤ length toggles.now }
    requires pending_len { length pending.now ≡ pending_numbers }
    requires w_le_pending_slots { w ≤ pending_slots }
    requires skip_bound { skip ≤ 1 }
    requires spliced { Spliced body.now starts.now k skip
        (state_in site characters.now toggles.now n pending.now w) }
    ensures value { result
        ≡ written_as [] (saved_bytes (state_in site characters.now toggles.now n
        pending.now w)) out.old }
    ensures out_after { out.new
        ≡ output_after [] (saved_bytes (state_in site characters.now toggles.now n
        pending.now w)) out.old }
{
    let held = n - 1 + skip;
    let from = start_of(starts, k, held, body.len());
    let to = start_of(starts, k + skip, held, body.len());
    let line = columns::line(
        Rows::Saved(Version::Second),
        characters,
        characters,
        toggles,
        n,
        pending,
        PENDING,
        w,
        k,
    );
    put_file(
        site.number,
        site.clock,
        &body[..from],
        line,
        &body[to..],
        out,
    )
}

// Internal step: writes the replica with these arrays at the front of the slice, as `saving::put_replica` does, and
// copies from the lines that were read what the change leaves of them. The calls have read the lines, and know what
// they changed.
pub fn put_changed<'a>(
    change: Change,
    body: &'a [u8],
    starts: &'a [usize],
    site: Site,
    characters: &'a [u32],
    toggles: &'a [u8],
    n: usize,
    pending: &'a [u32],
    w: usize,
    out: &mut [u8],
) -> Result<usize, Refusal>
    requires characters_len { length characters.now ≡ character_numbers }
    requires n_le_character_slots { n ≤ character_slots }
    requires n_in_bounds { n ≤ length toggles.now }
    requires pending_len { length pending.now ≡ pending_numbers }
    requires w_le_pending_slots { w ≤ pending_slots }
    requires copied { Copied change body.now starts.now
        (state_in site characters.now toggles.now n pending.now w) }
    ensures value { result
        ≡ written_as [] (saved_bytes (state_in site characters.now toggles.now n
        pending.now w)) out.old }
    ensures out_after { out.new
        ≡ output_after [] (saved_bytes (state_in site characters.now toggles.now n
        pending.now w)) out.old }
{
    match change {
        Change::Any => saving::put_replica(
            Version::Second,
            site,
            characters,
            toggles,
            n,
            pending,
            w,
            out,
        ),
        Change::Inserted(k) => put_row(
            body, starts, k, 0, site, characters, toggles, n, pending, w, out,
        ),
        Change::Altered(k) => put_row(
            body, starts, k, 1, site, characters, toggles, n, pending, w, out,
        ),
    }
}
