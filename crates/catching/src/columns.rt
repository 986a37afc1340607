// The operations of an answer, put into columns as long as the characters'.
ghost use Rattle.std.specs.Prelude.{◌≡◌, ◌≤◌, length};
ghost use Rattle.woot.specs.Memory.{character_numbers, character_slots};
ghost use Rattle.catching.specs.Columns.{HasRows, InsertsOf, TogglesOf};

// Puts the inserts of the rows at the first indices, in that order.
pub(crate) fn put_inserts<'a>(
    ids: &'a [u32],
    previous: &'a [u32],
    next: &'a [u32],
    code_points: &'a [u32],
    order: &'a [u16],
    count: usize,
    numbers: &mut [u32],
)
    requires has_rows { HasRows ids.now previous.now next.now code_points.now order.now count }
    requires count_le_character_slots { count ≤ character_slots }
    requires numbers_len { length numbers.old ≡ character_numbers }
    ensures { InsertsOf ids.now previous.now next.now
        code_points.now order.now count numbers.new }
{
    for i in 0..count {
        let row = order[i] as usize;
        heap::put_at(
            numbers,
            i,
            ids[row],
            previous[row],
            next[row],
            code_points[row],
        );
    }
}

// Puts a toggle, from the sender, for each of the first n rows that has been toggled, and answers how many there are.
pub(crate) fn put_toggles<'a>(
    ids: &'a [u32],
    toggles: &'a [u8],
    n: usize,
    sender: u8,
    numbers: &mut [u32],
) -> usize
    requires n_le_character_slots { n ≤ character_slots }
    requires n_in_bounds { n ≤ length ids.now }
    requires n_in_bounds_2 { n ≤ length toggles.now }
    requires numbers_len { length numbers.old ≡ character_numbers }
    ensures { TogglesOf ids.now toggles.now n sender numbers.new result }
{
    let stamp = sender as u32 * 256;
    let mut count = 0;
    for i in 0..n {
        let turns = toggles[i];
        if turns != 0 {
            heap::put_at(numbers, count, 0, ids[i], 0, stamp + turns as u32);
            count += 1;
        }
    }
    count
}
