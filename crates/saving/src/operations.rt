// Writing the lines of operations one after another, and nothing else: what a pasted block sends, and what a list is
// answered with. They are the lines of a document that has no characters, so its loops measure and put them.
ghost use Rattle.std.specs.Prelude.{◌≡◌, ◌+◌, ◌≤◌, length};
ghost use Rattle.output.specs.Output.{placed};
ghost use Rattle.lines.specs.Room.{room_for};
ghost use Rattle.woot.specs.Memory.{character_numbers, character_slots};
ghost use Rattle.saving.specs.Documents.{lines_in};

use crate::columns;
use saved::{Rows, Version};
use woot::CHARACTERS;

// Internal step: where the lines of the first operations end that begin at the offset in a slice of the given size.
// Their numbers lie in columns as those of characters do. The calls lend columns of this length.
pub fn measure(numbers: &[u32], count: usize, size: usize, at: usize) -> Option<usize>
    requires numbers_len { length numbers.now ≡ character_numbers }
    requires count_le_character_slots { count ≤ character_slots }
    requires at_le_size { at ≤ size }
    ensures { result ≡ room_for size at (lines_in numbers.now count) }
{
    let none = [0u8];
    columns::measure(
        Rows::Saved(Version::Second),
        numbers,
        numbers,
        &none,
        0,
        numbers,
        CHARACTERS,
        count,
        size,
        at,
    )
}

// Internal step: puts the lines at the offset, where there is room. The calls have measured them.
pub fn put_lines(numbers: &[u32], count: usize, out: &mut [u8], at: usize)
    requires numbers_len { length numbers.now ≡ character_numbers }
    requires count_le_character_slots { count ≤ character_slots }
    requires count_in_bounds { at + length (lines_in numbers.now count) ≤ length out.old }
    ensures { out.new ≡ placed out.old at (lines_in numbers.now count) }
{
    let none = [0u8];
    columns::put_lines(
        Rows::Saved(Version::Second),
        numbers,
        numbers,
        &none,
        0,
        numbers,
        CHARACTERS,
        count,
        out,
        at,
    )
}
