// The inserts that are sent: those of the rows that are not listed, in their sequence.
ghost use Rattle.std.specs.Prelude.{◌≡◌, true, false, ℕ, ◌≤◌, ◌<◌, length, take};
ghost use Rattle.woot.specs.Memory.{character_numbers, character_slots, key_column};
ghost use Rattle.bulk.specs.Catching.{in_sequence};
ghost use Rattle.index.specs.Tabled.{Tabled};
ghost use Rattle.chunks.specs.Columns.{chunks_in};
ghost use Rattle.sequencing.specs.Steps.{left_at, KeysLow};
ghost use Rattle.catching.specs.Sending.{FlagsUnlisted, SentIn};

use crate::columns;
use woot::{CHARACTER_NUMBERS, CHARACTERS, CODE_POINTS, NEXT_KEYS, PREVIOUS_KEYS, Table};

// How many places have a flag: those of the rows, of both marks, and one for what is not there.
const FLAGS: usize = 1027;

// Gives a flag to the place of each row whose key is not listed.
fn flag_unlisted<'a>(
    ids: &'a [u32],
    heads: &'a [u32],
    words: &'a [u64],
    count: usize,
    left: &mut [u8],
)
    requires ids_in_bounds { length ids.now < length left.old }
    requires by_index { (p : ℕ) → left_at left.old p ≡ false }
    requires count_in_bounds { count ≤ length heads.now }
    requires count_in_bounds_2 { count ≤ length words.now }
    requires count_value { in_sequence (chunks_in heads.now words.now count) ≡ true }
    ensures { FlagsUnlisted ids.now (chunks_in heads.now words.now count)
        (length left.old) (length ids.now) left.new }
{
    for (i, &id) in ids.iter().enumerate() {
        if !chunks::listed(heads, words, count, id) {
            left[i + 1] = 1;
        }
    }
}

// Puts the inserts that are sent into columns, in their sequence, and answers how many there are.
pub(crate) fn put_sent<'a>(
    characters: &'a [u32],
    n: usize,
    table: &'a Table,
    heads: &'a [u32],
    words: &'a [u64],
    count: usize,
    numbers: &mut [u32],
) -> usize
    requires characters_len { length characters.now ≡ character_numbers }
    requires n_le_character_slots { n ≤ character_slots }
    requires tabled { Tabled table.now (take n (key_column characters.now)) }
    requires keys_low { KeysLow (take n (key_column characters.now)) }
    requires count_in_bounds { count ≤ length heads.now }
    requires count_in_bounds_2 { count ≤ length words.now }
    requires count_value { in_sequence (chunks_in heads.now words.now count) ≡ true }
    requires numbers_len { length numbers.old ≡ character_numbers }
    ensures { SentIn characters.now n (chunks_in heads.now words.now count)
        numbers.new result }
{
    let ids = &characters[..CHARACTERS];
    let previous = &characters[PREVIOUS_KEYS..NEXT_KEYS];
    let next = &characters[NEXT_KEYS..CODE_POINTS];
    let code_points = &characters[CODE_POINTS..CHARACTER_NUMBERS];
    let mut left = [0u8; FLAGS];
    flag_unlisted(&ids[..n], heads, words, count, &mut left);
    let mut order = [0u16; CHARACTERS];
    let sent = sequencing::sequence(
        table,
        &ids[..n],
        &previous[..n],
        &next[..n],
        &mut left,
        &mut order,
    );
    columns::put_inserts(ids, previous, next, code_points, &order, sent, numbers);
    sent
}
