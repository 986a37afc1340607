// The lines of an answer: those of the inserts that are sent, and behind them those of the toggles.
ghost use Rattle.std.specs.Prelude.{◌≡◌, true, [], ◌++◌, ◌≤◌, length, take};
ghost use Rattle.woot.specs.Memory.{character_numbers, character_slots, key_column};
ghost use Rattle.woot.specs.Writing.{written_as, output_after};
ghost use Rattle.bulk.specs.Catching.{in_sequence};
ghost use Rattle.convergence.specs.Agreement.{Standing};
ghost use Rattle.index.specs.Tabled.{Tabled};
ghost use Rattle.chunks.specs.Columns.{chunks_in};
ghost use Rattle.sequencing.specs.Steps.{KeysLow};
ghost use Rattle.saving.specs.Documents.{lines_in};
ghost use Rattle.catching.specs.Sending.{rows_in, answer_lines};

use crate::{columns, sending};
use answers::Refusal;
use saving::operations;
use woot::{CHARACTER_NUMBERS, CHARACTERS, Table};

// Writes the lines of the operations in two arrays of columns, one after another, at the front of the slice, or none.
fn put_both<'a>(
    inserts: &'a [u32],
    sent: usize,
    toggles: &'a [u32],
    count: usize,
    out: &mut [u8],
) -> Result<usize, Refusal>
    requires inserts_len { length inserts.now ≡ character_numbers }
    requires sent_le_character_slots { sent ≤ character_slots }
    requires toggles_len { length toggles.now ≡ character_numbers }
    requires count_le_character_slots { count ≤ character_slots }
    ensures value { result
        ≡ written_as [] (lines_in inserts.now sent ++ lines_in toggles.now count)
        out.old }
    ensures out_after { out.new
        ≡ output_after [] (lines_in inserts.now sent ++ lines_in toggles.now count)
        out.old }
{
    let size = out.len();
    let front = operations::measure(inserts, sent, size, 0);
    let Some(start) = front else {
        return Err(Refusal::Output);
    };
    let room = operations::measure(toggles, count, size, start);
    let Some(length) = room else {
        return Err(Refusal::Output);
    };
    operations::put_lines(inserts, sent, out, 0);
    operations::put_lines(toggles, count, out, start);
    Ok(length)
}

// Writes the answer of the first n rows to who has listed the chunks.
pub(crate) fn put_answer<'a>(
    sender: u8,
    characters: &'a [u32],
    toggles: &'a [u8],
    n: usize,
    table: &'a Table,
    heads: &'a [u32],
    words: &'a [u64],
    count: usize,
    out: &mut [u8],
) -> Result<usize, Refusal>
    requires characters_len { length characters.now ≡ character_numbers }
    requires n_le_character_slots { n ≤ character_slots }
    requires n_in_bounds { n ≤ length toggles.now }
    requires tabled { Tabled table.now (take n (key_column characters.now)) }
    requires keys_low { KeysLow (take n (key_column characters.now)) }
    requires standing { Standing (rows_in characters.now toggles.now n) }
    requires count_in_bounds { count ≤ length heads.now }
    requires count_in_bounds_2 { count ≤ length words.now }
    requires count_value { in_sequence (chunks_in heads.now words.now count) ≡ true }
    ensures value { result
        ≡ written_as [] (answer_lines sender (rows_in characters.now toggles.now n)
        (chunks_in heads.now words.now count)) out.old }
    ensures out_after { out.new
        ≡ output_after [] (answer_lines sender (rows_in characters.now toggles.now n)
        (chunks_in heads.now words.now count)) out.old }
{
    let mut inserts = [0u32; CHARACTER_NUMBERS];
    let sent = sending::put_sent(characters, n, table, heads, words, count, &mut inserts);
    let mut turned = [0u32; CHARACTER_NUMBERS];
    let turns = columns::put_toggles(&characters[..CHARACTERS], toggles, n, sender, &mut turned);
    put_both(&inserts, sent, &turned, turns, out)
}
