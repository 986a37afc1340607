// Catching up: a replica lists the characters that it holds, and another answers with those that are missing and with
// every count of toggles. (Document 02, Req 09.)
#![tactic(auto)]

mod answering;
mod columns;
mod sending;

ghost use Rattle.std.specs.Prelude.{◌≡◌, true, [], map, ◌≤◌, length, take};
ghost use Rattle.lists.specs.Lists.{every};
ghost use Rattle.woot.specs.Memory.{character_numbers, character_slots, identifier, key_column};
ghost use Rattle.woot.specs.Ranges.{character_id};
ghost use Rattle.woot.specs.Writing.{written_as, output_after};
ghost use Rattle.memory.specs.Lent.{Full};
ghost use Rattle.listing.specs.Format.{list_bytes};
ghost use Rattle.catching.specs.Calls.{list_written, list_out, answer_written, answer_out};
ghost use Rattle.catching.specs.Sending.{list_of};

use answers::Refusal;
use chunks::CHUNKS;
use woot::{CHARACTERS, Replica};

// Writes the list of the first n rows.
fn put_list(number: u8, characters: &[u32], n: usize, out: &mut [u8]) -> Result<usize, Refusal>
    requires characters_len { length characters.now ≡ character_numbers }
    requires n_le_character_slots { n ≤ character_slots }
    requires characters_value { every character_id (map identifier (take n (key_column characters.now))) ≡ true }
    ensures value { result ≡ written_as [] (list_bytes (list_of number n characters.now)) out.old }
    ensures out_after { out.new
        ≡ output_after [] (list_bytes (list_of number n characters.now)) out.old }
{
    let mut heads = [0u32; CHUNKS];
    let mut words = [0u64; CHUNKS];
    let count = chunks::collect(&characters[..CHARACTERS], n, &mut heads, &mut words);
    list_writing::put(number, n, &heads, &words, count, out)
}

// Internal step: writes the list of the characters that a replica holds.
pub fn list_in(replica: &Replica, out: &mut [u8]) -> Result<usize, Refusal>
    requires { Full replica.now }
    ensures value { result ≡ list_written replica.now out.old }
    ensures out_after { out.new ≡ list_out replica.now out.old }
{
    if !well_formed::is_well_formed(replica) {
        return Err(Refusal::Form);
    }
    let document = &replica.document;
    put_list(
        replica.site.number,
        &document.characters,
        document.length,
        out,
    )
}

// Writes the list of the characters that a replica holds at the front of the slice. A refused call leaves every byte as
// it was.
pub fn list(replica: Replica, out: &mut [u8]) -> Result<usize, Refusal>
    ensures value { result ≡ list_written replica out.old }
    ensures out_after { out.new ≡ list_out replica out.old }
{
    list_in(&replica, out)
}

// Internal step: writes the answer of a replica to a list.
pub fn answer_in<'a>(replica: &'a Replica, list: &'a [u8], out: &mut [u8]) -> Result<usize, Refusal>
    requires { Full replica.now }
    ensures value { result ≡ answer_written replica.now list.now out.old }
    ensures out_after { out.new ≡ answer_out replica.now list.now out.old }
{
    let mut firsts = [0u32; CHUNKS];
    let mut words = [0u64; CHUNKS];
    let read = listing::read(list, &mut firsts, &mut words);
    match read {
        Err(refusal) => Err(refusal),
        Ok(count) => {
            if !well_formed::is_well_formed(replica) {
                return Err(Refusal::Form);
            }
            let document = &replica.document;
            answering::put_answer(
                replica.site.number,
                &document.characters,
                &document.toggles,
                document.length,
                &document.table,
                &firsts,
                &words,
                count,
                out,
            )
        }
    }
}

// Writes the answer to a list at the front of the slice: the lines of the inserts that it lacks, in the sequence in
// which they are to be received, and those of the toggles. A refused call leaves every byte as it was.
pub fn answer(replica: Replica, list: &[u8], out: &mut [u8]) -> Result<usize, Refusal>
    ensures value { result ≡ answer_written replica list.now out.old }
    ensures out_after { out.new ≡ answer_out replica list.now out.old }
{
    answer_in(&replica, list, out)
}
