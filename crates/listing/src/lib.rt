// The list of what a replica holds, as bytes: its lines, and reading it into lent arrays; `list_writing` writes it.
// (Document 02, Req 09.)
#![tactic(auto)]

mod reading;

ghost use Rattle.std.specs.Prelude.{◌≡◌, ℕ, ◌≤◌, length, Ok};
ghost use Rattle.chunks.specs.Columns.{chunk_slots, chunks_in};
ghost use Rattle.listing.specs.Format.{list_said};
ghost use Rattle.listing.specs.Calls.{list_read};

use answers::Refusal;

// The head words of the lines.
pub const LIST: u8 = 72;

pub const CHUNK: u8 = 75;

// Internal step: reads a list, however long it is: the whole of it for refusal 1, then for 2 and then for 18. Tells how
// many chunks it has. The arrays get the chunks of a list that is not refused. The calls lend arrays of this size.
pub fn read(bytes: &[u8], heads: &mut [u32], words: &mut [u64]) -> Result<usize, Refusal>
    requires heads_len { length heads.old ≡ chunk_slots }
    requires words_len { length words.old ≡ chunk_slots }
    ensures value { result ≡ list_read bytes.now }
    ensures by_index { (n : ℕ) → result ≡ Ok n → (n ≤ chunk_slots)
        × (chunks_in heads.new words.new n ≡ (list_said bytes.now).chunks) }
{
    let first = lines::first_line(bytes);
    let header = reading::header(first);
    if !header.laid_out {
        return Err(Refusal::Layout);
    }
    let rest = lines::rest(bytes);
    reading::concluded(reading::read_chunks(rest, heads, words, header))
}

// Judges a list: how many chunks it has, or why it is refused.
pub fn judge(bytes: &[u8]) -> Result<usize, Refusal>
    ensures { result ≡ list_read bytes.now }
{
    let mut heads = [0u32; 1024];
    let mut words = [0u64; 1024];
    read(bytes, &mut heads, &mut words)
}
