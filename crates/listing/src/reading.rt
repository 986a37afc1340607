// Reading a list line by line. A few numbers tell what the lines so far come to, so that a list may be of any length.
ghost use Rattle.std.specs.Prelude.{◌≡◌, true, List, [], ◌∷◌, ◌++◌, map, min, length, IfOk, Err};
ghost use Rattle.lines.specs.Fields.{at_most};
ghost use Rattle.lines.specs.Lines.{lines};
ghost use Rattle.lines.specs.Answers.{by_numbers};
ghost use Rattle.bulk.specs.Catching.{Chunk, marks_zero};
ghost use Rattle.chunks.specs.Columns.{chunk_slots, chunk_as};
ghost use Rattle.listing.specs.Format.{list_limits, chunk_limits, chunk_said};
ghost use Rattle.listing.specs.Reading.{without_layout, out_of_range, total_alone, header_as, header_read, chunk_from};
ghost use Rattle.listing.specs.Reading.{chunk_read_as, chunk_read, ones_and, with_chunk, and_line, ChunksKept};
ghost use Rattle.listing.specs.Reading.{summary_on, conclusion, header_from};

use crate::{CHUNK, LIST};
use answers::Refusal;
use chunks::CHUNKS;
use decimal::Fault;

// One more than the most ones that a list may have: no total is that high.
const TOO_MANY: usize = 1025;

// What the lines of a list that were read come to. Of a list that lacks the layout or is out of range nothing more is
// told. It is no Result: after a line out of range the others are read, since a fault of the layout comes first.
#[derive(Clone, Copy)]
pub struct Summary {
    pub laid_out: bool,
    pub in_range: bool,
    // The total that the first line says.
    pub total: usize,
    // Whether the chunks are in sequence, and none marks clock 0.
    pub sound: bool,
    // How many ones there are, or 1,025 where there are more.
    pub ones: usize,
    // The head of the last chunk; with no chunk yet 0, which no chunk in range has.
    pub last: u32,
    // How many chunks are kept: all of them, or as many as there are slots.
    pub count: usize,
}

// A list with a line that lacks the layout.
#[tactic(auto, unfolding(crate::specs::Reading::without_layout))]
fn without_layout() -> Summary
    ensures { result ≡ without_layout }
{
    Summary {
        laid_out: false,
        in_range: false,
        total: 0,
        sound: false,
        ones: 0,
        last: 0,
        count: 0,
    }
}

// A list with a number out of range.
#[tactic(auto, unfolding(crate::specs::Reading::out_of_range))]
fn out_of_range() -> Summary
    ensures { result ≡ out_of_range }
{
    Summary {
        laid_out: true,
        in_range: false,
        total: 0,
        sound: false,
        ones: 0,
        last: 0,
        count: 0,
    }
}

// A list of its first line alone, which says this total.
#[tactic(auto, unfolding(crate::specs::Reading::total_alone))]
fn total_alone(total: usize) -> Summary
    ensures { result ≡ total_alone total }
{
    Summary {
        laid_out: true,
        in_range: true,
        total,
        sound: true,
        ones: 0,
        last: 0,
        count: 0,
    }
}

// The first line by its numbers, or by their fault.
fn header_of(numbers: Result<[u64; 9], Fault>) -> Summary
    requires { IfOk numbers (λ values. at_most list_limits values ≡ true) }
    ensures { result
        ≡ by_numbers numbers without_layout out_of_range (λ values. header_as (header_from values)) }
{
    match numbers {
        Err(Fault::Malformed) => without_layout(),
        Err(Fault::Above) => out_of_range(),
        Ok(values) => {
            if values[0] == 0 {
                return out_of_range();
            }
            total_alone(values[1] as usize)
        }
    }
}

// Reads the first line, without its line feed.
pub(crate) fn header(line: &[u8]) -> Summary
    ensures { result ≡ header_read line.now }
{
    let head = [LIST];
    let limits = [16u64, 1024];
    header_of(lines::read(line, &head, &limits))
}

// The head and the word of a chunk by the numbers of its line, or their fault. A site or a word of 0 is out of range as a
// number above its limit is.
fn chunk_of(numbers: Result<[u64; 9], Fault>) -> Result<(u32, u64), Fault>
    requires { IfOk numbers (λ values. at_most chunk_limits values ≡ true) }
    ensures { result
        ≡ by_numbers numbers (Err Fault.Malformed) (Err Fault.Above) (λ values. chunk_read_as (chunk_from values)) }
{
    let values = numbers?;
    if values[0] == 0 {
        return Err(Fault::Above);
    }
    if values[2] == 0 {
        return Err(Fault::Above);
    }
    Ok(((values[0] * 1024 + values[1]) as u32, values[2]))
}

// Reads a line after the first, without its line feed.
fn read_chunk(line: &[u8]) -> Result<(u32, u64), Fault>
    ensures { result ≡ chunk_read line.now }
{
    let head = [CHUNK];
    let limits = [16u64, 1023, 18446744073709551615];
    chunk_of(lines::read(line, &head, &limits))
}

// Whether the chunk marks clock 0.
fn marks_zero(head: u32, word: u64) -> bool
    ensures { result ≡ marks_zero (chunk_as head word) }
{
    head % 1024 == 0 && word % 2 == 1
}

// The ones so far and those of a word more.
fn ones_and(ones: usize, word: u64) -> usize
    ensures { result ≡ ones_and ones word }
{
    let more = u64::count_ones(word) as usize;
    if TOO_MANY - more <= ones {
        return TOO_MANY;
    }
    ones + more
}

// One chunk more, in range.
fn with_chunk(at: Summary, head: u32, word: u64) -> Summary
    ensures { result ≡ with_chunk at head word }
{
    let rising = index::both(at.sound, at.last < head);
    let count = if at.count < CHUNKS {
        at.count + 1
    } else {
        CHUNKS
    };
    Summary {
        laid_out: true,
        in_range: true,
        total: at.total,
        sound: index::both(rising, !marks_zero(head, word)),
        ones: ones_and(at.ones, word),
        last: head,
        count,
    }
}

// Puts a chunk behind the first n, where there is a slot.
fn keep(heads: &mut [u32], words: &mut [u64], n: usize, head: u32, word: u64)
    requires heads_len { length heads.old ≡ chunk_slots }
    requires words_len { length words.old ≡ chunk_slots }
    ensures { (ks : List Chunk) → n ≡ min chunk_slots (length ks)
        → ChunksKept heads.old words.old ks
        → ChunksKept heads.new words.new (ks ++ chunk_as head word ∷ []) }
{
    if CHUNKS <= n {
        return;
    }
    heads[n] = head;
    words[n] = word;
}

// Reads one line more.
fn read_line(line: &[u8], heads: &mut [u32], words: &mut [u64], at: Summary) -> Summary
    requires heads_len { length heads.old ≡ chunk_slots }
    requires words_len { length words.old ≡ chunk_slots }
    ensures value { result ≡ and_line at line.now }
    ensures chunks_kept { result.in_range ≡ true → (ks : List Chunk) → at.count ≡ min chunk_slots (length ks)
        → ChunksKept heads.old words.old ks
        → ChunksKept heads.new words.new (ks ++ chunk_said line.now ∷ []) }
{
    let read = read_chunk(line);
    match read {
        Err(Fault::Malformed) => without_layout(),
        Err(Fault::Above) => out_of_range(),
        Ok((head, word)) => {
            if !at.in_range {
                return out_of_range();
            }
            keep(heads, words, at.count, head, word);
            with_chunk(at, head, word)
        }
    }
}

// Reads the lines after the first, from what the first came to. A line that is out of range, or has no slot left, does
// not end the reading: a fault of the layout after it comes first.
pub(crate) fn read_chunks(
    bytes: &[u8],
    heads: &mut [u32],
    words: &mut [u64],
    first: Summary,
) -> Summary
    requires heads_len { length heads.old ≡ chunk_slots }
    requires words_len { length words.old ≡ chunk_slots }
    requires count_value { first.count ≡ 0 }
    ensures value { result ≡ summary_on first bytes.now }
    ensures chunks_kept { result.in_range ≡ true
        → ChunksKept heads.new words.new (map chunk_said (lines bytes.now)) }
{
    let mut at = first;
    // It stays a while: `lines` cuts one line off at a time, and no index is counted.
    let mut left = bytes;
    while 0 < left.len() {
        let line = lines::first_line(left);
        let next = read_line(line, heads, words, at);
        if !next.laid_out {
            return without_layout();
        }
        at = next;
        let rest = lines::rest(left);
        left = rest;
    }
    at
}

// What is answered by what the lines came to.
#[tactic(auto, unfolding(crate::specs::Reading::conclusion))]
pub(crate) fn concluded(at: Summary) -> Result<usize, Refusal>
    ensures { result ≡ conclusion at }
{
    if !at.laid_out {
        return Err(Refusal::Layout);
    }
    if !at.in_range {
        return Err(Refusal::Range);
    }
    if !at.sound {
        return Err(Refusal::Mislisted);
    }
    if at.total != at.ones {
        return Err(Refusal::Mislisted);
    }
    Ok(at.count)
}
