// Writing a list from lent arrays: its lines are measured in one loop, and put in another.
ghost use Rattle.std.specs.Prelude.{◌≡◌, [], ◌∷◌, ◌+◌, ◌≤◌, length};
ghost use Rattle.output.specs.Output.{placed, past};
ghost use Rattle.lines.specs.Lines.{concatenated};
ghost use Rattle.lines.specs.Fields.{line_of};
ghost use Rattle.lines.specs.Room.{room_for};
ghost use Rattle.chunks.specs.Columns.{chunk_as, chunks_in};
ghost use Rattle.listing.specs.Format.{list_head, chunk_numbers, chunk_line};

use listing::{CHUNK, LIST};

// Where the first line ends at the front of a slice of the given size.
pub(crate) fn measure_header(site: u8, total: usize, size: usize) -> Option<usize>
    ensures { result ≡ room_for size 0 (line_of list_head (site ∷ total ∷ [])) }
{
    let head = [LIST];
    let numbers = [site as u64, total as u64];
    lines::writing::measure(&head, &numbers, size, 0)
}

// Puts the first line at the front of the slice, all of it or nothing, and answers the offset just past it.
pub(crate) fn put_header(site: u8, total: usize, out: &mut [u8]) -> usize
    ensures value { result ≡ past out.old 0 (line_of list_head (site ∷ total ∷ [])) }
    ensures out_after { out.new ≡ placed out.old 0 (line_of list_head (site ∷ total ∷ [])) }
{
    let head = [LIST];
    let numbers = [site as u64, total as u64];
    lines::writing::put_line(&head, &numbers, out, 0)
}

// The numbers of a chunk's line.
fn chunk_numbers(head: u32, word: u64) -> [u64; 3]
    ensures { result ≡ chunk_numbers (chunk_as head word) }
{
    [(head / 1024) as u64, (head % 1024) as u64, word]
}

// Where the lines of the first n chunks end that begin at the offset in a slice of the given size.
pub(crate) fn measure_chunks(
    heads: &[u32],
    words: &[u64],
    n: usize,
    size: usize,
    at: usize,
) -> Option<usize>
    requires n_in_bounds { n ≤ length heads.now }
    requires n_in_bounds_2 { n ≤ length words.now }
    requires at_le_size { at ≤ size }
    ensures { result
        ≡ room_for size at (concatenated chunk_line (chunks_in heads.now words.now n)) }
{
    let mut end = at;
    for i in 0..n {
        let head = [CHUNK];
        let numbers = chunk_numbers(heads[i], words[i]);
        let room = lines::writing::measure(&head, &numbers, size, end);
        let Some(past) = room else {
            return None;
        };
        end = past;
    }
    Some(end)
}

// Puts the lines at the offset, where there is room.
pub(crate) fn put_chunks(heads: &[u32], words: &[u64], n: usize, out: &mut [u8], at: usize)
    requires n_in_bounds { n ≤ length heads.now }
    requires n_in_bounds_2 { n ≤ length words.now }
    requires n_in_bounds_3 { at + length (concatenated chunk_line (chunks_in heads.now words.now n)) ≤ length out.old }
    ensures { out.new
        ≡ placed out.old at (concatenated chunk_line
        (chunks_in heads.now words.now n)) }
{
    let mut end = at;
    for i in 0..n {
        let head = [CHUNK];
        let numbers = chunk_numbers(heads[i], words[i]);
        end = lines::writing::put_line(&head, &numbers, out, end);
    }
}
