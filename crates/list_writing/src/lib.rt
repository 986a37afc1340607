// The list of what a replica holds, written from lent arrays. What its bytes are is said in `listing`.
#![tactic(auto)]

mod writing;

ghost use Rattle.std.specs.Prelude.{◌≡◌, [], ◌≤◌, length};
ghost use Rattle.chunks.specs.Columns.{chunks_in};
ghost use Rattle.woot.specs.Writing.{written_as, output_after};
ghost use Rattle.listing.specs.Format.{list_bytes};

use answers::Refusal;

// Internal step: writes a list of the first n chunks at the front of the slice, whatever numbers they have. A refused
// call leaves every byte as it was. The calls lend arrays that have n slots.
pub fn put(
    site: u8,
    total: usize,
    heads: &[u32],
    words: &[u64],
    n: usize,
    out: &mut [u8],
) -> Result<usize, Refusal>
    requires n_in_bounds { n ≤ length heads.now }
    requires n_in_bounds_2 { n ≤ length words.now }
    ensures value { result
        ≡ written_as [] (list_bytes (record {
          site = site;
          total = total;
          chunks = chunks_in heads.now words.now n;
        })) out.old }
    ensures out_after { out.new
        ≡ output_after [] (list_bytes (record {
          site = site;
          total = total;
          chunks = chunks_in heads.now words.now n;
        })) out.old }
{
    let size = out.len();
    let front = writing::measure_header(site, total, size);
    let Some(start) = front else {
        return Err(Refusal::Output);
    };
    let room = writing::measure_chunks(heads, words, n, size, start);
    let Some(length) = room else {
        return Err(Refusal::Output);
    };
    let at = writing::put_header(site, total, out);
    writing::put_chunks(heads, words, n, out, at);
    Ok(length)
}
