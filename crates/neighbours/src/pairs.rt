// Whether of two rows, each between the other's neighbours, the upper has the lower identifier: by their keys, and the
// places of their neighbours.
ghost use Rattle.std.specs.Prelude.{◌≡◌, ◌≤◌, ◌<◌, length};
ghost use Rattle.lists.specs.Lists.{throughout};
ghost use Rattle.neighbours.specs.Steps.{pair_at, pairs_in};

use crate::place;

// Whether it is so of row k, whose previous is at the place, and of each row between.
fn row_ordered<'a>(ids: &'a [u32], below: &'a [u16], above: usize, k: usize) -> bool
    requires k_in_bounds { k < length ids.now }
    requires k_in_bounds_2 { k ≤ length below.now }
    ensures { result ≡ throughout (pair_at ids.now below.now above k) k }
{
    let key = ids[k];
    for j in above..k {
        if k + 1 < place(below[j]) && key < ids[j] {
            return false;
        }
    }
    true
}

// Internal step: whether of any two rows that stand between each other's neighbours the upper has the lower key. The
// calls have found the places.
pub fn ordered<'a>(ids: &'a [u32], above: &'a [u16], below: &'a [u16]) -> bool
    requires ids_in_bounds { length ids.now ≤ length above.now }
    requires ids_in_bounds_2 { length ids.now ≤ length below.now }
    ensures { result ≡ pairs_in ids.now above.now below.now }
{
    for k in 0..ids.len() {
        if !row_ordered(ids, below, place(above[k]), k) {
            return false;
        }
    }
    true
}
