// Whether a site's clock reaches the identifiers with the keys that a replica holds. As for the ranges, neither the
// test nor the loop has a way out.
ghost use Rattle.std.specs.Prelude.{◌≡◌, ◌≤◌, length, take};
ghost use Rattle.lists.specs.Lists.{every};
ghost use Rattle.well_formed.specs.Form.{reaches_key};

use woot::Site;

// Whether the clock reaches the identifier with a key, as it does any that has another site's number.
#[tactic(auto, unfolding(crate::specs::Form::reaches_key))]
fn reaches(site: Site, key: u32) -> bool
    ensures { result ≡ reaches_key site key }
{
    (key / 65536 != site.number as u32) | (key % 65536 <= site.clock as u32)
}

// Internal step: whether the clock reaches the identifiers with the first n keys. The calls lend arrays of this size.
pub fn reaches_all(site: Site, keys: &[u32], n: usize) -> bool
    requires { n ≤ length keys.now }
    ensures { result ≡ every (reaches_key site) (take n keys.now) }
{
    let mut kept = true;
    for i in 0..n {
        kept &= reaches(site, keys[i]);
    }
    kept
}
