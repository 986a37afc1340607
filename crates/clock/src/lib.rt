// A site's clock, which follows the inserts that have its number: raised by one that is heard, and by all whose keys
// lie in lent arrays. (Document 02, Req 04.)
#![tactic(auto)]

ghost use Rattle.std.specs.Prelude.{◌≡◌, [], ◌∷◌, ◌≤◌, length, take};
ghost use Rattle.woot.specs.Operations.{inserts};
ghost use Rattle.woot.specs.Clock.{heard, heard_all};
ghost use Rattle.woot.specs.Memory.{identifier};
ghost use Rattle.clock.specs.Hearing.{heard_id, heard_keys};

use woot::{Identifier, Insert, Operation, Site};

// The site that has heard of an identifier.
#[tactic(auto, unfolding(crate::specs::Hearing::heard_id))]
fn heard_id(site: Site, id: Identifier) -> Site
    ensures { result ≡ heard_id site id }
{
    if id.site != site.number {
        return site;
    }
    Site {
        number: site.number,
        clock: site.clock.max(id.clock),
    }
}

// The site that has heard an insert.
pub fn heard(site: Site, insert: Insert) -> Site
    ensures { result ≡ heard site insert }
{
    let id = insert.id;
    heard_id(site, id)
}

// The site that has heard an operation: a toggle raises nothing.
pub fn heard_operation(site: Site, operation: Operation) -> Site
    ensures { result ≡ heard_all site (inserts (operation ∷ [])) }
{
    match operation {
        Operation::Insert(i) => heard(site, i),
        Operation::Toggle(_) => site,
    }
}

// The site that has heard of the identifier with a key. The own key of a toggle, 0, raises nothing.
#[tactic(auto, unfolding(crate::specs::Hearing::heard_id, woot::specs::Memory::identifier))]
pub fn heard_key(site: Site, key: u32) -> Site
    ensures { result ≡ heard_id site (identifier key) }
{
    if key / 65536 != site.number as u32 {
        return site;
    }
    Site {
        number: site.number,
        clock: site.clock.max((key % 65536) as u16),
    }
}

// Internal step: the site that has heard of the first n keys, one after another. The calls lend an array that has a
// slot for each key.
pub fn heard_keys(site: Site, keys: &[u32], n: usize) -> Site
    requires { n ≤ length keys.now }
    ensures { result ≡ heard_keys site (take n keys.now) }
{
    let mut raised = site;
    for key in &keys[..n] {
        raised = heard_key(raised, *key);
    }
    raised
}

// Internal step: the site that has heard of n characters and of w pending operations, as loading does. The calls lend
// such arrays.
pub fn raised<'a>(site: Site, ids: &'a [u32], n: usize, own: &'a [u32], w: usize) -> Site
    requires n_in_bounds { n ≤ length ids.now }
    requires w_in_bounds { w ≤ length own.now }
    ensures { result
        ≡ heard_keys (heard_keys site (take n ids.now)) (take w own.now) }
{
    let middle = heard_keys(site, ids, n);
    heard_keys(middle, own, w)
}
