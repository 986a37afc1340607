// Inserting on a record that is lent: it is read, and its clock stored; the work between is `lent::insert_with`'s.
#![tactic(auto)]

ghost use Rattle.std.specs.Prelude.{◌≡◌};
ghost use Rattle.lent.specs.Lent.{returned, site_after};

use lent::Returned;
use woot::{Document, Site};

// Inserts a code point at an insertion point, 0 above the first visible character. On success the lent record's clock
// is one higher, on a refusal all is as it was. (Document 01: typing at a gap.)
pub fn insert_on(site: &mut Site, document: Document, point: usize, code_point: u32) -> Returned
    ensures value { result ≡ returned site.old document point code_point }
    ensures site_after { site.new ≡ site_after site.old result.answer }
{
    let outcome = lent::insert_with(*site, document, point, code_point);
    site.clock = outcome.clock;
    outcome.returned
}
