// Inserting for a record that is lent: the work, which is `replica::insert`'s, with the record by value. `site_record`
// reads the lent record and stores the clock.
#![tactic(auto)]

ghost use Rattle.std.specs.Prelude.{◌≡◌};
ghost use Rattle.lent.specs.Lent.{returned, site_after, with_clock};

use answers::Refusal;
use woot::{Document, Replica, Sent, Site};

// What comes back by value; the record is where it was lent.
#[derive(Clone, Copy)]
pub struct Returned {
    pub answer: Result<Sent, Refusal>,
    pub document: Document,
}

// What comes back, and the clock that the record is to have.
#[derive(Clone, Copy)]
pub struct Outcome {
    pub returned: Returned,
    pub clock: u16,
}

// Internal step: everything of `site_record::insert_on` but the store.
pub fn insert_with(site: Site, document: Document, point: usize, code_point: u32) -> Outcome
    ensures returned_value { result.returned ≡ returned site document point code_point }
    ensures clock_value { with_clock site result.clock ≡ site_after site result.returned.answer }
{
    let generated = replica::insert(Replica { site, document }, point, code_point);
    let answer = generated.answer;
    let left = generated.replica;
    let document = left.document;
    Outcome {
        returned: Returned { answer, document },
        clock: left.site.clock,
    }
}
