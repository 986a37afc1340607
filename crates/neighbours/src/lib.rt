// Where the neighbours of the rows stand, and the two tests on these places that say whether rows can be made: those of
// pairs and of cycles. (Document 02, Req 07.)
#![tactic(auto)]

pub mod cycles;
pub mod pairs;
pub mod places;

ghost use Rattle.std.specs.Prelude.{◌≡◌};

// A place as it lies in an array.
fn place(at: u16) -> usize
    ensures { result ≡ at }
{
    at as usize
}
