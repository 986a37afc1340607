// What refusal 2 lets pass: the ranges of the numbers, where a mark may stand, and that an insert does not name itself.
// The rules are in the specs of `woot`.
#![tactic(auto)]

ghost use Rattle.std.specs.Prelude.{◌≡◌, ◌||◌};
ghost use Rattle.woot.specs.Limits.{last_clock};
ghost use Rattle.woot.specs.Identifiers.{same};
ghost use Rattle.woot.specs.Ranges.{within, site_number, is_code_point, character_id, previous_id};
ghost use Rattle.woot.specs.Ranges.{next_id, site_in_range, insert_in_range, toggle_in_range, in_range, character_in_range};

use woot::{Character, Identifier, Insert, Operation, Site, Toggle};

// Whether a number is one of a site.
#[tactic(auto, unfolding(woot::specs::Ranges::site_number, utf8::specs::CodePoints::within))]
pub fn site_number(n: u8) -> bool
    ensures { result ≡ site_number n }
{
    1 <= n && n <= 16
}

// Whether a clock is one of a character.
#[tactic(auto, unfolding(utf8::specs::CodePoints::within))]
pub fn character_clock(n: u16) -> bool
    ensures { result ≡ within 1 last_clock n }
{
    1 <= n
}

// Whether a number is a code point that may be inserted.
pub fn code_point(n: u32) -> bool
    ensures { result ≡ is_code_point n }
{
    utf8::is_code_point(n)
}

// Whether two identifiers are equal.
#[tactic(auto, unfolding(woot::specs::Identifiers::same))]
pub fn same_id(x: Identifier, y: Identifier) -> bool
    ensures { result ≡ same x y }
{
    x == y
}

// Whether an identifier is one of a character.
#[tactic(auto, unfolding(woot::specs::Ranges::character_id))]
pub fn character_id(x: Identifier) -> bool
    ensures { result ≡ character_id x }
{
    site_number(x.site) && character_clock(x.clock)
}

// Whether an identifier is the mark that may stand at its place, or one of a character.
fn neighbour_id(x: Identifier, mark: Identifier) -> bool
    ensures { result ≡ same x mark || character_id x }
{
    same_id(x, mark) || character_id(x)
}

// Whether an identifier may stand as previous.
#[tactic(auto, unfolding(woot::specs::Ranges::previous_id))]
pub fn previous_id(x: Identifier) -> bool
    ensures { result ≡ previous_id x }
{
    neighbour_id(x, Identifier::BEGIN)
}

// Whether an identifier may stand as next.
#[tactic(auto, unfolding(woot::specs::Ranges::next_id))]
pub fn next_id(x: Identifier) -> bool
    ensures { result ≡ next_id x }
{
    neighbour_id(x, Identifier::END)
}

// Whether refusal 2 lets an insert pass.
#[tactic(auto, unfolding(woot::specs::Ranges::insert_in_range))]
pub fn insert_in_range(i: Insert) -> bool
    ensures { result ≡ insert_in_range i }
{
    character_id(i.id)
        && code_point(i.code_point)
        && previous_id(i.previous)
        && next_id(i.next)
        && !same_id(i.id, i.previous)
        && !same_id(i.id, i.next)
}

// Whether refusal 2 lets a toggle pass.
#[tactic(auto, unfolding(woot::specs::Ranges::toggle_in_range, utf8::specs::CodePoints::within))]
pub fn toggle_in_range(t: Toggle) -> bool
    ensures { result ≡ toggle_in_range t }
{
    site_number(t.sender) && character_id(t.target) && 1 <= t.toggles
}

// Whether refusal 2 lets an operation pass.
#[tactic(auto, unfolding(woot::specs::Ranges::in_range))]
pub fn in_range(o: Operation) -> bool
    ensures { result ≡ in_range o }
{
    match o {
        Operation::Insert(i) => insert_in_range(i),
        Operation::Toggle(t) => toggle_in_range(t),
    }
}

// Whether refusal 2 lets a character pass. Every count of toggles of the type does.
pub fn character_in_range(c: Character) -> bool
    ensures { result ≡ character_in_range c }
{
    insert_in_range(Insert {
        id: c.id,
        code_point: c.code_point,
        previous: c.previous,
        next: c.next,
    })
}

// Whether refusal 2 lets a site's number and clock pass.
#[tactic(auto, unfolding(woot::specs::Ranges::site_in_range, utf8::specs::CodePoints::within))]
pub fn site_in_range(s: Site) -> bool
    ensures { result ≡ site_in_range s }
{
    site_number(s.number)
}
