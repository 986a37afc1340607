// Reading one line of a saved replica or of an archive: whether it has the layout of its kind, whether it is in range,
// and what it says. The lines of the site and of the rows are read whole, or at the front of the bytes, with no line
// feed looked for first. These are steps of `loading`, and not calls.
#![tactic(auto)]

ghost use Rattle.std.specs.Prelude.{◌≡◌, true, ◌&&◌, ◌+◌, ◌≤◌, length, drop, IfOk, Err};
ghost use Rattle.lines.specs.Lines.{first_line};
ghost use Rattle.lines.specs.Fields.{fields, at_most};
ghost use Rattle.lines.specs.Answers.{numbers_of};
ghost use Rattle.woot.specs.Limits.{capacity};
ghost use Rattle.woot.specs.Ranges.{site_in_range, character_in_range};
ghost use Rattle.bulk.specs.Archiving.{place_in_range};
ghost use Rattle.saved.specs.Format.{site_head, site_limits, site_of, character_limits, character_of};
ghost use Rattle.saved.specs.Archive.{placed_limits};
ghost use Rattle.saved_lines.specs.Judging.{unread, ranged, said_in, front_line, site_read, row_of, row_in_range};
ghost use Rattle.saved_lines.specs.Judging.{row_read, pending_read, operation_read};

use answers::Refusal;
use decimal::Fault;
use lines::Front;
use saved::{CHARACTER, PLACED, Rows, Version};
use woot::{Character, Operation, Site};

// What a row says: a character with its place. The place is 0 where the rows have none.
#[derive(Clone, Copy)]
pub struct Row {
    pub place: u32,
    pub character: Character,
}

// Why a line is not taken.
#[derive(Clone, Copy)]
pub enum Unread<T> {
    // It lacks the layout of its kind.
    Malformed,
    // A number is above its limit.
    Above,
    // Each number is within its limit, and what they say is out of range: this.
    OutOfRange(T),
}

impl<T> From<Fault> for Unread<T> {
    ghost from_gives = { λ fault reason. reason ≡ unread fault };

    fn from(fault: Fault) -> Unread<T> {
        match fault {
            Fault::Above => Unread::Above,
            Fault::Malformed => Unread::Malformed,
        }
    }
}

// What the line at the front of bytes says, or why it is not taken, and the offset just past its line feed.
#[derive(Clone, Copy)]
pub struct AtFront<T> {
    pub line: Result<T, Unread<T>>,
    pub next: usize,
}

// What a line says whose numbers are within their limits, in range or not.
#[tactic(auto, unfolding(crate::specs::Judging::ranged))]
fn ranged<T: Copy>(in_range: bool, said: T) -> Result<T, Unread<T>>
    ensures { result ≡ ranged in_range said }
{
    if in_range {
        return Ok(said);
    }
    Err(Unread::OutOfRange(said))
}

// The site that numbers within their limits say.
fn site_of(values: [u64; 9]) -> Site
    requires { at_most site_limits values ≡ true }
    ensures { result ≡ site_of values }
{
    Site {
        number: values[0] as u8,
        clock: values[1] as u16,
    }
}

// Reads the numbers of the line at the front of bytes that begins with the form's head word of a site.
fn read_site_numbers_front(version: Version, bytes: &[u8]) -> Front
    ensures numbers_value { result.numbers ≡ numbers_of (site_head version) site_limits (fields (front_line bytes.now)) }
    ensures next_value { (result.numbers ≡ Err Fault.Malformed → ⊥) → result.next ≡ length (first_line bytes.now) + 1 }
    ensures next_in_bounds { result.next ≤ length bytes.now }
{
    let limits = [16u64, 65535];
    lines::read_front(bytes, version.site_head(), &limits)
}

// The site that the numbers of a line say.
#[tactic(auto, unfolding(crate::specs::Judging::said_in))]
fn site_said(numbers: Result<[u64; 9], Fault>) -> Result<Site, Unread<Site>>
    requires { IfOk numbers (λ values. at_most site_limits values ≡ true) }
    ensures { result ≡ said_in site_of site_in_range numbers }
{
    let site = site_of(numbers?);
    ranged(ranges::site_in_range(site), site)
}

// Reads a line, without its line feed, as a site's.
pub fn read_site(version: Version, line: &[u8]) -> Result<Site, Unread<Site>>
    ensures { result ≡ site_read version line.now }
{
    let limits = [16u64, 65535];
    site_said(lines::read(line, version.site_head(), &limits))
}

// Reads the line at the front of bytes as a site's.
pub fn read_site_front(version: Version, bytes: &[u8]) -> AtFront<Site>
    ensures line_value { result.line ≡ site_read version (front_line bytes.now) }
    ensures next_value { (result.line ≡ Err Unread.Malformed → ⊥) → result.next ≡ length (first_line bytes.now) + 1 }
    ensures next_in_bounds { result.next ≤ length bytes.now }
{
    let front = read_site_numbers_front(version, bytes);
    AtFront {
        line: site_said(front.numbers),
        next: front.next,
    }
}

// The character that numbers within their limits say, from the given one on.
fn character_of(version: Version, values: [u64; 9], from: usize) -> Character
    requires from_bound { from ≤ 1 }
    requires values_value { at_most (character_limits version) (drop from values) ≡ true }
    ensures { result ≡ character_of version (drop from values) }
{
    Character {
        id: codec::identifier(values[from], values[from + 1]),
        code_point: values[from + 2] as u32,
        toggles: version.toggle_field(values[from + 3]) as u8,
        previous: codec::identifier(values[from + 4], values[from + 5]),
        next: codec::identifier(values[from + 6], values[from + 7]),
    }
}

// The row that the numbers of a character's line say.
#[tactic(auto, unfolding(crate::specs::Judging::said_in))]
fn character_row(version: Version, numbers: Result<[u64; 9], Fault>) -> Result<Row, Unread<Row>>
    requires { IfOk numbers (λ values. at_most (character_limits version) values ≡ true) }
    ensures { result ≡ said_in (row_of (Rows.Saved version)) (row_in_range (Rows.Saved version)) numbers }
{
    let character = character_of(version, numbers?, 0);
    let row = Row {
        place: 0,
        character,
    };
    ranged(ranges::character_in_range(character), row)
}

// Reads a line as a character's.
fn read_character(version: Version, line: &[u8]) -> Result<Row, Unread<Row>>
    ensures { result ≡ row_read (Rows.Saved version) line.now }
{
    let head = [CHARACTER];
    let last = version.last_toggle_field();
    let limits = [16u64, 65535, 1114111, last, 16, 65535, 16, 65535];
    character_row(version, lines::read(line, &head, &limits))
}

// Reads the line at the front of bytes as a character's.
fn read_character_front(version: Version, bytes: &[u8]) -> AtFront<Row>
    ensures line_value { result.line ≡ row_read (Rows.Saved version) (front_line bytes.now) }
    ensures next_value { (result.line ≡ Err Unread.Malformed → ⊥) → result.next ≡ length (first_line bytes.now) + 1 }
    ensures next_in_bounds { result.next ≤ length bytes.now }
{
    let head = [CHARACTER];
    let most = version.last_toggle_field();
    let limits = [16u64, 65535, 1114111, most, 16, 65535, 16, 65535];
    let front = lines::read_front(bytes, &head, &limits);
    AtFront {
        line: character_row(version, front.numbers),
        next: front.next,
    }
}

// Whether a place within its limit is in range, and its character too.
fn placed_in_range(place: u32, character: Character) -> bool
    requires { place ≤ capacity }
    ensures { result
        ≡ place_in_range (record { place = place; character = character }) && character_in_range character }
{
    1 <= place && ranges::character_in_range(character)
}

// The row that the numbers of a line say that has a place.
#[tactic(auto, unfolding(crate::specs::Judging::said_in))]
fn placed_row(numbers: Result<[u64; 9], Fault>) -> Result<Row, Unread<Row>>
    requires { IfOk numbers (λ values. at_most placed_limits values ≡ true) }
    ensures { result ≡ said_in (row_of Rows.Archived) (row_in_range Rows.Archived) numbers }
{
    let values = numbers?;
    let place = values[0] as u32;
    let character = character_of(Version::Second, values, 1);
    ranged(placed_in_range(place, character), Row { place, character })
}

// Reads a line as a character's with its place.
fn read_placed(line: &[u8]) -> Result<Row, Unread<Row>>
    ensures { result ≡ row_read Rows.Archived line.now }
{
    let head = [PLACED];
    let limits = [1024u64, 16, 65535, 1114111, 255, 16, 65535, 16, 65535];
    placed_row(lines::read(line, &head, &limits))
}

// Reads the line at the front of bytes as a character's with its place.
fn read_placed_front(bytes: &[u8]) -> AtFront<Row>
    ensures line_value { result.line ≡ row_read Rows.Archived (front_line bytes.now) }
    ensures next_value { (result.line ≡ Err Unread.Malformed → ⊥) → result.next ≡ length (first_line bytes.now) + 1 }
    ensures next_in_bounds { result.next ≤ length bytes.now }
{
    let head = [PLACED];
    let limits = [1024u64, 16, 65535, 1114111, 255, 16, 65535, 16, 65535];
    let front = lines::read_front(bytes, &head, &limits);
    AtFront {
        line: placed_row(front.numbers),
        next: front.next,
    }
}

// Reads a line, without its line feed, as a row of the given kind.
pub fn read_row(rows: Rows, line: &[u8]) -> Result<Row, Unread<Row>>
    ensures { result ≡ row_read rows line.now }
{
    match rows {
        Rows::Saved(version) => read_character(version, line),
        Rows::Archived => read_placed(line),
    }
}

// Reads the line at the front of bytes as a row of the given kind.
pub fn read_row_front(rows: Rows, bytes: &[u8]) -> AtFront<Row>
    ensures line_value { result.line ≡ row_read rows (front_line bytes.now) }
    ensures next_value { (result.line ≡ Err Unread.Malformed → ⊥) → result.next ≡ length (first_line bytes.now) + 1 }
    ensures next_in_bounds { result.next ≤ length bytes.now }
{
    match rows {
        Rows::Saved(version) => read_character_front(version, bytes),
        Rows::Archived => read_placed_front(bytes),
    }
}

// Reads a line as the form has those of operations.
fn read_pending(version: Version, line: &[u8]) -> Result<Operation, Refusal>
    ensures { result ≡ pending_read version line.now }
{
    match version {
        Version::First => codec::read_written_first(line),
        Version::Second => codec::read_written(line),
    }
}

// Reads a line as a pending operation's.
pub fn read_operation(version: Version, line: &[u8]) -> Result<Operation, Fault>
    ensures { result ≡ operation_read version line.now }
{
    match read_pending(version, line) {
        Ok(operation) => Ok(operation),
        Err(Refusal::Range) => Err(Fault::Above),
        Err(_) => Err(Fault::Malformed),
    }
}
