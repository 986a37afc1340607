// Operations as lines of text: what the lines are, and reading them from bytes; `line_writing` writes them.
#![tactic(auto)]

ghost use Rattle.std.specs.Prelude.{◌≡◌, true, [], ◌∷◌, ◌<◌, ◌%◌, get_or, IfOk, Err};
ghost use Rattle.lines.specs.Lines.{rest};
ghost use Rattle.lines.specs.Fields.{at_most};
ghost use Rattle.lines.specs.Answers.{by_numbers};
ghost use Rattle.codec.specs.Operations.{insert_limits, insert_of};
ghost use Rattle.codec.specs.Kinds.{refusal_of, head_of, toggles_of, limits_of, said_as, read_kind};
ghost use Rattle.codec.specs.Calls.{read_as, read_written, read_written_first, read_line, read_operation};

use answers::Refusal;
use decimal::Fault;
use woot::{Identifier, Insert, Operation, Toggle};

// The head words of the lines.
pub const INSERT: u8 = 73;

pub const TOGGLE: u8 = 69;

pub const DELETE: u8 = 68;

// The kinds of line that are read.
#[derive(Clone, Copy)]
enum Kind {
    Insert,
    Toggle,
    Delete,
}

impl Kind {
    // The head word of its lines.
    fn head(self) -> u8
        ensures { result ∷ [] ≡ head_of self }
    {
        match self {
            Kind::Insert => INSERT,
            Kind::Toggle => TOGGLE,
            Kind::Delete => DELETE,
        }
    }

    // The limits of the numbers on them.
    fn limits(self) -> &'static [u64]
        ensures { result.now ≡ limits_of self }
    {
        match self {
            Kind::Insert => &[16, 65535, 1114111, 16, 65535, 16, 65535],
            Kind::Toggle => &[16, 16, 65535, 255],
            Kind::Delete => &[16, 16, 65535],
        }
    }
}

// Why a line is refused whose numbers are not taken.
fn refusal_of(fault: Fault) -> Refusal
    ensures { result ≡ refusal_of fault }
{
    match fault {
        Fault::Malformed => Refusal::Layout,
        Fault::Above => Refusal::Range,
    }
}

// The identifier of the low bits of two numbers, which are the numbers where these fit it.
pub fn identifier(site: u64, clock: u64) -> Identifier
    ensures { result ≡ record { site = site % 256; clock = clock % 65536 } }
{
    Identifier::new((site % 256) as u8, (clock % 65536) as u16)
}

// The insert that numbers within their limits say.
fn insert_of(values: [u64; 9]) -> Insert
    requires { at_most insert_limits values ≡ true }
    ensures { result ≡ insert_of values }
{
    Insert {
        id: identifier(values[0], values[1]),
        code_point: values[2] as u32,
        previous: identifier(values[3], values[4]),
        next: identifier(values[5], values[6]),
    }
}

// The toggle that numbers within the limits of a delete's line say, and the toggles beside them.
fn toggle_of(values: [u64; 9], toggles: u8) -> Toggle
    requires { (get_or values 0 0 < 256) × (get_or values 1 0 < 256) × (get_or values 2 0 < 65536) }
    ensures { result ≡ toggles_of toggles values }
{
    Toggle {
        sender: values[0] as u8,
        target: identifier(values[1], values[2]),
        toggles,
    }
}

// The operation that numbers within the limits of a kind of line say. A delete's line is read as toggle 1.
fn operation_of(kind: Kind, values: [u64; 9]) -> Operation
    requires { at_most (limits_of kind) values ≡ true }
    ensures { result ≡ said_as kind values }
{
    match kind {
        Kind::Insert => Operation::Insert(insert_of(values)),
        Kind::Toggle => Operation::Toggle(toggle_of(values, values[3] as u8)),
        Kind::Delete => Operation::Toggle(toggle_of(values, 1)),
    }
}

// What a line is read as by its numbers, or by their fault.
fn judged(kind: Kind, numbers: Result<[u64; 9], Fault>) -> Result<Operation, Refusal>
    requires { IfOk numbers (λ values. at_most (limits_of kind) values ≡ true) }
    ensures { result
        ≡ by_numbers numbers (Err Refusal.Layout) (Err Refusal.Range)
        (λ values. read_as true (said_as kind values)) }
{
    let values = numbers.map_err(refusal_of)?;
    let operation = operation_of(kind, values);
    if ranges::in_range(operation) {
        return Ok(operation);
    }
    Err(Refusal::Range)
}

// Reads a line as one of the given kind.
fn read_as(kind: Kind, line: &[u8]) -> Result<Operation, Refusal>
    ensures { result ≡ read_kind kind line.now }
{
    let head = [kind.head()];
    judged(kind, lines::read(line, &head, kind.limits()))
}

// The first byte of a line; of an empty one 0, which is no head word.
pub fn first_byte(line: &[u8]) -> u8
    ensures { result ≡ get_or line.now 0 0 }
{
    line.first().copied().unwrap_or(0)
}

// Reads a line that is without its line feed, as operations are written: a delete's line, which is written no more,
// lacks the layout.
pub fn read_written(line: &[u8]) -> Result<Operation, Refusal>
    ensures { result ≡ read_written line.now }
{
    if first_byte(line) == INSERT {
        return read_as(Kind::Insert, line);
    }
    read_as(Kind::Toggle, line)
}

// The same, as operations were written first: a toggle's line lacks the layout.
pub fn read_written_first(line: &[u8]) -> Result<Operation, Refusal>
    ensures { result ≡ read_written_first line.now }
{
    if first_byte(line) == INSERT {
        return read_as(Kind::Insert, line);
    }
    read_as(Kind::Delete, line)
}

// Reads a line that is without its line feed.
pub fn read_line(line: &[u8]) -> Result<Operation, Refusal>
    ensures { result ≡ read_line line.now }
{
    if first_byte(line) == DELETE {
        return read_as(Kind::Delete, line);
    }
    read_written(line)
}

// Reads the first line of the bytes as an operation. What follows the line feed is left to `rest`.
pub fn read_operation(bytes: &[u8]) -> Result<Operation, Refusal>
    ensures { result ≡ read_operation bytes.now }
{
    read_line(lines::first_line(bytes))
}

// The bytes after the first line feed, of a refused line too; with no line feed, the empty end of the bytes.
pub fn rest(bytes: &[u8]) -> &[u8]
    ensures { result.now ≡ rest bytes.now }
{
    lines::rest(bytes)
}
