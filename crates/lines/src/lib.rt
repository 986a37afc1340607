// Lines of numbers: a head word, then numerals, each after a tab, and a line feed at the end. One reader serves every
// such line, whatever its head word and its numbers; `writing` has the writer.
#![tactic(auto)]

pub mod writing;

ghost use Rattle.std.specs.Prelude.{◌≡◌, cond, [], ◌+◌, ◌≤◌, ltb, length, take, drop, Err};
ghost use Rattle.lines.specs.Lines.{before, ended, first_line, rest};
ghost use Rattle.lines.specs.Fields.{tab, fields, equal};
ghost use Rattle.lines.specs.Answers.{slots, numbers_of, goes_on_at, numbers_after, unless, front_of};

use decimal::Fault;

pub const TAB: u8 = 9;

pub const LINE_FEED: u8 = 10;

// The numbers of the first line of bytes, and its length.
#[derive(Clone, Copy)]
struct Ending {
    numbers: Result<[u64; 9], Fault>,
    end: usize,
}

// The numbers of the first line of bytes, and the offset just past its line feed.
#[derive(Clone, Copy)]
pub struct Front {
    pub numbers: Result<[u64; 9], Fault>,
    pub next: usize,
}

// The index of the first such byte, or the end of the bytes.
fn find(s: &[u8], byte: u8) -> usize
    ensures { result ≡ length (before byte s.now) }
{
    s.iter().position(|x| *x == byte).unwrap_or(s.len())
}

// The first line without its line feed; with no line feed, none of the bytes.
pub fn first_line(s: &[u8]) -> &[u8]
    ensures { result.now ≡ cond (ended s.now) (first_line s.now) [] }
{
    let end = find(s, LINE_FEED);
    if end < s.len() {
        return &s[..end];
    }
    &s[..0]
}

// The bytes after the first line feed; with no line feed, the empty end of the bytes.
pub fn rest(s: &[u8]) -> &[u8]
    ensures { result.now ≡ rest s.now }
{
    let end = find(s, LINE_FEED);
    if end < s.len() {
        return &s[end + 1..];
    }
    &s[end..]
}

// Whether two runs of bytes are the same.
fn same_bytes(a: &[u8], b: &[u8]) -> bool
    ensures { result ≡ equal a.now b.now }
{
    a == b
}

// The numbers of a line with the layout, unless one of them is above its limit.
#[tactic(auto, unfolding(crate::specs::Answers::unless))]
fn unless_above(above: bool, values: [u64; 9]) -> Result<[u64; 9], Fault>
    ensures { result ≡ unless above values }
{
    if above {
        return Err(Fault::Above);
    }
    Ok(values)
}

// Whether a byte stands at the offset that ends no field.
fn goes_on(line: &[u8], at: usize) -> bool
    ensures { result ≡ goes_on_at line.now at }
{
    at < line.len() && line[at] != TAB
}

// Reads numbers from the end of a field on, one for each limit, to the end of the line. A number above its limit does
// not end the reading: a fault of the layout after it comes first.
fn read_numbers(line: &[u8], from: usize, limits: &[u64]) -> Result<[u64; 9], Fault>
    requires { length limits.now ≤ slots }
    ensures { result ≡ numbers_after limits.now (fields (drop from line.now)) }
{
    let mut values = [0u64; 9];
    let mut above = false;
    let mut at = from;
    for (i, &limit) in limits.iter().enumerate() {
        if line.len() <= at {
            return Err(Fault::Malformed);
        }
        if line[at] != TAB {
            return Err(Fault::Malformed);
        }
        if line.len() <= at + 1 {
            return Err(Fault::Malformed);
        }
        let number = decimal::scan(line, at + 1, limit);
        let field = number.field;
        at = number.next;
        if goes_on(line, at) {
            return Err(Fault::Malformed);
        }
        match field {
            Ok(n) => values[i] = n,
            Err(Fault::Above) => above = true,
            Err(Fault::Malformed) => return Err(Fault::Malformed),
        }
    }
    if at < line.len() {
        return Err(Fault::Malformed);
    }
    unless_above(above, values)
}

// Reads a line, without its line feed, that is the head word and one number for each limit. Limits past the ninth are
// left out.
pub fn read(line: &[u8], head: &[u8], limits: &[u64]) -> Result<[u64; 9], Fault>
    ensures { result
        ≡ numbers_of head.now (take slots limits.now) (fields line.now) }
{
    let end = find(line, TAB);
    if !same_bytes(&line[..end], head) {
        return Err(Fault::Malformed);
    }
    read_numbers(line, end, leading(limits))
}

// Whether a byte of the first line stands at the offset: steps of reading at the front of bytes, which has come no
// further than the end of that line.
fn in_line(s: &[u8], at: usize) -> bool
    requires { at ≤ length (first_line s.now) }
    ensures { result ≡ ltb at (length (first_line s.now)) }
{
    at < s.len() && s[at] != LINE_FEED
}

// The same of a byte that ends no field.
fn in_field(s: &[u8], at: usize) -> bool
    requires { at ≤ length (first_line s.now) }
    ensures { result ≡ goes_on_at (first_line s.now) at }
{
    in_line(s, at) && s[at] != TAB
}

// The length of the first line's first field.
fn first_field(s: &[u8]) -> usize
    ensures { result ≡ length (before tab (first_line s.now)) }
{
    s.iter()
        .position(|x| *x == TAB || *x == LINE_FEED)
        .unwrap_or(s.len())
}

// The first limits, as many as a line can have numbers.
fn leading(limits: &[u64]) -> &[u64]
    ensures { result.now ≡ take slots limits.now }
{
    &limits[..limits.len().min(9)]
}

// A line without the layout, which ends nowhere.
fn unended() -> Ending
    ensures numbers_value { result.numbers ≡ Err Fault.Malformed }
    ensures end_value { result.end ≡ 0 }
{
    let numbers = Err(Fault::Malformed);
    Ending { numbers, end: 0 }
}

// Reads numbers from the end of a field on in the same way, one for each limit, to the end of the first line. It tells
// where that ends.
fn read_ending(s: &[u8], limits: &[u64]) -> Ending
    requires { length limits.now ≤ slots }
    ensures numbers_value { result.numbers ≡ numbers_after limits.now (fields (first_line s.now)) }
    ensures end_value { (result.numbers ≡ Err Fault.Malformed → ⊥) → result.end ≡ length (first_line s.now) }
    ensures end_in_bounds { result.end ≤ length s.now }
{
    let mut values = [0u64; 9];
    let mut over = false;
    let mut at = 0;
    for (i, &limit) in limits.iter().enumerate() {
        if s.len() <= at {
            return unended();
        }
        if s[at] != TAB {
            return unended();
        }
        if s.len() <= at + 1 {
            return unended();
        }
        let number = decimal::scan(s, at + 1, limit);
        let field = number.field;
        at = number.next;
        if in_field(s, at) {
            return unended();
        }
        match field {
            Ok(n) => values[i] = n,
            Err(Fault::Above) => over = true,
            Err(Fault::Malformed) => return unended(),
        }
    }
    if in_line(s, at) {
        return unended();
    }
    let numbers = unless_above(over, values);
    Ending { numbers, end: at }
}

// Reads the line at the front of the bytes as `read` reads one, its end found by reading it. With no line feed there
// is none.
pub fn read_front(s: &[u8], head: &[u8], limits: &[u64]) -> Front
    ensures numbers_value { result.numbers ≡ front_of head.now (take slots limits.now) s.now }
    ensures next_value { (result.numbers ≡ Err Fault.Malformed → ⊥) → result.next ≡ length (first_line s.now) + 1 }
    ensures next_in_bounds { result.next ≤ length s.now }
{
    let end = first_field(s);
    if !same_bytes(&s[..end], head) {
        let numbers = Err(Fault::Malformed);
        return Front { numbers, next: 0 };
    }
    let read = read_ending(&s[end..], leading(limits));
    let feed = end + read.end;
    if s.len() <= feed {
        let numbers = Err(Fault::Malformed);
        return Front { numbers, next: 0 };
    }
    let numbers = read.numbers;
    Front {
        numbers,
        next: feed + 1,
    }
}
