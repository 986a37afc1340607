// Reading saved replicas and archives from bytes: into arrays that the call lends, and as replicas.
#![tactic(auto)]

mod filling;
mod reading;

ghost use Rattle.std.specs.Prelude.{Ok, Err, ◌≡◌, [], min, length, take};
ghost use Rattle.lists.specs.Padding.{pad};
ghost use Rattle.woot.specs.Memory.{character_slots, character_numbers, pending_numbers, pending_slots};
ghost use Rattle.woot.specs.Table.{table_of};
ghost use Rattle.chains.specs.Sizes.{Sized};
ghost use Rattle.clock.specs.Hearing.{heard_keys};
ghost use Rattle.saved.specs.Format.{state_as};
ghost use Rattle.saved.specs.Calls.{raised_in_arrays, unread, saved_read, loaded};
ghost use Rattle.saved.specs.Rows.{rows_said, rows_answer, characters_held, pending_held, Held};
ghost use Rattle.memory.specs.Lent.{Full};
ghost use Rattle.replica.specs.Outcomes.{replica_lent};
ghost use Rattle.loading.specs.Filling.{read_answer, Blank, RowsNoted};

use answers::Refusal;
use reading::both;
use saved::{Loaded, Rows, Version};
use saved_lines::Unread;
use woot::{CHARACTERS, PENDING, Replica, Site, Table};

// What reading answers, and where that is `Ok` what stands beside the arrays: the site, how many rows there are
// and how many lines of operations, and the offset of the first row. The counts may be above the arrays. It stays a
// struct: what stands beside the answer goes into fields of a replica, one by one.
#[derive(Clone, Copy)]
pub struct ReadInto {
    pub answer: Result<(), Refusal>,
    pub site: Site,
    pub length: usize,
    pub waiting: usize,
    pub body: usize,
}

// A refusal, and what stands beside it.
fn refuse_into(reason: Refusal) -> ReadInto
    ensures { result.answer ≡ Err reason }
{
    ReadInto {
        answer: Err(reason),
        site: Site {
            number: 0,
            clock: 0,
        },
        length: 0,
        waiting: 0,
        body: 0,
    }
}

// Reads the lines of a saved replica or of an archive, and checks no more than their layout and their ranges; the clock
// is as it was read. A fault of the layout comes first, wherever it is, and then a number out of range. The arrays have
// just been made, zeros throughout; where rows have no places, or nobody asks where they begin, one slot is enough.
fn read_lines_at(
    rows: Rows,
    bytes: &[u8],
    starts: &mut [usize],
    places: &mut [u32],
    characters: &mut [u32],
    toggles: &mut [u8],
    pending: &mut [u32],
) -> ReadInto
    requires starts_value { starts.old ≡ pad (length starts.old) 0 [] }
    requires places_value { places.old ≡ pad (length places.old) 0 [] }
    requires characters_value { characters.old ≡ characters_held [] }
    requires toggles_value { toggles.old ≡ pad character_slots 0 [] }
    requires pending_value { pending.old ≡ pending_held [] }
    ensures answer_value { result.answer ≡ rows_answer rows bytes.now }
    ensures places_len_unchanged { length places.new ≡ length places.old }
    ensures characters_len { length characters.new ≡ character_numbers }
    ensures toggles_len { length toggles.new ≡ character_slots }
    ensures pending_len { length pending.new ≡ pending_numbers }
    ensures held { result.answer ≡ Ok tt
        → Held (rows_said rows bytes.now) result.site places.new characters.new
        toggles.new result.length pending.new result.waiting }
    ensures rows_noted { result.answer ≡ Ok tt
        → RowsNoted rows bytes.now result.body (length starts.old) starts.new }
{
    let version = rows.version();
    let first = saved_lines::read_site_front(version, bytes);
    let first_site = match first.line {
        Ok(site) => Some(site),
        Err(Unread::Above | Unread::OutOfRange(_)) => None,
        Err(Unread::Malformed) => return refuse_into(Refusal::Layout),
    };
    let next = first.next;
    let body = &bytes[next..];
    let ahead = filling::read_rows_at(rows, body, starts, places, characters, toggles);
    let end = ahead.end;
    let front = ahead.front;
    let back = filling::read_operations(version, &body[end..], pending);
    let Some(waiting) = back else {
        return refuse_into(Refusal::Layout);
    };
    let Some(site) = first_site else {
        return refuse_into(Refusal::Range);
    };
    if !both(front.in_range, waiting.in_range) {
        return refuse_into(Refusal::Range);
    }
    ReadInto {
        answer: Ok(()),
        site,
        length: front.count,
        waiting: waiting.count,
        body: next,
    }
}

// Internal step: the same where nobody asks where the rows begin. `archiving` lends arrays of these sizes.
pub fn read_lines(
    rows: Rows,
    bytes: &[u8],
    places: &mut [u32],
    characters: &mut [u32],
    toggles: &mut [u8],
    pending: &mut [u32],
) -> ReadInto
    requires places_value { places.old ≡ pad (length places.old) 0 [] }
    requires characters_value { characters.old ≡ characters_held [] }
    requires toggles_value { toggles.old ≡ pad character_slots 0 [] }
    requires pending_value { pending.old ≡ pending_held [] }
    ensures answer_value { result.answer ≡ rows_answer rows bytes.now }
    ensures places_len_unchanged { length places.new ≡ length places.old }
    ensures characters_len { length characters.new ≡ character_numbers }
    ensures toggles_len { length toggles.new ≡ character_slots }
    ensures pending_len { length pending.new ≡ pending_numbers }
    ensures held { result.answer ≡ Ok tt
        → Held (rows_said rows bytes.now) result.site places.new characters.new
        toggles.new result.length pending.new result.waiting }
{
    let mut starts = [0usize; 1];
    read_lines_at(
        rows,
        bytes,
        &mut starts,
        places,
        characters,
        toggles,
        pending,
    )
}

// Makes the table of the characters that the arrays hold of n, and tells the site that has heard of them and of the
// operations that they hold of w.
fn settle<'a>(
    site: Site,
    characters: &'a [u32],
    n: usize,
    pending: &'a [u32],
    w: usize,
    table: &mut Table,
) -> Site
    requires characters_len { length characters.now ≡ character_numbers }
    requires pending_len { length pending.now ≡ pending_numbers }
    requires sized { Sized table.old }
    ensures value { result
        ≡ heard_keys (heard_keys site (take (min n character_slots) characters.now))
        (take (min w pending_slots) pending.now) }
    ensures table_after { table.new ≡ table_of (take (min n character_slots) characters.now) }
{
    let held = index::lesser(n, CHARACTERS);
    chains::enter_all(characters, held, table);
    clock::raised(site, characters, held, pending, index::lesser(w, PENDING))
}

// Internal step: reads a saved replica that is not checked to be well formed, and where its rows begin. A clock below
// that of a character or a pending insert of its own is raised. The calls lend arrays of these sizes, which they have
// just made.
pub fn read_into_at(
    version: Version,
    bytes: &[u8],
    starts: &mut [usize],
    characters: &mut [u32],
    toggles: &mut [u8],
    pending: &mut [u32],
    table: &mut Table,
) -> ReadInto
    requires starts_value { starts.old ≡ pad (length starts.old) 0 [] }
    requires characters_value { characters.old ≡ characters_held [] }
    requires toggles_value { toggles.old ≡ pad character_slots 0 [] }
    requires pending_value { pending.old ≡ pending_held [] }
    requires sized { Sized table.old }
    ensures answer_value { result.answer ≡ read_answer version bytes.now }
    ensures characters_len { length characters.new ≡ character_numbers }
    ensures toggles_len { length toggles.new ≡ character_slots }
    ensures pending_len { length pending.new ≡ pending_numbers }
    ensures sized_after { Sized table.new }
    ensures replica_after { result.answer ≡ Ok tt
        → replica_lent result.site characters.new toggles.new result.length pending.new
        result.waiting table.new.heads table.new.links
        ≡ raised_in_arrays (state_as version bytes.now) }
    ensures rows_noted { result.answer ≡ Ok tt
        → RowsNoted (Rows.Saved version) bytes.now result.body (length starts.old)
        starts.new }
{
    let mut places = [0u32; 1];
    let mut lines = read_lines_at(
        Rows::Saved(version),
        bytes,
        starts,
        &mut places,
        characters,
        toggles,
        pending,
    );
    let answer = lines.answer;
    if let Err(_) = answer {
        return lines;
    }
    let site = lines.site;
    let raised = settle(
        site,
        characters,
        lines.length,
        pending,
        lines.waiting,
        table,
    );
    lines.site = raised;
    lines
}

// Internal step: the same into a replica that was just made, where nobody asks where the rows begin.
pub fn read_into(version: Version, bytes: &[u8], replica: &mut Replica) -> Result<(), Refusal>
    requires { Blank replica.old }
    ensures answer_value { result ≡ read_answer version bytes.now }
    ensures full_after { Full replica.new }
    ensures replica_after { result ≡ Ok tt
        → replica.new ≡ raised_in_arrays (state_as version bytes.now) }
{
    let mut starts = [0usize; 1];
    let read = read_into_at(
        version,
        bytes,
        &mut starts,
        &mut replica.document.characters,
        &mut replica.document.toggles,
        &mut replica.document.pending,
        &mut replica.document.table,
    );
    replica.site = read.site;
    replica.document.length = read.length;
    replica.document.waiting = read.waiting;
    read.answer
}

// A refusal, and the empty replica beside it.
fn refuse(reason: Refusal) -> Loaded
    ensures { result ≡ unread (Err reason) }
{
    Loaded {
        answer: Err(reason),
        replica: Replica::empty(0),
    }
}

// Internal step: reads a replica that is saved in a form, and is not checked to be well formed: its counts may be above
// its arrays. Only `conversion` reads the first form; all else reads by `read`.
pub fn read_as(version: Version, bytes: &[u8]) -> Loaded
    ensures { result ≡ saved_read version bytes.now }
{
    let mut replica = Replica::empty(0);
    let answer = read_into(version, bytes, &mut replica);
    if let Err(reason) = answer {
        return refuse(reason);
    }
    Loaded { answer, replica }
}

// Internal step: reads a saved replica that is not checked to be well formed. The rule that the calls hand it to looks
// at its form.
pub fn read(bytes: &[u8]) -> Loaded
    ensures { result ≡ saved_read Version.Second bytes.now }
{
    read_as(Version::Second, bytes)
}

// Reads a saved replica. A fault of the layout comes first, wherever it is, then a number out of range, then the form.
pub fn load(bytes: &[u8]) -> Loaded
    ensures { result ≡ loaded bytes.now }
{
    let found = read(bytes);
    let answer = found.answer;
    if let Err(_) = answer {
        return found;
    }
    if !replica::well_formed(found.replica) {
        return refuse(Refusal::Form);
    }
    found
}
