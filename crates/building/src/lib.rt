// Building the document of a heap of operations: its inserts are placed in passes, then its toggles are carried out,
// and what is left out is counted. (Document 02, Req 08.)
#![tactic(auto)]

ghost use Rattle.std.specs.Prelude.{◌≡◌, true, ◌||◌, not, List, ◌+◌, ◌≤◌, ◌<◌, length, take, drop, get_or};
ghost use Rattle.lists.specs.Lists.{any};
ghost use Rattle.bulk.specs.Building.{unbuilt};
ghost use Rattle.woot.specs.Ranges.{site_number, toggle_in_range};
ghost use Rattle.woot.specs.Operations.{same_toggle};
ghost use Rattle.woot.specs.Placing.{held};
ghost use Rattle.woot.specs.Table.{keys};
ghost use Rattle.woot.specs.declared.Character.{Character};
ghost use Rattle.woot.specs.Memory.{character_numbers, character_slots, key_column};
ghost use Rattle.convergence.specs.Passes.{toggled_all, absentees};
ghost use Rattle.index.specs.Keys.{AllSmall};
ghost use Rattle.index.specs.Tabled.{Tabled};
ghost use Rattle.heap.specs.Columns.{toggle_numbers};
ghost use Rattle.passes.specs.Steps.{laid_as, Laid};
ghost use Rattle.building.specs.Calls.{built_by};
ghost use Rattle.building.specs.Assembly.{judged, Assembles, assembled, Gathers, outcome_of, returned};
ghost use Rattle.building.specs.Steps.{toggle_at, Among, Toggles};

use answers::{Answer, Refusal};
use gathering::Gathered;
use heap::{STAMPS, TOGGLE_NUMBERS};
use pending::ready;
use woot::{CHAINS, CHARACTER_NUMBERS, CHARACTERS, Document, LINKS, Replica, Site, Table, Toggle};

// What building returns: the answer, and the replica. With a refusal that is an empty one of number 0, which no site
// has. The answer counts what is left out where others count what they discarded.
#[derive(Clone, Copy)]
pub struct Built {
    pub answer: Answer,
    pub replica: Replica,
}

// The toggle in slot j.
fn toggle_at(changes: &[u32], j: usize) -> Toggle
    requires changes_len { length changes.now ≡ toggle_numbers }
    requires j_lt_character_slots { j < character_slots }
    requires j_value { toggle_in_range (toggle_at changes.now j) ≡ true }
    ensures { result ≡ toggle_at changes.now j }
{
    let target = memory::identifier(changes[j]);
    let stamp = changes[STAMPS + j];
    Toggle {
        sender: (stamp / 256) as u8,
        target,
        toggles: (stamp % 256) as u8,
    }
}

// Carries out each of the first m toggles in turn on the first n characters.
fn toggle_all<'a>(
    table: &'a Table,
    characters: &'a [u32],
    toggles: &mut [u8],
    n: usize,
    changes: &'a [u32],
    m: usize,
)
    requires characters_len { length characters.now ≡ character_numbers }
    requires toggles { Toggles (laid_as characters.now toggles.old n table.now) changes.now m }
    ensures { (g : Toggles (laid_as characters.now toggles.old n table.now) changes.now m)
        → Laid (laid_as characters.now toggles.new n table.now)
        (toggled_all g.characters g.toggles) }
{
    for j in 0..m {
        let toggle = toggle_at(changes, j);
        delivery::carry_toggle(table, characters, toggles, n, toggle);
    }
}

// Whether a later one of the first m toggles is the same as the one in slot j.
fn seen_later(changes: &[u32], m: usize, j: usize) -> bool
    requires changes_len { length changes.now ≡ toggle_numbers }
    requires m_le_character_slots { m ≤ character_slots }
    requires j_lt_m { j < m }
    ensures { (ts : List Toggle) (t : Toggle) → Among changes.now m ts
        → result ≡ any (same_toggle (get_or ts j t)) (drop (j + 1) ts) }
{
    let target = changes[j];
    let stamp = changes[STAMPS + j];
    for i in j + 1..m {
        if index::both(stamp == changes[STAMPS + i], target == changes[i]) {
            return true;
        }
    }
    false
}

// Whether the target of the toggle in slot j is not among the first n characters, and no later toggle is the same: of
// repeats the last is counted.
fn is_absent<'a>(
    table: &'a Table,
    characters: &'a [u32],
    n: usize,
    changes: &'a [u32],
    m: usize,
    j: usize,
) -> bool
    requires n_le_character_slots { n ≤ character_slots }
    requires characters_len { length characters.now ≡ character_numbers }
    requires tabled { Tabled table.now (take n (key_column characters.now)) }
    requires changes_len { length changes.now ≡ toggle_numbers }
    requires m_le_character_slots { m ≤ character_slots }
    requires j_lt_m { j < m }
    ensures { (cs : List Character) (ts : List Toggle) (t : Toggle)
        → take n (key_column characters.now) ≡ keys cs → AllSmall cs → Among changes.now m ts
        → result ≡ not (held cs (get_or ts j t).target || any (same_toggle (get_or ts j t)) (drop (j + 1) ts)) }
{
    if ready::is_held(table, &characters[..n], changes[j]) {
        return false;
    }
    !seen_later(changes, m, j)
}

// How many of the first m toggles have no target among the first n characters, repeats counted once.
fn count_absent<'a>(
    table: &'a Table,
    characters: &'a [u32],
    n: usize,
    changes: &'a [u32],
    m: usize,
) -> usize
    requires n_le_character_slots { n ≤ character_slots }
    requires characters_len { length characters.now ≡ character_numbers }
    requires tabled { Tabled table.now (take n (key_column characters.now)) }
    requires changes_len { length changes.now ≡ toggle_numbers }
    requires m_le_character_slots { m ≤ character_slots }
    ensures value { (cs : List Character) (ts : List Toggle) → take n (key_column characters.now) ≡ keys cs
        → AllSmall cs → Among changes.now m ts → result ≡ absentees cs ts }
    ensures upper_bound { result ≤ m }
{
    let mut absent = 0;
    for j in 0..m {
        if is_absent(table, characters, n, changes, m, j) {
            absent += 1;
        }
    }
    absent
}

// A refusal: nothing is built.
fn refused(refusal: Refusal) -> Built
    ensures { result ≡ returned (unbuilt (Answer.Refused refusal)) }
{
    let answer = Answer::Refused(refusal);
    let replica = Replica::empty(0);
    Built { answer, replica }
}

// Builds the replica of a site from the first m inserts, none of which has the identifier of another, and the first l
// toggles. What is left out are the inserts that were not placed, and the toggles whose target is not held.
fn assemble(site: Site, inserts: &mut [u32], m: usize, changes: &[u32], l: usize) -> Built
    requires { Assembles inserts.old m changes.now l }
    ensures { (a : Assembles inserts.old m changes.now l)
        → result ≡ assembled site a.inserts a.toggles }
{
    let mut replica = Replica::empty(site.number);
    let mut characters = replica.document.characters;
    let mut toggles = replica.document.toggles;
    let mut table = replica.document.table;
    let n = passes::place_all(&mut characters, &mut toggles, &mut table, inserts, 0, m);
    let absent = count_absent(&table, &characters, n, changes, l);
    toggle_all(&table, &characters, &mut toggles, n, changes, l);
    let answer = Answer::Done {
        integrated: 0,
        discarded: m - n + absent,
    };
    let pending = replica.document.pending;
    let document = Document {
        characters,
        toggles,
        length: n,
        pending,
        waiting: 0,
        table,
    };
    replica.site = site;
    replica.document = document;
    Built { answer, replica }
}

// Builds the replica of a number from the first m inserts and the first l toggles of a heap. Its clock hears of every
// insert, also of those that are left out.
fn build_gathered(number: u8, inserts: &mut [u32], m: usize, changes: &[u32], l: usize) -> Built
    requires { Gathers inserts.old m changes.now l }
    ensures { (g : Gathers inserts.old m changes.now l)
        → result ≡ returned (outcome_of number g.operations) }
{
    let site = clock::heard_keys(Site { number, clock: 0 }, inserts, m);
    let mut table = Table {
        heads: [0; CHAINS],
        links: [0; LINKS],
    };
    match sifting::keep_once(inserts, m, &mut table) {
        Some(count) => assemble(site, inserts, count, changes, l),
        None => refused(Refusal::Conflict),
    }
}

// Whether a number is one of a site.
fn is_site(number: u64) -> bool
    ensures { result ≡ site_number number }
{
    matches!(number, 1..=16)
}

// What is known of a heap once it is read: why it is refused, or that its operations are in range and the arrays have
// slots for them.
#[tactic(auto, unfolding(crate::specs::Assembly::judged))]
fn judge(number: u64, gathered: Gathered) -> Result<(), Refusal>
    ensures { result ≡ judged number gathered }
{
    if !gathered.laid_out {
        return Err(Refusal::Layout);
    }
    if !is_site(number) || !gathered.in_range {
        return Err(Refusal::Range);
    }
    if CHARACTERS < gathered.inserts || CHARACTERS < gathered.toggles {
        return Err(Refusal::HeapFull);
    }
    Ok(())
}

// Builds a replica from a heap of operations, as lines in any order, and a number. (Document 02, Req 08: building the
// rows from the whole heap.)
pub fn build(number: u64, heap: &[u8]) -> Built
    ensures { result ≡ built_by number heap.now }
{
    let mut inserts = [0u32; CHARACTER_NUMBERS];
    let mut changes = [0u32; TOGGLE_NUMBERS];
    let gathered = gathering::gather(heap, &mut inserts, &mut changes);
    match judge(number, gathered) {
        Err(refusal) => refused(refusal),
        Ok(()) => build_gathered(
            number as u8,
            &mut inserts,
            gathered.inserts,
            &changes,
            gathered.toggles,
        ),
    }
}
