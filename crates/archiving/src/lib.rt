// The archive of a saved replica, its rows by rising identifier, and the way back. (Document 02, Req 10.)
#![tactic(auto)]

ghost use Rattle.std.specs.Prelude.{◌≡◌, true, [], ◌≤◌, length, take};
ghost use Rattle.woot.specs.State.{State};
ghost use Rattle.woot.specs.Form.{all_in_range, well_formed};
ghost use Rattle.woot.specs.Memory.{character_numbers, character_slots, pending_numbers, pending_slots};
ghost use Rattle.woot.specs.Writing.{written_as, output_after};
ghost use Rattle.bulk.specs.Archiving.{archive_of};
ghost use Rattle.saved.specs.Archive.{archive_bytes, archive_written, archive_out, unarchive_written, unarchive_out};
ghost use Rattle.arranging.specs.Order.{Leads};
ghost use Rattle.archiving.specs.Holding.{StateHeld, led, Answered};

use answers::Refusal;
use saved::{Rows, Version};
use woot::{CHAINS, CHARACTER_NUMBERS, CHARACTERS, LINKS, PENDING_NUMBERS, Site, Table};

// Whether the state that the arrays hold is in form. One that has more than they hold is not.
fn has_form<'a>(
    site: Site,
    characters: &'a [u32],
    toggles: &'a [u8],
    n: usize,
    pending: &'a [u32],
    w: usize,
) -> bool
    requires characters_len { length characters.now ≡ character_numbers }
    requires toggles_len { length toggles.now ≡ character_slots }
    requires pending_len { length pending.now ≡ pending_numbers }
    ensures value { (s : State) → StateHeld s site characters.now toggles.now n
        pending.now w → all_in_range s ≡ true → result ≡ well_formed s }
    ensures n_le_character_slots { result ≡ true → n ≤ character_slots }
    ensures w_le_pending_slots { result ≡ true → w ≤ pending_slots }
{
    let mut table = Table {
        heads: [0; CHAINS],
        links: [0; LINKS],
    };
    chains::enter_all(characters, index::lesser(n, CHARACTERS), &mut table);
    well_formed::check(site, characters, toggles, n, pending, w, &table)
}

// Writes the archive of the state that the arrays hold, which is in form.
fn put_archived<'a>(
    site: Site,
    characters: &'a [u32],
    toggles: &'a [u8],
    n: usize,
    pending: &'a [u32],
    w: usize,
    out: &mut [u8],
) -> Result<usize, Refusal>
    requires characters_len { length characters.now ≡ character_numbers }
    requires toggles_len { length toggles.now ≡ character_slots }
    requires n_le_character_slots { n ≤ character_slots }
    requires pending_len { length pending.now ≡ pending_numbers }
    requires w_le_pending_slots { w ≤ pending_slots }
    ensures value { (s : State) → StateHeld s site characters.now toggles.now n
        pending.now w → well_formed s ≡ true
        → result ≡ written_as [] (archive_bytes (archive_of s)) out.old }
    ensures out_after { (s : State) → StateHeld s site characters.now toggles.now n
        pending.now w → well_formed s ≡ true
        → out.new ≡ output_after [] (archive_bytes (archive_of s)) out.old }
{
    let mut places = [0u32; CHARACTERS];
    arranging::sequence(characters, n, &mut places);
    let mut moved = [0u32; CHARACTER_NUMBERS];
    let mut moved_toggles = [0u8; CHARACTERS];
    arranging::gather(
        characters,
        toggles,
        &places,
        n,
        &mut moved,
        &mut moved_toggles,
    );
    saving::put_archive(site, &places, &moved, &moved_toggles, n, pending, w, out)
}

// Writes the saved replica of the characters in an order, where they are in form in that order.
fn put_back<'a>(
    site: Site,
    characters: &'a [u32],
    toggles: &'a [u8],
    order: &'a [u32],
    n: usize,
    pending: &'a [u32],
    w: usize,
    out: &mut [u8],
) -> Result<usize, Refusal>
    requires characters_len { length characters.now ≡ character_numbers }
    requires toggles_len { length toggles.now ≡ character_slots }
    requires n_in_bounds { n ≤ length order.now }
    requires n_le_character_slots { n ≤ character_slots }
    requires leads { Leads order.now n n }
    requires pending_len { length pending.now ≡ pending_numbers }
    ensures { (s : State) → StateHeld s site characters.now toggles.now n
        pending.now w → all_in_range (led s (take n order.now)) ≡ true
        → Answered (led s (take n order.now)) out.old result out.new }
{
    let mut moved = [0u32; CHARACTER_NUMBERS];
    let mut moved_toggles = [0u8; CHARACTERS];
    arranging::gather(
        characters,
        toggles,
        order,
        n,
        &mut moved,
        &mut moved_toggles,
    );
    if !has_form(site, &moved, &moved_toggles, n, pending, w) {
        return Err(Refusal::Form);
    }
    saving::put_replica(
        Version::Second,
        site,
        &moved,
        &moved_toggles,
        n,
        pending,
        w,
        out,
    )
}

// Writes the archive of a saved replica, its clock as it was read. A refused call leaves every byte as it was.
pub fn archive(bytes: &[u8], out: &mut [u8]) -> Result<usize, Refusal>
    ensures value { result ≡ archive_written bytes.now out.old }
    ensures out_after { out.new ≡ archive_out bytes.now out.old }
{
    let mut places = [0u32; 1];
    let mut characters = [0u32; CHARACTER_NUMBERS];
    let mut toggles = [0u8; CHARACTERS];
    let mut pending = [0u32; PENDING_NUMBERS];
    let found = loading::read_lines(
        Rows::Saved(Version::Second),
        bytes,
        &mut places,
        &mut characters,
        &mut toggles,
        &mut pending,
    );
    let answer = found.answer;
    if let Err(reason) = answer {
        return Err(reason);
    }
    let site = found.site;
    let n = found.length;
    let w = found.waiting;
    if !has_form(site, &characters, &toggles, n, &pending, w) {
        return Err(Refusal::Form);
    }
    put_archived(site, &characters, &toggles, n, &pending, w, out)
}

// Writes the saved replica of an archive. Its rows are at their places before their form is looked at. A refused call
// leaves every byte as it was.
pub fn unarchive(bytes: &[u8], out: &mut [u8]) -> Result<usize, Refusal>
    ensures value { result ≡ unarchive_written bytes.now out.old }
    ensures out_after { out.new ≡ unarchive_out bytes.now out.old }
{
    let mut places = [0u32; CHARACTERS];
    let mut characters = [0u32; CHARACTER_NUMBERS];
    let mut toggles = [0u8; CHARACTERS];
    let mut pending = [0u32; PENDING_NUMBERS];
    let found = loading::read_lines(
        Rows::Archived,
        bytes,
        &mut places,
        &mut characters,
        &mut toggles,
        &mut pending,
    );
    let answer = found.answer;
    if let Err(reason) = answer {
        return Err(reason);
    }
    let site = found.site;
    let n = found.length;
    let mut order = [0u32; CHARACTERS];
    if !arranging::is_arranged(&characters, &places, n, &mut order) {
        return Err(Refusal::Misarranged);
    }
    put_back(
        site,
        &characters,
        &toggles,
        &order,
        n,
        &pending,
        found.waiting,
        out,
    )
}
