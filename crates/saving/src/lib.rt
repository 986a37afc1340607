// Writing saved replicas and archives into a lent slice.
#![tactic(auto)]

pub mod columns;
pub mod numbered;
pub mod operations;
pub mod site_line;

ghost use Rattle.std.specs.Prelude.{◌≡◌, true, [], ◌≤◌, length};
ghost use Rattle.woot.specs.Writing.{written_as, output_after};
ghost use Rattle.woot.specs.Memory.{character_numbers, character_slots, meaning, pending_numbers, pending_slots};
ghost use Rattle.saved.specs.Format.{representable, bytes_as};
ghost use Rattle.saved.specs.Archive.{archive_bytes};
ghost use Rattle.saved.specs.Calls.{saved, saved_out};
ghost use Rattle.saving.specs.Documents.{state_in, archive_in};

use answers::Refusal;
use saved::{Rows, Version};
use woot::{Replica, Site};

// Internal step: writes the replica with these arrays, well formed or not, at the front of the slice. A refused call
// leaves every byte as it was. The calls lend arrays of these sizes, with a slot for each of the n characters and each
// of the w pending operations, and a form is asked for only of what it can say: the second says all, and `conversion`,
// which alone asks for the first, answers 15 before.
pub fn put_replica<'a>(
    version: Version,
    site: Site,
    characters: &'a [u32],
    toggles: &'a [u8],
    n: usize,
    pending: &'a [u32],
    w: usize,
    out: &mut [u8],
) -> Result<usize, Refusal>
    requires characters_len { length characters.now ≡ character_numbers }
    requires n_le_character_slots { n ≤ character_slots }
    requires n_in_bounds { n ≤ length toggles.now }
    requires pending_len { length pending.now ≡ pending_numbers }
    requires w_le_pending_slots { w ≤ pending_slots }
    requires w_value { representable version (state_in site characters.now toggles.now n pending.now w) ≡ true }
    ensures value { result
        ≡ written_as [] (bytes_as version (state_in site characters.now toggles.now n
        pending.now w)) out.old }
    ensures out_after { out.new
        ≡ output_after [] (bytes_as version (state_in site characters.now toggles.now n
        pending.now w)) out.old }
{
    columns::put_columns_with(
        Rows::Saved(version),
        site.number,
        site.clock,
        characters,
        characters,
        toggles,
        n,
        pending,
        w,
        out,
    )
}

// Internal step: writes a replica that is lent, well formed or not, at the front of the slice: the same, of its own
// arrays. Of the table nothing is asked.
pub fn write_replica(version: Version, replica: &Replica, out: &mut [u8]) -> Result<usize, Refusal>
    requires characters_len { length replica.now.document.characters ≡ character_numbers }
    requires length_le_character_slots { replica.now.document.length ≤ character_slots }
    requires length_in_bounds { replica.now.document.length ≤ length replica.now.document.toggles }
    requires pending_len { length replica.now.document.pending ≡ pending_numbers }
    requires waiting_le_pending_slots { replica.now.document.waiting ≤ pending_slots }
    requires version_value { representable version (meaning replica.now) ≡ true }
    ensures value { result ≡ written_as [] (bytes_as version (meaning replica.now)) out.old }
    ensures out_after { out.new ≡ output_after [] (bytes_as version (meaning replica.now)) out.old }
{
    let document = &replica.document;
    put_replica(
        version,
        replica.site,
        &document.characters,
        &document.toggles,
        document.length,
        &document.pending,
        document.waiting,
        out,
    )
}

// Internal step: writes the archive with these arrays, arranged or not, at the front of the slice. A refused call
// leaves every byte as it was. Beside the arrays of `put_replica` one is lent with the places of the characters.
pub fn put_archive<'a>(
    site: Site,
    places: &'a [u32],
    characters: &'a [u32],
    toggles: &'a [u8],
    n: usize,
    pending: &'a [u32],
    w: usize,
    out: &mut [u8],
) -> Result<usize, Refusal>
    requires n_in_bounds { n ≤ length places.now }
    requires characters_len { length characters.now ≡ character_numbers }
    requires n_le_character_slots { n ≤ character_slots }
    requires n_in_bounds_2 { n ≤ length toggles.now }
    requires pending_len { length pending.now ≡ pending_numbers }
    requires w_le_pending_slots { w ≤ pending_slots }
    ensures value { result
        ≡ written_as [] (archive_bytes (archive_in site places.now characters.now
        toggles.now n pending.now w)) out.old }
    ensures out_after { out.new
        ≡ output_after [] (archive_bytes (archive_in site places.now characters.now
        toggles.now n pending.now w)) out.old }
{
    columns::put_columns_with(
        Rows::Archived,
        site.number,
        site.clock,
        places,
        characters,
        toggles,
        n,
        pending,
        w,
        out,
    )
}

// Writes a saved replica at the front of the slice. A refused call leaves every byte as it was.
pub fn save(replica: Replica, out: &mut [u8]) -> Result<usize, Refusal>
    ensures value { result ≡ saved replica out.old }
    ensures out_after { out.new ≡ saved_out replica out.old }
{
    if !well_formed::is_well_formed(&replica) {
        return Err(Refusal::Form);
    }
    write_replica(Version::Second, &replica, out)
}
