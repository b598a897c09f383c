// Scratch: a data set taken off the volume, if its expiry date lets it go.
#![tactic(auto)]

ghost use Rattle.std.specs.Prelude.{◌≡◌, ◌&&◌, ◌+◌, ◌*◌, ◌≤◌, eqb, length};
ghost use Rattle.model.specs.Basics.{part};
ghost use Rattle.rules.specs.Promises.{PreviewsScratch, Scratches};
ghost use Rattle.rules.specs.Dates.{later};
ghost use Rattle.dscb.specs.Records.{slot_bytes};
ghost use Rattle.refusals.specs.Numbers.{number_of};
ghost use Rattle.check_table.specs.Check.{Roomy};
ghost use Rattle.call_scratch.specs.Expired.{OpensExpired};

use dscb::places::*;
use open_table::SetOpening;
use refusals::Refusal;

// Whether the data set in slot k expires later than today, and no override was given.
fn unexpired(table: &[u8], k: usize, today: &[u8], overriding: u32) -> bool
    requires { (140 * k + 140 ≤ length table.now) × (length today.now ≡ 3) }
    ensures { result ≡ (later (part 56 3 (slot_bytes table.now k)) today.now && eqb overriding 0) }
{
    let rec = dscb::record_at(table, k);
    overriding == 0 && dates::is_later(&rec[DS1EXPDT..DS1EXPDT + 3], today)
}

// The table opened under the name, today's date read, the data set looked up and its own date compared: refused with 2, 3, 4, 14, 5 or
// 13. A preview ends here but for its answer.
fn open_expired(
    table: &[u8],
    name: &[u8],
    today: &[u8],
    overriding: u32,
    lengths: bool,
    free_tracks: &mut [u64],
    free_slots: &mut [u64],
) -> Result<SetOpening, Refusal>
    requires { Roomy table.now free_tracks.old × (length free_slots.old ≡ 8) }
    ensures { OpensExpired table.now name.now today.now overriding lengths free_tracks.new free_slots.new result }
{
    let geometry = open_table::open_named(table, name, lengths, free_tracks, free_slots)?.geometry;
    let Some(stored) = dates::to_stored(today) else {
        return Err(Refusal::Date);
    };
    let Some(slot) = open_table::look_up(table, geometry, name) else {
        return Err(Refusal::NotFound);
    };
    if unexpired(table, slot, &stored, overriding) {
        return Err(Refusal::Unexpired);
    }
    Ok(SetOpening { geometry, slot })
}

// The call with a map to work in.
fn scratch_in(
    table: &mut [u8],
    name: &[u8],
    today: &[u8],
    overriding: u32,
    answer: &mut [u8],
    free_tracks: &mut [u64],
) -> Result<(), Refusal>
    requires { Roomy table.old free_tracks.old }
    ensures { Scratches table.old name.now today.now overriding answer.old (number_of result) table.new answer.new }
{
    let mut free_slots = [0u64; 8];
    let lengths = open_table::and_another(answer.len(), name.len(), today.len(), 4);
    let opened = open_expired(
        table,
        name,
        today,
        overriding,
        lengths,
        free_tracks,
        &mut free_slots,
    )?;
    free_space::scratch_set(
        table,
        opened.geometry,
        free_tracks,
        &mut free_slots,
        opened.slot,
        answer,
    )
}

// The call. A small volume has a small map: to fill the large one would be much of the call's time.
pub fn scratch(
    table: &mut [u8],
    name: &[u8],
    today: &[u8],
    overriding: u32,
    answer: &mut [u8],
) -> Result<(), Refusal>
    ensures { Scratches table.old name.now today.now overriding answer.old (number_of result) table.new answer.new }
{
    if open_table::is_small(table) {
        let mut free_tracks = [u64::MAX; 64];
        return scratch_in(table, name, today, overriding, answer, &mut free_tracks);
    }
    let mut free_tracks = [u64::MAX; 1024];
    scratch_in(table, name, today, overriding, answer, &mut free_tracks)
}

// ---- the preview: the call without the writing

// The preview with a map to work in.
fn preview_in(
    table: &[u8],
    name: &[u8],
    today: &[u8],
    overriding: u32,
    answer: &mut [u8],
    free_tracks: &mut [u64],
) -> Result<(), Refusal>
    requires { Roomy table.now free_tracks.old }
    ensures { PreviewsScratch table.now name.now today.now overriding answer.old (number_of result) answer.new }
{
    let mut free_slots = [0u64; 8];
    let lengths = open_table::and_another(answer.len(), name.len(), today.len(), 4);
    let opened = open_expired(
        table,
        name,
        today,
        overriding,
        lengths,
        free_tracks,
        &mut free_slots,
    )?;
    free_space::preview_scratch(table, opened.geometry, opened.slot, answer);
    Ok(())
}

// The preview.
pub fn preview(
    table: &[u8],
    name: &[u8],
    today: &[u8],
    overriding: u32,
    answer: &mut [u8],
) -> Result<(), Refusal>
    ensures { PreviewsScratch table.now name.now today.now overriding answer.old (number_of result) answer.new }
{
    if open_table::is_small(table) {
        let mut free_tracks = [u64::MAX; 64];
        return preview_in(table, name, today, overriding, answer, &mut free_tracks);
    }
    let mut free_tracks = [u64::MAX; 1024];
    preview_in(table, name, today, overriding, answer, &mut free_tracks)
}
