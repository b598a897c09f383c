// What each call but initialise does first: the lengths, the check of the table, the rule for names. What refuses a call here is told
// by one definition, `open_number`.
#![tactic(auto)]

ghost use Rattle.std.specs.Prelude.{◌≡◌, not, true, ◌&&◌, ◌*◌, ◌≤◌, ◌<◌, eqb, length};
ghost use Rattle.model.specs.Model.{slots, tracks};
ghost use Rattle.rules.specs.Reading.{read_geometry};
ghost use Rattle.rules.specs.Table.{good_name};
ghost use Rattle.dscb.specs.Records.{slot_bytes};
ghost use Rattle.names.specs.Find.{answer_of, find_slot, is_nothing};
ghost use Rattle.dscb.specs.Forms.{geometry_of};
ghost use Rattle.refusals.specs.Numbers.{number_of};
ghost use Rattle.check_table.specs.Check.{Roomy};
ghost use Rattle.open_table.specs.Opening.{Mapped, Opened, OpenedSet, name_refusal};

use check_table::Verdict;
use dscb::Geometry;
use dscb::places::*;
use refusals::Refusal;

// Whether the answer and a name have the lengths that they must have.
pub fn answer_and_name(answer: usize, name: usize) -> bool
    ensures { result ≡ (eqb answer 24 && eqb name 44) }
{
    answer == 24 && name == 44
}

// The same, and whether one more buffer has the length n.
pub fn and_another(answer: usize, name: usize, other: usize, n: usize) -> bool
    ensures { result ≡ (eqb answer 24 && (eqb name 44 && eqb other n)) }
{
    answer_and_name(answer, name) && other == n
}

// Whether the format 4 tells of so few tracks that 64 words are map enough. A call clears its map first, and 1,024 words, room
// for the largest volume, would be much of its time on a small one.
pub fn is_small(table: &[u8]) -> bool
    ensures { result ≡ true → tracks (read_geometry (slot_bytes table.now 0)) ≤ 4096 }
{
    if table.len() < 140 {
        return false;
    }
    let rec = dscb::record_at(table, 0);
    dscb::product_within(rows::two(rec, DS4DEVSZ), rows::two(rec, HEADS), 4096)
}

// Opens a table: refused with 2 for a wrong length, else with 3 where it is not taken; `lengths` tells whether the other buffers have
// theirs. The maps show the free tracks and slots where it is opened, and hold nothing of use where it is not.
pub fn open(
    table: &[u8],
    lengths: bool,
    free_tracks: &mut [u64],
    free_slots: &mut [u64],
) -> Result<Verdict, Refusal>
    requires { Roomy table.now free_tracks.old × (length free_slots.old ≡ 8) }
    ensures { Opened table.now lengths true result × Mapped table.now free_tracks.old free_tracks.new free_slots.old free_slots.new (number_of result) }
{
    if !lengths || !check_table::good_length(table) {
        return Err(Refusal::Length);
    }
    check_table::check(table, free_tracks, free_slots).ok_or(Refusal::Unsound)
}

// The same for a call that only reads: it needs no map when the table is taken.
pub fn open_to_read(table: &[u8], lengths: bool) -> Result<Verdict, Refusal>
    ensures { Opened table.now lengths true result }
{
    let mut free_slots = [0u64; 8];
    if is_small(table) {
        let mut free_tracks = [u64::MAX; 64];
        return open(table, lengths, &mut free_tracks, &mut free_slots);
    }
    let mut free_tracks = [u64::MAX; 1024];
    open(table, lengths, &mut free_tracks, &mut free_slots)
}

// Refuses a name that breaks the rule, with 4.
pub fn check_name(name: &[u8]) -> Result<(), Refusal>
    ensures { number_of result ≡ name_refusal (good_name name.now) }
{
    if !ebcdic::name_ok(name) {
        return Err(Refusal::Name);
    }
    Ok(())
}

// Opens a table under a name, for a call that changes a data set: refused with 2, 3 or 4.
pub fn open_named(
    table: &[u8],
    name: &[u8],
    lengths: bool,
    free_tracks: &mut [u64],
    free_slots: &mut [u64],
) -> Result<Verdict, Refusal>
    requires { Roomy table.now free_tracks.old × (length free_slots.old ≡ 8) }
    ensures { Opened table.now lengths (good_name name.now) result × Mapped table.now free_tracks.old free_tracks.new free_slots.old free_slots.new (number_of result) }
{
    let verdict = open(table, lengths, free_tracks, free_slots)?;
    check_name(name)?;
    Ok(verdict)
}

// The slot of the data set under this name, in a table of geometry g.
pub fn look_up(table: &[u8], g: Geometry, name: &[u8]) -> Option<usize>
    requires { length table.now ≡ 140 * slots (geometry_of g) }
    ensures { answer_of result ≡ find_slot table.now name.now (slots (geometry_of g)) }
{
    names::find(table, g.slots(), name)
}

// Whether a data set has this name, in a table of geometry g.
pub fn on_volume(table: &[u8], g: Geometry, name: &[u8]) -> bool
    requires { length table.now ≡ 140 * slots (geometry_of g) }
    ensures { result ≡ not (is_nothing (find_slot table.now name.now (slots (geometry_of g)))) }
{
    look_up(table, g, name).is_some()
}

// What a call on one data set is told: the table's geometry and the slot of the data set's format 1.
#[derive(Clone, Copy)]
pub struct SetOpening {
    pub geometry: Geometry,
    pub slot: usize,
}

// Opens a table under the name of a data set, which is looked up, for a call that changes it: refused with 2, 3, 4 or 5.
pub fn open_set(
    table: &[u8],
    name: &[u8],
    lengths: bool,
    free_tracks: &mut [u64],
    free_slots: &mut [u64],
) -> Result<SetOpening, Refusal>
    requires { Roomy table.now free_tracks.old × (length free_slots.old ≡ 8) }
    ensures { OpenedSet table.now lengths (good_name name.now) name.now free_tracks.old free_tracks.new free_slots.old free_slots.new result }
{
    let geometry = open_named(table, name, lengths, free_tracks, free_slots)?.geometry;
    let Some(slot) = look_up(table, geometry, name) else {
        return Err(Refusal::NotFound);
    };
    Ok(SetOpening { geometry, slot })
}
