// Whether a table is taken: the test that stands before every call.
#![tactic(auto)]

ghost use Rattle.std.specs.Prelude.{◌≡◌, ◌*◌, ◌≤◌, ◌<◌, length, false};
ghost use Rattle.check_table.specs.Spare.{Spared, highest_slot};
ghost use Rattle.model.specs.Model.{slots, tracks};
ghost use Rattle.dscb.specs.Records.{slot_bytes};
ghost use Rattle.dscb.specs.Forms.{geometry_of};
ghost use Rattle.names.specs.Find.{is_label};
ghost use Rattle.check_table.specs.Labels.{Looked, LabelsTaken};
ghost use Rattle.rules.specs.Table.{good_length};
ghost use Rattle.bitmap.specs.Map.{AllFree};
ghost use Rattle.check_table.specs.Check.{Checked, Contents, MapsBegun, RestTold, Roomy};

use bitmap::*;
use dscb::places::*;
use dscb::{Geometry, *};
use rows::*;

// How many of the n slots of the table are free, if all these are zero. A turn goes on by a run and not by a slot; where no run is left,
// the last one sees no slot.
pub fn spare(table: &[u8], n: usize, free_slots: &[u64]) -> Option<usize>
    requires { (length table.now ≡ 140 * n) × (n ≤ 468) × (n ≤ 64 * length free_slots.now) }
    ensures { Spared table.now n free_slots.now result }
{
    let mut count: usize = 0;
    let mut at: usize = 0;
    while at < n {
        let free = bitmap::next_run(free_slots, at as u16, n as u16);
        let from = usize::from(free.from);
        let c = usize::from(free.to - free.from);
        if !rows::part_is(table, 140 * from, 140 * c, 0) {
            return None;
        }
        count += c;
        at = usize::from(free.to);
    }
    Some(count)
}

// The highest of the n slots that has a format 1; 0 where none has.
pub fn highest(table: &[u8], n: usize) -> usize
    requires { 140 * n ≤ length table.now }
    ensures { result ≡ highest_slot table.now n }
{
    for k in (0..n).rev() {
        let rec = dscb::record_at(table, k);
        if rec[DS1FMTID] == FORMAT1 {
            return k;
        }
    }
    0
}

// Looks at slot k: a label is tested and taken out of the maps, any other record is passed over.
fn look(
    table: &[u8],
    k: usize,
    g: Geometry,
    free_tracks: &mut [u64],
    free_slots: &mut [u64],
) -> bool
    requires { (length table.now ≡ 140 * slots (geometry_of g)) × (1 ≤ k) × (k < slots (geometry_of g)) × (tracks (geometry_of g) ≤ 64 * length free_tracks.old) × (length free_slots.old ≡ 8) }
    ensures { Looked (geometry_of g) table.now k free_tracks.old free_tracks.new free_slots.old free_slots.new result }
{
    let rec = dscb::record_at(table, k);
    if rec[DS1FMTID] != FORMAT1 {
        return true;
    }
    check_label::take_label(table, k, g, free_tracks, free_slots)
}

// Tests all labels and takes them out of the maps, and tests that their names differ. One pass does both: a second one would ask
// of each slot again whether it has a label, which a processor cannot foresee. Slot 0 has none. Not inlined: what the rest of the check
// keeps in registers would take them from the loop.
#[inline(never)]
pub fn take_labels(
    table: &[u8],
    g: Geometry,
    free_tracks: &mut [u64],
    free_slots: &mut [u64],
) -> bool
    requires { (length table.now ≡ 140 * slots (geometry_of g)) × (is_label (slot_bytes table.now 0) ≡ false) × (tracks (geometry_of g) ≤ 64 * length free_tracks.old) × (length free_slots.old ≡ 8) }
    ensures { LabelsTaken (geometry_of g) table.now (slots (geometry_of g)) free_tracks.old free_tracks.new free_slots.old free_slots.new result }
{
    let n = g.slots();
    let mut tags = [0u16; 468];
    let mut seen = [0u64; 64];
    for k in 1..n {
        if !look(table, k, g, free_tracks, free_slots)
            || !names::enter(table, k, &mut tags, &mut seen)
        {
            return false;
        }
    }
    true
}

// What the check tells of a table that is taken: its geometry, the number of its format 0s and the highest slot of a format 1, 0 for none.
#[derive(Clone, Copy)]
pub struct Verdict {
    pub geometry: Geometry,
    pub format0s: usize,
    pub highest: usize,
}

// Whether a table has a length that a table can have.
#[tactic(auto, unfolding(rules::specs::Table::good_length))]
pub fn good_length(table: &[u8]) -> bool
    ensures { result ≡ good_length table.now }
{
    table.len() % 140 == 0 && (3..=468).contains(&(table.len() / 140))
}

// Begins the maps of free tracks and free slots: the label track, the VTOC and slot 0 are not free. Every track is free in the map
// that is lent, as its caller made it: a map is filled once.
pub fn begin_maps(g: Geometry, free_tracks: &mut [u64], free_slots: &mut [u64])
    requires { AllFree free_tracks.old 0 (tracks (geometry_of g)) × (tracks (geometry_of g) ≤ 64 * length free_tracks.old) × (length free_slots.old ≡ 8) }
    ensures { MapsBegun (geometry_of g) free_tracks.old free_tracks.new free_slots.old free_slots.new }
{
    let end = g.vtoc_start + g.vtoc_tracks;
    let vtoc = bitmap::take_range(free_tracks, g.vtoc_start, end);
    let label = bitmap::take_range(free_tracks, 0, 1);
    bitmap::free_below(free_slots, g.slots() as u16);
    let first = bitmap::take_range(free_slots, 0, 1);
}

// What the check tells, if the slots that are still free are zero, and the format 4 tells of them and of the labels.
fn rest_ok(table: &[u8], g: Geometry, free_slots: &[u64]) -> Option<Verdict>
    requires { (length table.now ≡ 140 * slots (geometry_of g)) × (length free_slots.now ≡ 8) }
    ensures { RestTold (geometry_of g) table.now free_slots.now result }
{
    let n = g.slots();
    let format0s = spare(table, n, free_slots)?;
    let highest = highest(table, n);
    let made = dscb_write::four(g, highest, format0s);
    if !rows::same(&made, dscb::record_at(table, 0)) {
        return None;
    }
    Some(Verdict {
        geometry: g,
        format0s,
        highest,
    })
}

// What the check tells, if a table of geometry g holds what it must.
fn contents_ok(
    table: &[u8],
    g: Geometry,
    free_tracks: &mut [u64],
    free_slots: &mut [u64],
) -> Option<Verdict>
    requires { (length table.now ≡ 140 * slots (geometry_of g)) × (is_label (slot_bytes table.now 0) ≡ false) × AllFree free_tracks.old 0 (tracks (geometry_of g)) × (tracks (geometry_of g) ≤ 64 * length free_tracks.old) × (length free_slots.old ≡ 8) }
    ensures { Contents (geometry_of g) table.now free_tracks.old free_tracks.new free_slots.old free_slots.new result }
{
    begin_maps(g, free_tracks, free_slots);
    if !take_labels(table, g, free_tracks, free_slots)
        || !check_chain::take_chain(table, g, free_tracks, free_slots)
    {
        return None;
    }
    rest_ok(table, g, free_slots)
}

// What there is to tell of a table, if it is taken: then the maps show its free tracks and its free slots.
pub fn check(table: &[u8], free_tracks: &mut [u64], free_slots: &mut [u64]) -> Option<Verdict>
    requires { Roomy table.now free_tracks.old × (length free_slots.old ≡ 8) }
    ensures { Checked table.now free_tracks.old free_tracks.new free_slots.old free_slots.new result }
{
    if table.len() < 140 {
        return None;
    }
    let rec = dscb::record_at(table, 0);
    if rec[DS4IDFMT] != FORMAT4 {
        return None;
    }
    let g = Geometry::of_format4(rec)?;
    if table.len() != 140 * g.slots() {
        return None;
    }
    contents_ok(table, g, free_tracks, free_slots)
}
