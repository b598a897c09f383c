// What release and scratch do after the lookup: the data set's tracks counted and given back, its slots freed, the change planned; where it
// fits, the data set is cut or taken out. Its extents are read where they stand, in the table.
#![tactic(auto)]

ghost use Rattle.std.specs.Prelude.{◌≡◌, ℕ, ◌*◌, ◌/◌, ◌≤◌, ◌<◌, ◌+◌, List, [], ◌++◌, length, take, leb};
ghost use Rattle.model.specs.Model.{slots, tracks, Extent, overs, total};
ghost use Rattle.model.specs.Tracks.{tracks_kept, tracks_of};
ghost use Rattle.dscb.specs.Forms.{geometry_of};
ghost use Rattle.dscb.specs.Records.{slot_bytes};
ghost use Rattle.set_extents.specs.Change.{GaveTail, SetIn, Stays, part_of};
ghost use Rattle.free_space.specs.Giving.{At, FreedSlot, Measures, measured_extents};
ghost use Rattle.rules.specs.Calls.{good_ttr, release_set, remove_set};
ghost use Rattle.rules.specs.Entries.{lent, result_of, written};
ghost use Rattle.refusals.specs.Numbers.{number_of};
ghost use Rattle.free_space.specs.Shorter.{CutPlanning, Shortens};
ghost use Rattle.free_space.specs.Going.{GoingPlanning};
ghost use Rattle.free_space.specs.Deciding.{Decides, ForeseesAt, release_of};

use dscb::Geometry;
use dscb::places::*;
use refusals::Refusal;
use set_extents::Kept;
use update::{Home, Plan};

// A data set: the slots of its format 1 and its format 3, 0 for none, its unit, how many extents it has, its tracks and the lowest
// of them.
#[derive(Clone, Copy)]
pub struct Measured {
    pub slot: usize,
    pub slot3: usize,
    pub unit: u8,
    pub count: usize,
    pub tracks: u32,
    pub lowest: u32,
}

// The data set whose format 1 is in slot k. Without a format 3 the record in slot 0 serves as one: no extent is read from it.
pub fn measure(table: &[u8], g: Geometry, k: usize) -> Measured
    requires limits { (length table.now ≡ 140 * slots (geometry_of g)) × (k < slots (geometry_of g)) }
    requires by_index { (m : List ℕ) × (s : List ℕ) × At (geometry_of g) table.now m s k }
    ensures { ((m s : List ℕ) (d : At (geometry_of g) table.now m s k) → Measures (geometry_of g) table.now k d.it.label result) }
{
    let f1 = dscb::record_at(table, k);
    let slot3 = dscb::link(f1, g);
    let f3 = dscb::record_at(table, slot3);
    let count = usize::from(f1[DS1NOEPV]);
    let x = set_extents::spread_of(f1, f3, count, g);
    Measured {
        slot: k,
        slot3,
        unit: f1[DS1SCALO],
        count,
        tracks: x.all,
        lowest: x.lowest,
    }
}

// How many tracks of the data set stay where the block TTR is its last.
pub fn kept_of(table: &[u8], g: Geometry, x: Measured, ttr: u32) -> u32
    requires table_len { (length table.now ≡ 140 * slots (geometry_of g)) × (x.slot < slots (geometry_of g)) × (x.slot3 < slots (geometry_of g)) × (ttr / 256 + 1 ≤ total (overs (measured_extents (geometry_of g) table.now x))) }
    requires set_in { SetIn (geometry_of g) (slot_bytes table.now x.slot) (slot_bytes table.now x.slot3) x.count }
    ensures { result ≡ tracks_kept g.heads x.unit ttr (tracks_of (overs (measured_extents (geometry_of g) table.now x))) }
{
    let f1 = dscb::record_at(table, x.slot);
    let f3 = dscb::record_at(table, x.slot3);
    set_extents::tracks_kept(f1, f3, x.count, g, x.unit, ttr)
}

// Makes free the tracks behind the first `keep` of the data set, and tells what stays of it.
pub fn give_back(table: &[u8], g: Geometry, x: Measured, keep: u32, free_tracks: &mut [u64]) -> Kept
    requires table_len { (length table.now ≡ 140 * slots (geometry_of g)) × (x.slot < slots (geometry_of g)) × (x.slot3 < slots (geometry_of g)) × (tracks (geometry_of g) ≤ 64 * length free_tracks.old) }
    requires set_in { SetIn (geometry_of g) (slot_bytes table.now x.slot) (slot_bytes table.now x.slot3) x.count }
    ensures { GaveTail keep (measured_extents (geometry_of g) table.now x) free_tracks.old free_tracks.new × Stays x.unit keep (measured_extents (geometry_of g) table.now x) (tracks (geometry_of g)) result.whole result.type_byte result.start result.count }
{
    let f1 = dscb::record_at(table, x.slot);
    let f3 = dscb::record_at(table, x.slot3);
    set_extents::give_tail(f1, f3, x.count, g, x.unit, keep, free_tracks)
}

// Makes slot k free in the map of slots; 0 is none.
pub fn free_slot(free_slots: &mut [u64], k: usize)
    requires { (length free_slots.old ≡ 8) × (k < 512) }
    ensures { FreedSlot k free_slots.old free_slots.new }
{
    if k != 0 {
        let slot = k as u16;
        bitmap::give_range(free_slots, slot, slot + 1);
    }
}

// Whether a data set with so many tracks may end with the block TTR.
fn good_ttr(ttr: u32, all: u32) -> bool
    ensures { result ≡ good_ttr ttr all }
{
    ttr < 16777216 && ttr / 256 < all && (ttr % 256 >= 1 || ttr / 256 == 0)
}

// Whether no more than three extents stay: then the format 3 is freed.
fn few_stay(k: Kept) -> bool
    ensures { ((es : List Extent) → k.whole ≤ length es → result ≡ leb (length (take k.whole es ++ part_of k.type_byte k.start k.count)) 3) }
{
    k.whole <= if k.count == 0 { 3 } else { 2 }
}

// What stays of a data set, whether that needs no format 3, and the plan.
#[derive(Clone, Copy)]
pub struct Cut {
    pub kept: Kept,
    pub few: bool,
    pub plan: Plan,
}

// Plans that the first `keep` tracks of a data set stay. A format 3 that goes is free before new format 5s are placed. There is no
// plan where too few slots are free.
pub fn plan_release(
    table: &[u8],
    g: Geometry,
    free_tracks: &mut [u64],
    free_slots: &mut [u64],
    chain: &mut [u16],
    set: Measured,
    keep: u32,
) -> Option<Cut>
    requires limits { (length table.now ≡ 140 * slots (geometry_of g)) × (tracks (geometry_of g) ≤ 64 * length free_tracks.old) × (length free_slots.old ≡ 8) × (length chain.old ≡ 468) × (set.slot < slots (geometry_of g)) × (set.slot3 < slots (geometry_of g)) }
    requires set_in { SetIn (geometry_of g) (slot_bytes table.now set.slot) (slot_bytes table.now set.slot3) set.count }
    ensures { CutPlanning (geometry_of g) table.now free_tracks.old free_tracks.new free_slots.old free_slots.new chain.new set keep result }
{
    let kept = give_back(table, g, set, keep, free_tracks);
    let few = few_stay(kept);
    free_slot(free_slots, update::if_few(few, set.slot3));
    let asked = update::asked_for(set.slot, set.slot3, few);
    let lo = set.lowest as usize;
    let plan = update::plan_slots(table, g, free_tracks, free_slots, chain, asked, lo)?;
    Some(Cut { kept, few, plan })
}

// Makes the records of a data set those of what stays of it, with TTR as its last block.
fn cut_set(f1: &mut [u8; 140], f3: &mut [u8; 140], g: Geometry, kept: Kept, ttr: u32)
    requires { (length f1.old ≡ 140) × (length f3.old ≡ 140) × (kept.whole ≤ 16) × (1 ≤ kept.count → kept.whole < 16) × (kept.start + kept.count ≤ 65535) × (ttr < 16777216) }
    ensures { Shortens (geometry_of g) ttr kept.whole kept.type_byte kept.start kept.count f1.old f3.old f1.new f3.new }
{
    set_extents::cut_records(f1, f3, g, kept);
    dscb_write::set_ttr(f1, ttr);
}

// What is decided of a release that is not refused: the data set, and what stays of it with a plan.
#[derive(Clone, Copy)]
pub struct Decision {
    pub set: Measured,
    pub cut: Cut,
}

// Decides what the data set in slot k gives back behind the block TTR: refused with 11 or 12, or the answer is there. The table is only
// read: a preview ends here, and its call has only to write.
pub fn decide(
    table: &[u8],
    g: Geometry,
    free_tracks: &mut [u64],
    free_slots: &mut [u64],
    chain: &mut [u16],
    k: usize,
    ttr: u32,
    answer: &mut [u8],
) -> Result<Decision, Refusal>
    requires limits { (length table.now ≡ 140 * slots (geometry_of g)) × (tracks (geometry_of g) ≤ 64 * length free_tracks.old) × (length free_slots.old ≡ 8) × (length chain.old ≡ 468) × (k < slots (geometry_of g)) × (length answer.old ≡ 24) }
    requires at { At (geometry_of g) table.now free_tracks.old free_slots.old k }
    ensures { ((d : At (geometry_of g) table.now free_tracks.old free_slots.old k) → Decides d ttr answer.old free_tracks.new chain.new answer.new result) }
{
    let set = measure(table, g, k);
    if !good_ttr(ttr, set.tracks) {
        return Err(Refusal::Ttr);
    }
    let keep = kept_of(table, g, set, ttr);
    let Some(cut) = plan_release(table, g, free_tracks, free_slots, chain, set, keep) else {
        return Err(Refusal::VtocFull);
    };
    answers::put_back(answer, set.tracks - keep);
    Ok(Decision { set, cut })
}

// Cuts the data set in slot k behind the block TTR and writes it: refused with 11 or 12.
pub fn release_set(
    table: &mut [u8],
    g: Geometry,
    free_tracks: &mut [u64],
    free_slots: &mut [u64],
    k: usize,
    ttr: u32,
    answer: &mut [u8],
) -> Result<(), Refusal>
    requires limits { (length table.old ≡ 140 * slots (geometry_of g)) × (tracks (geometry_of g) ≤ 64 * length free_tracks.old) × (length free_slots.old ≡ 8) × (k < slots (geometry_of g)) × (length answer.old ≡ 24) }
    requires at { At (geometry_of g) table.old free_tracks.old free_slots.old k }
    ensures { ((d : At (geometry_of g) table.old free_tracks.old free_slots.old k) → result_of (number_of result) (lent table.new answer.new []) ≡ written (lent table.old answer.old []) (release_set d.volume d.name ttr d.it.label)) }
{
    let mut chain = [0u16; 468];
    let Decision { set, cut } = decide(
        table,
        g,
        free_tracks,
        free_slots,
        &mut chain,
        k,
        ttr,
        answer,
    )?;
    let mut f1 = dscb_write::record_of(dscb::record_at(table, k));
    let mut f3 = data_set::third_record(table, set.slot3);
    cut_set(&mut f1, &mut f3, g, cut.kept, ttr);
    let home = Home {
        slot: set.slot,
        slot3: set.slot3,
        few: cut.few,
    };
    update::write_set(table, g, free_tracks, &chain, cut.plan, home, &mut f1, &f3);
    Ok(())
}

// The same without writing the table.
pub fn preview_release(
    table: &[u8],
    g: Geometry,
    free_tracks: &mut [u64],
    free_slots: &mut [u64],
    k: usize,
    ttr: u32,
    answer: &mut [u8],
) -> Result<(), Refusal>
    requires limits { (length table.now ≡ 140 * slots (geometry_of g)) × (tracks (geometry_of g) ≤ 64 * length free_tracks.old) × (length free_slots.old ≡ 8) × (k < slots (geometry_of g)) × (length answer.old ≡ 24) }
    requires at { At (geometry_of g) table.now free_tracks.old free_slots.old k }
    ensures { ((d : At (geometry_of g) table.now free_tracks.old free_slots.old k) → ForeseesAt d (release_of d ttr) answer.old (number_of result) answer.new) }
{
    let mut chain = [0u16; 468];
    decide(
        table,
        g,
        free_tracks,
        free_slots,
        &mut chain,
        k,
        ttr,
        answer,
    )?;
    Ok(())
}

// A data set that is to go, and the plan of what is left.
#[derive(Clone, Copy)]
pub struct Leaving {
    pub set: Measured,
    pub plan: Plan,
}

// Plans that the data set in slot k goes. Its tracks and slots are free before new format 5s are placed. There is no plan where too few
// slots are free.
pub fn plan_scratch(
    table: &[u8],
    g: Geometry,
    free_tracks: &mut [u64],
    free_slots: &mut [u64],
    chain: &mut [u16],
    k: usize,
) -> Option<Leaving>
    requires limits { (length table.now ≡ 140 * slots (geometry_of g)) × (tracks (geometry_of g) ≤ 64 * length free_tracks.old) × (length free_slots.old ≡ 8) × (length chain.old ≡ 468) × (k < slots (geometry_of g)) }
    requires at { At (geometry_of g) table.now free_tracks.old free_slots.old k }
    ensures { ((d : At (geometry_of g) table.now free_tracks.old free_slots.old k) → GoingPlanning (geometry_of g) table.now free_tracks.old free_tracks.new free_slots.old free_slots.new chain.new k d.it.label result) }
{
    let set = measure(table, g, k);
    give_back(table, g, set, 0, free_tracks);
    free_slot(free_slots, k);
    free_slot(free_slots, set.slot3);
    let lo = set.lowest as usize;
    let plan = update::plan_slots(table, g, free_tracks, free_slots, chain, 0, lo)?;
    Some(Leaving { set, plan })
}

// Takes out the data set in slot k: refused with 11 for a full VTOC.
pub fn scratch_set(
    table: &mut [u8],
    g: Geometry,
    free_tracks: &mut [u64],
    free_slots: &mut [u64],
    k: usize,
    answer: &mut [u8],
) -> Result<(), Refusal>
    requires limits { (length table.old ≡ 140 * slots (geometry_of g)) × (tracks (geometry_of g) ≤ 64 * length free_tracks.old) × (length free_slots.old ≡ 8) × (k < slots (geometry_of g)) × (length answer.old ≡ 24) }
    requires at { At (geometry_of g) table.old free_tracks.old free_slots.old k }
    ensures { ((d : At (geometry_of g) table.old free_tracks.old free_slots.old k) → result_of (number_of result) (lent table.new answer.new []) ≡ written (lent table.old answer.old []) (remove_set d.volume d.name d.it.label)) }
{
    let mut chain = [0u16; 468];
    let Some(Leaving { set, plan }) = plan_scratch(table, g, free_tracks, free_slots, &mut chain, k)
    else {
        return Err(Refusal::VtocFull);
    };
    update::write_drop(table, g, free_tracks, &chain, plan, set.slot, set.slot3);
    answers::put_back(answer, set.tracks);
    Ok(())
}

// The same without writing the table: the tracks of the data set, which never lacks a slot to go, so nothing refuses it.
pub fn preview_scratch(table: &[u8], g: Geometry, k: usize, answer: &mut [u8])
    requires limits { (length table.now ≡ 140 * slots (geometry_of g)) × (k < slots (geometry_of g)) × (length answer.old ≡ 24) }
    requires by_index { (m : List ℕ) × (s : List ℕ) × At (geometry_of g) table.now m s k }
    ensures { ((m s : List ℕ) (d : At (geometry_of g) table.now m s k) → ForeseesAt d (remove_set d.volume d.name d.it.label) answer.old 0 answer.new) }
{
    let gone = measure(table, g, k);
    answers::put_back(answer, gone.tracks);
}
