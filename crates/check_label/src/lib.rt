// Data sets' labels in a table: whether a format 1, with its format 3, is as the layout says, and its tracks and slots taken
// out of the maps of free ones.
#![tactic(auto)]

ghost use Rattle.std.specs.Prelude.{◌≡◌, List, ℕ, ◌-◌, ◌*◌, ◌≤◌, ◌<◌, length};
ghost use Rattle.model.specs.Model.{slots, tracks};
ghost use Rattle.dscb.specs.Forms.{geometry_of};
ghost use Rattle.check_label.specs.Label.{few_shape, shape_of, third_shape, unused_ok};
ghost use Rattle.check_label.specs.Marks.{AtLabel, TookLabel, TookSlots, TookTen, TookTested};

use dscb::Geometry;
use dscb::places::*;

// Whether the extents from number n on are zeros, where n is above 3: rows of the format 3, before and behind its id. Whatever the
// format 1 is, none of them is in it.
fn unused_ok(f3: &[u8], n: usize) -> bool
    requires { (length f3.now ≡ 140) × (3 < n) × (n ≤ 16) }
    ensures { (f1 : List ℕ) → length f1 ≡ 140 → result ≡ unused_ok f1 f3.now n (16 - n) }
{
    if n >= 7 {
        let at = DS3ADEXT + 10 * (n - 7);
        return rows::all_are(&f3[at..DS3PTRDS], 0);
    }
    let at = DS3EXTNT + 10 * (n - 3);
    rows::all_are(&f3[at..DS3FMTID], 0) && rows::all_are(&f3[DS3ADEXT..DS3PTRDS], 0)
}

// Whether a format 1 of n extents, 3 at most, has zeros behind them and no link: one row of zeros, to the record's end.
fn few_ok(f1: &[u8], n: usize) -> bool
    requires { (length f1.now ≡ 140) × (n ≤ 3) }
    ensures { result ≡ few_shape f1.now n }
{
    let at = DS1EXT1 + 10 * n;
    rows::all_are(&f1[at..], 0)
}

// The slot of the format 3 of a format 1 of n extents, more than 3, where it has zeros behind them.
fn third_of(table: &[u8], f1: &[u8], n: usize, g: Geometry) -> Option<usize>
    requires { (length f1.now ≡ 140) × (3 < n) × (n ≤ 16) × (140 * slots (geometry_of g) ≤ length table.now) }
    ensures { result ≡ third_shape (geometry_of g) table.now f1.now n }
{
    let q = dscb::link(f1, g);
    if q == 0 {
        return None;
    }
    let f3 = dscb::record_at(table, q);
    (dscb::three_ok(f3) && unused_ok(f3, n)).then_some(q)
}

// Where the label in slot k is good but for the extents in use, the slot of its format 3, 0 for none; that slot k has a format 1 is known.
fn shape_of(table: &[u8], k: usize, g: Geometry) -> Option<usize>
    requires { (k < slots (geometry_of g)) × (140 * slots (geometry_of g) ≤ length table.now) }
    ensures { result ≡ shape_of (geometry_of g) table.now k }
{
    let f1 = dscb::record_at(table, k);
    if !dscb::one_ok(f1) {
        return None;
    }
    let n = usize::from(f1[DS1NOEPV]);
    if n <= 3 {
        few_ok(f1, n).then_some(0)
    } else {
        third_of(table, f1, n, g)
    }
}

// Tests extent number e, the ten bytes x, and takes it out of the map of free tracks: false if it is not good, or if a track
// of it was not free.
fn take_extent(x: &[u8], e: usize, g: Geometry, free_tracks: &mut [u64]) -> bool
    requires { (length x.now ≡ 10) × (e < 16) × (tracks (geometry_of g) ≤ 64 * length free_tracks.old) }
    ensures { TookTen (geometry_of g) e x.now free_tracks.old free_tracks.new result }
{
    if !dscb::good_ten(x, e as u32, g) {
        return false;
    }
    let first = dscb::track_at(x, 2, g.heads);
    let end = dscb::track_at(x, 6, g.heads) + 1;
    bitmap::take_range(free_tracks, first, end)
}

// Tests the first n extents of a label and takes them out of the map of free tracks, in one pass.
fn take_extents(f1: &[u8], f3: &[u8], n: usize, g: Geometry, free_tracks: &mut [u64]) -> bool
    requires { (length f1.now ≡ 140) × (length f3.now ≡ 140) × (n ≤ 16) × (tracks (geometry_of g) ≤ 64 * length free_tracks.old) }
    ensures { TookTested (geometry_of g) f1.now f3.now n free_tracks.old free_tracks.new result }
{
    for e in 0..n {
        if !take_extent(dscb::extent_part(f1, f3, e), e, g, free_tracks) {
            return false;
        }
    }
    true
}

// Takes slot k, and slot q where it is not 0, out of the map of free slots: false if one was not free.
fn take_slots(free_slots: &mut [u64], k: usize, q: usize) -> bool
    requires { (1 ≤ k) × (k < 512) × (q < 512) × (length free_slots.old ≡ 8) }
    ensures { TookSlots k q free_slots.old free_slots.new result }
{
    let slot = k as u16;
    let slot3 = q as u16;
    bitmap::take_range(free_slots, slot, slot + 1)
        && (q == 0 || bitmap::take_range(free_slots, slot3, slot3 + 1))
}

// Tests the label in slot k and takes its slots and tracks out of the maps: false if it is not as the layout says, or if a
// slot or a track of it was not free. That the slot has a format 1 is known.
pub fn take_label(
    table: &[u8],
    k: usize,
    g: Geometry,
    free_tracks: &mut [u64],
    free_slots: &mut [u64],
) -> bool
    requires { AtLabel (geometry_of g) table.now k × (tracks (geometry_of g) ≤ 64 * length free_tracks.old) × (length free_slots.old ≡ 8) }
    ensures { TookLabel (geometry_of g) table.now k free_tracks.old free_tracks.new free_slots.old free_slots.new result }
{
    let Some(q) = shape_of(table, k, g) else {
        return false;
    };
    if !take_slots(free_slots, k, q) {
        return false;
    }
    let f1 = dscb::record_at(table, k);
    let f3 = dscb::record_at(table, q);
    let n = usize::from(f1[DS1NOEPV]);
    take_extents(f1, f3, n, g, free_tracks)
}
