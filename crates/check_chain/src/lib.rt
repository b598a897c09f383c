// The chain of format 5s in a table, held against the map of free tracks.
#![tactic(auto)]

ghost use Rattle.std.specs.Prelude.{◌≡◌, ◌*◌, ◌/◌, ◌%◌, ◌≤◌, ◌<◌, drop, length};
ghost use Rattle.model.specs.Basics.{part};
ghost use Rattle.model.specs.Model.{slots, tracks};
ghost use Rattle.bitmap.specs.Map.{free_bit, free_from};
ghost use Rattle.rows.specs.Words.{all_are};
ghost use Rattle.dscb.specs.Forms.{geometry_of};
ghost use Rattle.check_chain.specs.Chain.{ChainGone, Held};
ghost use Rattle.check_chain.specs.Entries.{HoldsRuns, Rows, entry_ok, link_ok};

use dscb::Geometry;
use dscb::places::*;

// What follows a format 5 in the chain: nothing, or the format 5 in the slot named, whose first free extents are those from the track on.
#[derive(Clone, Copy, Debug, PartialEq, Eq)]
enum Member {
    Last,
    Next { slot: usize, at: u16 },
}

// Whether the five bytes are the entry of the free extent of `count` tracks, which is not the whole volume of c cylinders, h tracks in each.
// It multiplies, since a division costs more; an entry with as many cylinders as the volume has is none, and the product of any other fits.
fn is_entry(x: &[u8], c: u16, h: u16, start: u16, count: u16) -> bool
    requires { (length x.now ≡ 5) × (c * h ≤ 65535) × (count < c * h) }
    ensures { result ≡ entry_ok h start count x.now }
{
    let whole = rows::two(x, 2);
    let odd = u16::from(x[4]);
    if odd >= h || whole >= c {
        return false;
    }
    rows::two(x, 0) == start && whole * h + odd == count
}

// Whether zeros follow from place p on: no run is left. By itself and not inlined, since its loops would take registers from the one over
// the entries, which turns far more often.
#[inline(never)]
fn none_from(x: &[u8], p: usize) -> bool
    requires { p ≤ length x.now }
    ensures { result ≡ all_are 0 (drop p x.now) }
{
    rows::all_are(&x[p..], 0)
}

// Whether the entries of x are the first runs of free tracks from track `at` on, and zeros where there are fewer: then the track from which
// the other runs go on. The label track is not free, so no run is the whole volume. Only a place goes through x: to count the entries
// besides costs more.
fn entries_are(x: &[u8], free_tracks: &[u64], n: u16, at: u16, g: Geometry) -> Option<u16>
    requires { (length x.now % 5 ≡ 0) × (at ≤ n) × (n ≤ 64 * length free_tracks.now) × (n ≤ tracks (geometry_of g)) × (free_bit free_tracks.now 0 ≡ 0) }
    ensures { Rows (geometry_of g) free_tracks.now n at (length x.now / 5) x.now result }
{
    let mut t = at;
    let mut seen = bitmap::rest_of(free_tracks, at, n);
    for p in (0..x.len()).step_by(5) {
        let free = bitmap::run_ahead(free_tracks, t, n, seen);
        if free.from >= n {
            return none_from(x, p).then_some(n);
        }
        let count = free.to - free.from;
        if !is_entry(&x[p..p + 5], g.cylinders, g.heads, free.from, count) {
            return None;
        }
        t = free.to;
        seen = free.rest;
    }
    Some(t)
}

// Whether the record is, but for its link, the format 5 of the first 26 runs of free tracks from track `at` on: then the track from which
// the other runs go on.
fn compare(rec: &[u8], free_tracks: &[u64], n: u16, at: u16, g: Geometry) -> Option<u16>
    requires { (length rec.now ≡ 140) × (at ≤ n) × (n ≤ 64 * length free_tracks.now) × (n ≤ tracks (geometry_of g)) × (free_bit free_tracks.now 0 ≡ 0) }
    ensures { HoldsRuns (geometry_of g) free_tracks.now n at rec.now result }
{
    if rec[DS5FMTID] != FORMAT5 || !rows::part_is(rec, 0, 4, 0x05) {
        return None;
    }
    let next = entries_are(&rec[DS5AVEXT..DS5FMTID], free_tracks, n, at, g)?;
    entries_are(&rec[DS5MAVET..DS5PTRDS], free_tracks, n, next, g)
}

// Whether the link of a format 5 is the address of a slot, or zeros where the slot is 0.
fn is_linked(rec: &[u8], slot: usize) -> bool
    requires { length rec.now ≡ 140 }
    ensures { result ≡ link_ok slot (part 135 5 rec.now) }
{
    slot != 0 || rows::part_is(rec, DS5PTRDS, 5, 0)
}

// Takes slot k out of the map of free slots. It must hold the free extents from track `at` on, as far as it has room,
// and name the next slot where there are more.
fn take_member(
    table: &[u8],
    k: usize,
    g: Geometry,
    free_tracks: &[u64],
    at: u16,
    free_slots: &mut [u64],
) -> Option<Member>
    requires { (length table.now ≡ 140 * slots (geometry_of g)) × (k < slots (geometry_of g)) × (at ≤ tracks (geometry_of g)) × (tracks (geometry_of g) ≤ 64 * length free_tracks.now) × (length free_slots.old ≡ 8) × (free_bit free_tracks.now 0 ≡ 0) }
    ensures { Held (geometry_of g) table.now free_tracks.now (free_from free_tracks.now (tracks (geometry_of g)) at) k free_slots.old free_slots.new result }
{
    let member = k as u16;
    if !bitmap::take_range(free_slots, member, member + 1) {
        return None;
    }
    let t = g.tracks();
    let rec = dscb::record_at(table, k);
    let at = compare(rec, free_tracks, t, at, g)?;
    if bitmap::next_run(free_tracks, at, t).from >= t {
        return rows::part_is(rec, DS5PTRDS, 5, 0).then_some(Member::Last);
    }
    let slot = dscb::link(rec, g);
    is_linked(rec, slot).then_some(Member::Next { slot, at })
}

// Whether the chain from slot 1 on holds the free extents that the map shows. Its slots leave the map of free slots. The records say where
// it goes on, so no range counts the turns.
pub fn take_chain(table: &[u8], g: Geometry, free_tracks: &[u64], free_slots: &mut [u64]) -> bool
    requires { (length table.now ≡ 140 * slots (geometry_of g)) × (tracks (geometry_of g) ≤ 64 * length free_tracks.now) × (length free_slots.old ≡ 8) × (free_bit free_tracks.now 0 ≡ 0) }
    ensures { ChainGone (geometry_of g) table.now (free_from free_tracks.now (tracks (geometry_of g)) 0) 1 free_slots.old free_slots.new result }
{
    let mut k = 1;
    let mut at = 0;
    loop {
        match take_member(table, k, g, free_tracks, at, free_slots) {
            None => return false,
            Some(Member::Last) => return true,
            Some(Member::Next { slot, at: behind }) => {
                k = slot;
                at = behind;
            }
        }
    }
}
