// The slots that a change of data sets needs: format 5s that are no longer needed are freed from the chain's end, then the
// format 1, the format 3 and new format 5s take the lowest free slots. In the map of free slots a bit is set where a slot is
// free.
#![tactic(auto)]

ghost use Rattle.std.specs.Prelude.{◌≡◌, [], ◌∷◌, ◌*◌, ◌≤◌, ◌<◌, length, take};
ghost use Rattle.model.specs.Model.{fives_for, slots, total};
ghost use Rattle.model.specs.Predicates.{All};
ghost use Rattle.bitmap.specs.Map.{free_from};
ghost use Rattle.dscb.specs.Forms.{geometry_of};
ghost use Rattle.settle_slots.specs.Settling.{Chained, Gave, Lowest, SettlesIn};

use bitmap::*;
use dscb::Geometry;

// ---- the map of free slots

// How many of the n slots are free. A turn goes on by a run of them, so no range counts the turns.
pub fn count_free(free_slots: &[u64], n: usize) -> usize
    requires { (n ≤ 64 * length free_slots.now) × (n ≤ 65535) }
    ensures { (result ≡ total (free_from free_slots.now n 0)) × (result ≤ n) }
{
    let end = n as u16;
    let mut count = 0;
    let mut at = 0;
    while at < end {
        let free = bitmap::next_run(free_slots, at, end);
        count += usize::from(free.to - free.from);
        at = free.to;
    }
    count
}

// Takes the lowest free slot of n out of the map; n where there is none. An `Option` would be no plainer: `take_slots`, the caller,
// is for a map that has been counted, and would only put some number in the place of `None`.
pub fn take_lowest(free_slots: &mut [u64], n: usize) -> usize
    requires { (n ≤ 64 * length free_slots.old) × (n ≤ 65535) }
    ensures { Lowest n free_slots.old free_slots.new (result ∷ []) × (result ≤ n) }
{
    let free = bitmap::next_run(free_slots, 0, n as u16);
    let k = free.from;
    if usize::from(k) >= n {
        return n;
    }
    bitmap::take_range(free_slots, k, k + 1);
    usize::from(k)
}

// Fills the places with the lowest free slots of n, which leave the map.
pub fn take_slots(free_slots: &mut [u64], n: usize, places: &mut [u16])
    requires { (n ≤ 64 * length free_slots.old) × (n ≤ 65535) }
    ensures { Lowest n free_slots.old free_slots.new places.new × (length places.new ≡ length places.old) }
{
    for place in places {
        *place = take_lowest(free_slots, n) as u16;
    }
}

// Makes these slots free.
pub fn give_slots(free_slots: &mut [u64], slots: &[u16])
    requires { All (λ k. k < 64 * length free_slots.old) slots.now × (64 * length free_slots.old ≤ 65535) }
    ensures { Gave free_slots.old free_slots.new slots.now }
{
    for &k in slots {
        bitmap::give_range(free_slots, k, k + 1);
    }
}

// ---- the chain of format 5s

// How many format 5s hold f free extents: 26 to each, and one where there are none.
pub fn fives_for(f: usize) -> usize
    requires { f ≤ 65535 }
    ensures { result ≡ fives_for f }
{
    if f == 0 {
        return 1;
    }
    (f + 25) / 26
}

// Reads the slots of a table's chain, and how many they are. In a table that is not sound they are some slots of it.
pub fn read_chain(table: &[u8], g: Geometry, chain: &mut [u16]) -> usize
    requires { (length table.now ≡ 140 * slots (geometry_of g)) × (slots (geometry_of g) ≤ length chain.old) }
    ensures { Chained (geometry_of g) table.now chain.old chain.new result }
{
    let n = g.slots();
    let mut k = 1;
    for i in 0..n {
        if k == 0 {
            return i;
        }
        chain[i] = k as u16;
        let rec = dscb::record_at(table, k);
        k = dscb::link(rec, g);
    }
    n
}

// ---- settled

// Makes the chain of `was` slots one of `need`, and fills `given` with the slots that labels ask for, which come first. The result
// is how many slots are free then, or none where there are too few. More format 5s than slots are refused at once, since `chain`,
// a buffer for as many as a table can have, need not have room for them.
pub fn settle(
    free_slots: &mut [u64],
    n: usize,
    chain: &mut [u16],
    was: usize,
    need: usize,
    given: &mut [u16],
) -> Option<usize>
    requires { (n ≤ 468) × (n ≤ 64 * length free_slots.old) × (n ≤ length chain.old) × (was ≤ length chain.old) × (length given.old ≤ 2) × All (λ k. k < n) (take was chain.old) × (64 * length free_slots.old ≤ 65535) }
    ensures { SettlesIn n free_slots.old free_slots.new chain.old chain.new given.new was need (length given.old) result }
{
    if need > n {
        return None;
    }
    give_slots(free_slots, &chain[was.min(need)..was]);
    let added = need.saturating_sub(was);
    let more = given.len() + added;
    let count = count_free(free_slots, n);
    if more > count {
        return None;
    }
    take_slots(free_slots, n, given);
    take_slots(free_slots, n, &mut chain[was..was + added]);
    Some(count - more)
}
