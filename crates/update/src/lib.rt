// A change of one data set: the slots that it needs, planned (plan_slots only reads the table: there are enough, or the VTOC is full), and
// then all records written: freed slots cleared, the data set's records, the chain of format 5s, the format 4 last. What is
// written cannot be refused.
#![tactic(auto)]

ghost use Rattle.std.specs.Prelude.{◌≡◌, ◌+◌, ◌*◌, ◌≤◌, ◌<◌, drop, length, take, get_or, cond};
ghost use Rattle.std.proofs.Math.Seq.{slice};
ghost use Rattle.model.specs.Model.{Label, one_slot, slots, tracks};
ghost use Rattle.model.specs.Predicates.{All};
ghost use Rattle.rules.specs.Layout.{fives};
ghost use Rattle.bitmap.specs.Map.{free_from};
ghost use Rattle.dscb.specs.Forms.{geometry_of};
ghost use Rattle.dscb_write.specs.Labels.{Format1};
ghost use Rattle.update.specs.Writing.{Reached, chain_entry, cleared, fives_put, four_put, label_put};
ghost use Rattle.rules.specs.Slots.{asks, slot_or};
ghost use Rattle.update.specs.Commit.{Drops, Leaves, Planning, Puts, drafted, remains};

use dscb::Geometry;
use dscb::places::*;

// Puts zeros into these slots.
pub fn clear(table: &mut [u8], slots: &[u16])
    requires { All (λ k. 140 * k + 140 ≤ length table.old) slots.now }
    ensures { table.new ≡ cleared table.old slots.now }
{
    let zeros = [0u8; 140];
    for &k in slots {
        dscb::put_record(table, usize::from(k), &zeros);
    }
}

// Puts zeros into slot k, 0 for none.
pub fn clear_slot(table: &mut [u8], k: usize)
    requires { 140 * k + 140 ≤ length table.old }
    ensures { table.new ≡ cleared table.old (one_slot k) }
{
    if k == 0 {
        return;
    }
    let zeros = [0u8; 140];
    dscb::put_record(table, k, &zeros);
}

// Puts a label's format 1 into slot k, and its format 3 into slot q, 0 for none, to which the format 1 is linked.
pub fn put_label(
    table: &mut [u8],
    g: Geometry,
    k: usize,
    q: usize,
    f1: &mut [u8; 140],
    f3: &[u8; 140],
)
    requires { (length table.old ≡ 140 * slots (geometry_of g)) × (k < slots (geometry_of g)) × (q < slots (geometry_of g)) × (length f1.old ≡ 140) }
    ensures { (l : Label) → Format1 (geometry_of g) l f1.old → table.new ≡ label_put (geometry_of g) table.old k q l f3.now }
{
    dscb_write::set_link3(f1, g, q);
    dscb::put_record(table, k, f1);
    if q != 0 {
        dscb::put_record(table, q, f3);
    }
}

// Slot number i of a chain, 0 behind its end.
fn member(chain: &[u16], i: usize) -> usize
    ensures { result ≡ chain_entry chain.now i }
{
    chain.get(i).map_or(0, |&k| usize::from(k))
}

// Where a chain begins to be written: the number of the member, and the track whose free extents are the first there.
#[derive(Clone, Copy)]
pub struct Place {
    pub from: usize,
    pub at: usize,
}

// The last member of a chain whose first free extent starts at track `lo` or before: those before it tell of tracks below `lo`
// only. It reads two bytes of a member.
pub fn begin(table: &[u8], g: Geometry, chain: &[u16], lo: usize) -> Place
    requires { (length table.now ≡ 140 * slots (geometry_of g)) × All (λ k. k < slots (geometry_of g)) chain.now }
    ensures { Reached table.now chain.now lo result.from result.at }
{
    let mut place = Place { from: 0, at: 0 };
    for i in 1..chain.len() {
        let rec = dscb::record_at(table, usize::from(chain[i]));
        let start = usize::from(rows::two(rec, DS5AVEXT));
        if start > lo {
            return place;
        }
        place = Place { from: i, at: start };
    }
    place
}

// Puts the format 5s: the free extents that the map shows from track `start` on, into the slots of the chain.
pub fn put_chain(table: &mut [u8], g: Geometry, free_tracks: &[u64], chain: &[u16], start: usize)
    requires limits { (length table.old ≡ 140 * slots (geometry_of g)) × (tracks (geometry_of g) ≤ 64 * length free_tracks.now) }
    requires chain_inside { All (λ k. k < slots (geometry_of g)) chain.now × (start ≤ tracks (geometry_of g)) }
    ensures { table.new ≡ fives_put (geometry_of g) table.old (fives chain.now (free_from free_tracks.now (tracks (geometry_of g)) start)) }
{
    let t = g.tracks();
    let mut at = start as u16;
    for (i, &k) in chain.iter().enumerate() {
        let a = 140 * usize::from(k);
        let next = member(chain, i + 1);
        at = dscb_write::five(&mut table[a..a + 140], free_tracks, t, at, g, next);
    }
}

// Puts the format 4, which tells of the highest slot with a format 1 and of the number of format 0s.
pub fn put_four(table: &mut [u8], g: Geometry, format0s: usize)
    requires { (length table.old ≡ 140 * slots (geometry_of g)) × (format0s < 65536) }
    ensures { table.new ≡ four_put (geometry_of g) table.old format0s }
{
    let highest = check_table::highest(table, g.slots());
    let four = dscb_write::four(g, highest, format0s);
    dscb::put_record(table, 0, &four);
}

// How many slots a record asks for: one where it has none.
fn asks(k: usize) -> usize
    ensures { (result ≡ asks k) × (result ≤ 1) }
{
    usize::from(k == 0)
}

// How many slots a label asks for: one for its format 1 where it has none, one for its format 3 where it needs it.
pub fn asked_for(slot: usize, slot3: usize, few: bool) -> usize
    ensures { (result ≡ asks slot + cond few 0 (asks slot3)) × (result ≤ 2) }
{
    asks(slot) + if few { 0 } else { asks(slot3) }
}

// The slot of a format 3 that is freed, since three extents or fewer need none.
pub fn if_few(few: bool, slot3: usize) -> usize
    ensures { result ≡ cond few slot3 0 }
{
    if few { slot3 } else { 0 }
}

// The slot that a record has, or the one given where that is 0.
fn slot_or(k: usize, given: u16) -> usize
    ensures { result ≡ slot_or k given }
{
    if k == 0 { usize::from(given) } else { k }
}

// The slot of a label's format 3, 0 for none: the one it has, or the one given behind the format 1's.
fn third_slot(slot: usize, slot3: usize, few: bool, given: [u16; 2]) -> usize
    ensures { result ≡ cond few 0 (slot_or slot3 (get_or given (asks slot) 0)) }
{
    if few {
        return 0;
    }
    slot_or(slot3, given[asks(slot)])
}

// ---- planned

// The slots that a change needs, where there are so many: the chain of `was` members becomes one of `need`, the label gets those of
// `given` that it asked for, and `left` are free. The chain is written from member number `from` on, which tells of free extents
// from track `at` on: the members before it stay.
#[derive(Clone, Copy)]
pub struct Plan {
    pub was: usize,
    pub need: usize,
    pub left: usize,
    pub from: usize,
    pub at: usize,
    pub given: [u16; 2],
}

// Plans a change. `free_tracks` shows the tracks that are free then, those below `lo` as before, and `free_slots` the slots that are
// free while the chain is as it was; the label asks for `asked` of them. `chain` has the chain that is to be, afterwards. There is no
// plan where too few slots are free.
pub fn plan_slots(
    table: &[u8],
    g: Geometry,
    free_tracks: &[u64],
    free_slots: &mut [u64],
    chain: &mut [u16],
    asked: usize,
    lo: usize,
) -> Option<Plan>
    requires { (length table.now ≡ 140 * slots (geometry_of g)) × (tracks (geometry_of g) ≤ 64 * length free_tracks.now) × (length free_slots.old ≡ 8) × (length chain.old ≡ 468) × (asked ≤ 2) }
    ensures { Planning (geometry_of g) table.now free_tracks.now free_slots.old free_slots.new chain.new lo asked result }
{
    let was = settle_slots::read_chain(table, g, chain);
    let runs = bitmap::count_runs(free_tracks, g.tracks());
    let need = settle_slots::fives_for(runs);
    let place = begin(table, g, &chain[..was.min(need)], lo);
    let n = g.slots();
    let mut given = [0u16; 2];
    let left = settle_slots::settle(free_slots, n, chain, was, need, &mut given[..asked])?;
    Some(Plan {
        was,
        need,
        left,
        from: place.from,
        at: place.at,
        given,
    })
}

// ---- written

// The slots at the end of the chain that the plan does not need.
fn freed(chain: &[u16], plan: Plan) -> &[u16]
    requires { plan.was ≤ length chain.now }
    ensures { result.now ≡ slice plan.need plan.was chain.now }
{
    &chain[plan.was.min(plan.need)..plan.was]
}

// Writes the chain of format 5s, and the format 4 last.
fn finish(table: &mut [u8], g: Geometry, free_tracks: &[u64], chain: &[u16], plan: Plan)
    requires limits { (length table.old ≡ 140 * slots (geometry_of g)) × (tracks (geometry_of g) ≤ 64 * length free_tracks.now) × (plan.left < 65536) }
    requires need_in_bounds { (plan.need ≤ length chain.now) × All (λ k. k < slots (geometry_of g)) (take plan.need chain.now) × (plan.from ≤ plan.need) × (plan.at ≤ tracks (geometry_of g)) }
    ensures { table.new ≡ four_put (geometry_of g) (fives_put (geometry_of g) table.old (fives (drop plan.from (take plan.need chain.now)) (free_from free_tracks.now (tracks (geometry_of g)) plan.at))) plan.left }
{
    put_chain(table, g, free_tracks, &chain[plan.from..plan.need], plan.at);
    put_four(table, g, plan.left);
}

// Where a data set that is new or changed goes: the slots that it has, 0 for none, and whether its extents are few.
#[derive(Clone, Copy)]
pub struct Home {
    pub slot: usize,
    pub slot3: usize,
    pub few: bool,
}

// Writes a data set that is planned, out of its records: f1 gets the link to f3 on the way.
pub fn write_set(
    table: &mut [u8],
    g: Geometry,
    free_tracks: &[u64],
    chain: &[u16],
    plan: Plan,
    home: Home,
    f1: &mut [u8; 140],
    f3: &[u8; 140],
)
    requires limits { (length table.old ≡ 140 * slots (geometry_of g)) × (tracks (geometry_of g) ≤ 64 * length free_tracks.now) × (home.slot < slots (geometry_of g)) × (home.slot3 < slots (geometry_of g)) × (length f1.old ≡ 140) }
    requires puts { Puts (geometry_of g) table.old free_tracks.now chain.now plan home f1.old f3.now }
    ensures { (d : Puts (geometry_of g) table.old free_tracks.now chain.now plan home f1.old f3.now) → Leaves (drafted d.draft) table.new }
{
    clear(table, freed(chain, plan));
    clear_slot(table, if_few(home.few, home.slot3));
    let first = slot_or(home.slot, plan.given[0]);
    let third = third_slot(home.slot, home.slot3, home.few, plan.given);
    put_label(table, g, first, third, f1, f3);
    finish(table, g, free_tracks, chain, plan);
}

// Takes out a data set whose going is planned: its slots are zeros then.
pub fn write_drop(
    table: &mut [u8],
    g: Geometry,
    free_tracks: &[u64],
    chain: &[u16],
    plan: Plan,
    slot: usize,
    slot3: usize,
)
    requires limits { (length table.old ≡ 140 * slots (geometry_of g)) × (tracks (geometry_of g) ≤ 64 * length free_tracks.now) × (slot < slots (geometry_of g)) × (slot3 < slots (geometry_of g)) }
    requires drops { Drops (geometry_of g) table.old free_tracks.now chain.now plan slot slot3 }
    ensures { (d : Drops (geometry_of g) table.old free_tracks.now chain.now plan slot slot3) → Leaves (remains d.left) table.new }
{
    clear(table, freed(chain, plan));
    clear_slot(table, slot);
    clear_slot(table, slot3);
    finish(table, g, free_tracks, chain, plan);
}
