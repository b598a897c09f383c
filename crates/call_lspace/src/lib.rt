// LSPACE, the space inquiry: how many free cylinders, odd tracks, free extents and format 0s there are, and the longest
// free extent. All but the format 0s is read in the entries of the format 5s.
#![tactic(auto)]

ghost use Rattle.std.specs.Prelude.{◌≡◌, List, ◌*◌, ◌≤◌, ◌<◌, length};
ghost use Rattle.model.specs.Model.{Run, slots};
ghost use Rattle.model.specs.Predicates.{All};
ghost use Rattle.rules.specs.Calls.{space_numbers};
ghost use Rattle.rules.specs.Promises.{Inquires};
ghost use Rattle.refusals.specs.Numbers.{number_of};
ghost use Rattle.dscb.specs.Forms.{geometry_of};
ghost use Rattle.free_extents.specs.FreeList.{Listed};
ghost use Rattle.call_lspace.specs.Totals.{Added, Below, Summed, none};

use dscb::Geometry;
use refusals::Refusal;

// What free extents add up to: their cylinders and odd tracks, how many they are, and the tracks of the longest.
#[derive(Clone, Copy, Debug, PartialEq, Eq)]
pub struct Sums {
    pub cylinders: u64,
    pub odd: u64,
    pub many: u64,
    pub long: u64,
}

// Adds the entries of one format 5.
fn add_member(rec: &[u8], h: u32, sums: Sums) -> Sums
    requires { (length rec.now ≡ 140) × (1 ≤ h) × (h ≤ 255) × Below 203347722240 sums }
    ensures { Added h rec.now sums result }
{
    let mut s = sums;
    for j in 0..26 {
        let hole = free_extents::entry(rec, j, h);
        if hole.count == 0 {
            return s;
        }
        s.cylinders += u64::from(hole.cylinders);
        s.odd += u64::from(hole.odd);
        s.many += 1;
        s.long = s.long.max(u64::from(hole.count));
    }
    s
}

// Adds the entries of all format 5s. The walk ends where the chain does; that it ends at all is seen by the number of slots.
fn add_all(table: &[u8], g: Geometry) -> Sums
    requires { length table.now ≡ 140 * slots (geometry_of g) }
    ensures { (f : List Run) → Listed (geometry_of g) table.now f → Summed g.heads f none result }
{
    let mut s = Sums {
        cylinders: 0,
        odd: 0,
        many: 0,
        long: 0,
    };
    let mut k: usize = 1;
    for _ in 0..g.slots() {
        if k == 0 {
            return s;
        }
        s = add_member(dscb::record_at(table, k), u32::from(g.heads), s);
        k = free_extents::member_after(table, g, k);
    }
    s
}

// The six numbers; `format0s` is the number of format 0s.
fn space(table: &[u8], g: Geometry, format0s: u32) -> [u32; 6]
    requires { (length table.now ≡ 140 * slots (geometry_of g)) × (format0s < 65536) × ((f : List Run) × Listed (geometry_of g) table.now f) }
    ensures { ((f : List Run) → Listed (geometry_of g) table.now f → result ≡ space_numbers g.heads f format0s) × All (λ x. x < 65536) result }
{
    let s = add_all(table, g);
    let h = u64::from(g.heads);
    [
        s.cylinders as u32,
        s.odd as u32,
        s.many as u32,
        (s.long / h) as u32,
        (s.long % h) as u32,
        format0s,
    ]
}

// The call: refused with 2 or 3. The number of format 0s is what the check counted.
pub fn lspace(table: &[u8], answer: &mut [u8]) -> Result<(), Refusal>
    ensures { Inquires table.now answer.old (number_of result) answer.new }
{
    let opened = open_table::open_to_read(table, answer.len() == 24)?;
    let six = space(table, opened.geometry, opened.format0s as u32);
    answers::put_numbers(answer, six);
    Ok(())
}
