// The free extents as a taken table lists them: the chain of format 5s, member by member. A call that only reads free space
// goes along the entries, which costs less than a search in the map of free tracks.
#![tactic(auto)]

ghost use Rattle.std.specs.Prelude.{◌≡◌, List, ℕ, suc, ◌+◌, ◌*◌, ◌/◌, ◌%◌, ◌≤◌, ◌<◌, drop, length};
ghost use Rattle.model.specs.Model.{Run, run, slots};
ghost use Rattle.rules.specs.Reading.{entry_place, read_entry};
ghost use Rattle.dscb.specs.Forms.{geometry_of};
ghost use Rattle.free_extents.specs.FreeList.{Lists};

use dscb::Geometry;

// A free extent (hole) as its entry has it; an entry that is not used has no track.
#[derive(Clone, Copy, Debug, PartialEq, Eq)]
pub struct Hole {
    pub start: u32,
    pub count: u32,
    pub cylinders: u32,
    pub odd: u32,
}

// Cylinders and odd tracks that add up to count, h tracks to a cylinder. In a taken table there are never h odd tracks.
fn hole_of(start: u32, cylinders: u32, odd: u32, h: u32) -> Hole
    requires { (cylinders < 65536) × (odd < 256) × (1 ≤ h) × (h ≤ 255) }
    ensures { (run result.start result.count ≡ run start (cylinders * h + odd)) × (result.count ≤ 16711680) × (result.cylinders ≡ result.count / h) × (result.odd ≡ result.count % h) }
{
    let count = cylinders * h + odd;
    let (cylinders, odd) = if odd < h {
        (cylinders, odd)
    } else {
        (count / h, count % h)
    };
    Hole {
        start,
        count,
        cylinders,
        odd,
    }
}

// Entry number j of a format 5.
pub fn entry(rec: &[u8], j: usize, h: u32) -> Hole
    requires { (length rec.now ≡ 140) × (j < 26) × (1 ≤ h) × (h ≤ 255) }
    ensures { (run result.start result.count ≡ read_entry h rec.now (entry_place j)) × (result.start < 65536) × (result.count ≤ 16711680) × (result.cylinders ≡ result.count / h) × (result.odd ≡ result.count % h) }
{
    let p = dscb_write::entry_place(j);
    hole_of(
        u32::from(rows::two(rec, p)),
        u32::from(rows::two(rec, p + 2)),
        u32::from(rec[p + 4]),
        h,
    )
}

// The slot of the format 5 behind the one in slot k, 0 for none.
pub fn member_after(table: &[u8], g: Geometry, k: usize) -> usize
    requires { (length table.now ≡ 140 * slots (geometry_of g)) × (k < slots (geometry_of g)) }
    ensures { (result < slots (geometry_of g)) × ((n : ℕ) (f : List Run) → Lists (geometry_of g) table.now (suc n) k f → Lists (geometry_of g) table.now n result (drop 26 f)) }
{
    dscb::link(dscb::record_at(table, k), g)
}
