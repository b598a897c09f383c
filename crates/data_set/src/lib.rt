// The data set whose format 1 is in a slot: its records, how many extents it has, and the slot of its format 3.
#![tactic(auto)]

ghost use Rattle.std.specs.Prelude.{◌≡◌, ◌+◌, ◌*◌, ◌≤◌, ◌<◌, length};
ghost use Rattle.model.specs.Model.{slots};
ghost use Rattle.dscb.specs.Forms.{geometry_of};
ghost use Rattle.data_set.specs.Held.{SetAt, ThirdIn};

use dscb::Geometry;
use dscb::places::*;

// Without a format 3, `slot3` is 0, and `f3` is one that no extent stands in.
#[derive(Clone, Copy)]
pub struct Held {
    pub f1: [u8; 140],
    pub f3: [u8; 140],
    pub count: usize,
    pub slot3: usize,
}

// The format 3 in slot q, or a new one where q is 0.
pub fn third_record(table: &[u8], q: usize) -> [u8; 140]
    requires { 140 * q + 140 ≤ length table.now }
    ensures { ThirdIn table.now q result }
{
    if q == 0 {
        return dscb_write::empty_three();
    }
    dscb_write::record_of(dscb::record_at(table, q))
}

// The data set whose format 1 is in slot k.
pub fn set_at(table: &[u8], g: Geometry, k: usize) -> Held
    requires { (length table.now ≡ 140 * slots (geometry_of g)) × (k < slots (geometry_of g)) }
    ensures { SetAt (geometry_of g) table.now k result.f1 result.f3 result.count result.slot3 }
{
    let label = dscb::record_at(table, k);
    let f1 = dscb_write::record_of(label);
    let slot3 = dscb::link(label, g);
    let f3 = third_record(table, slot3);
    let count = usize::from(f1[DS1NOEPV]);
    Held {
        f1,
        f3,
        count,
        slot3,
    }
}
