// Initialise: a table with no data set.
#![tactic(auto)]

ghost use Rattle.std.specs.Prelude.{◌≡◌, [], ◌+◌, ◌*◌, ◌≤◌, ◌<◌, length};
ghost use Rattle.model.specs.Model.{free, slots};
ghost use Rattle.rules.specs.Promises.{Initialises};
ghost use Rattle.rules.specs.Entries.{fresh};
ghost use Rattle.rules.specs.Layout.{encode, format5};
ghost use Rattle.rules.specs.Predicates.{some_run};
ghost use Rattle.refusals.specs.Numbers.{number_of};
ghost use Rattle.dscb.specs.Forms.{geometry_of};
ghost use Rattle.call_initialise.specs.More.{More};

use dscb::Geometry;
use dscb::places::*;
use refusals::Refusal;

// Puts an entry for `count` tracks from `start` on, if there are any, behind j others, and says how many there are then.
fn put_some(rec: &mut [u8], j: usize, g: Geometry, start: u16, count: u16) -> usize
    requires { (length rec.old ≡ 140) × (j < 26) × (start + count ≤ 65535) }
    ensures { More (geometry_of g) (some_run start count) rec.old j rec.new result }
{
    if count == 0 {
        return j;
    }
    dscb_write::put_entry(rec, dscb_write::entry_place(j), g, start, count);
    j + 1
}

// The format 5 with the tracks before the VTOC and those behind it: the geometry tells them, so that no map is made.
fn fresh_five(g: Geometry) -> [u8; 140]
    ensures { result ≡ format5 (geometry_of g) (free (geometry_of g) []) 0 }
{
    let mut rec = dscb_write::blank(DS5AVEXT, 0x05, FORMAT5);
    let behind = g.vtoc_start + g.vtoc_tracks;
    let j = put_some(&mut rec, 0, g, 1, g.vtoc_start - 1);
    put_some(&mut rec, j, g, behind, g.tracks() - behind);
    rec
}

// Writes the format 5 in slot 1 and the format 4 in slot 0.
fn write_fresh(table: &mut [u8], g: Geometry)
    requires { length table.old ≡ 140 * slots (geometry_of g) }
    ensures { table.new ≡ encode (fresh (geometry_of g)) }
{
    table.fill(0);
    let five = fresh_five(g);
    dscb::put_record(table, 1, &five);
    let four = dscb_write::four(g, 0, g.slots() - 2);
    dscb::put_record(table, 0, &four);
}

// The call: refused with 1 for the geometry, then with 2 for a length, and nothing is written where it is refused.
pub fn initialise(
    table: &mut [u8],
    c: u32,
    h: u32,
    d: u32,
    s: u32,
    v: u32,
    answer: &mut [u8],
) -> Result<(), Refusal>
    ensures { Initialises table.old c h d s v answer.old (number_of result) table.new answer.new }
{
    let Some(g) = Geometry::of_numbers(c, h, d, s, v) else {
        return Err(Refusal::Geometry);
    };
    if table.len() != 140 * g.slots() || answer.len() != 24 {
        return Err(Refusal::Length);
    }
    write_fresh(table, g);
    answers::put_nothing(answer);
    Ok(())
}
