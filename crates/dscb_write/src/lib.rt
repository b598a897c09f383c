// Label records (DSCBs) built: bytes put at their places, where the record stands; formats 4 and 5 whole; formats 1 and 3 of a data set,
// where each function takes the records of some label to those of another.
#![tactic(auto)]

ghost use Rattle.std.specs.Prelude.{◌≡◌, [], ℕ, ◌+◌, ◌-◌, ◌*◌, ◌/◌, ◌%◌, ◌≤◌, ◌<◌, length, replicate};
ghost use Rattle.model.specs.Basics.{be2, be3};
ghost use Rattle.model.specs.Model.{extent, run, slots, Geometry, Label};
ghost use Rattle.rules.specs.Reading.{entry_place};
ghost use Rattle.rules.specs.Layout.{cchh, entry, extent_bytes, format4, format5, link};
ghost use Rattle.dscb_write.specs.Put.{put_at};
ghost use Rattle.dscb.specs.Forms.{geometry_of};
ghost use Rattle.dscb_write.specs.Blank.{blank};
ghost use Rattle.dscb_write.specs.Fives.{Fills};
ghost use Rattle.rules.specs.Slots.{with_name, with_slots};
ghost use Rattle.dscb_write.specs.Labels.{Format1, Format3, with_extent, first_extents, new_label, with_ttr};

use dscb::places::*;

// ---- bytes at a place

// Puts a number of two bytes.
pub fn put_two(rec: &mut [u8; 140], at: usize, v: u16)
    requires { (length rec.old ≡ 140) × (at + 1 < 140) }
    ensures { rec.new ≡ put_at rec.old at (be2 v) }
{
    rec[at..at + 2].copy_from_slice(&v.to_be_bytes());
}

// Puts a number of three bytes.
pub fn put_three(rec: &mut [u8; 140], at: usize, v: u32)
    requires { (length rec.old ≡ 140) × (at + 2 < 140) × (v < 16777216) }
    ensures { rec.new ≡ put_at rec.old at (be3 v) }
{
    rec[at..at + 3].copy_from_slice(&v.to_be_bytes()[1..]);
}

// Puts the address CCHH of track t.
pub fn put_track(rec: &mut [u8; 140], at: usize, g: dscb::Geometry, t: u16)
    requires { (length rec.old ≡ 140) × (at + 3 < 140) }
    ensures { rec.new ≡ put_at rec.old at (cchh (geometry_of g) t) }
{
    let h = g.heads;
    put_two(rec, at, t / h);
    put_two(rec, at + 2, t % h);
}

// Puts the address CCHHR of slot k, or zeros for none, which is slot 0.
pub fn put_link(rec: &mut [u8; 140], at: usize, g: dscb::Geometry, k: usize)
    requires { (length rec.old ≡ 140) × (at + 4 < 140) × (k < slots (geometry_of g)) }
    ensures { rec.new ≡ put_at rec.old at (link (geometry_of g) k) }
{
    if k == 0 {
        put_same(rec, at, at + 5, 0);
    } else {
        let q = k as u16;
        put_track(rec, at, g, g.vtoc_start + q / g.records);
        rec[at + 4] = (q % g.records + 1) as u8;
    }
}

// Puts an extent: type, number, CCHH of the first track and of the last.
pub fn put_extent(
    rec: &mut [u8; 140],
    at: usize,
    g: dscb::Geometry,
    number: usize,
    type_byte: u8,
    start: u16,
    count: u16,
)
    requires { (length rec.old ≡ 140) × (at + 9 < 140) × (number < 16) × (1 ≤ count) × (start + count ≤ 65535) }
    ensures { rec.new ≡ put_at rec.old at (extent_bytes (geometry_of g) number (extent type_byte (run start count))) }
{
    rec[at] = type_byte;
    rec[at + 1] = number as u8;
    put_track(rec, at + 2, g, start);
    put_track(rec, at + 6, g, start + count - 1);
}

// A number of tracks as whole cylinders and odd tracks. Most free extents are less than a cylinder, and a division costs more than to see
// that.
fn split(count: u16, h: u16) -> (u16, u16)
    requires { 1 ≤ h }
    ensures { (result.0 ≡ count / h) × (result.1 ≡ count % h) }
{
    if count < h {
        (0, count)
    } else {
        (count / h, count % h)
    }
}

// Puts an entry of a format 5: start track, whole cylinders, odd tracks.
pub fn put_entry(rec: &mut [u8], at: usize, g: dscb::Geometry, start: u16, count: u16)
    requires { (length rec.old ≡ 140) × (at + 4 < 140) × (start + count ≤ 65535) }
    ensures { rec.new ≡ put_at rec.old at (entry (geometry_of g) (run start count)) }
{
    let (whole, odd) = split(count, g.heads);
    let [start_high, start_low] = start.to_be_bytes();
    let [whole_high, whole_low] = whole.to_be_bytes();
    rec[at..at + 5].copy_from_slice(&[start_high, start_low, whole_high, whole_low, odd as u8]);
}

// ---- rows of bytes

// Puts v from place a up to place e.
pub fn put_same(rec: &mut [u8; 140], a: usize, e: usize, v: u8)
    requires { (length rec.old ≡ 140) × (a ≤ e) × (e ≤ 140) }
    ensures { rec.new ≡ put_at rec.old a (replicate (e - a) v) }
{
    rec[a..e].fill(v);
}

// Puts the bytes of s.
pub fn put_row(rec: &mut [u8; 140], at: usize, s: &[u8])
    requires { (length rec.old ≡ 140) × (at + length s.now ≤ 140) }
    ensures { rec.new ≡ put_at rec.old at s.now }
{
    rec[at..at + s.len()].copy_from_slice(s);
}

// A record as it stands in the table.
pub fn record_of(s: &[u8]) -> [u8; 140]
    requires { length s.now ≡ 140 }
    ensures { result ≡ s.now }
{
    let mut r = [0u8; 140];
    r.copy_from_slice(s);
    r
}

// A record with nothing but its key, n bytes v, and its format's identifier.
pub fn blank(n: usize, v: u8, id: u8) -> [u8; 140]
    requires { n ≤ 44 }
    ensures { result ≡ blank n v id }
{
    let mut r = [0u8; 140];
    put_same(&mut r, 0, n, v);
    r[DS1FMTID] = id;
    r
}

// ---- format 4

// The format 4, slot 0: the highest slot with a format 1, 0 for none, and the number of format 0s.
pub fn four(g: dscb::Geometry, highest: usize, format0s: usize) -> [u8; 140]
    requires { (highest < slots (geometry_of g)) × (format0s < 65536) }
    ensures { result ≡ format4 (geometry_of g) highest format0s }
{
    let mut r = blank(DS4IDFMT, 0x04, FORMAT4);
    put_link(&mut r, DS4HPCHR, g, highest);
    put_two(&mut r, DS4DSREC, format0s as u16);
    r[DS4NOEXT] = 0x01;
    put_two(&mut r, DS4DEVSZ, g.cylinders);
    put_two(&mut r, HEADS, g.heads);
    r[DS4DEVDT] = g.records as u8;
    put_extent(&mut r, DS4VTOCE, g, 0, 0x01, g.vtoc_start, g.vtoc_tracks);
    r
}

// ---- format 5

// Where entry j stands: there are 8 before the identifier, 18 behind it.
pub fn entry_place(j: usize) -> usize
    requires { j < 26 }
    ensures { (result ≡ entry_place j) × (result + 4 < 140) }
{
    if j < 8 {
        DS5AVEXT + 5 * j
    } else {
        DS5MAVET + 5 * (j - 8)
    }
}

// The format 5 that has no entry, with slot k as the next one, 0 for none.
fn empty_five(g: dscb::Geometry, k: usize) -> [u8; 140]
    requires { k < slots (geometry_of g) }
    ensures { result ≡ format5 (geometry_of g) [] k }
{
    let mut r = blank(DS5AVEXT, 0x05, FORMAT5);
    put_link(&mut r, DS5PTRDS, g, k);
    r
}

// Makes the record the format 5 for the first 26 runs of free tracks from track `at` on and below n, with slot k as the next
// one, 0 for none; the result is the track from which the runs go on that it has no room for. It is made where it stands in
// the table: to build it elsewhere and copy it costs more.
pub fn five(
    rec: &mut [u8],
    free_tracks: &[u64],
    n: u16,
    at: u16,
    g: dscb::Geometry,
    k: usize,
) -> u16
    requires { (length rec.old ≡ 140) × (at ≤ n) × (n ≤ 64 * length free_tracks.now) × (n ≤ 65535) × (k < slots (geometry_of g)) }
    ensures { Fills (geometry_of g) free_tracks.now n at k rec.new result }
{
    rec.copy_from_slice(&empty_five(g, k));
    let mut t = at;
    let mut x = bitmap::rest_of(free_tracks, at, n);
    for j in 0..26 {
        let free = bitmap::run_ahead(free_tracks, t, n, x);
        if free.from >= n {
            return n;
        }
        put_entry(rec, entry_place(j), g, free.from, free.to - free.from);
        t = free.to;
        x = free.rest;
    }
    t
}

// The format 1 of a label that has no extent yet.
pub fn new_label(name: &[u8], attributes: &[u8], unit: u8, secondary: u32) -> [u8; 140]
    requires { (length name.now ≡ 44) × (length attributes.now ≡ 52) × (secondary < 16777216) }
    ensures { (g : Geometry) → Format1 g (new_label name.now attributes.now unit secondary) result }
{
    let mut r = [0u8; 140];
    put_row(&mut r, 0, name); // DS1DSNAM
    r[DS1FMTID] = FORMAT1;
    r[DS1SCALO] = unit;
    put_three(&mut r, SECONDARY, secondary);
    put_row(&mut r, 45, &attributes[0..14]);
    put_row(&mut r, 60, &attributes[14..48]);
    put_row(&mut r, 101, &attributes[48..52]);
    r
}

// The format 3 of a label that has no more than three extents.
pub fn empty_three() -> [u8; 140]
    ensures { (g : Geometry) (l : Label) → length l.extents ≤ 3 → Format3 g l result }
{
    blank(DS3EXTNT, 0x03, FORMAT3)
}

// Makes the format 1 of a label with n extents that of the label with one more.
pub fn add_extent1(
    rec: &mut [u8; 140],
    g: dscb::Geometry,
    n: usize,
    type_byte: u8,
    start: u16,
    count: u16,
)
    requires { (length rec.old ≡ 140) × (n < 16) × (1 ≤ count) × (start + count ≤ 65535) }
    ensures { ((l : Label) → length l.extents ≡ n → Format1 (geometry_of g) l rec.old → Format1 (geometry_of g) (with_extent (extent type_byte (run start count)) l) rec.new) × (length rec.new ≡ 140) }
{
    rec[DS1NOEPV] = (n + 1) as u8;
    if n < 3 {
        put_extent(rec, DS1EXT1 + 10 * n, g, n, type_byte, start, count);
    }
}

// Makes the format 3 of a label with n extents, three or more, that of the label with one more.
pub fn add_extent3(
    rec: &mut [u8; 140],
    g: dscb::Geometry,
    n: usize,
    type_byte: u8,
    start: u16,
    count: u16,
)
    requires { (length rec.old ≡ 140) × (3 ≤ n) × (n < 16) × (1 ≤ count) × (start + count ≤ 65535) }
    ensures { ((l : Label) → length l.extents ≡ n → Format3 (geometry_of g) l rec.old → Format3 (geometry_of g) (with_extent (extent type_byte (run start count)) l) rec.new) × (length rec.new ≡ 140) }
{
    if n < 7 {
        put_extent(rec, DS3EXTNT + 10 * (n - 3), g, n, type_byte, start, count);
    } else {
        put_extent(rec, DS3ADEXT + 10 * (n - 7), g, n, type_byte, start, count);
    }
}

// Makes the format 1 of a label that of the label with its first n extents.
pub fn keep_extents1(rec: &mut [u8; 140], n: usize)
    requires { (length rec.old ≡ 140) × (n ≤ 16) }
    ensures { ((g : Geometry) (l : Label) → n ≤ length l.extents → Format1 g l rec.old → Format1 g (first_extents n l) rec.new) × (length rec.new ≡ 140) }
{
    rec[DS1NOEPV] = n as u8;
    if n < 3 {
        put_same(rec, DS1EXT1 + 10 * n, DS1PTRDS, 0);
    }
}

// Makes the format 3 of a label that of the label with its first n extents, three or more.
pub fn keep_extents3(rec: &mut [u8; 140], n: usize)
    requires { (length rec.old ≡ 140) × (3 ≤ n) × (n ≤ 16) }
    ensures { ((g : Geometry) (l : Label) → Format3 g l rec.old → Format3 g (first_extents n l) rec.new) × (length rec.new ≡ 140) }
{
    if n < 7 {
        put_same(rec, DS3EXTNT + 10 * (n - 3), DS3FMTID, 0);
        put_same(rec, DS3ADEXT, DS3PTRDS, 0);
    } else {
        put_same(rec, DS3ADEXT + 10 * (n - 7), DS3PTRDS, 0);
    }
}

// Makes the format 1 one with another last block.
pub fn set_ttr(rec: &mut [u8; 140], ttr: u32)
    requires { (length rec.old ≡ 140) × (ttr < 16777216) }
    ensures { ((g : Geometry) (l : Label) → Format1 g l rec.old → Format1 g (with_ttr ttr l) rec.new) × (length rec.new ≡ 140) }
{
    put_three(rec, DS1LSTAR, ttr);
}

// A format 1 with another name.
pub fn set_name(mut rec: [u8; 140], name: &[u8]) -> [u8; 140]
    requires { length name.now ≡ 44 }
    ensures { (g : Geometry) (l : Label) → Format1 g l rec → Format1 g (with_name name.now l) result }
{
    put_row(&mut rec, 0, name);
    rec
}

// Makes the format 1 one whose format 3 is in slot k, 0 for none.
pub fn set_link3(rec: &mut [u8; 140], g: dscb::Geometry, k: usize)
    requires { (length rec.old ≡ 140) × (k < slots (geometry_of g)) }
    ensures { (l : Label) (slot : ℕ) → Format1 (geometry_of g) l rec.old → Format1 (geometry_of g) (with_slots slot k l) rec.new }
{
    put_link(rec, DS1PTRDS, g, k);
}
