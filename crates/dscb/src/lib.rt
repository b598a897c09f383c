// Label records (DSCBs), read and tested where they stand: the geometry in the format 4, what each format must hold, extents and
// addresses. Places of bytes have IBM's names.
#![tactic(auto)]

ghost use Rattle.std.specs.Prelude.{◌≡◌, false, ◌&&◌, ◌+◌, ◌-◌, ◌*◌, ◌≤◌, ◌<◌, min, leb, get_or, length};
ghost use Rattle.model.specs.Basics.{get3};
ghost use Rattle.model.specs.Model.{slots, tracks};
ghost use Rattle.rules.specs.Reading.{read_geometry, track_at};
ghost use Rattle.rules.specs.Table.{good_unit, limits};
ghost use Rattle.rules.specs.Promises.{geometry};
ghost use Rattle.dscb.specs.Forms.{Gives, geometry_of, linked_slot, one_ok, three_ok};
ghost use Rattle.rules.specs.Layout.{extent_part};
ghost use Rattle.dscb.specs.Records.{put_record, slot_bytes};
ghost use Rattle.dscb.specs.Tests.{good_ten, slot_named, type_ok};

pub mod device;

pub use device::Geometry;
use places::*;

// ---- the geometry

// Whether b is at most 255 and a × b at most `most`. The product may need 24 bits: it is made of a's two bytes, the high one first.
pub fn product_within(a: u16, b: u16, most: u16) -> bool
    ensures { result ≡ (leb b 255 && leb (a * b) most) }
{
    if b > 255 {
        return false;
    }
    let high = a / 256 * b;
    high <= most / 256 && a % 256 * b <= most - 256 * high
}

// The first and the last track of the VTOC, as CCHH.
const VTOC_FIRST: usize = DS4VTOCE + 2;

const VTOC_LAST: usize = DS4VTOCE + 6;

// The track whose CCHH starts at place i, or the number of tracks, c × h, where it is not on the volume. HH may be h or more.
fn track_or_end(s: &[u8], i: usize, c: u16, h: u16) -> u16
    requires { (i + 3 < length s.now) × (c * h ≤ 65535) }
    ensures { result ≡ min (c * h) (track_at h s.now i) }
{
    let t = c * h;
    let cc = rows::two(s, i);
    if cc >= c {
        return t;
    }
    let first = cc * h;
    let hh = rows::two(s, i + 2);
    if hh >= t - first {
        return t;
    }
    first + hh
}

// Whether numbers meet the limits of initialise. Any numbers may be asked about. Without cylinders or heads there is no track for the VTOC,
// and without a track or a record in it there are no slots.
fn limits(cylinders: u16, heads: u16, records: u16, vtoc_start: u16, vtoc_tracks: u16) -> bool
    ensures { result ≡ limits (geometry cylinders heads records vtoc_start vtoc_tracks) }
{
    if !product_within(cylinders, heads, 65535) {
        return false;
    }
    let t = cylinders * heads;
    if vtoc_start < 1 || vtoc_start > t || vtoc_tracks > t - vtoc_start {
        return false;
    }
    product_within(vtoc_tracks, records, 468) && 3 <= vtoc_tracks * records
}

impl Geometry {
    // The geometry of these numbers; none where they break the limits.
    fn within_limits(
        cylinders: u16,
        heads: u16,
        records: u16,
        vtoc_start: u16,
        vtoc_tracks: u16,
    ) -> Option<Geometry>
        ensures { Gives (geometry cylinders heads records vtoc_start vtoc_tracks) result }
    {
        if !limits(cylinders, heads, records, vtoc_start, vtoc_tracks) {
            return None;
        }
        Some(Geometry {
            cylinders,
            heads,
            records,
            vtoc_start,
            vtoc_tracks,
        })
    }

    // The geometry that a format 4 gives (DS4DEVSZ, DS4DEVDT and the extent DS4VTOCE); none where it breaks the limits.
    pub fn of_format4(rec: &[u8]) -> Option<Geometry>
        requires { length rec.now ≡ 140 }
        ensures { Gives (read_geometry rec.now) result }
    {
        let cylinders = rows::two(rec, DS4DEVSZ);
        let heads = rows::two(rec, HEADS);
        if !product_within(cylinders, heads, 65535) {
            return None;
        }
        let first = track_or_end(rec, VTOC_FIRST, cylinders, heads);
        let last = track_or_end(rec, VTOC_LAST, cylinders, heads);
        if last < first || last >= cylinders * heads {
            return None;
        }
        let records = u16::from(rec[DS4DEVDT]);
        Geometry::within_limits(cylinders, heads, records, first, last - first + 1)
    }

    // The geometry of these numbers; none where they break the limits, as each number does that needs more than 16 bits.
    pub fn of_numbers(c: u32, h: u32, d: u32, s: u32, v: u32) -> Option<Geometry>
        ensures { Gives (geometry c h d s v) result }
    {
        let (Ok(cylinders), Ok(heads), Ok(records), Ok(vtoc_start), Ok(vtoc_tracks)) = (
            u16::try_from(c),
            u16::try_from(h),
            u16::try_from(d),
            u16::try_from(s),
            u16::try_from(v),
        ) else {
            return None;
        };
        Geometry::within_limits(cylinders, heads, records, vtoc_start, vtoc_tracks)
    }

    // How many slots the VTOC has.
    pub fn slots(self) -> usize
        ensures { (result ≡ slots (geometry_of self)) × (result ≤ 468) }
    {
        usize::from(self.vtoc_tracks * self.records)
    }

    // How many tracks the volume has.
    pub fn tracks(self) -> u16
        ensures { (result ≡ tracks (geometry_of self)) × (result ≤ 65535) }
    {
        self.cylinders * self.heads
    }
}

// The slot that a record is linked to: that of the format 3 (DS1PTRDS) or of the next format 5 (DS5PTRDS), which stand at one place;
// 0 for none.
pub fn link(rec: &[u8], g: Geometry) -> usize
    requires { length rec.now ≡ 140 }
    ensures { (result ≡ linked_slot (geometry_of g) rec.now) × (result < slots (geometry_of g)) }
{
    slot_of(&rec[DS1PTRDS..140], g)
}

// ---- format 1

// Whether the unit and the secondary amount (DS1SCALO) go together. One test for tracks and cylinders (X'80', X'C0'): which of the
// two a data set has cannot be predicted. And one for the unit X'00', with which the secondary amount is 0: all four bytes are zeros.
fn unit_ok(rec: &[u8]) -> bool
    requires { length rec.now ≡ 140 }
    ensures { result ≡ good_unit (get_or rec.now 94 0) (get3 rec.now 95) }
{
    let unit = rec[DS1SCALO];
    unit & 0xBF == 0x80 || rows::word4(rec, DS1SCALO) == 0
}

// Whether a format 1 holds what it must beside its id, its extents and its link: a name (DS1DSNAM), 1 to 16 extents
// (DS1NOEPV), a unit with its secondary amount.
#[tactic(auto, unfolding(crate::specs::Forms::one_ok))]
pub fn one_ok(rec: &[u8]) -> bool
    requires { length rec.now ≡ 140 }
    ensures { result ≡ one_ok rec.now }
{
    let n = rec[DS1NOEPV];
    1 <= n && n <= 16 && unit_ok(rec) && ebcdic::name_ok(&rec[0..DS1FMTID])
}

// ---- format 3

// Whether a format 3 holds what it must beside its extents.
#[tactic(auto, unfolding(crate::specs::Forms::three_ok))]
pub fn three_ok(rec: &[u8]) -> bool
    requires { length rec.now ≡ 140 }
    ensures { result ≡ three_ok rec.now }
{
    rec[DS3FMTID] == FORMAT3 && rows::part_is(rec, 0, 4, 0x03) && rows::part_is(rec, DS3PTRDS, 5, 0)
}

pub mod places;

// ---- numbers and rows of bytes

// The track whose CCHH starts at place i, with h tracks to a cylinder. That its number fits is known.
pub fn track_at(s: &[u8], i: usize, h: u16) -> u16
    requires { (i + 3 < length s.now) × (track_at h s.now i ≤ 65535) }
    ensures { result ≡ track_at h s.now i }
{
    let cc = rows::two(s, i);
    let hh = rows::two(s, i + 2);
    cc * h + hh
}

// ---- records

// The record in slot k, handed back and not copied.
pub fn record_at(table: &[u8], k: usize) -> &[u8]
    requires { 140 * k + 140 ≤ length table.now }
    ensures { (result.now ≡ slot_bytes table.now k) × (length result.now ≡ 140) }
{
    let a = 140 * k;
    &table[a..a + 140]
}

// Copies a record into slot k.
pub fn put_record(table: &mut [u8], k: usize, rec: &[u8; 140])
    requires { 140 * k + 140 ≤ length table.old }
    ensures { table.new ≡ put_record table.old k rec.now }
{
    rows::copy(rec, &mut table[140 * k..]);
}

// The ten bytes of extent number e: a part of the format 1 (DS1EXT1 to 3) or of the format 3 (DS3EXTNT, DS3ADEXT), handed
// back and not copied; an empty part where e is above 15 or a record is not 140 bytes.
pub fn extent_part<'a>(f1: &'a [u8], f3: &'a [u8], e: usize) -> &'a [u8]
    ensures { result.now ≡ extent_part f1.now f3.now e }
{
    if f1.len() != 140 || f3.len() != 140 {
        return &f1[..0];
    }
    if e < 3 {
        let at = DS1EXT1 + 10 * e;
        return &f1[at..at + 10];
    }
    if e < 7 {
        let at = DS3EXTNT + 10 * (e - 3);
        return &f3[at..at + 10];
    }
    if e < 16 {
        let at = DS3ADEXT + 10 * (e - 7);
        return &f3[at..at + 10];
    }
    &f1[..0]
}

// ---- extents

// Whether the type byte fits an extent whose first and last track are these of their cylinders: X'81' starts a cylinder and
// ends one, X'01' needn't.
fn type_ok(type_byte: u8, first: u16, last: u16, h: u16) -> bool
    requires { last < h }
    ensures { result ≡ type_ok h type_byte first last }
{
    type_byte == 0x01 || type_byte == 0x81 && first == 0 && last + 1 == h
}

// Whether the ten bytes are an extent of number i on a volume of this geometry. Two stops stand before its tracks are numbered: where it ends
// behind the volume, which is about its tracks, and where it begins in a later cylinder than it ends in, which is about its form.
#[tactic(auto, unfolding(crate::specs::Tests::good_ten))]
pub fn good_ten(x: &[u8], i: u32, g: Geometry) -> bool
    requires { length x.now ≡ 10 }
    ensures { result ≡ good_ten g.heads (tracks (geometry_of g)) i x.now }
{
    let h = g.heads;
    let first = rows::two(x, 4);
    let last = rows::two(x, 8);
    let from = rows::two(x, 2);
    let to = rows::two(x, 6);
    if first >= h || last >= h || to >= g.cylinders || to < from {
        return false;
    }
    u32::from(x[1]) == i && track_at(x, 2, h) <= track_at(x, 6, h) && type_ok(x[0], first, last, h)
}

// ---- addresses

// The slot whose address the five bytes are; 0 if they are no slot's. It stops at a track that is not on the volume, and at one behind the VTOC.
#[tactic(auto, unfolding(crate::specs::Tests::slot_named))]
pub fn slot_of(x: &[u8], g: Geometry) -> usize
    requires { length x.now ≡ 5 }
    ensures { result ≡ slot_named g.heads g.records g.vtoc_start (slots (geometry_of g)) x.now }
{
    let r = u16::from(x[4]);
    let cylinder = rows::two(x, 0);
    let head = rows::two(x, 2);
    if head >= g.heads || r < 1 || r > g.records || cylinder >= g.cylinders {
        return 0;
    }
    let t = track_at(x, 0, g.heads);
    if t < g.vtoc_start || t - g.vtoc_start >= g.vtoc_tracks {
        return 0;
    }
    usize::from((t - g.vtoc_start) * g.records + r - 1)
}
