// The listing of a table: its lines, and the whole, taken or not.
#![tactic(auto)]

ghost use Rattle.std.specs.Prelude.{◌≡◌, ◌+◌, ◌*◌, ◌≤◌, ◌<◌, [], ◌∷◌, length, take};
ghost use Rattle.model.specs.Model.{overs, run, total, slots};
ghost use Rattle.model.specs.Predicates.{All};
ghost use Rattle.rules.specs.Listing.{decimal, line, free_line, refusal_line, slot_line, data_line, listing, listing_of};
ghost use Rattle.rules.specs.Reading.{read_extent, read_extents, read};
ghost use Rattle.listing.specs.Text.{Line, Proper, data_text, digit, name_text, volume_text};
ghost use Rattle.model.specs.Basics.{flat};
ghost use Rattle.bitmap.specs.Map.{free_from};
ghost use Rattle.rows.specs.Text.{Written};
ghost use Rattle.dscb.specs.Forms.{geometry_of};
ghost use Rattle.check_label.specs.Marks.{label_at};
ghost use Rattle.check_table.specs.Labels.{at_slot, labels_below};
ghost use Rattle.check_table.specs.Check.{ones};
ghost use Rattle.listing.specs.Whole.{Listable, ReadyToList, span_line};

use dscb::Geometry;
use dscb::places::*;
use refusals::Refusal;

// ---- fields; each function gives back the place behind what it wrote

// Writes the digit of v that counts this unit; none where v is below it.
fn put_digit(out: &mut [u8], at: usize, v: u32, unit: u32) -> usize
    requires { (at < length out.old) × (0 < unit) }
    ensures { Written at (digit unit v) 1 out.old out.new result }
{
    if v < unit {
        return at;
    }
    rows::put_byte(out, at, (0x30 + v / unit % 10) as u8)
}

// Writes a number in decimal, without leading zeros.
pub fn put_decimal(out: &mut [u8], at: usize, v: u32) -> usize
    requires { (at + 5 ≤ length out.old) × (v < 100000) }
    ensures { Written at (decimal v) 5 out.old out.new result }
{
    let mut p = at;
    for unit in [10000, 1000, 100, 10] {
        p = put_digit(out, p, v, unit);
    }
    rows::put_byte(out, p, (0x30 + v % 10) as u8)
}

// Writes a blank and a number.
fn put_field(out: &mut [u8], at: usize, v: u32) -> usize
    requires { (at + 6 ≤ length out.old) × (v < 100000) }
    ensures { Written at (0x20 ∷ decimal v) 6 out.old out.new result }
{
    let p = rows::put_byte(out, at, b' ');
    put_decimal(out, p, v)
}

// Writes a label byte as its printable character; a blank is left out.
fn put_printed(out: &mut [u8], at: usize, b: u8) -> usize
    requires { at < length out.old }
    ensures { Written at (name_text (b ∷ [])) 1 out.old out.new result }
{
    if b == 0x40 {
        return at;
    }
    let c = ebcdic::listing::printable(b);
    rows::put_byte(out, at, c)
}

// Writes a name of 44 label bytes less its blanks.
pub fn put_name(out: &mut [u8], at: usize, name: &[u8]) -> usize
    requires { (at + 44 ≤ length out.old) × (length name.now ≡ 44) }
    ensures { Written at (name_text name.now) 44 out.old out.new result }
{
    let mut p = at;
    for &b in name {
        p = put_printed(out, p, b);
    }
    p
}

// ---- lines; each function gives back the line's length

// A line of a letter and one number.
fn one_number(out: &mut [u8], letter: u8, n: u32) -> usize
    requires { (64 ≤ length out.old) × (n < 100000) }
    ensures { Line (line letter (decimal n ∷ [])) out.old out.new result }
{
    let a = rows::put_byte(out, 0, letter);
    let b = put_field(out, a, n);
    rows::put_byte(out, b, b'\n')
}

// The volume: cylinders, tracks in each, tracks.
pub fn volume_line(out: &mut [u8], cylinders: u32, heads: u32) -> usize
    requires { (64 ≤ length out.old) × (cylinders < 100000) × (heads < 100000) × (cylinders * heads < 100000) }
    ensures { Line (volume_text cylinders heads) out.old out.new result }
{
    let a = rows::put_byte(out, 0, b'V');
    let b = put_field(out, a, cylinders);
    let c = put_field(out, b, heads);
    let d = put_field(out, c, cylinders * heads);
    rows::put_byte(out, d, b'\n')
}

// A data set: its name less its blanks, its tracks, its number of extents.
pub fn data_line(out: &mut [u8], name: &[u8], tracks: u32, extents: u32) -> usize
    requires { (64 ≤ length out.old) × (length name.now ≡ 44) × (tracks < 100000) × (extents < 100000) }
    ensures { Line (data_text name.now tracks extents) out.old out.new result }
{
    let a = rows::put_byte(out, 0, b'D');
    let b = rows::put_byte(out, a, b' ');
    let c = put_name(out, b, name);
    let d = put_field(out, c, tracks);
    let e = put_field(out, d, extents);
    rows::put_byte(out, e, b'\n')
}

// A free extent: its first track, and how many.
pub fn free_line(out: &mut [u8], start: u32, count: u32) -> usize
    requires { (64 ≤ length out.old) × (start < 100000) × (count < 100000) }
    ensures { Line (free_line (run start count)) out.old out.new result }
{
    let a = rows::put_byte(out, 0, b'F');
    let b = put_field(out, a, start);
    let c = put_field(out, b, count);
    rows::put_byte(out, c, b'\n')
}

// The number of format 0s.
pub fn slot_line(out: &mut [u8], n: u32) -> usize
    requires { (64 ≤ length out.old) × (n < 100000) }
    ensures { Line (slot_line n) out.old out.new result }
{
    one_number(out, b'S', n)
}

// A refused table: the refusal's number.
pub fn refusal_line(out: &mut [u8], n: u32) -> usize
    requires { (64 ≤ length out.old) × (n < 100000) }
    ensures { Line (refusal_line n) out.old out.new result }
{
    one_number(out, b'E', n)
}

// ---- what the line of a data set tells

// How many tracks the ten bytes of an extent stand for.
fn tracks_in(x: &[u8], heads: u16) -> u32
    requires { (length x.now ≡ 10) × (heads < 65536) × Proper (read_extent heads x.now) }
    ensures { (result ≡ (read_extent heads x.now).over.count) × (result ≤ 65535) }
{
    let first = dscb::track_at(x, 2, heads);
    let last = dscb::track_at(x, 6, heads);
    u32::from(last - first) + 1
}

// How many tracks the first n extents of a format 1 with its format 3 have. A data set without a format 3 has at most 3
// extents, which are in its format 1: any record serves as the other then, and the reading takes slot 0.
pub fn tracks_of<'a>(f1: &'a [u8], f3: &'a [u8], n: usize, heads: u16) -> u32
    requires f1_len { (length f1.now ≡ 140) × (length f3.now ≡ 140) × (n ≤ 16) × (heads < 65536) }
    requires all { All Proper (read_extents heads f1.now f3.now n) }
    ensures { result ≡ total (overs (read_extents heads f1.now f3.now n)) }
{
    let mut sum: u32 = 0;
    for e in 0..n {
        sum += tracks_in(dscb::extent_part(f1, f3, e), heads);
    }
    sum
}

// ---- free extents

// Writes the line of the free tracks from `from` up to `to`, if there are any.
fn put_free(out: &mut [u8], at: usize, from: u16, to: u16) -> usize
    requires { (at + 64 ≤ length out.old) × (from ≤ to) × (to ≤ 65535) }
    ensures { Written at (span_line from to) 14 out.old out.new result }
{
    if from >= to {
        return at;
    }
    let n = free_line(&mut out[at..], u32::from(from), u32::from(to - from));
    at + n
}

// Writes the lines of the free extents among the n tracks of the map. A turn goes on by a run of free tracks, so no range counts the turns.
fn free_lines(free_tracks: &[u64], n: u16, out: &mut [u8], at: usize) -> usize
    requires { (n ≤ 65535) × (n ≤ 64 * length free_tracks.now) × (at + 14 * n + 64 ≤ length out.old) }
    ensures { Written at (flat free_line (free_from free_tracks.now n 0)) (14 * n) out.old out.new result }
{
    let mut p = at;
    let mut t: u16 = 0;
    while t < n {
        let free = bitmap::next_run(free_tracks, t, n);
        p = put_free(out, p, free.from, free.to);
        t = free.to;
    }
    p
}

// ---- data sets

// Writes the line of a data set by its format 1, its number of tracks and its number of extents.
fn put_data(f1: &[u8], many: u32, n: u32, out: &mut [u8], at: usize) -> usize
    requires { (length f1.now ≡ 140) × (many < 100000) × (n < 100000) × (at + 64 ≤ length out.old) }
    ensures { Written at (data_text (take 44 f1.now) many n) 64 out.old out.new result }
{
    let name = &f1[..DS1FMTID];
    let r = data_line(&mut out[at..], name, many, n);
    at + r
}

// Writes the line of the data set in slot k.
fn put_label(table: &[u8], k: usize, g: Geometry, out: &mut [u8], at: usize) -> usize
    requires { (length table.now ≡ 140 * slots (geometry_of g)) × (k < slots (geometry_of g)) × Listable (geometry_of g) table.now (label_at (geometry_of g) table.now k) × (at + 64 ≤ length out.old) }
    ensures { Written at (data_line (label_at (geometry_of g) table.now k)) 64 out.old out.new result }
{
    let f1 = dscb::record_at(table, k);
    let slot3 = dscb::link(f1, g);
    let f3 = dscb::record_at(table, slot3);
    let n = f1[DS1NOEPV];
    let many = tracks_of(f1, f3, usize::from(n), g.heads);
    put_data(f1, many, u32::from(n), out, at)
}

// Writes the line of slot k, if it has a label.
fn put_slot(table: &[u8], k: usize, g: Geometry, out: &mut [u8], at: usize) -> usize
    requires { (length table.now ≡ 140 * slots (geometry_of g)) × (k < slots (geometry_of g)) × All (Listable (geometry_of g) table.now) (at_slot (geometry_of g) table.now k) × (at + 64 ≤ length out.old) }
    ensures { Written at (flat data_line (at_slot (geometry_of g) table.now k)) 64 out.old out.new result }
{
    let rec = dscb::record_at(table, k);
    if rec[DS1FMTID] != FORMAT1 {
        return at;
    }
    put_label(table, k, g, out, at)
}

// Writes the lines of the data sets, by slot.
fn data_lines(table: &[u8], g: Geometry, out: &mut [u8], at: usize) -> usize
    requires { (length table.now ≡ 140 * slots (geometry_of g)) × All (Listable (geometry_of g) table.now) (labels_below (geometry_of g) table.now (slots (geometry_of g))) × (at + 29952 ≤ length out.old) }
    ensures { Written at (flat data_line (labels_below (geometry_of g) table.now (slots (geometry_of g)))) 29952 out.old out.new result }
{
    let mut p = at;
    for k in 0..g.slots() {
        p = put_slot(table, k, g, out, p);
    }
    p
}

// ---- the whole

// Writes the line of the number of format 0s.
fn put_slots(out: &mut [u8], at: usize, n: usize) -> usize
    requires { (at + 64 ≤ length out.old) × (n ≤ 468) }
    ensures { Written at (slot_line n) 64 out.old out.new result }
{
    let r = slot_line(&mut out[at..], n as u32);
    at + r
}

// Writes the listing of a taken table, which has `format0s` format 0s.
fn list_taken(
    table: &[u8],
    g: Geometry,
    format0s: usize,
    free_tracks: &[u64],
    out: &mut [u8],
) -> usize
    requires { ReadyToList (geometry_of g) format0s table.now free_tracks.now × (length free_tracks.now ≡ 1024) × (1000000 ≤ length out.old) }
    ensures { Written 0 (listing_of (read table.now)) 1000000 out.old out.new result }
{
    let a = volume_line(out, u32::from(g.cylinders), u32::from(g.heads));
    let b = data_lines(table, g, out, a);
    let c = free_lines(free_tracks, g.tracks(), out, b);
    put_slots(out, c, format0s)
}

// Writes the listing of any table, taken or not, and gives back its length. The maps are room to work in; every track is free in
// that of tracks.
pub fn list(table: &[u8], free_tracks: &mut [u64], free_slots: &mut [u64], out: &mut [u8]) -> usize
    requires { (free_tracks.old ≡ ones 1024) × (length free_slots.old ≡ 8) × (1000000 ≤ length out.old) }
    ensures { (length out.new ≡ length out.old) × (take result out.new ≡ listing table.now) × (result ≤ 1000000) }
{
    if !check_table::good_length(table) {
        return refusal_line(out, Refusal::Length as u32);
    }
    let Some(verdict) = check_table::check(table, free_tracks, free_slots) else {
        return refusal_line(out, Refusal::Unsound as u32);
    };
    list_taken(table, verdict.geometry, verdict.format0s, free_tracks, out)
}
