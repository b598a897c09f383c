// Names in a table: the lookup, and that no two data sets have the same one.
#![tactic(auto)]

ghost use Rattle.std.specs.Prelude.{◌≡◌, ◌+◌, ◌*◌, ◌≤◌, ◌<◌, length};
ghost use Rattle.names.specs.Find.{is_named, answer_of, find_slot, is_nothing, keyed, mixed, tag_of, has_tag, Tagged, Seen, Entered};

use dscb::places::*;
use dscb::*;
use rows::*;

// Whether the record is a format 1 under this name. The name is asked first: few records have it, and a processor foresees that
// branch. It cannot foresee one on the identifier, where labels stand among other records.
pub fn is_named(rec: &[u8], name: &[u8]) -> bool
    requires { length rec.now ≡ 140 }
    ensures { result ≡ is_named rec.now name.now }
{
    rows::same(&rec[..DS1FMTID], name) && rec[DS1FMTID] == FORMAT1
}

// The first of the n slots that has a format 1 under this name. `None` is document 01's 5, not found.
pub fn find(table: &[u8], n: usize, name: &[u8]) -> Option<usize>
    requires { 140 * n ≤ length table.now }
    ensures { answer_of result ≡ find_slot table.now name.now n }
{
    for k in 0..n {
        if is_named(dscb::record_at(table, k), name) {
            return Some(k);
        }
    }
    None
}

// The eight characters from place i on, changed by a key: the product of both halves, in which changes do not cancel but by chance.
#[tactic(auto, unfolding(crate::specs::Find::keyed))]
fn keyed(name: &[u8], i: usize, key: u64) -> u64
    requires { i + 7 < length name.now }
    ensures { result ≡ keyed name.now i key }
{
    let x = rows::word8(name, i) ^ key;
    (x % 4294967296) * (x / 4294967296)
}

// A number made of a name's 44 characters, eight by eight, the last of which overlap, each eight by a key of their own. The keys are the
// digits of pi: no half of them is made of characters of names, so that no factor is 0.
#[tactic(auto, unfolding(crate::specs::Find::mixed))]
fn mixed(name: &[u8]) -> u64
    requires { length name.now ≡ 44 }
    ensures { result ≡ mixed name.now }
{
    let a = keyed(name, 0, 0x243F_6A88_85A3_08D3) ^ keyed(name, 8, 0x1319_8A2E_0370_7344);
    let b = keyed(name, 16, 0xA409_3822_299F_31D0) ^ keyed(name, 24, 0x082E_FA98_EC4E_6C89);
    let c = keyed(name, 32, 0x4528_21E6_38D0_1377) ^ keyed(name, 36, 0xBE54_66CF_34E9_0C6C);
    (a ^ b) ^ c
}

// 16 bits that differ for most names that do, so that most are told apart by one comparison: the number's halves one upon the other,
// times a prime, and the middle of that.
#[tactic(auto, unfolding(crate::specs::Find::tag_of))]
fn tag(name: &[u8]) -> u16
    requires { length name.now ≡ 44 }
    ensures { result ≡ tag_of name.now }
{
    let x = mixed(name);
    let y = (x ^ (x / 4294967296)) % 4294967296;
    (y * 2654435769 / 65536 % 65536) as u16
}

// Whether the tag is among these. There is no exit from the loop, so that it is done many tags at a time.
fn has_tag(tags: &[u16], t: u16) -> bool
    ensures { result ≡ has_tag tags.now t }
{
    let mut hit = false;
    for x in tags {
        if *x == t {
            hit = true;
        }
    }
    hit
}

// Whether no slot that has its tag here has this name, whose tag is t: only those with the tag are looked at.
fn is_other(table: &[u8], tags: &[u16], t: u16, name: &[u8]) -> bool
    requires { (140 * length tags.now ≤ length table.now) × Tagged table.now (length tags.now) tags.now × (t ≡ tag_of name.now) }
    ensures { result ≡ is_nothing (find_slot table.now name.now (length tags.now)) }
{
    for (j, x) in tags.iter().enumerate() {
        if *x == t && is_named(dscb::record_at(table, j), name) {
            return false;
        }
    }
    true
}

// Whether none of the first slots has this name, whose tag is t; the tags of their labels are at hand, and a mark for each
// remainder of them by 4,096. The marks are bits, in a map of crate bitmap, where what is marked is called free.
fn is_new(table: &[u8], tags: &[u16], seen: &[u64], t: u16, name: &[u8]) -> bool
    requires { (140 * length tags.now ≤ length table.now) × Tagged table.now (length tags.now) tags.now × (t ≡ tag_of name.now) × (length seen.now ≡ 64) × Seen table.now (length tags.now) seen.now }
    ensures { result ≡ is_nothing (find_slot table.now name.now (length tags.now)) }
{
    !bitmap::is_free(seen, t % 4096) || !has_tag(tags, t) || is_other(table, tags, t, name)
}

// Whether slot k has no label, or one with a new name; its tag joins the others then, and its mark.
pub fn enter(table: &[u8], k: usize, tags: &mut [u16], seen: &mut [u64]) -> bool
    requires { (140 * k + 140 ≤ length table.now) × (k < length tags.old) × Tagged table.now k tags.old × (length seen.old ≡ 64) × Seen table.now k seen.old }
    ensures { Entered table.now k tags.old tags.new seen.old seen.new result }
{
    let rec = dscb::record_at(table, k);
    if rec[DS1FMTID] != FORMAT1 {
        return true;
    }
    let name = &rec[..DS1FMTID];
    let t = tag(name);
    if !is_new(table, &tags[..k], seen, t, name) {
        return false;
    }
    tags[k] = t;
    let at = t % 4096;
    bitmap::give_range(seen, at, at + 1);
    true
}
