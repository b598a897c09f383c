// EBCDIC characters: those of data set names and the rule for names; label bytes as printable characters.
#![tactic(auto)]

ghost use Rattle.std.specs.Prelude.{◌≡◌, cond, ◌+◌, ◌≤◌, ◌<◌, length};
ghost use Rattle.rules.specs.Table.{good_name, in_part, starts_part};
ghost use Rattle.ebcdic.specs.Pairs.{Tells, brief, class_of, fit, least_of_four, sixteen_to, wanted_after};
ghost use Rattle.ebcdic.specs.Letters.{PartEnd, in_low, in_set};

pub mod listing;

// ---- names

// The characters of names as sets of bits: bit i of a low set is X'40' + i, of a high one X'C0' + i. Names have no others.
// A test of one bit costs less than the ranges, and less than an array, which is made anew where it is used.
const STARTS_LOW: u64 = 0x1800_0000_0800_0000; // 5B, 7B, 7C

const STARTS_HIGH: u64 = 0x0000_03fc_03fe_03fe; // C1 to C9, D1 to D9, E2 to E9

const PARTS_LOW: u64 = 0x1800_0001_0800_0000; // and 60

const PARTS_HIGH: u64 = 0x03ff_03fc_03fe_03fe; // and F0 to F9

// Whether the set has the bit of c.
fn has(set: u64, c: u8) -> bool
    ensures { result ≡ in_set set c }
{
    (set >> (c % 64)) % 2 == 1
}

// Whether c is one of X'40' to X'7F', and in the set.
fn has_low(set: u64, c: u8) -> bool
    ensures { result ≡ in_low set c }
{
    matches!(c, 0x40..=0x7F) && has(set, c)
}

// Whether c is a letter or national: it may start a part of a name.
pub fn starts_part(c: u8) -> bool
    ensures { result ≡ starts_part c }
{
    if c >= 0xC0 {
        has(STARTS_HIGH, c)
    } else {
        has_low(STARTS_LOW, c)
    }
}

// Whether c may stand in a part of a name, behind its start.
pub fn in_part(c: u8) -> bool
    ensures { result ≡ in_part c }
{
    if c >= 0xC0 {
        has(PARTS_HIGH, c)
    } else {
        has_low(PARTS_LOW, c)
    }
}

// Where the characters that may stand in a part, from place `from` on, end.
fn part_end(name: &[u8], from: usize) -> usize
    requires { from ≤ length name.now }
    ensures { PartEnd name.now from result }
{
    (from..name.len())
        .find(|&i| !in_part(name[i]))
        .unwrap_or(name.len())
}

// Whether a name obeys the rule: parts of 1 to 8 characters joined by periods, then blanks. A turn sees one part, so no range counts
// the turns. It is a function apart in the machine's code too: inlined, its registers would be saved for every name.
#[inline(never)]
fn parts_ok(name: &[u8]) -> bool
    ensures { result ≡ good_name name.now }
{
    let mut i = 0;
    while i < name.len() {
        if !starts_part(name[i]) {
            return false;
        }
        let e = part_end(name, i + 1);
        if e - i > 8 {
            return false;
        }
        if e == name.len() {
            return true;
        }
        if name[e] != 0x4B {
            return rows::all_are(&name[e..], 0x40);
        }
        i = e + 1;
    }
    false
}

// All bits where b is true, else none.
fn ones_if(b: bool) -> u8
    ensures { result ≡ cond b 255 0 }
{
    if b { 255 } else { 0 }
}

// What a character is: 4 one of names, and 1 where it starts a part, 8 where it is a blank; 0 for any other. Without a branch, so that
// sixteen characters are done at a time.
fn class_of(c: u8) -> u8
    ensures { result ≡ class_of c }
{
    let low = c % 16;
    let a = ones_if((c & 0xEF) >= 0xC1);
    let b = ones_if(low <= 9);
    let e = ones_if((c | 1) != 0xE1);
    let f = ones_if(c < 0xF0);
    let n = ones_if((c | 0x20) == 0x7B);
    let m = ones_if(c == 0x7C);
    let h = ones_if(c == 0x60);
    let p = ones_if(c == 0x4B);
    let q = ones_if(c == 0x40) & 12;
    let high = a & b & e;
    let nat = n | m;
    let start = (high & f) | nat;
    let all = (high | nat) | (h | p);
    ((start & 1) | (all & 4)) | q
}

// What the character behind c must be.
fn wanted_after(c: u8) -> u8
    ensures { result ≡ wanted_after c }
{
    let p = ones_if(c == 0x4B);
    let q = ones_if(c == 0x40);
    4 ^ ((p & 5) | (q & 12))
}

// 0 where the character behind place i may stand there, by the one at place i.
fn misfit(name: &[u8], i: usize) -> u8
    requires { i + 1 < length name.now }
    ensures { Tells result (fit name.now i) }
{
    wanted_after(name[i]) & (class_of(name[i + 1]) ^ 255)
}

// The least of the four characters from place i on.
fn least_of_four(name: &[u8], i: usize) -> u8
    requires { i + 3 < length name.now }
    ensures { result ≡ least_of_four name.now i }
{
    let a = name[i].min(name[i + 1]);
    let b = name[i + 2].min(name[i + 3]);
    a.min(b)
}

// 0 where one of the nine characters from place i on is a period or a blank, the least characters of names: no part is longer than
// eight.
fn overlong(name: &[u8], i: usize) -> u8
    requires { i + 8 < length name.now }
    ensures { Tells result (brief name.now i) }
{
    let eight = least_of_four(name, i).min(least_of_four(name, i + 4));
    ones_if(eight.min(name[i + 8]) > 0x4B)
}

// Whether the pairs of neighbours at the 16 places from `pair` on fit, and the rows of nine at the 16 from `row` on are brief. No turn
// branches, so that all are done at a time.
fn sixteen_ok(name: &[u8], pair: usize, row: usize) -> bool
    requires { (length name.now ≡ 44) × (pair ≤ 27) × (row ≤ 20) }
    ensures { result ≡ sixteen_to name.now pair row 16 }
{
    let mut bad = 0;
    for i in 0..16 {
        bad |= misfit(name, pair + i) | overlong(name, row + i);
    }
    bad == 0
}

// Whether a name obeys the rule. Of 44 characters, as all names on a volume, the pairs of neighbours and the rows of nine are looked at,
// sixteen at a time, up to sixteen that start with a blank; the last sixteen overlap those before. The name is lent on as a part:
// handed on as it is, it would be copied, which waits for the caller's stores.
pub fn name_ok(name: &[u8]) -> bool
    ensures { result ≡ good_name name.now }
{
    if name.len() != 44 {
        return parts_ok(name);
    }
    if !starts_part(name[0]) {
        return false;
    }
    for at in (0..44).step_by(16) {
        if name[at] == 0x40 {
            return rows::all_are(&name[at..], 0x40);
        }
        if !sixteen_ok(&name[0..], at.min(27), at.min(20)) {
            return false;
        }
    }
    name[43] != 0x4B
}
