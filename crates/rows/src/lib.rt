// Numbers and rows of bytes: read, compared eight bytes at a time; text written into a buffer.
#![tactic(auto)]

ghost use Rattle.std.specs.Prelude.{◌≡◌, ◌+◌, ◌≤◌, ◌<◌, [], ◌∷◌, ◌++◌, length, take, drop};
ghost use Rattle.model.specs.Basics.{get2, get3, part, same};
ghost use Rattle.rows.specs.Words.{all_are, word4, word8};
ghost use Rattle.rows.specs.Text.{Written};

// ---- numbers and rows of bytes

// Copies bytes over the first ones of a buffer, which is as long or longer.
pub fn copy(from: &[u8], to: &mut [u8])
    requires { length from.now ≤ length to.old }
    ensures { (length to.new ≡ length to.old) × (to.new ≡ take (length from.now) from.now ++ drop (length from.now) to.old) }
{
    to[..from.len()].copy_from_slice(from);
}

// The two bytes from place i on, the high one first.
pub fn two(s: &[u8], i: usize) -> u16
    requires { i + 1 < length s.now }
    ensures { (result ≡ get2 s.now i) × (result < 65536) }
{
    u16::from_be_bytes([s[i], s[i + 1]])
}

// The three bytes from place i on.
pub fn three(s: &[u8], i: usize) -> u32
    requires { i + 2 < length s.now }
    ensures { (result ≡ get3 s.now i) × (result < 16777216) }
{
    u32::from_be_bytes([0, s[i], s[i + 1], s[i + 2]])
}

// Four bytes from place i on as a number, the low one first.
pub fn word4(s: &[u8], i: usize) -> u64
    requires { i + 3 < length s.now }
    ensures { (result ≡ word4 s.now i) × (result < 4294967296) }
{
    u64::from(u32::from_le_bytes([s[i], s[i + 1], s[i + 2], s[i + 3]]))
}

// Eight bytes from place i on as a number, the low one first: as a sum of its halves it is one load in the end. Eight bytes named one by
// one for `u64::from_le_bytes` would be no plainer.
pub fn word8(s: &[u8], i: usize) -> u64
    requires { i + 7 < length s.now }
    ensures { result ≡ word8 s.now i }
{
    let lo = word4(s, i);
    let hi = word4(s, i + 4);
    lo + hi * 4294967296
}

// Whether every byte of s is v, byte by byte: for short rows.
fn short_are(s: &[u8], v: u8) -> bool
    ensures { result ≡ all_are v s.now }
{
    let mut unlike = 0;
    for x in s {
        unlike |= x ^ v;
    }
    unlike == 0
}

// The same for 8 to 32 bytes: two words, or four, which overlap. Most rows are so short, and a loop would cost more.
fn middling_are(s: &[u8], v: u8) -> bool
    requires { (8 ≤ length s.now) × (length s.now ≤ 32) }
    ensures { result ≡ all_are v s.now }
{
    let n = s.len();
    let all = u64::from(v) * 0x0101_0101_0101_0101;
    let last = word8(s, n - 8) ^ all;
    let ends = last | (word8(s, 0) ^ all);
    if n <= 16 {
        return ends == 0;
    }
    let mid = (word8(s, 8) ^ all) | (word8(s, n - 16) ^ all);
    ends | mid == 0
}

// Whether every byte of s is v, by eight bytes; the last eight come first, so that no rest is left over. There is no exit
// from the loop, so that it is done many words at a time.
pub fn all_are(s: &[u8], v: u8) -> bool
    ensures { result ≡ all_are v s.now }
{
    let n = s.len();
    if n < 8 {
        return short_are(s, v);
    }
    if n <= 32 {
        return middling_are(s, v);
    }
    let all = u64::from(v) * 0x0101_0101_0101_0101;
    let last = n - 8;
    let mut unlike = word8(s, last) ^ all;
    for i in (0..last).step_by(8) {
        unlike |= word8(s, i) ^ all;
    }
    unlike == 0
}

// Whether the n bytes of s from place i on are all v.
pub fn part_is(s: &[u8], i: usize, n: usize, v: u8) -> bool
    requires { i + n ≤ length s.now }
    ensures { result ≡ all_are v (part i n s.now) }
{
    all_are(&s[i..i + n], v)
}

// Whether a and b, of one length, hold the same bytes, byte by byte: for short rows.
fn short_same(a: &[u8], b: &[u8]) -> bool
    requires { length a.now ≡ length b.now }
    ensures { result ≡ same a.now b.now }
{
    let mut unlike = 0;
    for (x, y) in a.iter().zip(b) {
        unlike |= x ^ y;
    }
    unlike == 0
}

// Whether a and b hold the same bytes, by eight bytes, as in all_are.
pub fn same(a: &[u8], b: &[u8]) -> bool
    ensures { result ≡ same a.now b.now }
{
    let n = a.len();
    if n != b.len() {
        return false;
    }
    if n < 8 {
        return short_same(a, b);
    }
    let last = n - 8;
    let mut unlike = word8(a, last) ^ word8(b, last);
    for i in (0..last).step_by(8) {
        unlike |= word8(a, i) ^ word8(b, i);
    }
    unlike == 0
}

// ---- text written into a buffer

// Writes one byte, and gives back the place behind it.
pub fn put_byte(out: &mut [u8], at: usize, b: u8) -> usize
    requires { at < length out.old }
    ensures { Written at (b ∷ []) 1 out.old out.new result }
{
    out[at] = b;
    at + 1
}
