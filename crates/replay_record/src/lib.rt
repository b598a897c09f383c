// Recorded calls (docs/REPLAY.md): the fields of a record, the digest of a buffer, and the line that is printed.
#![tactic(auto)]

ghost use Rattle.std.specs.Prelude.{◌≡◌, ◌+◌, ◌*◌, ◌≤◌, ◌<◌, ◌∷◌, get_or, length, min};
ghost use Rattle.model.specs.Basics.{part};
ghost use Rattle.rows.specs.Text.{Written};
ghost use Rattle.replay_record.specs.Line.{be4, digest, hex, hex_byte, hex_digit, line_of, two_digits};
ghost use Rattle.replay_record.specs.Asked.{answer_lent, bytes_of, date_asked, get4, labels_lent, name_asked, other_of, over_at, table_lent};

// ---- the fields of a record

// The four bytes from place i on, the high one first.
pub fn four(s: &[u8], i: usize) -> u32
    requires { i + 3 < length s.now }
    ensures { result ≡ get4 s.now i }
{
    u32::from_be_bytes([s[i], s[i + 1], s[i + 2], s[i + 3]])
}

// How many bytes of the answer buffer are lent.
#[tactic(auto, unfolding(crate::specs::Asked::answer_lent))]
pub fn answer_lent(asked: &[u8]) -> usize
    requires { length asked.now ≡ 136 }
    ensures { (result ≡ answer_lent asked.now) × (result ≤ 32) }
{
    usize::from(asked[3]).min(32)
}

// How many bytes of the labels buffer are lent.
#[tactic(auto, unfolding(crate::specs::Asked::labels_lent))]
pub fn labels_lent(asked: &[u8]) -> usize
    requires { length asked.now ≡ 136 }
    ensures { (result ≡ labels_lent asked.now) × (result ≤ 288) }
{
    usize::from(rows::two(asked, 4)).min(288)
}

// How many bytes of the table buffer are lent.
#[tactic(auto, unfolding(crate::specs::Asked::table_lent))]
pub fn table_lent(asked: &[u8]) -> usize
    requires { length asked.now ≡ 136 }
    ensures { (result ≡ table_lent asked.now) × (result < 65536) }
{
    usize::from(rows::two(asked, 6))
}

// The lent bytes from a place on: as many as byte `counted` tells, but no more than are meant.
fn lent_part(asked: &[u8], at: usize, counted: usize, most: usize) -> &[u8]
    requires { (counted < length asked.now) × (at + most ≤ length asked.now) }
    ensures { result.now ≡ part at (min (get_or asked.now counted 0) most) asked.now }
{
    let n = usize::from(asked[counted]).min(most);
    &asked[at..at + n]
}

// The lent bytes of the name.
#[tactic(auto, unfolding(crate::specs::Asked::name_asked))]
pub fn name_of(asked: &[u8]) -> &[u8]
    requires { length asked.now ≡ 136 }
    ensures { result.now ≡ name_asked asked.now }
{
    lent_part(asked, 28, 1, 46)
}

// The lent bytes of the second name or the attributes.
#[tactic(auto, unfolding(crate::specs::Asked::other_of))]
pub fn other_of(asked: &[u8]) -> &[u8]
    requires { length asked.now ≡ 136 }
    ensures { result.now ≡ other_of asked.now }
{
    lent_part(asked, 74, 2, 54)
}

// The lent bytes of the date.
#[tactic(auto, unfolding(crate::specs::Asked::date_asked))]
pub fn date_of(asked: &[u8]) -> &[u8]
    requires { length asked.now ≡ 136 }
    ensures { result.now ≡ date_asked asked.now }
{
    lent_part(asked, 129, 128, 7)
}

// The bytes that are put.
#[tactic(auto, unfolding(crate::specs::Asked::bytes_of))]
pub fn bytes_of(asked: &[u8]) -> &[u8]
    requires { length asked.now ≡ 136 }
    ensures { result.now ≡ bytes_of asked.now }
{
    lent_part(asked, 28, 1, 100)
}

// Puts bytes from a place on, as far as there are places.
pub fn put_over(table: &mut [u8], place: usize, s: &[u8])
    ensures { table.new ≡ over_at place s.now table.old }
{
    if place < table.len() {
        let n = s.len().min(table.len() - place);
        rows::copy(&s[..n], &mut table[place..]);
    }
}

// ---- the digest

// Adler-32.
pub fn digest(s: &[u8]) -> u32
    ensures { result ≡ digest s.now }
{
    let mut a: u32 = 1;
    let mut b: u32 = 0;
    for &x in s {
        a = (a + u32::from(x)) % 65521;
        b = (b + a) % 65521;
    }
    b * 65536 + a
}

// ---- parts of the line; each function gives back the place behind what it wrote

// The hexadecimal digit of a number.
fn digit(v: u8) -> u8
    requires { v < 16 }
    ensures { result ≡ hex_digit v }
{
    match v {
        0..=9 => b'0' + v,
        _ => b'A' + (v - 10),
    }
}

// Writes a byte in hexadecimal.
fn put_hex(out: &mut [u8], at: usize, v: u8) -> usize
    requires { at + 2 ≤ length out.old }
    ensures { Written at (hex_byte v) 2 out.old out.new result }
{
    let p = rows::put_byte(out, at, digit(v / 16));
    rows::put_byte(out, p, digit(v % 16))
}

// Writes a blank and the last two decimal digits.
fn put_result(out: &mut [u8], at: usize, v: u32) -> usize
    requires { at + 3 ≤ length out.old }
    ensures { Written at (0x20 ∷ two_digits v) 3 out.old out.new result }
{
    let p = rows::put_byte(out, at, b' ');
    let q = rows::put_byte(out, p, (0x30 + v / 10 % 10) as u8);
    rows::put_byte(out, q, (0x30 + v % 10) as u8)
}

// Writes bytes in hexadecimal.
fn put_hexes(out: &mut [u8], at: usize, s: &[u8]) -> usize
    requires { at + 2 * length s.now ≤ length out.old }
    ensures { Written at (hex s.now) (2 * length s.now) out.old out.new result }
{
    let mut p = at;
    for &x in s {
        p = put_hex(out, p, x);
    }
    p
}

// Writes a blank and a number of four bytes in hexadecimal.
fn put_four(out: &mut [u8], at: usize, v: u32) -> usize
    requires { at + 9 ≤ length out.old }
    ensures { Written at (0x20 ∷ hex (be4 v)) 9 out.old out.new result }
{
    let p = rows::put_byte(out, at, b' ');
    put_hexes(out, p, &v.to_be_bytes())
}

// Writes the line of a record.
pub fn put_line(out: &mut [u8], op: u8, res: u32, answer: &[u8], table: u32, labels: u32)
    requires { (length out.old ≡ 73) × (length answer.now ≡ 24) }
    ensures { out.new ≡ line_of op res answer.now table labels }
{
    let a = put_hex(out, 0, op);
    let b = put_result(out, a, res);
    let c = rows::put_byte(out, b, b' ');
    let d = put_hexes(out, c, answer);
    let e = put_four(out, d, table);
    let f = put_four(out, e, labels);
    rows::put_byte(out, f, b'\n');
}
