// The 24 answer bytes. They are built in an array, so that their number is known, and copied in one go.
#![tactic(auto)]

ghost use Rattle.std.specs.Prelude.{◌≡◌, List, map, ◌+◌, ◌≤◌, ◌<◌, length, take};
ghost use Rattle.model.specs.Basics.{be2, zeros};
ghost use Rattle.model.specs.Model.{Run, total};
ghost use Rattle.model.specs.Predicates.{All};
ghost use Rattle.rules.specs.Calls.{answer, date_bytes, given_back, granted, numbers};
ghost use Rattle.choose_pieces.specs.Grant.{row};
ghost use Rattle.dscb_write.specs.Put.{put_at};
ghost use Rattle.answers.specs.Bytes24.{piece_bytes};

// Puts a number of two bytes.
fn put_two(all: &mut [u8; 24], at: usize, v: u16)
    requires { at + 1 < 24 }
    ensures { all.new ≡ put_at all.old at (be2 v) }
{
    all[at..at + 2].copy_from_slice(&v.to_be_bytes());
}

// Puts a piece: its start and its count.
fn put_piece(all: &mut [u8; 24], at: usize, p: [u16; 2])
    requires { at + 3 < 24 }
    ensures { all.new ≡ put_at all.old at (piece_bytes p) }
{
    put_two(all, at, p[0]);
    put_two(all, at + 2, p[1]);
}

// The answer of a call that reports no number.
pub fn put_nothing(out: &mut [u8])
    requires { length out.old ≡ 24 }
    ensures { out.new ≡ zeros 24 }
{
    out.fill(0);
}

// The answer of a conversion: these bytes first.
pub fn put_first(out: &mut [u8], bs: &[u8])
    requires { (length out.old ≡ 24) × (length bs.now ≤ 24) }
    ensures { out.new ≡ answer (date_bytes bs.now) }
{
    out.fill(0);
    rows::copy(bs, out);
}

// The answer of a call that gave n tracks back.
pub fn put_back(out: &mut [u8], n: u32)
    requires { (length out.old ≡ 24) × (n < 65536) }
    ensures { out.new ≡ answer (given_back n) }
{
    let mut all = [0u8; 24];
    put_two(&mut all, 0, n as u16);
    out.copy_from_slice(&all);
}

// The answer of the space inquiry.
pub fn put_numbers(out: &mut [u8], six: [u32; 6])
    requires { (length out.old ≡ 24) × All (λ x. x < 65536) six }
    ensures { out.new ≡ answer (numbers six) }
{
    let mut all = [0u8; 24];
    for (i, n) in six.iter().enumerate() {
        put_two(&mut all, 2 * i, *n as u16);
    }
    out.copy_from_slice(&all);
}

// The answer of a call that was granted the first `count` of these pieces, which have so many tracks.
pub fn put_granted(out: &mut [u8], pieces: [[u16; 2]; 5], count: usize, tracks: u32)
    requires { (length out.old ≡ 24) × (count ≤ 5) × (tracks < 65536) }
    ensures { (ps : List Run) → length ps ≡ count → total ps ≡ tracks → take count pieces ≡ map row ps → out.new ≡ answer (granted ps) }
{
    let mut all = [0u8; 24];
    put_two(&mut all, 0, tracks as u16);
    all[2] = count as u8;
    for (i, p) in pieces[..count].iter().enumerate() {
        put_piece(&mut all, 3 + 4 * i, *p);
    }
    out.copy_from_slice(&all);
}
