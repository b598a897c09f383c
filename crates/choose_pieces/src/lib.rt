// The choice of pieces out of the free tracks, for any unit: 1 track, or the tracks of a cylinder.
// One pass over the free extents that the table lists finds the best fit and the five longest candidates. It ends at a candidate
// that has exactly the amount: no later one is better, and the five longest are then of no use.
#![tactic(auto)]

ghost use Rattle.std.specs.Prelude.{◌≡◌, true, List, [], map, sum_by, ◌+◌, ◌-◌, ◌*◌, ◌≤◌, ◌<◌, length, take};
ghost use Rattle.model.specs.Basics.{map_option};
ghost use Rattle.model.specs.Model.{Run, run, slots, total};
ghost use Rattle.model.specs.Choice.{whole_in, first_part, gather, or_none, scale};
ghost use Rattle.dscb.specs.Forms.{geometry_of};
ghost use Rattle.free_extents.specs.FreeList.{Entries, Listed};
ghost use Rattle.choose_pieces.specs.Grant.{granted_runs, row, grant_of, rows_in};
ghost use Rattle.choose_pieces.specs.Options.{Numbered, serve_first, sought, to_option};
ghost use Rattle.choose_pieces.specs.Pass.{to_run, to_runs, padded, better, fits_better, entered, LookedOver, Shorter, Surveyed, Within};

use dscb::Geometry;
use std::mem;

// Units that follow each other: the first, and how many. A row of none has the count 0, and needs no Option: it serves no amount,
// and every other one is longer.
#[derive(Clone, Copy)]
struct Units {
    start: u32,
    count: u32,
}

// The whole units of u tracks from track `from` up to track `to`. A unit of 1 track costs no division.
fn whole(u: u32, from: u32, to: u32) -> Units
    requires { (1 ≤ u) × (u ≤ 255) × (from ≤ to) × (to ≤ 16777216) }
    ensures { run result.start result.count ≡ whole_in u (run from (to - from)) }
{
    if u == 1 {
        return Units {
            start: from,
            count: to - from,
        };
    }
    let start = (from + u - 1) / u;
    let end = to / u;
    Units {
        start,
        count: end.saturating_sub(start),
    }
}

// Whether a candidate of that size serves the amount, and better than the best so far, 0 for none.
fn fits_better(amount: u32, best: u32, size: u32) -> bool
    ensures { result ≡ fits_better amount best size }
{
    amount <= size && (best == 0 || size < best)
}

// Enters a candidate among the five longest, behind those that are as long. Most are shorter than the fifth.
fn enter(five: &mut [Units; 5], c: Units)
    requires { length five.old ≡ 5 }
    ensures { (length five.new ≡ 5) × (to_runs five.new ≡ entered (to_run c) (to_runs five.old)) }
{
    if c.count <= five[4].count {
        return;
    }
    let mut held = c;
    for place in five.iter_mut() {
        if place.count < c.count {
            mem::swap(place, &mut held);
        }
    }
}

// Looks at one free extent: the result is the best fit then, and its candidate is entered among the five longest. Most free
// extents of a worn volume have no whole cylinder; they cost no division.
fn look(u: u32, amount: u32, start: u32, count: u32, best: Units, five: &mut [Units; 5]) -> Units
    requires { (1 ≤ u) × (u ≤ 255) × (1 ≤ amount) × (start < 65536) × (count ≤ 16711680) × (length five.old ≡ 5) }
    ensures { (length five.new ≡ 5) × (run result.start result.count ≡ better amount (run best.start best.count) (whole_in u (run start count))) × (to_runs five.new ≡ entered (whole_in u (run start count)) (to_runs five.old)) }
{
    if count < u {
        return best;
    }
    let c = whole(u, start, start + count);
    enter(five, c);
    if fits_better(amount, best.count, c.count) {
        return c;
    }
    best
}

// The fewest tracks that a free extent of use may have: with fewer it has neither the amount nor more units than the fifth longest.
fn least_of_use(u: u32, amount: u32, fifth: u32) -> u64
    requires { u ≤ 255 }
    ensures { (result ≤ amount * u) × (result ≤ (fifth + 1) * u) }
{
    (u64::from(fifth) + 1).min(u64::from(amount)) * u64::from(u)
}

// Looks at the entries of one format 5, up to one that fits exactly. Most are of no use once five longer ones are known.
fn look_member(rec: &[u8], h: u32, u: u32, amount: u32, best: Units, five: &mut [Units; 5]) -> Units
    requires { (length rec.now ≡ 140) × (1 ≤ h) × (h ≤ 255) × (1 ≤ u) × (u ≤ 255) × (1 ≤ amount) × (length five.old ≡ 5) }
    ensures { (length five.new ≡ 5) × ((f : List Run) → Entries h rec.now f → LookedOver u amount f (run best.start best.count) (run result.start result.count) (to_runs five.old) (to_runs five.new)) }
{
    let mut now = best;
    let mut least = least_of_use(u, amount, five[4].count);
    for j in 0..26 {
        let hole = free_extents::entry(rec, j, h);
        if hole.count == 0 {
            return now;
        }
        if u64::from(hole.count) < least {
            continue;
        }
        now = look(u, amount, hole.start, hole.count, now, five);
        if now.count == amount {
            return now;
        }
        least = least_of_use(u, amount, five[4].count);
    }
    now
}

// Whether each entry of a format 5 is shorter than a unit of u tracks. It takes the cylinders of all entries together, and the
// most odd tracks: a loop without a branch costs less than to read the entries one by one.
fn all_shorter(rec: &[u8], u: u32) -> bool
    requires { length rec.now ≡ 140 }
    ensures { result ≡ true → Shorter u rec.now }
{
    let mut cylinders: u8 = 0;
    let mut odd: u8 = 0;
    for j in 0..26 {
        let p = dscb_write::entry_place(j);
        cylinders |= rec[p + 2] | rec[p + 3];
        odd = odd.max(rec[p + 4]);
    }
    cylinders == 0 && u32::from(odd) < u
}

// Looks at one format 5; where `pass` is set, one that has no unit is passed over.
fn look_or_pass(
    rec: &[u8],
    pass: bool,
    h: u32,
    u: u32,
    amount: u32,
    best: Units,
    five: &mut [Units; 5],
) -> Units
    requires { (length rec.now ≡ 140) × (1 ≤ h) × (h ≤ 255) × (1 ≤ u) × (u ≤ 255) × (1 ≤ amount) × (length five.old ≡ 5) }
    ensures { (length five.new ≡ 5) × ((f : List Run) → Entries h rec.now f → LookedOver u amount f (run best.start best.count) (run result.start result.count) (to_runs five.old) (to_runs five.new)) }
{
    if pass && all_shorter(rec, u) {
        return best;
    }
    look_member(rec, h, u, amount, best, five)
}

// One pass over the free extents that the table lists: the best fit is the result; where there is none, the five longest are
// in `five`. The first format 5, often the only one, is never passed over. The walk ends where the chain does; that it ends at
// all is seen by the number of slots.
fn survey(
    table: &[u8],
    g: Geometry,
    pass: bool,
    u: u32,
    amount: u32,
    five: &mut [Units; 5],
) -> Units
    requires limits { (length table.now ≡ 140 * slots (geometry_of g)) × (1 ≤ u) × (u ≤ 255) × (1 ≤ amount) }
    requires five_len { (length five.old ≡ 5) × (to_runs five.old ≡ padded 5 []) }
    ensures { (f : List Run) → Listed (geometry_of g) table.now f → Surveyed u amount f (run result.start result.count) (to_runs five.new) }
{
    let mut best = Units { start: 0, count: 0 };
    let mut k: usize = 1;
    for _ in 0..g.slots() {
        if k == 0 {
            return best;
        }
        best = look_or_pass(
            dscb::record_at(table, k),
            pass && k != 1,
            u32::from(g.heads),
            u,
            amount,
            best,
            five,
        );
        if best.count == amount {
            return best;
        }
        k = free_extents::member_after(table, g, k);
    }
    best
}

// The survey for units of u tracks. For single tracks no format 5 is passed over, since every entry has one. The constants give
// them a loop of their own, which costs a quarter less; but for `false` the compiler would make the two calls one.
fn survey_for(table: &[u8], g: Geometry, u: u32, amount: u32, five: &mut [Units; 5]) -> Units
    requires limits { (length table.now ≡ 140 * slots (geometry_of g)) × (1 ≤ u) × (u ≤ 255) × (1 ≤ amount) }
    requires five_len { (length five.old ≡ 5) × (to_runs five.old ≡ padded 5 []) }
    ensures { (f : List Run) → Listed (geometry_of g) table.now f → Surveyed u amount f (run result.start result.count) (to_runs five.new) }
{
    if u == 1 {
        return survey(table, g, false, 1, amount, five);
    }
    survey(table, g, true, u, amount, five)
}

// A piece: the tracks of the first n units of a candidate.
fn piece(u: u32, c: Units, n: u32) -> [u16; 2]
    requires { (c.start * u ≤ 65535) × (n * u ≤ 65535) }
    ensures { result ≡ row (scale u (first_part n (to_run c))) }
{
    [(c.start * u) as u16, (n * u) as u16]
}

// How many units the five longest have.
fn sum(five: [Units; 5]) -> u32
    requires { sum_by (λ c. c.count) five < 4294967296 }
    ensures { result ≡ sum_by (λ c. c.count) five }
{
    five.iter().map(|c| c.count).sum()
}

// Takes whole candidates while the rest is longer than the next one, which gives its first part.
fn fill(five: [Units; 5], u: u32, amount: u32) -> [[u16; 2]; 5]
    requires { (1 ≤ u) × (u ≤ 255) × (1 ≤ amount) × (amount ≤ total (to_runs five)) × Within u (to_runs five) }
    ensures { result ≡ grant_of (map_option (map (scale u)) (gather amount (to_runs five))) }
{
    let mut pieces = [[0u16; 2]; 5];
    let mut rest = amount;
    for (k, next) in five.iter().enumerate() {
        if rest <= next.count {
            pieces[k] = piece(u, *next, rest);
            return pieces;
        }
        pieces[k] = piece(u, *next, next.count);
        rest -= next.count;
    }
    pieces
}

// The pieces out of the five longest candidates for an amount that none of them has; none where they are too few.
fn several_pieces(five: [Units; 5], u: u32, amount: u32) -> [[u16; 2]; 5]
    requires { (1 ≤ u) × (u ≤ 255) × (1 ≤ amount) × Within u (to_runs five) }
    ensures { result ≡ grant_of (map_option (map (scale u)) (gather amount (to_runs five))) }
{
    if sum(five) < amount {
        return [[0u16; 2]; 5];
    }
    fill(five, u, amount)
}

// ---- the options of a request

// CONTIG: one piece or nothing. MXIG: the longest candidate whole. ALX: every candidate that serves whole, five at most.
#[derive(Clone, Copy, Debug, PartialEq, Eq)]
pub enum SpaceOption {
    NoOption,
    Contig,
    Mxig,
    Alx,
}

// No option has this number.
#[derive(Clone, Copy, Debug, PartialEq, Eq)]
pub struct UnknownOption(pub u32);

// The option that the host's number tells.
impl TryFrom<u32> for SpaceOption {
    type Error = UnknownOption;

    ghost try_from_gives = { Numbered };

    fn try_from(number: u32) -> Result<SpaceOption, UnknownOption> {
        match number {
            0 => Ok(SpaceOption::NoOption),
            1 => Ok(SpaceOption::Contig),
            2 => Ok(SpaceOption::Mxig),
            3 => Ok(SpaceOption::Alx),
            _ => Err(UnknownOption(number)),
        }
    }
}

// The amount that the survey looks for. MXIG and ALX want the longest: no candidate has 65,536 units, so that the survey finds
// no fit and goes to its end.
fn amount_sought(option: SpaceOption, amount: u32) -> u32
    ensures { result ≡ sought (to_option option) amount }
{
    match option {
        SpaceOption::NoOption => amount,
        SpaceOption::Contig => amount,
        SpaceOption::Mxig => 65536,
        SpaceOption::Alx => 65536,
    }
}

// Takes whole candidates, `most` at most, up to one that is shorter than the amount.
fn whole_pieces(five: [Units; 5], u: u32, amount: u32, most: usize) -> [[u16; 2]; 5]
    requires { (most ≤ 5) × Within u (to_runs five) }
    ensures { result ≡ grant_of (map_option (map (scale u)) (or_none (take most (serve_first amount (to_runs five))))) }
{
    let mut pieces = [[0u16; 2]; 5];
    for (k, c) in five[..most].iter().enumerate() {
        if c.count < amount {
            return pieces;
        }
        pieces[k] = piece(u, *c, c.count);
    }
    pieces
}

// The pieces for an amount of units of u tracks, by an option, out of the free extents that the table lists; none where there
// is no space.
pub fn choose(table: &[u8], g: Geometry, option: SpaceOption, u: u32, amount: u32) -> [[u16; 2]; 5]
    requires limits { (length table.now ≡ 140 * slots (geometry_of g)) × (1 ≤ u) × (u ≤ 255) }
    requires le_amount { (1 ≤ amount) × ((f : List Run) × Listed (geometry_of g) table.now f) }
    ensures { (f : List Run) → Listed (geometry_of g) table.now f → result ≡ grant_of (granted_runs (to_option option) u amount f) }
{
    let mut five = [Units { start: 0, count: 0 }; 5];
    let best = survey_for(table, g, u, amount_sought(option, amount), &mut five);
    if best.count != 0 {
        let mut pieces = [[0u16; 2]; 5];
        pieces[0] = piece(u, best, amount);
        return pieces;
    }
    match option {
        SpaceOption::NoOption => several_pieces(five, u, amount),
        SpaceOption::Contig => [[0u16; 2]; 5],
        SpaceOption::Mxig => whole_pieces(five, u, amount, 1),
        SpaceOption::Alx => whole_pieces(five, u, amount, 5),
    }
}

// What is granted: how many pieces, none where it is 0, and their tracks.
#[derive(Clone, Copy)]
pub struct Chosen {
    pub count: usize,
    pub tracks: u32,
}

// Counts the pieces and their tracks.
pub fn count_pieces(pieces: [[u16; 2]; 5]) -> Chosen
    ensures { (result.count ≡ length (rows_in pieces)) × (result.tracks ≡ total (rows_in pieces)) }
{
    let mut tracks: u32 = 0;
    for (count, piece) in pieces.iter().enumerate() {
        let n = u32::from(piece[1]);
        if n == 0 {
            return Chosen { count, tracks };
        }
        tracks += n;
    }
    Chosen { count: 5, tracks }
}
