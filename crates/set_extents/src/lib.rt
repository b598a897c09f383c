// The extents of one data set, granted more or cut: in its records, and in the map of free tracks.
#![tactic(auto)]

ghost use Rattle.std.specs.Prelude.{◌≡◌, ℕ, ◌+◌, ◌*◌, ◌/◌, ◌≤◌, ◌<◌, min, cond, true, List, [], ◌∷◌, map, length, get_or};
ghost use Rattle.model.specs.Basics.{bit};
ghost use Rattle.model.specs.Model.{Geometry, Label, Run, extent, overs, run, total, tracks};
ghost use Rattle.model.specs.Predicates.{All, StaysOf, kept_from, room};
ghost use Rattle.model.specs.Tracks.{tracks_kept, tracks_of};
ghost use Rattle.rules.specs.Calls.{longer};
ghost use Rattle.rules.specs.Joining.{touches};
ghost use Rattle.rules.specs.Layout.{extent_part};
ghost use Rattle.rules.specs.Reading.{read_extent};
ghost use Rattle.dscb.specs.Forms.{geometry_of};
ghost use Rattle.choose_pieces.specs.Grant.{row};
ghost use Rattle.dscb_write.specs.Labels.{Format3, with_extent, first_extents};
ghost use Rattle.set_extents.specs.Change.{GaveTail, InRecords, NoneBelow, PieceIn, SetIn, Spreads, Stays, TookPieces, extents_in, granted, shortened};

// ---- granted

// Takes the pieces out of the map of free tracks. That their tracks are free is known.
pub fn take_pieces(free_tracks: &mut [u64], pieces: &[[u16; 2]])
    requires { All (PieceIn (64 * length free_tracks.old)) pieces.now × All (PieceIn 65535) pieces.now }
    ensures { TookPieces pieces.now free_tracks.old free_tracks.new }
{
    for &[start, count] in pieces {
        bitmap::take_range(free_tracks, start, start + count);
    }
}

// The lowest track of the pieces, or `most` where that is lower.
pub fn lowest_piece(pieces: &[[u16; 2]], most: u32) -> u32
    ensures { (result ≤ most) × ((ps : List Run) → pieces.now ≡ map row ps → NoneBelow result ps) }
{
    let mut lo = most;
    for &[start, _] in pieces {
        lo = lo.min(u32::from(start));
    }
    lo
}

// Adds one extent to the records of a label with n: the first three stand in the format 1.
fn add_extent(
    f1: &mut [u8; 140],
    f3: &mut [u8; 140],
    g: dscb::Geometry,
    n: usize,
    type_byte: u8,
    start: u16,
    count: u16,
)
    requires { (length f1.old ≡ 140) × (length f3.old ≡ 140) × (n < 16) × (1 ≤ count) × (start + count ≤ 65535) }
    ensures { ((l : Label) → length l.extents ≡ n → InRecords (geometry_of g) l f1.old f3.old → InRecords (geometry_of g) (with_extent (extent type_byte (run start count)) l) f1.new f3.new) × (length f1.new ≡ 140) × (length f3.new ≡ 140) }
{
    dscb_write::add_extent1(f1, g, n, type_byte, start, count);
    if n < 3 {
        return;
    }
    dscb_write::add_extent3(f3, g, n, type_byte, start, count);
}

// Adds the pieces to the records of a label with n extents, behind them.
fn add_pieces(
    f1: &mut [u8; 140],
    f3: &mut [u8; 140],
    g: dscb::Geometry,
    n: usize,
    type_byte: u8,
    pieces: &[[u16; 2]],
)
    requires { (length f1.old ≡ 140) × (length f3.old ≡ 140) × (n + length pieces.now ≤ 16) × All (PieceIn 65535) pieces.now }
    ensures { ((l : Label) (ps : List Run) → length l.extents ≡ n → pieces.now ≡ map row ps → InRecords (geometry_of g) l f1.old f3.old → InRecords (geometry_of g) (granted type_byte ps l) f1.new f3.new) × (length f1.new ≡ 140) }
{
    for (k, &[start, count]) in pieces.iter().enumerate() {
        add_extent(f1, f3, g, n + k, type_byte, start, count);
    }
}

// ---- its tracks

// Tracks that follow each other: the first, and how many.
#[derive(Clone, Copy)]
struct Tracks {
    start: u32,
    count: u32,
}

// The tracks of extent e, with h tracks to a cylinder.
fn extent_at(f1: &[u8], f3: &[u8], e: usize, h: u16) -> Tracks
    requires { (length f1.now ≡ 140) × (length f3.now ≡ 140) × (e < 16) × (1 ≤ (read_extent h (extent_part f1.now f3.now e)).over.count) × ((read_extent h (extent_part f1.now f3.now e)).over.start + (read_extent h (extent_part f1.now f3.now e)).over.count ≤ 65535) }
    ensures { run result.start result.count ≡ (read_extent h (extent_part f1.now f3.now e)).over }
{
    let x = dscb::extent_part(f1, f3, e);
    let start = dscb::track_at(x, 2, h);
    let last = dscb::track_at(x, 6, h);
    Tracks {
        start: start as u32,
        count: (last - start) as u32 + 1,
    }
}

// The type of extent e if it `stays`, else X'01'.
fn type_if(f1: &[u8], f3: &[u8], e: usize, stays: bool) -> u8
    requires { (length f1.now ≡ 140) × (length f3.now ≡ 140) × (e < 16) }
    ensures { (h : ℕ) → result ≡ cond stays (read_extent h (extent_part f1.now f3.now e)).type_byte 0x01 }
{
    if stays {
        let x = dscb::extent_part(f1, f3, e);
        return x[0];
    }
    0x01
}

// How many tracks a data set has, and the lowest of them.
#[derive(Clone, Copy)]
pub struct Spread {
    pub all: u32,
    pub lowest: u32,
}

// The tracks of a data set with n extents.
pub fn spread_of(f1: &[u8], f3: &[u8], n: usize, g: dscb::Geometry) -> Spread
    requires { SetIn (geometry_of g) f1.now f3.now n }
    ensures { Spreads (tracks (geometry_of g)) (extents_in (geometry_of g) f1.now f3.now n) result.all result.lowest }
{
    let mut all = 0;
    let mut lowest = g.tracks() as u32;
    for e in 0..n {
        let x = extent_at(f1, f3, e, g.heads);
        all += x.count;
        lowest = lowest.min(x.start);
    }
    Spread { all, lowest }
}

// ---- how many tracks release keeps

// How many of `count` tracks from `start` on are in the cylinder of the track before `start`.
fn in_cylinder(start: u32, count: u32, h: u32) -> u32
    requires { 1 ≤ h }
    ensures { result ≡ min count (room h start) }
{
    let past = start % h;
    if past == 0 {
        return 0;
    }
    count.min(h - past)
}

// How many tracks of an extent stay: the first `left`, and those that go on from the last of these in its cylinder; where none
// is left, those that go on from track `last`.
fn stays_of(left: u32, last: u32, start: u32, count: u32, h: u32) -> u32
    requires { (1 ≤ h) × (1 ≤ count) × (start + count ≤ 65535) × (last ≤ 65535) }
    ensures { StaysOf h left last start count result }
{
    if count <= left {
        return count;
    }
    if left == 0 && start != last + 1 {
        return 0;
    }
    left + in_cylinder(start + left, count - left, h)
}

// How many tracks of a data set with n extents stay where its first `keep` stay and with them the rest of their cylinder.
fn to_cylinder_end(f1: &[u8], f3: &[u8], n: usize, g: dscb::Geometry, keep: u32) -> u32
    requires { SetIn (geometry_of g) f1.now f3.now n }
    ensures { result ≡ kept_from g.heads keep 0 (tracks_of (overs (extents_in (geometry_of g) f1.now f3.now n))) }
{
    let mut kept = 0;
    let mut left = keep;
    let mut last = 0;
    for e in 0..n {
        let x = extent_at(f1, f3, e, g.heads);
        let stay = stays_of(left, last, x.start, x.count, u32::from(g.heads));
        kept += stay;
        if stay < x.count {
            return kept;
        }
        left = left.saturating_sub(stay);
        last = x.start + stay - 1;
    }
    kept
}

// How many tracks of a data set with this unit and n extents stay where the block TTR is its last.
pub fn tracks_kept(f1: &[u8], f3: &[u8], n: usize, g: dscb::Geometry, unit: u8, ttr: u32) -> u32
    requires { SetIn (geometry_of g) f1.now f3.now n × (ttr / 256 + 1 ≤ total (overs (extents_in (geometry_of g) f1.now f3.now n))) }
    ensures { result ≡ tracks_kept g.heads unit ttr (tracks_of (overs (extents_in (geometry_of g) f1.now f3.now n))) }
{
    let keep = ttr / 256 + 1;
    if unit != 0xC0 {
        return keep;
    }
    to_cylinder_end(f1, f3, n, g, keep)
}

// ---- cut

// What stays of a data set: `whole` extents, and `count` tracks from `start` of the next, of this type; 0 for none of it.
#[derive(Clone, Copy)]
pub struct Kept {
    pub whole: usize,
    pub type_byte: u8,
    pub start: u32,
    pub count: u32,
}

// Where the first `keep` tracks of a data set with this unit and n extents end.
fn cut_at(f1: &[u8], f3: &[u8], n: usize, g: dscb::Geometry, unit: u8, keep: u32) -> Kept
    requires { SetIn (geometry_of g) f1.now f3.now n }
    ensures { Stays unit keep (extents_in (geometry_of g) f1.now f3.now n) (tracks (geometry_of g)) result.whole result.type_byte result.start result.count }
{
    let mut left = keep;
    for e in 0..n {
        let x = extent_at(f1, f3, e, g.heads);
        if left < x.count {
            return Kept {
                whole: e,
                type_byte: type_if(f1, f3, e, unit == 0xC0),
                start: x.start,
                count: left,
            };
        }
        left -= x.count;
    }
    Kept {
        whole: n,
        type_byte: 0x01,
        start: 0,
        count: 0,
    }
}

// Makes free the tracks behind the first `keep` tracks of a data set with n extents. An extent that stays whole gives
// back an empty range, so that there is no case to tell.
fn give_behind(
    f1: &[u8],
    f3: &[u8],
    n: usize,
    g: dscb::Geometry,
    keep: u32,
    free_tracks: &mut [u64],
)
    requires { SetIn (geometry_of g) f1.now f3.now n × (tracks (geometry_of g) ≤ 64 * length free_tracks.old) }
    ensures { GaveTail keep (extents_in (geometry_of g) f1.now f3.now n) free_tracks.old free_tracks.new }
{
    let mut left = keep;
    for e in 0..n {
        let x = extent_at(f1, f3, e, g.heads);
        let stay = left.min(x.count);
        let from = (x.start + stay) as u16;
        let to = (x.start + x.count) as u16;
        bitmap::give_range(free_tracks, from, to);
        left -= stay;
    }
}

// Makes free the tracks behind the first `keep` tracks of a data set with this unit and n extents, and tells what stays of it.
pub fn give_tail(
    f1: &[u8],
    f3: &[u8],
    n: usize,
    g: dscb::Geometry,
    unit: u8,
    keep: u32,
    free_tracks: &mut [u64],
) -> Kept
    requires { SetIn (geometry_of g) f1.now f3.now n × (tracks (geometry_of g) ≤ 64 * length free_tracks.old) }
    ensures { GaveTail keep (extents_in (geometry_of g) f1.now f3.now n) free_tracks.old free_tracks.new × Stays unit keep (extents_in (geometry_of g) f1.now f3.now n) (tracks (geometry_of g)) result.whole result.type_byte result.start result.count }
{
    give_behind(f1, f3, n, g, keep, free_tracks);
    cut_at(f1, f3, n, g, unit, keep)
}

// Makes the format 3 of a label that of the label with its first n extents. It has none of the first three.
fn keep_third(rec: &mut [u8; 140], n: usize)
    requires { (length rec.old ≡ 140) × (n ≤ 16) }
    ensures { ((g : Geometry) (l : Label) → Format3 g l rec.old → Format3 g (first_extents n l) rec.new) × (length rec.new ≡ 140) }
{
    dscb_write::keep_extents3(rec, n.max(3));
}

// Makes the records of a label those of what stays of it.
pub fn cut_records(f1: &mut [u8; 140], f3: &mut [u8; 140], g: dscb::Geometry, k: Kept)
    requires { (length f1.old ≡ 140) × (length f3.old ≡ 140) × (k.whole ≤ 16) × (1 ≤ k.count → k.whole < 16) × (k.start + k.count ≤ 65535) }
    ensures { ((l : Label) → k.whole ≤ length l.extents → InRecords (geometry_of g) l f1.old f3.old → InRecords (geometry_of g) (shortened k.whole k.type_byte k.start k.count l) f1.new f3.new) × (length f1.new ≡ 140) × (length f3.new ≡ 140) }
{
    dscb_write::keep_extents1(f1, k.whole);
    keep_third(f3, k.whole);
    if k.count == 0 {
        return;
    }
    add_extent(
        f1,
        f3,
        g,
        k.whole,
        k.type_byte,
        k.start as u16,
        k.count as u16,
    );
}

// ---- joined, document 02, [6]

// Whether the first piece begins on the track after the last one of a data set with n extents.
pub fn joins_last(f1: &[u8], f3: &[u8], n: usize, g: dscb::Geometry, pieces: [[u16; 2]; 5]) -> bool
    requires { SetIn (geometry_of g) f1.now f3.now n }
    ensures { result ≡ touches (extents_in (geometry_of g) f1.now f3.now n) (get_or (get_or pieces 0 []) 0 0) }
{
    if n == 0 {
        return false;
    }
    let last = extent_at(f1, f3, n - 1, g.heads);
    u32::from(pieces[0][0]) == last.start + last.count
}

// Lengthens the last extent in the records of a label with n extents by a piece of this type that begins behind it.
fn lengthen_last(
    f1: &mut [u8; 140],
    f3: &mut [u8; 140],
    g: dscb::Geometry,
    n: usize,
    type_byte: u8,
    start: u16,
    count: u16,
)
    requires { SetIn (geometry_of g) f1.old f3.old n × (start + count ≤ 65535) × (touches (extents_in (geometry_of g) f1.old f3.old n) start ≡ true) }
    ensures { ((l : Label) → extents_in (geometry_of g) f1.old f3.old n ≡ l.extents → InRecords (geometry_of g) l f1.old f3.old → InRecords (geometry_of g) (longer (extent type_byte (run start count) ∷ []) l) f1.new f3.new) × (length f1.new ≡ 140) × (length f3.new ≡ 140) }
{
    let last = extent_at(f1, f3, n - 1, g.heads);
    let lengthened = Kept {
        whole: n - 1,
        type_byte: type_if(f1, f3, n - 1, type_byte == 0x81),
        start: last.start,
        count: u32::from(start) + u32::from(count) - last.start,
    };
    cut_records(f1, f3, g, lengthened);
}

// Puts the pieces, one or more, into the records of a label with n extents: the first lengthens the last of these where it joins it,
// the others follow.
pub fn put_pieces(
    f1: &mut [u8; 140],
    f3: &mut [u8; 140],
    g: dscb::Geometry,
    n: usize,
    joins: bool,
    type_byte: u8,
    pieces: &[[u16; 2]],
)
    requires { SetIn (geometry_of g) f1.old f3.old n × (joins ≡ touches (extents_in (geometry_of g) f1.old f3.old n) (get_or (get_or pieces.now 0 []) 0 0)) × (1 ≤ length pieces.now) × (n + length pieces.now ≤ 16 + bit joins) × All (PieceIn 65535) pieces.now }
    ensures { ((l : Label) (ps : List Run) → extents_in (geometry_of g) f1.old f3.old n ≡ l.extents → pieces.now ≡ map row ps → InRecords (geometry_of g) l f1.old f3.old → InRecords (geometry_of g) (longer (map (extent type_byte) ps) l) f1.new f3.new) × (length f1.new ≡ 140) }
{
    if joins {
        let [start, count] = pieces[0];
        lengthen_last(f1, f3, g, n, type_byte, start, count);
        add_pieces(f1, f3, g, n, type_byte, &pieces[1..]);
        return;
    }
    add_pieces(f1, f3, g, n, type_byte, pieces);
}
