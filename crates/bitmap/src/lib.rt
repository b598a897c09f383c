// A map of bits, 64 to a word: bit t is bit t % 64 of word t / 64, set where a track (or a slot of the table) is free.
// No loop goes by bits: each turn does the rest of a word. Tracks, and the ends of ranges, have 16 bits: no volume has 65,536 tracks. An
// index of a word is made of one where the map is read.
#![tactic(auto)]

ghost use Rattle.std.specs.Prelude.{◌≡◌, false, true, List, ℕ, ◌+◌, ◌-◌, ◌*◌, ◌/◌, ◌%◌, ◌≤◌, ◌<◌, min, length, MatchOption};
ghost use Rattle.bitmap.specs.Map.{bit_at, free_from, is_free, FreedBelow, Taken, Given, NextRun};
ghost use Rattle.bitmap.specs.Steps.{WordsAlike, Counts, Ending, First, RestOfWord, Starts, FirstUnlike, NoneFree, Word, bit_before, block, flipped, runs_below};

const ALL: u64 = 0xffff_ffff_ffff_ffff;

// The n tracks of a word from its track `at` on.
fn mask(at: u16, n: u16) -> u64
    requires { (0 < n) × (at + n ≤ 64) }
    ensures { result ≡ block at n }
{
    (ALL >> (64 - n)) << at
}

// How many tracks from t on lie in t's word and below e.
fn chunk(t: u16, e: u16) -> u16
    requires { t < e }
    ensures { result ≡ min (64 - t % 64) (e - t) }
{
    (64 - t % 64).min(e - t)
}

// Makes the tracks below n free, by whole words: those from n on are not looked at. A small volume costs a few words.
pub fn free_below(map: &mut [u64], n: u16)
    requires { (length map.old ≤ 1024) × (n ≤ 64 * length map.old) }
    ensures { FreedBelow map.old map.new n }
{
    map[..usize::from(n).div_ceil(64)].fill(ALL);
}

// Takes the tracks from s up to e, which lie in one word: true if all of them were free.
fn take_near(map: &mut [u64], s: u16, e: u16) -> bool
    requires { (s < e) × (s % 64 + (e - s) ≤ 64) × (s / 64 < length map.old) }
    ensures { Taken map.old map.new s e result }
{
    let w = usize::from(s / 64);
    let m = mask(s % 64, e - s);
    let x = map[w];
    if x & m != m {
        return false;
    }
    map[w] = x ^ m;
    true
}

// Takes the tracks of the words from w up to v: true if all of them were free.
fn take_words(map: &mut [u64], w: usize, v: usize) -> bool
    requires { (w ≤ v) × (v ≤ length map.old) }
    ensures { Taken map.old map.new (64 * w) (64 * v) result }
{
    for word in &mut map[w..v] {
        if *word != ALL {
            return false;
        }
        *word = 0;
    }
    true
}

// Takes the tracks from s up to e, which do not lie in one word: those of the first word and of the last, then those between. Most
// lie in two words.
fn take_far(map: &mut [u64], s: u16, e: u16) -> bool
    requires { (s < e) × (s / 64 < (e - 1) / 64) × (e ≤ 64 * length map.old) }
    ensures { Taken map.old map.new s e result }
{
    let w = usize::from(s / 64);
    let v = usize::from((e - 1) / 64);
    let a = mask(s % 64, 64 - s % 64);
    let b = mask(0, (e - 1) % 64 + 1);
    let x = map[w];
    let y = map[v];
    if ((x & a) ^ a) | ((y & b) ^ b) != 0 {
        return false;
    }
    map[w] = x ^ a;
    map[v] = y ^ b;
    take_words(map, w + 1, v)
}

// Takes the tracks from s up to e, one or more: true if all of them were free. Most extents are short: they need no loop.
pub fn take_range(map: &mut [u64], s: u16, e: u16) -> bool
    requires { (s < e) × (e ≤ 64 * length map.old) }
    ensures { Taken map.old map.new s e result }
{
    if s / 64 == (e - 1) / 64 {
        return take_near(map, s, e);
    }
    take_far(map, s, e)
}

// Makes the tracks from s up to e free, which lie in one word.
fn give_near(map: &mut [u64], s: u16, e: u16)
    requires { (s < e) × (s % 64 + (e - s) ≤ 64) × (s / 64 < length map.old) }
    ensures { Given map.old map.new s e }
{
    map[usize::from(s / 64)] |= mask(s % 64, e - s);
}

// The same for any number of tracks, word by word. The tracks of a turn differ in number, so no range counts them.
fn give_far(map: &mut [u64], s: u16, e: u16)
    requires { (s ≤ e) × (e ≤ 64 * length map.old) }
    ensures { Given map.old map.new s e }
{
    let mut t = s;
    while t < e {
        let n = chunk(t, e);
        map[usize::from(t / 64)] |= mask(t % 64, n);
        t += n;
    }
}

// Makes the tracks from s up to e free. One track, and most extents, need no loop.
pub fn give_range(map: &mut [u64], s: u16, e: u16)
    requires { (s ≤ e) × (e ≤ 64 * length map.old) }
    ensures { Given map.old map.new s e }
{
    if s < e && s / 64 == (e - 1) / 64 {
        give_near(map, s, e);
    } else {
        give_far(map, s, e);
    }
}

// A word, or its complement.
fn flip(x: u64, free: bool) -> u64
    ensures { result ≡ flipped free x }
{
    if free { x } else { x ^ ALL }
}

// Tracks from the first up to the one behind the last.
#[derive(Clone, Copy, Debug, PartialEq, Eq)]
pub struct Span {
    pub from: u16,
    pub to: u16,
}

// The tracks from t on that lie in its word, at their places in it; the bits before t are clear.
pub fn rest_of(map: &[u64], t: u16, n: u16) -> u64
    requires { n ≤ 64 * length map.now }
    ensures { RestOfWord map.now n t result }
{
    if t < n {
        return map[usize::from(t / 64)] & (ALL << (t % 64));
    }
    0
}

// A run of free tracks, and the tracks behind it that lie in the word of its end.
#[derive(Clone, Copy, Debug, PartialEq, Eq)]
pub struct Ahead {
    pub from: u16,
    pub to: u16,
    pub rest: u64,
}

// A word of the map, by its number, and tracks of it.
#[derive(Clone, Copy, Debug, PartialEq, Eq)]
struct Place {
    at: usize,
    word: u64,
}

// Passes over words that are `plain`, from word w on and below word e, four at a time: the result is where it ends, with one among the
// next four that is not, or fewer than four.
fn pass_fours(map: &[u64], w: usize, e: usize, plain: u64) -> usize
    requires { (w ≤ e) × (e ≤ length map.now) }
    ensures { (w ≤ result) × (result ≤ e) × WordsAlike map.now plain w result }
{
    let fours = (e - w) / 4;
    for k in 0..fours {
        let r = w + 4 * k;
        let a = (map[r] ^ plain) | (map[r + 1] ^ plain);
        let b = (map[r + 2] ^ plain) | (map[r + 3] ^ plain);
        if a | b != 0 {
            return r;
        }
    }
    w + 4 * fours
}

// The first word from word w on and below word e that is not `plain`. One by one.
fn pass_ones(map: &[u64], w: usize, e: usize, plain: u64) -> Option<usize>
    requires { e ≤ length map.now }
    ensures { MatchOption result (WordsAlike map.now plain w e) (FirstUnlike map.now plain w e) }
{
    (w..e).find(|&i| map[i] != plain)
}

// The same: most often it is the first word, and else a long way.
fn pass(map: &[u64], w: usize, e: usize, plain: u64) -> Option<usize>
    requires { (w ≤ e) × (e ≤ length map.now) }
    ensures { MatchOption result (WordsAlike map.now plain w e) (FirstUnlike map.now plain w e) }
{
    if w < e && map[w] != plain {
        return Some(w);
    }
    let r = pass_fours(map, w, e, plain);
    pass_ones(map, r, e, plain)
}

// The first word from t's on and below word e in which a track from t on is free, and these tracks; x are those of t's own.
fn word_ahead(map: &[u64], t: u16, e: usize, x: u64) -> Option<Place>
    requires { (t / 64 < e) × (e ≤ length map.now) }
    ensures { (n : ℕ) → n ≤ 64 * e → RestOfWord map.now n t x → MatchOption result (NoneFree map.now t n) (λ p. Word map.now n t e p.at p.word) }
{
    let w = usize::from(t / 64);
    if x != 0 {
        return Some(Place { at: w, word: x });
    }
    let at = pass(map, w + 1, e, 0)?;
    Some(Place { at, word: map[at] })
}

// The run from track `from` up to the first track of word w that is not free, the lowest bit that is not in `low`; y has the
// tracks of word w. Behind the run y shows what is left.
fn stop_at(n: u16, from: u16, w: usize, y: u64, low: u64) -> Ahead
    requires { (64 * w < n) × (from < n) × (low ≡ 0xffff_ffff_ffff_ffff → ⊥) }
    ensures { (result.from ≡ from) × ((m : List ℕ) → Ending m n from w y low → First m false from n result.to × RestOfWord m n result.to result.rest) }
{
    let z = low + 1;
    let to = 64 * (w as u16) + z.trailing_zeros() as u16;
    if to < n {
        return Ahead {
            from,
            to,
            rest: y & z,
        };
    }
    Ahead {
        from,
        to: n,
        rest: 0,
    }
}

// As run_ahead, for a run that leaves t's word: the words behind are passed over, and the one in which it starts or ends is kept.
fn run_far(map: &[u64], t: u16, n: u16, x: u64) -> Ahead
    requires { (t ≤ n) × (n ≤ 64 * length map.now) × RestOfWord map.now n t x }
    ensures { NextRun map.now n t result.from result.to × RestOfWord map.now n result.to result.rest }
{
    let none = Ahead {
        from: n,
        to: n,
        rest: 0,
    };
    if t >= n {
        return none;
    }
    let e = usize::from((n - 1) / 64) + 1;
    let Some(p) = word_ahead(map, t, e, x) else {
        return none;
    };
    let from = 64 * (p.at as u16) + p.word.trailing_zeros() as u16;
    if from >= n {
        return none;
    }
    let low = p.word | (p.word - 1);
    if low != ALL {
        return stop_at(n, from, p.at, p.word, low);
    }
    match pass(map, p.at + 1, e, ALL) {
        Some(w) => stop_at(n, from, w, map[w], map[w]),
        None => Ahead {
            from,
            to: n,
            rest: 0,
        },
    }
}

// The first run of free tracks from s on and below n; from n to n where there is none.
pub fn next_run(map: &[u64], s: u16, n: u16) -> Span
    requires { (s ≤ n) × (n ≤ 64 * length map.now) }
    ensures { NextRun map.now n s result.from result.to }
{
    let x = rest_of(map, s, n);
    let r = run_far(map, s, n, x);
    Span {
        from: r.from,
        to: r.to,
    }
}

// The first run of free tracks from t on and below n, as next_run, for runs that are wanted one after the other: x shows the
// tracks from t on, so that the map is not read again, nor waited for, where the run ends in t's word. One less fills the bits
// below the run, one more carries to the track behind it. x is kept in place, not shifted down: the next run then waits for
// four simple operations and for no count of zeros. The map is lent on as a part: as it is, it would be stored at each call.
pub fn run_ahead(map: &[u64], t: u16, n: u16, x: u64) -> Ahead
    requires { (t ≤ n) × (n ≤ 64 * length map.now) × RestOfWord map.now n t x }
    ensures { NextRun map.now n t result.from result.to × RestOfWord map.now n result.to result.rest }
{
    if x != 0 {
        let y = x | (x - 1);
        if y != ALL {
            let z = y + 1;
            let base = t - t % 64;
            let to = base + z.trailing_zeros() as u16;
            if to < n {
                return Ahead {
                    from: base + x.trailing_zeros() as u16,
                    to,
                    rest: x & z,
                };
            }
        }
    }
    run_far(&map[0..], t, n, x)
}

// The tracks of the word x that are free behind one that is not; y is the word before x.
fn starts(y: u64, x: u64) -> u64
    ensures { Starts y x result }
{
    let behind = (x << 1) | (y >> 63);
    x & (behind ^ ALL)
}

// Whether eight words from word w on are `plain`. There is no exit from the loop, so that they are compared at a time.
fn eight_plain(map: &[u64], w: usize, plain: u64) -> bool
    requires { w + 8 ≤ length map.now }
    ensures { result ≡ true → WordsAlike map.now plain w (w + 8) }
{
    let mut unlike = 0;
    for word in &map[w..w + 8] {
        unlike |= word ^ plain;
    }
    unlike == 0
}

// How many runs start in eight words from word w on; y is the word before. Their bits are counted many at a time.
fn starts_in_eight(map: &[u64], w: usize, y: u64) -> usize
    requires { (w + 8 ≤ length map.now) × (bit_at y 63 ≡ bit_before map.now (64 * w)) }
    ensures { runs_below map.now (64 * w + 512) ≡ runs_below map.now (64 * w) + result }
{
    let mut count = starts(y, map[w]).count_ones() as usize;
    for i in 1..8 {
        count += starts(map[w + i - 1], map[w + i]).count_ones() as usize;
    }
    count
}

// How many runs start before a word, and the word before that.
#[derive(Clone, Copy, Debug, PartialEq, Eq)]
struct Counted {
    runs: usize,
    last: u64,
}

// Counts on over eight words from word w on. Words that are as the last track before them, all free or all taken, have no start.
fn count_eight(map: &[u64], w: usize, from: Counted) -> Counted
    requires { (w + 8 ≤ length map.now) × (64 * w + 512 < 18446744073709551616) × Counts map.now (64 * w) from.runs from.last }
    ensures { Counts map.now (64 * w + 512) result.runs result.last }
{
    let last = from.last;
    if eight_plain(map, w, flip(0, last < 0x8000_0000_0000_0000)) {
        return from;
    }
    let runs = from.runs + starts_in_eight(map, w, last);
    Counted {
        runs,
        last: map[w + 7],
    }
}

// Counts the runs that start in the first e words, eight by eight, as far as there are so many.
fn count_eights(map: &[u64], e: usize) -> Counted
    requires { (e ≤ length map.now) × (64 * e < 18446744073709551616) }
    ensures { Counts map.now (64 * (e / 8 * 8)) result.runs result.last }
{
    let mut c = Counted { runs: 0, last: 0 };
    for k in 0..e / 8 {
        c = count_eight(map, 8 * k, c);
    }
    c
}

// Counts on to word e, one by one.
fn count_rest(map: &[u64], w: usize, e: usize, from: Counted) -> Counted
    requires { (w ≤ e) × (e ≤ length map.now) × (64 * e < 18446744073709551616) × Counts map.now (64 * w) from.runs from.last }
    ensures { Counts map.now (64 * e) result.runs result.last }
{
    let mut runs = from.runs;
    let mut last = from.last;
    for &word in &map[w..e] {
        runs += starts(last, word).count_ones() as usize;
        last = word;
    }
    Counted { runs, last }
}

// How many runs of free tracks there are below n: each has one start.
pub fn count_runs(map: &[u64], n: u16) -> usize
    requires { n ≤ 64 * length map.now }
    ensures { (result ≡ length (free_from map.now n 0)) × (result ≤ n) }
{
    let e = usize::from(n / 64);
    let c = count_rest(map, e / 8 * 8, e, count_eights(map, e));
    let k = n % 64;
    if k == 0 {
        return c.runs;
    }
    let s = starts(c.last, map[e]) << (64 - k);
    c.runs + s.count_ones() as usize
}

// Whether track t is free.
pub fn is_free(map: &[u64], t: u16) -> bool
    requires { t < 64 * length map.now }
    ensures { result ≡ is_free map.now t }
{
    (map[usize::from(t / 64)] >> (t % 64)) % 2 == 1
}
