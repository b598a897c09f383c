// A request for space: its amount in one of three kinds, its option, the range of its numbers, and what it is granted.
#![tactic(auto)]

ghost use Rattle.std.specs.Prelude.{◌≡◌, cond, ◌&&◌, List, ◌+◌, ◌-◌, ◌*◌, ◌≤◌, ◌<◌, eqb, leb, length, IfSome, MatchOption, is_some};
ghost use Rattle.std.proofs.Math.Option.{none, some};
ghost use Rattle.model.specs.Basics.{all, up_from, within};
ghost use Rattle.model.specs.Model.{Label, Run, free, held, slots, tracks};
ghost use Rattle.rules.specs.Calls.{amount_of, in_cylinders, in_range, in_tracks, option_for, unit_of};
ghost use Rattle.rules.specs.Predicates.{Asks};
ghost use Rattle.bitmap.specs.Map.{Shows, is_free};
ghost use Rattle.free_extents.specs.FreeList.{Listed};
ghost use Rattle.choose_pieces.specs.Grant.{grant_of};
ghost use Rattle.choose_pieces.specs.Options.{to_option};
ghost use Rattle.dscb.specs.Forms.{geometry_of};
ghost use Rattle.request.specs.Request.{exact_runs, is_known, pieces_of, to_amount, type_of};

use choose_pieces::SpaceOption;
use dscb::Geometry;

// An amount: how many tracks, how many cylinders, or from which track on how many.
#[derive(Clone, Copy, Debug, PartialEq, Eq)]
pub enum Amount {
    Tracks(u32),
    Cylinders(u32),
    Absolute(u32, u32),
}

impl Amount {
    // The amount of that kind, by its number; none where no kind has it.
    fn of_kind(kind: u32, start: u32, amount: u32) -> Option<Amount>
        ensures { MatchOption result (amount_of kind start amount ≡ none) (λ a. some (to_amount a) ≡ amount_of kind start amount) }
    {
        match kind {
            0 => Some(Amount::Tracks(amount)),
            1 => Some(Amount::Cylinders(amount)),
            2 => Some(Amount::Absolute(start, amount)),
            _ => None,
        }
    }

    // The option that a number tells for this amount; none where it is unknown, or where an absolute amount has one.
    fn option(self, number: u32) -> Option<SpaceOption>
        ensures { MatchOption result (option_for (to_amount self) number ≡ none) (λ o. some (to_option o) ≡ option_for (to_amount self) number) }
    {
        match self {
            Amount::Absolute(_, _) if number != 0 => None,
            _ => SpaceOption::try_from(number).ok(),
        }
    }
}

// What is asked for now, by which option, and how much each extend will ask for, in the same unit.
#[derive(Clone, Copy, Debug, PartialEq, Eq)]
pub struct Request {
    pub amount: Amount,
    pub option: SpaceOption,
    pub secondary: u32,
}

impl Request {
    // The request that the host's numbers make; none where there is no such kind, or no such option for it.
    pub fn from_numbers(
        kind: u32,
        start: u32,
        amount: u32,
        secondary: u32,
        option: u32,
    ) -> Option<Request>
        ensures known { is_some result ≡ is_known kind option }
        ensures numbers { IfSome result (λ r. (some (to_amount r.amount) ≡ amount_of kind start amount) × (some (to_option r.option) ≡ option_for (to_amount r.amount) option) × (r.secondary ≡ secondary)) }
    {
        let amount = Amount::of_kind(kind, start, amount)?;
        let option = amount.option(option)?;
        Some(Request {
            amount,
            option,
            secondary,
        })
    }

    // Whether the amount and the secondary amount lie in their ranges on such a volume.
    pub fn in_range(self, g: Geometry) -> bool
        ensures { result ≡ in_range (geometry_of g) self.secondary (to_amount self.amount) }
    {
        match self.amount {
            Amount::Tracks(n) | Amount::Cylinders(n) => counts_ok(n, self.secondary),
            Amount::Absolute(start, n) => place_ok(start, n, self.secondary, u32::from(g.tracks())),
        }
    }
}

// ---- ranges

// Whether an amount of tracks or of cylinders, and the secondary amount with it, lie in their ranges.
fn counts_ok(n: u32, secondary: u32) -> bool
    ensures { result ≡ (within 1 65535 n && leb secondary 16777215) }
{
    1 <= n && n <= 65535 && secondary <= 16777215
}

// Whether n tracks from `start` on lie on a volume of t tracks, and there is no secondary amount. The end of the tracks
// may not fit 32 bits, so it is not computed.
fn place_ok(start: u32, n: u32, secondary: u32, t: u32) -> bool
    ensures { result ≡ (leb 1 n && leb (start + n) t && eqb secondary 0) }
{
    1 <= n && start <= t && n <= t - start && secondary == 0
}

// ---- the bytes of a label

// The unit of a data set that is asked for so: DS1SCALO. This and the next are tables of bytes by kind: one function of three bytes would
// be no plainer.
pub fn unit_byte(amount: Amount) -> u8
    ensures { result ≡ unit_of (to_amount amount) }
{
    match amount {
        Amount::Tracks(_) => 0x80,
        Amount::Cylinders(_) => 0xC0,
        Amount::Absolute(_, _) => 0x00,
    }
}

// The type of the extents that are granted.
pub fn type_byte(amount: Amount) -> u8
    ensures { result ≡ type_of (to_amount amount) }
{
    match amount {
        Amount::Tracks(_) => 0x01,
        Amount::Cylinders(_) => 0x81,
        Amount::Absolute(_, _) => 0x01,
    }
}

// What an extend asks for, by the unit and the secondary amount in the label.
pub fn secondary_of(unit: u8, secondary: u32) -> Amount
    ensures { to_amount result ≡ cond (eqb unit 0xC0) (in_cylinders secondary) (in_tracks secondary) }
{
    if unit == 0xC0 {
        return Amount::Cylinders(secondary);
    }
    Amount::Tracks(secondary)
}

// ---- granting

// Whether all tracks from s up to e are free: the first free run there is all of them.
fn all_free(free_tracks: &[u64], s: u16, e: u16) -> bool
    requires { (s < e) × (e ≤ 64 * length free_tracks.now) }
    ensures { result ≡ all (is_free free_tracks.now) (up_from s (e - s)) }
{
    let free = bitmap::next_run(free_tracks, s, e);
    free.from == s && free.to == e
}

// Exactly these tracks, as one piece; none where one of them is not free.
fn exact(free_tracks: &[u64], start: u32, n: u32) -> [[u16; 2]; 5]
    requires { (1 ≤ n) × (start + n ≤ 65535) × (start + n ≤ 64 * length free_tracks.now) }
    ensures { result ≡ grant_of (exact_runs free_tracks.now start n) }
{
    let mut pieces = [[0u16; 2]; 5];
    if all_free(free_tracks, start as u16, (start + n) as u16) {
        pieces[0] = [start as u16, n as u16];
    }
    pieces
}

// The pieces that an amount is granted by an option out of the free tracks, which the table lists and the map shows, whatever
// labels hold the others; none where there is no space.
pub fn fulfil(
    table: &[u8],
    free_tracks: &[u64],
    g: Geometry,
    option: SpaceOption,
    amount: Amount,
) -> [[u16; 2]; 5]
    requires { (tracks (geometry_of g) ≤ 64 * length free_tracks.now) × Asks (geometry_of g) (to_amount amount) × (length table.now ≡ 140 * slots (geometry_of g)) × ((f : List Run) × Listed (geometry_of g) table.now f) }
    ensures { (ls : List Label) → Shows free_tracks.now (tracks (geometry_of g)) (held (geometry_of g) ls) → Listed (geometry_of g) table.now (free (geometry_of g) ls) → result ≡ grant_of (pieces_of (geometry_of g) ls (to_option option) (to_amount amount)) }
{
    match amount {
        Amount::Tracks(k) => choose_pieces::choose(table, g, option, 1, k),
        Amount::Cylinders(k) => choose_pieces::choose(table, g, option, u32::from(g.heads), k),
        Amount::Absolute(start, k) => exact(free_tracks, start, k),
    }
}
