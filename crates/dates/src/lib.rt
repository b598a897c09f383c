// Dates (document 02, [5]): packed, in four bytes, to stored, in three, and back; which of two is later; an expiry date put among the
// attributes of a data set. Years are counted from 1900 here.
#![tactic(auto)]

ghost use Rattle.std.specs.Prelude.{◌≡◌, ◌+◌, ◌*◌, ◌/◌, ◌%◌, ◌<◌, length, MatchOption};
ghost use Rattle.std.proofs.Math.Option.{none, some};
ghost use Rattle.rules.specs.Dates.{date, expiry_from, good_date, later, leap, packed_form, stored_form, to_packed, to_stored, with_expiry};
ghost use Rattle.dates.specs.Digits.{day_in, digits_in, two_digits, year_in};

// ---- the calendar

// Whether a year has 366 days: 1900 has not, 2000, the other year here that ends a century, has.
fn is_leap(year: u32) -> bool
    requires { year < 200 }
    ensures { result ≡ leap (1900 + year) }
{
    year % 4 == 0 && year != 0
}

// Whether there is such a day.
fn is_date(year: u32, day: u32) -> bool
    ensures { result ≡ good_date (date (1900 + year) day) }
{
    year < 200 && day >= 1 && (day <= 365 || day == 366 && is_leap(year))
}

// ---- the forms

// Whether a byte is two decimal digits.
fn is_two_digits(b: u8) -> bool
    ensures { result ≡ two_digits b }
{
    b <= 0x99 && b % 16 <= 9
}

// Whether four bytes are the digits 0, 0 or 1, and five more, and sign F.
#[tactic(auto, unfolding(crate::specs::Digits::digits_in))]
fn are_digits(packed: &[u8]) -> bool
    requires { length packed.now ≡ 4 }
    ensures { result ≡ digits_in packed.now }
{
    packed[0] <= 1
        && is_two_digits(packed[1])
        && is_two_digits(packed[2])
        && packed[3] <= 0x9F
        && packed[3] % 16 == 15
}

// The year that four bytes tell by their half bytes, whatever these are.
#[tactic(auto, unfolding(crate::specs::Digits::year_in))]
fn year_in(packed: &[u8]) -> u32
    requires { length packed.now ≡ 4 }
    ensures { result ≡ year_in packed.now }
{
    let a = u32::from(packed[0]);
    let b = u32::from(packed[1]);
    100 * (a % 16) + 10 * (b / 16) + b % 16
}

// The day that they tell.
#[tactic(auto, unfolding(crate::specs::Digits::day_in))]
fn day_in(packed: &[u8]) -> u32
    requires { length packed.now ≡ 4 }
    ensures { result ≡ day_in packed.now }
{
    let a = u32::from(packed[2]);
    let b = u32::from(packed[3]);
    100 * (a / 16) + 10 * (a % 16) + b / 16
}

// Two decimal digits in a byte: ten counts sixteen there.
fn two_digits(n: u32) -> u32
    requires { n < 100 }
    ensures { (result ≡ n / 10 * 16 + n % 10) × (result < 256) }
{
    n + 6 * (n / 10)
}

// A date in packed form.
fn pack(year: u32, day: u32) -> [u8; 4]
    requires { (year < 200) × (day < 400) }
    ensures { result ≡ packed_form (date (1900 + year) day) }
{
    [
        (year / 100) as u8,
        two_digits(year % 100) as u8,
        two_digits(day / 10) as u8,
        (day % 10 * 16 + 15) as u8,
    ]
}

// A date in stored form.
fn store(year: u32, day: u32) -> [u8; 3]
    requires { (year < 256) × (day < 65536) }
    ensures { result ≡ stored_form (date (1900 + year) day) }
{
    [year as u8, (day / 256) as u8, (day % 256) as u8]
}

// ---- conversion, of any bytes

// The stored form of a packed date.
pub fn to_stored(packed: &[u8]) -> Option<[u8; 3]>
    ensures { MatchOption result (to_stored packed.now ≡ none) (λ bytes. to_stored packed.now ≡ some bytes) }
{
    if packed.len() != 4 || !are_digits(packed) {
        return None;
    }
    let year = year_in(packed);
    let day = day_in(packed);
    if !is_date(year, day) {
        return None;
    }
    Some(store(year, day))
}

// The packed form of a stored date.
pub fn to_packed(stored: &[u8]) -> Option<[u8; 4]>
    ensures { MatchOption result (to_packed stored.now ≡ none) (λ bytes. to_packed stored.now ≡ some bytes) }
{
    if stored.len() != 3 {
        return None;
    }
    let year = u32::from(stored[0]);
    let day = u32::from(stored[1]) * 256 + u32::from(stored[2]);
    if !is_date(year, day) {
        return None;
    }
    Some(pack(year, day))
}

// ---- for allocate and scratch

// What is stored for the expiry date that allocate is given: four zero bytes are none, stored as zeros.
pub fn expiry_from(packed: &[u8]) -> Option<[u8; 3]>
    ensures { MatchOption result (expiry_from packed.now ≡ none) (λ bytes. expiry_from packed.now ≡ some bytes) }
{
    if rows::same(packed, &[0; 4]) {
        return Some([0; 3]);
    }
    to_stored(packed)
}

// The attributes with this expiry date in its place.
pub fn with_expiry(stored: &[u8], attributes: &[u8]) -> [u8; 52]
    requires { (length stored.now ≡ 3) × (length attributes.now ≡ 52) }
    ensures { result ≡ with_expiry stored.now attributes.now }
{
    let mut r = [0; 52];
    r.copy_from_slice(attributes);
    r[11..14].copy_from_slice(stored);
    r
}

// Whether the first of two stored dates is later, whatever their bytes.
pub fn is_later(stored: &[u8], today: &[u8]) -> bool
    requires { (length stored.now ≡ 3) × (length today.now ≡ 3) }
    ensures { result ≡ later stored.now today.now }
{
    stored[0] > today[0] || stored[0] == today[0] && rows::two(stored, 1) > rows::two(today, 1)
}
