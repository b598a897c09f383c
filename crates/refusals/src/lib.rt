// The refusals of documents 01 and 02 by name. include/vtoc.h has the same words (VTOC_E_..), and what a host does with each.
#![tactic(auto)]

ghost use Rattle.std.specs.Prelude.{◌≡◌};
ghost use Rattle.refusals.specs.Numbers.{number_of};

// Why a call is refused, with the number that a host in C is answered.
#[derive(Clone, Copy, Debug, PartialEq, Eq)]
pub enum Refusal {
    // The device description is wrong.
    Geometry = 1,
    // A buffer has the wrong length.
    Length = 2,
    // The table does not meet the layout.
    Unsound = 3,
    // A name is against the rule.
    Name = 4,
    // No data set of this name is on the volume.
    NotFound = 5,
    // The new name is on the volume already.
    Duplicate = 6,
    // The request is wrong for any state of the volume.
    Amount = 7,
    // The data set was allocated with secondary 0.
    NoSecondary = 8,
    // The candidates are too few or too short, or a track asked for is taken.
    NoSpace = 9,
    // The data set would have more than 16.
    Extents = 10,
    // Too few free records.
    VtocFull = 11,
    // The TTR is wide or wrong, or above the tracks of the data set.
    Ttr = 12,
    // The expiry date is later than today, and no override was given.
    Unexpired = 13,
    // What was handed over is no date of its form.
    Date = 14,
}

// What a host in C is answered: 0, or the number of the refusal.
pub fn number_of(outcome: Result<(), Refusal>) -> u32
    ensures { result ≡ number_of outcome }
{
    match outcome {
        Ok(()) => 0,
        Err(refusal) => refusal as u32,
    }
}
