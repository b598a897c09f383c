// The conversions of dates, which have no table.
#![tactic(auto)]

ghost use Rattle.refusals.specs.Numbers.{number_of};
ghost use Rattle.rules.specs.Promises.{DateToPacked, DateToStored};

use refusals::Refusal;

// Two functions and not one with a const parameter: each is a test of lengths and two calls, and a function of both would take a length,
// a closure and a clause of what the closure promises.

// Converts a packed date: the stored form in the answer, or refused 2 or 14.
pub fn date_to_stored(packed: &[u8], answer: &mut [u8]) -> Result<(), Refusal>
    ensures { DateToStored packed.now answer.old (number_of result) answer.new }
{
    if answer.len() != 24 || packed.len() != 4 {
        return Err(Refusal::Length);
    }
    let Some(date) = dates::to_stored(packed) else {
        return Err(Refusal::Date);
    };
    answers::put_first(answer, &date);
    Ok(())
}

// Converts a stored date: the packed form in the answer, or refused 2 or 14.
pub fn date_to_packed(stored: &[u8], answer: &mut [u8]) -> Result<(), Refusal>
    ensures { DateToPacked stored.now answer.old (number_of result) answer.new }
{
    if answer.len() != 24 || stored.len() != 3 {
        return Err(Refusal::Length);
    }
    let Some(date) = dates::to_packed(stored) else {
        return Err(Refusal::Date);
    };
    answers::put_first(answer, &date);
    Ok(())
}
