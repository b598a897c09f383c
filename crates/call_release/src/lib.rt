// Release: the tracks of a data set behind its last block given back.
#![tactic(auto)]

ghost use Rattle.rules.specs.Promises.{PreviewsRelease, Releases};
ghost use Rattle.refusals.specs.Numbers.{number_of};
ghost use Rattle.check_table.specs.Check.{Roomy};

use refusals::Refusal;

// The call with a map to work in.
fn release_in(
    table: &mut [u8],
    name: &[u8],
    ttr: u32,
    answer: &mut [u8],
    free_tracks: &mut [u64],
) -> Result<(), Refusal>
    requires { Roomy table.old free_tracks.old }
    ensures { Releases table.old name.now ttr answer.old (number_of result) table.new answer.new }
{
    let mut free_slots = [0u64; 8];
    let lengths = open_table::answer_and_name(answer.len(), name.len());
    let opened = open_table::open_set(table, name, lengths, free_tracks, &mut free_slots)?;
    free_space::release_set(
        table,
        opened.geometry,
        free_tracks,
        &mut free_slots,
        opened.slot,
        ttr,
        answer,
    )
}

// The call. A small volume has a small map: to fill the large one would be much of the call's time.
pub fn release(table: &mut [u8], name: &[u8], ttr: u32, answer: &mut [u8]) -> Result<(), Refusal>
    ensures { Releases table.old name.now ttr answer.old (number_of result) table.new answer.new }
{
    if open_table::is_small(table) {
        let mut free_tracks = [u64::MAX; 64];
        return release_in(table, name, ttr, answer, &mut free_tracks);
    }
    let mut free_tracks = [u64::MAX; 1024];
    release_in(table, name, ttr, answer, &mut free_tracks)
}

// ---- the preview: the call without the writing

// The preview with a map to work in.
fn preview_in(
    table: &[u8],
    name: &[u8],
    ttr: u32,
    answer: &mut [u8],
    free_tracks: &mut [u64],
) -> Result<(), Refusal>
    requires { Roomy table.now free_tracks.old }
    ensures { PreviewsRelease table.now name.now ttr answer.old (number_of result) answer.new }
{
    let mut free_slots = [0u64; 8];
    let lengths = open_table::answer_and_name(answer.len(), name.len());
    let opened = open_table::open_set(table, name, lengths, free_tracks, &mut free_slots)?;
    free_space::preview_release(
        table,
        opened.geometry,
        free_tracks,
        &mut free_slots,
        opened.slot,
        ttr,
        answer,
    )
}

// The preview.
pub fn preview(table: &[u8], name: &[u8], ttr: u32, answer: &mut [u8]) -> Result<(), Refusal>
    ensures { PreviewsRelease table.now name.now ttr answer.old (number_of result) answer.new }
{
    if open_table::is_small(table) {
        let mut free_tracks = [u64::MAX; 64];
        return preview_in(table, name, ttr, answer, &mut free_tracks);
    }
    let mut free_tracks = [u64::MAX; 1024];
    preview_in(table, name, ttr, answer, &mut free_tracks)
}
