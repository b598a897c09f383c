// Extend: the secondary amount for a data set.
#![tactic(auto)]

ghost use Rattle.rules.specs.Promises.{Extends, PreviewsExtend};
ghost use Rattle.refusals.specs.Numbers.{number_of};
ghost use Rattle.check_table.specs.Check.{Roomy};

use refusals::Refusal;

// The call with a map to work in.
fn extend_in(
    table: &mut [u8],
    name: &[u8],
    answer: &mut [u8],
    free_tracks: &mut [u64],
) -> Result<(), Refusal>
    requires { Roomy table.old free_tracks.old }
    ensures { Extends table.old name.now answer.old (number_of result) table.new answer.new }
{
    let mut free_slots = [0u64; 8];
    let lengths = open_table::answer_and_name(answer.len(), name.len());
    let opened = open_table::open_set(table, name, lengths, free_tracks, &mut free_slots)?;
    grant_space::lengthen(
        table,
        opened.geometry,
        free_tracks,
        &mut free_slots,
        opened.slot,
        answer,
    )
}

// The call. A small volume has a small map: to fill the large one would be much of the call's time.
pub fn extend(table: &mut [u8], name: &[u8], answer: &mut [u8]) -> Result<(), Refusal>
    ensures { Extends table.old name.now answer.old (number_of result) table.new answer.new }
{
    if open_table::is_small(table) {
        let mut free_tracks = [u64::MAX; 64];
        return extend_in(table, name, answer, &mut free_tracks);
    }
    let mut free_tracks = [u64::MAX; 1024];
    extend_in(table, name, answer, &mut free_tracks)
}

// ---- the preview: the call without the writing

// The preview with a map to work in.
fn preview_in(
    table: &[u8],
    name: &[u8],
    answer: &mut [u8],
    free_tracks: &mut [u64],
) -> Result<(), Refusal>
    requires { Roomy table.now free_tracks.old }
    ensures { PreviewsExtend table.now name.now answer.old (number_of result) answer.new }
{
    let mut free_slots = [0u64; 8];
    let lengths = open_table::answer_and_name(answer.len(), name.len());
    let opened = open_table::open_set(table, name, lengths, free_tracks, &mut free_slots)?;
    grant_space::preview_longer(
        table,
        opened.geometry,
        free_tracks,
        &mut free_slots,
        opened.slot,
        answer,
    )
}

// The preview.
pub fn preview(table: &[u8], name: &[u8], answer: &mut [u8]) -> Result<(), Refusal>
    ensures { PreviewsExtend table.now name.now answer.old (number_of result) answer.new }
{
    if open_table::is_small(table) {
        let mut free_tracks = [u64::MAX; 64];
        return preview_in(table, name, answer, &mut free_tracks);
    }
    let mut free_tracks = [u64::MAX; 1024];
    preview_in(table, name, answer, &mut free_tracks)
}
