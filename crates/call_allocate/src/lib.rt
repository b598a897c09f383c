// Allocate: space for a new data set.
#![tactic(auto)]

ghost use Rattle.std.specs.Prelude.{◌≡◌, ◌&&◌, ◌*◌, T, eqb, length};
ghost use Rattle.model.specs.Model.{slots};
ghost use Rattle.rules.specs.Reading.{read};
ghost use Rattle.rules.specs.Table.{taken};
ghost use Rattle.dscb.specs.Forms.{geometry_of};
ghost use Rattle.rules.specs.Promises.{Allocates, PreviewsAllocate};
ghost use Rattle.refusals.specs.Numbers.{number_of};
ghost use Rattle.check_table.specs.Check.{Roomy};
ghost use Rattle.call_allocate.specs.Vetting.{Vets};

use dscb::Geometry;
use refusals::Refusal;
use request::Request;

// Whether the buffers but the table have the lengths that they must have.
fn right_lengths(answer: usize, name: usize, attributes: usize, expiry: usize) -> bool
    ensures { result ≡ (eqb answer 24 && (eqb name 44 && eqb attributes 52 && eqb expiry 4)) }
{
    answer == 24 && name == 44 && attributes == 52 && expiry == 4
}

// The request that the numbers make, for a name that is new: refused with 7 for an unknown kind or option, with 7 for a number out of
// its range, or with 6 for a name that is on the volume.
fn vet(
    table: &[u8],
    g: Geometry,
    name: &[u8],
    kind: u32,
    start: u32,
    amount: u32,
    secondary: u32,
    option: u32,
) -> Result<Request, Refusal>
    requires { (length table.now ≡ 140 * slots (geometry_of g)) × T (taken table.now) × (geometry_of g ≡ (read table.now).geometry) }
    ensures { Vets table.now name.now kind start amount secondary option result }
{
    let Some(request) = Request::from_numbers(kind, start, amount, secondary, option) else {
        return Err(Refusal::Amount);
    };
    if !request.in_range(g) {
        return Err(Refusal::Amount);
    }
    if open_table::on_volume(table, g, name) {
        return Err(Refusal::Duplicate);
    }
    Ok(request)
}

// The call with a map to work in.
fn allocate_in(
    table: &mut [u8],
    name: &[u8],
    attributes: &[u8],
    kind: u32,
    start: u32,
    amount: u32,
    secondary: u32,
    option: u32,
    expiry: &[u8],
    answer: &mut [u8],
    free_tracks: &mut [u64],
) -> Result<(), Refusal>
    requires { Roomy table.old free_tracks.old }
    ensures { Allocates table.old name.now attributes.now kind start amount secondary option expiry.now answer.old (number_of result) table.new answer.new }
{
    let mut free_slots = [0u64; 8];
    let lengths = right_lengths(answer.len(), name.len(), attributes.len(), expiry.len());
    let g = open_table::open_named(table, name, lengths, free_tracks, &mut free_slots)?.geometry;
    let Some(stored) = dates::expiry_from(expiry) else {
        return Err(Refusal::Date);
    };
    let request = vet(table, g, name, kind, start, amount, secondary, option)?;
    let dated = dates::with_expiry(&stored, attributes);
    grant_space::place(
        table,
        g,
        free_tracks,
        &mut free_slots,
        name,
        &dated,
        request,
        answer,
    )
}

// The call. A small volume has a small map: to fill the large one would be much of the call's time.
pub fn allocate(
    table: &mut [u8],
    name: &[u8],
    attributes: &[u8],
    kind: u32,
    start: u32,
    amount: u32,
    secondary: u32,
    option: u32,
    expiry: &[u8],
    answer: &mut [u8],
) -> Result<(), Refusal>
    ensures { Allocates table.old name.now attributes.now kind start amount secondary option expiry.now answer.old (number_of result) table.new answer.new }
{
    if open_table::is_small(table) {
        let mut free_tracks = [u64::MAX; 64];
        return allocate_in(
            table,
            name,
            attributes,
            kind,
            start,
            amount,
            secondary,
            option,
            expiry,
            answer,
            &mut free_tracks,
        );
    }
    let mut free_tracks = [u64::MAX; 1024];
    allocate_in(
        table,
        name,
        attributes,
        kind,
        start,
        amount,
        secondary,
        option,
        expiry,
        answer,
        &mut free_tracks,
    )
}

// ---- the preview: the call without the writing

// The preview with a map to work in.
fn preview_in(
    table: &[u8],
    name: &[u8],
    attributes: &[u8],
    kind: u32,
    start: u32,
    amount: u32,
    secondary: u32,
    option: u32,
    expiry: &[u8],
    answer: &mut [u8],
    free_tracks: &mut [u64],
) -> Result<(), Refusal>
    requires { Roomy table.now free_tracks.old }
    ensures { PreviewsAllocate table.now name.now attributes.now kind start amount secondary option expiry.now answer.old (number_of result) answer.new }
{
    let mut free_slots = [0u64; 8];
    let lengths = right_lengths(answer.len(), name.len(), attributes.len(), expiry.len());
    let g = open_table::open_named(table, name, lengths, free_tracks, &mut free_slots)?.geometry;
    let Some(_) = dates::expiry_from(expiry) else {
        return Err(Refusal::Date);
    };
    let request = vet(table, g, name, kind, start, amount, secondary, option)?;
    grant_space::preview_place(table, g, free_tracks, &mut free_slots, request, answer)
}

// The preview.
pub fn preview(
    table: &[u8],
    name: &[u8],
    attributes: &[u8],
    kind: u32,
    start: u32,
    amount: u32,
    secondary: u32,
    option: u32,
    expiry: &[u8],
    answer: &mut [u8],
) -> Result<(), Refusal>
    ensures { PreviewsAllocate table.now name.now attributes.now kind start amount secondary option expiry.now answer.old (number_of result) answer.new }
{
    if open_table::is_small(table) {
        let mut free_tracks = [u64::MAX; 64];
        return preview_in(
            table,
            name,
            attributes,
            kind,
            start,
            amount,
            secondary,
            option,
            expiry,
            answer,
            &mut free_tracks,
        );
    }
    let mut free_tracks = [u64::MAX; 1024];
    preview_in(
        table,
        name,
        attributes,
        kind,
        start,
        amount,
        secondary,
        option,
        expiry,
        answer,
        &mut free_tracks,
    )
}
