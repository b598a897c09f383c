// What allocate and extend do after the lookup: pieces are chosen, leave the map, and the slots are planned; where they fit, the data
// set's records get the pieces and the table is written.
#![tactic(auto)]

ghost use Rattle.std.specs.Prelude.{◌≡◌, ℕ, ◌+◌, ◌*◌, ◌≤◌, ◌<◌, List, leb, length};
ghost use Rattle.model.specs.Model.{slots, tracks};
ghost use Rattle.dscb.specs.Forms.{geometry_of};
ghost use Rattle.refusals.specs.Numbers.{number_of};
ghost use Rattle.update.specs.Commit.{Leaves};
ghost use Rattle.grant_space.specs.Granting.{GrantPlans, GrantWrites, Grants, extents_then, grown};
ghost use Rattle.choose_pieces.specs.Options.{to_option};
ghost use Rattle.request.specs.Request.{to_amount, type_of};
ghost use Rattle.grant_space.specs.Asking.{Asking, Chooses, Foresees};
ghost use Rattle.grant_space.specs.Longer.{AsksMore, ExtendForeseen, Extended, Longer};
ghost use Rattle.grant_space.specs.Deciding.{Decides, Seeks};

use choose_pieces::SpaceOption;
use dscb::Geometry;
use dscb::places::*;
use refusals::Refusal;
use request::{Amount, Request};
use update::{Home, Plan};

// A data set that is granted pieces: the slots of its format 1 and its format 3, 0 for none, how many extents it has, how many
// pieces it gets, of which type, and whether the first of them joins the last extent.
#[derive(Clone, Copy)]
pub struct Holder {
    pub slot: usize,
    pub slot3: usize,
    pub extents: usize,
    pub count: usize,
    pub type_byte: u8,
    pub joins: bool,
}

// How many extents it has with its pieces.
fn extents_then(set: Holder) -> usize
    requires { (set.extents ≤ 16) × (set.count ≤ 5) × (1 ≤ set.count) }
    ensures { result ≡ extents_then set }
{
    set.extents + set.count - usize::from(set.joins)
}

// Whether it needs no format 3 then.
fn few(set: Holder) -> bool
    requires { (set.extents ≤ 16) × (set.count ≤ 5) × (1 ≤ set.count) }
    ensures { result ≡ leb (extents_then set) 3 }
{
    extents_then(set) <= 3
}

// Takes the pieces out of the map of tracks and plans the slots.
pub fn plan_grant(
    table: &[u8],
    g: Geometry,
    free_tracks: &mut [u64],
    free_slots: &mut [u64],
    chain: &mut [u16],
    set: Holder,
    pieces: &[[u16; 2]],
) -> Option<Plan>
    requires limits { (length table.now ≡ 140 * slots (geometry_of g)) × (tracks (geometry_of g) ≤ 64 * length free_tracks.old) × (length free_slots.old ≡ 8) × (length chain.old ≡ 468) × (set.extents ≤ 16) × (1 ≤ set.count) × (set.count ≤ 5) }
    requires grants { Grants (geometry_of g) table.now free_tracks.old free_slots.old set pieces.now }
    ensures { GrantPlans (geometry_of g) table.now free_tracks.old free_tracks.new free_slots.old free_slots.new chain.new set pieces.now result }
{
    let lo = set_extents::lowest_piece(pieces, u32::from(g.tracks()));
    set_extents::take_pieces(free_tracks, pieces);
    let asked = update::asked_for(set.slot, set.slot3, few(set));
    update::plan_slots(table, g, free_tracks, free_slots, chain, asked, lo as usize)
}

// Puts the pieces into the records of the data set, which have none of them yet, and writes the table.
pub fn write_grant(
    table: &mut [u8],
    g: Geometry,
    free_tracks: &[u64],
    chain: &[u16],
    plan: Plan,
    set: Holder,
    pieces: &[[u16; 2]],
    f1: &mut [u8; 140],
    f3: &mut [u8; 140],
)
    requires limits { (length table.old ≡ 140 * slots (geometry_of g)) × (tracks (geometry_of g) ≤ 64 * length free_tracks.now) × (set.slot < slots (geometry_of g)) × (set.slot3 < slots (geometry_of g)) × (set.extents ≤ 16) × (1 ≤ set.count) × (set.count ≤ 5) × (extents_then set ≤ 16) × (length f1.old ≡ 140) × (length f3.old ≡ 140) }
    requires grant_writes { GrantWrites (geometry_of g) table.old free_tracks.now chain.now plan set pieces.now f1.old f3.old }
    ensures { (d : GrantWrites (geometry_of g) table.old free_tracks.now chain.now plan set pieces.now f1.old f3.old) → Leaves (grown d.grants) table.new }
{
    set_extents::put_pieces(f1, f3, g, set.extents, set.joins, set.type_byte, pieces);
    let home = Home {
        slot: set.slot,
        slot3: set.slot3,
        few: few(set),
    };
    update::write_set(table, g, free_tracks, chain, plan, home, f1, f3);
}

// What is decided of a grant that is not refused: the data set with its pieces, and a plan.
#[derive(Clone, Copy)]
pub struct Decision {
    pub set: Holder,
    pub plan: Plan,
}

// Decides what a data set gets that seeks space, once the pieces are chosen: refused with 9, 10 or 11, or the answer is there. The table
// is only read: a preview ends here, and its call has only to write.
pub fn decide(
    table: &[u8],
    g: Geometry,
    free_tracks: &mut [u64],
    free_slots: &mut [u64],
    chain: &mut [u16],
    seeker: Holder,
    pieces: [[u16; 2]; 5],
    answer: &mut [u8],
) -> Result<Decision, Refusal>
    requires limits { (length table.now ≡ 140 * slots (geometry_of g)) × (tracks (geometry_of g) ≤ 64 * length free_tracks.old) × (length free_slots.old ≡ 8) × (length chain.old ≡ 468) × (seeker.extents ≤ 16) × (length answer.old ≡ 24) }
    requires seeks { Seeks (geometry_of g) table.now free_tracks.old free_slots.old seeker pieces }
    ensures { (d : Seeks (geometry_of g) table.now free_tracks.old free_slots.old seeker pieces) → Decides d answer.old free_tracks.new chain.new answer.new result }
{
    let got = choose_pieces::count_pieces(pieces);
    if got.count == 0 {
        return Err(Refusal::NoSpace);
    }
    let set = Holder {
        count: got.count,
        ..seeker
    };
    if extents_then(set) > 16 {
        return Err(Refusal::Extents);
    }
    let granted = &pieces[..got.count];
    let Some(plan) = plan_grant(table, g, free_tracks, free_slots, chain, set, granted) else {
        return Err(Refusal::VtocFull);
    };
    answers::put_granted(answer, pieces, got.count, got.tracks);
    Ok(Decision { set, plan })
}

// A data set that seeks an amount: the slots of its format 1 and its format 3, 0 for none, how many extents it has, and whether the
// first piece joins the last of them.
fn seeker_of(slot: usize, slot3: usize, extents: usize, joins: bool, amount: Amount) -> Holder
    ensures { (result.slot ≡ slot) × (result.slot3 ≡ slot3) × (result.extents ≡ extents) × (result.joins ≡ joins) × (result.type_byte ≡ type_of (to_amount amount)) }
{
    Holder {
        slot,
        slot3,
        extents,
        count: 0,
        type_byte: request::type_byte(amount),
        joins,
    }
}

// ---- allocate

// Chooses the pieces of a request that is not refused so far, and grants them to a new data set: refused with 9 or 11.
pub fn place(
    table: &mut [u8],
    g: Geometry,
    free_tracks: &mut [u64],
    free_slots: &mut [u64],
    name: &[u8],
    attributes: &[u8],
    request: Request,
    answer: &mut [u8],
) -> Result<(), Refusal>
    requires { Asking table.old free_tracks.old free_slots.old name.now attributes.now answer.old (geometry_of g) (to_option request.option) (to_amount request.amount) request.secondary }
    ensures { Chooses table.old name.now attributes.now answer.old (to_option request.option) (to_amount request.amount) request.secondary (number_of result) table.new answer.new }
{
    let pieces = request::fulfil(table, free_tracks, g, request.option, request.amount);
    let seeker = seeker_of(0, 0, 0, false, request.amount);
    let mut chain = [0u16; 468];
    let decision = decide(
        table,
        g,
        free_tracks,
        free_slots,
        &mut chain,
        seeker,
        pieces,
        answer,
    )?;
    let unit = request::unit_byte(request.amount);
    write_grant(
        table,
        g,
        free_tracks,
        &chain,
        decision.plan,
        decision.set,
        &pieces[..decision.set.count],
        &mut dscb_write::new_label(name, attributes, unit, request.secondary),
        &mut dscb_write::empty_three(),
    );
    Ok(())
}

// The same without writing the table. Whatever its name and attributes, the pieces are the same.
pub fn preview_place(
    table: &[u8],
    g: Geometry,
    free_tracks: &mut [u64],
    free_slots: &mut [u64],
    request: Request,
    answer: &mut [u8],
) -> Result<(), Refusal>
    requires { (name : List ℕ) × (at : List ℕ) × Asking table.now free_tracks.old free_slots.old name at answer.old (geometry_of g) (to_option request.option) (to_amount request.amount) request.secondary }
    ensures { (name at : List ℕ) → Asking table.now free_tracks.old free_slots.old name at answer.old (geometry_of g) (to_option request.option) (to_amount request.amount) request.secondary → Foresees table.now name at answer.old (to_option request.option) (to_amount request.amount) request.secondary (number_of result) answer.new }
{
    let pieces = request::fulfil(table, free_tracks, g, request.option, request.amount);
    let seeker = seeker_of(0, 0, 0, false, request.amount);
    let mut chain = [0u16; 468];
    decide(
        table,
        g,
        free_tracks,
        free_slots,
        &mut chain,
        seeker,
        pieces,
        answer,
    )?;
    Ok(())
}

// ---- extend

// What an extend asks for, by the format 1: its secondary amount, refused with 8 where that is 0. No label keeps an option.
fn asked_more(f1: &[u8; 140]) -> Result<Request, Refusal>
    requires { length f1.now ≡ 140 }
    ensures { AsksMore f1.now result }
{
    let secondary = rows::three(f1, SECONDARY);
    if secondary == 0 {
        return Err(Refusal::NoSecondary);
    }
    Ok(Request {
        amount: request::secondary_of(f1[DS1SCALO], secondary),
        option: SpaceOption::NoOption,
        secondary,
    })
}

// Grants the data set whose format 1 is in slot k its secondary amount: refused with 8, 9, 10 or 11.
pub fn lengthen(
    table: &mut [u8],
    g: Geometry,
    free_tracks: &mut [u64],
    free_slots: &mut [u64],
    k: usize,
    answer: &mut [u8],
) -> Result<(), Refusal>
    requires { Longer table.old free_tracks.old free_slots.old answer.old (geometry_of g) k }
    ensures { (d : Longer table.old free_tracks.old free_slots.old answer.old (geometry_of g) k) → Extended d (number_of result) table.new answer.new }
{
    let mut held = data_set::set_at(table, g, k);
    let more = asked_more(&held.f1)?;
    let pieces = request::fulfil(table, free_tracks, g, more.option, more.amount);
    let joins = set_extents::joins_last(&held.f1, &held.f3, held.count, g, pieces);
    let seeker = seeker_of(k, held.slot3, held.count, joins, more.amount);
    let mut chain = [0u16; 468];
    let decision = decide(
        table,
        g,
        free_tracks,
        free_slots,
        &mut chain,
        seeker,
        pieces,
        answer,
    )?;
    write_grant(
        table,
        g,
        free_tracks,
        &chain,
        decision.plan,
        decision.set,
        &pieces[..decision.set.count],
        &mut held.f1,
        &mut held.f3,
    );
    Ok(())
}

// The same without writing the table.
pub fn preview_longer(
    table: &[u8],
    g: Geometry,
    free_tracks: &mut [u64],
    free_slots: &mut [u64],
    k: usize,
    answer: &mut [u8],
) -> Result<(), Refusal>
    requires { Longer table.now free_tracks.old free_slots.old answer.old (geometry_of g) k }
    ensures { (d : Longer table.now free_tracks.old free_slots.old answer.old (geometry_of g) k) → ExtendForeseen d (number_of result) answer.new }
{
    let held = data_set::set_at(table, g, k);
    let more = asked_more(&held.f1)?;
    let pieces = request::fulfil(table, free_tracks, g, more.option, more.amount);
    let joins = set_extents::joins_last(&held.f1, &held.f3, held.count, g, pieces);
    let seeker = seeker_of(k, held.slot3, held.count, joins, more.amount);
    let mut chain = [0u16; 468];
    decide(
        table,
        g,
        free_tracks,
        free_slots,
        &mut chain,
        seeker,
        pieces,
        answer,
    )?;
    Ok(())
}
