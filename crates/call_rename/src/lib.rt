// Rename: another name for a data set.
#![tactic(auto)]

ghost use Rattle.std.specs.Prelude.{◌≡◌, ◌+◌, ◌*◌, ◌≤◌, length};
ghost use Rattle.model.specs.Model.{Geometry, Label};
ghost use Rattle.rules.specs.Promises.{Renames};
ghost use Rattle.rules.specs.Layout.{format1};
ghost use Rattle.rules.specs.Slots.{with_name};
ghost use Rattle.refusals.specs.Numbers.{number_of};
ghost use Rattle.dscb.specs.Records.{put_record, slot_bytes};
ghost use Rattle.dscb_write.specs.Labels.{Format1};

use refusals::Refusal;

// Puts a name into the format 1 in slot k.
fn put_name(table: &mut [u8], k: usize, name: &[u8])
    requires { (140 * k + 140 ≤ length table.old) × (length name.now ≡ 44) }
    ensures { (g : Geometry) (l : Label) → Format1 g l (slot_bytes table.old k) → table.new ≡ put_record table.old k (format1 g (with_name name.now l)) }
{
    let f1 = dscb_write::record_of(dscb::record_at(table, k));
    let named = dscb_write::set_name(f1, name);
    dscb::put_record(table, k, &named);
}

// The call: refused with 2, 3, 4 for either name, 5 or 6 in this order, and nothing is written where it is refused.
pub fn rename(table: &mut [u8], old: &[u8], new: &[u8], answer: &mut [u8]) -> Result<(), Refusal>
    ensures { Renames table.old old.now new.now answer.old (number_of result) table.new answer.new }
{
    let lengths = open_table::and_another(answer.len(), old.len(), new.len(), 44);
    let geometry = open_table::open_to_read(table, lengths)?.geometry;
    open_table::check_name(old)?;
    open_table::check_name(new)?;
    let Some(slot) = open_table::look_up(table, geometry, old) else {
        return Err(Refusal::NotFound);
    };
    if open_table::on_volume(table, geometry, new) {
        return Err(Refusal::Duplicate);
    }
    put_name(table, slot, new);
    answers::put_nothing(answer);
    Ok(())
}
