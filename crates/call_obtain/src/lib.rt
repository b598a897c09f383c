// Obtain: the label records of a data set.
#![tactic(auto)]

ghost use Rattle.std.specs.Prelude.{◌≡◌, ◌++◌, ◌+◌, ◌*◌, ◌≤◌, ◌<◌, length};
ghost use Rattle.model.specs.Model.{slots};
ghost use Rattle.rules.specs.Promises.{Obtains};
ghost use Rattle.refusals.specs.Numbers.{number_of};
ghost use Rattle.dscb.specs.Records.{slot_bytes};
ghost use Rattle.dscb.specs.Forms.{geometry_of, linked_slot};
ghost use Rattle.call_obtain.specs.Third.{or_zeros};

use dscb::Geometry;
use refusals::Refusal;

// The record in slot q, or zeros where q is 0.
fn record_or_zeros(table: &[u8], q: usize) -> [u8; 140]
    requires { 140 * q + 140 ≤ length table.now }
    ensures { result ≡ or_zeros table.now q }
{
    if q == 0 {
        return [0u8; 140];
    }
    dscb_write::record_of(dscb::record_at(table, q))
}

// Fills 280 bytes: the format 1 in slot k, then its format 3 or zeros.
fn put_labels(table: &[u8], g: Geometry, k: usize, out: &mut [u8])
    requires { (length table.now ≡ 140 * slots (geometry_of g)) × (k < slots (geometry_of g)) × (length out.old ≡ 280) }
    ensures { out.new ≡ slot_bytes table.now k ++ or_zeros table.now (linked_slot (geometry_of g) (slot_bytes table.now k)) }
{
    let f1 = dscb::record_at(table, k);
    let copied = dscb_write::record_of(f1);
    let f3 = record_or_zeros(table, dscb::link(f1, g));
    dscb::put_record(out, 0, &copied);
    dscb::put_record(out, 1, &f3);
}

// The call: refused with 2, 3, 4 or 5 in this order, and nothing is written where it is refused.
pub fn obtain(
    table: &[u8],
    name: &[u8],
    labels: &mut [u8],
    answer: &mut [u8],
) -> Result<(), Refusal>
    ensures { Obtains table.now name.now labels.old answer.old (number_of result) labels.new answer.new }
{
    let lengths = open_table::and_another(answer.len(), name.len(), labels.len(), 280);
    let geometry = open_table::open_to_read(table, lengths)?.geometry;
    open_table::check_name(name)?;
    let Some(slot) = open_table::look_up(table, geometry, name) else {
        return Err(Refusal::NotFound);
    };
    put_labels(table, geometry, slot, labels);
    answers::put_nothing(answer);
    Ok(())
}
