// One record played (docs/REPLAY.md).
#![tactic(auto)]

ghost use Rattle.std.specs.Prelude.{◌≡◌, get_or, length};
ghost use Rattle.rules.specs.Calls.{allocate, date_to_packed, date_to_stored, extend, lspace, preview, release, rename};
ghost use Rattle.rules.specs.Entries.{lent, result_of};
ghost use Rattle.replay_record.specs.Asked.{date_asked, get4, name_asked, other_of};
ghost use Rattle.replay_step.specs.Play.{Does, Loads, Tells, both_lent, called, initialised, line_for, obtained, operated, played, request_of, scratch_of};
ghost use Rattle.replay_step.specs.Operations.{Decodes};

// ---- the calls, each with the lent first bytes of the buffers

fn do_initialise(asked: &[u8], table: &mut [u8], answer: &mut [u8]) -> u32
    requires { (length asked.now ≡ 136) × (length table.old ≡ 65536) × (length answer.old ≡ 32) }
    ensures { Does (initialised asked.now) table.old answer.old result table.new answer.new }
{
    let n = replay_record::table_lent(asked);
    let k = replay_record::answer_lent(asked);
    let c = replay_record::four(asked, 8);
    let h = replay_record::four(asked, 12);
    let d = replay_record::four(asked, 16);
    let s = replay_record::four(asked, 20);
    let v = replay_record::four(asked, 24);
    vtoc::vtoc_initialise(&mut table[..n], c, h, d, s, v, &mut answer[..k])
}

fn do_allocate(asked: &[u8], table: &mut [u8], answer: &mut [u8]) -> u32
    requires { (length asked.now ≡ 136) × (length table.old ≡ 65536) × (length answer.old ≡ 32) }
    ensures { Does (λ b. called asked.now b (allocate (request_of asked.now))) table.old answer.old result table.new answer.new }
{
    let n = replay_record::table_lent(asked);
    let k = replay_record::answer_lent(asked);
    let kind = replay_record::four(asked, 8);
    let start = replay_record::four(asked, 12);
    let amount = replay_record::four(asked, 16);
    let secondary = replay_record::four(asked, 20);
    let option = replay_record::four(asked, 24);
    let name = replay_record::name_of(asked);
    let attributes = replay_record::other_of(asked);
    let expiry = replay_record::date_of(asked);
    vtoc::vtoc_allocate(
        &mut table[..n],
        name,
        attributes,
        kind,
        start,
        amount,
        secondary,
        option,
        expiry,
        &mut answer[..k],
    )
}

fn do_extend(asked: &[u8], table: &mut [u8], answer: &mut [u8]) -> u32
    requires { (length asked.now ≡ 136) × (length table.old ≡ 65536) × (length answer.old ≡ 32) }
    ensures { Does (λ b. called asked.now b (extend (name_asked asked.now))) table.old answer.old result table.new answer.new }
{
    let n = replay_record::table_lent(asked);
    let k = replay_record::answer_lent(asked);
    vtoc::vtoc_extend(
        &mut table[..n],
        replay_record::name_of(asked),
        &mut answer[..k],
    )
}

fn do_release(asked: &[u8], table: &mut [u8], answer: &mut [u8]) -> u32
    requires { (length asked.now ≡ 136) × (length table.old ≡ 65536) × (length answer.old ≡ 32) }
    ensures { Does (λ b. called asked.now b (release (name_asked asked.now) (get4 asked.now 8))) table.old answer.old result table.new answer.new }
{
    let n = replay_record::table_lent(asked);
    let k = replay_record::answer_lent(asked);
    let ttr = replay_record::four(asked, 8);
    vtoc::vtoc_release(
        &mut table[..n],
        replay_record::name_of(asked),
        ttr,
        &mut answer[..k],
    )
}

fn do_scratch(asked: &[u8], table: &mut [u8], answer: &mut [u8]) -> u32
    requires { (length asked.now ≡ 136) × (length table.old ≡ 65536) × (length answer.old ≡ 32) }
    ensures { Does (λ b. called asked.now b (scratch_of asked.now)) table.old answer.old result table.new answer.new }
{
    let n = replay_record::table_lent(asked);
    let k = replay_record::answer_lent(asked);
    vtoc::vtoc_scratch(
        &mut table[..n],
        replay_record::name_of(asked),
        replay_record::date_of(asked),
        replay_record::four(asked, 8),
        &mut answer[..k],
    )
}

fn do_rename(asked: &[u8], table: &mut [u8], answer: &mut [u8]) -> u32
    requires { (length asked.now ≡ 136) × (length table.old ≡ 65536) × (length answer.old ≡ 32) }
    ensures { Does (λ b. called asked.now b (rename (name_asked asked.now) (other_of asked.now))) table.old answer.old result table.new answer.new }
{
    let n = replay_record::table_lent(asked);
    let k = replay_record::answer_lent(asked);
    vtoc::vtoc_rename(
        &mut table[..n],
        replay_record::name_of(asked),
        replay_record::other_of(asked),
        &mut answer[..k],
    )
}

fn do_obtain(asked: &[u8], table: &[u8], answer: &mut [u8], labels: &mut [u8]) -> u32
    requires { (length asked.now ≡ 136) × (length table.now ≡ 65536) × (length answer.old ≡ 32) × (length labels.old ≡ 288) }
    ensures { result_of result (lent table.now answer.new labels.new) ≡ obtained asked.now (lent table.now answer.old labels.old) }
{
    let n = replay_record::table_lent(asked);
    let k = replay_record::answer_lent(asked);
    let m = replay_record::labels_lent(asked);
    vtoc::vtoc_obtain(
        &table[..n],
        replay_record::name_of(asked),
        &mut labels[..m],
        &mut answer[..k],
    )
}

fn do_lspace(asked: &[u8], table: &[u8], answer: &mut [u8]) -> u32
    requires { (length asked.now ≡ 136) × (length table.now ≡ 65536) × (length answer.old ≡ 32) }
    ensures { Does (λ b. called asked.now b lspace) table.now answer.old result table.now answer.new }
{
    let n = replay_record::table_lent(asked);
    let k = replay_record::answer_lent(asked);
    vtoc::vtoc_lspace(&table[..n], &mut answer[..k])
}

fn do_put(asked: &[u8], table: &mut [u8]) -> u32
    requires { length asked.now ≡ 136 }
    ensures { Loads asked.now table.old result table.new }
{
    let place = replay_record::four(asked, 8);
    replay_record::put_over(table, place as usize, replay_record::bytes_of(asked));
    0
}

// ---- previews

fn do_preview_allocate(asked: &[u8], table: &[u8], answer: &mut [u8]) -> u32
    requires { (length asked.now ≡ 136) × (length table.now ≡ 65536) × (length answer.old ≡ 32) }
    ensures { Does (λ b. called asked.now b (preview (allocate (request_of asked.now)))) table.now answer.old result table.now answer.new }
{
    let n = replay_record::table_lent(asked);
    let k = replay_record::answer_lent(asked);
    vtoc::vtoc_preview_allocate(
        &table[..n],
        replay_record::name_of(asked),
        replay_record::other_of(asked),
        replay_record::four(asked, 8),
        replay_record::four(asked, 12),
        replay_record::four(asked, 16),
        replay_record::four(asked, 20),
        replay_record::four(asked, 24),
        replay_record::date_of(asked),
        &mut answer[..k],
    )
}

fn do_preview_extend(asked: &[u8], table: &[u8], answer: &mut [u8]) -> u32
    requires { (length asked.now ≡ 136) × (length table.now ≡ 65536) × (length answer.old ≡ 32) }
    ensures { Does (λ b. called asked.now b (preview (extend (name_asked asked.now)))) table.now answer.old result table.now answer.new }
{
    let n = replay_record::table_lent(asked);
    let k = replay_record::answer_lent(asked);
    vtoc::vtoc_preview_extend(&table[..n], replay_record::name_of(asked), &mut answer[..k])
}

fn do_preview_release(asked: &[u8], table: &[u8], answer: &mut [u8]) -> u32
    requires { (length asked.now ≡ 136) × (length table.now ≡ 65536) × (length answer.old ≡ 32) }
    ensures { Does (λ b. called asked.now b (preview (release (name_asked asked.now) (get4 asked.now 8)))) table.now answer.old result table.now answer.new }
{
    let n = replay_record::table_lent(asked);
    let k = replay_record::answer_lent(asked);
    vtoc::vtoc_preview_release(
        &table[..n],
        replay_record::name_of(asked),
        replay_record::four(asked, 8),
        &mut answer[..k],
    )
}

fn do_preview_scratch(asked: &[u8], table: &[u8], answer: &mut [u8]) -> u32
    requires { (length asked.now ≡ 136) × (length table.now ≡ 65536) × (length answer.old ≡ 32) }
    ensures { Does (λ b. called asked.now b (preview (scratch_of asked.now))) table.now answer.old result table.now answer.new }
{
    let n = replay_record::table_lent(asked);
    let k = replay_record::answer_lent(asked);
    vtoc::vtoc_preview_scratch(
        &table[..n],
        replay_record::name_of(asked),
        replay_record::date_of(asked),
        replay_record::four(asked, 8),
        &mut answer[..k],
    )
}

// ---- dates, with no table

fn do_date_to_stored(asked: &[u8], answer: &mut [u8]) -> u32
    requires { (length asked.now ≡ 136) × (length answer.old ≡ 32) }
    ensures { Tells asked.now (date_to_stored (date_asked asked.now)) answer.old result answer.new }
{
    let k = replay_record::answer_lent(asked);
    vtoc::vtoc_date_to_stored(replay_record::date_of(asked), &mut answer[..k])
}

fn do_date_to_packed(asked: &[u8], answer: &mut [u8]) -> u32
    requires { (length asked.now ≡ 136) × (length answer.old ≡ 32) }
    ensures { Tells asked.now (date_to_packed (date_asked asked.now)) answer.old result answer.new }
{
    let k = replay_record::answer_lent(asked);
    vtoc::vtoc_date_to_packed(replay_record::date_of(asked), &mut answer[..k])
}

// ---- by the operation

// What a record asks for. The previews have 128 more than the number of their call.
#[derive(Clone, Copy, PartialEq, Eq)]
enum Operation {
    Initialise,
    Allocate,
    Extend,
    Release,
    Scratch,
    Rename,
    Obtain,
    Lspace,
    Put,
    DateToStored,
    DateToPacked,
    PreviewAllocate,
    PreviewExtend,
    PreviewRelease,
    PreviewScratch,
}

// A number that no operation has.
#[derive(Clone, Copy, PartialEq, Eq)]
struct NoOperation;

impl TryFrom<u8> for Operation {
    type Error = NoOperation;

    ghost try_from_gives = { Decodes };

    fn try_from(number: u8) -> Result<Self, NoOperation> {
        match number {
            1 => Ok(Operation::Initialise),
            2 => Ok(Operation::Allocate),
            3 => Ok(Operation::Extend),
            4 => Ok(Operation::Release),
            5 => Ok(Operation::Scratch),
            6 => Ok(Operation::Rename),
            7 => Ok(Operation::Obtain),
            8 => Ok(Operation::Lspace),
            9 => Ok(Operation::Put),
            10 => Ok(Operation::DateToStored),
            11 => Ok(Operation::DateToPacked),
            130 => Ok(Operation::PreviewAllocate),
            131 => Ok(Operation::PreviewExtend),
            132 => Ok(Operation::PreviewRelease),
            133 => Ok(Operation::PreviewScratch),
            _ => Err(NoOperation),
        }
    }
}

// Does what the record asks for; 99 where it asks for nothing that there is.
fn play(asked: &[u8], table: &mut [u8], answer: &mut [u8], labels: &mut [u8]) -> u32
    requires { (length asked.now ≡ 136) × (length table.old ≡ 65536) × (length answer.old ≡ 32) × (length labels.old ≡ 288) }
    ensures { result_of result (lent table.new answer.new labels.new) ≡ operated (get_or asked.now 0 0) asked.now (lent table.old answer.old labels.old) }
{
    let Ok(operation) = Operation::try_from(asked[0]) else {
        return 99;
    };
    match operation {
        Operation::Initialise => do_initialise(asked, table, answer),
        Operation::Allocate => do_allocate(asked, table, answer),
        Operation::Extend => do_extend(asked, table, answer),
        Operation::Release => do_release(asked, table, answer),
        Operation::Scratch => do_scratch(asked, table, answer),
        Operation::Rename => do_rename(asked, table, answer),
        Operation::Obtain => do_obtain(asked, table, answer, labels),
        Operation::Lspace => do_lspace(asked, table, answer),
        Operation::Put => do_put(asked, table),
        Operation::DateToStored => do_date_to_stored(asked, answer),
        Operation::DateToPacked => do_date_to_packed(asked, answer),
        Operation::PreviewAllocate => do_preview_allocate(asked, table, answer),
        Operation::PreviewExtend => do_preview_extend(asked, table, answer),
        Operation::PreviewRelease => do_preview_release(asked, table, answer),
        Operation::PreviewScratch => do_preview_scratch(asked, table, answer),
    }
}

// ---- the line

// Writes the line of a record, by its result and the buffers after it.
fn report(asked: &[u8], r: u32, table: &[u8], answer: &[u8], labels: &[u8], line: &mut [u8])
    requires { (length asked.now ≡ 136) × (length table.now ≡ 65536) × (length answer.now ≡ 32) × (length labels.now ≡ 288) × (length line.old ≡ 73) }
    ensures { line.new ≡ line_for asked.now (result_of r (lent table.now answer.now labels.now)) }
{
    let n = replay_record::table_lent(asked);
    let m = replay_record::labels_lent(asked);
    let t = replay_record::digest(&table[..n]);
    let l = replay_record::digest(&labels[..m]);
    replay_record::put_line(line, asked[0], r, &answer[..24], t, l);
}

// Plays one record: does what it asks for with the table, and writes its line.
pub fn step(asked: &[u8], table: &mut [u8], line: &mut [u8])
    requires { (length asked.now ≡ 136) × (length table.old ≡ 65536) × (length line.old ≡ 73) }
    ensures { both_lent line.new table.new ≡ played asked.now table.old }
{
    let mut answer = [0xA5; 32];
    let mut labels = [0x5A; 288];
    let r = play(asked, table, &mut answer, &mut labels);
    report(asked, r, table, &answer, &labels, line);
}
