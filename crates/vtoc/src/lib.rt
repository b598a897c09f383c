// The fourteen calls for hosts in C (include/vtoc.h), which crate vtoc_c exports. A slice is a pointer and a length; the result is 0 or
// the number of the refusal. No call asks anything of its arguments. What each ensures is one equation of rules/specs/Promises.antt: the
// result and every lent byte afterwards are those that `initialise`, `convert_date`, or `perform` with the call, gives for the lent bytes
// and numbers before. It leaves nothing free. Where the result is not 0, these definitions leave every lent byte as it was.
#![tactic(auto)]

ghost use Rattle.rules.specs.Promises.{Allocates, DateToPacked, DateToStored, Extends, Initialises, Inquires, Obtains, PreviewsAllocate, PreviewsExtend, PreviewsRelease, PreviewsScratch, Releases, Renames, Scratches};

use refusals::number_of;

// Initialises a volume of c cylinders with h tracks each, and a VTOC of v tracks from track s on with d records a track. The
// result is that of `initialise`: 1 geometry, 2 length. The table is then `encode (fresh g)`, a volume with no data set, and
// the answer 24 zeros.
#[unsafe(no_mangle)]
pub extern "C" fn vtoc_initialise(
    table: &mut [u8],
    c: u32,
    h: u32,
    d: u32,
    s: u32,
    v: u32,
    answer: &mut [u8],
) -> u32
    ensures { Initialises table.old c h d s v answer.old result table.new answer.new }
{
    number_of(call_initialise::initialise(table, c, h, d, s, v, answer))
}

// Allocates tracks to a new data set, by an option: 0 none, 1 CONTIG, 2 MXIG, 3 ALX, and with an expiry date: four zero bytes for none.
// The refusals, in the order of `perform` and `rule`: 2 length, 3 VTOC unsound, 4 name, 14 date, 7 amount (an unknown option, or one on
// an absolute request, too), 6 duplicate, 9 no space, 11 VTOC full. The date replaces three attributes, by `dated`. The pieces are those of `grant`, the table that of the volume which `added` leaves, the answer
// `answer (granted pieces)`.
#[unsafe(no_mangle)]
pub extern "C" fn vtoc_allocate(
    table: &mut [u8],
    name: &[u8],
    attributes: &[u8],
    kind: u32,
    start: u32,
    amount: u32,
    secondary: u32,
    option: u32,
    expiry: &[u8],
    answer: &mut [u8],
) -> u32
    ensures { Allocates table.old name.now attributes.now kind start amount secondary option expiry.now answer.old result table.new answer.new }
{
    number_of(call_allocate::allocate(
        table, name, attributes, kind, start, amount, secondary, option, expiry, answer,
    ))
}

// Extends a data set by its secondary amount. The refusals, in the order of `perform` and `rule`: 2, 3, 4, 5 not found,
// 8 no secondary, 9 no space, 10 extents, 11 VTOC full. Pieces, table and answer as for allocate.
#[unsafe(no_mangle)]
pub extern "C" fn vtoc_extend(table: &mut [u8], name: &[u8], answer: &mut [u8]) -> u32
    ensures { Extends table.old name.now answer.old result table.new answer.new }
{
    number_of(call_extend::extend(table, name, answer))
}

// Releases the tracks behind the last block, ttr. The refusals, in the order of `perform` and `rule`: 2, 3, 4, 5 not
// found, 12 TTR, 11 VTOC full. The extents are those that `keep` leaves, the table that of the volume which `changed`
// leaves, the answer `answer (given_back n)`, n being the tracks of the set less `tracks_kept_of`.
#[unsafe(no_mangle)]
pub extern "C" fn vtoc_release(table: &mut [u8], name: &[u8], ttr: u32, answer: &mut [u8]) -> u32
    ensures { Releases table.old name.now ttr answer.old result table.new answer.new }
{
    number_of(call_release::release(table, name, ttr, answer))
}

// Scratches a data set that has expired by today, or any with an override, which is any number but 0. The refusals, in the order of
// `perform` and `rule`: 2, 3, 4, 14 date, 5 not found, 13 unexpired. The table is that of the volume that `removed` leaves, the answer
// `answer (given_back n)`, n being all its tracks.
#[unsafe(no_mangle)]
pub extern "C" fn vtoc_scratch(
    table: &mut [u8],
    name: &[u8],
    today: &[u8],
    overriding: u32,
    answer: &mut [u8],
) -> u32
    ensures { Scratches table.old name.now today.now overriding answer.old result table.new answer.new }
{
    number_of(call_scratch::scratch(table, name, today, overriding, answer))
}

// Renames a data set. The refusals, in the order of `perform` and `rule`: 2, 3, 4 (either name), 5 not found (the old one),
// 6 duplicate. The table is that of the volume whose label is `with_name new`: its 44 name bytes are the new name's, and no
// other byte changes. The answer is 24 zeros.
#[unsafe(no_mangle)]
pub extern "C" fn vtoc_rename(table: &mut [u8], old: &[u8], new: &[u8], answer: &mut [u8]) -> u32
    ensures { Renames table.old old.now new.now answer.old result table.new answer.new }
{
    number_of(call_rename::rename(table, old, new, answer))
}

// Obtains the labels of a data set. The refusals, in the order of `perform` and `rule`: 2, 3, 4, 5 not found. The 280 label
// bytes are those of `extra_after`: `format1` of the label, then its `format3` or zeros. The answer is 24 zeros; the table is
// only read.
#[unsafe(no_mangle)]
pub extern "C" fn vtoc_obtain(
    table: &[u8],
    name: &[u8],
    labels: &mut [u8],
    answer: &mut [u8],
) -> u32
    ensures { Obtains table.now name.now labels.old answer.old result labels.new answer.new }
{
    number_of(call_obtain::obtain(table, name, labels, answer))
}

// Inquires about free space (LSPACE). The refusals, in the order of `perform`: 2, 3. The answer has the six numbers of
// `space_numbers`; the table is only read.
#[unsafe(no_mangle)]
pub extern "C" fn vtoc_lspace(table: &[u8], answer: &mut [u8]) -> u32
    ensures { Inquires table.now answer.old result answer.new }
{
    number_of(call_lspace::lspace(table, answer))
}

// ---- previews: each answers as its call would on a copy of the table, refusals included, by `on_copy`; the table is only read

// What `vtoc_allocate` would grant.
#[unsafe(no_mangle)]
pub extern "C" fn vtoc_preview_allocate(
    table: &[u8],
    name: &[u8],
    attributes: &[u8],
    kind: u32,
    start: u32,
    amount: u32,
    secondary: u32,
    option: u32,
    expiry: &[u8],
    answer: &mut [u8],
) -> u32
    ensures { PreviewsAllocate table.now name.now attributes.now kind start amount secondary option expiry.now answer.old result answer.new }
{
    number_of(call_allocate::preview(
        table, name, attributes, kind, start, amount, secondary, option, expiry, answer,
    ))
}

// What `vtoc_extend` would grant.
#[unsafe(no_mangle)]
pub extern "C" fn vtoc_preview_extend(table: &[u8], name: &[u8], answer: &mut [u8]) -> u32
    ensures { PreviewsExtend table.now name.now answer.old result answer.new }
{
    number_of(call_extend::preview(table, name, answer))
}

// What `vtoc_release` would give back.
#[unsafe(no_mangle)]
pub extern "C" fn vtoc_preview_release(
    table: &[u8],
    name: &[u8],
    ttr: u32,
    answer: &mut [u8],
) -> u32
    ensures { PreviewsRelease table.now name.now ttr answer.old result answer.new }
{
    number_of(call_release::preview(table, name, ttr, answer))
}

// What `vtoc_scratch` would give back.
#[unsafe(no_mangle)]
pub extern "C" fn vtoc_preview_scratch(
    table: &[u8],
    name: &[u8],
    today: &[u8],
    overriding: u32,
    answer: &mut [u8],
) -> u32
    ensures { PreviewsScratch table.now name.now today.now overriding answer.old result answer.new }
{
    number_of(call_scratch::preview(table, name, today, overriding, answer))
}

// ---- dates, which have no table. The refusals: 2 length, 14 date. The answer is `answer (date_bytes ..)`: the other form, then zeros

// Converts a packed date, four bytes, to the three bytes of a label.
#[unsafe(no_mangle)]
pub extern "C" fn vtoc_date_to_stored(packed: &[u8], answer: &mut [u8]) -> u32
    ensures { DateToStored packed.now answer.old result answer.new }
{
    number_of(call_dates::date_to_stored(packed, answer))
}

// Converts the three bytes of a label to a packed date.
#[unsafe(no_mangle)]
pub extern "C" fn vtoc_date_to_packed(stored: &[u8], answer: &mut [u8]) -> u32
    ensures { DateToPacked stored.now answer.old result answer.new }
{
    number_of(call_dates::date_to_packed(stored, answer))
}
