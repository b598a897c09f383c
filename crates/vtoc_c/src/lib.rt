// The exports of libvtoc.a: the functions of `vtoc` under their own names, for hosts in C (include/vtoc.h). Each calls the one of its
// name, with its clause word for word; what it does is said there.
#![tactic(auto)]

ghost use Rattle.rules.specs.Promises.{Allocates, DateToPacked, DateToStored, Extends, Initialises, Inquires, Obtains, PreviewsAllocate, PreviewsExtend, PreviewsRelease, PreviewsScratch, Releases, Renames, Scratches};

#[unsafe(no_mangle)]
pub extern "C" fn vtoc_initialise(
    table: &mut [u8],
    c: u32,
    h: u32,
    d: u32,
    s: u32,
    v: u32,
    answer: &mut [u8],
) -> u32
    ensures { Initialises table.old c h d s v answer.old result table.new answer.new }
{
    vtoc::vtoc_initialise(table, c, h, d, s, v, answer)
}

#[unsafe(no_mangle)]
pub extern "C" fn vtoc_allocate(
    table: &mut [u8],
    name: &[u8],
    attributes: &[u8],
    kind: u32,
    start: u32,
    amount: u32,
    secondary: u32,
    option: u32,
    expiry: &[u8],
    answer: &mut [u8],
) -> u32
    ensures { Allocates table.old name.now attributes.now kind start amount secondary option expiry.now answer.old result table.new answer.new }
{
    vtoc::vtoc_allocate(
        table, name, attributes, kind, start, amount, secondary, option, expiry, answer,
    )
}

#[unsafe(no_mangle)]
pub extern "C" fn vtoc_extend(table: &mut [u8], name: &[u8], answer: &mut [u8]) -> u32
    ensures { Extends table.old name.now answer.old result table.new answer.new }
{
    vtoc::vtoc_extend(table, name, answer)
}

#[unsafe(no_mangle)]
pub extern "C" fn vtoc_release(table: &mut [u8], name: &[u8], ttr: u32, answer: &mut [u8]) -> u32
    ensures { Releases table.old name.now ttr answer.old result table.new answer.new }
{
    vtoc::vtoc_release(table, name, ttr, answer)
}

#[unsafe(no_mangle)]
pub extern "C" fn vtoc_scratch(
    table: &mut [u8],
    name: &[u8],
    today: &[u8],
    overriding: u32,
    answer: &mut [u8],
) -> u32
    ensures { Scratches table.old name.now today.now overriding answer.old result table.new answer.new }
{
    vtoc::vtoc_scratch(table, name, today, overriding, answer)
}

#[unsafe(no_mangle)]
pub extern "C" fn vtoc_rename(table: &mut [u8], old: &[u8], new: &[u8], answer: &mut [u8]) -> u32
    ensures { Renames table.old old.now new.now answer.old result table.new answer.new }
{
    vtoc::vtoc_rename(table, old, new, answer)
}

#[unsafe(no_mangle)]
pub extern "C" fn vtoc_obtain(
    table: &[u8],
    name: &[u8],
    labels: &mut [u8],
    answer: &mut [u8],
) -> u32
    ensures { Obtains table.now name.now labels.old answer.old result labels.new answer.new }
{
    vtoc::vtoc_obtain(table, name, labels, answer)
}

#[unsafe(no_mangle)]
pub extern "C" fn vtoc_lspace(table: &[u8], answer: &mut [u8]) -> u32
    ensures { Inquires table.now answer.old result answer.new }
{
    vtoc::vtoc_lspace(table, answer)
}

#[unsafe(no_mangle)]
pub extern "C" fn vtoc_preview_allocate(
    table: &[u8],
    name: &[u8],
    attributes: &[u8],
    kind: u32,
    start: u32,
    amount: u32,
    secondary: u32,
    option: u32,
    expiry: &[u8],
    answer: &mut [u8],
) -> u32
    ensures { PreviewsAllocate table.now name.now attributes.now kind start amount secondary option expiry.now answer.old result answer.new }
{
    vtoc::vtoc_preview_allocate(
        table, name, attributes, kind, start, amount, secondary, option, expiry, answer,
    )
}

#[unsafe(no_mangle)]
pub extern "C" fn vtoc_preview_extend(table: &[u8], name: &[u8], answer: &mut [u8]) -> u32
    ensures { PreviewsExtend table.now name.now answer.old result answer.new }
{
    vtoc::vtoc_preview_extend(table, name, answer)
}

#[unsafe(no_mangle)]
pub extern "C" fn vtoc_preview_release(
    table: &[u8],
    name: &[u8],
    ttr: u32,
    answer: &mut [u8],
) -> u32
    ensures { PreviewsRelease table.now name.now ttr answer.old result answer.new }
{
    vtoc::vtoc_preview_release(table, name, ttr, answer)
}

#[unsafe(no_mangle)]
pub extern "C" fn vtoc_preview_scratch(
    table: &[u8],
    name: &[u8],
    today: &[u8],
    overriding: u32,
    answer: &mut [u8],
) -> u32
    ensures { PreviewsScratch table.now name.now today.now overriding answer.old result answer.new }
{
    vtoc::vtoc_preview_scratch(table, name, today, overriding, answer)
}

#[unsafe(no_mangle)]
pub extern "C" fn vtoc_date_to_stored(packed: &[u8], answer: &mut [u8]) -> u32
    ensures { DateToStored packed.now answer.old result answer.new }
{
    vtoc::vtoc_date_to_stored(packed, answer)
}

#[unsafe(no_mangle)]
pub extern "C" fn vtoc_date_to_packed(stored: &[u8], answer: &mut [u8]) -> u32
    ensures { DateToPacked stored.now answer.old result answer.new }
{
    vtoc::vtoc_date_to_packed(stored, answer)
}
