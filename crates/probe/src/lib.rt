// The check of a table, the name rule alone and the ten bytes of an extent, for programs in C or Rust that test them: the caller lends
// the table, the name or the two records, and nothing else.
#![tactic(auto)]

ghost use Rattle.std.specs.Prelude.{◌≡◌};
ghost use Rattle.probe.specs.Number.{check_number, extent_byte, name_number};

// 0 where the table is taken, 2 where its length is not 140 times 3 to 468, else 3.
#[tactic(auto, unfolding(crate::specs::Number::check_number))]
#[unsafe(no_mangle)]
pub extern "C" fn vtoc_probe_check(table: &[u8]) -> u32
    ensures { result ≡ check_number table.now }
{
    if !check_table::good_length(table) {
        return 2;
    }
    let mut free_tracks = [u64::MAX; 1024];
    let mut free_slots = [0u64; 8];
    if check_table::check(table, &mut free_tracks, &mut free_slots).is_some() {
        return 0;
    }
    3
}

// 1 where the name obeys the rule, else 0.
#[tactic(auto, unfolding(crate::specs::Number::name_number))]
#[unsafe(no_mangle)]
pub extern "C" fn vtoc_probe_name(name: &[u8]) -> u32
    ensures { result ≡ name_number name.now }
{
    u32::from(ebcdic::name_ok(name))
}

// Byte i of the part that holds extent number e, 256 where the part has no such byte.
#[tactic(auto, unfolding(crate::specs::Number::extent_byte))]
#[unsafe(no_mangle)]
pub extern "C" fn vtoc_probe_extent<'a>(format1: &'a [u8], format3: &'a [u8], e: u32, i: u32) -> u32
    ensures { result ≡ extent_byte format1.now format3.now e i }
{
    match dscb::extent_part(format1, format3, e as usize).get(i as usize) {
        Some(&byte) => u32::from(byte),
        None => 256,
    }
}
