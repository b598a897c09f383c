// vtlist: prints the listing of the table on standard input, or one line, `E` and the refusal.
#![tactic(auto)]

use full_read::read_full;
use std::io::Read;

// Room for the listing of any table. A function of its own: with the array in `main` the check runs out of stack.
fn room() -> [u8; 1_000_000] {
    [0; 1_000_000]
}

// Reads what is left of the input. A proved loop has to end, and nothing says that an input does: so there is a number of turns,
// one that no run uses up.
fn read_rest(input: &mut impl Read) {
    let mut rest = [0u8; 65536];
    for _ in 0..u64::MAX {
        if read_full(input, &mut rest) == 0 {
            break;
        }
    }
}

// No table is longer than 65,520 bytes: of a longer input the first 65,536 bytes are listed as the whole would be (rules'
// `listing_cut`). A listing that cannot be printed is not told of.
fn main(rt: HostRuntime) {
    let mut input = rt.stdin();
    let mut table = [0u8; 65536];
    let n = read_full(&mut input, &mut table);
    read_rest(&mut input);
    let mut map = [u64::MAX; 1024];
    let mut empty = [0u64; 8];
    let mut out = room();
    let r = listing::list(&table[..n], &mut map, &mut empty, &mut out);
    let _ = rt.write_all(&out[..r]);
}
