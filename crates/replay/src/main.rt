// replay [[START] END]: plays the recorded calls on standard input (docs/REPLAY.md), and prints a line for each. END is a file to
// make: the table that the last record left is written there. START is a file with the table before the first record.
#![tactic(auto)]

ghost use Rattle.std.specs.Prelude.{◌≡◌, ◌<◌, IfOk, IfSome, length};

use full_read::read_full;
use std::env::FillError;
use std::fmt::InlineText;
use std::fs::{File, OpenOptions};
use std::io::{Read, Write};
use std::rt::{Env, Files};
use std::{io, str};

// Says on standard error why nothing is played. Where that fails too, nobody can be told.
fn complain(rt: &HostRuntime, why: &str) {
    let _ = rt.eprintln(why);
}

// The reason in the text of an error, less the number that std puts behind it.
fn reason(text: &str) -> &str {
    match text.split_once(" (os error ") {
        Some((reason, _)) => reason,
        None => text,
    }
}

// Says on standard error what failed, and why.
fn fail(rt: &HostRuntime, what: &str, error: io::Error) {
    let text = InlineText::<256>::of(error);
    let why = reason(text.as_str());
    let _ = eprintln!(rt; "{what}: {why}");
}

// Reads a record, plays it and prints its line; answers how many bytes of the table it lends, none where the input ends. A record
// cut short at the end is left out.
fn play_one(rt: &HostRuntime, input: &mut impl Read, table: &mut [u8]) -> io::Result<Option<usize>>
    requires { length table.old ≡ 65536 }
    ensures { IfOk result (λ lent. IfSome lent (λ n. n < 65536)) }
{
    let mut asked = [0u8; 136];
    let mut line = [0u8; 73];
    if read_full(input, &mut asked) < asked.len() {
        return Ok(None);
    }
    replay_step::step(&asked, table, &mut line);
    rt.write_all(&line)?;
    Ok(Some(replay_record::table_lent(&asked)))
}

// Plays the whole input; answers how many bytes of the table the last record lent: 0 where there is none, and where a line could
// not be printed, since the run then ends too early. A proved loop has to end, and nothing says that the input does: so there is
// a number of turns, one that no run uses up.
fn play_all(rt: &HostRuntime, input: &mut impl Read, table: &mut [u8]) -> usize
    requires { length table.old ≡ 65536 }
    ensures { result < 65536 }
{
    let mut lent = 0;
    for _ in 0..u64::MAX {
        match play_one(rt, input, table) {
            Ok(Some(n)) => lent = n,
            Ok(None) => break,
            Err(e) => {
                fail(rt, "replay: a line", e);
                return 0;
            }
        }
    }
    lent
}

// Whether there is an argument i.
fn has_word(rt: &HostRuntime, i: usize) -> bool {
    !matches!(rt.arg(i, &mut []), Err(FillError::NotPresent))
}

// Puts argument i, the path of a file, into buf; none, with a complaint, where it is not UTF-8: std takes no other. One that does
// not fit counts as empty: no file has an empty path.
fn path_at<'a>(rt: &HostRuntime, i: usize, buf: &'a mut [u8]) -> Option<&'a str> {
    let n = rt.arg(i, buf).unwrap_or(0);
    match str::from_utf8(&buf[..n]) {
        Ok(path) => Some(path),
        Err(_) => {
            complain(rt, "replay: the path of a file is not UTF-8");
            None
        }
    }
}

// Reads START, the first argument; answers whether there was something in it.
fn load(rt: &HostRuntime, table: &mut [u8]) -> bool {
    let mut buf = [0u8; 4096];
    let Some(path) = path_at(rt, 1, &mut buf) else {
        return false;
    };
    let mut file = match rt.open_file(OpenOptions::new().read(true), path) {
        Ok(file) => file,
        Err(e) => {
            fail(rt, path, e);
            return false;
        }
    };
    let got = read_full(&mut file, table);
    if got == 0 {
        complain(rt, "replay: START is empty or cannot be read");
    }
    got > 0
}

// Writes the first bytes of the table to a file and closes it. What the system may tell only when the file is closed is asked for
// before, since std's close tells nothing.
fn leave(mut file: File, table: &[u8], lent: usize) -> io::Result<()>
    requires { (length table.now ≡ 65536) × (lent < 65536) }
{
    file.write_all(&table[..lent])?;
    file.sync_all()
}

// Makes END, argument i, plays the input and writes the table there. It is made before anything is played and never
// written over: an older copy of a table stays as it is. A part of a table is not left: it could be taken for one.
fn play_to(rt: &HostRuntime, input: &mut impl Read, i: usize, table: &mut [u8])
    requires { length table.old ≡ 65536 }
{
    let mut buf = [0u8; 4096];
    let Some(path) = path_at(rt, i, &mut buf) else {
        return;
    };
    let file = match rt.open_file(OpenOptions::new().write(true).create_new(true), path) {
        Ok(file) => file,
        Err(e) => {
            fail(rt, path, e);
            return;
        }
    };
    let lent = play_all(rt, input, table);
    if let Err(e) = leave(file, table, lent) {
        fail(rt, path, e);
        let _ = rt.remove_file(path);
    }
}

fn main(rt: HostRuntime) {
    let mut input = rt.stdin();
    let mut table = [0u8; 65536];
    if has_word(&rt, 3) {
        complain(&rt, "usage: replay [[START] END] < RECORDING");
    } else if has_word(&rt, 2) {
        if load(&rt, &mut table) {
            play_to(&rt, &mut input, 2, &mut table);
        }
    } else if has_word(&rt, 1) {
        play_to(&rt, &mut input, 1, &mut table);
    } else {
        play_all(&rt, &mut input, &mut table);
    }
}
