// Standard output: a whole text, or none and a message; and the line on descriptor 3.
ghost use Rattle.std.specs.Prelude.{◌≡◌, ◌≢◌, ◌≤◌, length, IfOk, IfErr};

use crate::failure::fail;
use std::fs::{OpenFile, OpenOptions};
use std::io::{ErrorKind, Read, Write};
use std::os::fd::AsFd;
use std::rt::{Files, HostRuntime};
use std::{fs, io};

// Standard output by its name, for what std can do with a file alone, and where the system says how far it is written.
const OUTPUT: &str = "/proc/self/fd/1";

const OUTPUT_INFO: &str = "/proc/self/fdinfo/1";

// Where `tell` writes.
const TOLD: &str = "/proc/self/fd/3";

// A text of which not all went out: how many bytes did, and why no more.
#[derive(Clone, Copy)]
struct Cut {
    printed: usize,
    error: io::Error,
}

// One write of a part of the text, which is not empty: none of its bytes went out where it failed.
fn print_some<W: Write>(out: &mut W, part: &[u8]) -> io::Result<usize>
    ensures in_part { IfOk result (λ count. count ≤ length part.now) }
    ensures failed { IfOk result (λ count. count ≢ 0) }
{
    match out.write(part) {
        Ok(0) => Err(io::Error::from(ErrorKind::WriteZero)),
        written => written,
    }
}

// Prints the text, and answers how many bytes it has.
fn print<W: Write>(out: &mut W, text: &[u8]) -> Result<usize, Cut>
    ensures in_text { IfErr result (λ cut. cut.printed ≤ length text.now) }
    ensures whole { IfOk result (λ count. count ≡ length text.now) }
{
    let mut at = 0;
    // It goes on by so many bytes as went out, and not by one; std's `write_all` does not tell how many did before a write failed.
    while at < text.len() {
        let count = print_some(out, &text[at..]).map_err(|error| Cut { printed: at, error })?;
        at += count;
    }
    Ok(at)
}

// Whether nothing keeps standard output from being written: a closed one has no copy.
fn check_open(rt: &HostRuntime) -> io::Result<()> {
    let _ = rt.stdout().as_fd().try_clone_to_owned()?;
    Ok(())
}

// Waits until the disk has what was printed, where standard output is a file: some disks tell only then that they are full.
fn settle<R: Files>(rt: &R) -> io::Result<()> {
    let Ok(out) = OpenOptions::new().write(true).open(rt, OUTPUT) else {
        return Ok(());
    };
    match out.sync_all() {
        Err(error) if error.kind() != ErrorKind::InvalidInput => Err(error),
        _ => Ok(()),
    }
}

// Whether standard output is a file, whose bytes can be waited for and be cut off.
fn is_file<R: Files>(rt: &R) -> bool {
    match fs::metadata(rt, OUTPUT) {
        Ok(found) => found.is_file(),
        Err(_) => false,
    }
}

// The number at the front of a text, behind blanks, or none.
fn leading_number(text: &str) -> Option<u64> {
    let number = text.trim_start();
    let end = number
        .find(|c: char| !c.is_ascii_digit())
        .unwrap_or(number.len());
    number[..end].parse().ok()
}

// How far standard output is written: the first line of what the system says of it is `pos:` and the place.
fn place<R: Files>(rt: &R) -> Option<u64> {
    let mut said = [0u8; 64];
    let mut info = fs::open(rt, OUTPUT_INFO).ok()?;
    let size = info.read(&mut said).ok()?;
    let text = str::from_utf8(&said[..size]).ok()?;
    leading_number(text.strip_prefix("pos:")?)
}

// Cuts off what was printed last, where standard output is a file that ends with it. Elsewhere, as in a pipe, it is gone.
fn take_back<R: Files>(rt: &R, printed: u64) -> io::Result<()> {
    let out = OpenOptions::new().write(true).open(rt, OUTPUT)?;
    let end = out.metadata()?.len();
    match end.checked_sub(printed) {
        Some(start) if place(rt) == Some(end) => out.set_len(start),
        _ => Ok(()),
    }
}

// Prints the text, and waits for the disk where standard output is a file.
fn print_settled(rt: &HostRuntime, text: &[u8]) -> Result<(), Cut> {
    check_open(rt).map_err(|error| Cut { printed: 0, error })?;
    let printed = print(&mut rt.stdout(), text)?;
    if is_file(rt) {
        settle(rt).map_err(|error| Cut { printed, error })?;
    }
    Ok(())
}

// Prints the text and answers true, or says the failure, with the reason, and takes back what was printed of it.
pub fn print_whole(rt: &HostRuntime, text: &[u8], failure: &[u8]) -> bool {
    let Err(cut) = print_settled(rt, text) else {
        return true;
    };
    fail(rt, failure, cut.error);
    if is_file(rt) {
        let _ = take_back(rt, cut.printed as u64);
    }
    false
}

fn tell_whole<R: Files>(rt: &R, line: &[u8]) -> io::Result<()> {
    let mut told = OpenOptions::new().append(true).open(rt, TOLD)?;
    told.write_all(line)
}

// Whoever started the program waits for this line on descriptor 3.
pub fn tell<R: Files>(rt: &R, line: &[u8]) {
    let _ = tell_whole(rt, line);
}
