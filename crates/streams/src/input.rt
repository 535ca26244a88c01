// Standard input, read to its end or until the room is full.
ghost use Rattle.std.specs.Prelude.{◌≡◌, ◌+◌, ◌≤◌, min, length, take, Ok, Err, IfOk, IfErr};

use std::io;
use std::io::Read;

// A read that failed: how many bytes had come before it, and why no more.
#[derive(Clone, Copy)]
pub struct Failed {
    pub came: usize,
    pub error: io::Error,
}

// What the answer to one read into a part of the room says: an error that it failed, zero is the end.
fn answered(got: io::Result<usize>, part: &[u8]) -> io::Result<usize>
    ensures in_part { IfOk result (λ count. count ≤ length part.now) }
    ensures prefix { IfOk result (λ count. count ≡ length (take count part.now)) }
    ensures count { IfOk got (λ n. result ≡ Ok (min n (length part.now))) }
    ensures failed { IfErr got (λ e. result ≡ Err e) }
{
    Ok(got?.min(part.len()))
}

// One read into the room, from byte `at` on.
fn read_from<R: Read>(source: &mut R, room: &mut [u8], at: usize) -> io::Result<usize>
    requires { at ≤ length room.old }
    ensures same_room { length room.new ≡ length room.old }
    ensures in_room { IfOk result (λ count. at + count ≤ length room.new) }
{
    let part = &mut room[at..];
    let got = source.read(part);
    answered(got, part)
}

// How many bytes came, or that a read failed: an error of the disk is not the end of the input.
pub fn read_input<R: Read>(source: &mut R, room: &mut [u8]) -> Result<usize, Failed>
    ensures in_room { IfOk result (λ count. count ≤ length room.new) }
    ensures prefix { IfOk result (λ count. count ≡ length (take count room.new)) }
    ensures came_in_room { IfErr result (λ failed. failed.came ≤ length room.new) }
    ensures came_prefix { IfErr result (λ failed. failed.came ≡ length (take failed.came room.new)) }
{
    let mut at = 0;
    // It goes on by so many bytes as came, and not by one, so no range counts it; std's `read_to_end` wants a `Vec`, and here is no heap.
    while at < room.len() {
        let count = read_from(source, room, at).map_err(|error| Failed { came: at, error })?;
        if count == 0 {
            return Ok(at);
        }
        at += count;
    }
    Ok(at)
}
