// What is said: a text on standard output, or the line of a refusal to the script beside the program.
ghost use Rattle.std.specs.Prelude.{true, ◌+◌, ◌*◌, ◌≤◌, length};
ghost use Rattle.lines.specs.Listing.{line, word_refused};
ghost use Rattle.workshop.specs.Said.{Says, size_in, refuses};

use lines::refused_line;
use std::rt::{Env, Files, HostRuntime};
use streams::arguments::has_argument;
use streams::output::{print_whole, tell};

// So many bytes at the front of a buffer: a text to print, or the line of a refusal.
pub(crate) type Said = Result<usize, usize>;

// Code, place, and the bits of a number off the grid, into the buffer that goes on to `refused_line`.
pub(crate) fn refused(numbers: &[usize], out: &mut [u8]) -> Said
    requires { 8 + 21 * length numbers.now ≤ length out.old }
    ensures { Says (line word_refused numbers.now) true out.old (size_in result) (refuses result) out.new }
{
    Err(refused_line(numbers, out))
}

// Started with a second argument, the program tells a line on descriptor 3.
pub(crate) fn tell_script<R: Env + Files>(rt: &R, line: &[u8]) {
    if has_argument(rt, 2) {
        tell(rt, line);
    }
}

// Prints the text, and tells `whole` when all of it is printed.
pub(crate) fn say(rt: &HostRuntime, text: &[u8], failure: &[u8]) {
    if print_whole(rt, text, failure) {
        tell_script(rt, b"whole\n");
    }
}
