// The workshop's program: standard input is a job, and the STL file of its skin is printed, or it is such a file, and its facets are. It
// tells on standard error what failed, and then nothing stands on standard output that is not whole; a refusal goes to the script beside
// it alone, so that it has nothing there either.
#![tactic(auto)]

mod read;
mod said;
mod write;

use read::print_facets;
use std::rt::Env;
use write::print_skin;

// The first argument says what is asked for: `read` or `write`.
fn is_read<R: Env>(rt: &R) -> bool {
    let mut word = [0u8; 8];
    let _ = rt.arg(1, &mut word);
    word[0] == b'r'
}

fn main(rt: HostRuntime) {
    if is_read(&rt) {
        print_facets(&rt);
    } else {
        print_skin(&rt);
    }
}
