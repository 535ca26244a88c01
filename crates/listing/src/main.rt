// The listing program: standard input is one job, and its listing is printed. It tells on standard error what went wrong, and then no
// listing stands that is not whole. Its status is 0 whatever happens; `tell` says how the script beside it finds out.
#![tactic(auto)]

use lines::{ROOM, list_job};
use streams::arguments::has_argument;
use streams::failure::fail;
use streams::input::read_input;
use streams::output::{print_whole, tell};

// Of a longer input the first 65,536 bytes are read. No job is as long, so it is refused, and `front_enough` of `lines` says that its front gets the same listing.
// Started with an argument, the program tells when the listing is printed whole.
fn main(rt: HostRuntime) {
    let mut job = [0u8; 65536];
    let count = match read_input(&mut rt.stdin(), &mut job) {
        Ok(count) => count,
        Err(failed) => {
            fail(&rt, b"listing: the job could not be read", failed.error);
            return;
        }
    };
    let mut out = [0u8; ROOM];
    let length = list_job(&job[..count], &mut out);
    let printed = print_whole(
        &rt,
        &out[..length],
        b"listing: the listing could not be printed",
    );
    if printed & has_argument(&rt, 1) {
        tell(&rt, b"whole\n");
    }
}
