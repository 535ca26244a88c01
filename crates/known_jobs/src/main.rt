// Document 01's jobs that are run and compared, and A and B. Each is run with buffers that are filled with 9s and, but for the rooms that are to be short, one
// longer than needed. What is returned and all four buffers as left are printed.
#![tactic(auto)]

mod print;

ghost use Rattle.std.specs.Prelude.{◌≤◌};

use print::{print_answer, print_numbers};
use std::io;
use track::run;

const A: [u8; 173] = *b"\
    \x05\0\0\0\x05\0\0\0\x07\0\0\0\x20\0\0\0\
    \x70\0\0\0\x75\0\0\0\xad\0\0\0\0\0\0\0\
    \0\0\0\0\x01\0\0\0\x02\0\0\0\x03\0\0\0\
    \0\0\0\0\x01\0\0\0\x02\0\0\0\x04\0\0\0\
    \0\0\0\0\x01\0\0\0\x03\0\0\0\x04\0\0\0\
    \0\0\0\0\x02\0\0\0\x03\0\0\0\x04\0\0\0\
    \x01\0\0\0\x02\0\0\0\x03\0\0\0\x04\0\0\0\
    \0\0\0\0\0\
    \x04\0\0\0\x01\0\0\0\
    \x04\0\0\0\x01\0\0\0\
    \0\0\0\0\x01\0\0\0\
    \x04\0\0\0\x02\0\0\0\
    \x04\0\0\0\x03\0\0\0\
    \x05\0\0\0\x01\0\0\0\
    \x04\0\0\0\x01\0\0\0";

const B: [u8; 292] = *b"\
    \x07\0\0\0\x0c\0\0\0\x07\0\0\0\x20\0\0\0\
    \xe0\0\0\0\xec\0\0\0\x24\x01\0\0\0\0\0\0\
    \0\0\0\0\x01\0\0\0\x03\0\0\0\x04\0\0\0\
    \0\0\0\0\x01\0\0\0\x03\0\0\0\x06\0\0\0\
    \0\0\0\0\x01\0\0\0\x04\0\0\0\x05\0\0\0\
    \0\0\0\0\x01\0\0\0\x05\0\0\0\x06\0\0\0\
    \0\0\0\0\x02\0\0\0\x03\0\0\0\x04\0\0\0\
    \0\0\0\0\x02\0\0\0\x03\0\0\0\x06\0\0\0\
    \0\0\0\0\x02\0\0\0\x04\0\0\0\x05\0\0\0\
    \0\0\0\0\x02\0\0\0\x05\0\0\0\x06\0\0\0\
    \x01\0\0\0\x02\0\0\0\x03\0\0\0\x04\0\0\0\
    \x01\0\0\0\x02\0\0\0\x03\0\0\0\x06\0\0\0\
    \x01\0\0\0\x02\0\0\0\x04\0\0\0\x05\0\0\0\
    \x01\0\0\0\x02\0\0\0\x05\0\0\0\x06\0\0\0\
    \0\0\0\0\0\0\0\0\0\0\0\0\
    \x08\0\0\0\x01\0\0\0\
    \x0b\0\0\0\x01\0\0\0\
    \x0a\0\0\0\x01\0\0\0\
    \x0b\0\0\0\x01\0\0\0\
    \x09\0\0\0\x01\0\0\0\
    \x08\0\0\0\x02\0\0\0\
    \x0b\0\0\0\x02\0\0\0";

// Code, place, taken and triangles, then the buffers.
fn show<R: Print>(
    rt: &R,
    name: &[u8],
    job: &[u8],
    answers: &mut [u8],
    final_marks: &mut [u8],
    triangles: &mut [u32],
    work: &mut [u32],
) -> io::Result<()> {
    let answer = run(job, answers, final_marks, triangles, work);
    print_answer(rt, name, answer)?;
    print_numbers(rt, b"answers", answers)?;
    print_numbers(rt, b"final marks", final_marks)?;
    print_numbers(rt, b"triangles", triangles)?;
    print_numbers(rt, b"work", work)
}

// Lends so many answers, final marks, triangle words and work words.
fn lend<R: Print>(
    rt: &R,
    name: &[u8],
    job: &[u8],
    answers: usize,
    marks: usize,
    triangles: usize,
    work: usize,
) -> io::Result<()>
    requires { (answers ≤ 8) × (marks ≤ 13) × (triangles ≤ 73) × (work ≤ 63) }
{
    let mut answer_room = [9u8; 8];
    let mut mark_room = [9u8; 13];
    let mut triangle_room = [9u32; 73];
    let mut work_room = [9u32; 63];
    show(
        rt,
        name,
        job,
        &mut answer_room[..answers],
        &mut mark_room[..marks],
        &mut triangle_room[..triangles],
        &mut work_room[..work],
    )
}

fn main(rt: HostRuntime) -> io::Result<()> {
    lend(&rt, b"A", &A, 8, 6, 31, 31)?;
    lend(&rt, b"B", &B, 8, 13, 73, 63)?;
    lend(&rt, b"A, answers one short", &A, 6, 6, 31, 31)?;
    lend(&rt, b"A, final marks one short", &A, 8, 4, 31, 31)?;
    lend(&rt, b"A, triangles one short", &A, 8, 6, 29, 31)?;
    lend(&rt, b"A, work one short", &A, 8, 6, 31, 29)?;
    let under = 31;
    lend(&rt, b"A, 31 bytes", &A[..under], 8, 6, 31, 31)?;
    let cut = 172;
    lend(&rt, b"A, cut by a byte", &A[..cut], 8, 6, 31, 31)?;
    let mut v6 = A;
    v6[0] = 6;
    lend(&rt, b"A, V 6", &v6, 8, 6, 31, 33)?;
    let mut n4 = A;
    n4[4] = 4;
    lend(&rt, b"A, N 4", &n4, 8, 6, 31, 31)?;
    let mut n2049 = A;
    n2049[4] = 1;
    n2049[5] = 8;
    lend(&rt, b"A, N 2049", &n2049, 8, 6, 31, 31)
}
