// A line of a name and numbers.
use std::fmt::Display;
use std::io;
use track::refusal::{Grown, Refusal};

pub(crate) fn print_numbers<R: Print, N: Display>(
    rt: &R,
    name: &[u8],
    numbers: &[N],
) -> io::Result<()> {
    rt.write_all(name)?;
    for number in numbers {
        print!(rt; " {number}")?;
    }
    rt.write_all(b"\n")
}

// Code, place, taken and triangles.
pub(crate) fn print_answer<R: Print>(
    rt: &R,
    name: &[u8],
    answer: Result<Grown, Refusal>,
) -> io::Result<()> {
    let numbers = match answer {
        Ok(grown) => [0, 0, grown.taken, grown.triangles],
        Err(refusal) => {
            let (code, place) = refusal.code_and_place();
            [code, place, 0, 0]
        }
    };
    print_numbers(rt, name, &numbers)
}
