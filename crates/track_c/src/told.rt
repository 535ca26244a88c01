// What is told of each call, in words of 32 bits.
ghost use Rattle.std.specs.Prelude.{◌≡◌, [], ◌∷◌, ◌<◌};
ghost use Rattle.std.proofs.lemmas.List.Edits.{sets};
ghost use Rattle.track_c.specs.Told.{outcome_in, RunFits, run_words, WriteFits, write_words, read_words};

use stl::{reader, writer};
use track::refusal::Grown;

// A number by value: one that is cast where it is read would ask that it fits.
fn narrow(x: usize) -> u32
    requires { x < 4294967296 }
    ensures { result ≡ x }
{
    x as u32
}

// Code, place, taken and triangles: of a refusal code and place are given, and both counts are 0.
pub(crate) fn tell_run(answer: Result<Grown, (usize, usize)>, outcome: &mut [u32; 4])
    requires { RunFits (outcome_in answer) }
    ensures { outcome.new ≡ sets outcome.old 0 (run_words (outcome_in answer)) }
{
    match answer {
        Ok(grown) => *outcome = [0, 0, narrow(grown.taken), narrow(grown.triangles)],
        Err((code, place)) => *outcome = [narrow(code), narrow(place), 0, 0],
    }
}

// Code and place.
pub(crate) fn tell_write(answer: Result<(), writer::Refusal>, outcome: &mut [u32; 2])
    requires { WriteFits answer }
    ensures { outcome.new ≡ sets outcome.old 0 (write_words answer) }
{
    // The codes stand here alone, where a must-fail edit gets one of them wrong: with a method of `Refusal` they would stand twice.
    match answer {
        Ok(()) => *outcome = [0, 0],
        Err(writer::Refusal::Facets) => *outcome = [1, 0],
        Err(writer::Refusal::Number(k)) => *outcome = [2, narrow(k)],
        Err(writer::Refusal::Room) => *outcome = [3, 0],
    }
}

// Code, place, facets, and the bits of the number off the grid.
pub(crate) fn tell_read(answer: Result<u32, reader::Refusal>, outcome: &mut [u32; 4])
    ensures { outcome.new ≡ sets outcome.old 0 (read_words answer) }
{
    // The codes stand here as in `workshop`, whose match stays: with a method of `Refusal` they would stand twice too, and the bits need a match besides.
    match answer {
        Ok(facets) => *outcome = [0, 0, facets, 0],
        Err(reader::Refusal::Length) => *outcome = [1, 0, 0, 0],
        Err(reader::Refusal::Header) => *outcome = [2, 0, 0, 0],
        Err(reader::Refusal::Room) => *outcome = [3, 0, 0, 0],
        Err(reader::Refusal::NotZero(facet)) => *outcome = [4, facet, 0, 0],
        Err(reader::Refusal::Off(off)) => *outcome = [5, off.facet, 0, off.bits],
    }
}
