// The front of a file and its facets, as they are written.
ghost use Rattle.std.specs.Prelude.{◌≡◌, ◌++◌, ◌+◌, ◌≤◌, length, replicate};
ghost use Rattle.std.proofs.lemmas.List.Edits.{sets};
ghost use Rattle.rules.specs.Words.{bytes_of};
ghost use Rattle.rules.specs.Job.{written};
ghost use Rattle.rules.specs.Stl.{header};
ghost use Rattle.stl.specs.Corners.{Numbers, corners_bytes, facet_of};

use crate::corner::{Corner, put_corner};
use crate::header::put_header;
use words::put_word;

// The header and the number of facets.
pub fn put_front(file: &mut [u8], facets: u32)
    requires { 84 ≤ length file.old }
    ensures { file.new ≡ written (header ++ bytes_of 4 facets) file.old }
{
    put_header(file);
    put_word(file, 80, facets);
}

fn put_zeros(file: &mut [u8], place: usize, count: usize)
    requires { place + count ≤ length file.old }
    ensures { file.new ≡ sets file.old place (replicate count 0) }
{
    file[place..place + count].fill(0);
}

// Three corners go as three parameters: what `put_facet` takes and asks of them may not change.
fn put_corners(file: &mut [u8], place: usize, a: Corner, b: Corner, c: Corner)
    requires { (place + 36 ≤ length file.old) × Numbers a × Numbers b × Numbers c }
    ensures { file.new ≡ sets file.old place (corners_bytes a b c) }
{
    put_corner(file, place, a);
    put_corner(file, place + 12, b);
    put_corner(file, place + 24, c);
}

// A normal of zeros, three corners, and a u16 of zero.
pub fn put_facet(file: &mut [u8], place: usize, a: Corner, b: Corner, c: Corner)
    requires { (place + 50 ≤ length file.old) × Numbers a × Numbers b × Numbers c }
    ensures { file.new ≡ sets file.old place (facet_of a b c) }
{
    put_zeros(file, place, 12);
    put_corners(file, place + 12, a, b, c);
    put_zeros(file, place + 48, 2);
}
