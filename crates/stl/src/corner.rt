// Corners: three f32 each.
ghost use Rattle.std.specs.Prelude.{◌≡◌, ◌+◌, ◌≤◌, length};
ghost use Rattle.std.proofs.lemmas.List.Edits.{sets};
ghost use Rattle.stl.specs.Corners.{corner, Numbers, corner_bytes, corner_at};

use grid::{float_of, metres_of};
use words::{put_word, word_at};

#[derive(Clone, Copy)]
pub struct Corner {
    pub x: f32,
    pub y: f32,
    pub z: f32,
}

// The corner at a grid point.
pub fn corner_of(x: i16, y: i16, z: i16) -> Corner
    ensures { result ≡ corner x y z }
{
    Corner {
        x: metres_of(x),
        y: metres_of(y),
        z: metres_of(z),
    }
}

pub(crate) fn put_corner(file: &mut [u8], place: usize, c: Corner)
    requires { (place + 12 ≤ length file.old) × Numbers c }
    ensures { file.new ≡ sets file.old place (corner_bytes c) }
{
    put_word(file, place, f32::to_bits(c.x));
    put_word(file, place + 4, f32::to_bits(c.y));
    put_word(file, place + 8, f32::to_bits(c.z));
}

pub(crate) fn corner_at(file: &[u8], place: usize) -> Corner
    requires { place + 12 ≤ length file.now }
    ensures { result ≡ corner_at file.now place }
{
    Corner {
        x: float_of(word_at(file, place)),
        y: float_of(word_at(file, place + 4)),
        z: float_of(word_at(file, place + 8)),
    }
}
