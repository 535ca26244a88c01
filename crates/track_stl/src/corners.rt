// Triangles of ids, written as facets: the corners are the points of the ids.
ghost use Rattle.std.specs.Prelude.{◌≡◌, ◌++◌, ◌+◌, ◌*◌, ◌≤◌, ◌<◌, length};
ghost use Rattle.std.proofs.lemmas.List.Edits.{sets};
ghost use Rattle.rules.specs.Below.{gather};
ghost use Rattle.rules.specs.Words.{bytes_of};
ghost use Rattle.rules.specs.Points.{point_in};
ghost use Rattle.rules.specs.Job.{written};
ghost use Rattle.rules.specs.Stl.{most_facets, file_length, facet_at, header};
ghost use Rattle.track_stl.specs.Corners.{point_corner, id_corner, triangle_facet, Below};

use points::placed::Placed;
use stl::corner::{Corner, corner_of};
use stl::facet::{put_facet, put_front};
use volume::point_at;

// The corner at the point of an id.
fn corner_at(placed: Placed, id: usize) -> Corner
    requires { id < placed.ids }
    ensures { result ≡ point_corner (point_in placed.entry.points.now id) }
{
    let p = point_at(placed.points, id);
    corner_of(p.x as i16, p.y as i16, p.z as i16)
}

// The corner at the point of an id of the triangles.
fn corner_in(placed: Placed, triangles: &[u32], place: usize) -> Corner
    requires { (place < length triangles.now) × Below triangles.now (place + 1) placed.ids }
    ensures { result ≡ id_corner (point_in placed.entry.points.now) triangles.now place }
{
    corner_at(placed, triangles[place] as usize)
}

// Facet k: the triangle's three corners.
fn put_triangle(placed: Placed, triangles: &[u32], k: usize, file: &mut [u8])
    requires { (3 * k + 3 ≤ length triangles.now) × Below triangles.now (3 * k + 3) placed.ids × (k < most_facets) × (facet_at k + 50 ≤ length file.old) }
    ensures { file.new ≡ sets file.old (facet_at k) (triangle_facet (point_in placed.entry.points.now) triangles.now k) }
{
    let a = corner_in(placed, triangles, 3 * k);
    let b = corner_in(placed, triangles, 3 * k + 1);
    let c = corner_in(placed, triangles, 3 * k + 2);
    put_facet(file, 84 + 50 * k, a, b, c);
}

// The file of so many triangles.
pub(crate) fn put_triangles(placed: Placed, triangles: &[u32], count: usize, file: &mut [u8])
    requires { (3 * count ≤ length triangles.now) × Below triangles.now (3 * count) placed.ids × (count ≤ most_facets) × (file_length count ≤ length file.old) }
    ensures { file.new ≡ written (header ++ (bytes_of 4 count ++ gather count (triangle_facet (point_in placed.entry.points.now) triangles.now))) file.old }
{
    put_front(file, count as u32);
    for k in 0..count {
        put_triangle(placed, triangles, k, file);
    }
}
