// Sides of triangles: rows and their fourth corners, codes 14 and 15, and which way a triangle's rising ids pass.
ghost use Rattle.std.specs.Prelude.{◌≡◌, false, ◌<◌};
ghost use Rattle.rules.specs.Below.{lowest};
ghost use Rattle.rules.specs.Table.{outer};
ghost use Rattle.rules.specs.Points.{point_in, same_sign};
ghost use Rattle.rules.specs.Outward.{far_id, flat, folded, right_way};
ghost use Rattle.values.specs.Places.{place_of};
ghost use Rattle.table.specs.Rows.{table_in, rows_in};
ghost use Rattle.volume.specs.Bound.{Exact, grid_most, product_most};
ghost use Rattle.volume.specs.Meant.{meant, Near};
ghost use Rattle.points.specs.Sides.{side_at, FaceBelow, id_sum};
ghost use Rattle.points.specs.Folded.{side_above, folded_above};

use crate::placed::Placed;
use table::faces::Face;
use volume::{Point, is_zero, point_at, same_sign, volume};

impl Placed<'_> {
    fn point_at(self, id: usize) -> Point
        requires { id < self.ids }
        ensures is { meant result ≡ point_in self.entry.points.now id }
        ensures near { Near grid_most result }
    {
        point_at(self.points, id)
    }

    // The product at a triangle and a fourth id.
    fn side_of(self, face: Face, id: usize) -> i64
        requires { FaceBelow face self.ids × (id < self.ids) }
        ensures { Exact product_most result (side_at (point_in self.entry.points.now) face id) }
    {
        volume(
            self.point_at(face.a),
            self.point_at(face.b),
            self.point_at(face.c),
            self.point_at(id),
        )
    }

    // An outer row: ids rise, so that id 0 is the first or none.
    fn is_outer(self, row: usize) -> bool
        requires { row < rows_in self.table.rows.now }
        ensures { result ≡ outer (table_in self.entry.table.rows.now) row }
    {
        self.table.id_at(row, 0) == 0
    }

    fn id_sum(self, row: usize) -> usize
        requires { row < rows_in self.table.rows.now }
        ensures { result ≡ id_sum (table_in self.entry.table.rows.now) row }
    {
        let table = self.table;
        table.id_at(row, 0) + table.id_at(row, 1) + table.id_at(row, 2) + table.id_at(row, 3)
    }

    // The fourth corner of the row across. The rows share three ids, so that their sums differ as their fourth ids do.
    fn far_id(self, row: usize, corner: usize) -> usize
        requires { (row < rows_in self.table.rows.now) × (corner < 4) }
        ensures { result ≡ far_id (table_in self.entry.table.rows.now) row corner }
    {
        self.id_sum(self.table.across(row, corner)) + self.table.id_at(row, corner)
            - self.id_sum(row)
    }

    // ---- 14

    fn is_flat(self, row: usize) -> bool
        requires { row < rows_in self.table.rows.now }
        ensures { result ≡ flat (table_in self.entry.table.rows.now) (point_in self.entry.points.now) row }
    {
        if self.is_outer(row) {
            return false;
        }
        let first = Face {
            a: self.table.id_at(row, 0),
            b: self.table.id_at(row, 1),
            c: self.table.id_at(row, 2),
        };
        is_zero(self.side_of(first, self.table.id_at(row, 3)))
    }

    // The first finite row of zero volume.
    pub(crate) fn flat_row(self) -> Option<usize>
        ensures { place_of result ≡ lowest (rows_in self.entry.table.rows.now) (flat (table_in self.entry.table.rows.now) (point_in self.entry.points.now)) }
    {
        (0..self.table.row_count()).find(|&row| self.is_flat(row))
    }

    // ---- 15

    // Two ids are on the same side of a triangle, whose points are read once for both.
    fn same_side_of(self, face: Face, own: usize, far: usize) -> bool
        requires { FaceBelow face self.ids × (own < self.ids) × (far < self.ids) }
        ensures { result ≡ same_sign (side_at (point_in self.entry.points.now) face own) (side_at (point_in self.entry.points.now) face far) }
    {
        let a = self.point_at(face.a);
        let b = self.point_at(face.b);
        let c = self.point_at(face.c);
        same_sign(
            volume(a, b, c, self.point_at(own)),
            volume(a, b, c, self.point_at(far)),
        )
    }

    // A finite row and a higher neighbour are on the same side of their triangle. Outer rows come first, so that the neighbour is finite too.
    fn side_above(self, row: usize, corner: usize) -> bool
        requires { (row < rows_in self.table.rows.now) × (corner < 4) × (outer (table_in self.table.rows.now) row ≡ false) }
        ensures { result ≡ side_above (table_in self.entry.table.rows.now) (point_in self.entry.points.now) row corner }
    {
        if self.table.across(row, corner) <= row {
            return false;
        }
        let face = self.table.face(row, corner);
        let far = self.far_id(row, corner);
        self.same_side_of(face, self.table.id_at(row, corner), far)
    }

    // A finite row and a higher neighbour are on the same side of a triangle. A lower neighbour has asked.
    fn folded_above(self, row: usize) -> bool
        requires { row < rows_in self.table.rows.now }
        ensures { result ≡ folded_above (table_in self.entry.table.rows.now) (point_in self.entry.points.now) row }
    {
        if self.is_outer(row) {
            return false;
        }
        (0..4).any(|corner| self.side_above(row, corner))
    }

    // The first finite row with a finite neighbour on the same side of their triangle.
    pub(crate) fn folded_row(self) -> Option<usize>
        ensures { place_of result ≡ lowest (rows_in self.entry.table.rows.now) (folded (table_in self.entry.table.rows.now) (point_in self.entry.points.now)) }
    {
        (0..self.table.row_count()).find(|&row| self.folded_above(row))
    }

    // ---- outward

    // The rising ids of the triangle of an inside row pass outward.
    pub fn right_way(self, row: usize, corner: usize) -> bool
        requires { (row < rows_in self.table.rows.now) × (corner < 4) }
        ensures { result ≡ right_way (table_in self.entry.table.rows.now) (point_in self.entry.points.now) row corner }
    {
        let face = self.table.face(row, corner);
        let outer = self.is_outer(row);
        if outer {
            let far = self.far_id(row, corner);
            return 0 < self.side_of(face, far);
        }
        self.side_of(face, self.table.id_at(row, corner)) < 0
    }
}
