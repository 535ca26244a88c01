// What is asked of a checked table.
ghost use Rattle.std.specs.Prelude.{◌≡◌, ◌<◌};
ghost use Rattle.rules.specs.Table.{holds, across};
ghost use Rattle.table.specs.Faces.{face_of};
ghost use Rattle.table.specs.Rows.{id_in, rows_in, table_in};

use crate::checked::Table;
use crate::faces::Face;
use crate::{across_at, holds, id_at, row_count};

impl Table<'_> {
    pub fn row_count(self) -> usize
        ensures { result ≡ rows_in self.entry.rows.now }
    {
        row_count(self.rows)
    }

    // The id of a row at a corner.
    pub fn id_at(self, row: usize, corner: usize) -> usize
        requires { (row < rows_in self.rows.now) × (corner < 4) }
        ensures { result ≡ id_in self.entry.rows.now row corner }
    {
        id_at(self.rows, row, corner)
    }

    // The row across the triangle of a row that leaves out a corner.
    pub fn across(self, row: usize, corner: usize) -> usize
        requires { (row < rows_in self.rows.now) × (corner < 4) }
        ensures { result ≡ across (table_in self.entry.rows.now) row corner }
    {
        across_at(self.neighbours, row, corner)
    }

    // An id is one of a row's.
    pub fn holds(self, row: usize, id: usize) -> bool
        requires { row < rows_in self.rows.now }
        ensures { result ≡ holds (table_in self.entry.rows.now) row id }
    {
        holds(self.rows, row, id)
    }

    // A face of a row.
    pub fn face(self, row: usize, face: usize) -> Face
        requires { (row < rows_in self.rows.now) × (face < 14) }
        ensures { result ≡ face_of (table_in self.entry.rows.now) row face }
    {
        Face::of(self.rows, row, face)
    }
}
