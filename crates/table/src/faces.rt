// The faces of a row: its triangles, edges and vertices, each as three ids.
ghost use Rattle.std.specs.Prelude.{◌≡◌, ◌+◌, ◌*◌, ◌/◌, ◌<◌};
ghost use Rattle.table.specs.Rows.{table_in, rows_in};
ghost use Rattle.table.specs.Faces.{corner_of, face_of, same_ids, key_of, first_of, each_of};
ghost use Rattle.table.specs.Places.{face_at};

use crate::id_at;

// Three corners for each face: the triangles by left-out corner, the edges, the vertices. Edges and vertices repeat their last corner.
static CORNERS: [u8; 42] = [
    1, 2, 3, 0, 2, 3, 0, 1, 3, 0, 1, 2, 0, 1, 1, 0, 2, 2, 0, 3, 3, 1, 2, 2, 1, 3, 3, 2, 3, 3, 0, 0,
    0, 1, 1, 1, 2, 2, 2, 3, 3, 3,
];

#[derive(Clone, Copy, PartialEq, Eq)]
pub struct Face {
    pub a: usize,
    pub b: usize,
    pub c: usize,
}

impl Face {
    // A face of a row.
    pub fn of(rows: &[u8], row: usize, face: usize) -> Face
        requires { (row < rows_in rows.now) × (face < 14) }
        ensures { result ≡ face_of (table_in rows.now) row face }
    {
        Face {
            a: id_at(rows, row, corner_at(face, 0)),
            b: id_at(rows, row, corner_at(face, 1)),
            c: id_at(rows, row, corner_at(face, 2)),
        }
    }

    // The vertex at a corner of a row: its id three times, read once.
    fn vertex(rows: &[u8], row: usize, corner: usize) -> Face
        requires { (row < rows_in rows.now) × (corner < 4) }
        ensures { result ≡ face_of (table_in rows.now) row (10 + corner) }
    {
        let id = id_at(rows, row, corner);
        Face {
            a: id,
            b: id,
            c: id,
        }
    }

    // Equal ids, as `==` says too: that stops at the first pair that differs, and along a chain the branches cost more than the rest of the compare.
    pub(crate) fn same_ids(self, other: Face) -> bool
        ensures { result ≡ same_ids self other }
    {
        (self.a == other.a) & (self.b == other.b) & (self.c == other.c)
    }

    // The key by which faces are threaded into chains.
    pub(crate) fn key(self) -> usize
        ensures { result ≡ key_of self }
    {
        (self.a % 8192 + 89 * (self.b % 8192) + 7919 * (self.c % 8192)) % 8192
    }
}

// The faces of a row by kind, as the three rules ask of them.
#[derive(Clone, Copy, PartialEq, Eq)]
pub(crate) enum FaceKind {
    Triangles,
    Edges,
    Vertices,
}

// Where the edges begin in the table of corners, and how many a row has.
pub const EDGES_AT: usize = 4;

pub const EDGES: usize = 6;

impl FaceKind {
    // How many a row has.
    pub(crate) fn each(self) -> usize
        ensures { result ≡ each_of self }
    {
        match self {
            FaceKind::Edges => EDGES,
            FaceKind::Triangles | FaceKind::Vertices => 4,
        }
    }

    // The row of a place. Divisions by constants are quick.
    pub(crate) fn row_of(self, place: usize) -> usize
        ensures { result ≡ place / each_of self }
    {
        match self {
            FaceKind::Edges => place / EDGES,
            FaceKind::Triangles | FaceKind::Vertices => place / 4,
        }
    }

    // The face at a place, of those of all rows one after the other. Each kind has its own constants, with which it is quick.
    pub(crate) fn face_at(self, rows: &[u8], place: usize) -> Face
        requires { place < each_of self * rows_in rows.now }
        ensures { result ≡ face_at (table_in rows.now) (first_of self) (each_of self) place }
    {
        match self {
            FaceKind::Triangles => Face::of(rows, place / 4, place % 4),
            FaceKind::Edges => Face::of(rows, place / EDGES, EDGES_AT + place % EDGES),
            FaceKind::Vertices => Face::vertex(rows, place / 4, place % 4),
        }
    }
}

// Corner k of a face.
pub fn corner_at(face: usize, k: usize) -> usize
    requires { (face < 14) × (k < 3) }
    ensures { result ≡ corner_of face k }
{
    CORNERS[3 * face + k] as usize
}
