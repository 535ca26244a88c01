// The edge that two skin triangles of a row share, and the edge opposite it.
ghost use Rattle.std.specs.Prelude.{◌≡◌, [], ◌∷◌, ◌<◌};
ghost use Rattle.rules.specs.Below.{count, pick};
ghost use Rattle.table.specs.Rows.{rows_in};
ghost use Rattle.skin.specs.Between.{between};
ghost use Rattle.growth.specs.Edges.{edge_corner, opposite_edge, opposite_corner, in_both};

use crate::closed::Closed;
use table::faces::{EDGES_AT, corner_at};

pub(crate) fn edge_corner(edge: usize, k: usize) -> usize
    requires { (edge < 6) × (k < 2) }
    ensures { result ≡ edge_corner edge k }
{
    corner_at(EDGES_AT + edge, k)
}

// The edge opposite each, by position: a table says it plainer than a rule.
static OPPOSITES: [u8; 6] = [5, 4, 3, 2, 1, 0];

fn opposite(edge: usize) -> usize
    requires { edge < 6 }
    ensures { result ≡ opposite_edge edge }
{
    OPPOSITES[edge] as usize
}

pub(crate) fn opposite_corner(edge: usize, k: usize) -> usize
    requires { (edge < 6) × (k < 2) }
    ensures { result ≡ opposite_corner edge k }
{
    edge_corner(opposite(edge), k)
}

impl Closed<'_> {
    // An edge is in each skin triangle of the row: none leaves out one of its corners.
    fn in_both(self, row: usize, edge: usize) -> bool
        requires { (row < rows_in self.table.rows.now) × (edge < 6) }
        ensures { result ≡ in_both (between self.entry.table.neighbours.now self.entry.marks.now row) edge }
    {
        !(self.on_skin(row, edge_corner(edge, 0)) | self.on_skin(row, edge_corner(edge, 1)))
    }

    // The position of the edge that two skin triangles share. The edge opposite it is in neither.
    pub(crate) fn shared_edge(self, row: usize) -> usize
        requires { (row < rows_in self.table.rows.now) × (count 4 (between self.table.neighbours.now self.marks.now row) ≡ 2) }
        ensures { (result < 6) × (pick 4 (between self.entry.table.neighbours.now self.entry.marks.now row) ≡ opposite_corner result 0 ∷ opposite_corner result 1 ∷ []) }
    {
        (0..6).find(|&edge| self.in_both(row, edge)).unwrap()
    }
}
