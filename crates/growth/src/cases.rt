// The five cases, by the number of a row's triangles on the skin.
ghost use Rattle.std.specs.Prelude.{◌≡◌, cond, ◌<◌};
ghost use Rattle.rules.specs.Below.{count, pick};
ghost use Rattle.rules.specs.Cases.{other_side, free, case_answer};
ghost use Rattle.rules.specs.Proposals.{inside_in};
ghost use Rattle.table.specs.Rows.{table_in, rows_in};
ghost use Rattle.skin.specs.Between.{between};
ghost use Rattle.growth.specs.Around.{Counted};
ghost use Rattle.growth.specs.Declined.{number_of, answer_of};

use crate::closed::Closed;
use crate::declined::Declined;
use crate::edges::{edge_corner, opposite_corner};
use crate::free::{vertex_free, vertices_free};
use crate::growing::Growing;
use round::Edge;
use values::choose;

// How many of a row's triangles are on the skin, and the left-out corner of the last of them.
#[derive(Clone, Copy)]
struct LeftOut {
    count: usize,
    last: usize,
}

// The row passes if what its case asks for is free.
fn unless_free(free: bool, case: Declined) -> Result<(), Declined>
    ensures { answer_of result ≡ cond free 0 (number_of case) }
{
    if free { Ok(()) } else { Err(case) }
}

impl Closed<'_> {
    fn left_out(self, row: usize) -> LeftOut
        requires { row < rows_in self.table.rows.now }
        ensures { Counted (between self.entry.table.neighbours.now self.entry.marks.now row) 4 result.count result.last }
    {
        let mut count = 0;
        let mut last = 0;
        for corner in 0..4 {
            let hit = self.on_skin(row, corner);
            count += usize::from(hit);
            last = choose(hit, corner, last);
        }
        LeftOut { count, last }
    }

    // No row of the other side holds the edge that is in neither of two skin triangles.
    fn edge_free(self, adding: bool, row: usize) -> bool
        requires { (row < rows_in self.table.rows.now) × (count 4 (between self.table.neighbours.now self.marks.now row) ≡ 2) }
        ensures { result ≡ free (table_in self.entry.table.rows.now) (other_side adding (inside_in self.entry.marks.now)) row
            (pick 4 (between self.entry.table.neighbours.now self.entry.marks.now row)) }
    {
        let shared = self.shared_edge(row);
        let a = self.table.id_at(row, opposite_corner(shared, 0));
        let b = self.table.id_at(row, opposite_corner(shared, 1));
        let last = self.table.across(row, edge_corner(shared, 0));
        self.about_free(adding, Edge { a, b }, row, last)
    }
}

impl Growing<'_> {
    // Whether the row passes the five cases, or what a row of the other side holds.
    pub(crate) fn local_test(self, adding: bool, row: usize) -> Result<(), Declined>
        requires { row < rows_in self.rows.now }
        ensures { answer_of result ≡ case_answer (table_in self.entry.rows.now) (inside_in self.entry.marks.now) adding row }
    {
        let closed = self.closed();
        let skin = closed.left_out(row);
        let f = skin.count;
        match f {
            0 => unless_free(
                vertices_free(self.rows, self.work, self.ids, adding, row),
                Declined::Vertices,
            ),
            1 => unless_free(
                vertex_free(self.rows, self.work, self.ids, adding, row, skin.last),
                Declined::Opposite,
            ),
            2 => unless_free(closed.edge_free(adding, row), Declined::Edge),
            _ => Ok(()),
        }
    }
}
