// The ring of a vertex, followed through the neighbour list.
ghost use Rattle.std.specs.Prelude.{◌≡◌, ◌≢◌, ◌*◌};
ghost use Rattle.rules.specs.Below.{count};
ghost use Rattle.rules.specs.Skin.{one_ring};
ghost use Rattle.rules.specs.Proposals.{inside_in};
ghost use Rattle.table.specs.Rows.{table_in, rows_in};
ghost use Rattle.round.specs.Edge.{Near, Turned};
ghost use Rattle.rings.specs.Far.{first_end, shown_at};
ghost use Rattle.rings.specs.Tallies.{Tallied};
ghost use Rattle.rings.specs.Follow.{SkinEdge, RingsBelow, two_far, LandedAt};

use crate::around::Around;
use crate::marked::Marked;
use crate::tallies::Tally;
use round::{Edge, Stop, onward, turn};
use table::faces::Face;
use values::choose;

// A skin triangle at the vertex that a turn comes to: the rows on its two sides and its third id, the end ahead.
#[derive(Clone, Copy)]
pub(crate) struct Landing {
    inner: usize,
    outer: usize,
    end: usize,
}

impl Around<'_> {
    // The edge of the vertex and an end.
    fn edge(self, end: usize) -> Edge
        ensures { (result.a ≡ self.entry.vertex) × (result.b ≡ end) }
    {
        Edge {
            a: self.vertex,
            b: end,
        }
    }

    // From row `first` to row `second` and on about the edge of the vertex and an end, as `round::turn` says.
    fn turn(self, end: usize, first: usize, second: usize) -> Stop
        requires { (self.vertex ≢ end) × Near (table_in self.marked.table.rows.now) self.vertex end second first }
        ensures { Turned (table_in self.entry.marked.table.rows.now) (inside_in self.entry.marked.marks.now) self.entry.vertex end first second result.at result.next }
    {
        turn(
            self.marked.table,
            self.marked.marks,
            self.edge(end),
            first,
            second,
        )
    }

    // The end lies on two far edges of the vertex: about their common edge one comes through the outside rows to the skin triangle that one
    // comes to through the inside rows. For an end below `low` the ring of that end has told it.
    fn is_two(self, from: Landing, within: Stop) -> bool
        requires { SkinEdge (table_in self.marked.table.rows.now) (inside_in self.marked.marks.now) self.vertex from.end from.inner from.outer
            × Turned (table_in self.marked.table.rows.now) (inside_in self.marked.marks.now) self.vertex from.end from.outer from.inner within.at within.next }
        ensures { result ≡ two_far (table_in self.entry.marked.table.rows.now) (inside_in self.entry.marked.marks.now) self.entry.marked.ids self.entry.vertex from.end }
    {
        if from.end < self.low {
            return true;
        }
        let without = self.turn(from.end, from.inner, from.outer);
        (without.next == within.at) & (without.at == within.next)
    }

    // From a skin triangle about the edge of the vertex and its end to the next one, through the inside rows; none if the edge is in a further
    // one.
    fn turn_at(self, from: Landing) -> Option<Landing>
        requires { SkinEdge (table_in self.marked.table.rows.now) (inside_in self.marked.marks.now) self.vertex from.end from.inner from.outer }
        ensures { LandedAt (table_in self.entry.marked.table.rows.now) (inside_in self.entry.marked.marks.now) self.entry.marked.ids self.entry.vertex from.end from.inner from.outer result }
    {
        let to = self.turn(from.end, from.outer, from.inner);
        if !self.is_two(from, to) {
            return None;
        }
        let way = onward(self.marked.table, self.edge(from.end), to.next, to.at);
        Some(Landing {
            inner: to.at,
            outer: to.next,
            end: way.id,
        })
    }

    // From a skin triangle of the vertex round to its first end. The far edges form one ring exactly if each end lies on two of them and as
    // many ends are turned at as the vertex has skin triangles. No range gives the steps: the walk ends where the first end is ahead again.
    fn follow(self, start: Landing, total: usize) -> bool
        requires { SkinEdge (table_in self.marked.table.rows.now) (inside_in self.marked.marks.now) self.vertex start.end start.inner start.outer
            × (total ≡ count (4 * rows_in self.marked.table.rows.now) (shown_at (table_in self.marked.table.rows.now) (inside_in self.marked.marks.now) self.vertex)) }
        ensures { result ≡ one_ring (table_in self.entry.marked.table.rows.now) (inside_in self.entry.marked.marks.now) self.entry.marked.ids self.entry.vertex }
    {
        let mut at = start;
        let mut met = 0;
        while (met == 0) | (at.end != start.end) {
            let Some(next) = self.turn_at(at) else {
                return false;
            };
            at = next;
            met += 1;
        }
        met == total
    }
}

// One of the two ids of a triangle beside the vertex: a choice, and no order.
fn first_end(f: Face, vertex: usize) -> usize
    ensures { result ≡ first_end f vertex }
{
    choose(f.a == vertex, f.b, f.a)
}

// The far edges of a vertex form one ring. The number of its skin triangles and the last of their places are known, and that the vertices below
// `low` have one, which is asked here alone.
pub(crate) fn is_ring(marked: Marked, low: usize, vertex: usize, tally: Tally) -> bool
    requires { RingsBelow (table_in marked.table.rows.now) (inside_in marked.marks.now) marked.ids low × Tallied marked.table.rows.now marked.marks.now vertex (4 * rows_in marked.table.rows.now) tally.count tally.place }
    ensures { result ≡ one_ring (table_in marked.entry.table.rows.now) (inside_in marked.entry.marks.now) marked.entry.ids vertex }
{
    if tally.count == 0 {
        return true;
    }
    let row = tally.place as usize / 4;
    let corner = tally.place as usize % 4;
    let start = Landing {
        inner: row,
        outer: marked.table.across(row, corner),
        end: first_end(marked.table.face(row, corner), vertex),
    };
    let around = Around {
        marked,
        low,
        vertex,
    };
    around.follow(start, tally.count as usize)
}
