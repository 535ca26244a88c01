// A vertex of a closed table with marks, and that each vertex below `low` has one ring.
ghost use Rattle.std.proofs.Props.{props};
ghost use Rattle.rules.specs.Proposals.{inside_in};
ghost use Rattle.table.specs.Rows.{table_in};
ghost use Rattle.rings.specs.Follow.{RingsBelow};

use crate::marked::Marked;

#[derive(Clone, Copy)]
pub(crate) struct Around<'a> {
    pub(crate) marked: Marked<'a>,
    pub(crate) low: usize,
    pub(crate) vertex: usize,
    ghost below: { RingsBelow (table_in marked.table.rows.now) (inside_in marked.marks.now) marked.ids low } by { Prim.hlevel props },
}
