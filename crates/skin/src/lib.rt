// The two sides: the marks of rows, and the triangles between them.
#![tactic(auto)]

ghost use Rattle.std.specs.Prelude.{◌≡◌, ◌+◌, ◌*◌, ◌<◌, length, get_or};
ghost use Rattle.rules.specs.Proposals.{inside_in};
ghost use Rattle.skin.specs.Between.{between};

use table::across_at;

// A row is marked inside. Every mark is read here.
pub fn is_inside(marks: &[u8], row: usize) -> bool
    requires { row < length marks.now }
    ensures { result ≡ inside_in marks.now row }
{
    marks[row] == 1
}

// The triangle of a row that leaves out a corner is between the two sides: on a closed table, on the skin. It promises this of any list of
// neighbours, and so takes no checked table.
pub fn is_between(neighbours: &[u32], marks: &[u8], row: usize, corner: usize) -> bool
    requires { (4 * row + corner < length neighbours.now) × (row < length marks.now) × (get_or neighbours.now (4 * row + corner) 0 < length marks.now) }
    ensures { result ≡ between neighbours.now marks.now row corner }
{
    let here = is_inside(marks, row);
    let there = is_inside(marks, across_at(neighbours, row, corner));
    here != there
}
