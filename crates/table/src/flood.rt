// The rows that hold an edge or a vertex, reached from one of them through the neighbour list.
ghost use Rattle.std.specs.Prelude.{◌≡◌, true, ℕ, ◌+◌, ◌*◌, ◌≤◌, ◌<◌, eqb, length, get_or};
ghost use Rattle.rules.specs.Below.{count};
ghost use Rattle.table.specs.Rows.{table_in, rows_in};
ghost use Rattle.rules.specs.Reading.Moves.{both, leaves};
ghost use Rattle.table.specs.Holders.{both_joined, FloodingRows, Spreading};

use crate::checked::Table;
use floods::Flood;
use values::choose;

// One leaves row x through a corner whose id is neither a nor b.
fn leaves(table: Table, a: usize, b: usize, x: usize, corner: usize) -> bool
    requires { (x < rows_in table.rows.now) × (corner < 4) }
    ensures { result ≡ leaves (table_in table.entry.rows.now) a b x corner }
{
    let id = table.id_at(x, corner);
    (id != a) & (id != b)
}

// From row x, which stands at place i of the queue, through one corner: the row across is put into the queue if it is fresh. Where one does
// not leave, the start stands for it, which is not fresh: so there is one branch.
fn leave_by(
    table: Table,
    a: usize,
    b: usize,
    start: usize,
    k: u16,
    flood: &mut Flood,
    i: usize,
    x: usize,
    corner: usize,
)
    requires { (corner < 4) × Spreading table.rows.now a b start k i x corner flood.old.stamp flood.old.queue flood.old.tail }
    ensures { Spreading table.entry.rows.now a b start k i x (corner + 1) flood.new.stamp flood.new.queue flood.new.tail }
{
    let across = table.across(x, corner);
    let y = choose(leaves(table, a, b, x, corner), across, start);
    flood.visit(flood.stamp[y] != k, y, k);
}

// From the row at place i of the queue through all its corners.
fn spread(table: Table, a: usize, b: usize, start: usize, k: u16, flood: &mut Flood, i: usize)
    requires { (start < rows_in table.rows.now) × (i < flood.old.tail)
        × FloodingRows table.rows.now a b start k flood.old.stamp flood.old.queue (4 * i) flood.old.tail }
    ensures { FloodingRows table.entry.rows.now a b start k flood.new.stamp flood.new.queue (4 * (i + 1)) flood.new.tail }
{
    let x = flood.queue[i] as usize;
    for corner in 0..4 {
        leave_by(table, a, b, start, k, flood, i, x, corner);
    }
}

// How many rows are reached: as many as hold a and b, exactly if these are joined. The stamp k must be fresh.
pub(crate) fn reached_from(
    table: Table,
    a: usize,
    b: usize,
    start: usize,
    k: u16,
    flood: &mut Flood,
) -> usize
    requires { (start < rows_in table.rows.now) × (both (table_in table.rows.now) a b start ≡ true)
        × ((y : ℕ) → y < rows_in table.rows.now → get_or flood.old.stamp y 0 < k) }
    ensures { (eqb result (count (rows_in table.entry.rows.now) (both (table_in table.entry.rows.now) a b)) ≡ both_joined (table_in table.entry.rows.now) a b)
        × ((y : ℕ) → y < rows_in table.entry.rows.now → get_or flood.new.stamp y 0 ≤ k) }
{
    flood.begin(start, k);
    let mut i = 0;
    // A queue that grows while it is read has no range to go over.
    while i < flood.tail {
        spread(table, a, b, start, k, flood, i);
        i += 1;
    }
    flood.tail
}
