// Rings: whether the far edges of a skin vertex form one ring.
#![tactic(auto)]

mod around;
pub mod marked;
mod ring;
mod tallies;

ghost use Rattle.std.specs.Prelude.{◌≡◌, ◌*◌};
ghost use Rattle.rules.specs.Below.{lowest};
ghost use Rattle.rules.specs.Skin.{one_ring, ringless};
ghost use Rattle.rules.specs.Proposals.{inside_in};
ghost use Rattle.values.specs.Places.{place_of};
ghost use Rattle.table.specs.Rows.{table_in, rows_in};
ghost use Rattle.rings.specs.Tallies.{Tallies};

use marked::Marked;
use ring::is_ring;
use tallies::{Tally, tally_all, tally_one};

// The far edges of a vertex form one ring.
pub fn one_ring(marked: Marked, vertex: usize) -> bool
    ensures { result ≡ one_ring (table_in marked.entry.table.rows.now) (inside_in marked.entry.marks.now) marked.entry.ids vertex }
{
    is_ring(marked, 0, vertex, tally_one(marked, vertex))
}

// The lowest vertex without one ring, by the tallies of all. A vertex that is not on the skin has no far edges, and so one ring.
fn first_ringless(marked: Marked, tallies: &[Tally; 1024]) -> Option<usize>
    requires { Tallies marked.table.rows.now marked.marks.now (4 * rows_in marked.table.rows.now) tallies.now }
    ensures { place_of result ≡ lowest marked.entry.ids (ringless (table_in marked.entry.table.rows.now) (inside_in marked.entry.marks.now) marked.entry.ids) }
{
    (0..marked.ids).find(|&vertex| !is_ring(marked, vertex, vertex, tallies[vertex]))
}

// The lowest skin vertex without one ring.
pub fn ringless_vertex(marked: Marked) -> Option<usize>
    ensures { place_of result ≡ lowest marked.entry.ids (ringless (table_in marked.entry.table.rows.now) (inside_in marked.entry.marks.now) marked.entry.ids) }
{
    let mut tallies = [Tally { count: 0, place: 0 }; 1024];
    tally_all(marked, &mut tallies);
    first_ringless(marked, &tallies)
}
