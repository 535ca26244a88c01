// Edge rule and vertex rule. Codes 8 and 9.
ghost use Rattle.std.specs.Prelude.{◌≡◌, true, ℕ, ◌+◌, ◌*◌, ◌<◌};
ghost use Rattle.rules.specs.Below.{lowest};
ghost use Rattle.table.specs.Rows.{table_in, rows_in};
ghost use Rattle.table.specs.Places.{face_at, Chained};
ghost use Rattle.table.specs.Faces.{first_of, each_of};
ghost use Rattle.table.specs.Holders.{Joint, ids_joined, unjoined, Scratch};
ghost use Rattle.values.specs.Places.{place_of};

use crate::chains::Chains;
use crate::checked::Table;
use crate::faces::FaceKind;
use crate::flood::reached_from;
use floods::Flood;

// The rows that hold the face at a place are joined. Each face is looked at once, at its first place: the earlier ones are joined.
fn face_joined(
    table: Table,
    kind: FaceKind,
    chains: &Chains,
    flood: &mut Flood,
    place: usize,
) -> bool
    requires { Joint (first_of kind) (each_of kind) × Chained (table_in table.rows.now) (first_of kind) (each_of kind) chains.now.head chains.now.next
        × Scratch (rows_in table.rows.now) place flood.old.stamp × (place < each_of kind * rows_in table.rows.now)
        × ((q : ℕ) → q < place → ids_joined (table_in table.rows.now) (face_at (table_in table.rows.now) (first_of kind) (each_of kind) q) ≡ true) }
    ensures { (result ≡ ids_joined (table_in table.entry.rows.now) (face_at (table_in table.entry.rows.now) (first_of kind) (each_of kind) place))
        × Scratch (rows_in table.entry.rows.now) (place + 1) flood.new.stamp }
{
    if !chains.first_like(table.rows, kind, place) {
        return true;
    }
    let face = kind.face_at(table.rows, place);
    let start = kind.row_of(place);
    let reached = reached_from(table, face.a, face.b, start, (place + 1) as u16, flood);
    reached == chains.like_onward(table.rows, kind, place)
}

// The flood goes on from place to place, so that no search by a test of the place alone serves.
fn broken_by(table: Table, kind: FaceKind, chains: &Chains, flood: &mut Flood) -> Option<usize>
    requires { Joint (first_of kind) (each_of kind) × Chained (table_in table.rows.now) (first_of kind) (each_of kind) chains.now.head chains.now.next
        × Scratch (rows_in table.rows.now) 0 flood.old.stamp }
    ensures { place_of result ≡ lowest (rows_in table.entry.rows.now) (unjoined (table_in table.entry.rows.now) (first_of kind) (each_of kind)) }
{
    for place in 0..kind.each() * table.row_count() {
        if !face_joined(table, kind, chains, flood, place) {
            return Some(kind.row_of(place));
        }
    }
    None
}

// The first row with an edge, or with a vertex, whose rows are not joined.
pub(crate) fn broken_face(table: Table, kind: FaceKind, chains: &mut Chains) -> Option<usize>
    requires { Joint (first_of kind) (each_of kind) }
    ensures { place_of result ≡ lowest (rows_in table.entry.rows.now) (unjoined (table_in table.entry.rows.now) (first_of kind) (each_of kind)) }
{
    chains.thread(table.rows, kind);
    let mut flood = Flood::new();
    broken_by(table, kind, chains, &mut flood)
}
