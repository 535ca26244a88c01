// Rows one by one, and in their order. Codes 5 and 6.
ghost use Rattle.std.specs.Prelude.{◌≡◌, ◌&&◌, ◌||◌, ◌<◌, eqb, ltb};
ghost use Rattle.rules.specs.Below.{lowest};
ghost use Rattle.rules.specs.Table.{rising, ids_below, before};
ghost use Rattle.table.specs.Rows.{table_in, rows_in};
ghost use Rattle.values.specs.Places.{place_of};
ghost use Rattle.rules.specs.Job.{bad_row, not_after};

use crate::{id_at, row_count};

// Four ids rise and are below `ids`. std's `is_sorted` lets equal ids pass, and asks of no bound.
fn four_rise(a: usize, b: usize, c: usize, d: usize, ids: usize) -> bool
    ensures { result ≡ ((ltb a b && ltb b c && ltb c d) && (ltb a ids && ltb b ids && ltb c ids && ltb d ids)) }
{
    ((a < b) & (b < c) & (c < d)) & ((a < ids) & (b < ids) & (c < ids) & (d < ids))
}

fn is_row(rows: &[u8], ids: usize, row: usize) -> bool
    requires { row < rows_in rows.now }
    ensures { result ≡ (rising (table_in rows.now) row && ids_below (table_in rows.now) ids row) }
{
    four_rise(
        id_at(rows, row, 0),
        id_at(rows, row, 1),
        id_at(rows, row, 2),
        id_at(rows, row, 3),
        ids,
    )
}

// The first row whose ids do not rise, or that has an id not below `ids`.
pub(crate) fn bad_row(rows: &[u8], ids: usize) -> Option<usize>
    ensures { place_of result ≡ lowest (rows_in rows.now) (bad_row (table_in rows.now) ids) }
{
    (0..row_count(rows)).find(|&row| !is_row(rows, ids, row))
}

// Four ids stand before four others in the dictionary. `<` of two arrays of ids was tried: with it the largest jobs took over the millisecond that
// they take under in this form.
fn four_before(
    a: usize,
    b: usize,
    c: usize,
    d: usize,
    e: usize,
    f: usize,
    g: usize,
    h: usize,
) -> bool
    ensures { result ≡ (ltb a e || (eqb a e && ltb b f) || (eqb a e && eqb b f && ltb c g) || (eqb a e && eqb b f && eqb c g && ltb d h)) }
{
    (a < e)
        | ((a == e) & (b < f))
        | ((a == e) & (b == f) & (c < g))
        | ((a == e) & (b == f) & (c == g) & (d < h))
}

fn row_before(rows: &[u8], s: usize, r: usize) -> bool
    requires { (s < rows_in rows.now) × (r < rows_in rows.now) }
    ensures { result ≡ before (table_in rows.now) s r }
{
    four_before(
        id_at(rows, s, 0),
        id_at(rows, s, 1),
        id_at(rows, s, 2),
        id_at(rows, s, 3),
        id_at(rows, r, 0),
        id_at(rows, r, 1),
        id_at(rows, r, 2),
        id_at(rows, r, 3),
    )
}

// The first row that is not after the one before it.
pub(crate) fn out_of_order(rows: &[u8]) -> Option<usize>
    ensures { place_of result ≡ lowest (rows_in rows.now) (not_after (table_in rows.now)) }
{
    (1..row_count(rows)).find(|&row| !row_before(rows, row - 1, row))
}
