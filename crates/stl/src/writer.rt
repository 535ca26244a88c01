// The facet writer: a list of units, nine for each facet, becomes a file.
ghost use Rattle.std.specs.Prelude.{◌≡◌, ◌+◌, ◌*◌, ◌≤◌, ◌<◌, length};
ghost use Rattle.std.proofs.lemmas.List.Edits.{sets};
ghost use Rattle.rules.specs.Below.{lowest};
ghost use Rattle.rules.specs.Points.{in_range};
ghost use Rattle.rules.specs.Job.{written};
ghost use Rattle.rules.specs.Stl.{facet_at, facet_bytes, file_length, facets_of, file_of, most_facets, write_facets};
ghost use Rattle.values.specs.Places.{place_of};
ghost use Rattle.stl.specs.Corners.{corner_in};
ghost use Rattle.stl.specs.Writing.{AllIn, stray_in, ill_counted, told, writing};

use crate::corner::{Corner, corner_of};
use crate::facet::{put_facet, put_front};

#[derive(Clone, Copy)]
pub enum Refusal {
    // Not whole facets, or over 4,096 of them.
    Facets,
    // A number outside -1023 to 1023, and its index.
    Number(usize),
    // Short room.
    Room,
}

// The corner that three units make, from a place of the list on.
fn corner_in(units: &[i16], from: usize) -> Corner
    requires { from + 3 ≤ length units.now }
    ensures { result ≡ corner_in units.now from }
{
    corner_of(units[from], units[from + 1], units[from + 2])
}

fn put_facet_of(file: &mut [u8], units: &[i16], f: usize)
    requires { (facet_at f + 50 ≤ length file.old) × (9 * f + 9 ≤ length units.now) × (f < most_facets) × AllIn units.now }
    ensures { file.new ≡ sets file.old (facet_at f) (facet_bytes units.now (9 * f)) }
{
    let a = corner_in(units, 9 * f);
    let b = corner_in(units, 9 * f + 3);
    let c = corner_in(units, 9 * f + 6);
    put_facet(file, 84 + 50 * f, a, b, c);
}

fn put_file(file: &mut [u8], units: &[i16])
    requires { (file_length (facets_of units.now) ≤ length file.old) × (facets_of units.now ≤ most_facets) × AllIn units.now }
    ensures { file.new ≡ written (file_of units.now) file.old }
{
    let facets = units.len() / 9;
    put_front(file, facets as u32);
    for f in 0..facets {
        put_facet_of(file, units, f);
    }
}

// By `contains` of a range it would be no plainer.
fn is_in_range(units: i16) -> bool
    ensures { result ≡ in_range units }
{
    (-1023 <= units) & (units <= 1023)
}

// The first number out of range.
fn first_stray(units: &[i16]) -> Option<usize>
    ensures { place_of result ≡ lowest (length units.now) (stray_in units.now) }
{
    (0..units.len()).find(|&k| !is_in_range(units[k]))
}

fn is_ill_counted(units: &[i16]) -> bool
    ensures { result ≡ ill_counted units.now }
{
    units.len() % 9 != 0 || units.len() / 9 > 4096
}

// What is answered to the list and so much room.
fn judge(units: &[i16], room: usize) -> Result<(), Refusal>
    ensures { result ≡ writing units.now room }
{
    if is_ill_counted(units) {
        return Err(Refusal::Facets);
    }
    if let Some(k) = first_stray(units) {
        return Err(Refusal::Number(k));
    }
    if room < 84 + 50 * (units.len() / 9) {
        return Err(Refusal::Room);
    }
    Ok(())
}

// Writes the list to the front of the file.
pub fn write_facets(units: &[i16], file: &mut [u8]) -> Result<(), Refusal>
    ensures { told result file.new ≡ write_facets units.now file.old }
{
    judge(units, file.len())?;
    put_file(file, units);
    Ok(())
}
