// The reader: a file becomes a list of units, nine for each facet.
ghost use Rattle.std.specs.Prelude.{◌≡◌, true, false, ◌+◌, ◌*◌, ◌≤◌, ◌<◌, length};
ghost use Rattle.rules.specs.Job.{written};
ghost use Rattle.rules.specs.Stl.{most_facets, file_length, facet_at, count_in, ill_sized, blank, bits_at, first_fault, unit_at, units_in, read_file};
ghost use Rattle.grid.specs.Numbers.{read};
ghost use Rattle.stl.specs.Faults.{corner_fault, facet_fault};
ghost use Rattle.stl.specs.declared.reader.Refusal.TheVariants.{Off};
ghost use Rattle.stl.specs.Reading.{told, searched, reading};

use crate::corner::corner_at;
use crate::header::is_headed;
use grid::{OffGrid, float_of, number_of};
use words::word_at;

#[derive(Clone, Copy)]
pub enum Refusal {
    // Under 84 bytes, over 4,096 facets, or another length than they ask for.
    Length,
    Header,
    // Room for under nine numbers a facet.
    Room,
    // A facet whose normal or u16 is not zero.
    NotZero(u32),
    Off(OffGrid),
}

impl From<OffGrid> for Refusal {
    ghost from_gives = { λ off refusal. refusal ≡ Off off };

    fn from(off: OffGrid) -> Refusal {
        Refusal::Off(off)
    }
}

// The normal and the u16 are zero. Here and below a facet goes as its file and its number, as in `rules`: a struct of both would be no plainer.
fn is_blank(file: &[u8], facet: usize) -> bool
    requires { (facet_at facet + 50 ≤ length file.now) × (facet < most_facets) }
    ensures { result ≡ blank file.now facet }
{
    let place = 84 + 50 * facet;
    (word_at(file, place) == 0)
        & (word_at(file, place + 4) == 0)
        & (word_at(file, place + 8) == 0)
        & (file[place + 48] == 0)
        & (file[place + 49] == 0)
}

// The three numbers of a corner of a facet: the first that is off the grid is told.
fn check_corner(file: &[u8], facet: u32, corner: usize) -> Result<(), OffGrid>
    requires { (facet_at facet + 50 ≤ length file.now) × (facet < most_facets) × (corner < 3) }
    ensures { result ≡ corner_fault file.now facet corner }
{
    let place = 96 + 50 * (facet as usize) + 12 * corner;
    let c = corner_at(file, place);
    let x = number_of(c.x, word_at(file, place), facet);
    let y = number_of(c.y, word_at(file, place + 4), facet);
    let z = number_of(c.z, word_at(file, place + 8), facet);
    x.and(y).and(z)?;
    Ok(())
}

fn check_facet(file: &[u8], facet: u32) -> Result<(), Refusal>
    requires { (facet_at facet + 50 ≤ length file.now) × (facet < most_facets) }
    ensures { result ≡ facet_fault file.now facet }
{
    if !is_blank(file, facet as usize) {
        return Err(Refusal::NotZero(facet));
    }
    for corner in 0..3 {
        check_corner(file, facet, corner)?;
    }
    Ok(())
}

// Looks through the facets for the first at fault.
fn look_through(file: &[u8], count: u32) -> Result<u32, Refusal>
    requires { (file_length count ≤ length file.now) × (count ≤ most_facets) × (count ≡ count_in file.now) }
    ensures { result ≡ searched file.now (first_fault file.now) }
{
    for facet in 0..count {
        check_facet(file, facet)?;
    }
    Ok(count)
}

fn is_ill_sized(file: &[u8]) -> bool
    ensures { result ≡ ill_sized file.now }
{
    if file.len() < 84 {
        return true;
    }
    let count = word_at(file, 80);
    count > 4096 || file.len() != 84 + 50 * (count as usize)
}

// What is answered to the file and room for so many numbers.
fn judge(file: &[u8], room: usize) -> Result<u32, Refusal>
    ensures { result ≡ reading file.now room }
{
    if is_ill_sized(file) {
        return Err(Refusal::Length);
    }
    if !is_headed(file) {
        return Err(Refusal::Header);
    }
    let count = word_at(file, 80);
    if room < 9 * (count as usize) {
        return Err(Refusal::Room);
    }
    look_through(file, count)
}

// The units of number k of a facet.
fn number_at(file: &[u8], facet: u32, k: usize) -> Result<i16, OffGrid>
    requires { (facet_at facet + 50 ≤ length file.now) × (facet < most_facets) × (k < 9) }
    ensures { result ≡ read (bits_at file.now facet k) facet }
{
    let bits = word_at(file, 96 + 50 * (facet as usize) + 4 * k);
    number_of(float_of(bits), bits, facet)
}

// Number i of the file.
fn unit_at(file: &[u8], i: usize) -> i16
    requires { (i < 9 * most_facets) × (file_length (count_in file.now) ≤ length file.now) × (i < 9 * count_in file.now) }
    ensures { result ≡ unit_at file.now i }
{
    number_at(file, (i / 9) as u32, i % 9).unwrap_or(0)
}

fn put_units(file: &[u8], units: &mut [i16], count: usize)
    requires { (file_length count ≤ length file.now) × (count ≤ most_facets) × (count ≡ count_in file.now) × (9 * count ≤ length units.old) }
    ensures { units.new ≡ written (units_in file.now) units.old }
{
    for i in 0..9 * count {
        units[i] = unit_at(file, i);
    }
}

// Reads the file to the front of the units, and says how many facets it has.
pub fn read_file(file: &[u8], units: &mut [i16]) -> Result<u32, Refusal>
    ensures { told result units.new ≡ read_file file.now units.old }
{
    let count = judge(file, units.len())?;
    put_units(file, units, count as usize);
    Ok(count)
}
