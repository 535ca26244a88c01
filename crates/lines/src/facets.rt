// Lists of units as text, nine to a line.
ghost use Rattle.std.specs.Prelude.{◌≡◌, ◌+◌, ◌*◌, ◌≤◌, ◌<◌, nat_abs, length};
ghost use Rattle.rules.specs.Job.{written};
ghost use Rattle.lines.specs.Facets.{whole, parting, unit_text, facets_text};
ghost use Rattle.lines.specs.Page.{HasRoom, Puts, TakesFew};

use crate::text::Page;

// Bytes enough for 4,096 facets: nine numbers each, of six characters at most and one behind.
pub const FACETS_ROOM: usize = 258048;

// How far a number is from zero.
fn size_of(units: i16) -> usize
    ensures { (result ≡ nat_abs units) × (result ≤ 32768) }
{
    units.unsigned_abs() as usize
}

fn put_whole(units: i16, page: &mut Page<'_>)
    requires { HasRoom page.old 6 }
    ensures { Puts (whole units) page.old page.new × TakesFew 6 page.old page.new }
{
    let size = size_of(units);
    if units < 0 {
        page.put_byte(b'-');
    }
    page.put_number(size);
}

// What stands behind number k: after each ninth the line ends. A byte of the text, and no kind.
fn parting_behind(k: usize) -> u8
    ensures { result ≡ parting k }
{
    if k % 9 == 8 { b'\n' } else { b' ' }
}

fn put_unit(units: &[i16], k: usize, page: &mut Page<'_>)
    requires { (k < length units.now) × HasRoom page.old 7 }
    ensures { Puts (unit_text units.now k) page.old page.new × TakesFew 7 page.old page.new }
{
    put_whole(units[k], page);
    page.put_byte(parting_behind(k));
}

// Writes the text of a list of units to the front of a buffer, and tells how long it is. Of whole facets each has its line. It promises this of
// any buffer that is lent, and so takes no page.
pub fn list_facets(units: &[i16], out: &mut [u8]) -> usize
    requires { 7 * length units.now ≤ length out.old }
    ensures { (result ≡ length (facets_text units.now)) × (out.new ≡ written (facets_text units.now) out.old) }
{
    let mut page = Page { out, at: 0 };
    page.put_each(units.len(), 7, |k, page| put_unit(units, k, page));
    page.at
}
