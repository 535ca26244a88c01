// What is listed of a job that was run: a line for the whole, one for each proposal and one for each triangle.
ghost use Rattle.std.specs.Prelude.{◌≡◌, ◌+◌, ◌*◌, ◌≤◌, ◌<◌, length, get_or};
ghost use Rattle.rules.specs.Job.{most_rows, most_proposals};
ghost use Rattle.lines.specs.Listing.{answer_line, answer_lines, triangle_line, triangle_lines, done_text};
ghost use Rattle.lines.specs.Put.{Put};
ghost use Rattle.lines.specs.Page.{HasRoom, Puts, TakesFew};

use crate::text::Page;

// The line of a proposal: its number and its answer.
fn put_answer(answers: &[u8], k: usize, page: &mut Page<'_>)
    requires { (k < most_proposals) × (k < length answers.now) × HasRoom page.old 12 }
    ensures { Puts (answer_line answers.now k) page.old page.new × TakesFew 12 page.old page.new }
{
    let numbers = [k, answers[k] as usize];
    page.put_line(b"p", &numbers);
}

fn put_answers(answers: &[u8], count: usize, page: &mut Page<'_>)
    requires { (count ≤ most_proposals) × (count ≤ length answers.now) × HasRoom page.old (12 * count) }
    ensures { Puts (answer_lines answers.now count) page.old page.new × TakesFew (12 * count) page.old page.new }
{
    page.put_each(count, 12, |k, page| put_answer(answers, k, page));
}

fn id_at(triangles: &[u32], place: usize) -> usize
    requires { place < length triangles.now }
    ensures { (result ≡ get_or triangles.now place 0) × (result < 4294967296) }
{
    triangles[place] as usize
}

// The line of a triangle: its three ids.
fn put_triangle(triangles: &[u32], k: usize, page: &mut Page<'_>)
    requires { (3 * k + 3 ≤ length triangles.now) × HasRoom page.old 35 }
    ensures { Puts (triangle_line triangles.now k) page.old page.new × TakesFew 35 page.old page.new }
{
    let a = id_at(triangles, 3 * k);
    let b = id_at(triangles, 3 * k + 1);
    let c = id_at(triangles, 3 * k + 2);
    let ids = [a, b, c];
    page.put_line(b"t", &ids);
}

fn put_triangles(triangles: &[u32], count: usize, page: &mut Page<'_>)
    requires { (3 * count ≤ length triangles.now) × HasRoom page.old (35 * count) }
    ensures { Puts (triangle_lines triangles.now count) page.old page.new × TakesFew (35 * count) page.old page.new }
{
    page.put_each(count, 35, |k, page| put_triangle(triangles, k, page));
}

// The page begins here, over the buffer that was lent.
pub(crate) fn put_done(
    proposals: usize,
    taken: usize,
    count: usize,
    answers: &[u8],
    triangles: &[u32],
    out: &mut [u8],
) -> usize
    requires { (proposals ≤ most_proposals) × (count ≤ 2 * most_rows) × (proposals ≤ length answers.now) × (3 * count ≤ length triangles.now) × (163840 ≤ length out.old) }
    ensures { Put (done_text proposals taken count answers.now triangles.now) out.old 0 out.new result × (result ≤ 163840) }
{
    let numbers = [proposals, taken, count];
    let mut page = Page { out, at: 0 };
    page.put_line(b"done", &numbers);
    put_answers(answers, proposals, &mut page);
    put_triangles(triangles, count, &mut page);
    page.at
}
