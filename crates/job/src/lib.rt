// The header of a job: counts, limits and offsets. Codes 1 to 4.
#![tactic(auto)]

ghost use Rattle.std.specs.Prelude.{◌≡◌, ◌+◌, ◌*◌, ◌≤◌, ◌<◌, length};
ghost use Rattle.rules.specs.First.{first_match};
ghost use Rattle.rules.specs.Job.{track, header_word, most_ids, most_rows, most_proposals, within_limits, laid_out, rows_at, marks_at, proposals_at, points_at, has_points, asks_outward, point_bytes, whole_length, work_room, list_room, short_rooms, layout_tests};
ghost use Rattle.job.specs.Reading.{meant, header, verdict_of, header_in};

use words::word_at;

// V, N, P and word 7.
#[derive(Clone, Copy)]
pub struct Header {
    pub ids: usize,
    pub rows: usize,
    pub proposals: usize,
    // A number, and no enum: the methods promise what they do of every word 7, so what may not change keeps it.
    pub mode: usize,
}

// The first of the refusals 1 to 3 that a job meets.
#[derive(Clone, Copy)]
pub enum Refused {
    // Under 32 bytes.
    Short,
    // V, N or P outside its limits.
    Limits,
    // A word 3 to 7 differs from the table of the header, or word 6 from the length lent.
    Layout,
}

impl Header {
    pub const LEAST_IDS: usize = 5;

    pub const MOST_IDS: usize = 1024;

    pub const LEAST_ROWS: usize = 5;

    pub const MOST_ROWS: usize = 2048;

    pub const LEAST_PROPOSALS: usize = 0;

    pub const MOST_PROPOSALS: usize = 1024;

    fn within_limits(self) -> bool
        ensures { result ≡ within_limits track (meant self) }
    {
        (Self::LEAST_IDS..=Self::MOST_IDS).contains(&self.ids)
            & (Self::LEAST_ROWS..=Self::MOST_ROWS).contains(&self.rows)
            & (Self::LEAST_PROPOSALS..=Self::MOST_PROPOSALS).contains(&self.proposals)
    }

    // Where the rows stand.
    pub fn rows_at(self) -> usize
        ensures { result ≡ rows_at }
    {
        32
    }

    pub fn marks_at(self) -> usize
        requires { self.rows ≤ most_rows }
        ensures { result ≡ marks_at track (meant self) }
    {
        self.rows_at() + 16 * self.rows
    }

    pub fn proposals_at(self) -> usize
        requires { self.rows ≤ most_rows }
        ensures { result ≡ proposals_at track (meant self) }
    {
        self.marks_at() + self.rows
    }

    // Where the proposals end, and the points begin where there are any.
    pub fn points_at(self) -> usize
        requires { (self.rows ≤ most_rows) × (self.proposals ≤ most_proposals) }
        ensures { result ≡ points_at track (meant self) }
    {
        self.proposals_at() + 8 * self.proposals
    }

    // V points stand behind the proposals.
    pub fn has_points(self) -> bool
        ensures { result ≡ has_points track (meant self) }
    {
        (self.mode == 1) | (self.mode == 3)
    }

    // The skin is to be listed outward; else the ids of each triangle rise.
    pub fn asks_outward(self) -> bool
        ensures { result ≡ asks_outward track (meant self) }
    {
        self.mode == 1
    }

    fn point_bytes(self) -> usize
        requires { self.ids ≤ most_ids }
        ensures { result ≡ point_bytes track (meant self) }
    {
        if self.has_points() {
            return 6 * self.ids;
        }
        0
    }

    pub fn whole_length(self) -> usize
        requires { (self.ids ≤ most_ids) × (self.rows ≤ most_rows) × (self.proposals ≤ most_proposals) }
        ensures { result ≡ whole_length track (meant self) }
    {
        self.points_at() + self.point_bytes()
    }

    // Work words: a neighbour for each corner, and two tallies for each id.
    pub fn work_room(self) -> usize
        requires { (self.ids ≤ most_ids) × (self.rows ≤ most_rows) }
        ensures { result ≡ work_room track (meant self) }
    {
        4 * self.rows + 2 * self.ids
    }

    // Triangle words: at most two triangles a row, three ids each.
    pub fn list_room(self) -> usize
        requires { self.rows ≤ most_rows }
        ensures { result ≡ list_room track (meant self) }
    {
        6 * self.rows
    }
}

// Word i of the header.
fn header_word(job: &[u8], i: usize) -> usize
    requires { (i < 8) × (rows_at ≤ length job.now) }
    ensures { result ≡ header_word job.now i }
{
    word_at(job, 4 * i) as usize
}

// V, N, P and the mode as words 0, 1, 2 and 7 have them.
fn header_of(job: &[u8]) -> Header
    requires { rows_at ≤ length job.now }
    ensures { result ≡ header job.now }
{
    Header {
        ids: header_word(job, 0),
        rows: header_word(job, 1),
        proposals: header_word(job, 2),
        mode: header_word(job, 7),
    }
}

fn laid_out(h: Header, job: &[u8]) -> bool
    requires { (rows_at ≤ length job.now) × (h.ids ≤ most_ids) × (h.rows ≤ most_rows) × (h.proposals ≤ most_proposals) }
    ensures { result ≡ laid_out track (meant h) job.now }
{
    (header_word(job, 3) == h.rows_at())
        & (header_word(job, 4) == h.marks_at())
        & (header_word(job, 5) == h.proposals_at())
        & (header_word(job, 6) == h.whole_length())
        & ((h.mode == 0) | h.has_points())
        & (header_word(job, 6) == job.len())
}

// The header, or the first of the refusals 1 to 3.
pub fn read(job: &[u8]) -> Result<Header, Refused>
    ensures { (verdict_of result ≡ first_match 1 (layout_tests track job.now)) × (header_in result (header job.now) ≡ header job.now) }
{
    if job.len() < 32 {
        return Err(Refused::Short);
    }
    let h = header_of(job);
    if !h.within_limits() {
        return Err(Refused::Limits);
    }
    if !laid_out(h, job) {
        return Err(Refused::Layout);
    }
    Ok(h)
}

// Room for fewer answers, final marks, triangle words or work words than the job needs: code 4. The four are the rooms that C lends.
pub fn room_short(
    h: Header,
    answers: usize,
    final_marks: usize,
    triangles: usize,
    work: usize,
) -> bool
    requires { (h.ids ≤ most_ids) × (h.rows ≤ most_rows) }
    ensures { result ≡ short_rooms track (meant h) answers final_marks triangles work }
{
    (answers < h.proposals)
        | (final_marks < h.rows)
        | (triangles < h.list_room())
        | (work < h.work_room())
}
