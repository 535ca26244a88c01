// The answer to one proposal, and the row that it names.
ghost use Rattle.std.specs.Prelude.{◌≡◌, ◌/◌, ◌<◌, ◌||◌, true, false, eqb, length, set, MatchResult, IfOk};
ghost use Rattle.rules.specs.Below.{bit};
ghost use Rattle.rules.specs.Proposals.{answer, marks_after};
ghost use Rattle.rules.specs.Work.{work_area};
ghost use Rattle.rules.specs.Job.{proposal_in};
ghost use Rattle.table.specs.Rows.{table_in};
ghost use Rattle.tallies.specs.Area.{Area};
ghost use Rattle.growth.specs.Declined.{answer_of};
ghost use Rattle.growth.specs.Answers.{proposal};

use crate::declined::{Declined, answer_of};
use crate::free::on_other_side;
use crate::growing::Growing;
use table::{holds, row_count};
use tallies::flip_row;
use words::word_at;

// A proposal adds or removes, by its kind: a number as it came, since `answer_all` promises its answer to every number.
fn adds(kind: usize) -> Result<bool, Declined>
    ensures { MatchResult result (λ adding. ((eqb kind 1 || eqb kind 2) ≡ true) × (adding ≡ eqb kind 1)) (λ e. (e ≡ Declined.Kind) × ((eqb kind 1 || eqb kind 2) ≡ false)) }
{
    match kind {
        1 => Ok(true),
        2 => Ok(false),
        _ => Err(Declined::Kind),
    }
}

impl Growing<'_> {
    // The first reason that applies, of answers 1 to 7, or taken: whether the row is added.
    fn answer(self, row: usize, kind: usize) -> Result<bool, Declined>
        ensures { (answer_of result ≡ answer (table_in self.entry.rows.now) self.entry.marks.now (proposal row kind)) × IfOk result (λ adding. adding ≡ eqb kind 1) }
    {
        if row >= row_count(self.rows) {
            return Err(Declined::Row);
        }
        let adding = adds(kind)?;
        if holds(self.rows, row, 0) {
            return Err(Declined::Outer);
        }
        if on_other_side(self.marks, adding, row) {
            return Err(Declined::Side);
        }
        self.local_test(adding, row)?;
        Ok(adding)
    }
}

// Answers proposal k on the marks then standing. If it is taken the row that it names goes to the other side, and the result is 1, else 0.
pub(crate) fn answer_one(
    rows: &[u8],
    ids: usize,
    proposals: &[u8],
    k: usize,
    answers: &mut [u8],
    marks: &mut [u8],
    work: &mut [u32],
) -> usize
    requires { Area rows.now work.old marks.old ids × (k < length proposals.now / 8) × (k < length answers.old) }
    ensures { (result ≡ bit (eqb (answer (table_in rows.now) marks.old (proposal_in proposals.now k)) 0))
        × (answers.new ≡ set answers.old k (answer (table_in rows.now) marks.old (proposal_in proposals.now k)))
        × (marks.new ≡ marks_after (table_in rows.now) marks.old (proposal_in proposals.now k))
        × (work.new ≡ work_area (table_in rows.now) ids marks.new) }
{
    let row = word_at(proposals, 8 * k) as usize;
    let kind = word_at(proposals, 8 * k + 4) as usize;
    let growing = Growing {
        rows,
        work,
        marks,
        ids,
    };
    let given = growing.answer(row, kind);
    // What the caller is told decides: 0 is the answer of what is taken, and of nothing else.
    let number = answer_of(given);
    answers[k] = number;
    let refused = number != 0;
    if refused {
        return 0;
    }
    flip_row(rows, row, given.unwrap(), marks, work);
    1
}
