// What a run comes to: a grown skin, or the first refusal.
ghost use Rattle.std.specs.Prelude.{◌≡◌};
ghost use Rattle.track.specs.Refusals.{verdict_of};
ghost use Rattle.track.specs.declared.refusal.Refusal.TheVariants as refusal;

use job::Refused;
use marks::Unfit;
use points::Misplaced;
use table::Broken;

// How many proposals of an accepted job were taken, and how many triangles its skin has.
#[derive(Clone, Copy)]
pub struct Grown {
    pub taken: usize,
    pub triangles: usize,
}

#[derive(Clone, Copy)]
pub enum Refusal {
    Header(Refused),
    // Room for fewer answers, final marks, triangle words or work words than the job needs.
    Room,
    Table(Broken),
    Marks(Unfit),
    Points(Misplaced),
}

impl From<Refused> for Refusal {
    ghost from_gives = { λ refused r. r ≡ refusal.Header refused };

    fn from(refused: Refused) -> Refusal {
        Refusal::Header(refused)
    }
}

impl From<Broken> for Refusal {
    ghost from_gives = { λ broken r. r ≡ refusal.Table broken };

    fn from(broken: Broken) -> Refusal {
        Refusal::Table(broken)
    }
}

impl From<Unfit> for Refusal {
    ghost from_gives = { λ unfit r. r ≡ refusal.Marks unfit };

    fn from(unfit: Unfit) -> Refusal {
        Refusal::Marks(unfit)
    }
}

impl From<Misplaced> for Refusal {
    ghost from_gives = { λ misplaced r. r ≡ refusal.Points misplaced };

    fn from(misplaced: Misplaced) -> Refusal {
        Refusal::Points(misplaced)
    }
}

impl Refusal {
    // Code and place, as document 01 has them.
    pub fn code_and_place(self) -> (usize, usize)
        ensures { (result.0 ≡ (verdict_of self).code) × (result.1 ≡ (verdict_of self).place) }
    {
        match self {
            Refusal::Header(Refused::Short) => (1, 0),
            Refusal::Header(Refused::Limits) => (2, 0),
            Refusal::Header(Refused::Layout) => (3, 0),
            Refusal::Room => (4, 0),
            Refusal::Table(Broken::Row(row)) => (5, row),
            Refusal::Table(Broken::Order(row)) => (6, row),
            Refusal::Table(Broken::Triangle(row)) => (7, row),
            Refusal::Table(Broken::Edge(row)) => (8, row),
            Refusal::Table(Broken::Vertex(row)) => (9, row),
            Refusal::Marks(Unfit::Mark(row)) => (10, row),
            Refusal::Marks(Unfit::Outer(row)) => (11, row),
            Refusal::Marks(Unfit::Vertex(vertex)) => (12, vertex),
            Refusal::Points(Misplaced::Point(id)) => (13, id),
            Refusal::Points(Misplaced::Flat(row)) => (14, row),
            Refusal::Points(Misplaced::Folded(row)) => (15, row),
        }
    }
}
