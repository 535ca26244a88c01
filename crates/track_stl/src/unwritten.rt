// Why no file is written.
ghost use Rattle.std.specs.Prelude.{◌≡◌};
ghost use Rattle.track_stl.specs.Outcomes.{verdict_of};
ghost use Rattle.track_stl.specs.declared.unwritten.Unwritten.TheVariants as unwritten;

use track::refusal::Refusal;

// The first refusal of a run and of the file after it.
#[derive(Clone, Copy)]
pub enum Unwritten {
    Run(Refusal),
    // The job has no points.
    NoPoints,
    // Room for fewer bytes than the file has.
    Room,
}

impl From<Refusal> for Unwritten {
    ghost from_gives = { λ e r. r ≡ unwritten.Run e };

    fn from(refused: Refusal) -> Unwritten {
        Unwritten::Run(refused)
    }
}

impl Unwritten {
    // Code and place: those of document 01, 20 and 21.
    pub fn code_and_place(self) -> (usize, usize)
        ensures { (result.0 ≡ (verdict_of self).code) × (result.1 ≡ (verdict_of self).place) }
    {
        match self {
            Unwritten::Run(refusal) => refusal.code_and_place(),
            Unwritten::NoPoints => (20, 0),
            Unwritten::Room => (21, 0),
        }
    }
}
