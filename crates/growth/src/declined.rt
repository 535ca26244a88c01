// Why a proposal is declined, and document 02's number of an answer.
ghost use Rattle.std.specs.Prelude.{◌≡◌};
ghost use Rattle.growth.specs.Declined.{number_of, answer_of};

#[derive(Clone, Copy)]
pub(crate) enum Declined {
    // No such row.
    Row,
    // A kind that neither adds nor removes.
    Kind,
    // An outer row.
    Outer,
    // It is on the other side already.
    Side,
    // f = 0: a row of the other side holds one of the vertices.
    Vertices,
    // f = 1: the vertex opposite the skin triangle.
    Opposite,
    // f = 2: the edge that is in neither skin triangle.
    Edge,
}

impl Declined {
    fn number(self) -> u8
        ensures { result ≡ number_of self }
    {
        match self {
            Declined::Row => 1,
            Declined::Kind => 2,
            Declined::Outer => 3,
            Declined::Side => 4,
            Declined::Vertices => 5,
            Declined::Opposite => 6,
            Declined::Edge => 7,
        }
    }
}

// Document 02's answer: the C interface lends a byte for each, and this is the one place that tells it.
pub(crate) fn answer_of(given: Result<bool, Declined>) -> u8
    ensures { result ≡ answer_of given }
{
    match given {
        Ok(_) => 0,
        Err(declined) => declined.number(),
    }
}
