// A table whose rows rise, are in order and hold each triangle in pairs, with its neighbour list: what comes after code 7 asks of this.
ghost use Rattle.std.proofs.Props.{props};
ghost use Rattle.table.specs.Tested.{Tested};

#[derive(Clone, Copy)]
pub struct Table<'a> {
    pub rows: &'a [u8],
    pub neighbours: &'a [u32],
    ghost tested: { Tested rows.now neighbours.now } by { Prim.hlevel props },
}
