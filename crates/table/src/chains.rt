// Places threaded into chains: the places of one key, rising.
ghost use Rattle.std.specs.Prelude.{◌≡◌, true, not, ◌*◌, ◌≤◌, ◌<◌, get_or, length, set};
ghost use Rattle.rules.specs.Below.{any, count};
ghost use Rattle.table.specs.Rows.{table_in, rows_in};
ghost use Rattle.rules.specs.Laws.Highest.{highest};
ghost use Rattle.table.specs.Faces.{first_of, each_of};
ghost use Rattle.table.specs.Places.{Chained, like};
ghost use Rattle.table.specs.Walk.{another};
ghost use Rattle.rules.specs.Job.{most_rows};

use crate::faces::FaceKind;
use crate::row_count;
use values::choose;

// `head` has the first place of each key and `next` the one after each place; the number of places stands for none. Fixed memory, and no heap,
// holds both; a walk along a chain looks up the next place and counts none, so no range goes over it.
#[derive(Drop)]
pub(crate) struct Chains {
    head: [u16; 8192],
    next: [u16; 12288],
    ghost room: { (length head ≡ 8192) × (length next ≡ 12288) },
}

#[derive(Clone, Copy)]
pub(crate) struct Like {
    pub(crate) count: usize,
    pub(crate) other: usize,
}

impl Chains {
    pub(crate) fn new() -> Chains {
        Chains {
            head: [0; 8192],
            next: [0; 12288],
        }
    }

    // Puts a place before the chain of its key.
    fn link(&mut self, key: usize, place: usize)
        requires { (key < 8192) × (place < 12288) }
        ensures { (self.new.head ≡ set self.old.head key place) × (self.new.next ≡ set self.old.next place (get_or self.old.head key 0)) }
    {
        self.next[place] = self.head[key];
        self.head[key] = place as u16;
    }

    pub(crate) fn thread(&mut self, rows: &[u8], kind: FaceKind)
        requires { rows_in rows.now ≤ most_rows }
        ensures { Chained (table_in rows.now) (first_of kind) (each_of kind) self.new.head self.new.next }
    {
        let end = kind.each() * row_count(rows);
        self.head = [end as u16; 8192];
        for place in (0..end).rev() {
            self.link(kind.face_at(rows, place).key(), place);
        }
    }

    // How many places have the ids of a place, and the highest of them that is another.
    pub(crate) fn like_places(&self, rows: &[u8], kind: FaceKind, place: usize) -> Like
        requires { (rows_in rows.now ≤ most_rows) × (place < each_of kind * rows_in rows.now)
            × Chained (table_in rows.now) (first_of kind) (each_of kind) self.now.head self.now.next }
        ensures { (result.count ≡ count (each_of kind * rows_in rows.now) (like (table_in rows.now) (first_of kind) (each_of kind) place))
            × (result.other ≡ highest (each_of kind * rows_in rows.now) (another (table_in rows.now) (first_of kind) (each_of kind) place)) }
    {
        let end = kind.each() * row_count(rows);
        let face = kind.face_at(rows, place);
        let mut count = 0;
        let mut other = 0;
        let mut q = self.head[face.key()] as usize;
        while q < end {
            let hit = face.same_ids(kind.face_at(rows, q));
            count += choose(hit, 1, 0);
            other = choose(hit & (q != place), q, other);
            q = self.next[q] as usize;
        }
        Like { count, other }
    }

    // How many places have the ids of a place before which none has them: the walk begins there.
    pub(crate) fn like_onward(&self, rows: &[u8], kind: FaceKind, place: usize) -> usize
        requires { (rows_in rows.now ≤ most_rows) × (place < each_of kind * rows_in rows.now)
            × Chained (table_in rows.now) (first_of kind) (each_of kind) self.now.head self.now.next
            × (true ≡ not (any place (like (table_in rows.now) (first_of kind) (each_of kind) place))) }
        ensures { result ≡ count (each_of kind * rows_in rows.now) (like (table_in rows.now) (first_of kind) (each_of kind) place) }
    {
        let end = kind.each() * row_count(rows);
        let face = kind.face_at(rows, place);
        let mut count = 0;
        let mut q = place;
        while q < end {
            let hit = face.same_ids(kind.face_at(rows, q));
            count += choose(hit, 1, 0);
            q = self.next[q] as usize;
        }
        count
    }

    // No place before this one has its ids.
    pub(crate) fn first_like(&self, rows: &[u8], kind: FaceKind, place: usize) -> bool
        requires { (rows_in rows.now ≤ most_rows) × (place < each_of kind * rows_in rows.now)
            × Chained (table_in rows.now) (first_of kind) (each_of kind) self.now.head self.now.next }
        ensures { result ≡ not (any place (like (table_in rows.now) (first_of kind) (each_of kind) place)) }
    {
        let face = kind.face_at(rows, place);
        let mut q = self.head[face.key()] as usize;
        while q < place {
            if face.same_ids(kind.face_at(rows, q)) {
                return false;
            }
            q = self.next[q] as usize;
        }
        true
    }
}
