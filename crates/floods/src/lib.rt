// Floods: what is reached is stamped and stands in a queue.
#![tactic(auto)]

ghost use Rattle.std.specs.Prelude.{◌≡◌, true, cond, ◌+◌, ◌<◌, length, set, replicate};

// The stamps of a flood and its queue, with the numbers in front of `tail` reached. Fixed memory holds both.
#[derive(Drop)]
pub struct Flood {
    pub stamp: [u16; 2048],
    pub queue: [u16; 2048],
    pub tail: usize,
    ghost room: { (length stamp ≡ 2048) × (length queue ≡ 2048) },
}

impl Flood {
    // Nothing is stamped.
    pub fn new() -> Flood
        ensures { (result.stamp ≡ replicate 2048 0) × (result.queue ≡ replicate 2048 0) × (result.tail ≡ 0) }
    {
        Flood {
            stamp: [0; 2048],
            queue: [0; 2048],
            tail: 0,
        }
    }

    // Begins at `start`, with a fresh stamp.
    pub fn begin(&mut self, start: usize, k: u16)
        requires { start < 2048 }
        ensures { (self.new.stamp ≡ set self.old.stamp start k) × (self.new.queue ≡ set self.old.queue 0 start) × (self.new.tail ≡ 1) }
    {
        self.stamp[start] = k;
        self.queue[0] = start as u16;
        self.tail = 1;
    }

    // Stamps y and puts it into the queue, if it is fresh. Where it is not, the caller goes on the same way: so there is one branch.
    pub fn visit(&mut self, fresh: bool, y: usize, k: u16)
        requires { (y < 2048) × (fresh ≡ true → self.old.tail < 2048) }
        ensures { (self.new.stamp ≡ cond fresh (set self.old.stamp y k) self.old.stamp)
            × (self.new.queue ≡ cond fresh (set self.old.queue self.old.tail y) self.old.queue)
            × (self.new.tail ≡ cond fresh (self.old.tail + 1) self.old.tail) }
    {
        if fresh {
            self.stamp[y] = k;
            self.queue[self.tail] = y as u16;
            self.tail += 1;
        }
    }
}
