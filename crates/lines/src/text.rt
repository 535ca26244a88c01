// Text put into a buffer, one behind the other.

// A buffer, and the place in it behind what was put.
#[derive(Drop)]
pub(crate) struct Page<'a> {
    pub(crate) out: &'a mut [u8],
    pub(crate) at: usize,
}

impl<'a> Page<'a> {
    ghost use Rattle.std.specs.Prelude.{ℕ, List, [], ◌∷◌, ◌+◌, ◌*◌, ◌<◌, length};
    ghost use Rattle.std.specs.Borrow.{MutBor};
    ghost use Rattle.rules.specs.Below.{gather};
    ghost use Rattle.lines.specs.Listing.{decimal, spaced, line};
    ghost use Rattle.lines.specs.declared.text.Page.{Page};
    ghost use Rattle.lines.specs.Page.{HasRoom, Puts, TakesFew};

    pub(crate) fn put_byte(&mut self, byte: u8)
        requires { HasRoom self.old 1 }
        ensures { Puts (byte ∷ []) self.old self.new }
    {
        self.out[self.at] = byte;
        self.at += 1;
    }

    fn put_word(&mut self, word: &[u8])
        requires { HasRoom self.old (length word.now) }
        ensures { Puts word.now self.old self.new }
    {
        let behind = self.at + word.len();
        self.out[self.at..behind].copy_from_slice(word);
        self.at = behind;
    }

    // Digit by digit: of `write!` into a slice std says how far it goes, and nothing of what stands there, so `Puts` would not follow.
    pub(crate) fn put_number(&mut self, n: usize)
        requires { HasRoom self.old (length (decimal n)) }
        ensures { Puts (decimal n) self.old self.new }
    {
        if n < 10 {
            return self.put_byte(48 + n as u8);
        }
        self.put_number(n / 10);
        self.put_byte(48 + (n % 10) as u8);
    }

    fn put_spaced(&mut self, n: usize)
        requires { HasRoom self.old (1 + length (decimal n)) }
        ensures { Puts (32 ∷ decimal n) self.old self.new }
    {
        self.put_byte(b' ');
        self.put_number(n);
    }

    // A space before each number. The room is that of the whole text, and no number has one of its own, so `put_each` does not serve.
    fn put_numbers(&mut self, numbers: &[usize])
        requires { HasRoom self.old (length (spaced numbers.now)) }
        ensures { Puts (spaced numbers.now) self.old self.new }
    {
        for n in numbers {
            self.put_spaced(*n);
        }
    }

    pub(crate) fn put_line(&mut self, word: &[u8], numbers: &[usize])
        requires { HasRoom self.old (length (line word.now numbers.now)) }
        ensures { Puts (line word.now numbers.now) self.old self.new }
    {
        self.put_word(word);
        self.put_numbers(numbers);
        self.put_byte(b'\n');
    }

    // Puts a text for each k below `count`, one behind the other: `put` puts one, of at most `size` bytes.
    pub(crate) fn put_each<F: Fn(usize, &mut Page<'_>)>(
        &mut self,
        count: usize,
        size: usize,
        put: F,
    )
        requires room { HasRoom self.old (size * count) }
        requires callable { (k : ℕ) (p : MutBor Page) → k < count → HasRoom p.now size → F.pre put k p }
        requires few { (k : ℕ) (p p' : MutBor Page) → F.post put k p tt p' → TakesFew size p.now p'.now }
        ensures texts { (text : ℕ → List ℕ) → ((k : ℕ) (p p' : MutBor Page) → F.post put k p tt p' → Puts (text k) p.now p'.now) → Puts (gather count text) self.old self.new }
        ensures few { TakesFew (size * count) self.old self.new }
    {
        for k in 0..count {
            put(k, self);
        }
    }
}
