// The output: lent bytes, of which the first are typed. Nothing else writes to it.
ghost use Rattle.std.specs.Prelude.{◌≡◌, ◌+◌, ◌-◌, ◌≤◌, length, replicate, nat_le};

#[derive(Drop)]
pub struct Output<'a> {
    pub bytes: &'a mut [u8],
    pub typed: usize,
    ghost within: { typed ≤ length bytes.now },
}

impl<'a> Output<'a> {
    ghost use Rattle.steps.specs.Does.{Grows};
    ghost use Rattle.typing_words.specs.Output.{Types};

    // Nothing is typed yet.
    pub fn new(bytes: &'a mut [u8]) -> Output<'a>
        ensures bytes { result.bytes.now ≡ bytes.old }
        ensures typed { result.typed ≡ 0 }
        ensures same_reference { result.bytes.ghost_name ≡ bytes.entry.ghost_name }
    {
        Output { bytes, typed: 0 }
    }

    // Is there space for n bytes more?
    fn has_space(&self, n: usize) -> bool
        ensures { result ≡ nat_le n (length self.now.bytes.now - self.now.typed) }
    {
        n <= self.bytes.len() - self.typed
    }

    // Types bytes, if they fit: a bool, of which the word makes its Progress; there is no value and no reason to tell.
    pub(crate) fn type_bytes(&mut self, bytes: &[u8]) -> bool
        ensures types { Types self.old.bytes.now self.old.typed bytes.now result self.new.bytes.now self.new.typed }
        ensures size { length self.new.bytes.now ≡ length self.old.bytes.now }
        ensures same_reference { self.new.bytes.ghost_name ≡ self.old.bytes.ghost_name }
    {
        if !self.has_space(bytes.len()) {
            return false;
        }
        self.typed = image::append(self.bytes, self.typed, bytes);
        true
    }

    // Types n blanks, if they fit.
    pub(crate) fn type_blanks(&mut self, n: usize) -> bool
        ensures types { Types self.old.bytes.now self.old.typed (replicate n 32) result self.new.bytes.now self.new.typed }
        ensures size { length self.new.bytes.now ≡ length self.old.bytes.now }
        ensures same_reference { self.new.bytes.ghost_name ≡ self.old.bytes.ghost_name }
    {
        if !self.has_space(n) {
            return false;
        }
        image::fill(self.bytes, self.typed, n, b' ');
        self.typed += n;
        true
    }
}
