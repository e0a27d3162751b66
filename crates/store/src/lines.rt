// The lines of a text, one by one, and the first that is too long.
ghost use Rattle.std.specs.Prelude.{◌≡◌, ◌==◌, length, nat_lt};
ghost use Rattle.std.specs.List.{position};
ghost use Rattle.store.specs.Cutting.{behind_first, first_line};
ghost use Rattle.store.specs.Lines.{FirstLongLine};

// The lines of a text that are left.
#[derive(Drop)]
pub(crate) struct Lines<'a> {
    pub(crate) rest: &'a [u8],
}

impl<'a> Iterator for Lines<'a> {
    type Item = &'a [u8];

    ghost use Rattle.std.specs.Iterator.{YieldsFirstRef, item_count};
    ghost use Rattle.store.specs.Texts.{lines_of};

    ghost next_gives = { YieldsFirstRef (λ l. lines_of l.rest.now) };

    ghost remaining = { item_count (λ l. lines_of l.rest.now) };

    #[tactic(auto, using(crate::proofs::LineLaws::lines_step, crate::proofs::LineLaws::lines_none))]
    fn next(&mut self) -> Option<&'a [u8]> {
        if self.rest.is_empty() {
            return None;
        }
        let (line, rest) = cut(self.rest);
        self.rest = rest;
        Some(line)
    }
}

// Where the first line's end stands.
fn line_end(text: &[u8]) -> Option<usize>
    ensures { result ≡ position (λ b. b == 10) text.now }
{
    text.iter().position(|&byte| byte == b'\n')
}

// The first line, and the text behind it and its end.
#[tactic(auto, using(crate::proofs::CutLaws::first_to, crate::proofs::CutLaws::behind_from, crate::proofs::CutLaws::all_first, crate::proofs::CutLaws::none_behind))]
fn cut(text: &[u8]) -> (&[u8], &[u8])
    ensures line { result.0.now ≡ first_line text.now }
    ensures rest { result.1.now ≡ behind_first text.now }
{
    match line_end(text) {
        Some(end) => (&text[..end], &text[end + 1..]),
        None => (text, &[]),
    }
}

// Has a block no room for the line?
fn is_long(line: &[u8]) -> bool
    ensures { result ≡ nat_lt 64 (length line.now) }
{
    line.len() > 64
}

// The place of the first line above 64 bytes, from 0, or nothing where each line fits.
pub fn first_long_line(text: &[u8]) -> Option<usize>
    ensures { FirstLongLine text.now result }
{
    Lines { rest: text }.position(is_long)
}
