// Executing a word on a bench.
ghost use Rattle.std.specs.Prelude.{◌≡◌, ◌≤◌, true, length};
ghost use Rattle.entries.specs.Threads.{Ascii};

use super::bench::Bench;
use block_words::loading::load_word;
use codes::code::{Code, SeldomWord};
use codes::went;
use data_words::dividing::divide_word;
use data_words::leaving::leaving_word;
use data_words::moving::stack_word;
use data_words::one_cell::unary_word;
use data_words::two_cells::binary_word;
use fault::{Fault, Place};
use inner_words::inline::inline_word;
use inner_words::returning::returns_word;
use inner_words::tokens::{PushingWord, body_word, pushing_word};
use numbers::read_number;
use space_words::allot::allot;
use space_words::growing::appending_word;
use space_words::space::memory_word;
use steps::progress::Progress;
use typing_words::output::Output;
use typing_words::typing::typing_word;
use typing_words::words::TypingWord;

impl Bench {
    // Does the kernel word of a name, or what lies at a token, with space for so many bytes to type.
    pub fn does(&mut self, word: &str, space: usize) -> Option<Result<Progress, Fault>> {
        let token = match self.token_of(word) {
            Some(token) => token,
            None => read_number(10, word.as_bytes())?,
        };
        self.execute(token, space)
    }

    // The token of the kernel word of a name.
    fn token_of(&self, name: &str) -> Option<u16> {
        let bytes = name.as_bytes();
        if !is_ascii_name(bytes) {
            return None;
        }
        let entry = self
            .kernel
            .search(&self.image, bytes, Place::nowhere())
            .ok()??;
        entry
            .checked_add(u16::try_from(bytes.len()).ok()?)?
            .checked_add(3)
    }

    fn code_at(&self, token: u16) -> Option<Code> {
        let bytes = self.image[usize::from(token)..].first_chunk()?;
        Some(Code::from(u16::from_le_bytes(*bytes)))
    }

    fn execute(&mut self, token: u16, space: usize) -> Option<Result<Progress, Fault>> {
        let done = match self.code_at(token)? {
            Code::Stack(word) => stack_word(&mut self.registers, word, &mut self.cells),
            Code::Unary(word) => unary_word(&mut self.registers, word, &mut self.cells),
            Code::Binary(word) => binary_word(&mut self.registers, word, &mut self.cells),
            Code::Leaving(word) => leaving_word(&mut self.registers, word, &mut self.cells),
            Code::Memory(word) => memory_word(
                &mut self.registers,
                word,
                &mut self.image,
                &mut self.cells,
            ),
            Code::Returns(word) => returns_word(
                &mut self.registers,
                word,
                &mut self.cells,
                &mut self.returns,
            ),
            Code::Inline(word) => inline_word(
                &mut self.registers,
                word,
                &self.image,
                &mut self.cells,
                &mut self.returns,
            ),
            Code::Created => pushing_word(
                &mut self.registers,
                PushingWord::Created,
                token,
                &self.image,
                &mut self.cells,
            ),
            Code::Constant => pushing_word(
                &mut self.registers,
                PushingWord::Constant,
                token,
                &self.image,
                &mut self.cells,
            ),
            Code::Seldom(word) => return self.execute_seldom(word, space),
            Code::Colon | Code::Does => return None,
        };
        Some(went(done))
    }

    fn execute_seldom(
        &mut self,
        word: SeldomWord,
        space: usize,
    ) -> Option<Result<Progress, Fault>> {
        let done = match word {
            SeldomWord::Divide(word) => divide_word(&mut self.registers, word, &mut self.cells),
            SeldomWord::Appending(word) => appending_word(
                &mut self.registers,
                word,
                &mut self.image,
                &mut self.cells,
            ),
            SeldomWord::Allot => allot(&mut self.registers, &mut self.image, &self.cells),
            SeldomWord::ToBody => body_word(&mut self.registers, &self.image, &mut self.cells),
            SeldomWord::Load => load_word(&mut self.registers, &self.cells),
            SeldomWord::Typing(word) => return self.execute_typing(word, space),
            _ => return None,
        };
        Some(went(done))
    }

    fn execute_typing(
        &mut self,
        word: TypingWord,
        space: usize,
    ) -> Option<Result<Progress, Fault>> {
        let mut output = Output::new(self.output.get_mut(..space)?);
        let done = typing_word(
            &mut self.registers,
            word,
            &self.image,
            &self.cells,
            &mut output,
        );
        self.typed = output.typed;
        Some(done)
    }
}

// A name as a search wants it.
fn is_ascii_name(name: &[u8]) -> bool
    ensures { result ≡ true → (1 ≤ length name.now) × Ascii name.now }
{
    !name.is_empty() && name.iter().all(u8::is_ascii)
}
