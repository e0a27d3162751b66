// ." compiles a text that follows.
ghost use Rattle.std.specs.Prelude.{◌≡◌, ℕ, ◌+◌, ◌≤◌, List, ◌∷◌, ◌++◌, length, take};
ghost use Rattle.definition.specs.Compile.{token};
ghost use Rattle.steps.specs.Does.{FromText};

use definition::ranged::Registers;
use fault::Fault;
use steps::appending::append;
use steps::asking::ask_open;
use steps::tokens::CompiledWord;
use texts::strings::take_to;

// Puts (."), a count byte and a text, as they are compiled, and answers where they end. The cast loses nothing: a text has at most
// 255 bytes.
#[tactic(auto, using(crate::proofs::Bytes::quoted))]
fn put_quoted(bytes: &mut [u8; 258], text: &[u8]) -> usize
    requires { length text.now ≤ 255 }
    ensures end { result ≡ length text.now + 3 }
    ensures put { take result bytes.new ≡ token 105 ++ (length text.now ∷ text.now) }
{
    let end = image::append(bytes, 0, &CompiledWord::TypeText.token().to_le_bytes());
    let end = image::append(bytes, end, &[text.len() as u8]);
    image::append(bytes, end, text)
}

// ." The text is copied first: the image is written while it is in use.
pub(crate) fn dot_quote(registers: &mut Registers, image: &mut [u8; 65536]) -> Result<(), Fault>
    ensures did { (c : List ℕ) → FromText 90 registers.old image.old c result registers.new image.new c }
    ensures below { take 256 image.new ≡ take 256 image.old }
{
    let (start, end) = take_to(registers, image, b'"', 255)?;
    ask_open(registers)?;
    let mut bytes = [0; 258];
    let length = put_quoted(&mut bytes, &image[start..end]);
    append(registers, image, &bytes[..length])
}
