// Runs of bytes at the beginning of a text.
ghost use Rattle.std.specs.Prelude.{◌≡◌, drop};
ghost use Rattle.definition.specs.Text.{separates};
ghost use Rattle.std.specs.List.{prefix_len};
ghost use Rattle.texts.specs.Texts.{differs, other};

use definition::text::is_separator;

// The text from a place on; nothing where it has no such place.
pub(crate) fn rest_of(text: &[u8], from: usize) -> &[u8]
    ensures { result.now ≡ drop from text.now }
{
    text.get(from..).unwrap_or(&[])
}

// How many separators come first.
pub(crate) fn separators(text: &[u8]) -> usize
    ensures { result ≡ prefix_len separates text.now }
{
    text.iter().take_while(|byte| is_separator(**byte)).count()
}

// How many other bytes come first.
pub(crate) fn word_length(text: &[u8]) -> usize
    ensures { result ≡ prefix_len other text.now }
{
    text.iter().take_while(|byte| !is_separator(**byte)).count()
}

// How many bytes come before the first such byte, or in all.
pub(crate) fn length_before(text: &[u8], byte: u8) -> usize
    ensures { result ≡ prefix_len (differs byte) text.now }
{
    text.iter().take_while(|x| **x != byte).count()
}
