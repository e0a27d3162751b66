// Which bytes separate words.
ghost use Rattle.std.specs.Prelude.{◌≡◌};
ghost use Rattle.definition.specs.Laws.{WordTaken};
ghost use Rattle.definition.specs.Text.{separates};

// Bytes 0 to 32 separate words: the word taken is the first run of other bytes at or behind >IN.
pub fn is_separator(byte: u8) -> bool
    ensures value { result ≡ separates byte }
    ensures law { WordTaken }
{
    byte <= 32
}
