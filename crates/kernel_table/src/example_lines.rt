// Lines typed after boot, and what each does.
ghost use Rattle.std.specs.Prelude.{length, ◌≡◌};
ghost use Rattle.kernel_table.specs.Lines.{LinesStand, lines};

// A function of its own, so that the count is proved here and not beside the laws.
fn how_many() -> u8
    ensures { result ≡ length lines }
{
    8
}

// How many lines there are; each does what it should.
pub fn typed_lines() -> u8
    ensures count { result ≡ length lines }
    ensures stand { LinesStand }
{
    how_many()
}
