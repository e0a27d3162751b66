// BASE, the base in which numbers are read and typed.
ghost use Rattle.std.specs.Prelude.{◌≡◌};
ghost use Rattle.image.specs.Cells.{cell_at};

use definition::places::BASE;

// Its cell, whatever it holds.
pub fn base(image: &[u8; 65536]) -> u16
    ensures { result ≡ cell_at image.now 32768 }
{
    image::fetch(image, BASE)
}
