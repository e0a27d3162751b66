// A name, copied out of the text, since the image is written while it is in use. There is no heap and no crate but
// the standard one: it has 31 places and a count.
ghost use Rattle.std.specs.Prelude.{◌≡◌, ◌≤◌, true, length, take};
ghost use Rattle.definition.specs.Text.{is_name};

#[derive(Clone, Copy)]
pub struct Name {
    pub(crate) bytes: [u8; 31],
    pub(crate) count: u8,
    ghost within: { count ≤ 31 },
    ghost named: { is_name (take count bytes) ≡ true },
}
