// Entries that are made or begun, as changes of the machine.
ghost use Rattle.std.specs.Prelude.{◌≡◌, ◌+◌, take};
ghost use Rattle.steps.specs.Spaces.{InSpace};
ghost use Rattle.defining_words.specs.Made.{code_of, value_of};
ghost use Rattle.definition.specs.Define.{entry_size};
ghost use Rattle.dictionary.specs.Dict.{colon_begun, defined, vocabulary_defined};
ghost use Rattle.entries.specs.Entries.{spelled};
ghost use Rattle.image.specs.Cells.{cell};
ghost use Rattle.texts.specs.Names.{name_of};

use definition::ranged::Registers;
use dictionary::Header;
use dictionary::code::{CONSTANT, CREATED};
use fault::Fault;
use steps::faults::place;
use steps::seat_dictionary::{dictionary_of, keep};
use texts::name::Name;

// The view of an entry that begins: BLK.
fn view(registers: &Registers) -> u16
    ensures { result ≡ registers.now.seat.source.position.blk }
{
    registers.seat.source.position.blk
}

// What a name is made: a created word, or the constant of a value.
#[derive(Clone, Copy)]
pub(crate) enum Made {
    Created,
    Constant(u16),
}

impl Made {
    fn code(self) -> u16
        ensures { result ≡ code_of self }
    {
        match self {
            Made::Created => CREATED,
            Made::Constant(_) => CONSTANT,
        }
    }

    // The cell behind its first parameter cell.
    fn value(self) -> u16
        ensures { result ≡ value_of self }
    {
        match self {
            Made::Created => 0,
            Made::Constant(value) => value,
        }
    }
}

// Makes the entry of a name.
pub(crate) fn define(
    registers: &mut Registers,
    image: &mut [u8; 65536],
    name: &Name,
    made: Made,
) -> Result<(), Fault>
    ensures did { InSpace (entry_size (name_of name.now) + 2) (defined registers.old.seat.source.position.blk 0 (spelled (name_of name.now)) (code_of made) (cell (value_of made))) registers.old image.old result registers.new image.new }
    ensures depths { registers.new.seat.depths ≡ registers.old.seat.depths }
    ensures here { registers.new.shared.ends.here ≡ registers.old.shared.ends.here }
    ensures below { take 256 image.new ≡ take 256 image.old }
{
    let mut d = dictionary_of(registers);
    let header = Header {
        view: view(registers),
        flags: 0,
        name: name.text(),
        code: made.code(),
    };
    d.define(
        image,
        &header,
        &made.value().to_le_bytes(),
        place(registers),
    )?;
    keep(registers, d);
    Ok(())
}

// Makes a vocabulary.
pub(crate) fn define_vocabulary(
    registers: &mut Registers,
    image: &mut [u8; 65536],
    name: &Name,
) -> Result<(), Fault>
    ensures did { InSpace (entry_size (name_of name.now) + 10) (vocabulary_defined registers.old.seat.source.position.blk (spelled (name_of name.now))) registers.old image.old result registers.new image.new }
    ensures below { take 256 image.new ≡ take 256 image.old }
{
    let mut d = dictionary_of(registers);
    d.define_vocabulary(image, view(registers), name.text(), place(registers))?;
    keep(registers, d);
    Ok(())
}

// Begins the entry of a colon word.
pub(crate) fn begin_colon(
    registers: &mut Registers,
    image: &mut [u8; 65536],
    name: &Name,
) -> Result<(), Fault>
    requires { registers.old.shared.names.opened ≡ 0 }
    ensures did { InSpace (entry_size (name_of name.now)) (colon_begun registers.old.seat.source.position.blk (spelled (name_of name.now))) registers.old image.old result registers.new image.new }
    ensures below { take 256 image.new ≡ take 256 image.old }
{
    let mut d = dictionary_of(registers);
    d.begin_colon(image, view(registers), name.text(), place(registers))?;
    keep(registers, d);
    Ok(())
}
