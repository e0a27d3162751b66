// A machine with memory of its own, on which the rows of the tables are tried.
ghost use Rattle.std.specs.Prelude.{◌≡◌, ◌-◌, None, take, drop};

use definition::places::BASE;
use definition::ranged::Registers;
use definition::registers::LastWord;
use dictionary::registers::Dictionary;
use fault::Place;
use kernel_table::booted;

// What the registers tell a fault of the text.
pub const TOLD: Place = Place {
    blk: 3,
    start: 5,
    length: 4,
};

// Behind the kernel words.
const FENCE: usize = 1618;

#[derive(Drop)]
pub struct Bench {
    pub registers: Registers,
    pub(crate) kernel: Dictionary,
    pub(crate) image: [u8; 65536],
    pub(crate) cells: [u16; 128],
    pub(crate) returns: [u16; 128],
    pub(crate) output: [u8; 64],
    pub(crate) typed: usize,
}

impl Bench {
    pub fn booted() -> Bench {
        let mut image = [0; 65536];
        let kernel = kernel::boot(&mut image);
        Bench {
            registers: booted(),
            kernel,
            image,
            cells: [0; 128],
            returns: [0; 128],
            output: [0; 64],
            typed: 0,
        }
    }

    // As boot leaves it, but for the place in the text.
    pub(crate) fn reset(&mut self) {
        self.registers = booted();
        self.registers.seat.source.position.blk = TOLD.blk;
        self.registers.seat.source.word = LastWord {
            start: TOLD.start,
            length: TOLD.length,
        };
        self.image[FENCE..].fill(0);
        self.image[BASE] = 10;
        self.typed = 0;
    }

    fn used_cells(&self) -> &[u16]
        ensures { result.now ≡ take self.now.registers.seat.depths.cells self.now.cells }
    {
        &self.cells[..usize::from(self.registers.seat.depths.cells)]
    }

    fn used_returns(&self) -> &[u16]
        ensures { result.now ≡ take self.now.registers.seat.depths.returns self.now.returns }
    {
        &self.returns[..usize::from(self.registers.seat.depths.returns)]
    }

    fn dictionary(&self) -> &[u8]
        ensures { result.now ≡ take self.now.registers.shared.ends.dp self.now.image }
    {
        &self.image[..usize::from(self.registers.shared.ends.dp)]
    }

    fn space(&self) -> &[u8]
        ensures { result.now ≡ take (self.now.registers.shared.ends.here - 32768) (drop 32768 self.now.image) }
    {
        &self.image[BASE..usize::from(self.registers.shared.ends.here)]
    }

    fn typed_bytes(&self) -> Option<&[u8]> {
        self.output.get(..self.typed)
    }

    // Which part of a machine, or what is typed, is another than it is to be; what is free is no part.
    pub fn difference(&self, wanted: &Bench, typed: &[u8]) -> Option<&'static str>
        ensures cells { result ≡ None → take self.now.registers.seat.depths.cells self.now.cells ≡ take wanted.now.registers.seat.depths.cells wanted.now.cells }
        ensures returns { result ≡ None → take self.now.registers.seat.depths.returns self.now.returns ≡ take wanted.now.registers.seat.depths.returns wanted.now.returns }
        ensures dictionary { result ≡ None → take self.now.registers.shared.ends.dp self.now.image ≡ take wanted.now.registers.shared.ends.dp wanted.now.image }
        ensures space { result ≡ None → take (self.now.registers.shared.ends.here - 32768) (drop 32768 self.now.image) ≡ take (wanted.now.registers.shared.ends.here - 32768) (drop 32768 wanted.now.image) }
    {
        if self.used_cells() != wanted.used_cells() {
            Some("data cells")
        } else if self.used_returns() != wanted.used_returns() {
            Some("return cells")
        } else if self.registers != wanted.registers {
            Some("registers")
        } else if self.dictionary() != wanted.dictionary() {
            Some("dictionary")
        } else if self.space() != wanted.space() {
            Some("data space")
        } else if self.typed_bytes() != Some(typed) {
            Some("typed bytes")
        } else {
            None
        }
    }
}
