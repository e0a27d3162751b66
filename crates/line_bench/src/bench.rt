// A machine with memory of its own.
ghost use Rattle.std.specs.Prelude.{◌≡◌, true, take};

use super::end::End;
use definition::places::{BASE, LINE};
use definition::ranged::Registers;
use definition::registers::{Kind, Mark, Source};
use fault::Fault;
use kernel::boot;
use kernel_table::booted;
use stepping::step::step;
use steps::progress::Progress;
use store::Store;
use typing_words::output::Output;

#[derive(Drop)]
pub struct Bench {
    pub(crate) registers: Registers,
    image: [u8; 65536],
    cells: [u16; 128],
    returns: [u16; 128],
    marks: [Mark; 32],
    output: [u8; 512],
    typed: usize,
}

impl Bench {
    pub fn booted() -> Bench {
        let mut image = [0; 65536];
        let _ = boot(&mut image);
        image[BASE] = 10;
        let mark = Mark {
            kind: Kind::If,
            address: 0,
        };
        Bench {
            registers: booted(),
            image,
            cells: [0; 128],
            returns: [0; 128],
            marks: [mark; 32],
            output: [0; 512],
            typed: 0,
        }
    }

    // Gives the machine a line, if it is not too long.
    pub fn put_line(&mut self, line: &str) -> Option<()> {
        let bytes = line.as_bytes();
        let length = u16::try_from(bytes.len()).ok()?;
        if length > 128 {
            return None;
        }
        let place = &mut self.image[LINE..LINE + 128];
        place.fill(0);
        place[..bytes.len()].copy_from_slice(bytes);
        self.registers.seat.source = Source {
            length,
            ..Source::default()
        };
        Some(())
    }

    // Changes a byte behind the machine's back.
    pub fn poke(&mut self, address: u16, byte: u8) {
        self.image[usize::from(address)] = byte;
    }

    // One step, with so many bytes to type for all steps since the first. Where the bench has not so many, none is taken.
    fn take_step<S: Store>(&mut self, store: &mut S, space: usize) -> Result<Progress, Fault> {
        let Some(bytes) = self.output.get_mut(self.typed..space) else {
            return Ok(Progress::Full);
        };
        let mut output = Output::new(bytes);
        let done = step(
            &mut self.registers,
            &mut self.image,
            &mut self.cells,
            &mut self.returns,
            &mut self.marks,
            &mut output,
            store,
        );
        self.typed += output.typed;
        done
    }

    // Takes steps until the line is finished, one faults, the next would type more than the space, or the budget is used: how it ended, and
    // how many steps were taken.
    pub fn run<S: Store>(&mut self, store: &mut S, budget: u32, space: usize) -> (End, u32) {
        self.typed = 0;
        for taken in 0..budget {
            match self.take_step(store, space) {
                Ok(Progress::Went) => {}
                Ok(Progress::Full) => return (End::Stopped, taken),
                Ok(Progress::Finished) => return (End::Finished, taken + 1),
                Err(fault) => return (End::of(fault), taken + 1),
            }
        }
        (End::Stopped, budget)
    }

    // Did the last run type these bytes?
    pub fn has_typed(&self, typed: &str) -> bool {
        self.output.get(..self.typed) == Some(typed.as_bytes())
    }

    fn used_cells(&self) -> &[u16]
        ensures { result.now ≡ take self.now.registers.seat.depths.cells self.now.cells }
    {
        &self.cells[..usize::from(self.registers.seat.depths.cells)]
    }

    // Are these the data cells, the top last?
    pub(crate) fn holds_cells(&self, cells: &[u16]) -> bool
        ensures { result ≡ true → take self.now.registers.seat.depths.cells self.now.cells ≡ cells.now }
    {
        self.used_cells() == cells
    }
}
