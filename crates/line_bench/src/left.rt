// What a session leaves, as a text tells it: data cells first, the top last, as `7 -1 65535`, and then registers by their names, as
// `DP: 1635`. What is not told is as boot leaves it.
use super::bench::Bench;
use definition::ranged::Registers;
use definition::registers::{Depths, Flow, Shared};
use dictionary::registers::SearchOrder;
use kernel_table::booted;
use numbers::read_number;

// What the next number is.
#[derive(Clone, Copy)]
enum Part {
    Cell,
    Ones,
    Dp,
    Here,
    Newest,
    VocLink,
    Context,
    Current,
    Open,
    Compiling,
    Marks,
    Held,
    Updated,
}

fn part_of(name: &str) -> Option<Part> {
    Some(match name {
        "ONES:" => Part::Ones,
        "DP:" => Part::Dp,
        "HERE:" => Part::Here,
        "NEWEST:" => Part::Newest,
        "VOC-LINK:" => Part::VocLink,
        "CONTEXT:" => Part::Context,
        "CURRENT:" => Part::Current,
        "OPEN:" => Part::Open,
        "COMPILING:" => Part::Compiling,
        "MARKS:" => Part::Marks,
        "HELD:" => Part::Held,
        "UPDATED:" => Part::Updated,
        _ => return None,
    })
}

// The registers but for the text's, and data cells. No load is open.
#[derive(Clone, Copy)]
struct Left {
    shared: Shared,
    order: SearchOrder,
    flow: Flow,
    depths: Depths,
    cells: [u16; 128],
}

impl Left {
    fn by_boot() -> Left {
        let registers = booted();
        let seat = registers.seat;
        Left {
            shared: registers.shared,
            order: seat.order,
            flow: seat.flow,
            depths: seat.depths,
            cells: [0; 128],
        }
    }

    // Nothing where the text tells no machine: then its row fails.
    fn told(text: &str) -> Option<Left> {
        let mut left = Left::by_boot();
        let mut part = Part::Cell;
        for word in text.split_whitespace() {
            match part_of(word) {
                Some(named) => part = named,
                None => part = left.take(part, read_number(10, word.as_bytes())?)?,
            }
        }
        Some(left)
    }

    // Takes a number of a part, and answers what the next one is.
    fn take(&mut self, part: Part, n: u16) -> Option<Part> {
        match part {
            Part::Cell => self.add_cells(1, n)?,
            Part::Ones => self.add_cells(n, 1)?,
            Part::Dp => self.shared.ends.dp = n,
            Part::Here => self.shared.ends.here = n,
            Part::Newest => self.shared.names.newest = n,
            Part::VocLink => self.shared.names.voclink = n,
            Part::Context => self.order.context = n,
            Part::Current => self.order.current = n,
            Part::Open => self.shared.names.opened = n,
            Part::Compiling => self.flow.compiling = n != 0,
            Part::Marks => self.depths.marks = n,
            Part::Held => self.shared.buffer.held = Some(n),
            Part::Updated => self.shared.buffer.updated = n != 0,
        }
        Some(Part::Cell)
    }

    fn add_cells(&mut self, times: u16, x: u16) -> Option<()> {
        for _ in 0..times {
            let depth = self.depths.cells;
            *self.cells.get_mut(usize::from(depth))? = x;
            self.depths.cells = depth.checked_add(1)?;
        }
        Some(())
    }

    fn used_cells(&self) -> Option<&[u16]> {
        self.cells.get(..usize::from(self.depths.cells))
    }

    fn has_registers(&self, registers: &Registers) -> bool {
        let seat = registers.seat;
        self.shared == registers.shared
            && self.order == seat.order
            && self.flow == seat.flow
            && self.depths == seat.depths
            && seat.loads.count == 0
    }
}

impl Bench {
    // Is the machine as a text tells it?
    pub fn is_left(&self, text: &str) -> bool {
        let Some(left) = Left::told(text) else {
            return false;
        };
        left.has_registers(&self.registers)
            && left
                .used_cells()
                .is_some_and(|cells| self.holds_cells(cells))
    }
}
