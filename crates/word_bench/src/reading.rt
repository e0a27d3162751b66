// Machines as the tables tell them. Data cells come first, the top last, as `7 -1 65535`, and then parts by their names, with their numbers:
// FIVES: so many data cells of 5, RFIVES: so many return cells of 5, R: return cells, IP: and HERE: and NEWEST: a register, CODE: bytes behind
// the kernel words, up to DP, AT: an address and the bytes that lie there, BLK: and IN: where the text goes on, LOAD: blocks that are
// loaded, each from there. What is not told is as boot leaves it, but for BLK, which is 3.
use super::bench::Bench;
use block_words::loading::load_word;
use numbers::read_number;
use steps::cells::{self, Data, Returns};

// What the next number is.
#[derive(Clone, Copy)]
enum Part {
    Cells,
    Fives,
    Returns,
    ReturnFives,
    Pointer,
    Here,
    Newest,
    Code,
    Address,
    Byte(u16),
    Block,
    Offset,
    Load,
}

fn part_of(name: &str) -> Option<Part> {
    Some(match name {
        "FIVES:" => Part::Fives,
        "R:" => Part::Returns,
        "RFIVES:" => Part::ReturnFives,
        "IP:" => Part::Pointer,
        "HERE:" => Part::Here,
        "NEWEST:" => Part::Newest,
        "CODE:" => Part::Code,
        "AT:" => Part::Address,
        "BLK:" => Part::Block,
        "IN:" => Part::Offset,
        "LOAD:" => Part::Load,
        _ => return None,
    })
}

// Nothing is answered where a text tells no machine: then its row fails.
impl Bench {
    // Becomes the machine of a text, with what a second text tells besides.
    pub fn become_machine(&mut self, base: &str, text: &str) -> Option<()> {
        self.reset();
        self.read(base)?;
        self.read(text)
    }

    fn read(&mut self, text: &str) -> Option<()> {
        let mut part = Part::Cells;
        for word in text.split_whitespace() {
            part = match part_of(word) {
                Some(named) => named,
                None => self.take(part, read_number(10, word.as_bytes())?)?,
            };
        }
        Some(())
    }

    // Takes a number of a part, and answers what the next one is.
    fn take(&mut self, part: Part, n: u16) -> Option<Part> {
        match part {
            Part::Cells => self.add_cells(1, n)?,
            Part::Fives => {
                self.add_cells(n, 5)?;
                return Some(Part::Cells);
            }
            Part::Returns => self.add_returns(1, n)?,
            Part::ReturnFives => {
                self.add_returns(n, 5)?;
                return Some(Part::Returns);
            }
            Part::Pointer => self.registers.seat.flow.ip = n,
            Part::Here => self.set_here(n)?,
            Part::Newest => self.set_newest(n)?,
            Part::Code => self.add_code(n)?,
            Part::Block => self.registers.seat.source.position.blk = n,
            Part::Offset => self.set_offset(n)?,
            Part::Load => self.load(n)?,
            Part::Address => return Some(Part::Byte(n)),
            Part::Byte(at) => {
                self.set_byte(at, n)?;
                return Some(Part::Byte(at.checked_add(1)?));
            }
        }
        Some(part)
    }

    fn add_cells(&mut self, times: u16, x: u16) -> Option<()> {
        for _ in 0..times {
            cells::room::<Data>(&self.registers, 1).ok()?;
            cells::push::<Data>(&mut self.registers, &mut self.cells, x);
        }
        Some(())
    }

    fn add_returns(&mut self, times: u16, x: u16) -> Option<()> {
        for _ in 0..times {
            cells::room::<Returns>(&self.registers, 1).ok()?;
            cells::push::<Returns>(&mut self.registers, &mut self.returns, x);
        }
        Some(())
    }

    fn set_here(&mut self, here: u16) -> Option<()> {
        if here < 34048 {
            return None;
        }
        self.registers.shared.ends.here = here;
        Some(())
    }

    fn set_offset(&mut self, offset: u16) -> Option<()> {
        if offset > 1024 {
            return None;
        }
        self.registers.seat.source.position.offset = offset;
        Some(())
    }

    fn load(&mut self, block: u16) -> Option<()> {
        self.add_cells(1, block)?;
        load_word(&mut self.registers, &self.cells).ok()
    }

    fn set_newest(&mut self, newest: u16) -> Option<()> {
        let shared = &mut self.registers.shared;
        if shared.names.opened != 0 || newest >= shared.ends.dp - 2 {
            return None;
        }
        self.registers.shared.names.newest = newest;
        Some(())
    }

    // DP goes behind each byte of code.
    fn add_code(&mut self, byte: u16) -> Option<()> {
        let shared = &mut self.registers.shared;
        let dp = shared.ends.dp;
        if shared.names.opened != 0 || dp >= 32768 {
            return None;
        }
        self.image[usize::from(dp)] = u8::try_from(byte).ok()?;
        self.registers.shared.ends.dp = dp + 1;
        Some(())
    }

    fn set_byte(&mut self, at: u16, byte: u16) -> Option<()> {
        self.image[usize::from(at)] = u8::try_from(byte).ok()?;
        Some(())
    }
}
