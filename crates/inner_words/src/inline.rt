// The words that read the cell behind their token.
ghost use Rattle.std.specs.Prelude.{◌≡◌, ℕ, ◌+◌, ◌≤◌, true, false, List};
ghost use Rattle.definition.specs.declared.registers.Mark.{Mark};
ghost use Rattle.fault.specs.declared.Reason.TheVariants.{BadToken};
ghost use Rattle.inner_words.specs.Numbers.{inline_number, passes};
ghost use Rattle.inner_words.specs.Turns.{turned};
ghost use Rattle.image.specs.Cells.{cell_at};
ghost use Rattle.image.specs.Views.{low_of};
ghost use Rattle.numbers.specs.Cells.{minus};
ghost use Rattle.steps.specs.Does.{OnReturns, seen};
ghost use Rattle.steps.specs.Inside.{inside};
ghost use Rattle.steps.specs.Seats.{IsAnswered, with_pointer};
ghost use Rattle.store.specs.Meaning.{Meaning};

use super::words::InlineWord;
use definition::ranged::Registers;
use fault::Fault;
use steps::cells::{self, Data, Returns};
use steps::inside::ask_inside;
use steps::pointer::go_to;

// The cell at IP, if it lies in the dictionary.
fn inline_cell(registers: &Registers, image: &[u8; 65536]) -> Result<u16, Fault>
    ensures { IsAnswered result (λ x. (inside registers.now.seat.flow.ip 2 registers.now.shared.ends.dp ≡ true) × (x ≡ cell_at (low_of registers.now.shared.ends.dp image.now) registers.now.seat.flow.ip) × (registers.now.seat.flow.ip + 2 ≤ 32768)) (inside registers.now.seat.flow.ip 2 registers.now.shared.ends.dp ≡ false) BadToken registers.now.seat }
{
    let ip = registers.seat.flow.ip;
    ask_inside(registers, ip, 2)?;
    Ok(image::fetch(image, usize::from(ip)))
}

// IP goes behind the cell that was read.
fn skip(registers: &mut Registers)
    requires { registers.old.seat.flow.ip + 2 ≤ 32768 }
    ensures shared { registers.new.shared ≡ registers.old.shared }
    ensures seat { registers.new.seat ≡ with_pointer (registers.old.seat.flow.ip + 2) registers.old.seat }
{
    registers.seat.flow.ip += 2;
}

fn literal(
    registers: &mut Registers,
    image: &[u8; 65536],
    cells: &mut [u16; 128],
    returns: &[u16; 128],
) -> Result<(), Fault>
    ensures { OnReturns 98 registers.old image.now cells.old returns.now result registers.new cells.new returns.now }
{
    cells::room::<Data>(registers, 1)?;
    let x = inline_cell(registers, image)?;
    skip(registers);
    cells::push::<Data>(registers, cells, x);
    Ok(())
}

fn jump(
    registers: &mut Registers,
    image: &[u8; 65536],
    cells: &[u16; 128],
    returns: &[u16; 128],
) -> Result<(), Fault>
    ensures { OnReturns 99 registers.old image.now cells.now returns.now result registers.new cells.now returns.now }
{
    let address = inline_cell(registers, image)?;
    go_to(registers, address);
    Ok(())
}

fn question_branch(
    registers: &mut Registers,
    image: &[u8; 65536],
    cells: &[u16; 128],
    returns: &[u16; 128],
) -> Result<(), Fault>
    ensures { OnReturns 100 registers.old image.now cells.now returns.now result registers.new cells.now returns.now }
{
    cells::need::<Data>(registers, 1)?;
    let address = inline_cell(registers, image)?;
    let x = cells::cell::<Data>(registers, cells, 0);
    cells::release::<Data>(registers, cells, 1);
    if x == 0 {
        go_to(registers, address);
        return Ok(());
    }
    skip(registers);
    Ok(())
}

fn begin_loop(
    registers: &mut Registers,
    image: &[u8; 65536],
    cells: &[u16; 128],
    returns: &mut [u16; 128],
) -> Result<(), Fault>
    ensures { OnReturns 101 registers.old image.now cells.now returns.old result registers.new cells.now returns.new }
{
    cells::need::<Data>(registers, 2)?;
    cells::room::<Returns>(registers, 3)?;
    let behind = inline_cell(registers, image)?;
    let limit = cells::cell::<Data>(registers, cells, 1);
    let start = cells::cell::<Data>(registers, cells, 0);
    cells::release::<Data>(registers, cells, 2);
    cells::push::<Returns>(registers, returns, behind);
    cells::push::<Returns>(registers, returns, limit);
    cells::push::<Returns>(registers, returns, start);
    skip(registers);
    Ok(())
}

// Does adding n to the index take it past the limit?
fn is_past(index: u16, limit: u16, n: u16) -> bool
    ensures { result ≡ passes (minus index limit) n }
{
    let s = index.wrapping_sub(limit);
    s.checked_add_signed(n.cast_signed()).is_none()
}

// Ends the loop, or goes round with n added to the index.
fn turn(registers: &mut Registers, returns: &mut [u16; 128], n: u16, start: u16)
    requires { (3 ≤ registers.old.seat.depths.returns) × (registers.old.seat.flow.ip + 2 ≤ 32768) }
    ensures { (i c : List ℕ) (k : List Mark) (s : Meaning) → seen registers.new i c returns.new k s ≡ turned n start (seen registers.old i c returns.old k s) }
{
    let index = cells::cell::<Returns>(registers, returns, 0);
    let limit = cells::cell::<Returns>(registers, returns, 1);
    if is_past(index, limit, n) {
        cells::release::<Returns>(registers, returns, 3);
        skip(registers);
    } else {
        cells::release::<Returns>(registers, returns, 1);
        cells::push::<Returns>(registers, returns, index.wrapping_add(n));
        go_to(registers, start);
    }
}

// (LOOP) adds 1; (+LOOP) takes its number first. What they share is `turn`.
fn next_turn(
    registers: &mut Registers,
    image: &[u8; 65536],
    cells: &[u16; 128],
    returns: &mut [u16; 128],
) -> Result<(), Fault>
    ensures { OnReturns 102 registers.old image.now cells.now returns.old result registers.new cells.now returns.new }
{
    cells::need::<Returns>(registers, 3)?;
    let start = inline_cell(registers, image)?;
    turn(registers, returns, 1, start);
    Ok(())
}

fn next_turn_by(
    registers: &mut Registers,
    image: &[u8; 65536],
    cells: &[u16; 128],
    returns: &mut [u16; 128],
) -> Result<(), Fault>
    ensures { OnReturns 103 registers.old image.now cells.now returns.old result registers.new cells.now returns.new }
{
    cells::need::<Data>(registers, 1)?;
    cells::need::<Returns>(registers, 3)?;
    let start = inline_cell(registers, image)?;
    let n = cells::cell::<Data>(registers, cells, 0);
    cells::release::<Data>(registers, cells, 1);
    turn(registers, returns, n, start);
    Ok(())
}

// (LIT) BRANCH ?BRANCH (DO) (LOOP) (+LOOP)
pub fn inline_word(
    registers: &mut Registers,
    word: InlineWord,
    image: &[u8; 65536],
    cells: &mut [u16; 128],
    returns: &mut [u16; 128],
) -> Result<(), Fault>
    ensures { OnReturns (inline_number word) registers.old image.now cells.old returns.old result registers.new cells.new returns.new }
{
    // One dispatch per step: a match on the word, and no table of functions.
    match word {
        InlineWord::Literal => literal(registers, image, cells, returns),
        InlineWord::Branch => jump(registers, image, cells, returns),
        InlineWord::QuestionBranch => question_branch(registers, image, cells, returns),
        InlineWord::Do => begin_loop(registers, image, cells, returns),
        InlineWord::Loop => next_turn(registers, image, cells, returns),
        InlineWord::PlusLoop => next_turn_by(registers, image, cells, returns),
    }
}
