// Trying a row: what a word leaves is compared with the machine that the row tells.
use fault::Fault;
use std::process::Abort;
use steps::progress::Progress;
use word_bench::bench::{Bench, TOLD};

// A row of a table: a word, the machine before, and the machine after with what is typed, or the number of a fault, which changes nothing.
#[derive(Clone, Copy)]
struct Row<'a> {
    word: &'a str,
    before: &'a str,
    after: Result<(&'a str, &'a str), u8>,
}

// Where something is typed.
pub(crate) type TypingRow = (
    &'static str,
    &'static str,
    Result<(&'static str, &'static str), u8>,
);

// How many bytes can be typed where a row does not say it.
pub(crate) const AMPLE: usize = 64;

// What a word answered, a refusal by its number; 100 where its place is not the one told.
fn answered(done: Result<Progress, Fault>) -> Result<Progress, u8> {
    match done {
        Ok(progress) => Ok(progress),
        Err(fault) if fault.place == TOLD => Err(fault.number()),
        Err(_) => Err(100),
    }
}

// The machine that a word is tried on, and the one that it is to leave; all rows add to the same text.
#[derive(Drop)]
pub(crate) struct Benches<'a> {
    base: &'a str,
    found: Bench,
    wanted: Bench,
}

impl<'a> Benches<'a> {
    pub(crate) fn on(base: &'a str) -> Benches<'a> {
        Benches {
            base,
            found: Bench::booted(),
            wanted: Bench::booted(),
        }
    }

    // Which part of a row fails, with so many bytes to type: what it tells, the answer, or what is left.
    fn failing(
        &mut self,
        word: &str,
        space: usize,
        before: &str,
        answer: Result<Progress, u8>,
        (after, typed): (&str, &str),
    ) -> Option<&'static str> {
        let told = self.found.become_machine(self.base, before).is_some()
            && self.wanted.become_machine(self.base, after).is_some();
        if !told {
            return Some("machine");
        }
        if self.found.does(word, space).map(answered) != Some(answer) {
            return Some("answer");
        }
        self.found.difference(&self.wanted, typed.as_bytes())
    }

    // With so many bytes to type, a word answers so, and leaves a machine and what it typed.
    pub(crate) fn compare(
        &mut self,
        rt: &impl Abort,
        word: &str,
        space: usize,
        before: &str,
        answer: Result<Progress, u8>,
        left: (&str, &str),
    ) {
        if let Some(part) = self.failing(word, space, before, answer, left) {
            let base = self.base;
            panic!(rt; "{word} at {before}, on {base}, fails by its {part}");
        }
    }

    // A word types so: also where its bytes just fit, and not where one is too many. A fault comes first, and changes nothing.
    pub(crate) fn types(
        &mut self,
        rt: &impl Abort,
        word: &str,
        before: &str,
        after: Result<(&str, &str), u8>,
    ) {
        match after {
            Ok(left) => {
                let n = left.1.len();
                self.compare(rt, word, AMPLE, before, Ok(Progress::Went), left);
                self.compare(rt, word, n, before, Ok(Progress::Went), left);
                if n > 0 {
                    self.compare(rt, word, n - 1, before, Ok(Progress::Full), (before, ""));
                }
            }
            Err(number) => {
                self.compare(rt, word, AMPLE, before, Err(number), (before, ""));
                self.compare(rt, word, 0, before, Err(number), (before, ""));
            }
        }
    }
}

// `DUP | 7 | 7 7`, which types nothing, or `DUP | | fault 12`.
fn row_of(line: &str) -> Option<Row<'_>> {
    let (word, rest) = line.split_once('|')?;
    let (before, after) = rest.split_once('|')?;
    let after = after.trim();
    let after = match after.strip_prefix("fault ") {
        Some(number) => Err(number.parse().ok()?),
        None => Ok((after, "")),
    };
    Some(Row {
        word: word.trim(),
        before: before.trim(),
        after,
    })
}

// All rows of the tables, each added to the text of its table.
pub(crate) fn tables_hold(rt: &impl Abort, tables: &[(&str, &str)]) {
    for &(base, rows) in tables {
        rows_hold(rt, base, rows);
    }
}

fn rows_hold(rt: &impl Abort, base: &str, rows: &str) {
    let mut benches = Benches::on(base);
    for line in rows.split('\n') {
        if !line.is_empty() {
            row_holds(rt, &mut benches, line);
        }
    }
}

fn row_holds(rt: &impl Abort, benches: &mut Benches<'_>, line: &str) {
    match row_of(line) {
        Some(row) => benches.types(rt, row.word, row.before, row.after),
        None => panic!(rt; "{line} is no row"),
    }
}

// The same for rows that tell what is typed.
pub(crate) fn typing_tables_hold(rt: &impl Abort, tables: &[(&str, &[TypingRow])]) {
    for &(base, rows) in tables {
        typing_rows_hold(rt, base, rows);
    }
}

fn typing_rows_hold(rt: &impl Abort, base: &str, rows: &[TypingRow]) {
    let mut benches = Benches::on(base);
    for &(word, before, after) in rows {
        benches.types(rt, word, before, after);
    }
}
