// Tables tried: what fails is named.
use session_bench::sessions::{Failing, Row, Session, failing_row};
use std::process::Abort;

fn holds(rt: &impl Abort, failing: Option<Failing>) {
    if let Some((line, part)) = failing {
        panic!(rt; "{line} fails by its {part}");
    }
}

pub(crate) fn rows_hold(rt: &impl Abort, rows: &[Row]) {
    for row in rows {
        holds(rt, failing_row(row));
    }
}

pub(crate) fn sessions_hold(rt: &impl Abort, sessions: &[Session]) {
    for session in sessions {
        holds(rt, session.failing());
    }
}
