// A session: its moves from boot on, and what it must leave.
use super::moves::{Move, TOLD};
use dictionary::registers::Dictionary;
use fault::Fault;
use kernel::boot;
use std::process::Abort;

// The registers that a session leaves.
#[derive(Clone, Copy, PartialEq, Eq)]
pub(crate) struct Left {
    pub(crate) dp: u16,
    pub(crate) here: u16,
    pub(crate) newest: u16,
    pub(crate) voclink: u16,
    pub(crate) opened: u16,
    pub(crate) context: u16,
    pub(crate) current: u16,
}

pub(crate) const BOOT: Left = Left {
    dp: 1618,
    here: 34048,
    newest: 1607,
    voclink: 278,
    opened: 0,
    context: 270,
    current: 270,
};

impl Left {
    fn of(d: &Dictionary) -> Left {
        Left {
            dp: d.ends.dp,
            here: d.ends.here,
            newest: d.names.newest,
            voclink: d.names.voclink,
            opened: d.names.opened,
            context: d.order.context,
            current: d.order.current,
        }
    }
}

// What a search through CONTEXT, CURRENT and FORTH answers.
#[derive(Clone, Copy, PartialEq, Eq)]
pub(crate) enum Answer {
    At(u16),
    Missing,
    // 6: a link on the way is out of order.
    Broken,
}

pub(crate) struct Session {
    pub(crate) moves: &'static [Move],
    // The number that refuses the last move, 0 if none does. No move before it is refused.
    pub(crate) refused: u8,
    pub(crate) left: Left,
    pub(crate) names: &'static [(&'static str, Answer)],
}

fn number(answer: Result<(), Fault>) -> u8 {
    match answer {
        Ok(()) => 0,
        Err(fault) if fault.place == TOLD => fault.number(),
        Err(_) => 100,
    }
}

// Makes the moves until one is refused: how many were made, and the number that refused the last.
fn play(d: &mut Dictionary, image: &mut [u8; 65536], moves: &[Move]) -> (usize, u8) {
    for (i, step) in moves.iter().enumerate() {
        let refused = number(step.make(d, image));
        if refused != 0 {
            return (i + 1, refused);
        }
    }
    (moves.len(), 0)
}

fn search(d: &Dictionary, image: &[u8; 65536], name: &str) -> Answer {
    if name.is_empty() || !name.is_ascii() {
        return Answer::Broken;
    }
    match d.search(image, name.as_bytes(), TOLD) {
        Ok(Some(entry)) => Answer::At(entry),
        Ok(None) => Answer::Missing,
        Err(_) => Answer::Broken,
    }
}

// Does a session leave what it must?
fn holds(session: &Session) -> bool {
    let mut image = [0; 65536];
    let mut d = boot(&mut image);
    let answer = play(&mut d, &mut image, session.moves);
    answer == (session.moves.len(), session.refused)
        && Left::of(&d) == session.left
        && session
            .names
            .iter()
            .all(|(name, found)| search(&d, &image, name) == *found)
}

// Plays sessions, each from boot on.
pub(crate) fn hold(rt: &impl Abort, sessions: &[Session]) {
    for (i, session) in sessions.iter().enumerate() {
        assert!(rt; holds(session), "session {i}");
    }
}
