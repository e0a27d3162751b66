// Images with links out of order, and what a walk past them answers. A begins at 1618: its link is 1620, its count byte 1622, its
// first parameter cell 1626, and it ends at 1630. The head of FORTH that it joins is 272, and EMIT's too.
use super::moves::Move::*;
use super::sessions::Answer::*;
use super::sessions::{BOOT, Left, Session, hold};

const ONE: Left = Left {
    dp: 1630,
    newest: 1620,
    ..BOOT
};

const TWO: Left = Left {
    dp: 1642,
    newest: 1632,
    ..BOOT
};

static THREADS: [Session; 8] = [
    // A link to itself; who has found the word looks no further, and other threads are whole.
    Session {
        moves: &[Create("A"), Poke(1620, 1620)],
        refused: 0,
        left: ONE,
        names: &[("A", At(1620)), ("EMIT", Broken), ("DUP", At(282))],
    },
    // One below 258.
    Session {
        moves: &[Create("A"), Poke(1620, 257)],
        refused: 0,
        left: ONE,
        names: &[("A", At(1620)), ("EMIT", Broken)],
    },
    // One that ends the thread.
    Session {
        moves: &[Create("A"), Poke(1620, 0)],
        refused: 0,
        left: ONE,
        names: &[("A", At(1620)), ("EMIT", Missing)],
    },
    // One to an entry in order.
    Session {
        moves: &[Create("A"), Poke(1620, 258)],
        refused: 0,
        left: ONE,
        names: &[("FORTH", At(258)), ("EMIT", Missing)],
    },
    // A head at DP.
    Session {
        moves: &[Poke(272, 1618)],
        refused: 0,
        left: BOOT,
        names: &[("EMIT", Broken), ("DUP", At(282))],
    },
    // A name that ends behind DP: the count byte says 31.
    Session {
        moves: &[Create("A"), Poke(1622, 49567), Forget("A")],
        refused: 6,
        left: ONE,
        names: &[("A", Broken)],
    },
    Session {
        moves: &[Create("A"), Poke(1620, 1620), Forget("EMIT")],
        refused: 6,
        left: ONE,
        names: &[("A", At(1620))],
    },
    Session {
        moves: &[Create("A"), Poke(1620, 1620), Forget("A")],
        refused: 6,
        left: ONE,
        names: &[("A", At(1620))],
    },
];

static WALKS: [Session; 12] = [
    // A walk looks no further than the first entry below the word.
    Session {
        moves: &[Create("A"), Create("E"), Poke(1620, 1620), Forget("E")],
        refused: 0,
        left: ONE,
        names: &[("A", At(1620)), ("E", Broken)],
    },
    Session {
        moves: &[Create("A"), Create("E"), Poke(1632, 1632), Forget("A")],
        refused: 6,
        left: TWO,
        names: &[("E", At(1632)), ("A", Broken)],
    },
    // Another thread than the word's.
    Session {
        moves: &[Create("A"), Create("B"), Poke(1632, 1632), Forget("A")],
        refused: 6,
        left: TWO,
        names: &[("A", At(1620)), ("B", At(1632))],
    },
    // The first entry below the word is asked too.
    Session {
        moves: &[Create("A"), Create("B"), Poke(1632, 257), Forget("A")],
        refused: 6,
        left: TWO,
        names: &[("A", At(1620)), ("B", At(1632))],
    },
    // A thread that ends has a head of 0 then; FORTH and B are of one thread.
    Session {
        moves: &[Create("A"), Create("B"), Poke(1632, 0), Forget("A")],
        refused: 0,
        left: BOOT,
        names: &[("B", Missing), ("FORTH", Missing), ("DUP", At(282))],
    },
    // A head of a vocabulary that stays, and one of a vocabulary that goes.
    Session {
        moves: &[Vocabulary("V"), Create("A"), Poke(1628, 1650), Forget("A")],
        refused: 6,
        left: Left {
            dp: 1650,
            newest: 1640,
            voclink: 1636,
            ..BOOT
        },
        names: &[("A", At(1640))],
    },
    Session {
        moves: &[Create("A"), Vocabulary("V"), Poke(1640, 9), Forget("A")],
        refused: 0,
        left: BOOT,
        names: &[("A", Missing), ("V", Missing)],
    },
    // CURRENT names the word, and lies above it.
    Session {
        moves: &[
            Create("A"),
            Vocabulary("V"),
            Seek(1640),
            Definitions,
            Poke(1642, 1620),
            Forget("A"),
        ],
        refused: 6,
        left: Left {
            dp: 1650,
            newest: 1632,
            voclink: 1648,
            context: 1640,
            current: 1640,
            ..BOOT
        },
        names: &[("A", At(1620))],
    },
    // The first parameter cell: below data space, above HERE, and between.
    Session {
        moves: &[Create("A"), Poke(1626, 34047), Forget("A")],
        refused: 22,
        left: ONE,
        names: &[("A", At(1620))],
    },
    Session {
        moves: &[Create("A"), Poke(1626, 34049), Forget("A")],
        refused: 22,
        left: ONE,
        names: &[("A", At(1620))],
    },
    Session {
        moves: &[Create("A"), Allot(10), Poke(1626, 34050), Forget("A")],
        refused: 0,
        left: Left {
            here: 34050,
            ..BOOT
        },
        names: &[("A", Missing)],
    },
    // It is asked before the fence.
    Session {
        moves: &[Poke(290, 0), Forget("DUP")],
        refused: 22,
        left: BOOT,
        names: &[("DUP", At(282))],
    },
];

// V begins at 1618: its heads are 1628 to 1635, its link is 1636, and it ends at 1638.
static CHAINS: [Session; 5] = [
    Session {
        moves: &[Vocabulary("V"), Create("A"), Poke(1636, 1636), Forget("A")],
        refused: 6,
        left: Left {
            dp: 1650,
            newest: 1640,
            voclink: 1636,
            ..BOOT
        },
        names: &[("A", At(1640))],
    },
    Session {
        moves: &[Vocabulary("V"), Poke(1636, 265), Forget("V")],
        refused: 6,
        left: Left {
            dp: 1638,
            newest: 1620,
            voclink: 1636,
            ..BOOT
        },
        names: &[("V", At(1620))],
    },
    // FORTH is off the chain: its heads stay, and nothing is the newest.
    Session {
        moves: &[Vocabulary("V"), Poke(1636, 0), Forget("V")],
        refused: 0,
        left: Left {
            newest: 0,
            voclink: 0,
            ..BOOT
        },
        names: &[("V", Broken), ("DUP", At(282))],
    },
    Session {
        moves: &[Vocabulary("V"), Poke(1636, 1636), Seek(270)],
        refused: 6,
        left: Left {
            dp: 1638,
            newest: 1620,
            voclink: 1636,
            ..BOOT
        },
        names: &[],
    },
    Session {
        moves: &[Vocabulary("V"), Poke(1636, 0), Seek(270)],
        refused: 22,
        left: Left {
            dp: 1638,
            newest: 1620,
            voclink: 1636,
            ..BOOT
        },
        names: &[],
    },
];

#[test]
fn broken_threads_refuse_a_search(rt: HostRuntime) {
    hold(&rt, &THREADS);
}

#[test]
fn broken_walks_refuse_to_forget(rt: HostRuntime) {
    hold(&rt, &WALKS);
}

#[test]
fn broken_chains_refuse(rt: HostRuntime) {
    hold(&rt, &CHAINS);
}
