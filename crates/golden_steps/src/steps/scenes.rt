//! The scenes.

use board::Move::{self, D, L, R, U};

/// The tiles of a board, the cost at which it is met, and the last move to it.
pub type Row = (&'static [u8], u32, Move);

/// How boards are divided between the two workers.
#[derive(Clone, Copy)]
pub enum Division {
    /// By the blank's cell.
    ByBlank,
    /// By the hash of the whole board.
    ByHash,
}

/// What is done in a scene.
#[derive(Clone, Copy, Debug)]
pub enum Act {
    /// The worker meets a board at a cost, by a last move.
    Meet(&'static [u8], u32, Move),
    /// The worker meets a board at a cost and expands it, then at 1 less, and so on down to 1.
    ExpandFrom(&'static [u8], u32),
    Expand,
    Settle,
    /// What is unsent for this worker is sent, by the lane to the other.
    Send(usize),
    Deliver,
    Draw,
    Announce,
    Grant,
    Rest,
    HaltByLimit,
    HaltByStart,
    /// The other worker sends a packet of these items.
    OtherSends(&'static [Row]),
    /// The lane to the other worker is filled with packets that the other has sealed.
    OtherFills,
    /// The other worker takes the first packet out of the lane to it.
    OtherTakes,
    /// The other worker announces a cost.
    OtherAnnounces(u32),
}

/// A worker, what it begins with, and what is done then.
#[derive(Clone, Copy)]
pub struct Scene {
    pub title: &'static str,
    /// How many rows and columns the boards have.
    pub side: u8,
    /// The groups of tiles by whose tables the search is led.
    pub groups: &'static [&'static [u8]],
    pub division: Division,
    /// The number of the worker that is seen.
    pub me: usize,
    /// The limit on expansions.
    pub limit: u64,
    /// What the worker's purse has.
    pub purse: u64,
    /// What the other's purse has.
    pub other: u64,
    pub acts: &'static [Act],
}

// The table of all tiles of 2 by 2: a board's sum is the cost of its least plan.
const ALL_TILES: &[&[u8]] = &[&[1, 2, 3]];

// What most scenes begin with: boards of 2 by 2, divided by the blank's cell.
const FIRST: Scene = Scene {
    title: "",
    side: 2,
    groups: ALL_TILES,
    division: Division::ByBlank,
    me: 0,
    limit: 300,
    purse: 1,
    other: 0,
    acts: &[],
};

// The same for the other worker.
const SECOND: Scene = Scene { me: 1, ..FIRST };

/// All scenes.
pub static SCENES: [Scene; 22] = [
    Scene {
        title: "Boards are expanded",
        acts: &[
            Act::Expand,
            Act::Meet(&[3, 2, 1, 0], 0, U),
            Act::Expand,
            Act::Grant,
            Act::Expand,
            Act::Expand,
            Act::Expand,
            Act::OtherAnnounces(6),
            Act::Draw,
            Act::Meet(&[1, 0, 2, 3], 5, D),
            Act::Expand,
            Act::Meet(&[1, 0, 2, 3], 4, D),
            Act::Expand,
            Act::Expand,
        ],
        ..SECOND
    },
    Scene {
        title: "The goal is never expanded",
        acts: &[Act::Meet(&[0, 1, 2, 3], 3, U), Act::Grant, Act::Expand],
        ..FIRST
    },
    Scene {
        title: "A full packet, and allowance",
        side: 3,
        groups: &[],
        limit: 9,
        acts: &[
            Act::Meet(&[1, 2, 3, 4, 0, 5, 6, 7, 8], 9, U),
            Act::Grant,
            Act::ExpandFrom(&[1, 2, 3, 4, 0, 5, 6, 7, 8], 8),
            Act::Expand,
            Act::Meet(&[1, 2, 3, 4, 0, 5, 6, 7, 8], 0, U),
            Act::Expand,
            Act::Draw,
            Act::Send(1),
            Act::Expand,
        ],
        ..FIRST
    },
    Scene {
        title: "A full packet, and no allowance",
        side: 3,
        groups: &[],
        limit: 8,
        acts: &[
            Act::Meet(&[1, 2, 3, 4, 0, 5, 6, 7, 8], 9, U),
            Act::Grant,
            Act::ExpandFrom(&[1, 2, 3, 4, 0, 5, 6, 7, 8], 8),
            Act::Expand,
            Act::Meet(&[1, 2, 3, 4, 0, 5, 6, 7, 8], 0, U),
            Act::Expand,
        ],
        ..FIRST
    },
    Scene {
        title: "Boards of 3 by 3, divided by their hashes",
        side: 3,
        groups: &[],
        division: Division::ByHash,
        acts: &[
            Act::Meet(&[3, 1, 2, 4, 0, 5, 6, 7, 8], 4, U),
            Act::Grant,
            Act::Expand,
        ],
        ..FIRST
    },
    Scene {
        title: "Items are settled",
        other: 64,
        acts: &[
            Act::Settle,
            Act::OtherSends(&[(&[3, 2, 1, 0], 5, D), (&[1, 0, 2, 3], 3, L)]),
            Act::Settle,
            Act::Deliver,
            Act::Settle,
            Act::Settle,
            Act::Settle,
            Act::OtherSends(&[(&[3, 2, 1, 0], 6, U)]),
            Act::Deliver,
            Act::Settle,
            Act::OtherSends(&[(&[3, 2, 1, 0], 4, U)]),
            Act::Deliver,
            Act::Settle,
            Act::Grant,
            Act::Expand,
            Act::OtherSends(&[(&[1, 0, 2, 3], 2, R)]),
            Act::Deliver,
            Act::Settle,
        ],
        ..SECOND
    },
    Scene {
        title: "A full lane",
        other: 64,
        acts: &[
            Act::OtherFills,
            Act::Send(1),
            Act::Meet(&[0, 3, 1, 2], 2, U),
            Act::Grant,
            Act::Expand,
            Act::Send(1),
            Act::Draw,
            Act::Send(1),
            Act::Send(0),
            Act::OtherTakes,
            Act::Send(1),
            Act::Send(1),
        ],
        ..FIRST
    },
    Scene {
        title: "A purse of 2",
        purse: 2,
        acts: &[
            Act::Meet(&[0, 3, 1, 2], 2, U),
            Act::Grant,
            Act::Expand,
            Act::Send(1),
            Act::Expand,
            Act::Send(1),
        ],
        ..FIRST
    },
    Scene {
        title: "Packets are delivered",
        other: 2,
        acts: &[
            Act::Deliver,
            Act::OtherSends(&[(&[3, 2, 1, 0], 5, D)]),
            Act::OtherSends(&[(&[1, 0, 2, 3], 3, L)]),
            Act::Deliver,
            Act::Deliver,
            Act::Settle,
            Act::Deliver,
            Act::Deliver,
            Act::Settle,
            Act::Deliver,
        ],
        ..SECOND
    },
    Scene {
        title: "The greatest purse",
        purse: u64::MAX - 1,
        other: 1,
        acts: &[
            Act::OtherSends(&[(&[3, 2, 1, 0], 5, D)]),
            Act::Deliver,
            Act::Deliver,
            Act::Settle,
            Act::Deliver,
            Act::Draw,
        ],
        ..SECOND
    },
    Scene {
        title: "Credit is drawn",
        purse: 1 << 63,
        acts: &[
            Act::OtherAnnounces(9),
            Act::Draw,
            Act::OtherAnnounces(7),
            Act::Draw,
            Act::HaltByStart,
            Act::Draw,
        ],
        ..FIRST
    },
    Scene {
        title: "An empty purse, and the greatest credit",
        purse: 0,
        other: (1 << 63) + 1,
        acts: &[Act::Draw, Act::HaltByStart, Act::Draw],
        ..FIRST
    },
    Scene {
        title: "The goal is announced",
        acts: &[
            Act::Announce,
            Act::Meet(&[0, 1, 2, 3], 5, U),
            Act::Announce,
            Act::Announce,
            Act::OtherAnnounces(3),
            Act::Meet(&[0, 1, 2, 3], 4, U),
            Act::Announce,
            Act::Meet(&[0, 1, 2, 3], 2, D),
            Act::Announce,
            Act::Meet(&[0, 1, 2, 3], 1, D),
            Act::HaltByStart,
            Act::Announce,
        ],
        ..FIRST
    },
    Scene {
        title: "Another worker's goal",
        acts: &[Act::Meet(&[0, 1, 2, 3], 3, U), Act::Announce],
        ..SECOND
    },
    Scene {
        title: "Another worker's goal, by its hash",
        division: Division::ByHash,
        acts: &[
            Act::Meet(&[0, 1, 2, 3], 3, U),
            Act::Announce,
            Act::Meet(&[3, 2, 1, 0], 0, U),
            Act::Grant,
            Act::Expand,
        ],
        ..FIRST
    },
    Scene {
        title: "The worker's own goal, by its hash",
        division: Division::ByHash,
        acts: &[Act::Meet(&[0, 1, 2, 3], 3, U), Act::Announce],
        ..SECOND
    },
    Scene {
        title: "Expansions are granted",
        acts: &[
            Act::Grant,
            Act::Meet(&[1, 3, 0, 2], 3, L),
            Act::Grant,
            Act::Grant,
            Act::OtherAnnounces(6),
            Act::Grant,
            Act::Expand,
            Act::HaltByLimit,
            Act::HaltByStart,
            Act::Grant,
        ],
        ..FIRST
    },
    Scene {
        title: "A limit of 0",
        limit: 0,
        acts: &[
            Act::Grant,
            Act::Meet(&[1, 3, 0, 2], 3, L),
            Act::Grant,
            Act::HaltByLimit,
            Act::Grant,
        ],
        ..FIRST
    },
    Scene {
        title: "A limit of 1",
        limit: 1,
        acts: &[
            Act::HaltByLimit,
            Act::Meet(&[1, 3, 0, 2], 3, L),
            Act::Grant,
            Act::Grant,
            Act::HaltByLimit,
            Act::Expand,
            Act::Grant,
            Act::Expand,
            Act::HaltByLimit,
            Act::HaltByLimit,
            Act::HaltByStart,
        ],
        ..FIRST
    },
    Scene {
        title: "The worker rests",
        other: 2,
        acts: &[
            Act::OtherSends(&[(&[0, 1, 2, 3], 4, D)]),
            Act::Deliver,
            Act::Rest,
            Act::Settle,
            Act::Rest,
            Act::Announce,
            Act::Meet(&[1, 3, 0, 2], 0, L),
            Act::Rest,
            Act::Grant,
            Act::Expand,
            Act::Rest,
            Act::Send(1),
            Act::Rest,
            Act::Meet(&[0, 1, 2, 3], 1, U),
            Act::Rest,
            Act::HaltByStart,
            Act::Rest,
        ],
        ..FIRST
    },
    Scene {
        title: "The run is quiet",
        acts: &[
            Act::Rest,
            Act::Rest,
            Act::Draw,
            Act::Announce,
            Act::Grant,
            Act::HaltByLimit,
            Act::HaltByStart,
            Act::Expand,
            Act::Settle,
            Act::Send(1),
            Act::Deliver,
        ],
        ..FIRST
    },
    Scene {
        title: "A floor at the best cost",
        other: 1,
        acts: &[
            Act::OtherAnnounces(6),
            Act::Meet(&[1, 3, 0, 2], 3, L),
            Act::Rest,
            Act::Meet(&[1, 3, 0, 2], 2, L),
            Act::Rest,
            Act::Draw,
        ],
        ..FIRST
    },
];
