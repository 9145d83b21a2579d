//! Certificates by their bytes.

// The goal of 2 by 2, which a plan of no moves leads to from itself.
pub(crate) const GOAL: [u8; 36] = [
    0x54, 0x49, 0x4c, 0x45, 0x43, 0x52, 0x54, 0x31, 2, 2, 0, 0, // the opening
    0, 1, 2, 3, 0, 1, 2, 3, // start and goal
    0, 0, 0, 0, 0, 0, 0, 0, // the cost and the plan
    0, 0, 0, 0, 0, 0, 0, 0, // the count of rows
];

// 1 0 over 2 3 is solved by one move to the left, and the start's row alone proves it: each
// successor is at the cost.
pub(crate) const ONE_MOVE: [u8; 45] = [
    0x54, 0x49, 0x4c, 0x45, 0x43, 0x52, 0x54, 0x31, 2, 2, 0, 0, // the opening
    1, 0, 2, 3, 0, 1, 2, 3, // start and goal
    1, 0, 0, 0, 1, 0, 0, 0, b'L', // the cost and the plan
    1, 0, 0, 0, 0, 0, 0, 0, // the count of rows
    1, 0, 2, 3, 0, 0, 0, 0, // the row
];

// The same board where moving tile 1 costs 5 and the others cost 1: the two boards that are reached
// for less prove it too.
pub(crate) const WITH_WEIGHTS: [u8; 64] = [
    0x54, 0x49, 0x4c, 0x45, 0x43, 0x52, 0x54, 0x31, 2, 2, 2, 5, 1, 1, 0, // the opening
    1, 0, 2, 3, 0, 1, 2, 3, // start and goal
    5, 0, 0, 0, 1, 0, 0, 0, b'L', // the cost and the plan
    3, 0, 0, 0, 0, 0, 0, 0, // the count of rows
    1, 0, 2, 3, 0, 0, 0, 0, // the rows, at 0,
    1, 3, 0, 2, 2, 0, 0, 0, // at 2,
    1, 3, 2, 0, 1, 0, 0, 0, // and at 1
];

// 1 3 over 0 2 is solved by the moves right, up, left, and the five boards that cost less prove it.
pub(crate) const THREE_MOVES: [u8; 79] = [
    0x54, 0x49, 0x4c, 0x45, 0x43, 0x52, 0x54, 0x31, 2, 2, 0, 0, // the opening
    1, 3, 0, 2, 0, 1, 2, 3, // start and goal
    3, 0, 0, 0, 3, 0, 0, 0, b'R', b'U', b'L', // the cost and the plan
    5, 0, 0, 0, 0, 0, 0, 0, // the count of rows
    0, 3, 1, 2, 1, 0, 0, 0, // the rows, at 1,
    1, 0, 2, 3, 2, 0, 0, 0, // at 2,
    1, 3, 0, 2, 0, 0, 0, 0, // at 0,
    1, 3, 2, 0, 1, 0, 0, 0, // at 1,
    3, 0, 1, 2, 2, 0, 0, 0, // and at 2
];

// The same without the two rows at 2.
pub(crate) const NO_ROWS_AT_2: [u8; 63] = [
    0x54, 0x49, 0x4c, 0x45, 0x43, 0x52, 0x54, 0x31, 2, 2, 0, 0, // the opening
    1, 3, 0, 2, 0, 1, 2, 3, // start and goal
    3, 0, 0, 0, 3, 0, 0, 0, b'R', b'U', b'L', // the cost and the plan
    3, 0, 0, 0, 0, 0, 0, 0, // the count of rows
    0, 3, 1, 2, 1, 0, 0, 0, // the rows
    1, 3, 0, 2, 0, 0, 0, 0, //
    1, 3, 2, 0, 1, 0, 0, 0, //
];

// The same without the row of 1 0 over 2 3 alone.
pub(crate) const ONE_ROW_LESS: [u8; 71] = [
    0x54, 0x49, 0x4c, 0x45, 0x43, 0x52, 0x54, 0x31, 2, 2, 0, 0, // the opening
    1, 3, 0, 2, 0, 1, 2, 3, // start and goal
    3, 0, 0, 0, 3, 0, 0, 0, b'R', b'U', b'L', // the cost and the plan
    4, 0, 0, 0, 0, 0, 0, 0, // the count of rows
    0, 3, 1, 2, 1, 0, 0, 0, // the rows
    1, 3, 0, 2, 0, 0, 0, 0, //
    1, 3, 2, 0, 1, 0, 0, 0, //
    3, 0, 1, 2, 2, 0, 0, 0, //
];

// The same with the groups 1 and 3, whose sums leave the start alone to be proved by a row.
pub(crate) const WITH_GROUPS: [u8; 51] = [
    0x54, 0x49, 0x4c, 0x45, 0x43, 0x52, 0x54, 0x31, 2, 2, 0, // the opening
    2, 1, 1, 1, 3, // the groups
    1, 3, 0, 2, 0, 1, 2, 3, // start and goal
    3, 0, 0, 0, 3, 0, 0, 0, b'R', b'U', b'L', // the cost and the plan
    1, 0, 0, 0, 0, 0, 0, 0, // the count of rows
    1, 3, 0, 2, 0, 0, 0, 0, // the row
];

// All four letters, face costs, and sides that differ. It proves nothing.
pub(crate) const FOUR_LETTERS: [u8; 64] = [
    0x54, 0x49, 0x4c, 0x45, 0x43, 0x52, 0x54, 0x31, 3, 2, 1, 0, // the opening
    1, 2, 0, 3, 4, 5, 0, 1, 2, 3, 4, 5, // start and goal
    0x01, 0x02, 0x03, 0, 4, 0, 0, 0, b'U', b'L', b'R', b'D', // the cost and the plan
    2, 0, 0, 0, 0, 0, 0, 0, // the count of rows
    0, 1, 2, 3, 4, 5, 0x02, 0x01, 0, 0, // the rows, at 258
    1, 2, 0, 3, 4, 5, 0xff, 0xff, 0x0f, 0, // and at 1,048,575
];

// One move to the left, in version 2.
pub(crate) const ONE_MOVE_TWO: [u8; 46] = [
    0x54, 0x49, 0x4c, 0x45, 0x43, 0x52, 0x54, 0x32, 0, // a plan is claimed
    2, 2, 0, 0, // the rest of the opening
    1, 0, 2, 3, 0, 1, 2, 3, // start and goal
    1, 0, 0, 0, 1, 0, 0, 0, b'L', // the cost and the plan
    1, 0, 0, 0, 0, 0, 0, 0, // the count of rows
    1, 0, 2, 3, 0, 0, 0, 0, // the row
];

// No plan from 1 0 over 2 3 costs less than 1, since it is not the goal.
pub(crate) const BOUND_OF_1: [u8; 41] = [
    0x54, 0x49, 0x4c, 0x45, 0x43, 0x52, 0x54, 0x32, 1, // a bound is claimed
    2, 2, 0, 0, // the rest of the opening
    1, 0, 2, 3, 0, 1, 2, 3, // start and goal
    1, 0, 0, 0, // the bound
    1, 0, 0, 0, 0, 0, 0, 0, // the count of rows
    1, 0, 2, 3, 0, 0, 0, 0, // the row
];

// No plan costs less than 0, which needs no row.
pub(crate) const BOUND_OF_0: [u8; 33] = [
    0x54, 0x49, 0x4c, 0x45, 0x43, 0x52, 0x54, 0x32, 1, // a bound is claimed
    2, 2, 0, 0, // the rest of the opening
    1, 0, 2, 3, 0, 1, 2, 3, // start and goal
    0, 0, 0, 0, // the bound
    0, 0, 0, 0, 0, 0, 0, 0, // the count of rows
];

// The greatest bound that can be stated.
pub(crate) const GREATEST: [u8; 33] = [
    0x54, 0x49, 0x4c, 0x45, 0x43, 0x52, 0x54, 0x32, 1, // a bound is claimed
    2, 2, 0, 0, // the rest of the opening
    1, 0, 2, 3, 0, 1, 2, 3, // start and goal
    0xe7, 0xff, 0x27, 0, // the bound, 2,621,415
    0, 0, 0, 0, 0, 0, 0, 0, // the count of rows
];
