//! A board and its seats, for threads of one's own; and what a closed one shows.

pub use prl_board::{
    Board, ClockSeat, Closed, Gate, Got, Half, Lone, Place, Release, Steps, TaskSeat, Ticked,
    Wrote, close, gather, open_board,
};
pub use prl_replay::{ended_boards_show_flows, shown_flows};
