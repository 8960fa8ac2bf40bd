//! The page of a program: one file of HTML with its text, its plan as a picture, what one processor does, its ages, and, where
//! rows are given, what the flows are. It needs no network and no script. Each part is what one of the programs of this repository writes,
//! and the page says by which words. It stands on their calls, and on `prl_io`.
#![tactic(auto)]

mod calls;
mod html;
mod names;
mod pages;
mod parts;
mod words;

pub use pages::page;
