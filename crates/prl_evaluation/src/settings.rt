//! What is evaluated.

use prl_base::{Clock, FlowNo};
use prl_body::Bodies;
use prl_flow::{Flat, Sensors};

/// A flat program, the clocks of its flows, their order of causality, bodies and rows, and the
/// date before which its flows are wanted.
#[derive(Clone, Copy)]
pub(crate) struct Setting<'a> {
    pub(crate) flat: &'a Flat,
    pub(crate) clocks: &'a [Clock],
    pub(crate) order: &'a [FlowNo],
    pub(crate) bodies: &'a Bodies,
    pub(crate) sensors: &'a Sensors,
    pub(crate) until: u64,
}
