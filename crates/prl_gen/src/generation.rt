//! The three texts of a generated program.

ghost use Rattle.std.specs.Prelude.{◌≡◌, ◌≤◌, IfOk};
ghost use Rattle.prl_gen.specs.Texts.{generated_bodies, generated_program, generated_sensors};

use crate::bodies::push_bodies;
use crate::draws::Draws;
use crate::lanes::{draw_factors, draw_periods};
use crate::programs::push_program;
use crate::sensors::push_sensors;
use std::alloc::{AllocError, Global};

/// The most lanes that a generated program has.
pub const MAX_SIZE: u32 = 20;

/// A program, the bodies of its imported nodes and the rows of its sensors.
#[derive(Drop)]
pub struct Texts {
    /// The program, in its printed form.
    pub program: Vec<u8>,
    /// The bodies, one a line.
    pub bodies: Vec<u8>,
    /// The rows of the sensors below the date `UNTIL`, lane after lane.
    pub sensors: Vec<u8>,
}

/// The program of 1 to `MAX_SIZE` lanes that is drawn from a number, with its bodies and its rows.
/// The three texts are those of the definition, which gives the program line by line in its printed
/// form; only memory can be wanting.
pub fn generate(alloc: Global, seed: u64, size: u32) -> Result<Texts, AllocError>
    requires some { 1 ≤ size }
    requires few { size ≤ MAX_SIZE }
    ensures program { IfOk result (λ texts. texts.program.items ≡ generated_program seed size) }
    ensures bodies { IfOk result (λ texts. texts.bodies.items ≡ generated_bodies seed size) }
    ensures sensors { IfOk result (λ texts. texts.sensors.items ≡ generated_sensors seed size) }
{
    let mut draws = Draws { state: seed };
    let periods = draw_periods(alloc, &mut draws, u64::from(size))?;
    let factors = draw_factors(alloc, &mut draws, u64::from(size))?;
    let mut program = Vec::new(alloc);
    push_program(&mut program, &periods)?;
    let mut bodies = Vec::new(alloc);
    push_bodies(&mut bodies, &factors)?;
    let mut sensors = Vec::new(alloc);
    push_sensors(&mut sensors, &mut draws, &periods)?;
    Ok(Texts {
        program,
        bodies,
        sensors,
    })
}
