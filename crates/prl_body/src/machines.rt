//! Machines: the registers of a body between its steps.

ghost use Rattle.std.specs.Prelude.{◌≡◌, ◌<◌, ◌+◌, ◌^◌, length, map, IfOk};
ghost use Rattle.prl_base.specs.Values.{type_of};
ghost use Rattle.prl_body.specs.Bodies.{body_step, first_values, input_types, output_types, register_types};

use crate::bodies::{Body, CheckedBody};
use crate::values::value_of;
use prl_base::Value;
use std::alloc::{AllocError, Global};
use std::marker::Model;
use std::mem;

/// The registers of a body and the number of its steps. Contracts see these two.
pub struct Machine {
    registers: Vec<Value>,
    /// Where a step builds the next registers: as many values as there are registers.
    next: Vec<Value>,
    steps: u64,
}

impl Model for Machine {
    ghost use Rattle.std.specs.Prelude.{◌≡◌, length};
    ghost use Rattle.prl_body.specs.Machines.{MachineState};

    ghost Value = { MachineState };

    ghost view = { λ m. record { registers = m.registers.items; steps = m.steps } };

    ghost invariant = { λ m. length m.next.items ≡ length m.registers.items };
}

/// The registers' first values.
fn first_values(alloc: Global, body: &CheckedBody) -> Result<Vec<Value>, AllocError>
    ensures { IfOk result (λ v. v.items ≡ first_values body.now) }
{
    let registers = body.registers.as_slice();
    let mut values = Vec::with_capacity(alloc, registers.len())?;
    for register in registers {
        values.push(register.first)?;
    }
    Ok(values)
}

/// Writes the value of each output.
fn write_outputs(body: &CheckedBody, inputs: &[Value], registers: &[Value], outputs: &mut [Value])
    requires { length outputs.old ≡ length body.now.values }
    ensures { outputs.new ≡ (body_step body.now inputs.now registers.now).outputs }
{
    for (k, code) in body.values.as_slice().iter().enumerate() {
        outputs[k] = value_of(code, inputs, registers);
    }
}

/// Writes the next value of each register.
fn write_registers(body: &CheckedBody, inputs: &[Value], registers: &[Value], next: &mut [Value])
    requires { length next.old ≡ length body.now.registers }
    ensures { next.new ≡ (body_step body.now inputs.now registers.now).registers }
{
    for (k, register) in body.registers.as_slice().iter().enumerate() {
        next[k] = value_of(&register.next, inputs, registers);
    }
}

impl Machine {
    /// The machine of the body before its first step.
    pub fn new(alloc: Global, body: &Body) -> Result<Machine, AllocError>
        ensures { IfOk result (λ m. m ≡ record { registers = first_values body.now; steps = 0 }) }
    {
        let registers = first_values(alloc, body.parts())?;
        let next = Vec::from_slice(alloc, registers.as_slice())?;
        Ok(Machine {
            registers,
            next,
            steps: 0,
        })
    }

    /// One step of the body: from the machine's registers and these inputs to the outputs, in the order of the
    /// import, and the next registers. Takes no memory.
    pub fn step(&mut self, body: &Body, inputs: &[Value], outputs: &mut [Value])
        requires registers { map type_of self.old.registers ≡ register_types body.now }
        requires inputs { map type_of inputs.now ≡ input_types body.now }
        requires outputs { length outputs.old ≡ length (output_types body.now) }
        requires steps { self.old.steps < 2 ^ 63 }
        ensures outputs { outputs.new ≡ (body_step body.now inputs.now self.old.registers).outputs }
        ensures machine { self.new ≡ record { registers = (body_step body.now inputs.now self.old.registers).registers; steps = self.old.steps + 1 } }
        ensures output_types { map type_of outputs.new ≡ output_types body.now }
        ensures register_types { map type_of self.new.registers ≡ register_types body.now }
    {
        let parts = body.parts();
        write_outputs(parts, inputs, self.registers.as_slice(), outputs);
        write_registers(parts, inputs, self.registers.as_slice(), &mut self.next);
        mem::swap(&mut self.registers, &mut self.next);
        self.steps += 1;
    }
}

impl Drop for Machine {
    fn drop(self) {
        let Machine {
            registers,
            next,
            steps: _,
        } = self;
        drop(registers);
        drop(next);
    }
}
