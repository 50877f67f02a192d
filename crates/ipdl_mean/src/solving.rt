//! What the assignments of a network write, found in rounds.

ghost use Rattle.std.specs.Prelude.{◌≡◌, ℕ, ◌<◌, ◌≤◌, [], None, true, false, length, IfOk, OnOk};
ghost use Rattle.ipdl_mean.specs.Answers.{Solves};
ghost use Rattle.ipdl_mean.specs.Closed.{body_of, signature_in};
ghost use Rattle.ipdl_mean.specs.Running.{missing, written_in};
ghost use Rattle.ipdl_term.specs.Networks.{assignment_count, flat_round, flat_written, network, WrittenWithin, written_by};
ghost use Rattle.ipdl_term.specs.Protocols.{coins};
ghost use Rattle.ipdl_truth.specs.Tables.{tables_of};

use crate::net::Net;
use crate::reacting::{Around, Run, react};
use ipdl_base::{Bits, NoMemory};
use std::alloc::Global;

impl Net<'_> {
    // What the assignment of a number writes, from what is written.
    fn written_at<'r>(
        &'r self,
        number: u32,
        tape: &'r [bool],
        values: &[Option<Bits>],
        run: &mut Run<'r>,
    ) -> Result<Option<Bits>, NoMemory>
        requires within { number < assignment_count (body_of self.now) }
        requires long { coins (body_of self.now) ≤ length tape.now }
        requires env { run.old.env.items ≡ [] }
        ensures env { OnOk result (run.new.env.items ≡ []) }
        ensures value { IfOk result (λ value. value ≡ flat_round (tables_of (signature_in self.now))
            (network (body_of self.now)) tape.now (written_in values.now) number) }
    {
        let node = &self.nodes[number as usize];
        let rest = &tape[node.first_bit as usize..];
        run.writers = node.writers.as_slice();
        run.tape = &rest[..node.coins as usize];
        let around = Around {
            sig: self.sig,
            own: number,
            values,
        };
        react(&around, run, node.reaction)
    }

    // Lets each assignment that has not written do so if it can, from the left. The answer is whether
    // one did.
    fn round<'r>(
        &'r self,
        tape: &'r [bool],
        values: &mut [Option<Bits>],
        run: &mut Run<'r>,
    ) -> Result<bool, NoMemory>
        requires count { length values.old ≡ assignment_count (body_of self.now) }
        requires long { coins (body_of self.now) ≤ length tape.now }
        requires env { run.old.env.items ≡ [] }
        ensures env { OnOk result (run.new.env.items ≡ []) }
        ensures within { let all = flat_written (tables_of (signature_in self.now)) (network (body_of self.now)) tape.now in
            OnOk result (WrittenWithin (written_in values.old) all → WrittenWithin (written_in values.new) all) }
        ensures more { IfOk result (λ more. more ≡ true → missing values.new < missing values.old) }
        ensures done { IfOk result (λ more. more ≡ false → (number : ℕ) →
            written_in values.new number ≡ None →
            flat_round (tables_of (signature_in self.now)) (network (body_of self.now)) tape.now
            (written_in values.new) number ≡ None) }
    {
        let mut more = false;
        for number in 0..self.nodes.len() {
            if values[number].is_none() {
                let value = self.written_at(number as u32, tape, &*values, run)?;
                if value.is_some() {
                    values[number] = value;
                    more = true;
                }
            }
        }
        Ok(more)
    }

    // What all assignments write in the end.
    fn solution<'r>(
        &'r self,
        alloc: Global,
        tape: &'r [bool],
    ) -> Result<Vec<Option<Bits>>, NoMemory>
        requires { coins (body_of self.now) ≤ length tape.now }
        ensures { IfOk result (λ values. (number : ℕ) → written_in values.items number
            ≡ flat_written (tables_of (signature_in self.now)) (network (body_of self.now)) tape.now number) }
    {
        let mut values = Vec::from_elem(alloc, None, self.nodes.len())?;
        let mut run = Run {
            tape,
            writers: &[],
            env: Vec::new(alloc),
        };
        while self.round(tape, &mut values, &mut run)? {}
        Ok(values)
    }

    // What is written at the outputs.
    pub(crate) fn written(
        &self,
        alloc: Global,
        tape: &[bool],
    ) -> Result<Vec<Option<Bits>>, NoMemory>
        requires { coins (body_of self.now) ≤ length tape.now }
        ensures { IfOk result (λ values. Solves self.now tape.now values.items) }
    {
        let solution = self.solution(alloc, tape)?;
        let mut written = Vec::new(alloc);
        for writer in &self.outputs {
            written.push(at_writer(&solution, *writer))?;
        }
        Ok(written)
    }
}

// The value that a writer wrote, if there is one.
fn at_writer(values: &[Option<Bits>], writer: Option<u32>) -> Option<Bits>
    ensures { result ≡ written_by writer (written_in values.now) }
{
    let Some(number) = writer else {
        return None;
    };
    match values.get(number as usize) {
        Some(value) => *value,
        None => None,
    }
}
