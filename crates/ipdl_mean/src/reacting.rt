//! What a reaction gives, from what is written around it.

ghost use Rattle.std.specs.Prelude.{◌≡◌, ◌↔◌, ◌++◌, ◌∷◌, [], ℕ, ◌<◌, ◌≤◌, List, Option, true, drop, length, map, reverse, IfOk, OnOk, IsTrue};
ghost use Rattle.ipdl_mean.specs.Readings.{channels_read};
ghost use Rattle.ipdl_mean.specs.Running.{Ends, HasNarrowFlips, written_in};
ghost use Rattle.ipdl_term.specs.Interpretations.{evaluation};
ghost use Rattle.ipdl_term.specs.Networks.{Writers, value_of};
ghost use Rattle.ipdl_term.specs.Reactions.{first_bits, reaction_outcome, with_tape};
ghost use Rattle.ipdl_term.specs.Views.{expression_of, reaction_of};
ghost use Rattle.ipdl_truth.specs.Tables.{tables_of};
ghost use Rattle.ipdl_typing.specs.Signatures.{signature_of};

use crate::readings::behind;
use ipdl_base::{Bits, NoMemory};
use ipdl_sig::Sig;
use ipdl_term::{Expr, React};
use ipdl_truth::value_of;

// What stays the same while a reaction runs.
#[derive(Clone, Copy)]
pub(crate) struct Around<'a> {
    pub sig: &'a Sig,
    // The number of its own assignment, which it does not read.
    pub own: u32,
    // What the assignments have written.
    pub values: &'a [Option<Bits>],
}

// What a run of a reaction uses up, and the values of the binders around, from the outermost.
#[derive(Drop)]
pub(crate) struct Run<'a> {
    pub tape: &'a [bool],
    pub writers: &'a [Option<u32>],
    pub env: Vec<Bits>,
}

// The one bit.
#[tactic(auto, unfolding(ipdl_base::specs::Bits::bits_of))]
fn one_bit(bit: bool) -> Bits
    ensures { result ≡ bit ∷ [] }
{
    let value = if bit { 1 } else { 0 };
    Bits::new(1, value).unwrap()
}

// The bits and one more.
fn with_bit(bits: Bits, bit: bool) -> Bits
    requires { length bits < 128 }
    ensures { result ≡ bits ++ bit ∷ [] }
{
    bits.cat(one_bit(bit)).unwrap()
}

// A part of the tape as a value.
#[tactic(auto, unfolding(ipdl_base::specs::Bits::bits_of))]
fn value_of_bits(tape: &[bool]) -> Bits
    requires { length tape.now ≤ 128 }
    ensures { result ≡ tape.now }
{
    let mut value = Bits::new(0, 0).unwrap();
    for bit in tape {
        value = with_bit(value, *bit);
    }
    value
}

impl Around<'_> {
    // What the assignment of a writer has written, if it is not the reaction's own one.
    fn written(&self, writer: Option<u32>) -> Option<Bits>
        ensures { result ≡ value_of self.now.own writer (written_in self.now.values.now) }
    {
        let Some(number) = writer else {
            return None;
        };
        if number == self.own {
            return None;
        }
        match self.values.get(number as usize) {
            Some(value) => *value,
            None => None,
        }
    }
}

impl Run<'_> {
    // The next bits of the tape, if there are so many.
    #[inline(never)]
    fn flip(&mut self, width: u8) -> Option<Bits>
        requires { width ≤ 128 }
        ensures env { self.new.env.items ≡ self.old.env.items }
        ensures ends { (behind : List (Option ℕ)) → self.old.writers.now ≡ behind →
            Ends result self.new.tape.now self.new.writers.now behind
            (first_bits width self.old.tape.now) }
    {
        let count = width as usize;
        if count > self.tape.len() {
            return None;
        }
        let value = value_of_bits(&self.tape[..count]);
        self.tape = &self.tape[count..];
        Some(value)
    }

    // The value of the next channel that is read, if it is written.
    #[inline(never)]
    fn read(&mut self, around: &Around) -> Option<Bits>
        ensures env { self.new.env.items ≡ self.old.env.items }
        ensures ends { (writer : Option ℕ) (behind : List (Option ℕ)) →
            self.old.writers.now ≡ writer ∷ behind →
            Ends result self.new.tape.now self.new.writers.now behind (with_tape
            (value_of around.now.own writer (written_in around.now.values.now)) self.old.tape.now) }
    {
        let (writer, behind) = self.writers.split_first()?;
        self.writers = behind;
        around.written(*writer)
    }

    // Whether the test is one bit that is set.
    #[inline(never)]
    fn is_set(&self, around: &Around, test: &Expr) -> bool
        ensures { IsTrue result ↔ (evaluation (tables_of (signature_of around.now.sig.now))
            (reverse self.now.env.items) (expression_of test.now) ≡ true ∷ []) }
    {
        value_of(around.sig, &self.env, test) == one_bit(true)
    }

    // Passes over the writers of a reaction.
    #[inline(never)]
    fn pass(&mut self, reaction: &React)
        ensures env { self.new.env.items ≡ self.old.env.items }
        ensures tape { self.new.tape.now ≡ self.old.tape.now }
        ensures writers { self.new.writers.now
            ≡ drop (length (channels_read (reaction_of reaction.now))) self.old.writers.now }
    {
        self.writers = behind(reaction, self.writers);
    }
}

// Runs a reaction. The answer is its value, and none where it is stuck.
pub(crate) fn react(
    around: &Around,
    run: &mut Run,
    reaction: &React,
) -> Result<Option<Bits>, NoMemory>
    requires { HasNarrowFlips (reaction_of reaction.now) }
    ensures env { OnOk result (run.new.env.items ≡ run.old.env.items) }
    ensures ends { IfOk result (λ value. (writers : Writers) (behind : List (Option ℕ)) →
        run.old.writers.now ≡ map writers (channels_read (reaction_of reaction.now)) ++ behind →
        Ends value run.new.tape.now run.new.writers.now behind
        (reaction_outcome (tables_of (signature_of around.now.sig.now)) (reaction_of reaction.now)
        (reverse run.old.env.items)
        (λ c. value_of around.now.own (writers c) (written_in around.now.values.now))
        run.old.tape.now)) }
{
    match reaction {
        React::Ret(e) => Ok(Some(value_of(around.sig, &run.env, e))),
        React::Flip(width) => Ok(run.flip(*width)),
        React::Read(_) => Ok(run.read(around)),
        React::Cond(test, r, s) => {
            if run.is_set(around, test) {
                let value = react(around, run, r)?;
                run.pass(s);
                return Ok(value);
            }
            run.pass(r);
            react(around, run, s)
        }
        React::Bind(_, r, s) => {
            let Some(first) = react(around, run, r)? else {
                return Ok(None);
            };
            run.env.push(first)?;
            let value = react(around, run, s)?;
            run.env.pop();
            Ok(value)
        }
    }
}
