//! Why a source, or what is asked of it, is refused, and why a call stopped.

ghost use Rattle.std.specs.Prelude.{◌≡◌, List, Some, option_map};
ghost use Rattle.ipdl_script.specs.Views.{side_of};
ghost use Rattle.ipdl_typing.specs.Answers.{TellsFirstFailure};
ghost use Rattle.ipdl_typing.specs.Checks.{Failure, first_failure};
ghost use Rattle.ipdl_top.specs.Lines.{at_item, at_theorem, limit_line};
ghost use Rattle.ipdl_top.specs.Refusals.{ill, greatest_in_step, over_at_step, ends_differ};
ghost use Rattle.ipdl_top.specs.Statuses.{over, refusal_of, kind_status};
ghost use Rattle.ipdl_top.specs.Told.{told, tree_stop, document_stop, IsStop};
ghost use Rattle.ipdl_top.specs.declared.refusal.Stop.TheVariants.{Memory};

use crate::status::Status;
use ipdl_base::{Limit, Name, NoMemory, Path, Pos};
use ipdl_forms::{DocFault, FormCause};
use ipdl_script::{GREATEST_DEPTH, Side};
use ipdl_tree::{SpellCause, TreeFault};
use ipdl_typing::{Ill, TypeFault};
use std::alloc::Global;

// Where a limit is passed. The first step of a side has the number 1.
#[derive(Drop)]
pub(crate) enum Where {
    Byte(Pos),
    Item(Name),
    Theorem(Name),
    Step(Name, Side, u32),
}

// Why something is refused.
#[derive(Drop)]
pub(crate) enum Refusal {
    // The bytes spell no tree.
    Spell(Pos, SpellCause),
    // The tree is not of the form that is asked.
    Form(Pos, FormCause),
    // A count passes this number.
    Limit(Limit, u64, Where),
    // The item is ill typed.
    Ill(Name, Ill),
    // The step of the theorem, whose rule is told so, is wrong for this cause.
    WrongStep(Name, Side, u32, String, Vec<u8>),
    // The two ends of the theorem differ first at this place.
    Ends(Name, Path),
    // The item that a command names is refused, with this line.
    Item(Vec<u8>),
}

impl Refusal {
    // The status that says of what kind it is.
    pub(crate) fn status(&self) -> Status
        ensures { result ≡ kind_status (told self.now).kind }
    {
        match self {
            Refusal::Spell(_, _) | Refusal::Form(_, _) | Refusal::Ill(_, _) | Refusal::Item(_) =>
                Status::BadSource,
            Refusal::Limit(_, _, _) => Status::OverLimit,
            Refusal::WrongStep(_, _, _, _, _) | Refusal::Ends(_, _) => Status::WrongStep,
        }
    }
}

// Why a call stopped before its end.
#[derive(Drop)]
pub(crate) enum Stop {
    Refused(Refusal),
    Memory,
}

impl From<NoMemory> for Stop {
    ghost from_gives = { λ _ stop. stop ≡ Memory };

    fn from(_error: NoMemory) -> Stop {
        Stop::Memory
    }
}

// Where a call stops at a fault of a tree.
pub(crate) fn tree_stop(fault: TreeFault) -> Stop
    ensures { result ≡ tree_stop fault }
{
    match fault {
        TreeFault::Spell { pos, cause } => Stop::Refused(Refusal::Spell(pos, cause)),
        TreeFault::Deep { pos } => Stop::Refused(Refusal::Limit(
            Limit::Depth,
            Limit::Depth.number(),
            Where::Byte(pos),
        )),
        TreeFault::Memory => Stop::Memory,
    }
}

// Where a call stops at a fault of a document.
pub(crate) fn document_stop(fault: DocFault) -> Stop
    ensures { result ≡ document_stop fault }
{
    match fault {
        DocFault::Form { pos, cause } => Stop::Refused(Refusal::Form(pos, cause)),
        DocFault::Over { limit, pos } => {
            Stop::Refused(Refusal::Limit(limit, limit.number(), Where::Byte(pos)))
        }
        DocFault::Memory => Stop::Memory,
    }
}

// The greatest count of what a step gives.
fn greatest_in_step(limit: Limit) -> u64
    ensures { result ≡ greatest_in_step limit }
{
    match limit {
        Limit::Depth => GREATEST_DEPTH,
        _ => limit.number(),
    }
}

// ---- with the name of what is refused

// The item passes this number.
pub(crate) fn over_at_item(alloc: Global, limit: Limit, number: u64, item: &Name) -> Stop
    ensures { IsStop result (Some (refusal_of over (limit_line limit number (at_item item.now)))) }
{
    match item.copy(alloc) {
        Ok(item) => Stop::Refused(Refusal::Limit(limit, number, Where::Item(item))),
        Err(NoMemory) => Stop::Memory,
    }
}

// The theorem passes this number.
pub(crate) fn over_at_theorem(alloc: Global, limit: Limit, number: u64, theorem: &Name) -> Stop
    ensures { IsStop result (Some (refusal_of over (limit_line limit number (at_theorem theorem.now)))) }
{
    match theorem.copy(alloc) {
        Ok(theorem) => Stop::Refused(Refusal::Limit(limit, number, Where::Theorem(theorem))),
        Err(NoMemory) => Stop::Memory,
    }
}

// With the step a count passes its limit.
pub(crate) fn over_at_step(
    alloc: Global,
    limit: Limit,
    theorem: &Name,
    side: Side,
    number: u32,
) -> Stop
    ensures { IsStop result (Some (over_at_step limit theorem.now (side_of side) number)) }
{
    match theorem.copy(alloc) {
        Ok(theorem) => Stop::Refused(Refusal::Limit(
            limit,
            greatest_in_step(limit),
            Where::Step(theorem, side, number),
        )),
        Err(NoMemory) => Stop::Memory,
    }
}

// The ends differ first at this place.
pub(crate) fn ends_differ(alloc: Global, theorem: &Name, place: Path) -> Stop
    ensures { IsStop result (Some (ends_differ theorem.now place)) }
{
    match theorem.copy(alloc) {
        Ok(theorem) => Stop::Refused(Refusal::Ends(theorem, place)),
        Err(NoMemory) => Stop::Memory,
    }
}

// A check of types says no.
pub(crate) fn ill(alloc: Global, item: &Name, fault: TypeFault) -> Stop
    ensures { (failures : List Failure) → TellsFirstFailure fault failures → IsStop result (option_map (ill item.now) (first_failure failures)) }
{
    match fault {
        TypeFault::Ill(ill) => match item.copy(alloc) {
            Ok(item) => Stop::Refused(Refusal::Ill(item, ill)),
            Err(NoMemory) => Stop::Memory,
        },
        TypeFault::Memory => Stop::Memory,
    }
}
