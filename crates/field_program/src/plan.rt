// Plans of the slots that a walk along a program's steps takes.
ghost use Rattle.std.specs.Prelude.{◌≡◌, ◌<◌, length, map, slice_get, slice_index, Some, IfOk};
ghost use Rattle.zk_model.specs.Slots.{IsPlanOf, IsSlotCount};
ghost use Rattle.field_program.specs.Plans.{named};

use crate::program::FieldProgram;
use crate::slots::slots_along;
use std::alloc::{AllocError, Global};
use std::marker::Model;

/// The slots of a step: of the wire that it sets, and of the wires `a` and `b` that it reads, where it reads them.
#[derive(Clone, Copy, Debug, PartialEq, Eq)]
pub struct StepSlots {
    pub out: u32,
    pub a: u32,
    pub b: u32,
}

/// Slots for the wires of a program, such that a walk along the steps that keeps each wire's number in its slot finds there every number
/// that it reads, and in the end those of the opened wires. Wires that are live at one step have slots of their own: one is live from the
/// step that sets it, or from the beginning, up to the last that reads it, or to the end where it is opened. A slot is used again as soon
/// as its wire is live no more, so there are no more slots than wires that are live at once. The first wires, public ones and inputs,
/// have the slots of their own numbers. A plan takes 12 bytes for each step, in the order of the steps, and 4 for each opened wire.
#[derive(Debug, Drop)]
pub struct SlotPlan {
    slots: u32,
    steps: Vec<StepSlots>,
    opened: Vec<u32>,
}

impl Model for SlotPlan {
    ghost use Rattle.zk_model.specs.Slots as plans;
    ghost use Rattle.field_program.specs.Plans.{plan_of};

    ghost Value = { plans.Plan };

    ghost view = { λ p. plan_of p.slots p.steps.items p.opened.items };
}

impl SlotPlan {
    /// The plan of a program.
    ///
    /// # Errors
    ///
    /// Only where memory runs out.
    pub fn of(alloc: Global, program: &FieldProgram) -> Result<SlotPlan, AllocError>
        ensures plan { IfOk result (IsPlanOf program.now) }
        ensures slots { IfOk result (λ plan. IsSlotCount program.now plan.slots) }
    {
        let _held = program.steps();
        let followed = slots_along(alloc, program)?;
        let opened = opened_slots(alloc, program, &followed.slots.places)?;
        Ok(SlotPlan {
            slots: followed.slots.count,
            steps: followed.steps,
            opened,
        })
    }

    /// How many slots there are: the greatest number of wires that are live at once.
    pub fn slots(&self) -> usize
        ensures { result ≡ self.now.slots }
    {
        self.slots as usize
    }

    /// The slots of step k.
    pub fn step_slots(&self, k: usize) -> StepSlots
        requires { k < length self.now.steps }
        ensures { slice_get self.now.steps k ≡ Some (named result) }
    {
        self.steps[k]
    }

    /// The slot of opened wire o, in the end.
    pub fn opened_slot(&self, o: usize) -> u32
        requires { o < length self.now.opened }
        ensures { result ≡ slice_index self.now.opened o }
    {
        self.opened[o]
    }
}

/// The slots of the opened wires, from those of all wires.
fn opened_slots(
    alloc: Global,
    program: &FieldProgram,
    places: &[u32],
) -> Result<Vec<u32>, AllocError>
    requires { length places.now ≡ program.now.wires }
    ensures { IfOk result (λ slots. slots.items ≡ map (slice_index places.now) program.now.opened) }
{
    let mut slots = Vec::with_capacity(alloc, program.opened().len())?;
    for wire in program.opened() {
        slots.push(places[*wire as usize])?;
    }
    Ok(slots)
}
