// The slots that wires are given along a program's steps, and that they give back.
ghost use Rattle.std.specs.Prelude.{◌≡◌, ◌+◌, ◌<◌, ◌^◌, ℕ, List, length, slice_index, IfOk, OnOk};
ghost use Rattle.std.specs.List.{range_with_len};
ghost use Rattle.field_program.specs.Slotting.{AreEnds, AreLastReads, AreSlotsAt, AreSlotsUpTo, AreOperandsWithin, KeepsSlots, NotesOperands, EndsOperands, EndsWire, IsFollowed, IsNoted, TakesSlot, operands_of, slots_with};

use crate::plan::StepSlots;
use crate::program::FieldProgram;
use crate::step::Step;
use std::alloc::{AllocError, Global};

/// The wires that a step reads.
#[derive(Clone, Copy)]
enum Operands {
    None,
    One(u32),
    Two(u32, u32),
}

/// Slots, while they are given to wires and given back.
#[derive(Drop)]
pub(crate) struct Slots {
    pub(crate) places: Vec<u32>,
    free: Vec<u32>,
    pub(crate) count: u32,
}

/// Slots that have been given along all steps, and those of each step.
#[derive(Drop)]
pub(crate) struct Followed {
    pub(crate) slots: Slots,
    pub(crate) steps: Vec<StepSlots>,
}

/// The wires that a step reads: those of its equation, or the factors of the product whose value it takes.
fn operands_of(step: &Step) -> Operands
    ensures { result ≡ operands_of step.now }
{
    match *step {
        Step::Const { .. } => Operands::None,
        Step::Copy { a, .. } | Step::Not { a, .. } => Operands::One(a),
        Step::Add { a, b, .. } | Step::Mul { a, b, .. } | Step::XorFrom { a, b, .. } => {
            Operands::Two(a, b)
        }
    }
}

/// Notes that step n reads operands.
fn note_operands(last: &mut [u32], n: u32, operands: Operands)
    requires { AreOperandsWithin (length last.old) operands }
    ensures { NotesOperands n operands last.old last.new }
{
    match operands {
        Operands::None => {}
        Operands::One(a) => last[a as usize] = n,
        Operands::Two(a, b) => {
            last[a as usize] = n;
            last[b as usize] = n;
        }
    }
}

/// The last step, numbered from 1, that reads each wire, and 0 for a wire that none reads.
fn last_reads(alloc: Global, program: &FieldProgram) -> Result<Vec<u32>, AllocError>
    ensures { IfOk result (λ last. AreLastReads program.now (length program.now.steps) last.items) }
{
    let mut last = vec![in alloc; 0; program.wires()]?;
    for k in 0..program.steps() {
        let step = program.step(k);
        note_operands(&mut last, k as u32 + 1, operands_of(&step));
    }
    Ok(last)
}

/// The last number at which each wire is needed: that of the last step that reads it, or one behind all steps where it is opened.
fn ends_of(alloc: Global, program: &FieldProgram) -> Result<Vec<u32>, AllocError>
    ensures { IfOk result (λ ends. AreEnds program.now ends.items) }
{
    let mut ends = last_reads(alloc, program)?;
    for wire in program.opened() {
        ends[*wire as usize] = program.steps() as u32 + 1;
    }
    Ok(ends)
}

/// The numbers from 0 on, so many of them.
fn numbers(alloc: Global, count: u32) -> Result<Vec<u32>, AllocError>
    ensures { IfOk result (λ numbers. numbers.items ≡ range_with_len 0 count) }
{
    (0..count).map(|number| number).collect(alloc)
}

/// The slots of a step that sets this wire, from those of the wires. What it does not read has the slot of the wire that it sets.
fn slots_with(places: &[u32], out: u32, operands: Operands) -> StepSlots
    requires out { out < length places.now }
    requires operands { AreOperandsWithin (length places.now) operands }
    ensures { result ≡ slots_with places.now out operands }
{
    let out = places[out as usize];
    match operands {
        Operands::None => StepSlots {
            out,
            a: out,
            b: out,
        },
        Operands::One(a) => StepSlots {
            out,
            a: places[a as usize],
            b: out,
        },
        Operands::Two(a, b) => StepSlots {
            out,
            a: places[a as usize],
            b: places[b as usize],
        },
    }
}

/// Gives slots along all steps, and takes them back; notes those of each step.
fn follow(
    alloc: Global,
    program: &FieldProgram,
    ends: &[u32],
    first: Slots,
) -> Result<Followed, AllocError>
    requires ends { AreEnds program.now ends.now }
    requires first { AreSlotsUpTo program.now ends.now 0 first }
    ensures { IfOk result (IsFollowed program.now ends.now) }
{
    let mut slots = first;
    let mut steps = Vec::with_capacity(alloc, program.steps())?;
    for k in 0..program.steps() {
        let noted = slots.follow_step(program, ends, k)?;
        steps.push(noted)?;
    }
    Ok(Followed { slots, steps })
}

/// The slots of all steps, in order, and how many there are in all.
pub(crate) fn slots_along(alloc: Global, program: &FieldProgram) -> Result<Followed, AllocError>
    ensures { IfOk result (λ followed. (ends : List ℕ) × IsFollowed program.now ends followed) }
{
    let ends = ends_of(alloc, program)?;
    let mut first = Slots::first(alloc, program)?;
    first.end_first(program, &ends)?;
    let followed = follow(alloc, program, &ends, first)?;
    Ok(followed)
}

impl Slots {
    /// A slot for each wire that is set before all steps.
    fn first(alloc: Global, program: &FieldProgram) -> Result<Self, AllocError>
        ensures { IfOk result (AreSlotsAt program.now 0) }
    {
        let places = numbers(alloc, program.wires() as u32)?;
        Ok(Slots {
            places,
            free: Vec::new(alloc),
            count: (program.public() + program.inputs()) as u32,
        })
    }

    /// Takes back the slots of the wires of these that no step needs.
    fn end_first(&mut self, program: &FieldProgram, ends: &[u32]) -> Result<(), AllocError>
        requires ends { AreEnds program.now ends.now }
        requires first { AreSlotsAt program.now 0 self.old }
        ensures { OnOk result (AreSlotsUpTo program.now ends.now 0 self.new) }
    {
        let count = (program.public() + program.inputs()) as u32;
        for wire in 0..count {
            self.end(ends, 0, wire)?;
        }
        Ok(())
    }

    /// Gives a slot to a wire: one that is free, or a new one.
    fn take(&mut self, wire: u32)
        requires within { wire < length self.old.places.items }
        requires fits { self.old.count + 1 < 2 ^ 32 }
        ensures { TakesSlot wire self.old self.new }
    {
        let slot = match self.free.pop() {
            Some(slot) => slot,
            None => {
                self.count += 1;
                self.count - 1
            }
        };
        self.places[wire as usize] = slot;
    }

    /// Takes back the slot of a wire that is not needed beyond a number.
    fn end(&mut self, ends: &[u32], n: u32, wire: u32) -> Result<(), AllocError>
        requires place { wire < length self.old.places.items }
        requires end { wire < length ends.now }
        ensures { OnOk result (EndsWire n wire ends.now self.old self.new) }
    {
        if ends[wire as usize] <= n {
            self.free.push(self.places[wire as usize])?;
        }
        Ok(())
    }

    /// Takes back the slots of operands that are not needed beyond a number.
    fn end_operands(&mut self, ends: &[u32], n: u32, operands: Operands) -> Result<(), AllocError>
        requires places { AreOperandsWithin (length self.old.places.items) operands }
        requires ends { AreOperandsWithin (length ends.now) operands }
        ensures { OnOk result (EndsOperands n operands ends.now self.old self.new) }
    {
        match operands {
            Operands::None => {}
            Operands::One(a) => self.end(ends, n, a)?,
            Operands::Two(a, b) => {
                self.end(ends, n, a)?;
                if b != a {
                    self.end(ends, n, b)?;
                }
            }
        }
        Ok(())
    }

    /// Gives a slot to the wire that a step sets, and takes back those of the wires that are not needed beyond it. Says which slots the
    /// step has.
    fn follow_step(
        &mut self,
        program: &FieldProgram,
        ends: &[u32],
        k: usize,
    ) -> Result<StepSlots, AllocError>
        requires there { k < length program.now.steps }
        requires ends { AreEnds program.now ends.now }
        requires before { AreSlotsUpTo program.now ends.now k self.old }
        ensures after { OnOk result (AreSlotsUpTo program.now ends.now (k + 1) self.new) }
        ensures kept { OnOk result (KeepsSlots program.now k self.old self.new) }
        ensures noted { IfOk result (IsNoted program.now k self.new) }
    {
        let step = program.step(k);
        let n = k as u32 + 1;
        let operands = operands_of(&step);
        let out = step.out();
        self.take(out);
        self.end(ends, n, out)?;
        self.end_operands(ends, n, operands)?;
        Ok(slots_with(&self.places, out, operands))
    }
}
