// One step of a buffered thread in code, in lent lists and by value: what the choice changes, and the change made.
#![tactic(auto)]

ghost use Rattle.std.specs.Prelude.{◌≡◌, ℕ, List};
ghost use Rattle.lists.specs.Options.{option_of};
ghost use Rattle.thread.specs.declared.Line.{Line};
ghost use Rattle.chosen.specs.Decide.{thread_of, decided};
ghost use Rattle.buffer.specs.States.{left, left_by};
ghost use Rattle.buffer.specs.Step.{waits, puts, applied, stepped, turned};

use chosen::{Change, Lent};
use pending::{place_for, put_in, take_out};
use shown::ThreadState;
use thread::{Instr, Line, Model, number, write};

// memory and thread after a step
#[derive(Clone, Copy)]
pub struct Moved {
    pub memory: [u32; 16],
    pub core: ThreadState,
}

// a thread's line and count after a step in lent lists, where the rest of it stands
#[derive(Clone, Copy)]
pub struct Turned {
    pub line: Line,
    pub count: u32,
}

// a pair more waits, if there is a place for it
fn wait(
    model: Model,
    count: u32,
    names: &mut [u32],
    values: &mut [u32],
    to: Line,
    x: u32,
    v: u32,
) -> Option<Turned>
    ensures { (M regs : List ℕ) (line : Line) → let own = thread_of line count regs names.old values.old in left result M regs names.new values.new ≡ left_by (waits model M own to x v) M own }
{
    if 16 <= count {
        return None;
    }
    let at = place_for(model, names, count as usize, x);
    put_in(names, at, x);
    put_in(values, at, v);
    Some(Turned {
        line: to,
        count: count + 1,
    })
}

// the pair at a place reaches memory, if one waits there
fn put(
    line: Line,
    count: u32,
    memory: &mut [u32],
    names: &mut [u32],
    values: &mut [u32],
    at: usize,
) -> Option<Turned>
    ensures { (regs : List ℕ) → let own = thread_of line count regs names.old values.old in left result memory.new regs names.new values.new ≡ left_by (puts memory.old own at) memory.old own }
{
    if (count as usize).min(16) <= at {
        return None;
    }
    write(memory, number(names, at) as usize, number(values, at));
    take_out(names, at, 0);
    take_out(values, at, 0);
    Some(Turned {
        line,
        count: count - 1,
    })
}

// the change made, if there is a place for a pair more, or the pair that was asked for
#[tactic(auto, unfolding(crate::specs::Step::applied))]
fn apply_lent(
    change: Change,
    model: Model,
    line: Line,
    count: u32,
    memory: &mut [u32],
    regs: &mut [u32],
    names: &mut [u32],
    values: &mut [u32],
) -> Option<Turned>
    ensures { let own = thread_of line count regs.old names.old values.old in left result memory.new regs.new names.new values.new ≡ left_by (applied change model memory.old own) memory.old own }
{
    let line = match change {
        Change::Go(l) => l,
        Change::Register(l, r, v) => {
            write(regs, r as usize, v);
            l
        }
        Change::Wait(l, x, v) => return wait(model, count, names, values, l, x, v),
        Change::Swap(l, r, x, v) => {
            write(regs, r as usize, 1);
            write(memory, x as usize, v);
            l
        }
        Change::Put(at) => return put(line, count, memory, names, values, at),
    };
    Some(Turned { line, count })
}

// one step in lent lists: decide, then apply; none where the pairs have not their 16 places
#[tactic(auto, unfolding(crate::specs::Step::stepped))]
pub fn turn(
    model: Model,
    instr: Instr,
    choice: u32,
    line: Line,
    count: u32,
    memory: &mut [u32],
    regs: &mut [u32],
    names: &mut [u32],
    values: &mut [u32],
) -> Option<Turned>
    ensures { let own = thread_of line count regs.old names.old values.old in left result memory.new regs.new names.new values.new ≡ left_by (turned model instr choice memory.old own) memory.old own }
{
    if names.len() != 16 || values.len() != 16 {
        return None;
    }
    let own = Lent {
        line,
        count,
        registers: regs,
        names,
        values,
    };
    let change = chosen::decide(model, instr, choice, memory, &own)?;
    apply_lent(change, model, line, count, memory, regs, names, values)
}

// what a choice changes, by value
pub fn decide(
    model: Model,
    instr: Instr,
    choice: u32,
    memory: [u32; 16],
    core: ThreadState,
) -> Option<Change>
    ensures { result ≡ option_of (decided model instr choice memory core) }
{
    let own = Lent {
        line: core.line,
        count: core.count,
        registers: &core.registers,
        names: &core.names,
        values: &core.values,
    };
    chosen::decide(model, instr, choice, &memory, &own)
}

// the change made, by value
pub fn apply(
    change: Change,
    model: Model,
    mut memory: [u32; 16],
    mut core: ThreadState,
) -> Option<Moved>
    ensures { result ≡ option_of (applied change model memory core) }
{
    let next = apply_lent(
        change,
        model,
        core.line,
        core.count,
        &mut memory,
        &mut core.registers,
        &mut core.names,
        &mut core.values,
    )?;
    core.line = next.line;
    core.count = next.count;
    Some(Moved { memory, core })
}

// one step: decide, then apply
#[tactic(auto, unfolding(crate::specs::Step::stepped))]
pub fn step(
    model: Model,
    instr: Instr,
    choice: u32,
    memory: [u32; 16],
    core: ThreadState,
) -> Option<Moved>
    ensures { result ≡ option_of (stepped model instr choice memory core) }
{
    let change = decide(model, instr, choice, memory, core)?;
    apply(change, model, memory, core)
}
