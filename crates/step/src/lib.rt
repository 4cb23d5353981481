// The step of a generated thread, by the edge records of a table alone: decide what changes, then apply it.
#![tactic(auto)]

ghost use Rattle.std.specs.Prelude.{◌≡◌, cond, set, eqb};
ghost use Rattle.thread.specs.Numbers.{◌!◌};
ghost use Rattle.generated.specs.Machine.{waiting_value, generated_step};
ghost use Rattle.step.specs.Step.{change_of, change_along, decided, decided_sought, moved_to, applied, moved_of, held, left, left_by, searched};

use generated::Generated;
use graphs::Edge;
use thread::{Line, Node, Op};

// What a step changes, and the node it goes to: nothing else, a register, a line's auxiliary, a variable, or a variable and
// the register that a cas sets to 1.
#[derive(Clone, Copy)]
pub enum Change {
    Go(Node),
    Register(Node, u32, u32),
    Auxiliary(Node, Line, u32),
    Memory(Node, u32, u32),
    Swap(Node, u32, u32, u32),
}

// memory and thread after a step
#[derive(Clone, Copy)]
pub struct Moved {
    pub memory: [u32; 16],
    pub own: Generated,
}

// where the value of a waiting store comes from: the auxiliary of its line
pub fn waiting_value(auxiliaries: &[u32], line: Line) -> u32
    ensures { result ≡ waiting_value auxiliaries.now line }
{
    thread::number(auxiliaries, line.0 as usize)
}

// a cas: when memory x equals s, x becomes t and the register 1; else the register becomes 0
fn swapped(to: Node, r: u32, x: u32, seen: u32, wanted: u32, next: u32) -> Change
    ensures { result ≡ cond (eqb seen wanted) (Change.Swap to x next r) (Change.Register to r 0) }
{
    if seen == wanted {
        return Change::Swap(to, x, next, r);
    }
    Change::Register(to, r, 0)
}

// the value of register or variable i; 0 past the end
fn value(values: &[u32], i: u32) -> u32
    ensures { result ≡ values.now ! i }
{
    thread::number(values, i as usize)
}

// what an operation changes on the way to a node
#[tactic(auto, unfolding(crate::specs::Step::change_of))]
pub fn change_of(op: Op, to: Node, memory: &[u32], registers: &[u32], auxiliaries: &[u32]) -> Change
    ensures { result ≡ change_of op to memory.now registers.now auxiliaries.now }
{
    match op {
        Op::Set(r, v) => Change::Register(to, r, v),
        Op::Copy(r, s) => Change::Register(to, r, value(registers, s)),
        Op::Add(r, s, t) => Change::Register(
            to,
            r,
            thread::add32(value(registers, s), value(registers, t)),
        ),
        Op::Sub(r, s, t) => Change::Register(
            to,
            r,
            thread::sub32(value(registers, s), value(registers, t)),
        ),
        Op::Load(r, x) => Change::Register(to, r, value(memory, x)),
        Op::Take(r, l) => Change::Register(to, r, waiting_value(auxiliaries, l)),
        Op::KeepR(l, r) => Change::Auxiliary(to, l, value(registers, r)),
        Op::KeepC(l, v) => Change::Auxiliary(to, l, v),
        Op::Cas(r, x, s, t) => swapped(
            to,
            r,
            x,
            value(memory, x),
            value(registers, s),
            value(registers, t),
        ),
        Op::Put(x, l) => Change::Memory(to, x, waiting_value(auxiliaries, l)),
        Op::Pass | Op::IfNz(_) | Op::IfZ(_) => Change::Go(to),
    }
}

// what changes along an edge, if one was found
#[tactic(auto, unfolding(crate::specs::Step::change_along))]
pub fn change_along(
    found: Option<Edge>,
    memory: &[u32],
    registers: &[u32],
    auxiliaries: &[u32],
) -> Option<Change>
    ensures { result ≡ change_along found memory.now registers.now auxiliaries.now }
{
    let e = found?;
    Some(change_of(e.op, e.to, memory, registers, auxiliaries))
}

// what a choice changes, by the records of an edge table, if the thread has got that choice
#[tactic(auto, unfolding(crate::specs::Step::decided))]
pub fn decide(table: &[u32], choice: u32, memory: [u32; 16], own: Generated) -> Option<Change>
    ensures { result ≡ decided table.now choice memory own }
{
    let found = edges::edge_for(table, own.node, choice, own.registers);
    change_along(found, &memory, &own.registers, &own.auxiliaries)
}

// the same by the search for tables in the order of their nodes, of a thread whose values are lent
#[tactic(auto, unfolding(crate::specs::Step::decided_sought))]
pub fn decide_in(
    table: &[u32],
    choice: u32,
    node: Node,
    memory: &[u32],
    registers: &[u32],
    auxiliaries: &[u32],
) -> Option<Change>
    ensures { result ≡ decided_sought table.now choice memory.now (held node registers.now auxiliaries.now) }
{
    let found = edges::edge_sought_in(table, node, choice, registers);
    change_along(found, memory, registers, auxiliaries)
}

// a change applied where the values lie; the node it goes to
#[tactic(auto, unfolding(crate::specs::Step::applied))]
pub fn apply_in(
    change: Change,
    memory: &mut [u32],
    registers: &mut [u32],
    auxiliaries: &mut [u32],
) -> Node
    ensures { moved_to memory.new result registers.new auxiliaries.new ≡ applied change memory.old registers.old auxiliaries.old }
{
    match change {
        Change::Go(to) => to,
        Change::Register(to, r, v) => {
            thread::write(registers, r as usize, v);
            to
        }
        Change::Auxiliary(to, l, v) => {
            thread::write(auxiliaries, l.0 as usize, v);
            to
        }
        Change::Memory(to, x, v) => {
            thread::write(memory, x as usize, v);
            to
        }
        Change::Swap(to, x, v, r) => {
            thread::write(memory, x as usize, v);
            thread::write(registers, r as usize, 1);
            to
        }
    }
}

// memory and thread after a change
pub fn apply(change: Change, memory: [u32; 16], own: Generated) -> Moved
    ensures { result ≡ applied change memory own.registers own.auxiliaries }
{
    let mut after = memory;
    let mut registers = own.registers;
    let mut auxiliaries = own.auxiliaries;
    let node = apply_in(change, &mut after, &mut registers, &mut auxiliaries);
    Moved {
        memory: after,
        own: Generated {
            node,
            registers,
            auxiliaries,
        },
    }
}

// the step of a thread at a choice, for every table, if it has got that choice
pub fn step(table: &[u32], choice: u32, memory: [u32; 16], own: Generated) -> Option<Moved>
    ensures { result ≡ moved_of (generated_step table.now choice (record { memory = memory; own = own })) }
{
    let change = decide(table, choice, memory, own)?;
    Some(apply(change, memory, own))
}

// The step by the search for tables in the order of their nodes, done where the values lie: the thread's node then. None:
// there is no step, and the values are as they were.
#[tactic(auto, unfolding(crate::specs::Step::searched))]
pub fn step_in(
    table: &[u32],
    choice: u32,
    node: Node,
    memory: &mut [u32],
    registers: &mut [u32],
    auxiliaries: &mut [u32],
) -> Option<Node>
    ensures { left result memory.new registers.new auxiliaries.new ≡ left_by (searched table.now choice memory.old (held node registers.old auxiliaries.old)) memory.old registers.old auxiliaries.old }
{
    let change = decide_in(table, choice, node, memory, registers, auxiliaries)?;
    Some(apply_in(change, memory, registers, auxiliaries))
}

// the same by value
#[tactic(auto, unfolding(crate::specs::Step::searched))]
pub fn step_sought(table: &[u32], choice: u32, memory: [u32; 16], own: Generated) -> Option<Moved>
    ensures { result ≡ searched table.now choice memory own }
{
    let change = decide_in(
        table,
        choice,
        own.node,
        &memory,
        &own.registers,
        &own.auxiliaries,
    )?;
    Some(apply(change, memory, own))
}
