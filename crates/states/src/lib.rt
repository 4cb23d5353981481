// What is shown of generated threads that are held flat: each by the record of its node in its own node table.
#![tactic(auto)]

ghost use Rattle.std.specs.Prelude.{◌≡◌, [], ◌+◌, ◌^◌, ◌<◌, length, get_or};
ghost use Rattle.lists.specs.Slices.{contents};
ghost use Rattle.step.specs.Step.{held};
ghost use Rattle.flat.specs.Flat.{thread_in, threads_in};
ghost use Rattle.states.specs.States.{name_at, value_at, names, values, state_at, state_of, ran_at};

use flat::Flat;
use runs::Ended;
use shown::{Ran, ThreadState};
use thread::{Line, Node};

// store line `i` of the `count` that stand from a place on; 0 past those
fn name_at(nodes: &[u32], start: usize, count: u32, i: usize) -> u32
    requires { start + i < 2 ^ 64 }
    ensures { result ≡ name_at nodes.now start count i }
{
    if i < count as usize {
        thread::number(nodes, start + i)
    } else {
        0
    }
}

// the auxiliary value of that store line
fn value_at(auxiliaries: &[u32], nodes: &[u32], start: usize, count: u32, i: usize) -> u32
    requires { start + i < 2 ^ 64 }
    ensures { result ≡ value_at auxiliaries.now nodes.now start count i }
{
    if i < count as usize {
        return step::waiting_value(auxiliaries, Line(thread::number(nodes, start + i)));
    }
    0
}

// the store lines from a place on, and their auxiliary values
#[tactic(auto, unfolding(crate::specs::States::names, crate::specs::States::values))]
fn waiting_at(
    auxiliaries: &[u32],
    nodes: &[u32],
    start: usize,
    count: u32,
) -> ([u32; 16], [u32; 16])
    requires { start + 16 < 2 ^ 64 }
    ensures { result ≡ (names nodes.now start count, values auxiliaries.now nodes.now start count) }
{
    let mut names = [0u32; 16];
    let mut values = [0u32; 16];
    for i in 0..16 {
        names[i] = name_at(nodes, start, count, i);
        values[i] = value_at(auxiliaries, nodes, start, count, i);
    }
    (names, values)
}

// "a generated thread shows the store lines of its node with their auxiliary values"
#[tactic(auto, unfolding(crate::specs::States::state_at))]
fn state_at(table: &[u32], node: Node, registers: [u32; 16], auxiliaries: &[u32]) -> ThreadState
    ensures { result ≡ state_at table.now (held node registers auxiliaries.now) }
{
    let at = 18 * (node.0 as usize);
    let count = thread::number(table, at + 1);
    let (names, values) = waiting_at(auxiliaries, table, at + 2, count);
    ThreadState {
        line: Line(thread::number(table, at)),
        registers,
        names,
        values,
        count,
    }
}

// thread `t`, if it is present, by its node table
#[tactic(auto, unfolding(crate::specs::States::state_of))]
fn state_of(threads: u32, t: u32, table: &[u32], flat: &Flat) -> ThreadState
    requires { t < 4 }
    ensures { result ≡ state_of threads t table.now (thread_in flat.now t) }
{
    if t < threads {
        let i = t as usize;
        let a = 64 * i;
        let own = shown::part(&flat.registers, t);
        return state_at(
            table,
            Node(flat.nodes[i]),
            own,
            &flat.auxiliaries[a..a + 64],
        );
    }
    shown::nobody()
}

// what is shown of the threads where the run stands
pub fn show(threads: u32, tables: &[&[u32]; 4], ended: Ended, flat: &Flat) -> Ran
    ensures { result ≡ ran_at threads (λ t. get_or (contents tables.now) t []) ended flat.now.memory (threads_in flat.now) }
{
    let first = state_of(threads, 0, tables[0], flat);
    let second = state_of(threads, 1, tables[1], flat);
    let third = state_of(threads, 2, tables[2], flat);
    let fourth = state_of(threads, 3, tables[3], flat);
    let memory = flat.memory;
    Ran {
        ended,
        memory,
        threads: [first, second, third, fourth],
    }
}
