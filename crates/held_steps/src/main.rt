// Carries schedules out item by item on a machine of its own, over the edges that were built, and lets `run_generated` do the same
// schedules. Shows both end states, and whether they are the same. The threads are those of P10: one stores the angle and then the
// mark, the other reads the mark and then the angle.
#![tactic(auto)]

ghost use Rattle.std.specs.Prelude.{◌≤◌};
ghost use Rattle.runs.specs.Run.{items, run};
ghost use Rattle.runs.specs.Machine.{Led};
ghost use Rattle.held.specs.Held.{world_of, along_own};

use builder::build;
use generated::Generated;
use graphs::Edge;
use held::Machine;
use run_generated::run_generated;
use runs::{Ended, Turns, Unfinished};
use shown::ThreadState;
use std::io;
use thread::{EDGE_WIDTH, Line, MOST_WAITING, NODE_WIDTH, Node, number};

// a machine with the edges of each of its threads
#[derive(Clone, Copy)]
struct Carrier {
    m: Machine,
    tables: [[Edge; 8]; 4],
}

impl Turns for Carrier {
    type Own = Generated;

    ghost step = { λ c. along_own c.tables };

    ghost world = { λ c. world_of c.m };

    fn turn(&mut self, t: u32, choice: u32) -> bool {
        let Some(next) = held::item_among(self.m, self.tables, t, choice) else {
            return false;
        };
        self.m = next;
        true
    }
}

// An end state as 118 numbers: how it ended, the items done and memory; then, from 18 and from 68 on, each thread's line, how many
// stores wait, its registers, the store lines that wait and their values.

// a number at a place of a state, if it has that place
fn put(state: &mut [u64], at: usize, n: u64) {
    if let Some(place) = state.get_mut(at) {
        *place = n;
    }
}

// numbers from a place of a state on, as far as it has these places
fn put_all(state: &mut [u64], from: u32, values: [u32; 16]) {
    for (i, v) in values.iter().enumerate() {
        put(state, from as usize + i, u64::from(*v));
    }
}

// the edges that are built of a thread in its room
fn edges_built(model: u32, table: &[u32], nodes: &mut [u32], edges: &mut [u32]) -> [Edge; 8] {
    let count = match build(model, table, nodes, edges) {
        Ok(built) => built.edges,
        Err(_) => 0,
    };
    let end = edges.len().min(EDGE_WIDTH * count as usize);
    held::few(&edges[..end])
}

// the items in order, up to the first that names no step: the run along these edges
fn carry(m: Machine, tables: [[Edge; 8]; 4], schedule: &[u32]) -> (Machine, Ended)
    ensures { Led (run (along_own tables) (items schedule.now) 0 (world_of m)) result.1 (world_of result.0) }
{
    let mut carrier = Carrier { m, tables };
    let ended = runs::carry_out(&mut carrier, schedule);
    (carrier.m, ended)
}

// a held thread as a run shows one: the record of its node says its line and what waits
fn shown(nodes: &[u32], own: Generated) -> ThreadState {
    let at = NODE_WIDTH * own.node.0 as usize;
    let count = number(nodes, at + 1);
    let mut names = [0u32; 16];
    let mut values = [0u32; 16];
    for i in 0..MOST_WAITING.min(count as usize) {
        let name = number(nodes, at + 2 + i);
        names[i] = name;
        values[i] = step::waiting_value(&own.auxiliaries, Line(name));
    }
    let registers = own.registers;
    ThreadState {
        line: Line(number(nodes, at)),
        registers,
        names,
        values,
        count,
    }
}

// a thread as a run shows one
fn put_thread(state: &mut [u64], from: u32, t: ThreadState)
    requires { from ≤ 68 }
{
    let at = from as usize;
    put(state, at, u64::from(t.line.0));
    put(state, at + 1, u64::from(t.count));
    put_all(state, from + 2, t.registers);
    put_all(state, from + 18, t.names);
    put_all(state, from + 34, t.values);
}

// how a run ended: the paper's number, and the items done
fn put_ended(state: &mut [u64], ended: Ended) {
    match ended {
        Ok(steps) => {
            put(state, 0, 0);
            put(state, 1, steps);
        }
        Err(Unfinished::Refused(_, refusal)) => {
            put(state, 0, refusal.number());
            put(state, 1, 0);
        }
        Err(Unfinished::Stopped(item)) => {
            put(state, 0, 15);
            put(state, 1, item);
        }
    }
}

// some numbers of a state, behind their name
fn row(rt: &impl Print, name: &str, state: &[u64], from: usize, end: usize) -> io::Result<()> {
    print!(rt; "{name}")?;
    for n in state.iter().take(end).skip(from) {
        print!(rt; "\t{n}")?;
    }
    println!(rt; "")
}

fn show_thread(rt: &impl Print, state: &[u64], from: u32) -> io::Result<()> {
    let at = from as usize;
    row(rt, "line", state, at, at + 1)?;
    row(rt, "registers", state, at + 2, at + 18)?;
    row(rt, "waiting", state, at + 1, at + 2)?;
    row(rt, "store lines", state, at + 18, at + 34)?;
    row(rt, "values", state, at + 34, at + 50)?;
    Ok(())
}

fn show(rt: &impl Print, name: &str, state: &[u64]) -> io::Result<()> {
    row(rt, name, state, 0, 0)?;
    row(rt, "ended", state, 0, 1)?;
    row(rt, "steps", state, 1, 2)?;
    row(rt, "memory", state, 2, 18)?;
    show_thread(rt, state, 18)?;
    show_thread(rt, state, 68)?;
    Ok(())
}

// the schedule, carried out on a machine held here
fn hold(model: u32, t0: &[u32], t1: &[u32], schedule: &[u32], state: &mut [u64]) {
    let mut n0 = [9u32; 180];
    let mut e0 = [9u32; 70];
    let mut n1 = [9u32; 180];
    let mut e1 = [9u32; 70];
    let first = edges_built(model, t0, &mut n0, &mut e0);
    let second = edges_built(model, t1, &mut n1, &mut e1);
    let own = Generated {
        node: Node(0),
        registers: [0; 16],
        auxiliaries: [0; 64],
    };
    let start = Machine {
        memory: [0; 16],
        threads: [own, own, own, own],
        count: 2,
    };
    let (m, ended) = carry(start, [first, second, second, second], schedule);
    let threads = m.threads;
    put_ended(state, ended);
    put_all(state, 2, m.memory);
    put_thread(state, 18, shown(&n0, threads[0]));
    put_thread(state, 68, shown(&n1, threads[1]));
}

// the same by the generated run
fn run(model: u32, t0: &[u32], t1: &[u32], schedule: &[u32], state: &mut [u64]) {
    let mut n0 = [9u32; 180];
    let mut e0 = [9u32; 70];
    let mut n1 = [9u32; 180];
    let mut e1 = [9u32; 70];
    let mut n2 = [9u32; 20];
    let mut e2 = [9u32; 20];
    let mut n3 = [9u32; 20];
    let mut e3 = [9u32; 20];
    let ran = run_generated(
        model,
        2,
        &[t0, t1, t1, t1],
        &mut n0,
        &mut e0,
        &mut n1,
        &mut e1,
        &mut n2,
        &mut e2,
        &mut n3,
        &mut e3,
        [0u32; 16],
        [0u32; 64],
        schedule,
    );
    let ended = ran.ended;
    let memory = ran.memory;
    put_ended(state, ended);
    put_all(state, 2, memory);
    put_thread(state, 18, ran.threads[0]);
    put_thread(state, 68, ran.threads[1]);
}

fn compare(rt: &impl Print, model: u32, schedule: &[u32]) -> io::Result<()> {
    let angle = [6u32, 0, 7, 0, 0, 6, 1, 1, 0, 0, 11, 0, 0, 0, 0];
    let reader = [4u32, 0, 1, 0, 0, 4, 1, 0, 0, 0, 11, 0, 0, 0, 0];
    let mut by_hand = [0u64; 118];
    let mut by_run = [0u64; 118];
    hold(model, &angle, &reader, schedule, &mut by_hand);
    run(model, &angle, &reader, schedule, &mut by_run);
    show(rt, "held", &by_hand)?;
    show(rt, "run", &by_run)?;
    if by_hand == by_run {
        println!(rt; "the same")
    } else {
        println!(rt; "different")
    }
}

fn main(rt: HostRuntime) -> io::Result<()> {
    // the mark overtakes the angle under PSO; under TSO it can't
    let early = [0u32, 0, 0, 0, 0, 2, 1, 0, 1, 0, 0, 1];
    compare(&rt, 1, &early)?;
    compare(&rt, 0, &early)?;
    // a store that waits at the end
    compare(&rt, 0, &[0u32, 0, 1, 0, 0, 0, 0, 1, 1, 0])?;
    // a thread that isn't there, and a lone last number
    compare(&rt, 1, &[0u32, 0, 2, 0])?;
    compare(&rt, 1, &[0u32, 0, 1])?;
    Ok(())
}
