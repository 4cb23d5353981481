// The C interface: the same answers through numbers and pointers.
#![tactic(auto)]

ghost use Rattle.std.specs.Prelude.{◌≡◌, [], ◌∷◌, ◌++◌, ◌+◌, ◌≤◌, length, take};
ghost use Rattle.buffered.specs.RunBuffered.{run_buffered};
ghost use Rattle.generated.specs.RunGenerated.{run_generated};
ghost use Rattle.shown.specs.Ran.{start_of};
ghost use Rattle.run_buffered.specs.Ran.{buffered_ran};
ghost use Rattle.rooms.specs.Graphs.{rooms_of};
ghost use Rattle.nardiplex.specs.State.{thread_numbers, state_numbers};
ghost use Rattle.nardiplex.specs.Answers.{read_numbers, ReadPassed, build_numbers, BuildPassed, run_numbers, RunPassed, GeneratedPassed};

use graphs::Built;
use runs::{Ended, Unfinished};
use shown::{Ran, ThreadState};
use thread::Refusal;

// number, place, model, lines
#[tactic(auto, unfolding(crate::specs::Answers::read_numbers))]
fn read_numbers(reading: Result<(u32, u32), Refusal>) -> [u64; 4]
    ensures { result ≡ read_numbers reading }
{
    match reading {
        Ok((model, lines)) => [0, 0, model as u64, lines as u64],
        Err(r) => [r.number(), r.place(), 0, 0],
    }
}

// number, place, nodes, edges
#[tactic(auto, unfolding(crate::specs::Answers::build_numbers))]
fn build_numbers(built: Result<Built, Refusal>) -> [u64; 4]
    ensures { result ≡ build_numbers built }
{
    match built {
        Ok(b) => [0, 0, b.nodes as u64, b.edges as u64],
        Err(r) => [r.number(), r.place(), 0, 0],
    }
}

// number, place, thread, steps
#[tactic(auto, unfolding(crate::specs::Answers::run_numbers))]
fn run_numbers(ended: Ended) -> [u64; 4]
    ensures { result ≡ run_numbers ended }
{
    match ended {
        Ok(steps) => [0, 0, 0, steps],
        Err(Unfinished::Refused(thread, r)) => [r.number(), r.place(), thread as u64, 0],
        Err(Unfinished::Stopped(item)) => {
            let r = Refusal::NoSuchStep(item);
            [r.number(), r.place(), 0, item]
        }
    }
}

// a number, at place `at`
fn put_one(state: &mut [u32], at: usize, number: u32)
    requires { at + 1 ≤ length state.old }
    ensures { take (at + 1) state.new ≡ take at state.old ++ number ∷ [] }
{
    state[at] = number;
}

// sixteen numbers, from place `at` on
fn put_sixteen(state: &mut [u32], at: usize, numbers: [u32; 16])
    requires { at + 16 ≤ length state.old }
    ensures { take (at + 16) state.new ≡ take at state.old ++ numbers }
{
    state[at..at + 16].copy_from_slice(&numbers);
}

// a thread's numbers, from place `at` on
fn put_thread(state: &mut [u32], at: usize, shown: ThreadState)
    requires { at + 50 ≤ length state.old }
    ensures { take (at + 50) state.new ≡ take at state.old ++ thread_numbers shown }
{
    let line = shown.line;
    let registers = shown.registers;
    let names = shown.names;
    let values = shown.values;
    put_one(state, at, line.0);
    put_sixteen(state, at + 1, registers);
    put_one(state, at + 17, shown.count);
    put_sixteen(state, at + 18, names);
    put_sixteen(state, at + 34, values);
}

// memory, then the four threads
fn put_state(state: &mut [u32], ran: Ran)
    requires { length state.old ≡ 216 }
    ensures { state.new ≡ state_numbers ran }
{
    let memory = ran.memory;
    let threads = ran.threads;
    put_sixteen(state, 0, memory);
    put_thread(state, 16, threads[0]);
    put_thread(state, 66, threads[1]);
    put_thread(state, 116, threads[2]);
    put_thread(state, 166, threads[3]);
}

// what a run passes back
fn pass(ran: Ran, state: &mut [u32; 216], answer: &mut [u64; 4])
    ensures { RunPassed ran state.new answer.new }
{
    let ended = ran.ended;
    put_state(state, ran);
    *answer = run_numbers(ended);
}

// reads a thread's text into a table
#[unsafe(no_mangle)]
pub extern "C" fn nardiplex_read(text: &[u8], table: &mut [u32], answer: &mut [u64; 4])
    ensures { ReadPassed text.now (length table.old) table.new answer.new }
{
    *answer = read_numbers(text::read(text, table));
}

// builds a thread's graph into the lent rooms
#[unsafe(no_mangle)]
pub extern "C" fn nardiplex_build(
    model: u32,
    table: &[u32],
    nodes: &mut [u32],
    edges: &mut [u32],
    answer: &mut [u64; 4],
)
    ensures { BuildPassed model table.now (length nodes.old) (length edges.old) nodes.new edges.new answer.new }
{
    *answer = build_numbers(builder::build(model, table, nodes, edges));
}

// runs buffered threads
#[unsafe(no_mangle)]
pub extern "C" fn nardiplex_run_buffered(
    model: u32,
    threads: u32,
    t0: &[u32],
    t1: &[u32],
    t2: &[u32],
    t3: &[u32],
    memory: &[u32; 16],
    registers: &[u32; 64],
    schedule: &[u32],
    state: &mut [u32; 216],
    answer: &mut [u64; 4],
)
    ensures { RunPassed (buffered_ran (run_buffered (start_of model threads (t0.now ∷ t1.now ∷ t2.now ∷ t3.now ∷ []) memory.now registers.now schedule.now))) state.new answer.new }
{
    let tables = [t0, t1, t2, t3];
    let ran = run_buffered::run_buffered(model, threads, &tables, *memory, *registers, schedule);
    pass(ran, state, answer);
}

// runs generated threads, whose graphs are built in the lent rooms
#[unsafe(no_mangle)]
pub extern "C" fn nardiplex_run_generated(
    model: u32,
    threads: u32,
    t0: &[u32],
    t1: &[u32],
    t2: &[u32],
    t3: &[u32],
    n0: &mut [u32],
    e0: &mut [u32],
    n1: &mut [u32],
    e1: &mut [u32],
    n2: &mut [u32],
    e2: &mut [u32],
    n3: &mut [u32],
    e3: &mut [u32],
    memory: &[u32; 16],
    registers: &[u32; 64],
    schedule: &[u32],
    state: &mut [u32; 216],
    answer: &mut [u64; 4],
)
    ensures { GeneratedPassed (run_generated (start_of model threads (t0.now ∷ t1.now ∷ t2.now ∷ t3.now ∷ []) memory.now registers.now schedule.now) (rooms_of (n0.old ∷ n1.old ∷ n2.old ∷ n3.old ∷ []) (e0.old ∷ e1.old ∷ e2.old ∷ e3.old ∷ []))) (n0.new ∷ n1.new ∷ n2.new ∷ n3.new ∷ []) (e0.new ∷ e1.new ∷ e2.new ∷ e3.new ∷ []) state.new answer.new }
{
    let tables = [t0, t1, t2, t3];
    let ran = run_generated::run_generated(
        model, threads, &tables, n0, e0, n1, e1, n2, e2, n3, e3, *memory, *registers, schedule,
    );
    pass(ran, state, answer);
}
