// The library for C: each function of the C interface under its symbol, with its promise.
#![tactic(auto)]

ghost use Rattle.std.specs.Prelude.{[], ◌∷◌, length};
ghost use Rattle.buffered.specs.RunBuffered.{run_buffered};
ghost use Rattle.generated.specs.RunGenerated.{run_generated};
ghost use Rattle.shown.specs.Ran.{start_of};
ghost use Rattle.run_buffered.specs.Ran.{buffered_ran};
ghost use Rattle.rooms.specs.Graphs.{rooms_of};
ghost use Rattle.nardiplex.specs.Answers.{ReadPassed, BuildPassed, RunPassed, GeneratedPassed};

// reads a thread's text into a table
#[unsafe(no_mangle)]
pub extern "C" fn nardiplex_read(text: &[u8], table: &mut [u32], answer: &mut [u64; 4])
    ensures { ReadPassed text.now (length table.old) table.new answer.new }
{
    nardiplex::nardiplex_read(text, table, answer)
}

// builds a thread's graph into the lent rooms
#[unsafe(no_mangle)]
pub extern "C" fn nardiplex_build(
    model: u32,
    table: &[u32],
    nodes: &mut [u32],
    edges: &mut [u32],
    answer: &mut [u64; 4],
)
    ensures { BuildPassed model table.now (length nodes.old) (length edges.old) nodes.new edges.new answer.new }
{
    nardiplex::nardiplex_build(model, table, nodes, edges, answer)
}

// runs buffered threads
#[unsafe(no_mangle)]
pub extern "C" fn nardiplex_run_buffered(
    model: u32,
    threads: u32,
    t0: &[u32],
    t1: &[u32],
    t2: &[u32],
    t3: &[u32],
    memory: &[u32; 16],
    registers: &[u32; 64],
    schedule: &[u32],
    state: &mut [u32; 216],
    answer: &mut [u64; 4],
)
    ensures { RunPassed (buffered_ran (run_buffered (start_of model threads (t0.now ∷ t1.now ∷ t2.now ∷ t3.now ∷ []) memory.now registers.now schedule.now))) state.new answer.new }
{
    nardiplex::nardiplex_run_buffered(
        model, threads, t0, t1, t2, t3, memory, registers, schedule, state, answer,
    )
}

// runs generated threads, whose graphs are built in the lent rooms
#[unsafe(no_mangle)]
pub extern "C" fn nardiplex_run_generated(
    model: u32,
    threads: u32,
    t0: &[u32],
    t1: &[u32],
    t2: &[u32],
    t3: &[u32],
    n0: &mut [u32],
    e0: &mut [u32],
    n1: &mut [u32],
    e1: &mut [u32],
    n2: &mut [u32],
    e2: &mut [u32],
    n3: &mut [u32],
    e3: &mut [u32],
    memory: &[u32; 16],
    registers: &[u32; 64],
    schedule: &[u32],
    state: &mut [u32; 216],
    answer: &mut [u64; 4],
)
    ensures { GeneratedPassed (run_generated (start_of model threads (t0.now ∷ t1.now ∷ t2.now ∷ t3.now ∷ []) memory.now registers.now schedule.now) (rooms_of (n0.old ∷ n1.old ∷ n2.old ∷ n3.old ∷ []) (e0.old ∷ e1.old ∷ e2.old ∷ e3.old ∷ []))) (n0.new ∷ n1.new ∷ n2.new ∷ n3.new ∷ []) (e0.new ∷ e1.new ∷ e2.new ∷ e3.new ∷ []) state.new answer.new }
{
    nardiplex::nardiplex_run_generated(
        model, threads, t0, t1, t2, t3, n0, e0, n1, e1, n2, e2, n3, e3, memory, registers,
        schedule, state, answer,
    )
}
