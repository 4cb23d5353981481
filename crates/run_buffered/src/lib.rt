// The run of buffered threads: its refusals, then the schedule's items, one step each in flat lists.
#![tactic(auto)]

ghost use Rattle.std.specs.Prelude.{◌≡◌, cond, [], ◌∷◌, ◌++◌, ◌-◌, ◌<◌, take, replicate, ltb};
ghost use Rattle.lists.specs.Slices.{contents};
ghost use Rattle.runs.specs.Run.{items, run};
ghost use Rattle.buffered.specs.RunBuffered.{run_buffered};
ghost use Rattle.shown.specs.Ran.{start_of, nobody_state, world};
ghost use Rattle.run_buffered.specs.Cores.{start_cores, core_step, ran_stand};
ghost use Rattle.run_buffered.specs.Flat.{thread_in, threads_in, all_in, TurnIs};
ghost use Rattle.run_buffered.specs.Ran.{buffered_ran};

use admit::model_of;
use judge::judge;
use runs::Turns;
use shown::{Ran, ThreadState, nobody, part, refused};
use thread::{Instr, Line, Model, instr_at};

// memory, and four threads in flat lists: thread t's line and count at place t, its registers, names and values at places 16 t to 16 t + 15
#[derive(Clone, Copy)]
struct Flat {
    memory: [u32; 16],
    lines: [u32; 4],
    counts: [u32; 4],
    registers: [u32; 64],
    names: [u32; 64],
    values: [u32; 64],
}

impl Flat {
    // each at line 0, and nothing waits
    fn start(memory: [u32; 16], registers: [u32; 64]) -> Self
        ensures { all_in result ≡ record { memory = memory; threads = start_cores registers } }
    {
        Flat {
            memory,
            lines: [0u32; 4],
            counts: [0u32; 4],
            registers,
            names: [0u32; 64],
            values: [0u32; 64],
        }
    }

    // thread `t` takes a choice; `false`: it has no such step, and all is as before
    fn turn(&mut self, model: Model, instr: Instr, t: usize, choice: u32) -> bool
        requires { t < 4 }
        ensures { TurnIs model instr t choice self.old result self.new }
    {
        let a = 16 * t;
        let e = a + 16;
        let Some(next) = buffer::turn(
            model,
            instr,
            choice,
            Line(self.lines[t]),
            self.counts[t],
            &mut self.memory,
            &mut self.registers[a..e],
            &mut self.names[a..e],
            &mut self.values[a..e],
        ) else {
            return false;
        };
        self.lines[t] = next.line.0;
        self.counts[t] = next.count;
        true
    }

    // thread `t` as it is shown; one that is not there is all 0
    fn show_thread(&self, threads: u32, t: u32) -> ThreadState
        requires { t < 4 }
        ensures { result ≡ cond (ltb t threads) (thread_in self.now t) nobody_state }
    {
        if threads <= t {
            return nobody();
        }
        let own = t as usize;
        ThreadState {
            line: Line(self.lines[own]),
            registers: part(&self.registers, t),
            names: part(&self.names, t),
            values: part(&self.values, t),
            count: self.counts[own],
        }
    }

    // all four
    fn show(&self, threads: u32) -> [ThreadState; 4]
        ensures { result ≡ take threads (threads_in self.now) ++ replicate (4 - threads) nobody_state }
    {
        [
            self.show_thread(threads, 0),
            self.show_thread(threads, 1),
            self.show_thread(threads, 2),
            self.show_thread(threads, 3),
        ]
    }
}

// what a schedule moves, with each thread's table
#[derive(Clone, Copy)]
struct Machine<'a> {
    model: Model,
    threads: u32,
    tables: [&'a [u32]; 4],
    flat: Flat,
}

impl Turns for Machine<'_> {
    type Own = ThreadState;

    ghost step = { λ m. core_step m.model (contents m.tables) };

    ghost world = { λ m. world m.threads m.flat.memory (threads_in m.flat) };

    fn turn(&mut self, t: u32, choice: u32) -> bool {
        let own = t as usize;
        if self.threads <= t || 4 <= own {
            return false;
        }
        let model = self.model;
        let instr = instr_at(self.tables[own], Line(self.flat.lines[own]));
        self.flat.turn(model, instr, own, choice)
    }
}

// the run where no thread is refused
fn run_fine(
    model: Model,
    threads: u32,
    tables: &[&[u32]; 4],
    memory: [u32; 16],
    registers: [u32; 64],
    schedule: &[u32],
) -> Ran
    ensures { result ≡ ran_stand (run (core_step model (contents tables.now)) (items schedule.now) 0 (world threads memory (start_cores registers))) }
{
    let mut machine = Machine {
        model,
        threads,
        tables: *tables,
        flat: Flat::start(memory, registers),
    };
    let ended = runs::carry_out(&mut machine, schedule);
    Ran {
        ended,
        memory: machine.flat.memory,
        threads: machine.flat.show(machine.threads),
    }
}

// the run of buffered threads
pub fn run_buffered(
    model: u32,
    threads: u32,
    tables: &[&[u32]; 4],
    memory: [u32; 16],
    registers: [u32; 64],
    schedule: &[u32],
) -> Ran
    ensures { result ≡ buffered_ran (run_buffered (start_of model threads (contents tables.now) memory registers schedule.now)) }
{
    match judge(model, threads, tables) {
        Err((t, refusal)) => refused(t, refusal),
        Ok(()) => run_fine(
            model_of(model),
            threads,
            tables,
            memory,
            registers,
            schedule,
        ),
    }
}
