// Four generated threads held flat: memory, and their nodes, registers and auxiliary values each in one array, thread by thread. A
// turn of one of them is done where its values lie: it reads the few numbers that its step needs, and writes one or two.
#![tactic(auto)]

ghost use Rattle.std.specs.Prelude.{◌≡◌, ◌<◌};
ghost use Rattle.lists.specs.Slices.{contents};
ghost use Rattle.runs.specs.Run.{takes};
ghost use Rattle.step.specs.Step.{searched};
ghost use Rattle.shown.specs.Ran.{world};
ghost use Rattle.flat.specs.Flat.{thread_in, threads_in, sought_step, TurnedIn, Done};

use thread::{MOST_LINES, MOST_THREADS, Node};

// registers 0 to 15
const OWN: usize = thread::REGISTERS as usize;

// memory, and four threads: thread t's node at place t, its registers from place 16 t on, and its auxiliary values from 64 t on
#[derive(Clone, Copy)]
pub struct Flat {
    pub memory: [u32; 16],
    pub nodes: [u32; 4],
    pub registers: [u32; 64],
    pub auxiliaries: [u32; 256],
}

impl Flat {
    // thread `t` takes a choice by the edge records of a table, if it has got that choice
    fn turn_at(&mut self, table: &[u32], t: usize, choice: u32) -> bool
        requires { t < 4 }
        ensures { Done (searched table.now choice self.old.memory (thread_in self.old t)) t self.old.memory (threads_in self.old) result self.new.memory (threads_in self.new) }
    {
        let r = OWN * t;
        let a = MOST_LINES * t;
        let from = Node(self.nodes[t]);
        let Some(to) = step::step_in(
            table,
            choice,
            from,
            &mut self.memory,
            &mut self.registers[r..r + OWN],
            &mut self.auxiliaries[a..a + MOST_LINES],
        ) else {
            return false;
        };
        self.nodes[t] = to.0;
        true
    }

    // an item of the schedule: thread `t`, if it is one of the first `threads`, takes a choice by its own table; else nothing changes
    pub fn turn(&mut self, threads: u32, tables: &[&[u32]; 4], t: u32, choice: u32) -> bool
        ensures { TurnedIn threads (takes (sought_step (contents tables.now)) (world threads self.old.memory (threads_in self.old)) t choice) self.old.memory (threads_in self.old) result self.new.memory (threads_in self.new) }
    {
        if threads <= t {
            return false;
        }
        if MOST_THREADS <= t {
            return false;
        }
        let own = t as usize;
        self.turn_at(tables[own], own, choice)
    }
}
