// What both runs give back, as the code holds it.
#![tactic(auto)]

ghost use Rattle.std.specs.Prelude.{◌≡◌, Err};
ghost use Rattle.runs.specs.Shown.{zero_state};
ghost use Rattle.shown.specs.Ran.{part_of, nobody_state, ran_of};

use runs::{Ended, Unfinished};
use thread::{Line, Refusal};

// a thread as it is shown: the first `count` names (variables, or store lines) and values wait, in order; unused places are 0
#[derive(Clone, Copy)]
pub struct ThreadState {
    pub line: Line,
    pub registers: [u32; 16],
    pub names: [u32; 16],
    pub values: [u32; 16],
    pub count: u32,
}

// how the run ended, and the state it shows: memory and the threads, those that are not there all 0
#[derive(Clone, Copy)]
pub struct Ran {
    pub ended: Ended,
    pub memory: [u32; 16],
    pub threads: [ThreadState; 4],
}

// the 16 numbers of thread `t`, of a flat list; 0 past its end
pub fn part(all: &[u32], t: u32) -> [u32; 16]
    ensures { result ≡ part_of all.now t }
{
    let first = 16 * (t as usize);
    let mut own = [0u32; 16];
    for j in 0..16 {
        own[j] = thread::number(all, first + j);
    }
    own
}

// a thread that is not there
pub fn nobody() -> ThreadState
    ensures { result ≡ nobody_state }
{
    ThreadState {
        line: Line(0),
        registers: [0u32; 16],
        names: [0u32; 16],
        values: [0u32; 16],
        count: 0,
    }
}

// "A refusal zeroes .. state and count"
pub fn refused(t: u32, refusal: Refusal) -> Ran
    ensures { result ≡ ran_of (Err (Unfinished.Refused t refusal)) zero_state }
{
    let nobody = nobody();
    Ran {
        ended: Err(Unfinished::Refused(t, refusal)),
        memory: [0u32; 16],
        threads: [nobody; 4],
    }
}
