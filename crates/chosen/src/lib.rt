// What a choice of a buffered thread changes: decided from lent lists, of which only the few numbers that matter are read.
#![tactic(auto)]

ghost use Rattle.std.specs.Prelude.{◌≡◌, take};
ghost use Rattle.std.specs.Option.{option_map_or};
ghost use Rattle.lists.specs.Options.{option_of};
ghost use Rattle.thread.specs.Numbers.{◌!◌};
ghost use Rattle.pending.specs.Places.{last_for};
ghost use Rattle.chosen.specs.Decide.{thread_lent, following, cas_change, program_change, decided};

use thread::{Instr, Line, Model, number};

// what a step changes: the next line, with a register, a pair that waits, or register and memory of a cas; or the pair at a place reaches memory
#[derive(Clone, Copy)]
pub enum Change {
    Go(Line),
    Register(Line, u32, u32),
    Wait(Line, u32, u32),
    Swap(Line, u32, u32, u32),
    Put(usize),
}

// a thread whose numbers are lent: the first `count` names and values wait
#[derive(Clone, Copy)]
pub struct Lent<'a> {
    pub line: Line,
    pub count: u32,
    pub registers: &'a [u32],
    pub names: &'a [u32],
    pub values: &'a [u32],
}

impl Lent<'_> {
    #[tactic(auto, unfolding(crate::specs::Decide::following))]
    fn following(&self) -> Line
        ensures { result ≡ following self.now.line }
    {
        Line(thread::add32(self.line.0, 1))
    }

    // the value of a register
    fn register(&self, r: u32) -> u32
        ensures { result ≡ self.now.registers.now ! r }
    {
        number(self.registers, r as usize)
    }

    // the newest waiting value for `x`, else memory
    #[tactic(auto, unfolding(lists::specs::Options::option_of))]
    fn seen(&self, memory: &[u32], x: u32) -> u32
        ensures { result ≡ option_map_or (λ i. self.now.values.now ! i) (option_of (last_for (take self.now.count self.now.names.now) x)) (memory.now ! x) }
    {
        pending::last_for(self.names, self.count as usize, x).map_or_else(
            || number(memory, x as usize),
            |i| number(self.values, i),
        )
    }

    // a cas that passes: when variable `x` equals register `s` it becomes register `t` and register `r` 1; else register `r` becomes 0
    #[tactic(auto, unfolding(crate::specs::Decide::cas_change))]
    fn cas(&self, memory: &[u32], r: u32, x: u32, s: u32, t: u32) -> Change
        ensures { result ≡ cas_change (following self.now.line) r x s t memory.now self.now.registers.now }
    {
        let on = self.following();
        if number(memory, x as usize) == self.register(s) {
            Change::Swap(on, r, x, self.register(t))
        } else {
            Change::Register(on, r, 0)
        }
    }

    // the program step, if there is one now: fence and cas pass when nothing waits
    #[tactic(auto, unfolding(lists::specs::Options::option_of, crate::specs::Decide::program_change, crate::specs::Decide::seen_by))]
    fn program_change(&self, instr: Instr, memory: &[u32]) -> Option<Change>
        ensures { result ≡ option_of (program_change instr memory.now (thread_lent self.now)) }
    {
        let on = self.following();
        let change = match instr {
            Instr::Set(r, v) => Change::Register(on, r, v),
            Instr::Copy(r, s) => Change::Register(on, r, self.register(s)),
            Instr::Add(r, s, t) => {
                Change::Register(on, r, thread::add32(self.register(s), self.register(t)))
            }
            Instr::Sub(r, s, t) => {
                Change::Register(on, r, thread::sub32(self.register(s), self.register(t)))
            }
            Instr::Load(r, x) => Change::Register(on, r, self.seen(memory, x)),
            Instr::StoreR(x, r) => Change::Wait(on, x, self.register(r)),
            Instr::StoreC(x, v) => Change::Wait(on, x, v),
            Instr::Fence if self.count == 0 => Change::Go(on),
            Instr::Cas(r, x, s, t) if self.count == 0 => self.cas(memory, r, x, s, t),
            Instr::Branch(r, _) if self.register(r) == 0 => Change::Go(on),
            Instr::Branch(_, to) | Instr::Jump(to) => Change::Go(to),
            Instr::Fence | Instr::Cas(..) | Instr::Return => return None,
        };
        Some(change)
    }
}

// what a choice changes, if the thread has it now: 0 is the program step, 1 + x the waiting store to x reaching memory
#[tactic(auto, unfolding(lists::specs::Options::option_of, crate::specs::Decide::decided, crate::specs::Decide::put_change))]
pub fn decide(model: Model, instr: Instr, choice: u32, memory: &[u32], own: &Lent) -> Option<Change>
    ensures { result ≡ option_of (decided model instr choice memory.now (thread_lent own.now)) }
{
    if choice == 0 {
        return own.program_change(instr, memory);
    }
    pending::ready_for(model, own.names, own.count as usize, choice - 1).map(Change::Put)
}
