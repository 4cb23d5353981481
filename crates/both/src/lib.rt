// Demand 3 in code: both runs of the same threads, and that what they return agrees.
#![tactic(auto)]

ghost use Rattle.std.specs.Prelude.{[], ◌∷◌};
ghost use Rattle.lists.specs.Slices.{contents};
ghost use Rattle.both.specs.Returned.{BothRun};

#[derive(Clone, Copy)]
pub struct TwoRuns {
    pub buffered: shown::Ran,
    pub generated: shown::Ran,
}

// the buffered and the generated run of the same threads, start and schedule
pub fn both(
    model: u32,
    threads: u32,
    tables: &[&[u32]; 4],
    n0: &mut [u32],
    e0: &mut [u32],
    n1: &mut [u32],
    e1: &mut [u32],
    n2: &mut [u32],
    e2: &mut [u32],
    n3: &mut [u32],
    e3: &mut [u32],
    memory: [u32; 16],
    registers: [u32; 64],
    schedule: &[u32],
) -> TwoRuns
    ensures { BothRun model threads (contents tables.now) memory registers schedule.now (n0.old ∷ n1.old ∷ n2.old ∷ n3.old ∷ []) (e0.old ∷ e1.old ∷ e2.old ∷ e3.old ∷ []) (n0.new ∷ n1.new ∷ n2.new ∷ n3.new ∷ []) (e0.new ∷ e1.new ∷ e2.new ∷ e3.new ∷ []) result.buffered result.generated }
{
    let buffered = run_buffered::run_buffered(model, threads, tables, memory, registers, schedule);
    let generated = run_generated::run_generated(
        model, threads, tables, n0, e0, n1, e1, n2, e2, n3, e3, memory, registers, schedule,
    );
    TwoRuns {
        buffered,
        generated,
    }
}
