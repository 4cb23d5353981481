// The run of generated threads: their graphs are built in the lent rooms, then the schedule's items move them along the edge records.
#![tactic(auto)]

ghost use Rattle.std.specs.Prelude.{◌≡◌, [], ◌∷◌, ◌*◌, ◌≤◌, length, get_or};
ghost use Rattle.lists.specs.Slices.{contents};
ghost use Rattle.runs.specs.Run.{items, run};
ghost use Rattle.generated.specs.RunGenerated.{run_generated};
ghost use Rattle.shown.specs.Ran.{start_of, world};
ghost use Rattle.rooms.specs.Graphs.{rooms_of, first_edges};
ghost use Rattle.flat.specs.Flat.{threads_in, sought_step};
ghost use Rattle.run_generated.specs.Threads.{start_four};
ghost use Rattle.run_generated.specs.Ran.{Goes, Runs};

use flat::Flat;
use generated::Generated;
use runs::Turns;
use shown::Ran;

// what a schedule moves: four threads, of whom the first so many are there, each with its edge records
#[derive(Clone, Copy)]
struct Machine<'a> {
    threads: u32,
    tables: &'a [&'a [u32]; 4],
    flat: Flat,
}

impl Turns for Machine<'_> {
    type Own = Generated;

    ghost step = { λ m. sought_step (contents m.tables.now) };

    ghost world = { λ m. world m.threads m.flat.memory (threads_in m.flat) };

    fn turn(&mut self, t: u32, choice: u32) -> bool {
        let threads = self.threads;
        let tables = self.tables;
        self.flat.turn(threads, tables, t, choice)
    }
}

// the steps by the edge records built, and what is shown at their end
fn go(
    threads: u32,
    nodes: &[&[u32]; 4],
    edges: &[&[u32]; 4],
    counts: [u32; 4],
    start: [u32; 16],
    given: [u32; 64],
    schedule: &[u32],
) -> Ran
    requires { (threads ≤ 4) × (7 * get_or counts 0 0 ≤ length (get_or (contents edges.now) 0 [])) × (7 * get_or counts 1 0 ≤ length (get_or (contents edges.now) 1 [])) × (7 * get_or counts 2 0 ≤ length (get_or (contents edges.now) 2 [])) × (7 * get_or counts 3 0 ≤ length (get_or (contents edges.now) 3 [])) }
    ensures { Goes threads (λ t. get_or (contents nodes.now) t []) (run (sought_step (first_edges (get_or counts 0 0) (get_or (contents edges.now) 0 []) ∷ first_edges (get_or counts 1 0) (get_or (contents edges.now) 1 []) ∷ first_edges (get_or counts 2 0) (get_or (contents edges.now) 2 []) ∷ first_edges (get_or counts 3 0) (get_or (contents edges.now) 3 []) ∷ [])) (items schedule.now) 0 (world threads start (start_four given))) result }
{
    let k0 = 7 * (counts[0] as usize);
    let k1 = 7 * (counts[1] as usize);
    let k2 = 7 * (counts[2] as usize);
    let k3 = 7 * (counts[3] as usize);
    let tables = [
        &edges[0][..k0],
        &edges[1][..k1],
        &edges[2][..k2],
        &edges[3][..k3],
    ];
    let mut machine = Machine {
        threads,
        tables: &tables,
        flat: Flat {
            memory: start,
            nodes: [0u32; 4],
            registers: given,
            auxiliaries: [0u32; 256],
        },
    };
    let ended = runs::carry_out(&mut machine, schedule);
    states::show(threads, nodes, ended, &machine.flat)
}

// the run of generated threads
pub fn run_generated(
    model: u32,
    threads: u32,
    tables: &[&[u32]; 4],
    n0: &mut [u32],
    e0: &mut [u32],
    n1: &mut [u32],
    e1: &mut [u32],
    n2: &mut [u32],
    e2: &mut [u32],
    n3: &mut [u32],
    e3: &mut [u32],
    memory: [u32; 16],
    registers: [u32; 64],
    schedule: &[u32],
) -> Ran
    ensures { Runs (run_generated (start_of model threads (contents tables.now) memory registers schedule.now) (rooms_of (n0.old ∷ n1.old ∷ n2.old ∷ n3.old ∷ []) (e0.old ∷ e1.old ∷ e2.old ∷ e3.old ∷ []))) (n0.new ∷ n1.new ∷ n2.new ∷ n3.new ∷ []) (e0.new ∷ e1.new ∷ e2.new ∷ e3.new ∷ []) result }
{
    match rooms::fill(model, threads, tables, n0, e0, n1, e1, n2, e2, n3, e3) {
        Err((t, refusal)) => shown::refused(t, refusal),
        Ok(counts) => go(
            threads,
            &[n0, n1, n2, n3],
            &[e0, e1, e2, e3],
            counts,
            memory,
            registers,
            schedule,
        ),
    }
}
