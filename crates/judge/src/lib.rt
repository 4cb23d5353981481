// The refusals of a run of buffered threads: 14, then 2 to 10 thread by thread.
#![tactic(auto)]

ghost use Rattle.std.specs.Prelude.{◌≡◌, [], ◌≤◌, get_or};
ghost use Rattle.lists.specs.Slices.{contents};
ghost use Rattle.checks.specs.Checks.{admission};
ghost use Rattle.runs.specs.Run.{first_bad, threads_refused};
ghost use Rattle.admit.specs.Answer.{answer};
ghost use Rattle.judge.specs.Answers.{judged};

use runs::bad_threads;
use thread::Refusal;

// "thread by thread": the first that is refused
#[tactic(auto, unfolding(crate::specs::Answers::judged))]
fn first_bad(model: u32, threads: u32, tables: &[&[u32]; 4]) -> Result<(), (u32, Refusal)>
    requires { threads ≤ 4 }
    ensures { result ≡ judged (first_bad (λ t. admission model (get_or (contents tables.now) t [])) 0 threads) }
{
    for t in 0..threads {
        if let Err(refusal) = admit::admit(model, tables[t as usize]) {
            return Err((t, refusal));
        }
    }
    Ok(())
}

// 14, then 2 to 10
#[tactic(auto, unfolding(crate::specs::Answers::judged))]
pub fn judge(model: u32, threads: u32, tables: &[&[u32]; 4]) -> Result<(), (u32, Refusal)>
    ensures { result ≡ judged (threads_refused (λ t. admission model (get_or (contents tables.now) t [])) threads) }
{
    if bad_threads(threads) {
        return Err((0, Refusal::BadThreads));
    }
    first_bad(model, threads, tables)
}
