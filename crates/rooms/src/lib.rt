// The graphs of up to four threads in their lent rooms: built thread by thread up to the first that is refused, and zeroed at a refusal.
#![tactic(auto)]

ghost use Rattle.std.specs.Prelude.{◌≡◌, ◌<◌, ltb, length, get_or, [], ◌∷◌};
ghost use Rattle.lists.specs.Slices.{contents};
ghost use Rattle.room.specs.Room.{made};
ghost use Rattle.rooms.specs.Graphs.{edges_or, rooms_of, MakesFour, Makes};

use runs::bad_threads;
use thread::Refusal;

// how many edges the graph of thread `t` has, or `t` and why it is refused
fn build_thread(
    model: u32,
    count: u32,
    t: u32,
    tables: &[&[u32]; 4],
    nodes: &mut [u32],
    edges: &mut [u32],
) -> Result<u32, (u32, Refusal)>
    requires { t < 4 }
    ensures answer { result ≡ edges_or t (made (ltb t count) model (get_or (contents tables.now) t []) (length nodes.old) (length edges.old)).answer }
    ensures nodes { nodes.new ≡ (made (ltb t count) model (get_or (contents tables.now) t []) (length nodes.old) (length edges.old)).nodes }
    ensures edges { edges.new ≡ (made (ltb t count) model (get_or (contents tables.now) t []) (length nodes.old) (length edges.old)).edges }
{
    room::build_present(t < count, model, tables[t as usize], nodes, edges)
        .map(|built| built.edges)
        .map_err(|refusal| (t, refusal))
}

// 14, then "2 to 13 for one thread, against that thread's lent room, before it looks at the next"
fn build_four(
    model: u32,
    count: u32,
    tables: &[&[u32]; 4],
    n0: &mut [u32],
    e0: &mut [u32],
    n1: &mut [u32],
    e1: &mut [u32],
    n2: &mut [u32],
    e2: &mut [u32],
    n3: &mut [u32],
    e3: &mut [u32],
) -> Result<[u32; 4], (u32, Refusal)>
    ensures { MakesFour model count (contents tables.now) (rooms_of (n0.old ∷ n1.old ∷ n2.old ∷ n3.old ∷ []) (e0.old ∷ e1.old ∷ e2.old ∷ e3.old ∷ [])) (n0.new ∷ n1.new ∷ n2.new ∷ n3.new ∷ []) (e0.new ∷ e1.new ∷ e2.new ∷ e3.new ∷ []) result }
{
    if bad_threads(count) {
        return Err((0, Refusal::BadThreads));
    }
    let a = build_thread(model, count, 0, tables, n0, e0)?;
    let b = build_thread(model, count, 1, tables, n1, e1)?;
    let c = build_thread(model, count, 2, tables, n2, e2)?;
    let d = build_thread(model, count, 3, tables, n3, e3)?;
    Ok([a, b, c, d])
}

// the graphs of the first `count` threads in their rooms, or 14 or 2 to 13 with all rooms zero
pub fn fill(
    model: u32,
    count: u32,
    tables: &[&[u32]; 4],
    n0: &mut [u32],
    e0: &mut [u32],
    n1: &mut [u32],
    e1: &mut [u32],
    n2: &mut [u32],
    e2: &mut [u32],
    n3: &mut [u32],
    e3: &mut [u32],
) -> Result<[u32; 4], (u32, Refusal)>
    ensures { Makes model count (contents tables.now) (rooms_of (n0.old ∷ n1.old ∷ n2.old ∷ n3.old ∷ []) (e0.old ∷ e1.old ∷ e2.old ∷ e3.old ∷ [])) (n0.new ∷ n1.new ∷ n2.new ∷ n3.new ∷ []) (e0.new ∷ e1.new ∷ e2.new ∷ e3.new ∷ []) result }
{
    let making = build_four(model, count, tables, n0, e0, n1, e1, n2, e2, n3, e3);
    if making.is_err() {
        room::clear_all(n0, e0, n1, e1, n2, e2, n3, e3);
    }
    making
}
