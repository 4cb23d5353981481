// The two forms over references: a search in a lent slice of edges, and one schedule item carried out on a machine behind a `&mut`.
// Both are thin: what they do is done by functions on values.
#![tactic(auto)]

ghost use Rattle.std.specs.Prelude.{◌&&◌, ◌≡◌, ltb, is_some, unwrap_or};
ghost use Rattle.lists.specs.Options.{option_of};
ghost use Rattle.generated.specs.Machine.{edge_for};
ghost use Rattle.held.specs.Held.{own_at, moved_along, stepped, item_done};
ghost use Rattle.held.specs.Few.{edge_of, placed, few};

use generated::Generated;
use graphs::Edge;
use thread::{Line, Node, Op};

// up to four generated threads over one memory: the first `count` are there
#[derive(Clone, Copy)]
pub struct Machine {
    pub memory: [u32; 16],
    pub threads: [Generated; 4],
    pub count: u32,
}

// the first of the lent edges, in order, that leaves the node and serves the choice
pub fn edge_in(edges: &[Edge], node: Node, choice: u32, registers: [u32; 16]) -> Option<Edge>
    ensures { result ≡ option_of (edge_for edges.now node choice registers) }
{
    edges
        .iter()
        .find(|e| e.from == node && edges::serves(choice, &registers, e.op))
        .copied()
}

// whether thread t is there
fn present(count: u32, t: u32) -> bool
    ensures { result ≡ ltb t count && ltb t 4 }
{
    t < count && t < 4
}

// thread t, if it is there
fn own_of(m: Machine, t: u32) -> Option<Generated>
    ensures { result ≡ option_of (own_at m t) }
{
    if present(m.count, t) {
        Some(m.threads[t as usize])
    } else {
        None
    }
}

// the machine whose thread t goes along an edge, if it is there and one was found
pub fn moved(m: Machine, t: u32, found: Option<Edge>) -> Option<Machine>
    ensures { result ≡ moved_along m t found }
{
    let own = own_of(m, t)?;
    let change = step::change_along(found, &m.memory, &own.registers, &own.auxiliaries)?;
    let after = step::apply(change, m.memory, own);
    let memory = after.memory;
    let mut threads = m.threads;
    threads[t as usize] = after.own;
    Some(Machine {
        memory,
        threads,
        count: m.count,
    })
}

// one schedule item: thread t takes a choice along its lent edges, if it is there and they have it; else the machine stays as it is
pub fn step(m: &mut Machine, edges: &[Edge], t: u32, choice: u32) -> bool
    ensures machine { m.new ≡ unwrap_or (stepped m.old edges.now t choice) m.old }
    ensures moves { result ≡ is_some (stepped m.old edges.now t choice) }
{
    let Some(own) = own_of(*m, t) else {
        return false;
    };
    let found = edge_in(edges, own.node, choice, own.registers);
    let Some(next) = moved(*m, t, found) else {
        return false;
    };
    *m = next;
    true
}

// as `edge_in`, of few edges by value: a caller names no reference to an edge
pub fn edge_among(table: [Edge; 8], node: Node, choice: u32, registers: [u32; 16]) -> Option<Edge>
    ensures { result ≡ option_of (edge_for table node choice registers) }
{
    edge_in(&table, node, choice, registers)
}

// as `step`, of a machine and few edges by value: a caller names no reference to a machine
pub fn step_among(start: Machine, table: [Edge; 8], t: u32, choice: u32) -> Option<Machine>
    ensures { result ≡ stepped start table t choice }
{
    let mut m = start;
    if step(&mut m, &table, t, choice) {
        Some(m)
    } else {
        None
    }
}

// one item of the run of up to four threads, each along its own edges; no thread is past the fourth
pub fn item_among(start: Machine, tables: [[Edge; 8]; 4], t: u32, choice: u32) -> Option<Machine>
    ensures { result ≡ item_done start tables t choice }
{
    let table = tables.get(t as usize)?;
    step_among(start, *table, t, choice)
}

// record k of a flat table as an edge, if it is one
pub fn edge_of(table: &[u32], k: usize) -> Option<Edge>
    ensures { result ≡ option_of (edge_of table.now k) }
{
    let record = edges::records(table).get(k)?;
    edges::edge_of(record)
}

// record k as an edge; where there is none, one that serves no choice
#[tactic(auto, unfolding(crate::specs::Few::placed))]
fn placed(table: &[u32], k: usize) -> Edge
    ensures { result ≡ placed table.now k }
{
    let idle = Edge {
        from: Node(0),
        to: Node(0),
        op: Op::Put(4294967295, Line(0)),
    };
    edge_of(table, k).unwrap_or(idle)
}

// the edges of a flat table's first eight records
pub fn few(table: &[u32]) -> [Edge; 8]
    ensures { result ≡ few table.now }
{
    std::array::from_fn(|k| placed(table, k))
}
