// Edge records read: the operation that a record names, whether it serves a choice, and a table's first edge that leaves a node and does.
#![tactic(auto)]

ghost use Rattle.std.specs.Prelude.{◌≡◌, ◌-◌, length};
ghost use Rattle.lists.specs.Options.{option_of};
ghost use Rattle.thread.specs.Numbers.{◌!◌};
ghost use Rattle.thread.specs.Operation.{op_named, in_range, op_of};
ghost use Rattle.graphs.specs.Records.{edge_at, records_in, edges_in};
ghost use Rattle.generated.specs.Machine.{choice_of, test_holds, serves, edge_for};
ghost use Rattle.edges.specs.Sought.{records_of, edge_there, start_of, edge_near, edge_sought};

use graphs::Edge;
use thread::{EDGE_WIDTH, Line, MOST_LINES, Node, Op, REGISTERS, VARIABLES};

// the operation that five numbers name, by its number, with its fields; junk names none
#[tactic(auto, unfolding(thread::specs::Operation::op_named, lists::specs::Options::option_of))]
pub fn op_named(o: u32, a: u32, b: u32, c: u32, d: u32) -> Option<Op>
    ensures { result ≡ option_of (op_named o a b c d) }
{
    match o {
        0 => Some(Op::Set(a, b)),
        1 => Some(Op::Copy(a, b)),
        2 => Some(Op::Add(a, b, c)),
        3 => Some(Op::Sub(a, b, c)),
        4 => Some(Op::Load(a, b)),
        5 => Some(Op::Take(a, Line(b))),
        6 => Some(Op::KeepR(Line(a), b)),
        7 => Some(Op::KeepC(Line(a), b)),
        8 => Some(Op::Pass),
        9 => Some(Op::Cas(a, b, c, d)),
        10 => Some(Op::IfNz(a)),
        11 => Some(Op::IfZ(a)),
        12 => Some(Op::Put(a, Line(b))),
        _ => None,
    }
}

// whether an operation's registers, variables and lines are there
#[tactic(auto, unfolding(thread::specs::Operation::in_range))]
pub fn in_range(op: Op) -> bool
    ensures { result ≡ in_range op }
{
    match op {
        Op::Set(r, _) => r < REGISTERS,
        Op::Copy(r, s) => r < REGISTERS && s < REGISTERS,
        Op::Add(r, s, t) => r < REGISTERS && s < REGISTERS && t < REGISTERS,
        Op::Sub(r, s, t) => r < REGISTERS && s < REGISTERS && t < REGISTERS,
        Op::Load(r, x) => r < REGISTERS && x < VARIABLES,
        Op::Take(r, l) => r < REGISTERS && (l.0 as usize) < MOST_LINES,
        Op::KeepR(l, r) => (l.0 as usize) < MOST_LINES && r < REGISTERS,
        Op::KeepC(l, _) => (l.0 as usize) < MOST_LINES,
        Op::Pass => true,
        Op::Cas(r, x, s, t) => r < REGISTERS && x < VARIABLES && s < REGISTERS && t < REGISTERS,
        Op::IfNz(r) => r < REGISTERS,
        Op::IfZ(r) => r < REGISTERS,
        Op::Put(x, l) => x < VARIABLES && (l.0 as usize) < MOST_LINES,
    }
}

// the operation of a record's five numbers, built or junk
pub fn op_of(o: u32, a: u32, b: u32, c: u32, d: u32) -> Option<Op>
    ensures { result ≡ option_of (op_of o a b c d) }
{
    let op = op_named(o, a, b, c, d)?;
    if in_range(op) { Some(op) } else { None }
}

// the choice that an operation serves: 1 + x for a put to x, 0 for every other
#[tactic(auto, unfolding(generated::specs::Machine::choice_of))]
pub fn choice_of(op: Op) -> u64
    ensures { result ≡ choice_of op }
{
    match op {
        Op::Put(x, _) => x as u64 + 1,
        _ => 0,
    }
}

// whether the test of an operation holds, for one that has a test
#[tactic(auto, unfolding(generated::specs::Machine::test_holds))]
pub fn test_holds(registers: &[u32], op: Op) -> bool
    ensures { result ≡ test_holds registers.now op }
{
    match op {
        Op::IfNz(r) => thread::number(registers, r as usize) != 0,
        Op::IfZ(r) => thread::number(registers, r as usize) == 0,
        _ => true,
    }
}

// whether an operation serves a choice
pub fn serves(choice: u32, registers: &[u32], op: Op) -> bool
    ensures { result ≡ serves choice registers.now op }
{
    if choice_of(op) != choice as u64 {
        return false;
    }
    test_holds(registers, op)
}

// a record as an edge, if it is one
pub fn edge_of(record: &[u32; 7]) -> Option<Edge>
    ensures { result ≡ option_of (edge_at record.now 0) }
{
    let [from, to, o, a, b, c, d] = *record;
    let op = op_of(o, a, b, c, d)?;
    Some(Edge {
        from: Node(from),
        to: Node(to),
        op,
    })
}

// a record, if it is an edge that leaves the node and serves the choice
fn fits(record: &[u32; 7], node: Node, choice: u32, registers: &[u32]) -> Option<Edge>
    ensures { result ≡ option_of (edge_there record.now 0 node choice registers.now) }
{
    if record[0] != node.0 {
        return None;
    }
    let e = edge_of(record)?;
    if serves(choice, registers, e.op) {
        Some(e)
    } else {
        None
    }
}

// the records of a table
pub fn records(table: &[u32]) -> &[[u32; 7]]
    ensures records { result.now ≡ records_of table.now }
    ensures count { length result.now ≡ records_in 7 table.now }
{
    table.as_chunks::<EDGE_WIDTH>().0
}

// the first edge of a table, in order, that leaves the node and serves the choice
pub fn edge_for(table: &[u32], node: Node, choice: u32, registers: [u32; 16]) -> Option<Edge>
    ensures { result ≡ option_of (edge_for (edges_in table.now) node choice registers) }
{
    for record in records(table) {
        if let Some(e) = fits(record, node, choice, &registers) {
            return Some(e);
        }
    }
    None
}

// where the records that leave a node begin, in a table in the order of its nodes: found by halving
pub fn start_of(table: &[u32], node: Node) -> usize
    ensures { result ≡ start_of table.now node }
{
    let records = records(table);
    let mut lo: usize = 0;
    let mut hi = records.len();
    while lo < hi {
        let mid = lo + (hi - lo) / 2;
        if records[mid][0] < node.0 {
            lo = mid + 1;
        } else {
            hi = mid;
        }
    }
    lo
}

// from a record on, the first edge that serves the choice, as long as the records leave the node
pub fn edge_near(
    table: &[u32],
    node: Node,
    choice: u32,
    registers: &[u32],
    start: usize,
) -> Option<Edge>
    ensures { result ≡ option_of (edge_near table.now node choice registers.now start (records_in 7 table.now - start)) }
{
    let records = records(table);
    for k in start..records.len() {
        let record = &records[k];
        if record[0] != node.0 {
            return None;
        }
        if let Some(e) = fits(record, node, choice, registers) {
            return Some(e);
        }
    }
    None
}

// as `edge_for`, where the table is in the order of its nodes: only the node's own records are looked at
pub fn edge_sought_in(table: &[u32], node: Node, choice: u32, registers: &[u32]) -> Option<Edge>
    ensures { result ≡ option_of (edge_sought table.now node choice registers.now) }
{
    edge_near(table, node, choice, registers, start_of(table, node))
}

// the same of registers by value
pub fn edge_sought(table: &[u32], node: Node, choice: u32, registers: [u32; 16]) -> Option<Edge>
    ensures { result ≡ option_of (edge_sought table.now node choice registers) }
{
    edge_sought_in(table, node, choice, &registers)
}
