// A built graph as the paper's text, in a lent area of bytes; and a refusal.
#![tactic(auto)]

ghost use Rattle.std.specs.Prelude.{◌≡◌, ◌≤◌, ◌∷◌, map, ◌+◌, ◌-◌, length};
ghost use Rattle.decimal.specs.Decimal.{decimal};
ghost use Rattle.thread.specs.Names.{op_name, model_name};
ghost use Rattle.bytes_out.specs.Page.{puts, tab};
ghost use Rattle.bytes_out.specs.Lent.{page_of};
ghost use Rattle.printed.specs.Text.{tabbed, line_text, lines_text, numbers_from, up_from};
ghost use Rattle.printed.specs.Graph.{field_count, node_fields, edge_fields, nodes_lines, graph_text};
ghost use Rattle.printed.specs.IsGraph.{nodes_fit, edges_fit, EdgesFit, is_graph};
ghost use Rattle.printed.specs.Printed.{print', printed, printed_refusal};
ghost use Rattle.printed.specs.Steps.{run_length, finished};

use bytes_out::{LINE_FEED, Page, TAB};
use printed::PrintError;
use thread::{EDGE_WIDTH, MOST_WAITING, NODE_WIDTH, number};

// room for the text of every graph of at most 400 nodes and 900 edges (crate `printed`, proofs/Area.antt)
pub const AREA: usize = 160000;

const MOST_MODEL: u32 = 1;

const MOST_OP: u32 = 12;

// how many fields the operations 0 to 12 have
const FIELD_COUNTS: [usize; 13] = [2, 2, 3, 3, 2, 2, 2, 2, 0, 4, 1, 1, 2];

// the names of the operations 0 to 12
const OP_NAMES: [&[u8]; 13] = [
    b"set", b"copy", b"add", b"sub", b"load", b"take", b"keepr", b"keepc", b"pass", b"cas",
    b"ifnz", b"ifz", b"put",
];

// the names of the models 0 and 1
const MODEL_NAMES: [&[u8]; 2] = [b"tso", b"pso"];

// the numbers from place `from` up to place `end`, a tab before each
#[tactic(auto, using(printed::proofs::Lines::puts_numbers_more, printed::proofs::Lines::puts_numbers_end))]
fn put_numbers(page: &mut Page, table: &[u32], from: usize, end: usize)
    ensures same_area { page.new.area.ghost_name ≡ page.old.area.ghost_name }
    ensures put { page_of page.new ≡ puts (page_of page.old) (tabbed (map decimal (numbers_from table.now from (end - from)))) }
{
    for i in from..end {
        page.put_field(number(table, i) as u64);
    }
}

// how many fields an operation has
#[tactic(auto, unfolding(printed::specs::Graph::field_count))]
fn field_count(op: u32) -> usize
    ensures { result ≡ field_count op }
{
    FIELD_COUNTS.get(op as usize).copied().unwrap_or(0)
}

#[tactic(auto, unfolding(thread::specs::Names::op_name, thread::specs::Names::op_names))]
fn op_name(op: u32) -> &'static [u8]
    ensures { result.now ≡ op_name op }
{
    OP_NAMES.get(op as usize).copied().unwrap_or(b"")
}

#[tactic(auto, unfolding(thread::specs::Names::model_name, thread::specs::Names::model_names))]
fn model_name(model: u32) -> &'static [u8]
    ensures { result.now ≡ model_name model }
{
    MODEL_NAMES.get(model as usize).copied().unwrap_or(b"")
}

// a name behind other fields: a tab and its bytes
#[tactic(auto, using(bytes_out::proofs::Pages::puts_first))]
fn put_name(page: &mut Page, name: &[u8])
    ensures same_area { page.new.area.ghost_name ≡ page.old.area.ghost_name }
    ensures put { page_of page.new ≡ puts (page_of page.old) (tab ∷ name.now) }
{
    page.put_byte(TAB);
    page.put_bytes(name);
}

// "`node`: number, line, count of waiting stores, their lines"
#[tactic(auto, using(printed::proofs::Lines::puts_node))]
fn put_node(page: &mut Page, table: &[u32], k: u32)
    ensures same_area { page.new.area.ghost_name ≡ page.old.area.ghost_name }
    ensures put { page_of page.new ≡ puts (page_of page.old) (line_text (node_fields table.now k)) }
{
    let base = NODE_WIDTH * k as usize;
    let count = number(table, base + 1) as usize;
    page.put_bytes(b"node");
    page.put_field(k as u64);
    put_numbers(page, table, base, base + 2 + count);
    page.put_byte(LINE_FEED);
}

// "`edge`: from, to, operation, its fields"
#[tactic(auto, using(printed::proofs::Lines::puts_edge, printed::proofs::Names::few_fields))]
fn put_edge(page: &mut Page, table: &[u32], j: u32)
    ensures same_area { page.new.area.ghost_name ≡ page.old.area.ghost_name }
    ensures put { page_of page.new ≡ puts (page_of page.old) (line_text (edge_fields table.now j)) }
{
    let base = EDGE_WIDTH * j as usize;
    let op = number(table, base + 2);
    page.put_bytes(b"edge");
    put_numbers(page, table, base, base + 2);
    put_name(page, op_name(op));
    put_numbers(page, table, base + 3, base + 3 + field_count(op));
    page.put_byte(LINE_FEED);
}

// the edges from number `j` up to number `end`
#[tactic(auto, using(printed::proofs::Lines::puts_lines_more, printed::proofs::Lines::puts_lines_end))]
fn put_edges(page: &mut Page, table: &[u32], j: u32, end: u32)
    ensures same_area { page.new.area.ghost_name ≡ page.old.area.ghost_name }
    ensures put { page_of page.new ≡ puts (page_of page.old) (lines_text (map (edge_fields table.now) (up_from j (end - j)))) }
{
    for i in j..end {
        put_edge(page, table, i);
    }
}

// the number of the first edge from number `j` on that doesn't leave node `k`
fn run_end(table: &[u32], k: u32, j: u32, m: u32) -> u32
    requires { j ≤ m }
    ensures { result ≡ j + run_length table.now k (up_from j (m - j)) }
{
    (j..m)
        .find(|i| number(table, EDGE_WIDTH * *i as usize) != k)
        .unwrap_or(m)
}

// each node, and behind it the edges that leave it
#[tactic(auto, using(printed::proofs::Runs::small, printed::proofs::Runs::fit_turn, printed::proofs::Runs::puts_turn, printed::proofs::Runs::puts_turn_end))]
fn put_nodes(page: &mut Page, n: u32, m: u32, nodes: &[u32], edges: &[u32])
    requires { EdgesFit edges.now n 0 (up_from 0 m) }
    ensures same_area { page.new.area.ghost_name ≡ page.old.area.ghost_name }
    ensures put { page_of page.new ≡ puts (page_of page.old) (lines_text (nodes_lines nodes.now edges.now (up_from 0 m) (up_from 0 n))) }
{
    let mut j: u32 = 0;
    for k in 0..n {
        put_node(page, nodes, k);
        let end = run_end(edges, k, j, m);
        put_edges(page, edges, j, end);
        j = end;
    }
}

// "`graph`: model, nodes, edges", and the nodes behind it
#[tactic(auto, using(printed::proofs::Lines::puts_graph))]
fn put_graph(page: &mut Page, model: u32, n: u32, m: u32, nodes: &[u32], edges: &[u32])
    requires { EdgesFit edges.now n 0 (up_from 0 m) }
    ensures same_area { page.new.area.ghost_name ≡ page.old.area.ghost_name }
    ensures put { page_of page.new ≡ puts (page_of page.old) (graph_text model n m nodes.now edges.now) }
{
    page.put_bytes(b"graph");
    put_name(page, model_name(model));
    page.put_field(n as u64);
    page.put_field(m as u64);
    page.put_byte(LINE_FEED);
    put_nodes(page, n, m, nodes, edges);
}

// no node has more waiting stores than there may be
fn nodes_fit(table: &[u32], n: u32) -> bool
    ensures { result ≡ nodes_fit table.now (up_from 0 n) }
{
    (0..n).all(|k| number(table, NODE_WIDTH * k as usize + 1) as usize <= MOST_WAITING)
}

// every edge has an operation and leaves a node, and they stand in the order of these nodes
#[tactic(auto, using(printed::proofs::Lines::up_more, printed::proofs::Lines::up_end), unfolding(printed::specs::IsGraph::edges_fit))]
fn edges_fit(table: &[u32], n: u32, m: u32) -> bool
    ensures { result ≡ edges_fit table.now n 0 (up_from 0 m) }
{
    let mut low: u32 = 0;
    for j in 0..m {
        let from = number(table, EDGE_WIDTH * j as usize);
        let op = number(table, EDGE_WIDTH * j as usize + 2);
        if from < low || n <= from || MOST_OP < op {
            return false;
        }
        low = from;
    }
    true
}

#[tactic(auto, unfolding(printed::specs::IsGraph::is_graph))]
fn is_graph(model: u32, n: u32, m: u32, nodes: &[u32], edges: &[u32]) -> bool
    ensures { result ≡ is_graph model n m nodes.now edges.now }
{
    model <= MOST_MODEL
        && NODE_WIDTH * n as usize <= nodes.len()
        && EDGE_WIDTH * m as usize <= edges.len()
        && nodes_fit(nodes, n)
        && edges_fit(edges, n, m)
}

// zeros behind the text; nothing but zeros where it didn't fit
#[tactic(auto, using(printed::proofs::Ending::finish_over, printed::proofs::Ending::finish_room))]
fn finish(page: &mut Page) -> Result<usize, PrintError>
    ensures same_area { page.new.area.ghost_name ≡ page.old.area.ghost_name }
    ensures finished { print' result page.new.area.now ≡ finished (page_of page.old) }
{
    if page.area.len() < page.at {
        page.area.fill(0);
        return Err(PrintError::TooSmall);
    }
    page.clear();
    Ok(page.at)
}

#[tactic(auto, using(printed::proofs::Fits::graph_edges_fit, printed::proofs::Ending::finish_text, printed::proofs::Ending::printed_graph, printed::proofs::Ending::printed_none))]
pub fn print(
    model: u32,
    n: u32,
    m: u32,
    nodes: &[u32],
    edges: &[u32],
    area: &mut [u8],
) -> Result<usize, PrintError>
    ensures { print' result area.new ≡ printed model n m nodes.now edges.now (length area.old) }
{
    if !is_graph(model, n, m, nodes, edges) {
        area.fill(0);
        return Err(PrintError::NotAGraph);
    }
    let mut page = Page { area, at: 0 };
    put_graph(&mut page, model, n, m, nodes, edges);
    finish(&mut page)
}

// "A refusal prints `refused`, number, place"
#[tactic(auto, using(printed::proofs::Lines::puts_refusal, printed::proofs::Ending::finish_text), unfolding(printed::specs::Printed::printed_refusal))]
pub fn print_refusal(number: u64, place: u64, area: &mut [u8]) -> Result<usize, PrintError>
    ensures { print' result area.new ≡ printed_refusal number place (length area.old) }
{
    let mut page = Page { area, at: 0 };
    page.put_bytes(b"refused");
    page.put_field(number);
    page.put_field(place);
    page.put_byte(LINE_FEED);
    finish(&mut page)
}
