// The known answers that are run: number, place, nodes and edges of each, one line a case.
#![tactic(auto)]

ghost use Rattle.std.specs.Prelude.{◌≤◌};

use builder::build;
use std::io;

fn print(rt: &impl Print, number: u64, place: u64, nodes: u64, edges: u64) -> io::Result<()> {
    println!(rt; "{number}\t{place}\t{nodes}\t{edges}")
}

// in room for 4,096 nodes and 30,000 edges, filled with ones
fn show(rt: &impl Print, model: u32, table: &[u32]) -> io::Result<()> {
    let mut nodes = [1u32; 73728];
    let mut edges = [1u32; 210000];
    match build(model, table, &mut nodes, &mut edges) {
        Ok(built) => print(rt, 0, 0, built.nodes as u64, built.edges as u64),
        Err(refusal) => print(rt, refusal.number(), refusal.place(), 0, 0),
    }
}

// a line's kind and first field, where the table has it
fn put(table: &mut [u32], line: usize, kind: u32, field: u32) {
    if table.len() / 5 <= line {
        return;
    }
    table[5 * line] = kind;
    table[5 * line + 1] = field;
}

// stores to 11 variables from a line on, then return
fn eleven(table: &mut [u32], from: usize)
    requires { from ≤ 2 }
{
    for x in 0..11u32 {
        put(table, from + x as usize, 6, x);
    }
    put(table, from + 11, 11, 0);
}

// so many stores, each with a fence behind it, then return
fn fenced(table: &mut [u32], stores: usize)
    requires { stores ≤ 17 }
{
    for i in 0..stores {
        put(table, 2 * i, 6, 0);
        put(table, 2 * i + 1, 7, 0);
    }
    put(table, 2 * stores, 11, 0);
}

// a table of zeros is lines that set register 0 to 0
fn main(rt: HostRuntime) -> io::Result<()> {
    let mut stores = [0u32; 60];
    eleven(&mut stores, 0);
    show(&rt, 1, &stores)?;
    let mut one_set = [0u32; 65];
    eleven(&mut one_set, 1);
    show(&rt, 1, &one_set)?;
    let mut two_sets = [0u32; 70];
    eleven(&mut two_sets, 2);
    show(&rt, 1, &two_sets)?;
    let mut lines_64 = [0u32; 320];
    put(&mut lines_64, 63, 11, 0);
    show(&rt, 0, &lines_64)?;
    show(&rt, 1, &lines_64)?;
    let mut lines_65 = [0u32; 325];
    put(&mut lines_65, 64, 11, 0);
    show(&rt, 0, &lines_65)?;
    let mut stores_16 = [0u32; 165];
    fenced(&mut stores_16, 16);
    show(&rt, 0, &stores_16)?;
    show(&rt, 1, &stores_16)?;
    let mut stores_17 = [0u32; 175];
    fenced(&mut stores_17, 17);
    show(&rt, 0, &stores_17)?;
    Ok(())
}
