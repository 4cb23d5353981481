// Reads a thread's text from standard input and prints its graph, or why it is refused.
#![tactic(auto)]

ghost use Rattle.std.specs.Prelude.{◌≤◌, length, IfOk};

use print::AREA;
use show::show;
use std::io;
use std::io::Read;
use thread::{EDGE_WIDTH, MOST_NUMBERS, NODE_WIDTH};

const NODE_ROOM: usize = 400 * NODE_WIDTH;

const EDGE_ROOM: usize = 900 * EDGE_WIDTH;

// what is to be read, as much of it as the buffer has room for
fn read_full(from: &mut impl Read, buffer: &mut [u8]) -> io::Result<usize>
    ensures { IfOk result (λ n. n ≤ length buffer.new) }
{
    let mut n: usize = 0;
    while n < buffer.len() {
        let got = from.read(&mut buffer[n..])?;
        if got == 0 {
            break;
        }
        n += got;
    }
    Ok(n)
}

fn main(rt: HostRuntime) -> io::Result<()> {
    // one byte more than a text may have, so that a longer one is refused as such
    let mut text = [0u8; 4097];
    let n = read_full(&mut rt.stdin(), &mut text)?;
    let mut table = [0u32; MOST_NUMBERS];
    let mut nodes = [0u32; NODE_ROOM];
    let mut edges = [0u32; EDGE_ROOM];
    let mut area = [0u8; AREA];
    if let Ok(len) = show(&text[..n], &mut table, &mut nodes, &mut edges, &mut area) {
        if len <= area.len() {
            rt.write_all(&area[..len])?;
        }
    }
    Ok(())
}
