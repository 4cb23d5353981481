// Reads texts, good and bad, and writes number, place, model and lines of each.
#![tactic(auto)]

use std::io;
use thread::Refusal;

fn show(rt: &impl Print, number: u64, place: u64, model: u64, lines: u64) -> io::Result<()> {
    println!(rt; "{number} {place} {model} {lines}")
}

// the reader gives 1 and 4
fn show_refusal(rt: &impl Print, why: Refusal) -> io::Result<()> {
    match why {
        Refusal::BadText(place) => show(rt, 1, place, 0, 0),
        Refusal::TooManyLines => show(rt, 4, 0, 0, 0),
        _ => println!(rt; "another refusal"),
    }
}

// room for twelve lines, and three numbers over
fn case(rt: &impl Print, bytes: &[u8]) -> io::Result<()> {
    let mut table: [u32; 63] = [9; 63];
    match text::read(bytes, &mut table) {
        Ok((model, lines)) => show(rt, 0, 0, model as u64, lines as u64),
        Err(why) => show_refusal(rt, why),
    }
}

fn good(rt: &impl Print) -> io::Result<()> {
    case(rt, b"tso\nstorec\t0\t1\nload\t0\t1\nreturn\n")?;
    case(rt, b"pso\n")?;
    case(
        rt,
        b"pso\nset\t0\t4294967295\ncopy\t0\t1\nadd\t0\t1\t2\nsub\t0\t1\t2\nload\t0\t1\nstorer\t0\t1\nstorec\t0\t1\nfence\ncas\t0\t1\t2\t3\nbranch\t0\t1\njump\t0\nreturn\n",
    )?;
    case(rt, b"tso\nset\t99\t0\n")?;
    Ok(())
}

fn bad_first(rt: &impl Print) -> io::Result<()> {
    case(rt, b"")?;
    case(rt, b"\n")?;
    case(rt, b"tso")?;
    case(rt, b"tsp\n")?;
    case(rt, b"tso \nfence\n")?;
    case(rt, b"tso\r\nfence\r\n")?;
    Ok(())
}

fn bad_fields(rt: &impl Print) -> io::Result<()> {
    case(rt, b"tso\nset\t0\t01\n")?;
    case(rt, b"tso\nset\t0\t4294967296\n")?;
    case(rt, b"tso\nset\t0\t\n")?;
    case(rt, b"tso\nset\t0\t1\t\n")?;
    case(rt, b"tso\nset\t\t0\t1\n")?;
    case(rt, b"tso\nset\t0\n")?;
    case(rt, b"tso\nset 0 1\n")?;
    case(rt, b"tso\nset\t0\t-1\n")?;
    Ok(())
}

fn bad_lines(rt: &impl Print) -> io::Result<()> {
    case(rt, b"tso\nfence")?;
    case(rt, b"tso\nfence\n\nreturn\n")?;
    case(rt, b"tso\nfence\nfenced\nfence")?;
    case(rt, b"pso\nfence\nFence\n")?;
    Ok(())
}

fn many(rt: &impl Print) -> io::Result<()> {
    case(
        rt,
        b"tso\nfence\nfence\nfence\nfence\nfence\nfence\nfence\nfence\nfence\nfence\nfence\nfence\nfence\n",
    )?;
    case(
        rt,
        b"tso\nfence\nfence\nfence\nfence\nfence\nfence\nfence\nfence\nfence\nfence\nfence\nfence\nfence\nbad\n",
    )?;
    let long: [u8; 4097] = [10; 4097];
    case(rt, &long)?;
    let full: [u8; 4096] = [10; 4096];
    case(rt, &full)?;
    Ok(())
}

fn main(rt: HostRuntime) -> io::Result<()> {
    good(&rt)?;
    bad_first(&rt)?;
    bad_fields(&rt)?;
    bad_lines(&rt)?;
    many(&rt)?;
    Ok(())
}
