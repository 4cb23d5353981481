// The known answers P9 to P11 through the code of both runs: number, place, thread, steps, then memory 0 and 1 and registers 0 and 1 of both threads.
#![tactic(auto)]

use run_buffered::run_buffered;
use run_generated::run_generated;
use runs::{Ended, Unfinished};
use std::io;

fn field(rt: &impl Print, n: u64) -> io::Result<()> {
    print!(rt; "{n}\t")
}

fn answer(rt: &impl Print, ended: Ended) -> io::Result<()> {
    match ended {
        Ok(steps) => {
            field(rt, 0)?;
            field(rt, 0)?;
            field(rt, 0)?;
            field(rt, steps)?;
        }
        Err(Unfinished::Refused(thread, refusal)) => {
            field(rt, refusal.number())?;
            field(rt, refusal.place())?;
            field(rt, thread as u64)?;
            field(rt, 0)?;
        }
        Err(Unfinished::Stopped(item)) => {
            field(rt, 15)?;
            field(rt, item)?;
            field(rt, 0)?;
            field(rt, item)?;
        }
    }
    Ok(())
}

fn state(
    rt: &impl Print,
    memory: [u32; 16],
    first: [u32; 16],
    second: [u32; 16],
) -> io::Result<()> {
    field(rt, memory[0] as u64)?;
    field(rt, memory[1] as u64)?;
    field(rt, first[0] as u64)?;
    field(rt, first[1] as u64)?;
    field(rt, second[0] as u64)?;
    field(rt, second[1] as u64)?;
    println!(rt; "")
}

fn buffered(
    rt: &impl Print,
    model: u32,
    t0: &[u32],
    t1: &[u32],
    schedule: &[u32],
) -> io::Result<()> {
    let r = run_buffered(
        model,
        2,
        &[t0, t1, t1, t1],
        [0u32; 16],
        [0u32; 64],
        schedule,
    );
    let ended = r.ended;
    let memory = r.memory;
    let a = r.threads[0];
    let b = r.threads[1];
    let first = a.registers;
    let second = b.registers;
    answer(rt, ended)?;
    state(rt, memory, first, second)
}

fn generated(
    rt: &impl Print,
    model: u32,
    t0: &[u32],
    t1: &[u32],
    schedule: &[u32],
) -> io::Result<()> {
    let mut n0 = [9u32; 180];
    let mut e0 = [9u32; 70];
    let mut n1 = [9u32; 180];
    let mut e1 = [9u32; 70];
    let mut n2 = [9u32; 20];
    let mut e2 = [9u32; 20];
    let mut n3 = [9u32; 20];
    let mut e3 = [9u32; 20];
    let r = run_generated(
        model,
        2,
        &[t0, t1, t1, t1],
        &mut n0,
        &mut e0,
        &mut n1,
        &mut e1,
        &mut n2,
        &mut e2,
        &mut n3,
        &mut e3,
        [0u32; 16],
        [0u32; 64],
        schedule,
    );
    let ended = r.ended;
    let memory = r.memory;
    let a = r.threads[0];
    let b = r.threads[1];
    let first = a.registers;
    let second = b.registers;
    answer(rt, ended)?;
    state(rt, memory, first, second)
}

fn both(rt: &impl Print, model: u32, t0: &[u32], t1: &[u32], schedule: &[u32]) -> io::Result<()> {
    buffered(rt, model, t0, t1, schedule)?;
    generated(rt, model, t0, t1, schedule)
}

fn main(rt: HostRuntime) -> io::Result<()> {
    let left = [6u32, 0, 1, 0, 0, 4, 0, 1, 0, 0, 11, 0, 0, 0, 0];
    let right = [6u32, 1, 1, 0, 0, 4, 0, 0, 0, 0, 11, 0, 0, 0, 0];
    let turns = [0u32, 0, 1, 0, 0, 0, 1, 0];
    both(&rt, 0, &left, &right, &turns)?;
    both(&rt, 1, &left, &right, &turns)?;
    let two = [6u32, 0, 7, 0, 0, 6, 1, 1, 0, 0, 11, 0, 0, 0, 0];
    let loads = [4u32, 0, 1, 0, 0, 4, 1, 0, 0, 0, 11, 0, 0, 0, 0];
    let early = [0u32, 0, 0, 0, 0, 2, 1, 0, 1, 0];
    both(&rt, 1, &two, &loads, &early)?;
    both(&rt, 0, &two, &loads, &early)?;
    Ok(())
}
