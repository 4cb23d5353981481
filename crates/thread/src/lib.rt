// What a thread is made of: its lines and instructions, the operations on the edges of its graph, and the reasons to refuse it.
#![tactic(auto)]

ghost use Rattle.std.specs.Prelude.{◌≡◌, ◌-◌, ◌++◌, length, set, take};
ghost use Rattle.thread.specs.Numbers.{◌!◌, zeros};
ghost use Rattle.thread.specs.Operation.{op_numbers};
ghost use Rattle.thread.specs.Refusal.{number_of, place_of};
ghost use Rattle.thread.specs.Table.{instr_of, instr_at, is_store};
ghost use Rattle.thread.specs.Word as Word;

// at most 64 lines, five numbers a line
pub const MOST_LINES: usize = 64;

pub const LINE_WIDTH: usize = 5;

pub const MOST_NUMBERS: usize = MOST_LINES * LINE_WIDTH;

// registers 0 to 15, variables 0 to 15
pub const REGISTERS: u32 = 16;

pub const VARIABLES: u32 = 16;

// at most 16 store lines in a table
pub const MOST_STORES: u32 = 16;

// at most 16 waiting stores in a node, 4,096 nodes in a graph
pub const MOST_WAITING: usize = 16;

pub const MOST_NODES: usize = 4096;

// a node record is 18 numbers, an edge record 7
pub const NODE_WIDTH: usize = 18;

pub const EDGE_WIDTH: usize = 7;

// 1 to 4 threads run
pub const MOST_THREADS: u32 = 4;

// a line of a thread, by its number
#[derive(Clone, Copy, Debug, PartialEq, Eq)]
pub struct Line(pub u32);

// a node of a thread's graph, by its number
#[derive(Clone, Copy, Debug, PartialEq, Eq)]
pub struct Node(pub u32);

#[derive(Clone, Copy, Debug, PartialEq, Eq)]
pub enum Model {
    Tso,
    Pso,
}

#[derive(Clone, Copy, Debug, PartialEq, Eq)]
pub enum Instr {
    Set(u32, u32),
    Copy(u32, u32),
    Add(u32, u32, u32),
    Sub(u32, u32, u32),
    Load(u32, u32),
    StoreR(u32, u32),
    StoreC(u32, u32),
    Fence,
    Cas(u32, u32, u32, u32),
    Branch(u32, Line),
    Jump(Line),
    Return,
}

#[derive(Clone, Copy, Debug, PartialEq, Eq)]
pub enum Op {
    Set(u32, u32),
    Copy(u32, u32),
    Add(u32, u32, u32),
    Sub(u32, u32, u32),
    Load(u32, u32),
    Take(u32, Line),
    KeepR(Line, u32),
    KeepC(Line, u32),
    Pass,
    Cas(u32, u32, u32, u32),
    IfNz(u32),
    IfZ(u32),
    Put(u32, Line),
}

// Why an input is refused, by the paper's names, with what fixes the place.
#[derive(Clone, Copy, Debug, PartialEq, Eq)]
pub enum Refusal {
    BadText(u64),
    BadModel,
    NoLines,
    TooManyLines,
    RaggedTable,
    BadField(Line),
    TooManyStores(Line),
    BadTarget(Line),
    NoNext(Line),
    UnfencedLoop(Line),
    PendingFull,
    TooManyNodes,
    TooManyEdges,
    BadThreads,
    NoSuchStep(u64),
}

// the number at a place of a table; 0 past the end
pub fn number(table: &[u32], at: usize) -> u32
    ensures { result ≡ table.now ! at }
{
    table.get(at).copied().unwrap_or(0)
}

// `v` at a place of a lent list; past the end there is no place
pub fn write(values: &mut [u32], at: usize, v: u32)
    ensures { values.new ≡ set values.old at v }
{
    if at < values.len() {
        values[at] = v;
    }
}

// zeros from a place of a lent room on
pub fn clear_from(room: &mut [u32], from: usize)
    ensures { room.new ≡ take from room.old ++ zeros (length room.old - from) }
{
    if from < room.len() {
        room[from..].fill(0);
    }
}

// "A refusal zeroes every table lent for writing"
pub fn clear(room: &mut [u32])
    ensures { room.new ≡ zeros (length room.old) }
{
    room.fill(0);
}

// the twelve kinds, 0 to 11, with their fields
#[tactic(auto, unfolding(crate::specs::Table::instr_of))]
pub fn instr_of(kind: u32, a: u32, b: u32, c: u32, d: u32) -> Instr
    ensures { result ≡ instr_of kind a b c d }
{
    match kind {
        0 => Instr::Set(a, b),
        1 => Instr::Copy(a, b),
        2 => Instr::Add(a, b, c),
        3 => Instr::Sub(a, b, c),
        4 => Instr::Load(a, b),
        5 => Instr::StoreR(a, b),
        6 => Instr::StoreC(a, b),
        7 => Instr::Fence,
        8 => Instr::Cas(a, b, c, d),
        9 => Instr::Branch(a, Line(b)),
        10 => Instr::Jump(Line(a)),
        _ => Instr::Return,
    }
}

// the instruction at a line of a table
#[tactic(auto, unfolding(crate::specs::Table::instr_at))]
pub fn instr_at(table: &[u32], line: Line) -> Instr
    ensures { result ≡ instr_at table.now line }
{
    let at = LINE_WIDTH * (line.0 as usize);
    instr_of(
        number(table, at),
        number(table, at + 1),
        number(table, at + 2),
        number(table, at + 3),
        number(table, at + 4),
    )
}

// kind 5 or 6
#[tactic(auto, unfolding(crate::specs::Table::is_store))]
pub fn is_store(instr: Instr) -> bool
    ensures { result ≡ is_store instr }
{
    matches!(instr, Instr::StoreR(_, _) | Instr::StoreC(_, _))
}

// the sum modulo 2^32
#[tactic(auto, unfolding(crate::specs::Word::add32))]
pub fn add32(a: u32, b: u32) -> u32
    ensures { result ≡ Word.add32 a b }
{
    a.wrapping_add(b)
}

// the difference modulo 2^32
#[tactic(auto, unfolding(crate::specs::Word::sub32))]
pub fn sub32(a: u32, b: u32) -> u32
    ensures { result ≡ Word.sub32 a b }
{
    a.wrapping_sub(b)
}

// an operation's five numbers
#[tactic(auto, unfolding(crate::specs::Operation::op_numbers))]
pub fn op_numbers(op: Op) -> [u32; 5]
    ensures { result ≡ op_numbers op }
{
    match op {
        Op::Set(r, v) => [0, r, v, 0, 0],
        Op::Copy(r, s) => [1, r, s, 0, 0],
        Op::Add(r, s, t) => [2, r, s, t, 0],
        Op::Sub(r, s, t) => [3, r, s, t, 0],
        Op::Load(r, x) => [4, r, x, 0, 0],
        Op::Take(r, l) => [5, r, l.0, 0, 0],
        Op::KeepR(l, r) => [6, l.0, r, 0, 0],
        Op::KeepC(l, v) => [7, l.0, v, 0, 0],
        Op::Pass => [8, 0, 0, 0, 0],
        Op::Cas(r, x, s, t) => [9, r, x, s, t],
        Op::IfNz(r) => [10, r, 0, 0, 0],
        Op::IfZ(r) => [11, r, 0, 0, 0],
        Op::Put(x, l) => [12, x, l.0, 0, 0],
    }
}

impl Refusal {
    // a refusal's number
    #[tactic(auto, unfolding(crate::specs::Refusal::number_of))]
    pub fn number(self) -> u64
        ensures { result ≡ number_of self }
    {
        match self {
            Refusal::BadText(_) => 1,
            Refusal::BadModel => 2,
            Refusal::NoLines => 3,
            Refusal::TooManyLines => 4,
            Refusal::RaggedTable => 5,
            Refusal::BadField(_) => 6,
            Refusal::TooManyStores(_) => 7,
            Refusal::BadTarget(_) => 8,
            Refusal::NoNext(_) => 9,
            Refusal::UnfencedLoop(_) => 10,
            Refusal::PendingFull => 11,
            Refusal::TooManyNodes => 12,
            Refusal::TooManyEdges => 13,
            Refusal::BadThreads => 14,
            Refusal::NoSuchStep(_) => 15,
        }
    }

    // a refusal's place
    #[tactic(auto, unfolding(crate::specs::Refusal::place_of))]
    pub fn place(self) -> u64
        ensures { result ≡ place_of self }
    {
        match self {
            Refusal::BadText(n) | Refusal::NoSuchStep(n) => n,
            Refusal::BadField(l)
            | Refusal::TooManyStores(l)
            | Refusal::BadTarget(l)
            | Refusal::NoNext(l)
            | Refusal::UnfencedLoop(l) => l.0 as u64,
            _ => 0,
        }
    }
}
