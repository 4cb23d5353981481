// The reader: a text becomes a model and a table of lines, or a refusal.
#![tactic(auto)]

ghost use Rattle.std.specs.Prelude.{◌≡◌, ◌++◌, ◌+◌, ◌*◌, ◌≤◌, ◌<◌, length, drop, position, IfSome, Ok};
ghost use Rattle.std.specs.Str.{bytes_eq};
ghost use Rattle.std.proofs.Math.Option.{map};
ghost use Rattle.lists.specs.Options.{option_of};
ghost use Rattle.thread.specs.Numbers.{zeros};
ghost use Rattle.thread.specs.Names.{instr_names, model_names};
ghost use Rattle.text.specs.Written.{feed, numbers_of, table_of};
ghost use Rattle.text.specs.Reading.{name_at, parts, read_parts, text_lines, read_line, read_lines};
ghost use Rattle.text.specs.Steps.{run, judgement, lines_in};
ghost use Rattle.text.specs.Read.{JudgedOk, ReadOk};

use thread::{LINE_WIDTH, MOST_LINES, Refusal, clear};

const TAB: u8 = 9;

const FEED: u8 = 10;

const MOST_BYTES: usize = 4096;

// text lines are numbered from 1
const FIRST: u64 = 1;

const MODELS: [&[u8]; 2] = [b"tso", b"pso"];

const KINDS: [&[u8]; 12] = [
    b"set", b"copy", b"add", b"sub", b"load", b"storer", b"storec", b"fence", b"cas", b"branch",
    b"jump", b"return",
];

// how many fields each kind uses
const COUNTS: [usize; 12] = [2, 2, 3, 3, 2, 2, 2, 0, 4, 2, 1, 0];

// how many bytes stand before the first line feed
#[tactic(auto, unfolding(crate::specs::Steps::run))]
fn run(bytes: &[u8]) -> usize
    ensures value { result ≡ run feed bytes.now }
    ensures within { result ≤ length bytes.now }
{
    bytes.iter().take_while(|b| **b != FEED).count()
}

// the place of a name among names, if it is one of them
fn name_at(name: &[u8], names: &[&[u8]]) -> Option<usize>
    ensures value { result ≡ position (λ n. bytes_eq n.now name.now) names.now }
    ensures within { IfSome result (λ place. place < length names.now) }
{
    names.iter().position(|n| *n == name)
}

fn kind_of(name: &[u8]) -> Option<usize>
    ensures value { result ≡ option_of (name_at name.now instr_names) }
    ensures within { IfSome result (λ kind. kind < 12) }
{
    name_at(name, &KINDS)
}

fn model_of(name: &[u8]) -> Option<usize>
    ensures value { result ≡ option_of (name_at name.now model_names) }
    ensures within { IfSome result (λ model. model < 2) }
{
    name_at(name, &MODELS)
}

// the five numbers of a line without its line feed
fn read_body(line: &[u8]) -> Option<[u32; LINE_WIDTH]>
    ensures { result ≡ option_of (map numbers_of (read_parts (parts line.now))) }
{
    let mut parts = line.split(|b| *b == TAB);
    let name = parts.next()?;
    let kind = kind_of(name)?;
    let mut numbers = [kind as u32, 0, 0, 0, 0];
    for i in 0..COUNTS[kind] {
        let field = parts.next()?;
        let value = decimal::read(field)?;
        numbers[i + 1] = value;
    }
    match parts.next() {
        None => Some(numbers),
        Some(_) => None,
    }
}

// the five numbers of a line, which its line feed ends
fn read_line(line: &[u8]) -> Option<[u32; LINE_WIDTH]>
    ensures { result ≡ option_of (map numbers_of (read_line line.now)) }
{
    let (last, body) = line.split_last()?;
    if *last != FEED {
        return None;
    }
    read_body(body)
}

// how many lines there are behind the model line, if all are good
fn judge(text: &[u8], from: usize) -> Result<usize, Refusal>
    requires { from ≤ length text.now }
    ensures { result ≡ judgement 0 (read_lines 2 (text_lines (drop from text.now))) }
{
    let mut count: usize = 0;
    for line in text[from..].split_inclusive(|b| *b == FEED) {
        if read_line(line).is_none() {
            return Err(Refusal::BadText(count as u64 + 2));
        }
        count += 1;
    }
    Ok(count)
}

// good lines become the front of the table
fn write_lines(text: &[u8], from: usize, count: usize, table: &mut [u32])
    requires { (from ≤ length text.now) × (judgement 0 (read_lines 2 (text_lines (drop from text.now))) ≡ Ok count) × (5 * count ≤ length table.old) }
    ensures { table.new ≡ table_of (lines_in (read_lines 2 (text_lines (drop from text.now)))) ++ drop (5 * count) table.old }
{
    for (k, line) in text[from..].split_inclusive(|b| *b == FEED).enumerate() {
        let numbers = read_line(line).unwrap();
        table[LINE_WIDTH * k..LINE_WIDTH * (k + 1)].copy_from_slice(&numbers);
    }
}

// good lines, where there is room for them
fn accept(
    text: &[u8],
    from: usize,
    model: u32,
    count: usize,
    table: &mut [u32],
) -> Result<(u32, u32), Refusal>
    requires { (from ≤ length text.now) × (judgement 0 (read_lines 2 (text_lines (drop from text.now))) ≡ Ok count) × (table.old ≡ zeros (length table.old)) }
    ensures { JudgedOk (length table.old) (record { model = model; lines = lines_in (read_lines 2 (text_lines (drop from text.now))) }) result table.new }
{
    if count > MOST_LINES.min(table.len() / LINE_WIDTH) {
        return Err(Refusal::TooManyLines);
    }
    write_lines(text, from, count, table);
    Ok((model, count as u32))
}

// "The reader gives 1, then 4; it returns model and line count"
pub fn read(text: &[u8], table: &mut [u32]) -> Result<(u32, u32), Refusal>
    ensures { ReadOk (length table.old) text.now result table.new }
{
    clear(table);
    if MOST_BYTES < text.len() {
        return Err(Refusal::BadText(0));
    }
    let end = run(text);
    if end == text.len() {
        return Err(Refusal::BadText(FIRST));
    }
    let Some(model) = model_of(&text[..end]) else {
        return Err(Refusal::BadText(FIRST));
    };
    let count = judge(text, end + 1)?;
    accept(text, end + 1, model as u32, count, table)
}
