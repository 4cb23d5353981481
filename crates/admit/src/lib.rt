// The refusals 2 to 10 of a model and a table: each check a function, the first that refuses counts.
#![tactic(auto)]

ghost use Rattle.std.specs.Prelude.{◌≡◌, true, ◌&&◌, [], ◌∷◌, ◌<◌, ◌≤◌, set, leb};
ghost use Rattle.std.proofs.Math.ListN.{get_elem?};
ghost use Rattle.lists.specs.Lists.{any, lowest};
ghost use Rattle.lists.specs.Options.{option_of};
ghost use Rattle.thread.specs.Table.{line, instr_at, fields_of};
ghost use Rattle.checks.specs.Lines.{after, drains as drains_at, follows, passes, leads, unfenced};
ghost use Rattle.checks.specs.Checks.{good_fields, good_line, wrong_target, goes_on, bad_field, store_lines, too_many_stores, bad_target, no_next, unfenced_loop, first_of, admission, model_of};
ghost use Rattle.admit.specs.Answer.{answer, line_checks};
ghost use Rattle.admit.specs.Marks.{no_marks, mark_all, ways, is_open, Spread, Lined, Closed, Inside};

use thread::{
    Instr, LINE_WIDTH, Line, MOST_LINES, MOST_NUMBERS, MOST_STORES, Model, REGISTERS, Refusal,
    VARIABLES,
};

// model 0 is TSO; another that is admitted is PSO
#[tactic(auto, unfolding(checks::specs::Checks::model_of))]
pub fn model_of(model: u32) -> Model
    ensures { result ≡ model_of model }
{
    if model == 0 { Model::Tso } else { Model::Pso }
}

// "kind above 11, register or variable above 15, unused field not 0": none of these
#[tactic(auto, unfolding(thread::specs::Table::fields_of, checks::specs::Checks::good_fields))]
fn good_fields(kind: u32, a: u32, b: u32, c: u32, d: u32) -> bool
    ensures { result ≡ (leb kind 11 && good_fields (fields_of kind) (a ∷ b ∷ c ∷ d ∷ [])) }
{
    match kind {
        0 => a < REGISTERS && c == 0 && d == 0,
        1 => a < REGISTERS && b < REGISTERS && c == 0 && d == 0,
        2 => a < REGISTERS && b < REGISTERS && c < REGISTERS && d == 0,
        3 => a < REGISTERS && b < REGISTERS && c < REGISTERS && d == 0,
        4 => a < REGISTERS && b < VARIABLES && c == 0 && d == 0,
        5 => a < VARIABLES && b < REGISTERS && c == 0 && d == 0,
        6 => a < VARIABLES && c == 0 && d == 0,
        7 => a == 0 && b == 0 && c == 0 && d == 0,
        8 => a < REGISTERS && b < VARIABLES && c < REGISTERS && d < REGISTERS,
        9 => a < REGISTERS && c == 0 && d == 0,
        10 => b == 0 && c == 0 && d == 0,
        11 => a == 0 && b == 0 && c == 0 && d == 0,
        _ => false,
    }
}

// "target at or beyond the line count"
#[tactic(auto, unfolding(checks::specs::Checks::wrong_target))]
fn wrong_target(n: u32, instr: Instr) -> bool
    ensures { result ≡ wrong_target n instr }
{
    match instr {
        Instr::Branch(_, to) | Instr::Jump(to) => n <= to.0,
        _ => false,
    }
}

// neither jump nor return
#[tactic(auto, unfolding(checks::specs::Checks::goes_on))]
fn goes_on(instr: Instr) -> bool
    ensures { result ≡ goes_on instr }
{
    !matches!(instr, Instr::Jump(_) | Instr::Return)
}

// fence or cas
#[tactic(auto, unfolding(checks::specs::Lines::drains))]
fn drains(instr: Instr) -> bool
    ensures { result ≡ drains_at instr }
{
    matches!(instr, Instr::Fence | Instr::Cas(_, _, _, _))
}

// one line more is marked
fn mark(marks: &mut [bool; MOST_LINES], l: Line)
    ensures { marks.new ≡ set marks.old l.0 true }
{
    let at = l.0 as usize;
    if at < MOST_LINES {
        marks[at] = true;
    }
}

// the lines that may come after line l are marked, both ways of a branch
#[tactic(auto, unfolding(crate::specs::Marks::mark_all, checks::specs::Lines::after))]
fn mark_after(marks: &mut [bool; MOST_LINES], l: Line, instr: Instr)
    requires { l.0 < 64 }
    ensures { marks.new ≡ mark_all marks.old (after l instr) }
{
    let next = Line(l.0 + 1);
    match instr {
        Instr::Branch(_, to) => {
            mark(marks, to);
            mark(marks, next);
        }
        Instr::Jump(to) => mark(marks, to),
        Instr::Return => {}
        _ => mark(marks, next),
    }
}

// the lowest of n lines that is marked and not done
fn lowest_open(marks: &[bool; MOST_LINES], done: &[bool; MOST_LINES], n: u32) -> Option<u32>
    requires { n ≤ 64 }
    ensures { result ≡ option_of (lowest (is_open marks.now done.now) n) }
{
    (0..n).find(|l| marks[*l as usize] && !done[*l as usize])
}

// a table of whole lines, 1 to 64 of them
#[derive(Clone, Copy)]
struct Lines<'a> {
    table: &'a [u32],
    count: u32,
    ghost lined: { Lined table.now count },
}

impl Lines<'_> {
    // whether line l is as `good_fields` wants it
    fn good_line(self, l: Line) -> bool
        ensures { result ≡ good_line self.entry.table.now l }
    {
        let at = LINE_WIDTH * (l.0 as usize);
        good_fields(
            thread::number(self.table, at),
            thread::number(self.table, at + 1),
            thread::number(self.table, at + 2),
            thread::number(self.table, at + 3),
            thread::number(self.table, at + 4),
        )
    }

    // 6: the lowest bad line
    fn bad_field(self) -> Result<(), Refusal>
        ensures { result ≡ answer (bad_field self.entry.table.now) }
    {
        for l in 0..self.count {
            if !self.good_line(Line(l)) {
                return Err(Refusal::BadField(Line(l)));
            }
        }
        Ok(())
    }

    // store line number `at`, from 0
    fn nth_store(self, at: usize) -> Option<Line>
        ensures { result ≡ option_of (get_elem? (store_lines (instr_at self.entry.table.now) self.entry.count) at) }
    {
        (0..self.count)
            .map(Line)
            .filter(|l| thread::is_store(thread::instr_at(self.table, *l)))
            .nth(at)
    }

    // 7: the 17th store line
    #[tactic(auto, unfolding(crate::specs::Answer::answer, checks::specs::Checks::too_many_stores, lists::specs::Options::option_of))]
    fn too_many_stores(self) -> Result<(), Refusal>
        ensures { result ≡ answer (too_many_stores self.entry.table.now) }
    {
        match self.nth_store(MOST_STORES as usize) {
            Some(l) => Err(Refusal::TooManyStores(l)),
            None => Ok(()),
        }
    }

    // 8: the lowest line with such a target
    fn bad_target(self) -> Result<(), Refusal>
        ensures { result ≡ answer (bad_target self.entry.table.now) }
    {
        for l in 0..self.count {
            if wrong_target(self.count, thread::instr_at(self.table, Line(l))) {
                return Err(Refusal::BadTarget(Line(l)));
            }
        }
        Ok(())
    }

    // 9: the last line, where it goes on
    #[tactic(auto, unfolding(crate::specs::Answer::answer, checks::specs::Checks::no_next, checks::specs::Checks::when))]
    fn no_next(self) -> Result<(), Refusal>
        ensures { result ≡ answer (no_next self.entry.table.now) }
    {
        let last = Line(self.count - 1);
        if goes_on(thread::instr_at(self.table, last)) {
            return Err(Refusal::NoNext(last));
        }
        Ok(())
    }

    // 6 to 10
    #[tactic(auto, using(crate::proofs::Answers::closed), unfolding(crate::specs::Answer::answer, checks::specs::Checks::first_of))]
    fn judge(self) -> Result<(), Refusal>
        ensures { result ≡ answer (first_of (line_checks self.entry.table.now)) }
    {
        self.bad_field()?;
        self.too_many_stores()?;
        self.bad_target()?;
        self.no_next()?;
        let closed = ClosedLines {
            table: self.table,
            count: self.count,
        };
        closed.unfenced_loop()
    }
}

// the same lines, where they lead to each other alone
#[derive(Clone, Copy)]
struct ClosedLines<'a> {
    table: &'a [u32],
    count: u32,
    ghost closed: { Closed table.now count },
}

impl ClosedLines<'_> {
    // the lines that may come after line l are marked; only where fences are passed also after fence and cas
    #[tactic(auto, unfolding(crate::specs::Marks::mark_all, crate::specs::Marks::ways, checks::specs::Lines::follows, checks::specs::Lines::passes))]
    fn mark_ways(self, fences: bool, marks: &mut [bool; MOST_LINES], l: Line)
        requires { l.0 < 64 }
        ensures { marks.new ≡ mark_all marks.old (ways fences (instr_at self.entry.table.now) l) }
    {
        let instr = thread::instr_at(self.table, l);
        if fences || !drains(instr) {
            mark_after(marks, l, instr);
        }
    }

    // all lines are marked that can be reached from marked ones
    fn spread(self, fences: bool, marks: &mut [bool; MOST_LINES])
        requires { Inside self.count marks.old }
        ensures { Spread (ways fences (instr_at self.entry.table.now)) marks.old marks.new }
    {
        let mut done = [false; MOST_LINES];
        while let Some(l) = lowest_open(marks, &done, self.count) {
            self.mark_ways(fences, marks, Line(l));
            done[l as usize] = true;
        }
    }

    // whether line l can be left and reached again with no fence or cas on the way
    fn again(self, l: Line) -> bool
        requires { l.0 < self.count }
        ensures { result ≡ any (λ k. leads (passes (instr_at self.entry.table.now)) self.entry.count k l) (follows (instr_at self.entry.table.now) l) }
    {
        let mut marks = [false; MOST_LINES];
        self.mark_ways(true, &mut marks, l);
        self.spread(false, &mut marks);
        marks[l.0 as usize]
    }

    // whether line l, reached from line 0 as marked, is a store line of an unfenced loop
    fn unfenced_at(self, reached: &[bool; MOST_LINES], l: Line) -> bool
        requires { (l.0 < self.count) × Spread (follows (instr_at self.table.now)) (mark_all no_marks (line 0 ∷ [])) reached.now }
        ensures { result ≡ unfenced (instr_at self.entry.table.now) self.entry.count l }
    {
        thread::is_store(thread::instr_at(self.table, l)) && reached[l.0 as usize] && self.again(l)
    }

    // 10: the lowest store line of an unfenced loop
    fn unfenced_loop(self) -> Result<(), Refusal>
        ensures { result ≡ answer (unfenced_loop self.entry.table.now) }
    {
        let mut reached = [false; MOST_LINES];
        mark(&mut reached, Line(0));
        self.spread(true, &mut reached);
        for l in 0..self.count {
            if self.unfenced_at(&reached, Line(l)) {
                return Err(Refusal::UnfencedLoop(Line(l)));
            }
        }
        Ok(())
    }
}

// 2 to 10, lowest number first
#[tactic(auto, unfolding(crate::specs::Answer::answer, checks::specs::Checks::admission, checks::specs::Checks::first_of, checks::specs::Checks::bad_model, checks::specs::Checks::no_lines, checks::specs::Checks::too_many_lines, checks::specs::Checks::ragged_table, checks::specs::Checks::when))]
pub fn admit(model: u32, table: &[u32]) -> Result<(), Refusal>
    ensures { result ≡ answer (admission model table.now) }
{
    if 1 < model {
        return Err(Refusal::BadModel);
    }
    let len = table.len();
    if len == 0 {
        return Err(Refusal::NoLines);
    }
    if MOST_NUMBERS < len {
        return Err(Refusal::TooManyLines);
    }
    if len % LINE_WIDTH != 0 {
        return Err(Refusal::RaggedTable);
    }
    let lines = Lines {
        table,
        count: (len / LINE_WIDTH) as u32,
    };
    lines.judge()
}
