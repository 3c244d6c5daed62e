//! How a run ends, and what is written of it.

ghost use Rattle.std.specs.Prelude.{◌≡◌, ◌++◌, IfOk, string_bytes};
ghost use Rattle.alpha.specs.Texts.{code_of, finished_line, limit_line, budget_line, last_line_of, overflow_line, too_large_line, after_message, around, placed, lined, refusal_message, has_message, message_of};

use alpha_outside::{ArithOp, List, Name, OutOfMemory};
use asp_syntax::{Place, What};
use std::alloc::Global;

/// Why a text was refused. A place is a byte offset into the joined text, and lines are counted from 1.
#[derive(Debug, Drop)]
pub enum Refusal {
    /// Here the first bytes begin that are no token, blank or comment.
    Lex { at: Place },
    /// A number that no integer of 64 bits is begins here.
    NumberTooLarge { at: Place },
    /// With this token no program goes on; or the text ends here, and is no program.
    Syntax { at: Place },
    /// With this token the nesting passes 200.
    TooDeep { at: Place },
    /// This token belongs to a construct of other dialects.
    Unsupported { at: Place, what: What },
    /// The first statement that isn't built yet stands on this line.
    NotYet { line: u32 },
    /// The first unsafe statement stands on this line, and this is its first variable that isn't bound, or `_`.
    Unsafe { line: u32, variable: Name },
    /// The first statement with a recursive aggregate stands on this line, and this is the first predicate in an element that is in the
    /// statement's head or depends on it. A negated one has its `-`.
    AggregateRecursive { line: u32, name: Name },
}

/// What a search may use up.
#[derive(Clone, Copy, Debug, PartialEq, Eq)]
pub enum BudgetKind {
    /// Nogoods that are noted as struck.
    Conflicts,
    /// Instances that are made.
    Instances,
}

/// How a run ended. `printed` is how many answer sets were written.
#[derive(Debug, Drop)]
pub enum Status {
    /// All answer sets were written.
    Finished {
        printed: u64,
    },
    /// The words are refused.
    Usage,
    Refused(Refusal),
    /// The file of this name has more bytes than it may have.
    TextTooLong {
        name: Name,
    },
    /// The file of this name can't be read.
    ReadFault {
        name: Name,
    },
    /// This line of the file of sets, counted from 1, is the first that is no set, comment or empty line.
    AfterRefused {
        line: u64,
    },
    WriteFault,
    TraceFault,
    OutOfMemory,
    /// As many sets were written as the limit allows.
    LimitReached {
        printed: u64,
    },
    /// As much was done as this budget allows, which is `number`, and the search would have to go on.
    BudgetSpent {
        budget: BudgetKind,
        number: u64,
        printed: u64,
    },
    /// An operation of a rule of this line, with these operands, has no place in 64 bits, under a binding that makes all positive atoms of the
    /// rule true or must-be-true.
    Overflow {
        line: u32,
        op: ArithOp,
        left: i64,
        right: i64,
        printed: u64,
    },
    /// A rule of this line, whose positive atoms are all true or must-be-true, has a term, or a part of one, of so many symbols, which are
    /// more than 1,048,576.
    TermTooLarge {
        line: u32,
        size: u64,
        printed: u64,
    },
}

impl Status {
    /// The exit code.
    pub fn code(&self) -> u8
        ensures { result ≡ code_of self.now }
    {
        match self {
            Status::Finished { .. } => 0,
            Status::Usage => 2,
            Status::Refused(_) => 3,
            Status::TextTooLong { .. } => 5,
            Status::ReadFault { .. } => 6,
            Status::AfterRefused { .. } => 4,
            Status::WriteFault => 7,
            Status::TraceFault => 8,
            Status::OutOfMemory => 9,
            Status::LimitReached { .. } => 10,
            Status::BudgetSpent { .. } => 11,
            Status::Overflow { .. } => 12,
            Status::TermTooLarge { .. } => 13,
        }
    }

    /// Whether there is a message.
    pub fn has_message(&self) -> bool
        ensures { result ≡ has_message self.now }
    {
        match self {
            Status::Finished { .. } => false,
            Status::LimitReached { .. } => false,
            Status::BudgetSpent { .. } => false,
            Status::Overflow { .. } => false,
            Status::TermTooLarge { .. } => false,
            _ => true,
        }
    }
}

// A text before and one after a name, and a line feed.
fn around(alloc: Global, before: &[u8], name: &[u8], after: &[u8]) -> Result<List<u8>, OutOfMemory>
    ensures { IfOk result (λ l. l ≡ around before.now name.now after.now) }
{
    let mut text = Vec::new(alloc);
    text.extend_from_slice(before)?;
    text.extend_from_slice(name)?;
    text.extend_from_slice(after)?;
    text.push(b'\n')?;
    Ok(List::from_vec(text))
}

// The line of a run that wrote all answer sets.
fn finished_line(alloc: Global, printed: u64) -> Result<List<u8>, OutOfMemory>
    ensures { IfOk result (λ l. l ≡ finished_line printed) }
{
    let text = format!(in alloc; "% complete, {printed} printed\n")?;
    Ok(List::from_slice(alloc, text.as_bytes())?)
}

fn limit_line(alloc: Global, printed: u64) -> Result<List<u8>, OutOfMemory>
    ensures { IfOk result (λ l. l ≡ limit_line printed) }
{
    let text = format!(in alloc; "% limit, {printed} printed\n")?;
    Ok(List::from_slice(alloc, text.as_bytes())?)
}

fn conflicts_line(alloc: Global, number: u64, printed: u64) -> Result<List<u8>, OutOfMemory>
    ensures { IfOk result (λ l. l ≡ budget_line BudgetKind.Conflicts number printed) }
{
    let text = format!(in alloc; "% budget conflicts {number}, {printed} printed\n")?;
    Ok(List::from_slice(alloc, text.as_bytes())?)
}

fn instances_line(alloc: Global, number: u64, printed: u64) -> Result<List<u8>, OutOfMemory>
    ensures { IfOk result (λ l. l ≡ budget_line BudgetKind.Instances number printed) }
{
    let text = format!(in alloc; "% budget instances {number}, {printed} printed\n")?;
    Ok(List::from_slice(alloc, text.as_bytes())?)
}

fn budget_line(
    alloc: Global,
    budget: BudgetKind,
    number: u64,
    printed: u64,
) -> Result<List<u8>, OutOfMemory>
    ensures { IfOk result (λ l. l ≡ budget_line budget number printed) }
{
    match budget {
        BudgetKind::Conflicts => conflicts_line(alloc, number, printed),
        BudgetKind::Instances => instances_line(alloc, number, printed),
    }
}

fn overflow_line(alloc: Global, line: u32, printed: u64) -> Result<List<u8>, OutOfMemory>
    ensures { IfOk result (λ l. l ≡ overflow_line line printed) }
{
    let text = format!(in alloc; "% overflow line {line}, {printed} printed\n")?;
    Ok(List::from_slice(alloc, text.as_bytes())?)
}

fn too_large_line(alloc: Global, line: u32, printed: u64) -> Result<List<u8>, OutOfMemory>
    ensures { IfOk result (λ l. l ≡ too_large_line line printed) }
{
    let text = format!(in alloc; "% term too large line {line}, {printed} printed\n")?;
    Ok(List::from_slice(alloc, text.as_bytes())?)
}

/// The last line on the output, with its line feed, or nothing where the status has none.
pub fn last_line(alloc: Global, status: &Status) -> Result<List<u8>, OutOfMemory>
    ensures { IfOk result (λ l. l ≡ last_line_of status.now) }
{
    match status {
        Status::Finished { printed } => finished_line(alloc, *printed),
        Status::LimitReached { printed } => limit_line(alloc, *printed),
        Status::BudgetSpent {
            budget,
            number,
            printed,
        } => budget_line(alloc, *budget, *number, *printed),
        Status::Overflow { line, printed, .. } => overflow_line(alloc, *line, *printed),
        Status::TermTooLarge { line, printed, .. } => too_large_line(alloc, *line, *printed),
        _ => Ok(List::new(alloc)),
    }
}

// A text and a place behind it, and a line feed.
fn placed(alloc: Global, before: &[u8], at: Place) -> Result<List<u8>, OutOfMemory>
    ensures { IfOk result (λ l. l ≡ placed before.now at.0) }
{
    let place = at.0;
    let end = format!(in alloc; "{place}\n")?;
    let mut text = Vec::new(alloc);
    text.extend_from_slice(before)?;
    text.extend_from_slice(end.as_bytes())?;
    Ok(List::from_vec(text))
}

// The message for a line of the file of sets.
fn after_message(alloc: Global, line: u64) -> Result<List<u8>, OutOfMemory>
    ensures { IfOk result (λ l. l ≡ after_message line) }
{
    let text = format!(in alloc; "alpha: line {line} of the after file is not a set\n")?;
    Ok(List::from_slice(alloc, text.as_bytes())?)
}

// A text behind the line of a statement.
fn lined(alloc: Global, line: u32, after: &[u8]) -> Result<List<u8>, OutOfMemory>
    ensures { IfOk result (λ l. l ≡ lined line after.now) }
{
    let start = format!(in alloc; "alpha: line {line}")?;
    let mut text = Vec::new(alloc);
    text.extend_from_slice(start.as_bytes())?;
    text.extend_from_slice(after)?;
    Ok(List::from_vec(text))
}

fn unsafe_message(alloc: Global, line: u32, variable: &[u8]) -> Result<List<u8>, OutOfMemory>
    ensures { IfOk result (λ l. l ≡ refusal_message (Refusal.Unsafe line variable.now)) }
{
    let after = around(alloc, b": variable ", variable, b" is not bound")?;
    lined(alloc, line, after.as_slice())
}

fn recursive_message(alloc: Global, line: u32, name: &[u8]) -> Result<List<u8>, OutOfMemory>
    ensures { IfOk result (λ l. l ≡ refusal_message (Refusal.AggregateRecursive line name.now)) }
{
    let after = around(
        alloc,
        b": the aggregate over ",
        name,
        b" depends on its own head",
    )?;
    lined(alloc, line, after.as_slice())
}

fn refusal_message(alloc: Global, refusal: &Refusal) -> Result<List<u8>, OutOfMemory>
    ensures { IfOk result (λ l. l ≡ refusal_message refusal.now) }
{
    match refusal {
        Refusal::Lex { at } => placed(alloc, b"alpha: unreadable at byte ", *at),
        Refusal::NumberTooLarge { at } => placed(alloc, b"alpha: number too large at byte ", *at),
        Refusal::Syntax { at } => placed(alloc, b"alpha: syntax fault at byte ", *at),
        Refusal::TooDeep { at } => placed(alloc, b"alpha: nested too deep at byte ", *at),
        Refusal::Unsupported { at, .. } => placed(alloc, b"alpha: unsupported at byte ", *at),
        Refusal::NotYet { line } => lined(alloc, *line, b": not built yet\n"),
        Refusal::Unsafe { line, variable } => unsafe_message(alloc, *line, variable.as_bytes()),
        Refusal::AggregateRecursive { line, name } => {
            recursive_message(alloc, *line, name.as_bytes())
        }
    }
}

// What the program is used for.
const USAGE: &[u8] =
    b"alpha: usage: alpha solve [--after FILE] [--limit N] [--conflicts N] [--instances N] [--trace FILE] FILE... or alpha sample SEED N\n";

/// The message, with its line feed, or nothing where the status has none.
pub fn message(alloc: Global, status: &Status) -> Result<List<u8>, OutOfMemory>
    ensures { IfOk result (λ l. l ≡ message_of status.now) }
{
    match status {
        Status::Finished { .. } => Ok(List::new(alloc)),
        Status::LimitReached { .. } => Ok(List::new(alloc)),
        Status::BudgetSpent { .. } => Ok(List::new(alloc)),
        Status::Overflow { .. } => Ok(List::new(alloc)),
        Status::TermTooLarge { .. } => Ok(List::new(alloc)),
        Status::Usage => Ok(List::from_slice(alloc, USAGE)?),
        Status::Refused(refusal) => refusal_message(alloc, refusal),
        Status::TextTooLong { name } => around(alloc, b"alpha: ", name.as_bytes(), b" is too long"),
        Status::ReadFault { name } => around(alloc, b"alpha: cannot read ", name.as_bytes(), b""),
        Status::AfterRefused { line } => after_message(alloc, *line),
        Status::WriteFault => Ok(List::from_slice(alloc, b"alpha: cannot write\n")?),
        Status::TraceFault => Ok(List::from_slice(alloc, b"alpha: cannot write the trace\n")?),
        Status::OutOfMemory => Ok(List::from_slice(alloc, b"alpha: out of memory\n")?),
    }
}
