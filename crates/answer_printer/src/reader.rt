//! The reader of sets: a machine that takes one word after another.
//!
//! It keeps the arguments of the calls that are open on a stack, so nothing recurses, and interns a term when its last word has been
//! read. The atoms that it has read are all those of its pool, so repeats need no care.

ghost use Rattle.std.specs.Prelude.{◌≡◌, ◌<◌, [], ℕ, All, List, OnOk, length, map};
ghost use Rattle.asp_meaning.specs.Terms.{functional};
ghost use Rattle.asp_meaning.specs.declared.value.Value.{Value};
ghost use Rattle.term_pool.specs.Nodes.{part, value_at, value_from, values, PartsBelow, HasArguments};
ghost use Rattle.answer_printer.specs.Machine.{State, start, with_value, ended, settled, step, on_name, on_value, on_minus, on_open, on_open_brace};
ghost use Rattle.answer_printer.specs.Readers.{StandsIn, Gives};
ghost use Rattle.answer_printer.specs.declared.words.Word.TheVariants.{Comma, Close, CloseBrace};

use crate::fault::SetFault;
use crate::phase::Phase;
use crate::read_terms::ReadTerms;
use crate::words::Word;
use alpha_outside::{List, Name, Node, OutOfMemory, Pred, TermId};
use atom_pool::AtomPool;
use std::alloc::Global;
use std::mem;

/// An atom or a functional term whose arguments are being read, with those that have ended.
#[derive(Drop)]
pub struct OpenCall {
    pub name: Name,
    pub args: List<TermId>,
}

/// What has been read of a set.
#[derive(Drop)]
pub struct Reader {
    pub terms: ReadTerms,
    pub atoms: AtomPool,
    /// Whether a sign stands before the atom that is being read.
    pub negated: bool,
    /// The innermost call is the last.
    pub calls: List<OpenCall>,
    pub phase: Phase,
}

/// The most arguments that the arity of a predicate counts.
const MOST_ARGUMENTS: usize = 0xffff_ffff;

// The node of a name and its arguments: without arguments it is a symbol.
fn node_of(name: Name, args: List<TermId>) -> Node
    ensures value { (vs : List Value) → value_from vs result ≡ functional name (map (part vs) args) }
    ensures parts { (n : ℕ) → All (λ a. a < n) args → PartsBelow n result }
    ensures arguments { HasArguments result }
{
    if args.is_empty() {
        Node::Symbol(name)
    } else {
        Node::Fun(name, args)
    }
}

impl Reader {
    /// Nothing has been read.
    pub fn new(alloc: Global) -> Reader
        ensures { StandsIn result start }
    {
        Reader {
            terms: ReadTerms::new(alloc),
            atoms: AtomPool::new(alloc),
            negated: false,
            calls: List::new(alloc),
            phase: Phase::Start,
        }
    }

    // An argument has ended.
    fn end_value(&mut self, node: Node) -> Result<(), OutOfMemory>
        requires parts { PartsBelow (length self.old.terms) node }
        requires arguments { HasArguments node }
        ensures { (s : State) → StandsIn self.old s → OnOk result (StandsIn self.new (with_value (value_from (values self.old.terms) node) s.calls s)) }
    {
        let id = self.terms.intern(node)?;
        self.phase = Phase::Whole;
        let Some(mut call) = self.calls.pop() else {
            return Ok(());
        };
        call.args.push(id)?;
        self.calls.push(call)?;
        Ok(())
    }

    // An atom has ended.
    fn end_atom(&mut self, name: Name, args: List<TermId>) -> Result<(), OutOfMemory>
        requires args { All (λ a. a < length self.old.terms) args }
        requires outside { self.old.calls ≡ [] }
        ensures { (s : State) → StandsIn self.old s → OnOk result (StandsIn self.new (ended name (map (value_at self.old.terms) args) [] s)) }
    {
        if args.len() > MOST_ARGUMENTS {
            return Err(OutOfMemory);
        }
        let arity = args.len() as u32;
        let negated = self.negated;
        let pred = self.atoms.pred(Pred::User {
            negated,
            name,
            arity,
        })?;
        self.atoms.intern(pred, args.as_slice())?;
        self.negated = false;
        self.phase = Phase::Whole;
        Ok(())
    }

    // A name with its arguments has ended: an atom, or an argument of the innermost call.
    fn end_call(&mut self, name: Name, args: List<TermId>) -> Result<(), OutOfMemory>
        requires { All (λ a. a < length self.old.terms) args }
        ensures { (s : State) → StandsIn self.old s → OnOk result (StandsIn self.new (ended name (map (value_at self.old.terms) args) s.calls s)) }
    {
        if self.calls.is_empty() {
            return self.end_atom(name, args);
        }
        self.end_value(node_of(name, args))
    }

    // A name without arguments ends where no parenthesis comes.
    fn settle(&mut self, alloc: Global) -> Result<(), OutOfMemory>
        ensures { (s : State) → StandsIn self.old s → OnOk result (StandsIn self.new (settled s)) }
    {
        match mem::replace(&mut self.phase, Phase::Whole) {
            Phase::Named(name) => self.end_call(name, List::new(alloc)),
            phase => {
                self.phase = phase;
                Ok(())
            }
        }
    }

    fn on_name(&mut self, name: Name) -> Result<(), SetFault>
        ensures { (s : State) → StandsIn self.old s → Gives (on_name name s.phase s) self.new result }
    {
        if !self.phase.takes_name() {
            return Err(SetFault::NotASet);
        }
        self.phase = Phase::Named(name);
        Ok(())
    }

    fn on_value(&mut self, node: Node) -> Result<(), SetFault>
        requires parts { PartsBelow (length self.old.terms) node }
        requires arguments { HasArguments node }
        ensures { (s : State) → StandsIn self.old s → Gives (on_value (value_from (values self.old.terms) node) s.phase s.calls s) self.new result }
    {
        if !self.phase.is_due() || self.calls.is_empty() {
            return Err(SetFault::NotASet);
        }
        match self.end_value(node) {
            Ok(()) => Ok(()),
            Err(_) => Err(SetFault::OutOfMemory),
        }
    }

    fn on_minus(&mut self) -> Result<(), SetFault>
        ensures { (s : State) → StandsIn self.old s → Gives (on_minus s.phase s.calls s) self.new result }
    {
        if !self.phase.takes_atom() || !self.calls.is_empty() {
            return Err(SetFault::NotASet);
        }
        self.negated = true;
        self.phase = Phase::Signed;
        Ok(())
    }

    fn on_comma(&mut self, alloc: Global) -> Result<(), SetFault>
        ensures { (s : State) → StandsIn self.old s → Gives (step Comma s) self.new result }
    {
        let Ok(()) = self.settle(alloc) else {
            return Err(SetFault::OutOfMemory);
        };
        if !self.phase.is_whole() {
            return Err(SetFault::NotASet);
        }
        self.phase = Phase::Due;
        Ok(())
    }

    fn on_open(&mut self, alloc: Global) -> Result<(), SetFault>
        ensures { (s : State) → StandsIn self.old s → Gives (on_open s.phase s) self.new result }
    {
        let Phase::Named(name) = mem::replace(&mut self.phase, Phase::Due) else {
            return Err(SetFault::NotASet);
        };
        let call = OpenCall {
            name,
            args: List::new(alloc),
        };
        match self.calls.push(call) {
            Ok(()) => Ok(()),
            Err(_) => Err(SetFault::OutOfMemory),
        }
    }

    fn on_close(&mut self, alloc: Global) -> Result<(), SetFault>
        requires { (s : State) × StandsIn self.old s }
        ensures { (s : State) → StandsIn self.old s → Gives (step Close s) self.new result }
    {
        let Ok(()) = self.settle(alloc) else {
            return Err(SetFault::OutOfMemory);
        };
        if !self.phase.is_whole() {
            return Err(SetFault::NotASet);
        }
        let Some(call) = self.calls.pop() else {
            return Err(SetFault::NotASet);
        };
        let OpenCall { name, args } = call;
        match self.end_call(name, args) {
            Ok(()) => Ok(()),
            Err(_) => Err(SetFault::OutOfMemory),
        }
    }

    fn on_open_brace(&mut self) -> Result<(), SetFault>
        ensures { (s : State) → StandsIn self.old s → Gives (on_open_brace s.phase s) self.new result }
    {
        if !self.phase.is_start() {
            return Err(SetFault::NotASet);
        }
        self.phase = Phase::First;
        Ok(())
    }

    fn on_close_brace(&mut self, alloc: Global) -> Result<(), SetFault>
        ensures { (s : State) → StandsIn self.old s → Gives (step CloseBrace s) self.new result }
    {
        let Ok(()) = self.settle(alloc) else {
            return Err(SetFault::OutOfMemory);
        };
        if !self.phase.takes_end() || !self.calls.is_empty() {
            return Err(SetFault::NotASet);
        }
        self.phase = Phase::End;
        Ok(())
    }

    /// Takes the next word, if it may come. After a fault the reader is of no use.
    pub fn take(&mut self, alloc: Global, word: Word) -> Result<(), SetFault>
        requires { (s : State) × StandsIn self.old s }
        ensures { (s : State) → StandsIn self.old s → Gives (step word s) self.new result }
    {
        match word {
            Word::Id(name) => self.on_name(name),
            Word::Integer(number) => self.on_value(Node::Int(number)),
            Word::Text(inside) => self.on_value(Node::Text(inside)),
            Word::Minus => self.on_minus(),
            Word::Comma => self.on_comma(alloc),
            Word::Open => self.on_open(alloc),
            Word::Close => self.on_close(alloc),
            Word::OpenBrace => self.on_open_brace(),
            Word::CloseBrace => self.on_close_brace(alloc),
        }
    }
}
