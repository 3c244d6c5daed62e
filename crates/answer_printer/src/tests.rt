ghost use Rattle.std.specs.Prelude.{◌≡◌, ◌<◌, ◌^◌, All, IfOk, OnOk, ℕ, length};
ghost use Rattle.term_pool.specs.Nodes.{PartsBelow, HasArguments};
ghost use Rattle.answer_printer.specs.Made.{AreMade};

use crate::reading::ids;
use crate::{SetFault, read_set_line, set_line, sorted_atoms};
use alpha_outside::{AtomId, List, Name, Node, Pred, TermId};
use atom_pool::AtomPool;
use std::alloc::Global;
use std::test::Fail;
use term_pool::TermPool;

/// A step in making atoms, in postfix order: what takes arguments takes them from a stack of terms.
#[derive(Clone, Copy)]
enum Step {
    Int(i64),
    Text(&'static [u8]),
    /// A term of so many arguments, without any a symbol.
    Call(&'static [u8], u32),
    /// An atom of so many arguments, and whether it is negated.
    Atom(bool, &'static [u8], u32),
}

/// The atoms that were made, in pools that have no others.
#[derive(Drop)]
struct Made {
    terms: TermPool,
    atoms: AtomPool,
    /// The terms that no step has taken.
    stack: Vec<TermId>,
}

impl Made {
    fn new(alloc: Global) -> Made
        ensures { AreMade result.terms result.atoms result.stack.items }
    {
        Made {
            terms: TermPool::new(alloc),
            atoms: AtomPool::new(alloc),
            stack: Vec::new(alloc),
        }
    }

    // A term onto the stack.
    fn push(&mut self, node: Node) -> Result<(), Fail>
        requires made { AreMade self.old.terms self.old.atoms self.old.stack.items }
        requires parts { PartsBelow (length self.old.terms) node }
        requires arguments { HasArguments node }
        ensures { OnOk result (AreMade self.new.terms self.new.atoms self.new.stack.items) }
    {
        let id = self.terms.intern(node)?;
        self.stack.push(id)?;
        Ok(())
    }

    // Takes so many terms from the stack.
    fn take(&mut self, alloc: Global, many: u32) -> Result<List<TermId>, Fail>
        requires made { AreMade self.old.terms self.old.atoms self.old.stack.items }
        ensures made { OnOk result (AreMade self.new.terms self.new.atoms self.new.stack.items) }
        ensures within { IfOk result (λ args. All (λ a. a < length self.new.terms) args) }
        ensures many { IfOk result (λ args. length args ≡ many) }
    {
        let from = self
            .stack
            .len()
            .checked_sub(many as usize)
            .ok_or("too few terms on the stack")?;
        let args = List::from_slice(alloc, &self.stack[from..])?;
        self.stack.truncate(from);
        Ok(args)
    }

    fn text(&mut self, alloc: Global, text: &[u8]) -> Result<(), Fail>
        requires { AreMade self.old.terms self.old.atoms self.old.stack.items }
        ensures { OnOk result (AreMade self.new.terms self.new.atoms self.new.stack.items) }
    {
        let text = Name::from_bytes(alloc, text)?;
        self.push(Node::Text(text))
    }

    fn symbol(&mut self, alloc: Global, name: &[u8]) -> Result<(), Fail>
        requires { AreMade self.old.terms self.old.atoms self.old.stack.items }
        ensures { OnOk result (AreMade self.new.terms self.new.atoms self.new.stack.items) }
    {
        let name = Name::from_bytes(alloc, name)?;
        self.push(Node::Symbol(name))
    }

    fn call(&mut self, alloc: Global, name: &[u8], many: u32) -> Result<(), Fail>
        requires made { AreMade self.old.terms self.old.atoms self.old.stack.items }
        requires some { 0 < many }
        ensures { OnOk result (AreMade self.new.terms self.new.atoms self.new.stack.items) }
    {
        let args = self.take(alloc, many)?;
        let name = Name::from_bytes(alloc, name)?;
        self.push(Node::Fun(name, args))
    }

    // An atom into its pool.
    fn add(&mut self, negated: bool, name: Name, arity: u32, args: &[TermId]) -> Result<(), Fail>
        requires made { AreMade self.old.terms self.old.atoms self.old.stack.items }
        requires within { All (λ a. a < length self.old.terms) args.now }
        requires arity { length args.now ≡ arity }
        ensures { OnOk result (AreMade self.new.terms self.new.atoms self.new.stack.items) }
    {
        let pred = self.atoms.pred(Pred::User {
            negated,
            name,
            arity,
        })?;
        self.atoms.intern(pred, args)?;
        Ok(())
    }

    fn atom(&mut self, alloc: Global, negated: bool, name: &[u8], arity: u32) -> Result<(), Fail>
        requires { AreMade self.old.terms self.old.atoms self.old.stack.items }
        ensures { OnOk result (AreMade self.new.terms self.new.atoms self.new.stack.items) }
    {
        let args = self.take(alloc, arity)?;
        let name = Name::from_bytes(alloc, name)?;
        self.add(negated, name, arity, args.as_slice())
    }

    fn step(&mut self, alloc: Global, step: Step) -> Result<(), Fail>
        requires { AreMade self.old.terms self.old.atoms self.old.stack.items }
        ensures { OnOk result (AreMade self.new.terms self.new.atoms self.new.stack.items) }
    {
        match step {
            Step::Int(number) => self.push(Node::Int(number)),
            Step::Text(text) => self.text(alloc, text),
            Step::Call(name, 0) => self.symbol(alloc, name),
            Step::Call(name, many) => self.call(alloc, name, many),
            Step::Atom(negated, name, many) => self.atom(alloc, negated, name, many),
        }
    }

    fn steps(&mut self, alloc: Global, steps: &[Step]) -> Result<(), Fail>
        requires { AreMade self.old.terms self.old.atoms self.old.stack.items }
        ensures { OnOk result (AreMade self.new.terms self.new.atoms self.new.stack.items) }
    {
        for step in steps {
            self.step(alloc, *step)?;
        }
        Ok(())
    }

    // The line of all atoms.
    fn line(&self, alloc: Global) -> Result<List<u8>, Fail>
        requires { AreMade self.now.terms self.now.atoms self.now.stack.items }
    {
        let all = ids(alloc, self.atoms.len())?;
        Ok(set_line(alloc, all.as_slice(), &self.atoms, &self.terms)?)
    }

    // The ids of all atoms in the order of their line.
    fn sorted(&self, alloc: Global) -> Result<Vec<AtomId>, Fail>
        requires { AreMade self.now.terms self.now.atoms self.now.stack.items }
    {
        let all = ids(alloc, self.atoms.len())?;
        Ok(sorted_atoms(alloc, all.as_slice(), &self.atoms, &self.terms)?)
    }
}

// The steps to one of nine atoms, in the order in which they are printed.
fn steps_to(atom: usize) -> &'static [Step] {
    match atom {
        0 => &[Step::Atom(false, b"v", 0)],
        1 => &[Step::Int(-1), Step::Atom(false, b"v", 1)],
        2 => &[Step::Int(2), Step::Atom(true, b"v", 1)],
        3 => &[Step::Call(b"a", 0), Step::Atom(false, b"v", 1)],
        4 => &[Step::Call(b"g", 0), Step::Atom(false, b"v", 1)],
        5 => &[Step::Text(b"b"), Step::Atom(false, b"v", 1)],
        6 => &[
            Step::Int(1),
            Step::Call(b"f", 1),
            Step::Atom(false, b"v", 1),
        ],
        7 => &[
            Step::Int(0),
            Step::Int(0),
            Step::Call(b"f", 2),
            Step::Atom(false, b"v", 1),
        ],
        _ => &[Step::Atom(true, b"w", 0)],
    }
}

// Makes these atoms, one after another.
fn make(alloc: Global, made: &mut Made, order: &[usize]) -> Result<(), Fail>
    requires { AreMade made.old.terms made.old.atoms made.old.stack.items }
    ensures { OnOk result (AreMade made.new.terms made.new.atoms made.new.stack.items) }
{
    for atom in order {
        made.steps(alloc, steps_to(*atom))?;
    }
    Ok(())
}

// The line of atoms that are made in this order.
fn line_of(alloc: Global, order: &[usize]) -> Result<List<u8>, Fail> {
    let mut made = Made::new(alloc);
    make(alloc, &mut made, order)?;
    made.line(alloc)
}

// The ids of atoms that are made in this order, in the order of their line.
fn sorted_of(alloc: Global, order: &[usize]) -> Result<Vec<AtomId>, Fail> {
    let mut made = Made::new(alloc);
    make(alloc, &mut made, order)?;
    made.sorted(alloc)
}

/// The line of the first eight atoms.
const LINE: &[u8] = b"{v, v(-1), -v(2), v(a), v(g), v(\"b\"), v(f(1)), v(f(0,0))}\n";

// Whether the text is the set of this line, or without a line no set.
fn reads_as(alloc: Global, text: &[u8], line: Option<&[u8]>) -> bool {
    match read_set_line(alloc, text) {
        Ok(read) => line == Some(read.as_slice()),
        Err(fault) => fault == SetFault::NotASet && line.is_none(),
    }
}

// Whether the line is that of the set that it is itself.
fn reads_as_itself(alloc: Global, line: &[u8]) -> bool {
    match line.split_last() {
        Some((_, text)) => reads_as(alloc, text, Some(line)),
        None => false,
    }
}

#[test]
fn atoms_have_one_line_in_whatever_order(rt: HostRuntime) -> Result<(), Fail> {
    let alloc = rt.alloc();
    let rows = [
        ([].as_slice(), b"{}\n".as_slice()),
        (&[8, 7], b"{v(f(0,0)), -w}\n"),
        (&[7, 6, 5, 4, 3, 2, 1, 0], LINE),
        (&[3, 7, 0, 5, 2, 6, 1, 4], LINE),
        (&[6, 1, 4, 0, 7, 3, 5, 2, 6], LINE),
    ];
    for (order, line) in rows {
        let made = line_of(alloc, order)?;
        assert_eq!(rt; made.as_slice(), line, "in the order {order:?}");
        assert!(rt; reads_as_itself(alloc, made.as_slice()));
    }
    Ok(())
}

// Whether the ids are these numbers.
fn are_numbered(ids: &[AtomId], numbers: &[u32]) -> bool {
    ids.len() == numbers.len() && ids.iter().zip(numbers).all(|(id, number)| id.0 == *number)
}

#[test]
fn ids_are_sorted_as_their_atoms_are_printed(rt: HostRuntime) -> Result<(), Fail> {
    let alloc = rt.alloc();
    let rows = [
        ([].as_slice(), [].as_slice()),
        (&[8, 7], &[1, 0]),
        (&[0, 1, 2], &[0, 1, 2]),
        (&[3, 7, 0, 5, 2, 6, 1, 4], &[2, 6, 4, 0, 7, 3, 5, 1]),
    ];
    for (order, numbers) in rows {
        let sorted = sorted_of(alloc, order)?;
        assert!(rt;
            are_numbered(sorted.as_slice(), numbers),
            "in the order {order:?}"
        );
    }
    Ok(())
}

#[test]
fn texts_have_one_line_or_are_no_sets(rt: HostRuntime) {
    let alloc = rt.alloc();
    let rows = [
        // Blanks, order and repeats do not matter.
        (b"{ b , a,b }".as_slice(), Some(b"{a, b}\n".as_slice())),
        (b"\t{}\r ", Some(b"{}\n")),
        (b"{- a}", Some(b"{-a}\n")),
        (
            b"{nothing( f ( -1 , \"x, y\" ) )}",
            Some(b"{nothing(f(-1,\"x, y\"))}\n"),
        ),
        (
            b"{v(f(1)),v(\"b\"),v(a),v(-1),v(f(0,0)),v(g),v,-v(2)}",
            Some(LINE),
        ),
        // Integers have one spelling.
        (
            b"{p(-9223372036854775808)}",
            Some(b"{p(-9223372036854775808)}\n"),
        ),
        (b"{p(9223372036854775808)}", None),
        (b"{p(01)}", None),
        (b"{p(- 1)}", None),
        (b"{p(-0)}", None),
        // Others are no sets.
        (b"{a,}", None),
        (b"{not}", None),
        (b"{p()}", None),
        (b"{a b}", None),
        (b"{a} %", None),
        (b"{a}\n", None),
        (b"", None),
    ];
    for (text, line) in rows {
        assert!(rt; reads_as(alloc, text, line), "{text:?}");
    }
}

// Adds a piece so many times.
fn push_many(text: &mut Vec<u8>, piece: &[u8], times: usize) -> Result<(), Fail> {
    for _ in 0..times {
        text.extend_from_slice(piece)?;
    }
    Ok(())
}

#[test]
fn a_deep_term_reads_as_itself(rt: HostRuntime) -> Result<(), Fail> {
    let alloc = rt.alloc();
    let mut line = Vec::new(alloc);
    push_many(&mut line, b"{p(", 1)?;
    push_many(&mut line, b"f(", 100_000)?;
    push_many(&mut line, b"0", 1)?;
    push_many(&mut line, b")", 100_000)?;
    push_many(&mut line, b")}", 1)?;
    let read = read_set_line(alloc, line.as_slice());
    line.push(b'\n')?;
    assert!(rt; matches!(&read, Ok(canonical) if canonical.as_slice() == line.as_slice()));
    Ok(())
}
