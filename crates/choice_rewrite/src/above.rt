//! What no name and no number of a variable reaches.

ghost use Rattle.std.specs.Prelude.{◌≡◌, ◌≤◌, length};
ghost use Rattle.asp_meaning.specs.Variables.{variables};
ghost use Rattle.asp_safety.specs.Binding.{variables_of};
ghost use Rattle.single_rules.specs.Renaming.{marks_of, marks_above, numbers_above};

use asp_syntax::Term;

// How many marks a name begins with.
fn marks_of(name: &[u8]) -> usize
    ensures marks { result ≡ marks_of name.now }
    ensures length { result ≤ length name.now }
{
    let mut count: usize = 0;
    for byte in name {
        if *byte != b'\'' {
            return count;
        }
        count += 1;
    }
    count
}

// More marks than the name of any variable of the term begins with.
fn marks_in_term(term: &Term) -> usize
    ensures { result ≡ marks_above (variables term.now) }
{
    match term {
        Term::Int(_) => 0,
        Term::Variable(name) => marks_of(name.as_bytes()) + 1,
        Term::Anonymous(_) => 0,
        Term::Symbol(_) => 0,
        Term::Text(_) => 0,
        Term::Fun(_, args) => {
            let mut above: usize = 0;
            for arg in args.as_slice() {
                above = above.max(marks_in_term(arg));
            }
            above
        }
        Term::Minus(inner) => marks_in_term(inner.get()),
        Term::Arith(_, left, right) => marks_in_term(left.get()).max(marks_in_term(right.get())),
    }
}

/// More marks than the name of any variable of the terms begins with.
pub fn marks_in(terms: &[Term]) -> usize
    ensures { result ≡ marks_above (variables_of terms.now) }
{
    let mut above: usize = 0;
    for term in terms {
        above = above.max(marks_in_term(term));
    }
    above
}

// A number above that of each anonymous variable of the term.
fn numbers_in_term(term: &Term) -> usize
    ensures { result ≡ numbers_above (variables term.now) }
{
    match term {
        Term::Int(_) => 0,
        Term::Variable(_) => 0,
        Term::Anonymous(number) => *number as usize + 1,
        Term::Symbol(_) => 0,
        Term::Text(_) => 0,
        Term::Fun(_, args) => {
            let mut above: usize = 0;
            for arg in args.as_slice() {
                above = above.max(numbers_in_term(arg));
            }
            above
        }
        Term::Minus(inner) => numbers_in_term(inner.get()),
        Term::Arith(_, left, right) => {
            numbers_in_term(left.get()).max(numbers_in_term(right.get()))
        }
    }
}

/// A number above that of each anonymous variable of the terms.
pub fn numbers_in(terms: &[Term]) -> usize
    ensures { result ≡ numbers_above (variables_of terms.now) }
{
    let mut above: usize = 0;
    for term in terms {
        above = above.max(numbers_in_term(term));
    }
    above
}
