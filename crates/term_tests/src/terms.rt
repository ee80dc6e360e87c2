use jdata::{Bytes, Cell, CellList, Fault, IntList, Leaves, Name, Primitive, Tree, Trouble};
use jterm::{Adv, Con, Locative, RankList, Term, adverb, conj, copy_name, fork, hook, ranks};
use std::alloc::Global;
use std::test::Fail;

fn name(alloc: Global, text: &str) -> Result<Name, Fail> {
    Ok(Name::of(Vec::from_slice(alloc, text.as_bytes())?))
}

fn is_named(locative: &Locative, name: &str, place: &str) -> bool {
    match &locative.place {
        Some(other) => {
            locative.name.items() == name.as_bytes() && other.items() == place.as_bytes()
        }
        None => false,
    }
}

#[test]
fn names_are_copied(rt: HostRuntime) -> Result<(), Fail> {
    let alloc = rt.alloc();
    let copy = copy_name(alloc, &name(alloc, "sum")?)?;
    assert_eq!(rt; copy.items(), b"sum".as_slice());
    let plain = Locative {
        name: copy,
        place: None,
    };
    let copy = plain.copy(alloc)?;
    assert_eq!(rt; copy.name.items(), b"sum".as_slice());
    assert!(rt; copy.place.is_none());
    Ok(())
}

fn copied_number(alloc: Global) -> Result<Option<i64>, Fail> {
    let noun = Term::Noun(Tree::atom(alloc, -3)?);
    match noun.copy(alloc)? {
        Term::Noun(tree) => Ok(tree.integer()),
        _ => Ok(None),
    }
}

fn is_reference_copied(alloc: Global) -> Result<bool, Fail> {
    let reference = Term::Name(Locative {
        name: name(alloc, "sum")?,
        place: Some(name(alloc, "z")?),
    });
    match reference.copy(alloc)? {
        Term::Name(to) => Ok(is_named(&to, "sum", "z")),
        _ => Ok(false),
    }
}

fn is_reflex_copied(alloc: Global) -> Result<bool, Fail> {
    let minus = adverb(alloc, Adv::Tilde, Term::Verb(Primitive::Minus))?;
    match minus.copy(alloc)? {
        Term::With1 { word, left } => {
            Ok(word == Adv::Tilde && matches!(left.get(), Term::Verb(Primitive::Minus)))
        }
        _ => Ok(false),
    }
}

#[test]
fn terms_are_copied(rt: HostRuntime) -> Result<(), Fail> {
    let alloc = rt.alloc();
    assert_eq!(rt; copied_number(alloc)?, Some(-3));
    assert!(rt; is_reference_copied(alloc)?);
    assert!(rt; is_reflex_copied(alloc)?);
    Ok(())
}

/// An operand of a table.
#[derive(Clone, Copy)]
enum Operand {
    /// An integer.
    Atom(i64),
    /// Integers.
    List(&'static [i64]),
    /// A matrix of two rows and two columns.
    Matrix,
    Text(&'static str),
    /// A list of one box.
    Box,
    /// A number word with `_`.
    Ranks(&'static [Option<i64>]),
    Verb(Primitive),
    /// A reference.
    Name,
    Adverb,
    /// `2&v` of a verb.
    Bonded(Primitive),
}

const PLUS: Operand = Operand::Verb(Primitive::Plus);

const HASH: Operand = Operand::Verb(Primitive::Hash);

const OPEN: Operand = Operand::Verb(Primitive::Greater);

const UNBOUNDED: Operand = Operand::Ranks(&[None]);

fn integers(alloc: Global, shape: &[u64], numbers: &[i64]) -> Result<Term, Fail> {
    let shape = Vec::from_slice(alloc, shape)?;
    let numbers = IntList::of(Vec::from_slice(alloc, numbers)?);
    Ok(Term::Noun(Tree::new(shape, Leaves::Int(numbers))?))
}

fn text(alloc: Global, text: &str) -> Result<Term, Fail> {
    let shape = Vec::from_slice(alloc, &[text.len() as u64])?;
    let bytes = Bytes::of(Vec::from_slice(alloc, text.as_bytes())?);
    Ok(Term::Noun(Tree::new(shape, Leaves::Char(bytes))?))
}

fn one_box(alloc: Global) -> Result<Term, Fail> {
    let shape = Vec::from_slice(alloc, &[1])?;
    let mut cells = Vec::new(alloc);
    cells.push(Cell::Boxed(Tree::atom(alloc, 2)?))?;
    Ok(Term::Noun(Tree::new(shape, Leaves::Cell(CellList::of(cells)))?))
}

fn term_of(alloc: Global, operand: Operand) -> Result<Term, Fail> {
    match operand {
        Operand::Atom(number) => integers(alloc, &[], &[number]),
        Operand::List(numbers) => integers(alloc, &[numbers.len() as u64], numbers),
        Operand::Matrix => integers(alloc, &[2, 2], &[1, 2, 3, 4]),
        Operand::Text(bytes) => text(alloc, bytes),
        Operand::Box => one_box(alloc),
        Operand::Ranks(ranks) => Ok(Term::Ranks(RankList::of(Vec::from_slice(alloc, ranks)?))),
        Operand::Verb(verb) => Ok(Term::Verb(verb)),
        Operand::Name => Ok(Term::Name(Locative {
            name: name(alloc, "f")?,
            place: None,
        })),
        Operand::Adverb => Ok(Term::Adverb(Adv::Slash)),
        Operand::Bonded(verb) => {
            let two = integers(alloc, &[], &[2])?;
            Ok(conj(alloc, Con::Ampersand, two, Term::Verb(verb))?)
        }
    }
}

fn fault_of(made: Result<Term, Trouble>) -> Result<Option<Fault>, Fail> {
    match made {
        Ok(_) => Ok(None),
        Err(Trouble::Fault(fault)) => Ok(Some(fault)),
        Err(Trouble::NoMemory) => Err(Fail::from("no memory")),
    }
}

const ADVERBS: [(Adv, Operand, Option<Fault>); 12] = [
    (Adv::Slash, PLUS, None),
    (Adv::Slash, Operand::Atom(2), Some(Fault::Domain)),
    (Adv::SlashDot, Operand::Name, None),
    (Adv::Backslash, UNBOUNDED, Some(Fault::Nonce)),
    (Adv::BackslashDot, Operand::Text("ab"), Some(Fault::Domain)),
    (Adv::Tilde, HASH, None),
    (Adv::Tilde, Operand::Box, Some(Fault::Domain)),
    (Adv::RightBrace, Operand::Atom(1), None),
    (Adv::RightBrace, Operand::Text("ab"), None),
    (Adv::RightBrace, PLUS, Some(Fault::Nonce)),
    (Adv::RightBrace, UNBOUNDED, Some(Fault::Nonce)),
    (Adv::RightBrace, Operand::Adverb, Some(Fault::Domain)),
];

#[test]
fn adverbs_take_their_operands(rt: HostRuntime) -> Result<(), Fail> {
    let alloc = rt.alloc();
    for (word, left, wanted) in &ADVERBS {
        let made = adverb(alloc, *word, term_of(alloc, *left)?);
        assert_eq!(rt; fault_of(made)?, *wanted);
    }
    Ok(())
}

const CONJUNCTIONS: [(Con, Operand, Operand, Option<Fault>); 60] = [
    // ranks
    (Con::Quote, PLUS, Operand::Atom(-1), None),
    (Con::Quote, PLUS, Operand::List(&[0, 1, 2]), None),
    (Con::Quote, Operand::Text("ab"), Operand::Atom(0), None),
    (Con::Quote, PLUS, UNBOUNDED, None),
    (Con::Quote, Operand::Atom(3), UNBOUNDED, None),
    (Con::Quote, PLUS, Operand::Matrix, Some(Fault::Rank)),
    (Con::Quote, PLUS, Operand::List(&[]), Some(Fault::Length)),
    (
        Con::Quote,
        PLUS,
        Operand::List(&[1, 2, 3, 4]),
        Some(Fault::Length),
    ),
    (Con::Quote, PLUS, Operand::Text("abcd"), Some(Fault::Length)),
    (Con::Quote, PLUS, Operand::Text("abc"), Some(Fault::Domain)),
    (Con::Quote, PLUS, Operand::Box, Some(Fault::Domain)),
    (Con::Quote, PLUS, PLUS, Some(Fault::Domain)),
    (Con::Quote, UNBOUNDED, Operand::Atom(0), Some(Fault::Nonce)),
    (
        Con::Quote,
        PLUS,
        Operand::Ranks(&[Some(1), None, Some(2), Some(3)]),
        Some(Fault::Length),
    ),
    // powers
    (Con::PowerColon, PLUS, Operand::Atom(-1), None),
    (Con::PowerColon, PLUS, Operand::Text("a"), None),
    (
        Con::PowerColon,
        PLUS,
        Operand::Ranks(&[Some(1), None]),
        None,
    ),
    (Con::PowerColon, PLUS, HASH, None),
    (
        Con::PowerColon,
        Operand::Atom(5),
        UNBOUNDED,
        Some(Fault::Domain),
    ),
    (
        Con::PowerColon,
        Operand::Atom(5),
        Operand::Atom(1),
        Some(Fault::Domain),
    ),
    // two verbs
    (Con::At, PLUS, HASH, None),
    (Con::At, Operand::Atom(1), HASH, Some(Fault::Domain)),
    (Con::AtColon, PLUS, Operand::Name, None),
    (Con::AtColon, PLUS, UNBOUNDED, Some(Fault::Nonce)),
    (Con::AmpersandColon, PLUS, HASH, None),
    (
        Con::AmpersandColon,
        PLUS,
        Operand::Atom(2),
        Some(Fault::Domain),
    ),
    (Con::ColonColon, PLUS, HASH, None),
    (Con::ColonColon, PLUS, Operand::Atom(9), Some(Fault::Domain)),
    // bonds
    (Con::Ampersand, PLUS, HASH, None),
    (Con::Ampersand, Operand::Text("ab"), PLUS, None),
    (Con::Ampersand, PLUS, Operand::Atom(2), None),
    (
        Con::Ampersand,
        Operand::Atom(1),
        Operand::Atom(2),
        Some(Fault::Domain),
    ),
    (Con::Ampersand, UNBOUNDED, PLUS, Some(Fault::Nonce)),
    (Con::Ampersand, PLUS, UNBOUNDED, Some(Fault::Nonce)),
    // under
    (Con::AmpersandDot, PLUS, OPEN, None),
    (Con::AmpersandDot, PLUS, PLUS, Some(Fault::Domain)),
    (Con::AmpersandDot, PLUS, Operand::Name, Some(Fault::Domain)),
    (
        Con::AmpersandDotColon,
        PLUS,
        Operand::Bonded(Primitive::Times),
        None,
    ),
    (
        Con::AmpersandDotColon,
        PLUS,
        Operand::Bonded(Primitive::Divide),
        Some(Fault::Domain),
    ),
    (
        Con::AmpersandDot,
        Operand::Atom(1),
        OPEN,
        Some(Fault::Domain),
    ),
    // monad and dyad, and definitions
    (Con::Colon, PLUS, HASH, None),
    (Con::Colon, PLUS, Operand::Atom(0), Some(Fault::Domain)),
    (
        Con::Colon,
        Operand::Atom(3),
        Operand::Text("y"),
        Some(Fault::Nonce),
    ),
    (
        Con::Colon,
        Operand::Text("a"),
        Operand::Text("y"),
        Some(Fault::Domain),
    ),
    (
        Con::Colon,
        Operand::Text(""),
        Operand::Text("y"),
        Some(Fault::Nonce),
    ),
    // cuts
    (Con::SemicolonDot, PLUS, Operand::Atom(9), None),
    (Con::SemicolonDot, PLUS, HASH, Some(Fault::Domain)),
    (Con::SemicolonDot, PLUS, UNBOUNDED, Some(Fault::Nonce)),
    // foreigns
    (Con::BangColon, Operand::Atom(1), Operand::Atom(2), None),
    (Con::BangColon, Operand::Atom(4), Operand::Atom(55), None),
    (Con::BangColon, Operand::Atom(18), Operand::Atom(5), None),
    (
        Con::BangColon,
        Operand::Atom(18),
        Operand::Atom(2),
        Some(Fault::Nonce),
    ),
    (
        Con::BangColon,
        Operand::List(&[1]),
        Operand::Atom(2),
        Some(Fault::Nonce),
    ),
    (Con::BangColon, PLUS, Operand::Atom(2), Some(Fault::Domain)),
    // tasks
    (Con::TDot, PLUS, Operand::Text(""), None),
    (Con::TDot, PLUS, Operand::List(&[7]), None),
    (Con::TDot, PLUS, Operand::Atom(8), Some(Fault::Limit)),
    (Con::TDot, PLUS, Operand::Atom(-1), Some(Fault::Domain)),
    (Con::TDot, PLUS, Operand::Box, Some(Fault::Nonce)),
    (Con::TDot, PLUS, Operand::List(&[1, 2]), Some(Fault::Domain)),
];

#[test]
fn conjunctions_take_their_operands(rt: HostRuntime) -> Result<(), Fail> {
    let alloc = rt.alloc();
    for (word, left, right, wanted) in &CONJUNCTIONS {
        let made = conj(
            alloc,
            *word,
            term_of(alloc, *left)?,
            term_of(alloc, *right)?,
        );
        assert_eq!(rt; fault_of(made)?, *wanted);
    }
    Ok(())
}

#[test]
fn trains_take_verbs(rt: HostRuntime) -> Result<(), Fail> {
    let alloc = rt.alloc();
    let rows = [
        (PLUS, None),
        (Operand::Verb(Primitive::LeftBracketColon), None),
        (Operand::Atom(1), None),
        (UNBOUNDED, Some(Fault::Nonce)),
        (Operand::Adverb, Some(Fault::Domain)),
    ];
    for (left, wanted) in rows {
        let (plus, hash) = (term_of(alloc, PLUS)?, term_of(alloc, HASH)?);
        let made = fork(alloc, term_of(alloc, left)?, plus, hash);
        assert_eq!(rt; fault_of(made)?, wanted);
    }
    let made = hook(alloc, term_of(alloc, PLUS)?, term_of(alloc, HASH)?);
    assert_eq!(rt; fault_of(made)?, None);
    let made = hook(
        alloc,
        term_of(alloc, PLUS)?,
        term_of(alloc, Operand::Atom(1))?,
    );
    assert_eq!(rt; fault_of(made)?, Some(Fault::Syntax));
    Ok(())
}

// `+` with so many `~`.
fn reflexes(alloc: Global, count: u32) -> Result<Result<Term, Trouble>, Fail> {
    let mut term = Term::Verb(Primitive::Plus);
    for _ in 0..count {
        term = match adverb(alloc, Adv::Tilde, term) {
            Ok(term) => term,
            Err(trouble) => return Ok(Err(trouble)),
        };
    }
    Ok(Ok(term))
}

#[test]
fn terms_have_two_hundred_levels(rt: HostRuntime) -> Result<(), Fail> {
    let alloc = rt.alloc();
    assert_eq!(rt; fault_of(reflexes(alloc, 199)?)?, None);
    assert_eq!(rt; fault_of(reflexes(alloc, 200)?)?, Some(Fault::Limit));
    let deep = reflexes(alloc, 199)??;
    let made = fork(alloc, term_of(alloc, PLUS)?, term_of(alloc, PLUS)?, deep);
    assert_eq!(rt; fault_of(made)?, Some(Fault::Limit));
    Ok(())
}

fn quoted(alloc: Global, verb: Primitive, right: Operand) -> Result<Term, Fail> {
    Ok(conj(alloc, Con::Quote, Term::Verb(verb), term_of(alloc, right)?)?)
}

fn joined(alloc: Global, word: Con, right: Primitive) -> Result<Term, Fail> {
    Ok(conj(alloc, word, Term::Verb(Primitive::Less), Term::Verb(right))?)
}

fn under(alloc: Global, word: Adv, verb: Primitive) -> Result<Term, Fail> {
    Ok(adverb(alloc, word, Term::Verb(verb))?)
}

#[test]
fn verbs_have_ranks(rt: HostRuntime) -> Result<(), Fail> {
    let alloc = rt.alloc();
    let rows = [
        (Term::Verb(Primitive::Plus), [Some(0), Some(0), Some(0)]),
        (Term::Verb(Primitive::HashColon), [None, Some(1), Some(0)]),
        (Term::Verb(Primitive::LeftBrace), [None, Some(0), None]),
        (Term::Verb(Primitive::Greater), [Some(0), Some(0), Some(0)]),
        (Term::Verb(Primitive::IDot), [Some(1), None, None]),
        (Term::Const(3), [None, None, None]),
        (
            quoted(alloc, Primitive::Plus, Operand::Atom(-1))?,
            [Some(-1), Some(-1), Some(-1)],
        ),
        (
            quoted(alloc, Primitive::Plus, Operand::List(&[1, 2]))?,
            [Some(2), Some(1), Some(2)],
        ),
        (
            quoted(alloc, Primitive::Plus, Operand::List(&[1, 2, 3]))?,
            [Some(1), Some(2), Some(3)],
        ),
        (
            quoted(alloc, Primitive::Plus, Operand::Ranks(&[None, Some(1)]))?,
            [Some(1), None, Some(1)],
        ),
        (
            under(alloc, Adv::Tilde, Primitive::LeftBrace)?,
            [None, None, Some(0)],
        ),
        (
            under(alloc, Adv::Backslash, Primitive::Plus)?,
            [None, Some(0), None],
        ),
        (
            under(alloc, Adv::Slash, Primitive::Plus)?,
            [None, None, None],
        ),
        (
            joined(alloc, Con::At, Primitive::HashDot)?,
            [Some(1), Some(1), Some(1)],
        ),
        (
            joined(alloc, Con::Ampersand, Primitive::HashColon)?,
            [None, None, None],
        ),
        (
            joined(alloc, Con::Ampersand, Primitive::HashDot)?,
            [Some(1), Some(1), Some(1)],
        ),
        (
            joined(alloc, Con::Colon, Primitive::Hash)?,
            [None, Some(1), None],
        ),
        (
            joined(alloc, Con::AtColon, Primitive::Plus)?,
            [None, None, None],
        ),
        (
            term_of(alloc, Operand::Bonded(Primitive::Plus))?,
            [None, None, None],
        ),
        (term_of(alloc, Operand::Name)?, [None, None, None]),
    ];
    for (term, wanted) in &rows {
        assert_eq!(rt; ranks(term), *wanted);
    }
    Ok(())
}
