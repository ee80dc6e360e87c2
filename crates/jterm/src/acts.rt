//! What modifiers and trains give of their operands.
ghost use Rattle.std.specs.Prelude.{◌≡◌, ◌&&◌, nat_le, Option, IfOk, IfSome, map};
ghost use Rattle.jdata.specs.Answers.{Answers};
ghost use Rattle.jdata.specs.Noun.{shape, kind, atoms};
ghost use Rattle.jdata.specs.declared.noun.Atom.TheVariants as atom;
ghost use Rattle.jdata.specs.declared.noun.Kind.TheVariants as sort;
ghost use Rattle.jterm.specs.Acts as acts;
ghost use Rattle.jterm.specs.Levels.{levels};
ghost use Rattle.jterm.specs.Validity.{IsValid};

use crate::forms::{Form, adverb_form, conj_form, fork_form, hook_form};
use crate::levels::MOST_LEVELS;
use crate::term::Term;
use crate::words::{Adv, Con};
use jdata::{Fault, Kind, Leaf, Tree, Trouble};
use sqlite_items::Boxed;
use std::alloc::Global;

// From one number up to three.
fn is_few(count: usize) -> bool
    ensures { result ≡ acts.is_few count }
{
    0 < count && count <= 3
}

fn kind_fault(kind: Kind) -> Option<Fault>
    ensures { result ≡ acts.kind_fault kind }
{
    match kind {
        Kind::Int => None,
        Kind::Char | Kind::Boxed => Some(Fault::Domain),
    }
}

fn noun_ranks_fault(noun: &Tree) -> Option<Fault>
    ensures { result ≡ acts.noun_ranks_fault noun.now }
{
    if noun.shape().len() > 1 {
        Some(Fault::Rank)
    } else if is_few(noun.leaf().len()) {
        kind_fault(noun.kind())
    } else {
        Some(Fault::Length)
    }
}

fn ranks_fault(right: &Term) -> Option<Fault>
    ensures { result ≡ acts.ranks_fault right.now }
{
    match right {
        Term::Noun(noun) => noun_ranks_fault(noun),
        Term::Ranks(numbers) if is_few(numbers.items().len()) => None,
        Term::Ranks(_) => Some(Fault::Length),
        _ => Some(Fault::Domain),
    }
}

fn obverse_fault(has_obverse: bool) -> Option<Fault>
    ensures { result ≡ acts.obverse_fault has_obverse }
{
    if has_obverse {
        None
    } else {
        Some(Fault::Domain)
    }
}

fn form_fault(noun: &Tree) -> Fault
    ensures { result ≡ acts.form_fault (kind noun.now) (atoms noun.now) }
{
    if noun.leaf().len() == 0 {
        return Fault::Nonce;
    }
    match noun.kind() {
        Kind::Int => Fault::Nonce,
        Kind::Char | Kind::Boxed => Fault::Domain,
    }
}

fn definition_fault(left: &Term) -> Fault
    ensures { result ≡ acts.definition_fault left.now }
{
    match left {
        Term::Noun(noun) => form_fault(noun),
        _ => Fault::Domain,
    }
}

fn is_listed(m: i64, n: i64) -> bool
    ensures { result ≡ acts.is_listed m n }
{
    if m == 1 {
        n == 2
    } else if m == 4 {
        n == 1 || n == 55
    } else if m == 18 {
        n == 1 || n == 4 || n == 5
    } else {
        false
    }
}

fn lone_integer(shape: &[u64], numbers: &[i64]) -> Option<i64>
    ensures { result ≡ acts.lone sort.Int shape.now (map atom.Int numbers.now) }
{
    match (shape, numbers) {
        ([], [number]) => Some(*number),
        _ => None,
    }
}

fn lone(noun: &Tree) -> Option<i64>
    ensures { result ≡ acts.lone (kind noun.now) (shape noun.now) (atoms noun.now) }
{
    match noun.leaf() {
        Leaf::Int(numbers) => lone_integer(noun.shape(), numbers),
        Leaf::Char(_) => None,
        Leaf::Cell(_) => None,
    }
}

fn number(term: &Term) -> Option<i64>
    ensures { result ≡ acts.number term.now }
{
    match term {
        Term::Noun(noun) => lone(noun),
        _ => None,
    }
}

fn foreign_fault(m: Option<i64>, n: Option<i64>) -> Option<Fault>
    ensures { result ≡ acts.foreign_fault m n }
{
    match (m, n) {
        (Some(m), Some(n)) if is_listed(m, n) => None,
        _ => Some(Fault::Nonce),
    }
}

fn number_pool_fault(pool: i64) -> Option<Fault>
    ensures { result ≡ acts.number_pool_fault pool }
{
    if pool < 0 {
        Some(Fault::Domain)
    } else if pool > 7 {
        Some(Fault::Limit)
    } else {
        None
    }
}

fn full_integer_pool(numbers: &[i64]) -> Option<Fault>
    ensures { result ≡ acts.full_pool_fault sort.Int (map atom.Int numbers.now) }
{
    match numbers {
        [pool] => number_pool_fault(*pool),
        _ => Some(Fault::Domain),
    }
}

fn pool_in(noun: &Tree) -> Option<Fault>
    ensures { result ≡ acts.pool_in (kind noun.now) (atoms noun.now) }
{
    let leaf = noun.leaf();
    if leaf.len() == 0 {
        return None;
    }
    match leaf {
        Leaf::Int(numbers) => full_integer_pool(numbers),
        Leaf::Char(_) => Some(Fault::Domain),
        Leaf::Cell(_) => Some(Fault::Nonce),
    }
}

fn pool_fault(right: &Term) -> Option<Fault>
    ensures { result ≡ acts.pool_fault right.now }
{
    match right {
        Term::Noun(noun) => pool_in(noun),
        _ => Some(Fault::Domain),
    }
}

fn operand_fault(form: Form, left: &Term, right: &Term) -> Option<Fault>
    ensures { result ≡ acts.operand_fault form left.now right.now }
{
    match form {
        Form::Taken => None,
        Form::Ranked => ranks_fault(right),
        Form::Undone => obverse_fault(right.has_obverse()),
        Form::Defined => Some(definition_fault(left)),
        Form::Foreign => foreign_fault(number(left), number(right)),
        Form::Pooled => pool_fault(right),
        Form::Refused(fault) => Some(fault),
    }
}

// The most levels of an operand.
const DEEPEST: u8 = 199;

/// An adverb with its operand.
#[tactic(auto, using(crate::proofs::Making::adverbs_are))]
pub fn adverb(alloc: Global, word: Adv, left: Term) -> Result<Term, Trouble>
    ensures value { Answers (acts.adverb_of word left) result }
    ensures valid { IfOk result (λ t. IsValid left → IsValid t) }
{
    if let Some(fault) = adverb_form(word, left.speech()) {
        return Err(Trouble::Fault(fault));
    }
    if !left.fits(DEEPEST) {
        return Err(Trouble::Fault(Fault::Limit));
    }
    match Boxed::new(alloc, left) {
        Ok(left) => Ok(Term::With1 { word, left }),
        Err(_) => Err(Trouble::NoMemory),
    }
}

fn boxed(alloc: Global, term: Term) -> Option<Boxed<Term>>
    ensures { IfSome result (λ b. b ≡ term) }
{
    match Boxed::new(alloc, term) {
        Ok(term) => Some(term),
        Err(_) => None,
    }
}

// Whether one level fits above both.
fn both_fit(left: &Term, right: &Term) -> bool
    ensures { result ≡ nat_le (levels left.now) 199 && nat_le (levels right.now) 199 }
{
    left.fits(DEEPEST) && right.fits(DEEPEST)
}

// The fault of a conjunction's operands.
fn conj_fault(word: Con, left: &Term, right: &Term) -> Option<Fault>
    ensures { result ≡ acts.conj_fault word left.now right.now }
{
    operand_fault(conj_form(word, left.speech(), right.speech()), left, right)
}

/// A conjunction with its operands.
#[tactic(auto, using(crate::proofs::Making::conjs_are))]
pub fn conj(alloc: Global, word: Con, left: Term, right: Term) -> Result<Term, Trouble>
    ensures value { Answers (acts.conj_of word left right) result }
    ensures valid { IfOk result (λ t. IsValid left → IsValid right → IsValid t) }
{
    if let Some(fault) = conj_fault(word, &left, &right) {
        return Err(Trouble::Fault(fault));
    }
    if !both_fit(&left, &right) {
        return Err(Trouble::Fault(Fault::Limit));
    }
    match (boxed(alloc, left), boxed(alloc, right)) {
        (Some(left), Some(right)) => Ok(Term::With2 { word, left, right }),
        _ => Err(Trouble::NoMemory),
    }
}

/// A train of three: a verb on what two verbs give, or on a noun and what a verb gives.
#[tactic(auto, using(crate::proofs::Making::forks_are))]
pub fn fork(alloc: Global, left: Term, mid: Term, right: Term) -> Result<Term, Trouble>
    ensures value { Answers (acts.fork_of left mid right) result }
    ensures valid { IfOk result (λ t. IsValid left → IsValid mid → IsValid right → IsValid t) }
{
    if let Some(fault) = fork_form(left.speech(), mid.speech(), right.speech()) {
        return Err(Trouble::Fault(fault));
    }
    if !left.fits(DEEPEST) {
        return Err(Trouble::Fault(Fault::Limit));
    }
    if !both_fit(&mid, &right) {
        return Err(Trouble::Fault(Fault::Limit));
    }
    match (boxed(alloc, left), boxed(alloc, mid), boxed(alloc, right)) {
        (Some(left), Some(mid), Some(right)) => Ok(Term::Fork { left, mid, right }),
        _ => Err(Trouble::NoMemory),
    }
}

/// A train of two verbs. Two other terms beside each other have no meaning.
#[tactic(auto, using(crate::proofs::Making::hooks_are))]
pub fn hook(alloc: Global, left: Term, right: Term) -> Result<Term, Trouble>
    ensures value { Answers (acts.hook_of left right) result }
    ensures valid { IfOk result (λ t. IsValid left → IsValid right → IsValid t) }
{
    if let Some(fault) = hook_form(left.speech(), right.speech()) {
        return Err(Trouble::Fault(fault));
    }
    if !both_fit(&left, &right) {
        return Err(Trouble::Fault(Fault::Limit));
    }
    match (boxed(alloc, left), boxed(alloc, right)) {
        (Some(left), Some(right)) => Ok(Term::Hook { left, right }),
        _ => Err(Trouble::NoMemory),
    }
}
