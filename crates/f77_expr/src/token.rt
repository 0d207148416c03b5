//! Tokens, and what they are to the grammar of expressions.
ghost use Rattle.std.specs.Prelude.{◌≡◌, [], ◌∷◌, MatchOption};
ghost use Rattle.f77_expr.specs.Grammar as g;
ghost use Rattle.f77_expr.specs.Kinds as g_kinds;

use f77_tree::{List, Name, Op};

/// A token of a statement's text.
///
/// A word has a letter and any number of letters, digits and `_` behind it. An integer has its value and the number of
/// its digits as written, zeros in front among them. A text has the bytes that a literal stands for, each doubled
/// apostrophe as one. A dot word has its letters without the dots. A sign is one of `( ) , + - * / = :`, and `**` is a
/// token of its own.
#[derive(Drop)]
pub enum Token {
    Word(List<u8>),
    Int(i64, usize),
    Text(List<u8>),
    Dot(Name),
    Sign(u8),
    Power,
}

/// What a token is to the grammar.
#[derive(Clone, Copy, Debug, Drop, PartialEq, Eq)]
pub enum Kind {
    Word,
    Int,
    Text,
    True,
    False,
    Eqv,
    Neqv,
    Or,
    And,
    Not,
    Eq,
    Ne,
    Lt,
    Le,
    Gt,
    Ge,
    Plus,
    Minus,
    Star,
    Slash,
    Power,
    Open,
    Close,
    Comma,
    Equals,
    Colon,
    Other,
}

/// The levels of expressions, the loosest first.
#[derive(Clone, Copy, Debug, Drop, PartialEq, Eq)]
pub enum Rule {
    Equivalence,
    Disjunction,
    Conjunction,
    Negation,
    Relation,
    Sum,
    Product,
    Factor,
    Primary,
}

impl Rule {
    /// The level of the operands of this one.
    pub fn below(self) -> Rule
        ensures below { result ≡ g.below self }
    {
        match self {
            Rule::Equivalence => Rule::Disjunction,
            Rule::Disjunction => Rule::Conjunction,
            Rule::Conjunction => Rule::Negation,
            Rule::Negation => Rule::Relation,
            Rule::Relation => Rule::Sum,
            Rule::Sum => Rule::Product,
            Rule::Product => Rule::Factor,
            Rule::Factor | Rule::Primary => Rule::Primary,
        }
    }
}

impl Token {
    /// What the token is to the grammar. A dot word or a sign that isn't of the language is `Other`.
    pub fn kind(&self) -> Kind
        ensures kind { result ≡ g_kinds.kind_of self.now }
    {
        match self {
            Token::Word(_) => Kind::Word,
            Token::Int(_, _) => Kind::Int,
            Token::Text(_) => Kind::Text,
            Token::Dot(word) => dot_kind(word.as_bytes()),
            Token::Sign(b) => sign_kind(*b),
            Token::Power => Kind::Power,
        }
    }
}

pub(crate) fn sign_kind(b: u8) -> Kind
    ensures { result ≡ g_kinds.sign_kind b }
{
    match b {
        b'(' => Kind::Open,
        b')' => Kind::Close,
        b',' => Kind::Comma,
        b'+' => Kind::Plus,
        b'-' => Kind::Minus,
        b'*' => Kind::Star,
        b'/' => Kind::Slash,
        b'=' => Kind::Equals,
        b':' => Kind::Colon,
        _ => Kind::Other,
    }
}

pub(crate) fn dot_kind(word: &[u8]) -> Kind
    ensures { result ≡ g_kinds.dot_kind word.now }
{
    if word == b"EQ".as_slice() {
        Kind::Eq
    } else if word == b"NE".as_slice() {
        Kind::Ne
    } else if word == b"LT".as_slice() {
        Kind::Lt
    } else if word == b"LE".as_slice() {
        Kind::Le
    } else if word == b"GT".as_slice() {
        Kind::Gt
    } else if word == b"GE".as_slice() {
        Kind::Ge
    } else if word == b"NOT".as_slice() {
        Kind::Not
    } else if word == b"AND".as_slice() {
        Kind::And
    } else if word == b"OR".as_slice() {
        Kind::Or
    } else if word == b"EQV".as_slice() {
        Kind::Eqv
    } else if word == b"NEQV".as_slice() {
        Kind::Neqv
    } else if word == b"TRUE".as_slice() {
        Kind::True
    } else if word == b"FALSE".as_slice() {
        Kind::False
    } else {
        Kind::Other
    }
}

/// The operator by which tokens of this kind join operands of a level.
pub fn operator(rule: Rule, kind: Kind) -> Option<Op>
    ensures operator { result ≡ g.operator rule kind }
{
    match (rule, kind) {
        (Rule::Equivalence, Kind::Eqv) => Some(Op::Eqv),
        (Rule::Equivalence, Kind::Neqv) => Some(Op::Neqv),
        (Rule::Disjunction, Kind::Or) => Some(Op::Or),
        (Rule::Conjunction, Kind::And) => Some(Op::And),
        (Rule::Relation, Kind::Eq) => Some(Op::Eq),
        (Rule::Relation, Kind::Ne) => Some(Op::Ne),
        (Rule::Relation, Kind::Lt) => Some(Op::Lt),
        (Rule::Relation, Kind::Le) => Some(Op::Le),
        (Rule::Relation, Kind::Gt) => Some(Op::Gt),
        (Rule::Relation, Kind::Ge) => Some(Op::Ge),
        (Rule::Sum, Kind::Plus) => Some(Op::Add),
        (Rule::Sum, Kind::Minus) => Some(Op::Sub),
        (Rule::Product, Kind::Star) => Some(Op::Mul),
        (Rule::Product, Kind::Slash) => Some(Op::Div),
        (Rule::Factor, Kind::Power) => Some(Op::Pow),
        _ => None,
    }
}

/// What the first token is to the grammar, and the tokens behind it.
pub fn next(tokens: &[Token]) -> Option<(Kind, &[Token])>
    ensures next { MatchOption result (tokens.now ≡ []) (λ x. g_kinds.IsNext tokens.now x.0 x.1.now) }
{
    let (first, rest) = tokens.split_first()?;
    Some((first.kind(), rest))
}
