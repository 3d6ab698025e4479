//! Syntax trees of expressions and of references.

use mu_io::Name;

/// A reference to a variable or to an array element.
#[cycle(expression)]
#[derive(Drop)]
pub struct Ref {
    pub name: Name,
    pub index: Option<Box<Expr>>,
    pub at: u32,
}

/// An expression. Each `at` is a byte offset in the source.
#[cycle(expression)]
#[derive(Drop)]
pub enum Expr {
    Num { digits: Name, at: u32 },
    Var(Ref),
    Time { at: u32 },
    Pre(Ref),
    Sum { terms: Vec<Term> },
    Product { factors: Vec<Factor> },
    Pow { base: Box<Expr>, exp: u8, at: u32 },
}

/// A term of a sum, with its sign.
#[cycle(expression)]
#[derive(Drop)]
pub struct Term {
    pub minus: bool,
    pub at: u32,
    pub value: Expr,
}

/// A factor or a divisor of a product.
#[cycle(expression)]
#[derive(Drop)]
pub struct Factor {
    pub divide: bool,
    pub at: u32,
    pub value: Expr,
}
