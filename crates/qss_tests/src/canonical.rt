//! Tests of copies, and of the canonical text of each construct.

use mu_canonical::write_model;
use mu_copies::Copied;
use mu_io::Name;
use mu_num::Ratio;
use mu_tree::{
    Decl, Equation, Expr, Factor, FlatBranch, FlatClause, FlatEquation, FlatExpr, FlatFactor,
    FlatModel, FlatRole, FlatStatement, FlatTerm, FlatVar, Model, Prefix, Ref, Rel, SettingItem,
    SettingName, Settings, Term,
};
use std::alloc::{AllocError, Global};
use std::test::Fail;

#[test]
fn copied_model(rt: HostRuntime) -> Result<(), Fail> {
    let alloc = rt.alloc();
    let copy = out_of_order(alloc)?.copy(alloc)?;
    let text = write_model(alloc, &copy)?;
    let expected =
        b"model m Real x ( start = 1 ) ;\nReal a ;\nReal b ;\nequation der ( x ) = a ;\na = 2 * b ;\nb = - x ;\nannotation ( experiment ( StopTime = 1 , QSS_Quantum = 1 ) ) ;\nend m ;\n";
    assert_eq!(rt; text.as_slice(), expected.as_slice());
    Ok(())
}

#[test]
fn copied_flat_model(rt: HostRuntime) -> Result<(), Fail> {
    let alloc = rt.alloc();
    let copy = flat(alloc)?.copy(alloc)?;
    assert_eq!(rt; copy.vars.len(), 1);
    assert_eq!(rt; copy.vars[0].name.bytes(), b"x[1]".as_slice());
    assert_eq!(rt; copy.equations.len(), 1);
    assert_eq!(rt; copy.clauses.len(), 1);
    let settings = Settings {
        start: Ratio::whole(0),
        stop: Ratio::whole(1),
        coef_bits: Ratio::whole(0),
        tick_bits: Ratio::whole(0),
        level_bits: Ratio::whole(0),
        quantum: Ratio::whole(0),
    };
    assert_eq!(rt; settings.copy().stop, Ratio::whole(1));
    Ok(())
}

// Returns a model with three variables, two of them algebraic and not in causal order.
fn out_of_order(alloc: Global) -> Result<Model, AllocError> {
    let decls = decls(alloc)?;
    let equations = equations(alloc)?;
    let settings = settings(alloc)?;
    Ok(Model {
        name: Name::new(alloc, b"m")?,
        end_name: Name::new(alloc, b"m")?,
        end_at: 0,
        decls,
        starts: Vec::new(alloc),
        equations,
        clauses: Vec::new(alloc),
        settings,
    })
}

fn decls(alloc: Global) -> Result<Vec<Decl>, AllocError> {
    let decls = Vec::new(alloc);
    let decls = and(decls, plain_decl(alloc, b"x", Some(number(alloc, b"1")?))?)?;
    let decls = and(decls, plain_decl(alloc, b"a", None)?)?;
    and(decls, plain_decl(alloc, b"b", None)?)
}

// Returns the list with one more item.
fn and<T: Drop>(list: Vec<T>, item: T) -> Result<Vec<T>, AllocError> {
    let mut list = list;
    list.push(item)?;
    Ok(list)
}

fn plain_decl(alloc: Global, name: &[u8], start: Option<Expr>) -> Result<Decl, AllocError> {
    Ok(Decl {
        prefix: Prefix::Plain,
        whole: false,
        name: Name::new(alloc, name)?,
        size: None,
        start,
        value: None,
        quantum: None,
        at: 0,
    })
}

fn number(alloc: Global, digits: &[u8]) -> Result<Expr, AllocError> {
    Ok(Expr::Num {
        digits: Name::new(alloc, digits)?,
        at: 0,
    })
}

fn equations(alloc: Global) -> Result<Vec<Equation>, AllocError> {
    let equations = Vec::new(alloc);
    let equations = and(equations, derivative(alloc)?)?;
    let equations = and(equations, plain_equation(alloc, b"a", twice(alloc, b"b")?)?)?;
    let x = variable(alloc, b"x")?;
    and(equations, plain_equation(alloc, b"b", negative(alloc, x)?)?)
}

fn derivative(alloc: Global) -> Result<Equation, AllocError> {
    let target = whole(alloc, b"x")?;
    Ok(Equation::Der {
        target,
        value: variable(alloc, b"a")?,
    })
}

fn whole(alloc: Global, name: &[u8]) -> Result<Ref, AllocError> {
    Ok(Ref {
        name: Name::new(alloc, name)?,
        index: None,
        at: 0,
    })
}

fn variable(alloc: Global, name: &[u8]) -> Result<Expr, AllocError> {
    Ok(Expr::Var(whole(alloc, name)?))
}

fn plain_equation(alloc: Global, name: &[u8], value: Expr) -> Result<Equation, AllocError> {
    Ok(Equation::Plain {
        target: whole(alloc, name)?,
        value,
    })
}

fn twice(alloc: Global, name: &[u8]) -> Result<Expr, AllocError> {
    let two = number(alloc, b"2")?;
    let name = variable(alloc, name)?;
    two_factors(alloc, two, false, name)
}

// Returns the product or the quotient of two expressions.
fn two_factors(alloc: Global, first: Expr, divide: bool, second: Expr) -> Result<Expr, AllocError> {
    let factors = Vec::from_array(alloc, [factor(false, first), factor(divide, second)])?;
    Ok(Expr::Product { factors })
}

fn factor(divide: bool, value: Expr) -> Factor {
    Factor {
        divide,
        at: 0,
        value,
    }
}

fn negative(alloc: Global, value: Expr) -> Result<Expr, AllocError> {
    let terms = Vec::from_array(alloc, [term(true, value)])?;
    Ok(Expr::Sum { terms })
}

fn term(minus: bool, value: Expr) -> Term {
    Term {
        minus,
        at: 0,
        value,
    }
}

fn settings(alloc: Global) -> Result<Vec<SettingItem>, AllocError> {
    let settings = Vec::new(alloc);
    let settings = and(settings, setting(alloc, SettingName::StopTime, b"1")?)?;
    and(settings, setting(alloc, SettingName::Quantum, b"1")?)
}

fn setting(alloc: Global, which: SettingName, digits: &[u8]) -> Result<SettingItem, AllocError> {
    Ok(SettingItem {
        which,
        value: number(alloc, digits)?,
        at: 0,
    })
}

fn flat(alloc: Global) -> Result<FlatModel, AllocError> {
    let mut vars = Vec::new(alloc);
    let name = Name::new(alloc, b"x[1]")?;
    vars.push(FlatVar {
        name,
        role: FlatRole::State,
        start: Ratio::whole(0),
        quantum: Ratio::whole(0),
    })?;
    let mut equations = Vec::new(alloc);
    equations.push(FlatEquation {
        der: true,
        target: 0,
        value: flat_value(alloc)?,
    })?;
    let mut branches = Vec::new(alloc);
    branches.push(FlatBranch {
        left: flat_value(alloc)?,
        rel: Rel::Less,
        right: flat_value(alloc)?,
        at: 9,
        body: flat_body(alloc)?,
    })?;
    let mut clauses = Vec::new(alloc);
    clauses.push(FlatClause { branches })?;
    Ok(FlatModel {
        vars,
        equations,
        clauses,
    })
}

// Returns a flat sum of a product and a power.
fn flat_value(alloc: Global) -> Result<FlatExpr, AllocError> {
    let mut factors = Vec::new(alloc);
    factors.push(FlatFactor {
        divide: false,
        at: 1,
        value: FlatExpr::Const {
            value: Ratio::whole(0),
            at: 1,
        },
    })?;
    factors.push(FlatFactor {
        divide: true,
        at: 2,
        value: FlatExpr::Pre { var: 1, at: 3 },
    })?;
    let base = Box::new(alloc, FlatExpr::Var { var: 0, at: 4 })?;
    let mut terms = Vec::new(alloc);
    terms.push(FlatTerm {
        minus: true,
        at: 0,
        value: FlatExpr::Product { factors },
    })?;
    terms.push(FlatTerm {
        minus: false,
        at: 5,
        value: FlatExpr::Pow {
            base,
            exp: 2,
            at: 6,
        },
    })?;
    terms.push(FlatTerm {
        minus: false,
        at: 7,
        value: FlatExpr::Time { at: 8 },
    })?;
    Ok(FlatExpr::Sum { terms })
}

fn flat_body(alloc: Global) -> Result<Vec<FlatStatement>, AllocError> {
    let mut body = Vec::new(alloc);
    body.push(FlatStatement::FlatSet {
        var: 1,
        value: flat_value(alloc)?,
    })?;
    body.push(FlatStatement::FlatReinit {
        var: 0,
        value: flat_value(alloc)?,
    })?;
    Ok(body)
}
