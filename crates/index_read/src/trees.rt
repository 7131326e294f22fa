//! The tree that is built from the roles of tokens, from left to right.

ghost use Rattle.std.specs.Prelude.{◌≡◌, ◌<◌, IfOk, IfSome};
ghost use Rattle.index_read.specs.Building.{product_with, sum_with, expr_of, with_factor, level_after, open_group, close_group, place_of, with_place};
ghost use Rattle.index_read.specs.Building.{with_factor_inside, begin_added, begin_taken, begin_negated, with_operator, empty_tree, with_role};

use crate::roles::Role;
use arrayvec::ArrayVec;
use dt_model::{Expr, MOST_VARIABLES, Name, NoMemory, Vars};
use sqlite_items::{Boxed, Items};
use std::alloc::Global;

/// What is before the term in front, in the same expression.
#[derive(Debug, Drop)]
pub(crate) enum Sum {
    /// Nothing.
    Nothing,
    /// A minus.
    Negated,
    /// Terms and a plus.
    Added(Expr),
    /// Terms and a minus.
    Taken(Expr),
}

/// An expression that has been read in part.
#[derive(Debug, Drop)]
pub(crate) struct Level {
    /// What is before the term in front.
    pub(crate) sum: Sum,
    /// The factors of the term in front.
    pub(crate) product: Option<Expr>,
}

/// An expression in a box.
pub(crate) fn boxed(alloc: Global, expr: Expr) -> Result<Boxed<Expr>, NoMemory>
    ensures value { IfOk result (λ b. b ≡ expr) }
{
    Ok(Boxed::new(alloc, expr)?)
}

/// The product with one more factor.
fn product_with(alloc: Global, product: Option<Expr>, factor: Expr) -> Result<Expr, NoMemory>
    ensures value { IfOk result (λ e. e ≡ product_with product factor) }
{
    match product {
        None => Ok(factor),
        Some(before) => {
            let before = boxed(alloc, before)?;
            let factor = boxed(alloc, factor)?;
            Ok(Expr::Times(before, factor))
        }
    }
}

/// The terms up to the one in front, which is this.
fn sum_with(alloc: Global, sum: Sum, term: Expr) -> Result<Expr, NoMemory>
    ensures value { IfOk result (λ e. e ≡ sum_with sum term) }
{
    match sum {
        Sum::Nothing => Ok(term),
        Sum::Negated => Ok(Expr::Negate(boxed(alloc, term)?)),
        Sum::Added(before) => {
            let before = boxed(alloc, before)?;
            let term = boxed(alloc, term)?;
            Ok(Expr::Plus(before, term))
        }
        Sum::Taken(before) => {
            let before = boxed(alloc, before)?;
            let term = boxed(alloc, term)?;
            Ok(Expr::Minus(before, term))
        }
    }
}

/// The expression that has been read; 0 where there is none.
pub(crate) fn expr_of(alloc: Global, level: Level) -> Result<Expr, NoMemory>
    ensures value { IfOk result (λ e. e ≡ expr_of level) }
{
    let Level { sum, product } = level;
    match product {
        None => Ok(Expr::Literal(0)),
        Some(term) => sum_with(alloc, sum, term),
    }
}

/// The expression with one more factor.
fn with_factor(alloc: Global, level: Level, factor: Expr) -> Result<Level, NoMemory>
    ensures value { IfOk result (λ l. l ≡ with_factor level factor) }
{
    let Level { sum, product } = level;
    let product = product_with(alloc, product, factor)?;
    Ok(Level {
        sum,
        product: Some(product),
    })
}

/// The expressions that are open, the innermost one apart.
#[derive(Debug, Drop)]
pub(crate) struct Levels {
    /// The outer ones, from the outside.
    pub(crate) outer: Items<Level>,
    /// The innermost one.
    pub(crate) here: Level,
}

/// An expression that has no term yet behind what is before it.
fn level_after(sum: Sum) -> Level
    ensures value { result ≡ level_after sum }
{
    Level { sum, product: None }
}

/// An expression in parentheses begins.
fn open_group(levels: Levels) -> Result<Levels, NoMemory>
    ensures value { IfOk result (λ l. l ≡ open_group levels) }
{
    let Levels { mut outer, here } = levels;
    outer.push(here)?;
    Ok(Levels {
        outer,
        here: level_after(Sum::Nothing),
    })
}

/// An expression in parentheses ends, and is a factor of the one around it.
#[tactic(auto, using(crate::proofs::BuildLemmas::pop_some, crate::proofs::BuildLemmas::pop_none))]
fn close_group(alloc: Global, levels: Levels) -> Result<Levels, NoMemory>
    ensures value { IfOk result (λ l. l ≡ close_group levels) }
{
    let Levels { mut outer, here } = levels;
    let inner = expr_of(alloc, here)?;
    match outer.pop() {
        None => {
            let here = with_factor(alloc, level_after(Sum::Nothing), inner)?;
            Ok(Levels { outer, here })
        }
        Some(level) => {
            let here = with_factor(alloc, level, inner)?;
            Ok(Levels { outer, here })
        }
    }
}

/// A statement that has been read in part.
#[derive(Debug, Drop)]
pub(crate) struct Tree {
    /// The left side's name.
    pub(crate) name: Name,
    /// The left side's variables.
    pub(crate) left: Vars,
    /// The access in front.
    pub(crate) tensor: Name,
    /// Its variables.
    pub(crate) list: Vars,
    /// The right side.
    pub(crate) levels: Levels,
}

/// The place of a name among some, or 0.
fn place_of(vars: &ArrayVec<Name, MOST_VARIABLES>, name: &Name) -> u8
    ensures value { result ≡ place_of vars.now.items name.now }
    ensures small { result < 8 }
{
    for (i, var) in vars.as_slice().iter().enumerate() {
        if var.bytes() == name.bytes() {
            return i as u8;
        }
    }
    0
}

/// A list with the place of one more variable, where it has room.
fn with_place(list: Vars, place: u8) -> Vars
    requires small { place < 8 }
    ensures value { result ≡ with_place list place }
{
    let mut list = list;
    if list.len() < MOST_VARIABLES {
        list.push(place);
    }
    list
}

/// The innermost expression has one more factor.
fn with_factor_inside(alloc: Global, levels: Levels, factor: Expr) -> Result<Levels, NoMemory>
    ensures value { IfOk result (λ l. l ≡ with_factor_inside levels factor) }
{
    let Levels { outer, here } = levels;
    let here = with_factor(alloc, here, factor)?;
    Ok(Levels { outer, here })
}

/// A plus ends the terms so far.
fn begin_added(alloc: Global, levels: Levels) -> Result<Levels, NoMemory>
    ensures value { IfOk result (λ l. l ≡ begin_added levels) }
{
    let Levels { outer, here } = levels;
    let sum = expr_of(alloc, here)?;
    Ok(Levels {
        outer,
        here: level_after(Sum::Added(sum)),
    })
}

/// A minus ends the terms so far.
fn begin_taken(alloc: Global, levels: Levels) -> Result<Levels, NoMemory>
    ensures value { IfOk result (λ l. l ≡ begin_taken levels) }
{
    let Levels { outer, here } = levels;
    let sum = expr_of(alloc, here)?;
    Ok(Levels {
        outer,
        here: level_after(Sum::Taken(sum)),
    })
}

/// A minus is before the first term.
fn begin_negated(levels: Levels) -> Levels
    ensures value { result ≡ begin_negated levels }
{
    let Levels { outer, here: _ } = levels;
    Levels {
        outer,
        here: level_after(Sum::Negated),
    }
}

impl Tree {
    /// Nothing has been read.
    pub(crate) fn new(alloc: Global) -> Tree
        ensures value { result ≡ empty_tree }
    {
        Tree {
            name: Name::default(),
            left: Vars::new(),
            tensor: Name::default(),
            list: Vars::new(),
            levels: Levels {
                outer: Items::new(alloc),
                here: level_after(Sum::Nothing),
            },
        }
    }
}

/// The expressions with one more token that is no name; `tensor` and `list` are those of the access in
/// front.
fn with_operator(
    alloc: Global,
    levels: Levels,
    role: Role,
    tensor: &Name,
    list: &Vars,
) -> Result<Levels, NoMemory>
    ensures value { IfOk result (λ l. l ≡ with_operator levels role tensor.now list.now) }
{
    match role {
        Role::EndList => {
            let (tensor, vars) = (tensor.copy(), list.copy());
            with_factor_inside(alloc, levels, Expr::Access { tensor, vars })
        }
        Role::Literal(value) => with_factor_inside(
            alloc,
            levels,
            Expr::Literal(value.unwrap_or(0)),
        ),
        Role::Group => open_group(levels),
        Role::EndGroup => close_group(alloc, levels),
        Role::Plus => begin_added(alloc, levels),
        Role::Minus => begin_taken(alloc, levels),
        Role::Negate => Ok(begin_negated(levels)),
        _ => Ok(levels),
    }
}

/// The tree with one more token, where these are the variables so far.
pub(crate) fn with_role(
    alloc: Global,
    tree: Tree,
    role: Role,
    vars: &ArrayVec<Name, MOST_VARIABLES>,
) -> Result<Tree, NoMemory>
    ensures value { IfOk result (λ t. t ≡ with_role tree role vars.now.items) }
{
    let mut tree = tree;
    match role {
        Role::Target(name) => {
            tree.name = name;
            Ok(tree)
        }
        Role::LeftVariable(variable) => {
            tree.left = with_place(tree.left.copy(), place_of(vars, &variable));
            Ok(tree)
        }
        Role::Tensor(tensor) => {
            tree.tensor = tensor;
            tree.list = Vars::new();
            Ok(tree)
        }
        Role::Variable(variable) => {
            tree.list = with_place(tree.list.copy(), place_of(vars, &variable));
            Ok(tree)
        }
        role => {
            let Tree {
                name,
                left,
                tensor,
                list,
                levels,
            } = tree;
            let levels = with_operator(alloc, levels, role, &tensor, &list)?;
            Ok(Tree {
                name,
                left,
                tensor,
                list,
                levels,
            })
        }
    }
}
