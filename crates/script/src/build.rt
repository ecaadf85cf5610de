// Building a script, node by node.
ghost use Rattle.std.specs.Prelude.{◌≡◌, [], ◌∷◌, length};
ghost use Rattle.rules.specs.Scripts.Code.{stop};
ghost use Rattle.script.specs.Nodes.{expr_of, code_of};
ghost use Rattle.script.specs.Ordered.{all_below, parts, names_below, stmt_ordered};
ghost use Rattle.script.specs.Pushing.{expr_room, stmt_room, pushed, place_if};
ghost use Rattle.script.specs.Meaning.{exprs_of, codes_of, script_of};

use crate::node::{Expr, Node, Stmt};
use crate::script::Script;
use inplace::ArrayVec;

const MOST_EXPRS: usize = 256;

// The most statements of a script.
pub const MOST_STATEMENTS: usize = 64;

// Whether all numbers are below a bound.
fn all_are_below(bound: usize, numbers: &[usize]) -> bool
    ensures { result ≡ all_below bound numbers.now }
{
    for number in numbers {
        if *number >= bound {
            return false;
        }
    }
    true
}

// Whether an expression names only expressions below a place.
fn expr_fits(at: usize, node: &Expr) -> bool
    ensures { result ≡ all_below at (parts node.now) }
{
    match node {
        Expr::Apply(_, left, right) => *left < at && *right < at,
        _ => true,
    }
}

// Whether a statement names only expressions below a place, and only blocks below another.
fn stmt_fits(top: usize, block: usize, stmt: &Stmt) -> bool
    ensures { result ≡ names_below top block stmt.now }
{
    match stmt {
        Stmt::Var { .. } => true,
        Stmt::Set { value, .. } => *value < top,
        Stmt::If {
            condition,
            first,
            second,
        } => *condition < top && *first < block && *second < block,
        Stmt::When { first, second, .. } => *first < block && *second < block,
        Stmt::Vendors { body } => *body < block,
        Stmt::Each { body, .. } => *body < block,
        Stmt::Add { values, .. } => all_are_below(top, values.as_slice()),
        Stmt::Drop { condition, .. } => *condition < top,
        Stmt::Alter {
            value,
            condition,
            ..
        } => *value < top && *condition < top,
    }
}

// Whether a node names only expressions below a place, and only blocks below its own.
fn node_fits(top: usize, block: usize, node: &Node) -> bool
    ensures { result ≡ stmt_ordered top block node.now }
{
    stmt_fits(top, block, &node.stmt) && node.rest < block
}

impl Script {
    // A script with no statement.
    pub fn new() -> Self
        ensures exprs { exprs_of result ≡ [] }
        ensures codes { codes_of result ≡ stop ∷ [] }
        ensures script { script_of result ≡ stop }
    {
        let unused = Node {
            stmt: Stmt::Vendors { body: 0 },
            rest: 0,
        };
        Script {
            exprs: ArrayVec::new(Expr::Mine),
            stmts: ArrayVec::new(unused),
            first: 0,
        }
    }

    // One expression more: its place, or nothing where there is no room or it names one that does not stand before it.
    pub fn push_expr(&mut self, node: Expr) -> Option<usize>
        ensures value { result ≡ place_if (expr_room (exprs_of self.old) node) (length (exprs_of self.old)) }
        ensures exprs { exprs_of self.new ≡ pushed (expr_room (exprs_of self.old) node) (exprs_of self.old) (expr_of (exprs_of self.old) node) }
        ensures codes { codes_of self.new ≡ codes_of self.old }
        ensures first { self.new.first ≡ self.old.first }
    {
        let at = self.exprs.len();
        if at >= MOST_EXPRS {
            return None;
        }
        if !expr_fits(at, &node) {
            return None;
        }
        let _ = self.exprs.push(node);
        Some(at)
    }

    // One statement more, with the rest of its block: the number of the block that begins with it, or nothing where there
    // is no room or it names what does not stand before it.
    pub fn push_stmt(&mut self, node: Node) -> Option<usize>
        ensures value { result ≡ place_if (stmt_room (exprs_of self.old) (codes_of self.old) node) (length (codes_of self.old)) }
        ensures codes { codes_of self.new ≡ pushed (stmt_room (exprs_of self.old) (codes_of self.old) node) (codes_of self.old) (code_of (exprs_of self.old) (codes_of self.old) node) }
        ensures exprs { exprs_of self.new ≡ exprs_of self.old }
        ensures first { self.new.first ≡ self.old.first }
    {
        let at = self.stmts.len();
        if at >= MOST_STATEMENTS {
            return None;
        }
        if !node_fits(self.exprs.len(), at + 1, &node) {
            return None;
        }
        let _ = self.stmts.push(node);
        Some(at + 1)
    }

    // Makes a block the one that the script begins with.
    pub fn begin_with(&mut self, block: usize)
        ensures exprs { exprs_of self.new ≡ exprs_of self.old }
        ensures codes { codes_of self.new ≡ codes_of self.old }
        ensures first { self.new.first ≡ block }
    {
        self.first = block;
    }

    // Forgets everything.
    pub fn clear(&mut self)
        ensures exprs { exprs_of self.new ≡ [] }
        ensures codes { codes_of self.new ≡ stop ∷ [] }
        ensures first { self.new.first ≡ 0 }
    {
        self.stmts.clear();
        self.exprs.clear();
        self.first = 0;
    }
}
