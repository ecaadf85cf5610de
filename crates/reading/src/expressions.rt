// Expressions, by recursion over the parentheses that may still nest.
ghost use Rattle.std.specs.Prelude.{◌≡◌, ◌+◌, ◌≤◌, true, [], length, IfOk};
ghost use Rattle.std.specs.Option.{option_map};
ghost use Rattle.grammar.specs.declared.marks.Mark.TheVariants.{Dot};
ghost use Rattle.grammar.specs.Tokens.{is_mark, next_is};
ghost use Rattle.grammar.specs.Expressions.{most_atoms, count_atom, atom, cell_atom, plain_atom, name_atom, op_in, read_op, pair_with, read_expr};
ghost use Rattle.layout.specs.Plans.{plan_of};
ghost use Rattle.lexis.specs.Meaning.{meaning, text_of, place_of};
ghost use Rattle.script.specs.Nodes.{op_of, expr_of, expr_at};
ghost use Rattle.script.specs.Ordered.{parts};
ghost use Rattle.script.specs.Pushing.{expr_room};
ghost use Rattle.script.specs.Meaning.{exprs_of, codes_of};
ghost use Rattle.clauses.specs.Names.{scope_of};
ghost use Rattle.clauses.specs.Outcomes.{parted};
ghost use Rattle.reading.specs.Terms.{termed, Kept, Grown};

use crate::parser::Parser;
use clauses::{Asked, Placed, Scope, expect, read_column};
use grammar::{Keyword, Mark, NameKind, Refusal};
use lexis::{Reader, Token};
use script::{Expr, Op, Script};

const MOST_ATOMS: usize = 128;

// One atom more, that begins at a place.
fn count_atom(place: usize, atoms: usize) -> Result<usize, Refusal>
    ensures value { result ≡ count_atom place atoms }
    ensures limit { IfOk result (λ n. (n ≤ most_atoms) × (n ≡ atoms + 1)) }
{
    if atoms >= MOST_ATOMS {
        return Err(Refusal::LimitPassed(place));
    }
    Ok(atoms + 1)
}

// One node more, for which there is room.
fn push(script: &mut Script, node: Expr) -> usize
    requires { expr_room (exprs_of script.old) node ≡ true }
    ensures value { result ≡ length (exprs_of script.old) }
    ensures here { expr_at (exprs_of script.new) result ≡ expr_of (exprs_of script.old) node }
    ensures size { length (exprs_of script.new) ≡ length (exprs_of script.old) + 1 }
    ensures kept { Kept (exprs_of script.old) (exprs_of script.new) }
    ensures codes { codes_of script.new ≡ codes_of script.old }
{
    script.push_expr(node).unwrap()
}

// The operator that a token is, if it is one. It is no `TryFrom`, since both types are of other crates.
fn op_in(token: Token<'_>) -> Option<Op>
    ensures { option_map op_of result ≡ op_in (meaning token.entry) }
{
    match token {
        Token::Keyword(Keyword::Min) => Some(Op::Min),
        Token::Keyword(Keyword::Max) => Some(Op::Max),
        Token::Mark(Mark::Equals) => Some(Op::Equal),
        Token::Mark(Mark::LessThan) => Some(Op::Less),
        Token::Mark(Mark::Plus) => Some(Op::Plus),
        Token::Mark(Mark::Minus) => Some(Op::Minus),
        _ => None,
    }
}

fn read_op(reader: &mut Reader<'_>) -> Result<Op, Refusal>
    ensures value { parted op_of (place_of reader.new) result ≡ read_op (text_of reader.old) (place_of reader.old) }
    ensures text { text_of reader.new ≡ text_of reader.old }
{
    let found = reader.next()?;
    op_in(found.token).ok_or(Refusal::Unexpected(found.place))
}

impl<'a> Parser<'a> {
    // An atom of one node.
    fn push_atom(&mut self, node: Expr, place: usize) -> Result<usize, Refusal>
        requires { parts node ≡ [] }
        ensures value { termed self.new result ≡ atom (expr_of (exprs_of self.old.script) node) place (place_of self.old.reader) self.old.counts.atoms }
        ensures text { text_of self.new.reader ≡ text_of self.old.reader }
        ensures grown { Grown self.old self.new result }
    {
        self.counts.atoms = count_atom(place, self.counts.atoms)?;
        Ok(push(&mut self.script, node))
    }

    // A variable or an index, whose name was read.
    fn read_plain(&mut self, scope: &Scope<'a>, word: Placed<&'a [u8]>) -> Result<usize, Refusal>
        ensures value { termed self.new result ≡ plain_atom (scope_of scope.now.names) word.entry.place word.entry.value.now (place_of self.old.reader) self.old.counts.atoms }
        ensures text { text_of self.new.reader ≡ text_of self.old.reader }
        ensures grown { Grown self.old self.new result }
    {
        let bound = scope.names.use_name(Asked::Value, word)?;
        match bound.kind {
            NameKind::Variable => self.push_atom(Expr::Variable(bound.level), word.place),
            NameKind::Index => self.push_atom(Expr::OfIndex(bound.level), word.place),
            // It has no value of its own, and was refused.
            NameKind::Cursor(_) => unreachable!(),
        }
    }

    // A column of a cursor, whose name was read.
    fn read_cell(&mut self, scope: &Scope<'a>, word: Placed<&'a [u8]>) -> Result<usize, Refusal>
        ensures value { termed self.new result ≡ cell_atom (text_of self.old.reader) (plan_of scope.now.plan.now) (scope_of scope.now.names) word.entry.place word.entry.value.now (place_of self.old.reader) self.old.counts.atoms }
        ensures text { text_of self.new.reader ≡ text_of self.old.reader }
        ensures grown { Grown self.old self.new result }
    {
        let bound = scope.names.use_name(Asked::Cursor, word)?;
        let NameKind::Cursor(table) = bound.kind else {
            // what is no cursor was refused
            unreachable!()
        };
        self.counts.atoms = count_atom(word.place, self.counts.atoms)?;
        expect(&mut self.reader, Mark::Dot)?;
        let column = read_column(&mut self.reader, scope.plan, table)?;
        Ok(push(&mut self.script, Expr::Cell(bound.level, column)))
    }

    // An atom that begins with a name, which was read.
    fn read_named(&mut self, scope: &Scope<'a>, word: Placed<&'a [u8]>) -> Result<usize, Refusal>
        ensures value { termed self.new result ≡ name_atom (text_of self.old.reader) (plan_of scope.now.plan.now) (scope_of scope.now.names) word.entry.place word.entry.value.now (place_of self.old.reader) self.old.counts.atoms (next_is (text_of self.old.reader) (place_of self.old.reader) (is_mark Dot)) }
        ensures text { text_of self.new.reader ≡ text_of self.old.reader }
        ensures grown { Grown self.old self.new result }
    {
        if self.reader.next_is(Mark::Dot) {
            return self.read_cell(scope, word);
        }
        self.read_plain(scope, word)
    }

    // What follows an opening parenthesis.
    #[cycle(expressions)]
    fn read_pair(&mut self, scope: &Scope<'a>, depth: usize) -> Result<usize, Refusal>
        ensures value { termed self.new result ≡ pair_with (text_of self.old.reader) (read_expr (text_of self.old.reader) (plan_of scope.now.plan.now) (scope_of scope.now.names) depth) (place_of self.old.reader) self.old.counts.atoms }
        ensures text { text_of self.new.reader ≡ text_of self.old.reader }
        ensures grown { Grown self.old self.new result }
    {
        let left = self.read_expr(scope, depth)?;
        let op = read_op(&mut self.reader)?;
        let right = self.read_expr(scope, depth)?;
        expect(&mut self.reader, Mark::CloseParen)?;
        Ok(push(&mut self.script, Expr::Apply(op, left, right)))
    }

    // An expression with at most so many parentheses one in the other: its place among the script's.
    #[cycle(expressions)]
    pub(crate) fn read_expr(&mut self, scope: &Scope<'a>, depth: usize) -> Result<usize, Refusal>
        ensures value { termed self.new result ≡ read_expr (text_of self.old.reader) (plan_of scope.now.plan.now) (scope_of scope.now.names) depth (place_of self.old.reader) self.old.counts.atoms }
        ensures text { text_of self.new.reader ≡ text_of self.old.reader }
        ensures grown { Grown self.old self.new result }
    {
        let found = self.reader.next()?;
        let place = found.place;
        match found.token {
            Token::Name(value) => self.read_named(scope, Placed { value, place }),
            Token::Number { digits: _, value } => self.push_atom(Expr::Literal(value), place),
            token if token.is(Keyword::Me) => self.push_atom(Expr::Mine, place),
            token if token.is(Mark::OpenParen) => {
                if depth == 0 {
                    return Err(Refusal::LimitPassed(place));
                }
                self.read_pair(scope, depth - 1)
            }
            _ => Err(Refusal::Unexpected(place)),
        }
    }
}
