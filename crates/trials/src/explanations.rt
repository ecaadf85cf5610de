// What is said of flows that are refused, under the compartments: vendor v's rows have label 64 + v.
#[cfg(test)]
mod tests {
    use crate::small::{push, push_expr, three_vendors};
    use inplace::ArrayVec;
    use judge::{Broken, explain};
    use lattice::Compartments;
    use script::{Expr, Index, Lot, Mark, Op, Script, Stmt};
    use std::process::Abort;
    use std::test::Fail;

    const TOP: u64 = 256;

    fn expect(rt: &impl Abort, script: &Script, said: Broken) -> Result<(), Fail> {
        let plan = three_vendors()?;
        assert!(rt; explain(&Compartments, &plan, script) == Some(said));
        Ok(())
    }

    // var n at 1[me]; vendors v { each r in @0[v] { set n = (n + 1); } }
    #[test]
    fn rows_of_others_counted(rt: HostRuntime) -> Result<(), Fail> {
        let mut script = Script::new();
        let left = push_expr(&mut script, Expr::Variable(0))?;
        let right = push_expr(&mut script, Expr::Literal(1))?;
        let value = push_expr(&mut script, Expr::Apply(Op::Plus, left, right))?;
        let set = Stmt::Set {
            place: 46,
            level: 0,
            value,
        };
        let inner = push(&mut script, set, 0)?;
        let each = Stmt::Each {
            lot: Lot {
                table: 0,
                owner: Index::Level(1),
            },
            body: inner,
        };
        let body = push(&mut script, each, 0)?;
        let rest = push(&mut script, Stmt::Vendors { body }, 0)?;
        let mark = Mark::Tag(1, Index::Me);
        let first = push(&mut script, Stmt::Var { mark }, rest)?;
        script.begin_with(first);
        // the first turn in which v is not me
        expect(
            &rt,
            &script,
            Broken {
                place: 46,
                flowing: TOP,
                limit: 64,
                me: 0,
                indexes: ArrayVec::from_slice(0, &[1]),
            },
        )
    }

    // each r in @0[1] { add @0[0] (1, 1); }
    #[test]
    fn context_of_add_too_high(rt: HostRuntime) -> Result<(), Fail> {
        let mut script = Script::new();
        let one = push_expr(&mut script, Expr::Literal(1))?;
        let add = Stmt::Add {
            place: 18,
            lot: Lot {
                table: 0,
                owner: Index::Number(0),
            },
            values: ArrayVec::from_slice(0, &[one, one]),
        };
        let body = push(&mut script, add, 0)?;
        let each = Stmt::Each {
            lot: Lot {
                table: 0,
                owner: Index::Number(1),
            },
            body,
        };
        let first = push(&mut script, each, 0)?;
        script.begin_with(first);
        expect(
            &rt,
            &script,
            Broken {
                place: 18,
                flowing: 65,
                limit: 64,
                me: 0,
                indexes: ArrayVec::new(0),
            },
        )
    }

    // var n at 2[1]; add @0[0] (n, n);
    #[test]
    fn cell_of_add_too_high(rt: HostRuntime) -> Result<(), Fail> {
        let mut script = Script::new();
        let n = push_expr(&mut script, Expr::Variable(0))?;
        let add = Stmt::Add {
            place: 15,
            lot: Lot {
                table: 0,
                owner: Index::Number(0),
            },
            values: ArrayVec::from_slice(0, &[n, n]),
        };
        let rest = push(&mut script, add, 0)?;
        let mark = Mark::Tag(2, Index::Number(1));
        let first = push(&mut script, Stmt::Var { mark }, rest)?;
        script.begin_with(first);
        // the second column's label is the top
        expect(
            &rt,
            &script,
            Broken {
                place: 15,
                flowing: 129,
                limit: 64,
                me: 0,
                indexes: ArrayVec::new(0),
            },
        )
    }

    // drop r in @0[me] where (r.1 = 2);
    #[test]
    fn condition_of_drop_too_high(rt: HostRuntime) -> Result<(), Fail> {
        let mut script = Script::new();
        let cell = push_expr(&mut script, Expr::Cell(0, 1))?;
        let two = push_expr(&mut script, Expr::Literal(2))?;
        let condition = push_expr(&mut script, Expr::Apply(Op::Equal, cell, two))?;
        let drop = Stmt::Drop {
            place: 0,
            lot: Lot {
                table: 0,
                owner: Index::Me,
            },
            condition,
        };
        let first = push(&mut script, drop, 0)?;
        script.begin_with(first);
        expect(
            &rt,
            &script,
            Broken {
                place: 0,
                flowing: TOP,
                limit: 64,
                me: 0,
                indexes: ArrayVec::new(0),
            },
        )
    }
}
