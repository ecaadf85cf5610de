// How often the judge asks whether a label is at or below another: once for `set`, `drop` and `alter`, for `add` once and
// once more for each expression, at each valuation that it judges, and at none of them twice.
ghost use Rattle.lattice.specs.Built.{grades};
ghost use Rattle.std.proofs.Common.{rules};

#[cfg(test)]
mod tests {
    use crate::small::{push, push_expr, three_vendors};
    use inplace::ArrayVec;
    use judge::judge;
    use lattice::{Grades, Lattice};
    use layout::Plan;
    use script::{Expr, Index, Lot, Mark, Script, Stmt};
    use std::cell::Cell;
    use std::process::Abort;
    use std::test::Fail;

    // What is told of every question.
    trait Hearing {
        fn hear(&self);
    }

    #[derive(Drop)]
    struct Count {
        heard: Cell<u64>,
    }

    impl Hearing for Count {
        fn hear(&self) {
            self.heard.set(self.heard.get().wrapping_add(1));
        }
    }

    // The grades, told on to somebody who hears each question about their order.
    #[derive(Drop)]
    struct Overheard<H: Hearing> {
        listener: H,
    }

    impl<H: Hearing> Lattice for Overheard<H> {
        ghost answers = { λ _. grades };

        ghost lawful = { Prim.search rules };

        fn is_label(&self, a: u64) -> bool {
            Grades.is_label(a)
        }

        fn below(&self, a: u64, b: u64) -> bool {
            self.listener.hear();
            Grades.below(a, b)
        }

        fn join(&self, a: u64, b: u64) -> u64 {
            Grades.join(a, b)
        }

        fn bottom(&self) -> u64 {
            Grades.bottom()
        }

        fn top(&self) -> u64 {
            Grades.top()
        }

        fn tag(&self, family: u32, vendor: u32) -> u64 {
            Grades.tag(family, vendor)
        }
    }

    // The judge asks so many questions over a script, and refuses it or not.
    fn expect(rt: &impl Abort, plan: &Plan, script: &Script, questions: u64, refused: bool) {
        let lattice = Overheard {
            listener: Count {
                heard: Cell::new(0),
            },
        };
        assert_eq!(rt; judge(&lattice, plan, script).is_some(), refused);
        assert_eq!(rt; lattice.listener.heard.get(), questions);
    }

    // The statements with flows of their own, and how many questions each takes at one valuation.
    #[derive(Clone, Copy)]
    enum Flat {
        Set,
        Add,
        Drop,
        Alter,
    }

    // A variable at the highest grade takes everything.
    const HIGH: Mark = Mark::Tag(3, Index::Me);

    struct Cost {
        flat: Flat,
        questions: u64,
    }

    const COSTS: [Cost; 4] = [
        Cost {
            flat: Flat::Set,
            questions: 1,
        },
        Cost {
            flat: Flat::Add,
            questions: 3,
        },
        Cost {
            flat: Flat::Drop,
            questions: 1,
        },
        Cost {
            flat: Flat::Alter,
            questions: 1,
        },
    ];

    // What stands around the statement, and at how many valuations the statement is judged there, for three vendors.
    #[derive(Clone, Copy)]
    enum Around {
        Nothing,
        Vendors,
        VendorsTwice,
        Each,
        If,
        WhenEqual,
        WhenDifferent,
    }

    struct Share {
        around: Around,
        valuations: u64,
    }

    const SHARES: [Share; 7] = [
        Share {
            around: Around::Nothing,
            valuations: 3,
        },
        Share {
            around: Around::Vendors,
            valuations: 9,
        },
        Share {
            around: Around::VendorsTwice,
            valuations: 27,
        },
        Share {
            around: Around::Each,
            valuations: 3,
        },
        // in both blocks
        Share {
            around: Around::If,
            valuations: 6,
        },
        Share {
            around: Around::WhenEqual,
            valuations: 3,
        },
        Share {
            around: Around::WhenDifferent,
            valuations: 6,
        },
    ];

    // A statement with an expression for each of its values: variable 0 is written, or the lot of `me` in table 0.
    fn flat_stmt(kind: Flat, value: usize) -> Stmt {
        match kind {
            Flat::Set => Stmt::Set {
                place: 0,
                level: 0,
                value,
            },
            Flat::Add => Stmt::Add {
                place: 0,
                lot: Lot {
                    table: 0,
                    owner: Index::Me,
                },
                values: ArrayVec::from_slice(0, &[value, value]),
            },
            Flat::Drop => Stmt::Drop {
                place: 0,
                lot: Lot {
                    table: 0,
                    owner: Index::Me,
                },
                condition: value,
            },
            Flat::Alter => Stmt::Alter {
                place: 0,
                lot: Lot {
                    table: 0,
                    owner: Index::Me,
                },
                column: 1,
                value,
                condition: value,
            },
        }
    }

    // A block for every vendor, whose index has level 1.
    fn for_every_vendor(body: usize) -> Stmt {
        Stmt::Vendors { body }
    }

    fn when_equal(first: usize, second: usize) -> Stmt {
        Stmt::When {
            left: Index::Level(1),
            right: Index::Me,
            first,
            second,
        }
    }

    // Pushes what stands around a block.
    fn push_around(
        script: &mut Script,
        around: Around,
        condition: usize,
        body: usize,
    ) -> Result<usize, Fail> {
        match around {
            Around::Nothing => Ok(body),
            Around::Vendors => push(script, for_every_vendor(body), 0),
            Around::VendorsTwice => {
                let inner = push(script, for_every_vendor(body), 0)?;
                push(script, for_every_vendor(inner), 0)
            }
            Around::Each => push(
                script,
                Stmt::Each {
                    lot: Lot {
                        table: 0,
                        owner: Index::Me,
                    },
                    body,
                },
                0,
            ),
            Around::If => push(
                script,
                Stmt::If {
                    condition,
                    first: body,
                    second: body,
                },
                0,
            ),
            Around::WhenEqual => {
                let inner = push(script, when_equal(body, 0), 0)?;
                push(script, for_every_vendor(inner), 0)
            }
            Around::WhenDifferent => {
                let inner = push(script, when_equal(0, body), 0)?;
                push(script, for_every_vendor(inner), 0)
            }
        }
    }

    // A script with a variable at a mark, whose flat statements have a number, or that variable, as their values.
    fn script_of(mark: Mark, value: Expr, flats: &[Flat], shape: Around) -> Result<Script, Fail> {
        let mut script = Script::new();
        let value = push_expr(&mut script, value)?;
        let mut block = 0;
        for kind in flats {
            block = push(&mut script, flat_stmt(*kind, value), block)?;
        }
        let body = push_around(&mut script, shape, value, block)?;
        let first = push(&mut script, Stmt::Var { mark }, body)?;
        script.begin_with(first);
        Ok(script)
    }

    #[test]
    fn once_at_each_valuation(rt: HostRuntime) -> Result<(), Fail> {
        let plan = three_vendors()?;
        for share in &SHARES {
            for cost in &COSTS {
                let script = script_of(HIGH, Expr::Literal(1), &[cost.flat], share.around)?;
                let questions = share.valuations.wrapping_mul(cost.questions);
                expect(&rt, &plan, &script, questions, false);
            }
        }
        Ok(())
    }

    // At a valuation nothing is asked behind the first flow that is not allowed; the other valuations are still judged.
    #[test]
    fn none_behind_a_refused_flow(rt: HostRuntime) -> Result<(), Fail> {
        let plan = three_vendors()?;
        let number = Expr::Literal(1);
        let sets = [Flat::Set, Flat::Set];
        // the rows' label does not flow to an open variable
        let two_sets = script_of(Mark::Open, number, &sets, Around::Each)?;
        expect(&rt, &plan, &two_sets, 3, true);
        // a variable at the highest grade decides, and flows to no row
        let variable = Expr::Variable(0);
        let deciding = script_of(HIGH, variable, &[Flat::Add], Around::If)?;
        expect(&rt, &plan, &deciding, 3, true);
        // it flows to no cell of the first column
        let cells = script_of(HIGH, variable, &[Flat::Add], Around::Vendors)?;
        expect(&rt, &plan, &cells, 18, true);
        Ok(())
    }
}
