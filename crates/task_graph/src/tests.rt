use super::*;
use item_lists::ItemList;
use operation_spec::{Factor, Form, Kind, Operand, Operation, Task, Term};
use std::alloc::{AllocError, Global};
use std::test::Fail;
use structure_rules::Structure;

// Names play no part in tasks.
fn operand(alloc: Global, rows: u32, cols: u32) -> Operand {
    Operand {
        name: ItemList::new(alloc),
        structure: Structure::General,
        rows,
        cols,
    }
}

// X = W + A * B, with dimensions m, n and k.
fn mul(alloc: Global) -> Result<Operation, AllocError> {
    let product = Term {
        minus: false,
        first: Factor {
            known: 0,
            primed: false,
        },
        second: Factor {
            known: 1,
            primed: false,
        },
    };
    let mut knowns = ItemList::new(alloc);
    knowns.push(operand(alloc, 0, 2))?;
    knowns.push(operand(alloc, 2, 1))?;
    let mut terms = ItemList::new(alloc);
    terms.push(product)?;
    Ok(Operation {
        name: ItemList::new(alloc),
        dims: ItemList::new(alloc),
        work: operand(alloc, 0, 1),
        knowns,
        form: Form::Assign,
        terms,
    })
}

// L * U = W.
fn lu(alloc: Global) -> Operation {
    Operation {
        name: ItemList::new(alloc),
        dims: ItemList::new(alloc),
        work: operand(alloc, 0, 0),
        knowns: ItemList::new(alloc),
        form: Form::Lu,
        terms: ItemList::new(alloc),
    }
}

fn task(kind: Kind, term: u32, i: u32, j: u32, k: u32) -> Task {
    Task {
        kind,
        term,
        i,
        j,
        k,
    }
}

fn counts(alloc: Global, parts: &[u32]) -> Result<Counts, AllocError> {
    Ok(ItemList::from_vec(parts.to_vec(alloc)?))
}

#[test]
fn tasks_under_two_parts(rt: HostRuntime) -> Result<(), Fail> {
    let alloc = rt.alloc();
    let of_lu = tasks(alloc, &lu(alloc), &counts(alloc, &[2])?)?;
    assert_eq!(rt;
        of_lu.as_slice(),
        [
            task(Kind::Solve, 0, 0, 0, 0),
            task(Kind::Solve, 0, 0, 1, 0),
            task(Kind::Solve, 0, 1, 0, 0),
            task(Kind::Left, 0, 1, 1, 0),
            task(Kind::Solve, 0, 1, 1, 0),
        ]
        .as_slice()
    );
    let of_mul = tasks(alloc, &mul(alloc)?, &counts(alloc, &[2, 2, 2])?)?;
    assert_eq!(rt;
        of_mul.as_slice(),
        [
            task(Kind::Term, 1, 0, 0, 0),
            task(Kind::Term, 1, 0, 0, 1),
            task(Kind::Term, 1, 0, 1, 0),
            task(Kind::Term, 1, 0, 1, 1),
            task(Kind::Term, 1, 1, 0, 0),
            task(Kind::Term, 1, 1, 0, 1),
            task(Kind::Term, 1, 1, 1, 0),
            task(Kind::Term, 1, 1, 1, 1),
        ]
        .as_slice()
    );
    Ok(())
}

// Of three parts the last one goes to part 1 of the coarser cut.
#[test]
fn classes_under_one_edge(rt: HostRuntime) -> Result<(), Fail> {
    let alloc = rt.alloc();
    let op = lu(alloc);
    let mut cut = ItemList::new(alloc);
    cut.push(Sides::Two { edge: 2 })?;
    for (fine, coarse) in [
        (task(Kind::Left, 0, 2, 2, 1), task(Kind::Left, 0, 1, 1, 0)),
        (task(Kind::Left, 0, 2, 1, 0), task(Kind::Solve, 0, 1, 0, 0)),
        (task(Kind::Solve, 0, 1, 1, 0), task(Kind::Solve, 0, 0, 0, 0)),
    ] {
        assert_eq!(rt; class(&op, &cut, fine), coarse);
    }
    Ok(())
}

#[test]
fn as_many_tasks_as_may_be(rt: HostRuntime) -> Result<(), Fail> {
    let alloc = rt.alloc();
    let op = mul(alloc)?;
    assert_eq!(rt;
        tasks(alloc, &op, &counts(alloc, &[64, 64, 64])?)?.len(),
        262144
    );
    assert_eq!(rt;
        tasks(alloc, &op, &counts(alloc, &[64, 64, 65])?).err(),
        Some(TaskFault::TooMany)
    );
    Ok(())
}
