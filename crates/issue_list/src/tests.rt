ghost use Rattle.std.specs.Prelude.{◌≡◌, [], ◌∷◌, IfOk};
ghost use Rattle.residue_sums.specs.Residues.{IsModulus};
ghost use Rattle.equation.specs.Jobs.{IsJob};

use super::*;
use equation::{Job, Statement};
use field_word::Modulus;
use item_lists::ItemList;
use matrix_core::Matrix;
use operation_spec::{Binding, Form, Operand, Operation};
use std::alloc::{AllocError, Global};
use std::test::Fail;
use structure_rules::Structure;

fn one<T: Drop>(alloc: Global, item: T) -> Result<ItemList<T>, AllocError>
    ensures { IfOk result (λ list. list ≡ item ∷ []) }
{
    let mut list = ItemList::new(alloc);
    list.push(item)?;
    Ok(list)
}

// lu X = W of one entry. Names play no part in steps.
fn job(alloc: Global, modulus: Modulus) -> Result<Job, AllocError>
    requires { IsModulus modulus }
    ensures { IfOk result IsJob }
{
    let lu = Operation {
        name: ItemList::new(alloc),
        dims: one(alloc, ItemList::new(alloc))?,
        work: Operand {
            name: ItemList::new(alloc),
            structure: Structure::General,
            rows: 0,
            cols: 0,
        },
        knowns: ItemList::new(alloc),
        form: Form::Lu,
        terms: ItemList::new(alloc),
    };
    let whole = Statement {
        operation: 0,
        bind: Binding {
            work: 0,
            knowns: ItemList::new(alloc),
        },
    };
    Ok(Job {
        modulus,
        operations: one(alloc, lu)?,
        names: one(alloc, ItemList::new(alloc))?,
        matrices: one(alloc, Matrix::from_entries(1, 1, one(alloc, 1)?.into_vec()))?,
        statements: one(alloc, whole)?,
        prints: ItemList::new(alloc),
    })
}

#[test]
fn one_entry_has_one_step(rt: HostRuntime) -> Result<(), Fail> {
    let alloc = rt.alloc();
    let modulus = Modulus::new(7).expect(&rt, "7 is a modulus");
    let job = job(alloc, modulus)?;
    let steps = issue(alloc, &job, 1, &Choice::First)?;
    assert_eq!(rt; steps.len(), 1);
    Ok(())
}

#[test]
fn one_entry_has_one_step_by_its_third_variant(rt: HostRuntime) -> Result<(), Fail> {
    let alloc = rt.alloc();
    let modulus = Modulus::new(7).expect(&rt, "7 is a modulus");
    let job = job(alloc, modulus)?;
    let steps = issue(alloc, &job, 1, &Choice::Each(one(alloc, 3)?))?;
    assert_eq!(rt; steps.len(), 1);
    Ok(())
}
