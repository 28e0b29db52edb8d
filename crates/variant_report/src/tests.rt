ghost use Rattle.std.specs.Prelude.{◌≡◌, [], ◌∷◌, length, IfOk};
ghost use Rattle.residue_sums.specs.Residues.{IsModulus};
ghost use Rattle.equation.specs.Jobs.{IsJob, no_grid};

use super::*;
use dependence_queue::{Access, AccessList, Edges, analyse};
use equation::{Job, OperationList, StatementList};
use field_word::Modulus;
use item_lists::ItemList;
use matrix_core::Matrix;
use operation_spec::{Kind, Task};
use std::alloc::{AllocError, Global};
use std::test::Fail;
use step_replays::{Step, StepList};
use structure_rules::NumberList;

/// A list of two items.
fn two<T: Drop>(alloc: Global, first: T, second: T) -> Result<ItemList<T>, AllocError>
    ensures { IfOk result (λ list. list ≡ first ∷ second ∷ []) }
{
    let mut list = ItemList::new(alloc);
    list.push(first)?;
    list.push(second)?;
    Ok(list)
}

fn access(alloc: Global, write: u32, reads: &[u32]) -> Result<Access, AllocError> {
    Ok(Access {
        write,
        reads: NumberList::from_vec(reads.to_vec(alloc)?),
    })
}

/// The edges of an LU factorisation of two by two blocks.
fn factorisation_edges(alloc: Global) -> Result<Edges, AllocError> {
    let mut accesses = AccessList::new(alloc);
    accesses.push(access(alloc, 0, &[])?)?;
    accesses.push(access(alloc, 1, &[0])?)?;
    accesses.push(access(alloc, 2, &[0])?)?;
    accesses.push(access(alloc, 3, &[2, 1])?)?;
    accesses.push(access(alloc, 3, &[])?)?;
    analyse(alloc, &accesses)
}

/// A step of the first statement.
fn push_step(
    steps: &mut StepList,
    alloc: Global,
    kind: Kind,
    i: u32,
    j: u32,
) -> Result<(), AllocError> {
    let task = Task {
        kind,
        term: 0,
        i,
        j,
        k: 0,
    };
    steps.push(Step {
        statement: 1,
        task,
        access: access(alloc, 0, &[])?,
    })
}

fn factorisation_steps(alloc: Global) -> Result<StepList, AllocError> {
    let mut steps = StepList::new(alloc);
    push_step(&mut steps, alloc, Kind::Solve, 0, 0)?;
    push_step(&mut steps, alloc, Kind::Solve, 0, 1)?;
    push_step(&mut steps, alloc, Kind::Solve, 1, 0)?;
    push_step(&mut steps, alloc, Kind::Left, 1, 1)?;
    push_step(&mut steps, alloc, Kind::Solve, 1, 1)?;
    Ok(steps)
}

#[test]
fn a_trace_is_printed(rt: HostRuntime) -> Result<(), Fail> {
    let alloc = rt.alloc();
    let steps = factorisation_steps(alloc)?;
    let edges = factorisation_edges(alloc)?;
    let schedule = ordered_events(alloc, 5)?;
    let mut out = b"before\n".to_vec(alloc)?;
    write_trace(alloc, &steps, &edges, &schedule, &mut out)?;
    let text =
        b"before\ntrace\ntasks 5\n1 1 solve(0,0)\n2 1 solve(0,1)\n3 1 solve(1,0)\n4 1 left(1,1,0)\n5 1 solve(1,1)\nedges 5\n1 2 flow\n1 3 flow\n2 4 flow\n3 4 flow\n4 5 output\nschedule 10\nstart 1\nfinish 1\nstart 2\nfinish 2\nstart 3\nfinish 3\nstart 4\nfinish 4\nstart 5\nfinish 5\nend\n";
    assert_eq!(rt; out.as_slice(), text.as_slice());
    Ok(())
}

fn empty(alloc: Global) -> Matrix
    ensures { result ≡ no_grid }
{
    Matrix::from_entries(0, 0, Vec::new(alloc))
}

/// A job of two matrices, which it prints.
fn job(alloc: Global, modulus: Modulus) -> Result<Job, AllocError>
    requires { IsModulus modulus }
    ensures job { IfOk result IsJob }
    ensures count { IfOk result (λ job. length job.matrices ≡ 2) }
{
    let first = ItemList::from_vec(b"S".to_vec(alloc)?);
    let second = ItemList::from_vec(b"B".to_vec(alloc)?);
    Ok(Job {
        modulus,
        operations: OperationList::new(alloc),
        names: two(alloc, first, second)?,
        matrices: two(alloc, empty(alloc), empty(alloc))?,
        statements: StatementList::new(alloc),
        prints: two(alloc, 0, 1)?,
    })
}

fn matrix(alloc: Global, entries: &[u64]) -> Result<Matrix, AllocError>
    requires { length entries.now ≡ 4 }
{
    Ok(Matrix::from_entries(2, 2, entries.to_vec(alloc)?))
}

#[test]
fn a_summary_is_printed(rt: HostRuntime) -> Result<(), Fail> {
    let alloc = rt.alloc();
    let modulus = Modulus::new(101).expect(&rt, "101 is a modulus");
    let job = job(alloc, modulus)?;
    let factors = matrix(alloc, &[1, 48, 38, 1])?;
    let solved = matrix(alloc, &[48, 55, 4, 15])?;
    let after = two(alloc, factors, solved)?;
    let words = SelfWords {
        n: 2,
        m: 101,
        seed: 1,
        block: 1,
        workers: 2,
    };
    let mut out = Vec::new(alloc);
    write_summary(alloc, &job, words, 23, &after, &mut out)?;
    let text = b"selfrun 2 101 1 block 1 workers 2\ntasks 23\nsum S 88\nsum B 21\n";
    assert_eq!(rt; out.as_slice(), text.as_slice());
    Ok(())
}
