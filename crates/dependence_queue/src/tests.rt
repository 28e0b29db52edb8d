use crate::{Access, AccessList, Edge, analyse};
use std::alloc::{AllocError, Global};
use std::test::Fail;
use structure_rules::NumberList;

fn access(alloc: Global, write: u32, reads: &[u32]) -> Result<Access, AllocError> {
    let reads = reads.to_vec(alloc)?;
    Ok(Access {
        write,
        reads: NumberList::from_vec(reads),
    })
}

/// The five steps of an LU factorisation of two by two blocks: its edges are those that are drawn by hand.
#[test]
fn a_small_factorisation_has_five_edges(rt: HostRuntime) -> Result<(), Fail> {
    let mut steps = AccessList::new(rt.alloc());
    steps.push(access(rt.alloc(), 0, &[])?)?;
    steps.push(access(rt.alloc(), 1, &[0])?)?;
    steps.push(access(rt.alloc(), 2, &[0])?)?;
    steps.push(access(rt.alloc(), 3, &[2, 1])?)?;
    steps.push(access(rt.alloc(), 3, &[])?)?;
    let edges = analyse(rt.alloc(), &steps)?;
    assert_eq!(rt; edges.len(), 5);
    assert_eq!(rt; edges.preds(4), 2);
    assert_eq!(rt; edges.succ(1, 1), Some(3));
    assert_eq!(rt; edges.succ(1, 2), None);
    let last = Edge {
        from: 4,
        to: 5,
        flow: false,
        anti: false,
        output: true,
    };
    assert_eq!(rt; edges.get(4).copied(), Some(last));
    Ok(())
}
