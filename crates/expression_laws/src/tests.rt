use block_expr::{BlockEquation, Expr, expand, put_place, simplify, write_expr};
use operation_spec::{Operation, Split, read_operation};
use std::alloc::{AllocError, Global};
use std::test::Fail;
use text_scan::scan;

fn read(alloc: Global, text: &[u8]) -> Option<Operation> {
    if text.len() > 1000 {
        return None;
    }
    match scan(alloc, text, 1) {
        Ok(tokens) => match read_operation(alloc, text, &tokens, 0) {
            Ok((op, _)) => Some(op),
            Err(_) => None,
        },
        Err(_) => None,
    }
}

/// Appends what stands before a side of an equation, and the side.
fn put_side(
    alloc: Global,
    op: &Operation,
    before: &str,
    side: &Expr,
    out: &mut Vec<u8>,
) -> Result<(), AllocError> {
    out.extend_from_slice(before.as_bytes())?;
    write_expr(alloc, op, side, out)
}

/// Appends a line: an equation as it is expanded, and as it is simplified.
fn put_equation(
    alloc: Global,
    op: &Operation,
    e: &BlockEquation,
    out: &mut Vec<u8>,
) -> Result<(), AllocError> {
    put_place(e.row, e.col, out)?;
    put_side(alloc, op, ": ", &e.left, out)?;
    put_side(alloc, op, " = ", &e.right, out)?;
    let left = simplify(alloc, op, &e.left)?;
    let right = simplify(alloc, op, &e.right)?;
    put_side(alloc, op, "; ", &left, out)?;
    put_side(alloc, op, " = ", &right, out)?;
    out.push(b'\n')?;
    Ok(())
}

/// The equations of an operation cut into two parts along its first dimension.
fn equations(alloc: Global, op: &Operation) -> Result<Vec<u8>, AllocError> {
    let along_first = Split {
        first: 0,
        second: None,
    };
    let expanded = expand(alloc, op, along_first)?;
    let mut out = Vec::new(alloc);
    for e in expanded.as_slice() {
        put_equation(alloc, op, e, &mut out)?;
    }
    Ok(out)
}

// The equations are cut and simplified by hand.
#[test]
fn equations_are_expanded_and_simplified(rt: HostRuntime) -> Result<(), Fail> {
    let cases = [
        (
            "operation lu\ndims n\nwork W general n n\nequation lu X = W\nend\n",
            "[0,0]: X.l[0,0]*X.u[0,0] + X.l[0,1]*X.u[1,0] = W[0,0]; X.l[0,0]*X.u[0,0] = W[0,0]\n[0,1]: X.l[0,0]*X.u[0,1] + X.l[0,1]*X.u[1,1] = W[0,1]; X.l[0,0]*X.u[0,1] = W[0,1]\n[1,0]: X.l[1,0]*X.u[0,0] + X.l[1,1]*X.u[1,0] = W[1,0]; X.l[1,0]*X.u[0,0] = W[1,0]\n[1,1]: X.l[1,0]*X.u[0,1] + X.l[1,1]*X.u[1,1] = W[1,1]; X.l[1,0]*X.u[0,1] + X.l[1,1]*X.u[1,1] = W[1,1]\n",
        ),
        (
            "operation upp\ndims n m\nwork W general n m\nknown T lower n n\nknown B general n m\nequation T' * X = W - T * B\nend\n",
            "[0,0]: T'[0,0]*X[0,0] + T'[0,1]*X[1,0] = W[0,0] - T[0,0]*B[0,0] - T[0,1]*B[1,0]; T'[0,0]*X[0,0] + T'[0,1]*X[1,0] = W[0,0] - T[0,0]*B[0,0]\n[1,0]: T'[1,0]*X[0,0] + T'[1,1]*X[1,0] = W[1,0] - T[1,0]*B[0,0] - T[1,1]*B[1,0]; T'[1,1]*X[1,0] = W[1,0] - T[1,0]*B[0,0] - T[1,1]*B[1,0]\n",
        ),
    ];
    for (text, due) in cases {
        let op = read(rt.alloc(), text.as_bytes()).expect(&rt, "the text is an operation");
        let found = equations(rt.alloc(), &op)?;
        assert_eq!(rt; found.as_slice(), due.as_bytes(), "{text}");
    }
    Ok(())
}
