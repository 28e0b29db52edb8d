ghost use Rattle.std.specs.Prelude.{◌≡◌, ◌++◌, ◌<◌, length, OnOk, OnErr};
ghost use Rattle.equation.specs.Jobs.{IsJob};
ghost use Rattle.variant_report.specs.ResultTexts.{printed_text, result_text};

use equation::Job;
use matrix_core::MatrixList;
use matrix_text::write_matrix;
use std::alloc::{AllocError, Global};

/// Appends the matrix with a number under its name.
fn put_matrix(
    alloc: Global,
    job: &Job,
    matrices: &MatrixList,
    n: u32,
    out: &mut Vec<u8>,
) -> Result<(), AllocError>
    requires name { n < length job.now.names }
    requires matrix { n < length matrices.now }
    ensures { OnOk result (out.new.items ≡ out.old.items ++ printed_text job.now matrices.now n) }
{
    let name = &job.names.as_slice()[n as usize];
    write_matrix(alloc, name, &matrices.as_slice()[n as usize], out)
}

/// Appends the matrix of each print.
fn put_result(
    alloc: Global,
    job: &Job,
    matrices: &MatrixList,
    out: &mut Vec<u8>,
) -> Result<(), AllocError>
    requires job { IsJob job.now }
    requires count { length matrices.now ≡ length job.now.matrices }
    ensures { OnOk result (out.new.items ≡ out.old.items ++ result_text job.now matrices.now) }
{
    for n in job.prints.as_slice() {
        put_matrix(alloc, job, matrices, *n, out)?;
    }
    Ok(())
}

/// Appends the result of a job: for each print, in the job's order, the matrix under its name. There are as many
/// matrices as the job has; they are those that it leaves. Its one error is want of memory, and then nothing is
/// appended: the text is composed apart from `out` first.
pub fn write_result(
    alloc: Global,
    job: &Job,
    matrices: &MatrixList,
    out: &mut Vec<u8>,
) -> Result<(), AllocError>
    requires job { IsJob job.now }
    requires count { length matrices.now ≡ length job.now.matrices }
    ensures ok { OnOk result (out.new.items ≡ out.old.items ++ result_text job.now matrices.now) }
    ensures err { OnErr result (out.new.items ≡ out.old.items) }
{
    let mut text = Vec::new(alloc);
    put_result(alloc, job, matrices, &mut text)?;
    out.extend_from_slice(&text)
}
