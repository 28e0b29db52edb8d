ghost use Rattle.std.specs.Prelude.{◌≡◌, ◌<◌, [], ◌∷◌, ◌++◌, decimal, OnOk};
ghost use Rattle.task_texts.specs.TaskTexts.{pair_text, triple_text, task_text, tasks_text};

use byte_texts::put_decimal;
use operation_spec::{Kind, Task};
use std::alloc::AllocError;

/// The digit of a number below 10.
fn digit(n: u32) -> u8
    requires { n < 10 }
    ensures { decimal n ≡ result ∷ [] }
{
    b'0' + n as u8
}

/// Appends a number.
pub fn put_number(n: u32, out: &mut Vec<u8>) -> Result<(), AllocError>
    ensures { OnOk result (out.new.items ≡ out.old.items ++ decimal n) }
{
    if n < 10 {
        Ok(out.push(digit(n))?)
    } else {
        Ok(put_decimal(u64::from(n), out)?)
    }
}

/// Appends two numbers in parentheses. Numbers of one digit go in one piece, since a family has many of them.
fn put_pair(i: u32, j: u32, out: &mut Vec<u8>) -> Result<(), AllocError>
    ensures { OnOk result (out.new.items ≡ out.old.items ++ pair_text i j) }
{
    if i < 10 && j < 10 {
        return Ok(out.extend_from_slice(&[b'(', digit(i), b',', digit(j), b')'])?);
    }
    out.push(b'(')?;
    put_number(i, out)?;
    out.push(b',')?;
    put_number(j, out)?;
    out.push(b')')?;
    Ok(())
}

/// Appends three numbers in parentheses, in one piece where each has one digit.
fn put_triple(i: u32, j: u32, k: u32, out: &mut Vec<u8>) -> Result<(), AllocError>
    ensures { OnOk result (out.new.items ≡ out.old.items ++ triple_text i j k) }
{
    if i < 10 && j < 10 && k < 10 {
        return Ok(out.extend_from_slice(&[b'(', digit(i), b',', digit(j), b',', digit(k), b')'])?);
    }
    out.push(b'(')?;
    put_number(i, out)?;
    out.push(b',')?;
    put_number(j, out)?;
    out.push(b',')?;
    put_number(k, out)?;
    out.push(b')')?;
    Ok(())
}

/// Appends the text of a task, as `left(1,1,0)`.
pub fn put_task(task: Task, out: &mut Vec<u8>) -> Result<(), AllocError>
    ensures { OnOk result (out.new.items ≡ out.old.items ++ task_text task) }
{
    match task.kind {
        Kind::Pivots => Ok(out.extend_from_slice(b"pivots")?),
        Kind::Term => {
            out.extend_from_slice(b"term")?;
            put_number(task.term, out)?;
            Ok(put_triple(task.i, task.j, task.k, out)?)
        }
        Kind::Left => {
            out.extend_from_slice(b"left")?;
            Ok(put_triple(task.i, task.j, task.k, out)?)
        }
        Kind::Right => {
            out.extend_from_slice(b"right")?;
            Ok(put_triple(task.i, task.j, task.k, out)?)
        }
        Kind::Solve => {
            out.extend_from_slice(b"solve")?;
            Ok(put_pair(task.i, task.j, out)?)
        }
    }
}

/// Appends each task behind a space.
pub fn put_tasks(tasks: &[Task], out: &mut Vec<u8>) -> Result<(), AllocError>
    ensures { OnOk result (out.new.items ≡ out.old.items ++ tasks_text tasks.now) }
{
    for task in tasks {
        out.push(b' ')?;
        put_task(*task, out)?;
    }
    Ok(())
}

#[cfg(test)]
mod tests {
    use super::*;
    use std::test::Fail;

    fn task(kind: Kind, term: u32, k: u32) -> Task {
        Task {
            kind,
            term,
            i: 1,
            j: 20,
            k,
        }
    }

    #[test]
    fn tasks_are_printed(rt: HostRuntime) -> Result<(), Fail> {
        let mut out = Vec::new(rt.alloc());
        let tasks = [
            task(Kind::Term, 2, 3),
            task(Kind::Left, 0, 3),
            task(Kind::Right, 0, 3),
            task(Kind::Solve, 0, 0),
            task(Kind::Pivots, 0, 0),
        ];
        put_tasks(&tasks, &mut out)?;
        assert_eq!(rt;
            out.as_slice(),
            b" term2(1,20,3) left(1,20,3) right(1,20,3) solve(1,20) pivots".as_slice()
        );
        Ok(())
    }
}
