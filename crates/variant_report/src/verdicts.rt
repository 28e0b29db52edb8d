//! The verdict on a worksheet as text.

ghost use Rattle.std.specs.Prelude.{◌≡◌, ◌++◌, decimal, OnOk, OnErr};
ghost use Rattle.variant_report.specs.VerdictTexts.{dims_text, ends_text, sheet_place, shown_text};
ghost use Rattle.variant_report.specs.VerdictTexts.{state_text, verdict_text};

use operation_spec::Operation;
use std::alloc::{AllocError, Global};
use task_texts::{name_of, put_number, put_task, put_tasks};
use worksheet::{End, Shown, State, Verdict, WsPlace};

/// Appends the text of a verdict on a worksheet of an operation: `right`, or `wrong PLACE found SHOWN due SHOWN`. Its one
/// error is want of memory, and then nothing is appended: the text is composed apart from `out` first.
pub fn write_verdict(
    alloc: Global,
    op: &Operation,
    v: &Verdict,
    out: &mut Vec<u8>,
) -> Result<(), AllocError>
    ensures ok { OnOk result (out.new.items ≡ out.old.items ++ verdict_text op.now v.now) }
    ensures err { OnErr result (out.new.items ≡ out.old.items) }
{
    let mut text = Vec::new(alloc);
    put_verdict(op, v, &mut text)?;
    out.extend_from_slice(&text)
}

fn put_verdict(op: &Operation, v: &Verdict, out: &mut Vec<u8>) -> Result<(), AllocError>
    ensures { OnOk result (out.new.items ≡ out.old.items ++ verdict_text op.now v.now) }
{
    match v {
        Verdict::Right => Ok(out.extend_from_slice(b"right\n")?),
        Verdict::Wrong { place, found, due } => {
            out.extend_from_slice(b"wrong ")?;
            put_sheet_place(*place, out)?;
            out.extend_from_slice(b" found")?;
            put_shown(op, found, out)?;
            out.extend_from_slice(b" due")?;
            put_shown(op, due, out)?;
            Ok(out.push(b'\n')?)
        }
    }
}

/// Appends a place of a worksheet.
fn put_sheet_place(place: WsPlace, out: &mut Vec<u8>) -> Result<(), AllocError>
    ensures { OnOk result (out.new.items ≡ out.old.items ++ sheet_place place) }
{
    match place {
        WsPlace::Order => Ok(out.extend_from_slice(b"invariant order")?),
        WsPlace::F1 => Ok(out.extend_from_slice(b"invariant F1")?),
        WsPlace::F2 => Ok(out.extend_from_slice(b"invariant F2")?),
        WsPlace::F3 => Ok(out.extend_from_slice(b"invariant F3")?),
        WsPlace::F4 => Ok(out.extend_from_slice(b"invariant F4")?),
        WsPlace::Guard => Ok(out.extend_from_slice(b"guard")?),
        WsPlace::Start => Ok(out.extend_from_slice(b"start")?),
        WsPlace::Take => Ok(out.extend_from_slice(b"take")?),
        WsPlace::Before(p) => Ok(put_line(b"before ", p, out)?),
        WsPlace::Update(p) => Ok(put_line(b"update ", p, out)?),
        WsPlace::Give => Ok(out.extend_from_slice(b"give")?),
        WsPlace::After(p) => Ok(put_line(b"after ", p, out)?),
    }
}

/// Appends the kind of a line and its number among those of its kind.
fn put_line(kind: &[u8], number: u32, out: &mut Vec<u8>) -> Result<(), AllocError>
    ensures { OnOk result (out.new.items ≡ out.old.items ++ (kind.now ++ decimal number)) }
{
    out.extend_from_slice(kind)?;
    put_number(number, out)
}

/// Appends what a verdict shows, behind a space.
fn put_shown(op: &Operation, shown: &Shown, out: &mut Vec<u8>) -> Result<(), AllocError>
    ensures { OnOk result (out.new.items ≡ out.old.items ++ shown_text op.now shown.now) }
{
    match shown {
        Shown::Nothing => Ok(out.extend_from_slice(b" -")?),
        Shown::One(task) => {
            out.push(b' ')?;
            put_task(*task, out)
        }
        Shown::Dims(dims) => put_dims(op, dims.as_slice(), out),
        Shown::Ends(ends) => put_ends(op, ends.as_slice(), out),
        Shown::Line(state) => put_state(state, out),
    }
}

/// Appends the names of dimensions, each behind a space.
fn put_dims(op: &Operation, dims: &[u32], out: &mut Vec<u8>) -> Result<(), AllocError>
    ensures { OnOk result (out.new.items ≡ out.old.items ++ dims_text op.now dims.now) }
{
    for d in dims {
        out.push(b' ')?;
        out.extend_from_slice(name_of(op, *d))?;
    }
    Ok(())
}

/// Appends the names of dimensions, each behind a space and with its end.
fn put_ends(op: &Operation, ends: &[End], out: &mut Vec<u8>) -> Result<(), AllocError>
    ensures { OnOk result (out.new.items ≡ out.old.items ++ ends_text op.now ends.now) }
{
    for end in ends {
        out.push(b' ')?;
        out.extend_from_slice(name_of(op, end.dim))?;
        out.extend_from_slice(if end.last { b" last" } else { b" first" })?;
    }
    Ok(())
}

/// Appends the place of a block and the tasks that are done of it, behind a space.
fn put_state(state: &State, out: &mut Vec<u8>) -> Result<(), AllocError>
    ensures { OnOk result (out.new.items ≡ out.old.items ++ state_text state.now) }
{
    out.push(b' ')?;
    put_number(state.row, out)?;
    out.push(b' ')?;
    put_number(state.col, out)?;
    out.extend_from_slice(b" :")?;
    put_tasks(state.done.as_slice(), out)
}
