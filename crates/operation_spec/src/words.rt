ghost use Rattle.std.specs.Prelude.{◌≡◌, ◌++◌, map, OnOk};
ghost use Rattle.operation_spec.specs.OperationLines.{nth_name, sign_word, structure_word};
ghost use Rattle.operation_spec.specs.WordTexts.{word_text, words_text};

use crate::operation::Operand;
use std::alloc::AllocError;
use structure_rules::Structure;
use text_scan::Name;

/// Appends a word that follows another on its line: behind a space, but for `'`.
pub fn put_word(word: &[u8], out: &mut Vec<u8>) -> Result<(), AllocError>
    ensures { OnOk result (out.new.items ≡ out.old.items ++ word_text word.now) }
{
    if word != b"'".as_slice() {
        out.push(b' ')?;
    }
    out.extend_from_slice(word)?;
    Ok(())
}

/// Appends each name, as `put_word` does.
pub fn put_names(names: &[Name], out: &mut Vec<u8>) -> Result<(), AllocError>
    ensures { OnOk result (out.new.items ≡ out.old.items ++ words_text names.now) }
{
    for name in names {
        put_word(name.as_slice(), out)?;
    }
    Ok(())
}

pub fn put_sign(minus: bool, out: &mut Vec<u8>) -> Result<(), AllocError>
    ensures { OnOk result (out.new.items ≡ out.old.items ++ word_text (sign_word minus)) }
{
    if minus {
        Ok(put_word(b"-", out)?)
    } else {
        Ok(put_word(b"+", out)?)
    }
}

pub fn put_structure(structure: Structure, out: &mut Vec<u8>) -> Result<(), AllocError>
    ensures { OnOk result (out.new.items ≡ out.old.items ++ word_text (structure_word structure)) }
{
    match structure {
        Structure::General => Ok(put_word(b"general", out)?),
        Structure::Lower => Ok(put_word(b"lower", out)?),
        Structure::UnitLower => Ok(put_word(b"unitlower", out)?),
        Structure::Upper => Ok(put_word(b"upper", out)?),
        Structure::UnitUpper => Ok(put_word(b"unitupper", out)?),
        Structure::Diagonal => Ok(put_word(b"diagonal", out)?),
        Structure::Symmetric => Ok(put_word(b"symmetric", out)?),
    }
}

/// The name of a dimension.
pub fn dim_name(dims: &[Name], d: u32) -> &[u8]
    ensures { result.now ≡ nth_name dims.now d }
{
    match dims.get(d as usize) {
        Some(name) => name.as_slice(),
        None => &[],
    }
}

/// The name of a known operand.
pub fn known_name(knowns: &[Operand], k: u32) -> &[u8]
    ensures { result.now ≡ nth_name (map (λ o. o.name) knowns.now) k }
{
    match knowns.get(k as usize) {
        Some(known) => known.name.as_slice(),
        None => &[],
    }
}
