// The gates of a circuit's text.
ghost use Rattle.std.specs.Prelude.{◌≡◌, ◌≤◌, ◌-◌, ◌<◌, ◌^◌, IfOk, IfErr, IfSome, IfNone, length};
ghost use Rattle.zk_model.specs.declared.limits.TheConstants.{MAX_WIRES};
ghost use Rattle.arith_reader.specs.Rows.{AreFirstFlags, AreSetFrom, GivesRows, IsFirstUnset, IsHeader, IsWithin, RowsCause, flags_after};

use crate::fault::ReadError;
use crate::gate::read_row;
use crate::header::Header;
use crate::wants::end;
use packed_gates::{ArithRow, PackedRows};
use std::alloc::{AllocError, Global};
use text_tokens::Tokens;
use zk_model::ReadFault;

/// A flag for each wire, of which the first are set.
fn first_flags(alloc: Global, wires: u32, inputs: u32) -> Result<Vec<bool>, AllocError>
    requires { inputs ≤ wires }
    ensures { IfOk result (λ flags. AreFirstFlags flags.items wires inputs) }
{
    let mut flags = Vec::new(alloc);
    flags.resize(inputs as usize, true)?;
    flags.resize(wires as usize, false)?;
    Ok(flags)
}

/// Notes the wire that a gate sets.
#[inline(always)]
fn note(set: &mut Vec<bool>, row: ArithRow)
    requires { IsWithin (length set.old.items) row }
    ensures { set.new.items ≡ flags_after set.old.items row }
{
    match row {
        ArithRow::Add { out, .. } | ArithRow::Mul { out, .. } | ArithRow::Const { out, .. } => {
            set[out as usize] = true;
        }
        ArithRow::Assert { .. } => {}
    }
}

/// The first of the last `outputs` wires that is not set.
fn unset_output(set: &[bool], outputs: u32) -> Option<u32>
    requires some_outputs { outputs ≤ length set.now }
    requires bounded { length set.now ≤ MAX_WIRES }
    ensures unset { IfSome result (IsFirstUnset set.now (length set.now - outputs)) }
    ensures none { IfNone result (AreSetFrom set.now (length set.now - outputs)) }
{
    let first = set.len() - outputs as usize;
    for (i, is_set) in set[first..].iter().enumerate() {
        if !*is_set {
            return Some((first + i) as u32);
        }
    }
    None
}

/// Takes the gates and the end of the text.
pub fn read_body(
    alloc: Global,
    tokens: &mut Tokens,
    header: Header,
) -> Result<PackedRows, ReadError>
    requires { IsHeader header }
    ensures found { IfOk result (GivesRows header tokens.old) }
    ensures cause { IfErr result (RowsCause header tokens.old) }
{
    let mut set = first_flags(alloc, header.wires, header.inputs)?;
    let mut rows = PackedRows::with_capacity(alloc, header.gates as usize)?;
    'rows: for _ in 0..header.gates {
        let row = read_row(tokens, &set)?;
        rows.push(row)?;
        note(&mut set, row);
    }
    end(tokens)?;
    if let Some(wire) = unset_output(&set, header.outputs) {
        return Err(ReadFault::OutputUnset { wire }.into());
    }
    Ok(rows)
}
