// The rows of an arithmetic circuit.
ghost use Rattle.std.specs.Prelude.{◌≡◌, ◌+◌, ◌<◌, ◌^◌, ◌++◌, ◌∷◌, [], length, slice_get, Some, IfOk, OnOk, OnErr};
ghost use Rattle.packed_gates.specs.PackedRows.{AreRowsPacked, HasElement, IsRowRule, lists_of, lists_with, before_next, row_of, row_rule, rows_of};

use crate::packed::{Factors, PackedStep, Tables};
use mersenne_field::Fe;
use std::alloc::{AllocError, Global};
use std::marker::Model;
use zk_model::ArithRow;

/// Rows of gates in order: 12 bytes for each, and 8 more for an ADD, a MUL or a CONST. Contracts see the list of the rows.
#[derive(Debug, Drop)]
pub struct PackedRows {
    rules: Vec<PackedStep>,
    tables: Tables,
}

impl Model for PackedRows {
    ghost use Rattle.std.specs.Prelude.{List};
    ghost use Rattle.packed_gates.specs.PackedRows.{AreRowsPacked, lists_of, rows_of};
    ghost use Rattle.zk_model.specs.declared.ArithRow as row;

    ghost Value = { List row.ArithRow };

    ghost view = { λ r. rows_of (lists_of r.tables) r.rules.items };

    ghost invariant = { λ r. AreRowsPacked (rows_of (lists_of r.tables) r.rules.items)
        r.rules.items r.tables };
}

/// The rule of a row, where what it names comes next in the tables: there it is appended.
#[inline(always)]
fn tabled(tables: &mut Tables, row: ArithRow) -> Result<PackedStep, AllocError>
    requires products { length tables.old.factors.items < 2 ^ 32 }
    requires sums { length tables.old.sums.items < 2 ^ 32 }
    requires constants { length tables.old.constants.items < 2 ^ 32 }
    requires element { HasElement row }
    ensures rule { IfOk result (λ rule. rule ≡ row_rule (before_next (lists_of tables.old)) row) }
    ensures lists { OnOk result (lists_of tables.new ≡ lists_with (lists_of tables.old) row) }
    ensures kept { OnErr result (lists_of tables.new ≡ lists_of tables.old) }
{
    match row {
        ArithRow::Add { a, b, out } => {
            let sum = tables.sums.len() as u32;
            tables.sums.push(Factors { a, b })?;
            Ok(PackedStep::Sum { out, sum })
        }
        ArithRow::Mul { a, b, out } => {
            let product = tables.factors.len() as u32;
            tables.factors.push(Factors { a, b })?;
            Ok(PackedStep::Mul { out, product })
        }
        ArithRow::Const { value, out } => {
            let constant = tables.constants.len() as u32;
            tables.constants.push(Fe::from_word(value))?;
            Ok(PackedStep::Const { out, constant })
        }
        ArithRow::Assert { a } => Ok(PackedStep::Assert { a }),
    }
}

/// The row that a rule says, where these are the tables.
#[inline(always)]
fn row_of(rule: PackedStep, tables: &Tables) -> ArithRow
    requires { IsRowRule (lists_of tables.now) rule }
    ensures { result ≡ row_of (lists_of tables.now) rule }
{
    match rule {
        PackedStep::Sum { out, sum } => {
            let Factors { a, b } = tables.sums[sum as usize];
            ArithRow::Add { a, b, out }
        }
        PackedStep::Mul { out, product } => {
            let Factors { a, b } = tables.factors[product as usize];
            ArithRow::Mul { a, b, out }
        }
        PackedStep::Const { out, constant } => ArithRow::Const {
            value: tables.constants[constant as usize].value(),
            out,
        },
        PackedStep::Assert { a } => ArithRow::Assert { a },
        PackedStep::Bit { .. }
        | PackedStep::Copy { .. }
        | PackedStep::Not { .. }
        | PackedStep::XorFrom { .. } => unreachable!(),
    }
}

impl PackedRows {
    /// No rows, with room for the rules of so many.
    ///
    /// # Errors
    ///
    /// Only where memory runs out.
    pub fn with_capacity(alloc: Global, rows: usize) -> Result<Self, AllocError>
        ensures { IfOk result (λ r. r ≡ []) }
    {
        let rules = Vec::with_capacity(alloc, rows)?;
        let tables = Tables {
            factors: Vec::new(alloc),
            sums: Vec::new(alloc),
            constants: Vec::new(alloc),
        };
        Ok(PackedRows { rules, tables })
    }

    /// Appends a row, whose constant, if it has one, is below the prime.
    ///
    /// # Errors
    ///
    /// Only where memory runs out; the rows are as before then.
    #[inline(always)]
    pub fn push(&mut self, row: ArithRow) -> Result<(), AllocError>
        requires few { length self.old < 2 ^ 32 }
        requires element { HasElement row }
        ensures pushed { OnOk result (self.new ≡ self.old ++ row ∷ []) }
        ensures kept { OnErr result (self.new ≡ self.old) }
    {
        self.rules.reserve(1)?;
        let rule = tabled(&mut self.tables, row)?;
        self.rules.push_reserved(rule);
        Ok(())
    }

    /// How many rows there are.
    pub fn len(&self) -> usize
        ensures { result ≡ length self.now }
    {
        self.rules.len()
    }

    /// The row of this number, from 0.
    #[inline(always)]
    pub fn get(&self, i: usize) -> ArithRow
        requires { i < length self.now }
        ensures { slice_get self.now i ≡ Some result }
    {
        row_of(self.rules[i], &self.tables)
    }

    /// The rules of the rows, and the tables that they name.
    pub fn into_parts(self) -> (Vec<PackedStep>, Tables)
        ensures { AreRowsPacked self result.0.items result.1 }
    {
        (self.rules, self.tables)
    }
}
