// The columns of a code, made once.
ghost use Rattle.std.specs.Prelude.{◌≡◌, ◌^◌, ◌<◌, ◌≤◌, length, All, IfOk, vec_len};
ghost use Rattle.zk_model.specs.Mac.{values_of, macs_of};
ghost use Rattle.zk_model.specs.Extension.{code_column, code_outputs};
ghost use Rattle.linear_code.specs.Codes.{IsCode, output_at};
ghost use Rattle.zk_model.specs.declared.limits.TheConstants.{MAX_BASE};

use crate::places::base_places;
use crate::sums::{base_sum, pair_sums, total};
use mersenne_field::{Fe, Pair};
use std::alloc::{AllocError, Global};
use std::marker::Model;

/// The columns of a code: for each output ten base places, in 20 bytes. They are the same for every unit of a
/// session, and making them costs more than a use of them. Contracts see the seed, how many base elements there are, and
/// for how many outputs there are columns.
#[derive(Debug, Drop)]
pub struct Columns {
    code_seed: [u8; 32],
    base: u32,
    count: usize,
    places: Vec<u16>,
}

impl Model for Columns {
    ghost use Rattle.linear_code.specs.Codes.{Code, IsCode};

    ghost Value = { Code };

    ghost view = { λ c. record { seed = c.code_seed; base = c.base; count = c.count } };

    ghost invariant = { λ c. IsCode c.code_seed c.base c.count c.places.items };
}

impl Columns {
    /// The columns of the first outputs.
    ///
    /// # Errors
    ///
    /// Only where memory runs out.
    pub fn new(
        alloc: Global,
        code_seed: &[u8; 32],
        base: u32,
        count: usize,
    ) -> Result<Columns, AllocError>
        requires least { 10 ≤ base }
        requires at_most { base ≤ MAX_BASE }
        requires bounded { count ≤ 2 ^ 26 }
        ensures { IfOk result (λ c. c ≡ record { seed = code_seed.now; base = base; count = count }) }
    {
        let places = base_places(alloc, code_seed, base, 10 * count)?;
        Ok(Columns {
            code_seed: *code_seed,
            base,
            count,
            places,
        })
    }

    /// One output for each entry of noise, as `apply` gives it under the seed of the columns.
    ///
    /// # Errors
    ///
    /// Only where memory runs out.
    pub fn apply(&self, alloc: Global, base: &[Fe], noise: &[Fe]) -> Result<Vec<Fe>, AllocError>
        requires base { length base.now ≡ self.now.base }
        requires noise { length noise.now ≤ self.now.count }
        ensures outputs { IfOk result (λ v. v.items ≡ code_outputs self.now.seed base.now noise.now) }
        ensures length { IfOk result (λ v. vec_len v ≡ length noise.now) }
    {
        let mut outputs = Vec::with_capacity(alloc, noise.len())?;
        for (j, entry) in noise.iter().enumerate() {
            outputs.push(self.output(base, j, *entry))?;
        }
        Ok(outputs)
    }

    /// The same for pairs, values and MACs in one pass.
    ///
    /// # Errors
    ///
    /// Only where memory runs out.
    pub fn apply_pairs(
        &self,
        alloc: Global,
        base: &[Pair],
        noise: &[Pair],
    ) -> Result<Vec<Pair>, AllocError>
        requires base { length base.now ≡ self.now.base }
        requires noise { length noise.now ≤ self.now.count }
        ensures values { IfOk result (λ v. values_of v.items
            ≡ code_outputs self.now.seed (values_of base.now) (values_of noise.now)) }
        ensures macs { IfOk result (λ v. macs_of v.items
            ≡ code_outputs self.now.seed (macs_of base.now) (macs_of noise.now)) }
        ensures length { IfOk result (λ v. vec_len v ≡ length noise.now) }
    {
        let mut outputs = Vec::with_capacity(alloc, noise.len())?;
        for (j, entry) in noise.iter().enumerate() {
            outputs.push(self.output_pair(base, j, *entry))?;
        }
        Ok(outputs)
    }

    /// Output j of a list: the base elements at its column, and the entry.
    fn output(&self, base: &[Fe], j: usize, entry: Fe) -> Fe
        requires base { length base.now ≡ self.now.base }
        requires there { j < self.now.count }
        ensures { result ≡ output_at self.now.seed base.now j entry }
    {
        let (front, back) = self.column(j).split_at(8);
        total(base_sum(base, front), base_sum(base, back), entry)
    }

    /// Output j of pairs.
    fn output_pair(&self, base: &[Pair], j: usize, entry: Pair) -> Pair
        requires base { length base.now ≡ self.now.base }
        requires there { j < self.now.count }
        ensures value { result.x ≡ output_at self.now.seed (values_of base.now) j entry.x }
        ensures mac { result.m ≡ output_at self.now.seed (macs_of base.now) j entry.m }
    {
        let (front, back) = self.column(j).split_at(8);
        let eight = pair_sums(base, front);
        let two = pair_sums(base, back);
        Pair {
            x: total(eight.x, two.x, entry.x),
            m: total(eight.m, two.m, entry.m),
        }
    }

    /// The ten base places of output j.
    fn column(&self, j: usize) -> &[u16]
        requires { j < self.now.count }
        ensures places { result.now ≡ code_column self.now.seed self.now.base j }
        ensures inside { All (λ place. place < self.now.base) result.now }
        ensures ten { length result.now ≡ 10 }
    {
        &self.places[10 * j..10 * j + 10]
    }
}
