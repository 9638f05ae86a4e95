// Makes the table, with its passes.
ghost use Rattle.std.specs.Prelude.{◌≡◌, ◌^◌, ◌≤◌, [], length, IfOk, IfErr, None};
ghost use Rattle.lease_words.specs.Views.{journal_of, own};
ghost use Rattle.lease_words.specs.Passes.{IsPass};
ghost use Rattle.lease_words.specs.Calls.{journal_view, words_id, base_of, total_of, IsSeatOf, AreFresh};
ghost use Rattle.zk_model.specs.declared.limits.TheConstants.{MAX_PASSES, MAX_STORE_UNITS};

use crate::keeper::Keeper;
use crate::pass::{JournalSeat, Pass};
use crate::rule::{Leases, Make};
use crate::table::Words;
use crate::view::{Bounds, Key, View};
use atomic_table::{Seat, Shared, Table};
use std::alloc::{AllocError, Global};

type LeaseTable<K> = Table<(), View, Key, Leases<K>, Global>;

/// A pass that has not drawn.
fn new_pass(seat: Seat<(), View>, total: u64, known: u64) -> Pass
    requires new { IsPass seat.me total None × (seat.me.0.entries ≡ []) }
    requires known { known ≡ (own seat.me.0).known }
    ensures { (result.seat ≡ seat) × (result.total ≡ total) × (result.kept ≡ None) }
{
    Pass {
        seat,
        total,
        kept: None,
        known,
    }
}

/// Makes the passes, in order of their numbers.
fn make_passes<K: Keeper>(
    alloc: Global,
    shared: &Shared<(), View, Key, Leases<K>>,
    seat: &mut Seat<(), View>,
    base: u64,
    total: u64,
    passes: u32,
) -> Result<Vec<Pass>, AllocError>
    requires own { (seat.old.table_id ≡ shared.now.table_id) × (shared.now.table_id.words ≡ 3) }
    requires first { seat.old.me ≡ (journal_of shared.now.key.keeper shared.now.key.bounds.base total 0, []) }
    requires base { base ≡ shared.now.key.bounds.base }
    requires bounded { passes ≤ MAX_PASSES }
    ensures own { seat.new.table_id ≡ seat.old.table_id }
    ensures seat { IfOk result (λ _. seat.new.me
        ≡ (journal_of shared.now.key.keeper shared.now.key.bounds.base total passes, [])) }
    ensures count { IfOk result (λ v. length v.items ≡ passes) }
    ensures fresh { IfOk result (λ v. AreFresh shared.now.table_id shared.now.key.bounds.base total v.items) }
{
    let mut made = Vec::with_capacity(alloc, passes as usize)?;
    for _ in 0..passes {
        let next = shared.split_seat::<Make>(seat);
        made.push(new_pass(next, total, base))?;
    }
    Ok(made)
}

/// The words, the journal's seat, and as many passes, none of which has drawn. The next unit and the ceiling shown are
/// `base`, which the keeper stores, and the mark is 0.
///
/// # Errors
///
/// Only where memory runs out. What keeps the ceiling comes back.
pub fn start<K: Keeper>(
    alloc: Global,
    keeper: K,
    base: u64,
    total: u64,
    passes: u32,
) -> Result<(Words<K>, JournalSeat<K>, Vec<Pass>), (AllocError, K)>
    requires range { (base ≤ total) × (total ≤ MAX_STORE_UNITS) }
    requires passes { (1 ≤ passes) × (passes ≤ MAX_PASSES) }
    requires stored { K.stores keeper base }
    ensures words { IfOk result (λ r. (base_of r.0 ≡ base) × (total_of r.0 ≡ total)) }
    ensures own { IfOk result (λ r. IsSeatOf r.0 r.1) }
    ensures keeper { IfOk result (λ r. r.1.keeper ≡ keeper) }
    ensures refused { IfErr result (λ e. e.1 ≡ keeper) }
    ensures journal { IfOk result (λ r. journal_view r.1 ≡ journal_of (K.label keeper) base total passes) }
    ensures count { IfOk result (λ r. length r.2.items ≡ passes) }
    ensures fresh { IfOk result (λ r. AreFresh (words_id r.0) base total r.2.items) }
{
    let key = Key {
        bounds: Bounds { base, total },
        keeper: keeper.name(),
    };
    let (table, mut seat) = match LeaseTable::<K>::of_words(alloc, &[base, base, 0], &key) {
        Ok(parts) => parts,
        Err(fault) => return Err((fault, keeper)),
    };
    match make_passes(alloc, &table.shared, &mut seat, base, total, passes) {
        Ok(made) => Ok((Words { table }, JournalSeat { seat, keeper }, made)),
        Err(fault) => Err((fault, keeper)),
    }
}
