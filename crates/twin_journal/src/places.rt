// Where the areas of a journal stand.
ghost use Rattle.std.specs.Prelude.{◌≡◌, ◌≤◌, ◌^◌};
ghost use Rattle.lease_journal.specs.Twins.{head_at};
ghost use Rattle.zk_model.specs.declared.limits.TheConstants.{MAX_SLOTS};

/// Where the head of an area stands.
pub fn head_at(begin: u64, slots: u64, second: bool) -> u64
    requires low { begin ≤ 2 ^ 36 }
    requires bounded { slots ≤ MAX_SLOTS }
    ensures { result ≡ head_at begin slots second }
{
    if second {
        begin + 64 + 32 * (slots + 1)
    } else {
        begin + 64
    }
}
