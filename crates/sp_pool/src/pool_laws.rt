//! Laws of the pool's steps: each is the contract of a function that does nothing.

ghost use Rattle.std.specs.Prelude.{◌≡◌, ◌<◌, ◌≤◌, ℕ, List, length};
ghost use Rattle.sp_pool.specs.Pools.{PoolState, Event, empty_state, after_all, after_offers, lasting, best_of, without_worst, IsWithoutWorst};
ghost use Rattle.sp_pool.specs.declared.members.Member.{Member};
ghost use Rattle.sp_pool.specs.declared.members.Offered.{Offered};
ghost use Rattle.sp_pool.specs.declared.members.Rule.TheVariants.{Worst};

/// A pool never holds more members than its capacity, whatever happens to it.
pub fn pool_is_never_overfull()
    ensures { (scale : ℕ) (events : List Event) →
        length (after_all (empty_state scale) events).members ≤ (after_all (empty_state scale) events).capacity }
{}

/// Under Worst, while capacity, rule, gaps and filters stay, what a pool holds after offers is the best of all that it held and
/// was offered, as many as its capacity: of what passed and was never above a cut from its own offer on, the worst one is
/// dropped until no more are left than may stay.
pub fn worst_holds_the_best()
    ensures { (s : PoolState) (offers : List Offered) → s.rule ≡ Worst → length s.members ≤ s.capacity →
        (after_offers s offers).members ≡ best_of s.capacity (lasting s s.members offers) }
{}

/// The worst member is one of greatest value, and the last one of these, so the earlier one stays on a tie.
pub fn worst_is_the_last_greatest()
    ensures { (ms : List Member) → 0 < length ms → IsWithoutWorst ms (without_worst ms) }
{}
