//! The pool.

ghost use Rattle.std.specs.Prelude.{◌≡◌, ◌+◌, ◌-◌, ◌≤◌, ℕ, min, IsTrue, IsOk, OnOk, OnErr, IfOk, All, IsPermutation, length};
ghost use Rattle.std.specs.List.Sorted.{IsNonDecreasing};
ghost use Rattle.std.specs.Option.{ForSome};
ghost use Rattle.sp_model.specs.Cuts.{IsGap};
ghost use Rattle.sp_pool.specs.Pools.{empty_state, after_offer, after_capacity, after_gaps, after_retain, after_fresh, after_refresh, after, event_of, within_best, without, without_one, makes_way, admitted, taken, best_with, HasRoomFor, IsNear, IsEventLawful, NeedsNoMemory, Ruling};

use crate::events::PoolEvent;
use crate::members::{Member, Offered, Rule};
use crate::rankings::Ranking;
use sp_model::{Gap, Gaps, NoMemory, cut};
use std::alloc::Global;
use std::marker::Model;

/// The greatest number of members that a new pool may hold.
const MOST: u32 = 2_100_000_000;

/// A bounded pool of found points under replacement, as CPLEX's solution pool has it.
///
/// Contracts see it as its list of members in their order, with what its steps go by, and how many members fit with no more
/// memory.
#[derive(Drop)]
pub struct Pool {
    alloc: Global,
    ranking: Ranking,
    scale: u8,
    best: Option<i128>,
    capacity: u32,
    rule: Rule,
    gaps: Gaps,
}

impl Model for Pool {
    ghost use Rattle.sp_pool.specs.Pools.{Stock, PoolState};
    ghost use Rattle.sp_pool.specs.InnerPools.{IsKept};

    ghost Value = { Stock };

    ghost view = { λ p. record { state = record { members = p.ranking.members; scale = p.scale; best = p.best; capacity = p.capacity; rule = p.rule; gaps = p.gaps }; storage = p.ranking.storage } };

    ghost invariant = { λ p. IsKept (record { members = p.ranking.members; scale = p.scale; best = p.best; capacity = p.capacity; rule = p.rule; gaps = p.gaps }) };
}

/// Drops members by the rule while there are more than so many.
fn shrink(ranking: &mut Ranking, rule: Rule, most: u32)
    ensures members { ranking.new.members ≡ without rule (length ranking.old.members - most) ranking.old.members }
    ensures storage { ranking.new.storage ≡ ranking.old.storage }
{
    while ranking.len() > most as usize {
        drop_one(ranking, rule);
    }
}

/// Drops a member by the rule.
fn drop_one(ranking: &mut Ranking, rule: Rule)
    ensures members { ranking.new.members ≡ without_one rule ranking.old.members }
    ensures storage { ranking.new.storage ≡ ranking.old.storage }
{
    match rule {
        Rule::Fifo => ranking.drop_first(),
        Rule::Worst => ranking.drop_worst(),
    }
}

/// Whether the rule drops a member for one of this value.
fn gives_way(ranking: &Ranking, rule: Rule, value: &i128) -> bool
    ensures { result ≡ makes_way rule ranking.now.members value.now }
{
    match rule {
        Rule::Fifo => true,
        Rule::Worst => ranking.exceeds(value),
    }
}

/// Appends the member where there is room, or where the rule drops one for it. It takes no memory.
fn admit(ranking: &mut Ranking, rule: Rule, capacity: u32, member: &Member)
    requires few { length ranking.old.members ≤ capacity }
    requires room { min (length ranking.old.members + 1) capacity ≤ ranking.old.storage }
    ensures members { ranking.new.members ≡ admitted rule capacity ranking.old.members member.now }
    ensures storage { ranking.new.storage ≡ ranking.old.storage }
{
    if capacity == 0 {
        return;
    }
    if ranking.len() < capacity as usize {
        ranking.append(member);
        return;
    }
    if gives_way(ranking, rule, &member.value) {
        drop_one(ranking, rule);
        ranking.append(member);
    }
}

/// Admits an offer that passes and isn't above the cut. It takes no memory.
fn take_in(ranking: &mut Ranking, rule: Rule, capacity: u32, cut: &i128, offered: &Offered)
    requires few { length ranking.old.members ≤ capacity }
    requires room { min (length ranking.old.members + 1) capacity ≤ ranking.old.storage }
    ensures members { ranking.new.members ≡ taken rule capacity cut.now ranking.old.members offered.now }
    ensures storage { ranking.new.storage ≡ ranking.old.storage }
{
    if offered.passes && offered.value <= *cut {
        let member = Member {
            serial: offered.serial,
            value: offered.value,
        };
        admit(ranking, rule, capacity, &member);
    }
}

/// Drops the members above the cut of the best value, where there is one.
fn drop_beyond(ranking: &mut Ranking, best: &Option<i128>, gaps: &Gaps, scale: u8)
    requires near { ForSome best.now IsNear }
    requires abs { IsGap gaps.now.abs }
    requires rel { IsGap gaps.now.rel }
    requires scale { scale ≤ 30 }
    ensures members { ranking.new.members ≡ within_best best.now gaps.now scale ranking.old.members }
    ensures storage { ranking.new.storage ≡ ranking.old.storage }
{
    if let Some(best) = best {
        ranking.drop_above(&cut(*best, gaps, scale));
    }
}

/// The lesser of the best value so far and this one.
fn lesser(best: Option<i128>, value: &i128) -> i128
    ensures { result ≡ best_with best value.now }
{
    match best {
        None => *value,
        Some(best) => best.min(*value),
    }
}

/// The numbers in ascending order.
fn ascending(alloc: Global, numbers: &[u32]) -> Result<Vec<u32>, NoMemory>
    ensures same { IfOk result (λ sorted. IsPermutation numbers.now sorted.items) }
    ensures sorted { IfOk result (λ sorted. IsNonDecreasing sorted.items) }
{
    let mut sorted = numbers.to_vec(alloc)?;
    sorted.sort_unstable();
    Ok(sorted)
}

impl Pool {
    /// An empty pool for values in units of `10^-scale`, with room for 2,100,000,000 members, the rule Fifo and unlimited gaps.
    /// It takes no memory.
    pub fn new(alloc: Global, scale: u8) -> Pool
        requires { scale ≤ 30 }
        ensures state { result.state ≡ empty_state scale }
        ensures storage { result.storage ≡ 0 }
    {
        Pool {
            alloc,
            ranking: Ranking::new(alloc),
            scale,
            best: None,
            capacity: MOST,
            rule: Rule::Fifo,
            gaps: Gaps {
                abs: Gap::Unlimited,
                rel: Gap::Unlimited,
            },
        }
    }

    /// Makes spare room for `n` offers. After an error the pool is as before.
    pub fn reserve(&mut self, n: u32) -> Result<(), NoMemory>
        ensures state { self.new.state ≡ self.old.state }
        ensures room { OnOk result (HasRoomFor self.new n) }
        ensures storage { self.old.storage ≤ self.new.storage }
        ensures succeeds { HasRoomFor self.old n → IsOk result }
    {
        self.make_room(n as usize)
    }

    fn make_room(&mut self, more: usize) -> Result<(), NoMemory>
        ensures state { self.new.state ≡ self.old.state }
        ensures room { OnOk result (HasRoomFor self.new more) }
        ensures storage { self.old.storage ≤ self.new.storage }
        ensures succeeds { HasRoomFor self.old more → IsOk result }
    {
        let spare = (self.capacity as usize).saturating_sub(self.ranking.len());
        self.ranking.reserve(spare.min(more))
    }

    /// Offers a found point, with spare room for it. It takes no memory and can't fail.
    pub fn offer(&mut self, offered: Offered)
        requires room { HasRoomFor self.old 1 }
        requires near { IsNear offered.value }
        ensures state { self.new.state ≡ after_offer self.old.state offered }
        ensures room { (more : ℕ) → HasRoomFor self.old (more + 1) → HasRoomFor self.new more }
        ensures storage { self.new.storage ≡ self.old.storage }
    {
        let best = lesser(self.best, &offered.value);
        let limit = cut(best, &self.gaps, self.scale);
        self.best = Some(best);
        self.ranking.drop_above(&limit);
        take_in(
            &mut self.ranking,
            self.rule,
            self.capacity,
            &limit,
            &offered,
        );
    }

    fn set_capacity(&mut self, capacity: u32)
        ensures state { self.new.state ≡ after_capacity self.old.state capacity }
        ensures storage { self.new.storage ≡ self.old.storage }
    {
        shrink(&mut self.ranking, self.rule, capacity);
        self.capacity = capacity;
    }

    fn set_gaps(&mut self, gaps: Gaps)
        requires abs { IsGap gaps.abs }
        requires rel { IsGap gaps.rel }
        ensures state { self.new.state ≡ after_gaps self.old.state gaps }
        ensures storage { self.new.storage ≡ self.old.storage }
    {
        drop_beyond(&mut self.ranking, &self.best, &gaps, self.scale);
        self.gaps = gaps;
    }

    fn set_rule(&mut self, rule: Rule)
        ensures state { self.new.state ≡ after self.old.state (Ruling rule) }
        ensures storage { self.new.storage ≡ self.old.storage }
    {
        self.rule = rule;
    }

    fn retain(&mut self, serials: &[u32]) -> Result<(), NoMemory>
        ensures ok { OnOk result (self.new.state ≡ after_retain self.old.state serials.now) }
        ensures err { OnErr result (self.new.state ≡ self.old.state) }
        ensures storage { self.new.storage ≡ self.old.storage }
    {
        let sorted = ascending(self.alloc, serials)?;
        self.ranking.retain(&sorted);
        Ok(())
    }

    fn refresh(&mut self, offers: &[Offered])
        requires room { HasRoomFor self.old (length offers.now) }
        requires near { All (λ o. IsNear o.value) offers.now }
        ensures state { self.new.state ≡ after_refresh self.old.state offers.now }
        ensures storage { self.new.storage ≡ self.old.storage }
    {
        for offered in offers {
            self.offer_fresh(offered);
        }
    }

    fn offer_fresh(&mut self, offered: &Offered)
        requires room { HasRoomFor self.old 1 }
        requires near { IsNear offered.now.value }
        ensures state { self.new.state ≡ after_fresh self.old.state offered.now }
        ensures room { (more : ℕ) → HasRoomFor self.old (more + 1) → HasRoomFor self.new more }
        ensures storage { self.new.storage ≡ self.old.storage }
    {
        if !self.ranking.holds(offered.serial) {
            self.offer(*offered);
        }
    }

    /// One step of the pool. After an error the pool is as before.
    pub fn apply(&mut self, event: PoolEvent<'_>) -> Result<(), NoMemory>
        requires { IsEventLawful (event_of event) }

        // The step, and nothing where there is no memory.
        ensures ok { OnOk result (self.new.state ≡ after self.old.state (event_of event.entry)) }
        ensures err { OnErr result (self.new.state ≡ self.old.state) }

        // Room stays room, and an event that needs no memory can't fail.
        ensures storage { self.old.storage ≤ self.new.storage }
        ensures succeeds { NeedsNoMemory self.old (event_of event.entry) → IsOk result }
    {
        match event {
            PoolEvent::Offer {
                serial,
                value,
                passes,
            } => {
                self.make_room(1)?;
                self.offer(Offered {
                    serial,
                    value,
                    passes,
                });
                Ok(())
            }
            PoolEvent::Capacity(capacity) => {
                self.set_capacity(capacity);
                Ok(())
            }
            PoolEvent::Rule(rule) => {
                self.set_rule(rule);
                Ok(())
            }
            PoolEvent::Gap(gaps) => {
                self.set_gaps(gaps);
                Ok(())
            }
            PoolEvent::Retain(serials) => self.retain(serials),
            PoolEvent::Refresh(offers) => {
                self.make_room(offers.len())?;
                self.refresh(offers);
                Ok(())
            }
        }
    }

    /// The members in the pool's order.
    pub fn members(&self) -> Result<Vec<Member>, NoMemory>
        ensures { IfOk result (λ found. found.items ≡ self.now.state.members) }
    {
        self.ranking.members(self.alloc)
    }
}

#[cfg(test)]
mod tests {
    use super::*;
    use std::alloc::Global;
    use std::test::Fail;

    /// An unlimited gap.
    const FREE: Gap = Gap::Unlimited;

    /// What a pool is told, and the serials that it holds then, in order.
    struct Case {
        capacity: u32,
        rule: Rule,
        abs: Gap,
        offers: [(u32, i128, bool); 3],
        held: [u32; 3],
        count: usize,
    }

    /// The offers (1, 5), (2, 3) and the like as the definition has them.
    const CASES: [Case; 8] = [
        Case {
            capacity: 2,
            rule: Rule::Fifo,
            abs: FREE,
            offers: [(1, 5, true), (2, 3, true), (3, 4, true)],
            held: [2, 3, 0],
            count: 2,
        },
        Case {
            capacity: 2,
            rule: Rule::Worst,
            abs: FREE,
            offers: [(1, 5, true), (2, 3, true), (3, 5, true)],
            held: [1, 2, 0],
            count: 2,
        },
        Case {
            capacity: 2,
            rule: Rule::Worst,
            abs: FREE,
            offers: [(1, 5, true), (2, 5, true), (3, 4, true)],
            held: [1, 3, 0],
            count: 2,
        },
        Case {
            capacity: 0,
            rule: Rule::Fifo,
            abs: FREE,
            offers: [(1, 5, true), (2, 3, true), (3, 4, true)],
            held: [0, 0, 0],
            count: 0,
        },
        Case {
            capacity: 3,
            rule: Rule::Fifo,
            abs: Gap::Of { p: 1, s: 0 },
            offers: [(1, 5, true), (2, 3, true), (3, 4, true)],
            held: [2, 3, 0],
            count: 2,
        },
        Case {
            capacity: 3,
            rule: Rule::Fifo,
            abs: Gap::Of { p: 1, s: 0 },
            offers: [(1, 5, true), (2, 3, false), (3, 5, true)],
            held: [0, 0, 0],
            count: 0,
        },
        Case {
            capacity: 1,
            rule: Rule::Worst,
            abs: FREE,
            offers: [(7, -2, true), (8, -3, false), (9, -4, true)],
            held: [9, 0, 0],
            count: 1,
        },
        Case {
            capacity: 3,
            rule: Rule::Worst,
            abs: FREE,
            offers: [(1, 2, true), (2, 2, true), (3, 1, true)],
            held: [1, 2, 3],
            count: 3,
        },
    ];

    fn pool_of(alloc: Global, case: &Case) -> Result<Pool, NoMemory> {
        let mut pool = Pool::new(alloc, 0);
        pool.apply(PoolEvent::Capacity(case.capacity))?;
        pool.apply(PoolEvent::Rule(case.rule))?;
        if case.abs.is_lawful() {
            pool.apply(PoolEvent::Gap(Gaps {
                abs: case.abs,
                rel: FREE,
            }))?;
        }
        Ok(pool)
    }

    fn is_near(value: i128) -> bool
        ensures { IsTrue result → IsNear value }
    {
        value.unsigned_abs() <= 1_000_000_000_000_000_000_000_000_000_000_000_000
    }

    fn holds_exactly(pool: &Pool, serials: &[u32]) -> Result<bool, NoMemory> {
        let members = pool.members()?;
        Ok(
            members.len() == serials.len()
                && members
                    .iter()
                    .zip(serials.iter())
                    .all(|(member, serial)| member.serial == *serial),
        )
    }

    #[test]
    fn offers_are_taken_by_the_rules(rt: HostRuntime) -> Result<(), Fail> {
        for case in &CASES {
            let mut pool = pool_of(rt.alloc(), case)?;
            for (serial, value, passes) in case.offers {
                if is_near(value) {
                    pool.apply(PoolEvent::Offer {
                        serial,
                        value,
                        passes,
                    })?;
                }
            }
            assert!(rt; holds_exactly(&pool, &case.held[..case.count])?);
        }
        Ok(())
    }
}
