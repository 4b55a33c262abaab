//! A list of truths with the number of those that are true.

ghost use Rattle.std.specs.Prelude.{◌≡◌, ◌+◌, ◌^◌, ◌<◌, ◌≤◌, cond, [], ◌∷◌, ◌++◌, length, slice_set, MatchOption, OnOk, OnErr};
ghost use Rattle.sp_sums.specs.Flags.{true_count, flag_at, IsFirstTrue, IsNoneTrue};

use sp_model::{Items, NoMemory};
use std::alloc::Global;
use std::marker::Model;

/// A list of truths, which knows how many of them are true. Contracts see the list.
#[derive(Debug, Drop)]
pub struct Flags {
    bits: Items<bool>,
    count: u32,
}

impl Model for Flags {
    ghost use Rattle.std.specs.Prelude.{◌≡◌, ◌<◌, ◌^◌, Bool, List, length};

    ghost Value = { List Bool };

    ghost use Rattle.sp_sums.specs.Flags.{true_count};

    ghost view = { λ f. f.bits };

    ghost invariant = { λ f. (f.count ≡ true_count f.bits) × (length f.bits < 2 ^ 31) };
}

impl Flags {
    /// None.
    pub fn new(alloc: Global) -> Flags
        ensures { result ≡ [] }
    {
        Flags {
            bits: Items::new(alloc),
            count: 0,
        }
    }

    /// How many truths there are.
    pub fn len(&self) -> usize
        ensures { result ≡ length self.now }
    {
        self.bits.len()
    }

    /// How many of them are true.
    pub fn count(&self) -> u32
        ensures { result ≡ true_count self.now }
    {
        self.count
    }

    /// The truth at a place.
    pub fn get(&self, place: usize) -> bool
        requires { place < length self.now }
        ensures { result ≡ flag_at self.now place }
    {
        self.bits.as_slice()[place]
    }

    /// Puts a truth in place of another.
    pub fn put(&mut self, place: usize, truth: bool)
        requires { place < length self.old }
        ensures { self.new ≡ slice_set self.old place truth }
    {
        let was = self.bits.as_slice()[place];
        self.bits.set(place, truth);
        self.count = recounted(self.count, was, truth);
    }

    /// Puts a truth at the end. After an error the list is as before.
    pub fn push(&mut self, truth: bool) -> Result<(), NoMemory>
        requires { length self.old < 2_000_000_000 }
        ensures ok { OnOk result (self.new ≡ self.old ++ truth ∷ []) }
        ensures err { OnErr result (self.new ≡ self.old) }
    {
        self.bits.push(truth)?;
        self.count += u32::from(truth);
        Ok(())
    }

    /// The place of the first that is true, if there is one. It looks only where one is.
    pub fn first(&self) -> Option<u32>
        ensures { MatchOption result (IsNoneTrue self.now) (IsFirstTrue self.now) }
    {
        if self.count == 0 {
            return None;
        }
        first_true(self.bits.as_slice())
    }
}

/// The place of the first that is true.
fn first_true(bits: &[bool]) -> Option<u32>
    requires { length bits.now < 2_147_483_648 }
    ensures { MatchOption result (IsNoneTrue bits.now) (IsFirstTrue bits.now) }
{
    for at in 0..bits.len() {
        if bits[at] {
            return Some(at as u32);
        }
    }
    None
}

fn recounted(count: u32, was: bool, is: bool) -> u32
    requires counted { cond was 1 0 ≤ count }
    requires few { count < 2 ^ 31 }
    ensures { result + cond was 1 0 ≡ count + cond is 1 0 }
{
    count - u32::from(was) + u32::from(is)
}

#[cfg(test)]
mod tests {
    use super::*;
    use std::test::Fail;

    /// A place and a truth that is put there, how many are true then, and the first of them.
    const STEPS: [(usize, bool, u32, Option<u32>); 6] = [
        (1, true, 1, Some(1)),
        (2, true, 2, Some(1)),
        (1, true, 2, Some(1)),
        (0, true, 3, Some(0)),
        (1, false, 2, Some(0)),
        (0, false, 1, Some(2)),
    ];

    /// Whether each step leaves the count and the first as stated.
    fn follows(flags: &mut Flags) -> bool {
        let mut right = true;
        for step in &STEPS {
            if step.0 < flags.len() {
                flags.put(step.0, step.1);
            }
            right &= flags.count() == step.2 && flags.first() == step.3;
        }
        right
    }

    /// Three truths, none of them true.
    fn three(alloc: Global) -> Result<Flags, NoMemory> {
        let mut flags = Flags::new(alloc);
        flags.push(false)?;
        flags.push(false)?;
        flags.push(false)?;
        Ok(flags)
    }

    /// Whether the flags are as stated after each step.
    fn starts_and_follows(alloc: Global) -> Result<bool, NoMemory> {
        let mut flags = three(alloc)?;
        Ok(follows(&mut flags))
    }

    #[test]
    fn flags_follow(rt: HostRuntime) -> Result<(), Fail> {
        assert!(rt; matches!(starts_and_follows(rt.alloc()), Ok(true)));
        Ok(())
    }
}
