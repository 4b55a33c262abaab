//! The names of a file's variables, with the places of those that were looked up lately.
ghost use Rattle.std.specs.Prelude.{◌≡◌, ◌<◌, ◌^◌, [], length, All, Some, OnOk, OnErr, IfOk, IfSome};
ghost use Rattle.sp_draft.specs.Names.{find_name, place_of, with_name};
ghost use Rattle.sp_lp.specs.InnerGuesses.{key_of, IsByte, IsGuessOf, IsTrueOf};

use sp_draft::Names;
use sp_model::{NoMemory, VarId};
use std::alloc::Global;
use std::marker::Model;

/// The most names of a file. Fewer bytes than this make a file, so the limit is never met.
const MOST_NAMES: usize = 1 << 30;

/// How many guesses there are at first.
const FIRST_GUESSES: usize = 1 << 8;

/// The most guesses, of 16 bytes each.
const MOST_GUESSES: usize = 1 << 18;

/// In how many slots the guess for a name may stand.
const TRIES: usize = 4;

/// The most bytes of a name that is packed into a number.
const LONGEST: usize = 12;

/// The places of a guess are less than this.
const PLACES: u128 = 1 << 31;

/// A number by which the bits of another are mixed.
const MIXER: u64 = 0x9E37_79B9_7F4A_7C15;

/// Distinct names in the order in which they were added, and for some of them where they stand. A guess is the number of a
/// short name, times 2^31, and its place; 0 is that of no name. Contracts see the list of the names.
#[derive(Drop)]
pub struct KnownNames {
    alloc: Global,
    names: Names,
    guesses: Vec<u128>,
}

impl Model for KnownNames {
    ghost use Rattle.std.specs.Prelude.{ℕ, List};

    ghost Value = { List (List ℕ) };

    ghost use Rattle.sp_lp.specs.InnerGuesses.{AreTrueOf};

    ghost view = { λ k. k.names };

    ghost invariant = { λ k. AreTrueOf k.names k.guesses.items };
}

/// The name as a number, if it is short.
#[tactic(auto, using(crate::proofs::GuessLemmas::key_small))]
fn pack(name: &[u8]) -> Option<u128>
    ensures key { IfSome result (λ key. key ≡ key_of name.now) }
    ensures small { IfSome result (λ key. key < 2 ^ 97) }
    ensures bytes { IfSome result (λ _. All IsByte name.now) }
{
    if LONGEST < name.len() {
        return None;
    }
    let mut key: u128 = 1;
    let mut place = name.len();
    while 0 < place {
        place -= 1;
        key = key * 256 + u128::from(name[place]);
    }
    Some(key)
}

/// The slot where the guess for a number is looked for first, among so many. It is a hint: nothing is promised of it.
fn slot_of(key: u128, room: usize) -> usize {
    let low = (key % (1 << 64)) as u64;
    let high = (key >> 64) as u64;
    let mixed = (low ^ high).wrapping_mul(MIXER) >> 44;
    mixed as usize & room.wrapping_sub(1)
}

/// The guess that the name with the number has the place, if the place is small enough.
fn guess_of(key: u128, place: VarId) -> Option<u128>
    requires { key < 2 ^ 97 }
    ensures { IfSome result (IsGuessOf key place) }
{
    let place = place.index() as u128;
    if place < PLACES {
        Some(key * PLACES + place)
    } else {
        None
    }
}

/// The place that the guess gives the name with the number, if it is a guess of that name.
fn place_in(guess: u128, key: u128) -> Option<VarId>
    requires { key < 2 ^ 97 }
    ensures { IfSome result (λ place. IsGuessOf key place guess) }
{
    let least = key * PLACES;
    if least <= guess && guess - least < PLACES {
        Some(VarId::new((guess - least) as u32))
    } else {
        None
    }
}

/// Puts the name among the others.
pub(crate) fn add_name(names: &mut Names, name: &[u8]) -> Result<VarId, NoMemory>
    ensures names { OnOk result (names.new ≡ with_name names.old name.now) }
    ensures place { IfOk result (λ id. id ≡ place_of names.old name.now) }
    ensures err { OnErr result (names.new ≡ names.old) }
{
    if MOST_NAMES < names.len() {
        return Err(NoMemory);
    }
    match names.add(name) {
        Ok(id) => Ok(id),
        Err(_) => Err(NoMemory),
    }
}

impl KnownNames {
    /// No name yet. It takes no memory.
    pub fn new(alloc: Global) -> KnownNames
        ensures { result ≡ [] }
    {
        KnownNames {
            alloc,
            names: Names::new(alloc),
            guesses: Vec::new(alloc),
        }
    }

    /// How many names there are.
    pub fn len(&self) -> usize
        ensures count { result ≡ length self.now }
        ensures few { result < 2 ^ 32 }
    {
        self.names.len()
    }

    /// The variable of the name, `None` where it isn't there.
    pub fn find(&self, name: &[u8]) -> Option<VarId>
        ensures { result ≡ find_name self.now name.now }
    {
        self.names.find(name)
    }

    /// The guess in the slot, 0 where there is no such slot.
    fn guess_in(&self, slot: usize) -> u128
        ensures { IsTrueOf self.now result }
    {
        if slot < self.guesses.len() {
            self.guesses[slot]
        } else {
            0
        }
    }

    /// The variable of the name, if it was looked up lately. `None` says nothing of the name.
    pub fn guessed(&self, name: &[u8]) -> Option<VarId>
        ensures { IfSome result (λ id. find_name self.now name.now ≡ Some id) }
    {
        let key = pack(name)?;
        let slot = slot_of(key, self.guesses.len());
        for step in 0..TRIES {
            if let Some(place) = place_in(self.guess_in(slot.wrapping_add(step)), key) {
                return Some(place);
            }
        }
        None
    }

    /// The slot that a guess of the name with the number is put into: a free one, or else the first. It is a hint.
    fn slot_for(&self, key: u128) -> usize {
        let slot = slot_of(key, self.guesses.len());
        for step in 0..TRIES {
            if self.guess_in(slot.wrapping_add(step)) == 0 {
                return slot.wrapping_add(step);
            }
        }
        slot
    }

    /// Makes room for more guesses, where there are few for so many names. Those that were there are lost.
    fn grow(&mut self)
        ensures { self.new ≡ self.old }
    {
        let room = self.guesses.len();
        if room < MOST_GUESSES && room < 2 * self.names.len() {
            let wanted = if room < FIRST_GUESSES {
                FIRST_GUESSES
            } else {
                2 * room
            };
            match vec![in self.alloc; 0; wanted] {
                Ok(guesses) => self.guesses = guesses,
                Err(_) => {}
            }
        }
    }

    /// Notes where the name stands, if it is short. A guess that stood in its slot is lost.
    fn note(&mut self, name: &[u8], id: VarId)
        requires { find_name self.old name.now ≡ Some id }
        ensures { self.new ≡ self.old }
    {
        if let Some(key) = pack(name) {
            self.grow();
            if let Some(guess) = guess_of(key, id) {
                let slot = self.slot_for(key);
                if slot < self.guesses.len() {
                    self.guesses[slot] = guess;
                }
            }
        }
    }

    /// The variable of the name, `None` where it isn't there. It is noted.
    pub fn look_up(&mut self, name: &[u8]) -> Option<VarId>
        ensures found { result ≡ find_name self.old name.now }
        ensures names { self.new ≡ self.old }
    {
        match self.names.find(name) {
            None => None,
            Some(id) => {
                self.note(name, id);
                Some(id)
            }
        }
    }

    /// The variable of the name, which is put at the end if it isn't there yet. It is noted.
    ///
    /// # Errors
    ///
    /// [`NoMemory`], and the names are as before.
    pub fn add(&mut self, name: &[u8]) -> Result<VarId, NoMemory>
        ensures names { OnOk result (self.new ≡ with_name self.old name.now) }
        ensures place { IfOk result (λ id. id ≡ place_of self.old name.now) }
    {
        match add_name(&mut self.names, name) {
            Ok(id) => {
                self.note(name, id);
                Ok(id)
            }
            Err(error) => Err(error),
        }
    }

    /// The names.
    pub fn into_names(self) -> Names
        ensures { result ≡ self }
    {
        self.names
    }
}
