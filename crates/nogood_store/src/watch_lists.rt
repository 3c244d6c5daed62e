//! For each literal the list of the nogoods that watch it, each once. A nogood comes into at most three lists; where memory is wanting for one of
//! them, it leaves those that it came into.

ghost use Rattle.std.specs.Prelude.{◌≡◌, ◌<◌, ◌≤◌, ◌+◌, ◌^◌, ℕ, List, [], ◌∷◌, ◌++◌, length, cond, false, true, Some, None, OnOk, OnErr};
ghost use Rattle.lists.specs.Lists.{◌∈◌};
ghost use Rattle.alpha_outside.specs.declared.literal.Lit.{Lit};
ghost use Rattle.nogood_store.specs.Watched.{is_at, is_watched, row_of, weigh, number_of};

use crate::watching::{Watches, number};
use alpha_outside::{Lit, NogoodId, OutOfMemory};
use std::alloc::Global;
use std::marker::Model;

/// The ids of the nogoods that watch a literal.
#[derive(Drop)]
pub struct WatchList {
    ids: Vec<NogoodId>,
}

impl Model for WatchList {
    ghost use Rattle.std.specs.Prelude.{ℕ, List};

    ghost Value = { List ℕ };

    ghost view = { λ w. w.ids.items };
}

impl WatchList {
    fn new(alloc: Global) -> WatchList
        ensures { result ≡ [] }
    {
        WatchList {
            ids: Vec::new(alloc),
        }
    }

    fn enter(&mut self, id: NogoodId) -> Result<(), OutOfMemory>
        ensures ok { OnOk result (self.new ≡ self.old ++ id ∷ []) }
        ensures err { OnErr result (self.new ≡ self.old) }
    {
        match self.ids.push(id) {
            Ok(()) => Ok(()),
            Err(_) => Err(OutOfMemory),
        }
    }

    // Takes the id out, where it stands, once. It looks from the end.
    fn leave(&mut self, id: NogoodId)
        requires { id ∈ self.old }
        ensures { (f : ℕ → ℕ) → weigh f self.new + f id ≡ weigh f self.old }
    {
        let mut place = self.ids.len();
        while place > 0 {
            place -= 1;
            if self.ids[place] == id {
                let _ = self.ids.swap_remove(place);
                return;
            }
        }
    }

    fn ids(&self) -> &[NogoodId]
        ensures { result.now ≡ self.now }
    {
        self.ids.as_slice()
    }
}

/// The list of each literal, by its number.
#[derive(Drop)]
pub struct WatchLists {
    rows: Vec<WatchList>,
    alloc: Global,
}

impl Model for WatchLists {
    ghost use Rattle.std.specs.Prelude.{ℕ, List};

    ghost Value = { List (List ℕ) };

    ghost view = { λ w. w.rows.items };
}

impl WatchLists {
    /// Takes no memory.
    pub fn new(alloc: Global) -> WatchLists
        ensures { result ≡ [] }
    {
        WatchLists {
            rows: Vec::new(alloc),
            alloc,
        }
    }

    /// The ids of the nogoods that watch the literal.
    pub fn of(&self, l: &Lit) -> &[NogoodId]
        ensures { result.now ≡ row_of self.now l.now }
    {
        match self.rows.get(number(l)) {
            None => &[],
            Some(row) => row.ids(),
        }
    }

    // Makes lists up to this number.
    fn grow(&mut self, number: usize) -> Result<(), OutOfMemory>
        requires { number < 2 ^ 33 }
        ensures same { (l : Lit) → row_of self.new l ≡ row_of self.old l }
        ensures ok { OnOk result (number < length self.new) }
    {
        while self.rows.len() <= number {
            if self.rows.push(WatchList::new(self.alloc)).is_err() {
                return Err(OutOfMemory);
            }
        }
        Ok(())
    }

    // Puts the id into the list of the slot's literal.
    fn enter(&mut self, id: NogoodId, slot: &Option<Lit>) -> Result<(), OutOfMemory>
        ensures ok { OnOk result ((f : ℕ → ℕ) (l : Lit) → weigh f (row_of self.new l) ≡ weigh f (row_of self.old l) + cond (is_at slot.now l) (f id) 0) }
        ensures err { OnErr result ((l : Lit) → row_of self.new l ≡ row_of self.old l) }
    {
        match slot {
            None => Ok(()),
            Some(l) => {
                self.grow(number(l))?;
                self.rows[number(l)].enter(id)
            }
        }
    }

    // Takes the id out of the list of the slot's literal.
    fn leave(&mut self, id: NogoodId, slot: &Option<Lit>)
        requires { (l : Lit) → slot.now ≡ Some l → id ∈ row_of self.old l }
        ensures { (f : ℕ → ℕ) (l : Lit) → weigh f (row_of self.new l) + cond (is_at slot.now l) (f id) 0 ≡ weigh f (row_of self.old l) }
    {
        match slot {
            None => (),
            Some(l) => self.rows[number(l)].leave(id),
        }
    }

    // Puts the id into the lists of both, or into none.
    fn enter_two(
        &mut self,
        id: NogoodId,
        one: &Option<Lit>,
        two: &Option<Lit>,
    ) -> Result<(), OutOfMemory>
        ensures ok { OnOk result ((f : ℕ → ℕ) (l : Lit) → weigh f (row_of self.new l) ≡ weigh f (row_of self.old l) + cond (is_at one.now l) (f id) 0 + cond (is_at two.now l) (f id) 0) }
        ensures err { OnErr result ((f : ℕ → ℕ) (l : Lit) → weigh f (row_of self.new l) ≡ weigh f (row_of self.old l)) }
    {
        self.enter(id, one)?;
        match self.enter(id, two) {
            Ok(()) => Ok(()),
            Err(fault) => {
                self.leave(id, one);
                Err(fault)
            }
        }
    }

    // Puts the id into the lists of all three, or into none.
    fn enter_all(
        &mut self,
        id: NogoodId,
        one: &Option<Lit>,
        two: &Option<Lit>,
        three: &Option<Lit>,
    ) -> Result<(), OutOfMemory>
        ensures ok { OnOk result ((f : ℕ → ℕ) (l : Lit) → weigh f (row_of self.new l) ≡ weigh f (row_of self.old l) + cond (is_at one.now l) (f id) 0 + cond (is_at two.now l) (f id) 0 + cond (is_at three.now l) (f id) 0) }
        ensures err { OnErr result ((f : ℕ → ℕ) (l : Lit) → weigh f (row_of self.new l) ≡ weigh f (row_of self.old l)) }
    {
        self.enter(id, three)?;
        match self.enter_two(id, one, two) {
            Ok(()) => Ok(()),
            Err(fault) => {
                self.leave(id, three);
                Err(fault)
            }
        }
    }

    // Takes the id out of the lists of all three.
    fn leave_all(&mut self, id: NogoodId, one: &Option<Lit>, two: &Option<Lit>, three: &Option<Lit>)
        requires { (f : ℕ → ℕ) (l : Lit) → cond (is_at one.now l) (f id) 0 + cond (is_at two.now l) (f id) 0 + cond (is_at three.now l) (f id) 0 ≤ weigh f (row_of self.old l) }
        ensures { (f : ℕ → ℕ) (l : Lit) → weigh f (row_of self.new l) + (cond (is_at one.now l) (f id) 0 + cond (is_at two.now l) (f id) 0 + cond (is_at three.now l) (f id) 0) ≡ weigh f (row_of self.old l) }
    {
        self.leave(id, one);
        self.leave(id, two);
        self.leave(id, three);
    }

    /// Makes the lists those of a nogood's new watches, or changes none.
    pub fn change(&mut self, id: NogoodId, from: &Watches, to: &Watches) -> Result<(), OutOfMemory>
        requires listed { (f : ℕ → ℕ) (l : Lit) → cond (is_watched from.now l) (f id) 0 ≤ weigh f (row_of self.old l) }
        requires from_differ { (l : Lit) → from.now.first ≡ Some l → ¬ (from.now.second ≡ Some l) }
        requires to_differ { (l : Lit) → to.now.first ≡ Some l → ¬ (to.now.second ≡ Some l) }
        ensures ok { OnOk result ((f : ℕ → ℕ) (l : Lit) → weigh f (row_of self.new l) + cond (is_watched from.now l) (f id) 0 ≡ weigh f (row_of self.old l) + cond (is_watched to.now l) (f id) 0) }
        ensures err { OnErr result ((f : ℕ → ℕ) (l : Lit) → weigh f (row_of self.new l) ≡ weigh f (row_of self.old l)) }
    {
        let first = from.fresh(&to.first);
        let second = from.fresh(&to.second);
        let third = to.two().fresh(&from.fresh(&to.third));
        self.enter_all(id, &first, &second, &third)?;
        self.leave_all(
            id,
            &to.fresh(&from.first),
            &to.fresh(&from.second),
            &from.two().fresh(&to.fresh(&from.third)),
        );
        Ok(())
    }
}
