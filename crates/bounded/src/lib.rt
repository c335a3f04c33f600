// Lists of a bounded length, with the memory for all that they can hold from the start on.
#![tactic(auto)]

ghost use Rattle.std.specs.Prelude.{◌≡◌, ◌+◌, ◌<◌, ◌≤◌, [], ◌∷◌, ◌++◌, length, IfOk, MatchResult};

use std::alloc::{AllocError, Global};
use std::marker::Model;

// At most MOST elements, in order. Once it is made it allocates nothing.
#[derive(Drop)]
pub struct Bounded<T, const MOST: usize> {
    items: Vec<T>,
}

// There is no room.
#[derive(Clone, Copy, PartialEq, Eq, Debug)]
pub struct Full;

impl<T, const MOST: usize> Model for Bounded<T, MOST> {
    ghost use Rattle.std.specs.Prelude.{◌≤◌, List, vec_len, vec_capacity};

    ghost Value = { List T };

    ghost view = { λ b. b.items.items };

    ghost invariant = { λ b. (vec_len b.items ≤ MOST) × (MOST ≤ vec_capacity b.items) };
}

impl<T, const MOST: usize> Bounded<T, MOST> {
    // No elements, with the memory for all.
    pub fn new(heap: Global) -> Result<Self, AllocError>
        ensures { IfOk result (λ b. b ≡ []) }
    {
        let items = Vec::with_capacity(heap, MOST)?;
        Ok(Bounded { items })
    }

    // The elements, in order.
    pub fn as_slice(&self) -> &[T]
        ensures value { result.now ≡ self.now }
        ensures few { length result.now ≤ MOST }
    {
        self.items.as_slice()
    }
}

impl<T: Copy, const MOST: usize> Bounded<T, MOST> {
    // Adds an element behind the others, where there is room.
    pub fn push(&mut self, item: T) -> Result<(), Full>
        ensures { MatchResult result (λ _. (length self.old < MOST) × (self.new ≡ self.old ++ item ∷ [])) (λ _. (length self.old ≡ MOST) × (self.new ≡ self.old)) }
    {
        if self.items.len() >= MOST {
            return Err(Full);
        }
        self.items.push_reserved(item);
        Ok(())
    }

    // Adds all elements of a list behind the others, where there is room for all.
    pub fn extend_from_slice(&mut self, more: &[T]) -> Result<(), Full>
        ensures { MatchResult result (λ _. (length self.old + length more.now ≤ MOST) × (self.new ≡ self.old ++ more.now)) (λ _. (MOST < length self.old + length more.now) × (self.new ≡ self.old)) }
    {
        if more.len() > MOST - self.items.len() {
            return Err(Full);
        }
        // The room is there, so this takes no memory.
        self.items.extend_from_slice(more).unwrap();
        Ok(())
    }

    // Takes all elements out.
    pub fn clear(&mut self)
        ensures { self.new ≡ [] }
    {
        self.items.clear();
    }
}

#[cfg(test)]
mod tests {
    use super::*;
    use std::test::Fail;

    // A list of four takes four elements, one by one or together, and no fifth.
    #[test]
    fn four_fit(rt: HostRuntime) -> Result<(), Fail> {
        let mut list = Bounded::<u8, 4>::new(rt.alloc())?;
        assert_eq!(rt; list.extend_from_slice(&[1, 2, 3]), Ok(()));
        assert_eq!(rt; list.extend_from_slice(&[4, 5]), Err(Full));
        assert_eq!(rt; list.push(4), Ok(()));
        assert_eq!(rt; list.push(5), Err(Full));
        assert_eq!(rt; list.as_slice(), [1, 2, 3, 4].as_slice());
        list.clear();
        assert_eq!(rt; list.extend_from_slice(&[9, 8, 7, 6]), Ok(()));
        assert_eq!(rt; list.as_slice(), [9, 8, 7, 6].as_slice());
        Ok(())
    }
}
