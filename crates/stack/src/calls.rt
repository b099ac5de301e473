//! The calls of a stack.

ghost use Rattle.std.specs.Prelude.{◌≡◌, ◌<◌, [], ◌∷◌, length, MatchOption, MatchResult};
ghost use Rattle.stack.specs.Held.{held, room};

use super::Stack;

// The stack has no room for another element.
#[derive(Clone, Copy, Debug, PartialEq, Eq)]
pub struct Full;

impl<'a, T: Copy> Stack<'a, T> {
    // An empty stack over this row, whose elements mean nothing from here on.
    pub fn new(row: &'a mut [T]) -> Stack<'a, T>
        ensures is_empty { held result ≡ [] }
        ensures has_the_room_of_the_row { room result ≡ length row.old }
    {
        Stack { row, len: 0 }
    }

    // Puts an element on top, or refuses and leaves the stack as it is.
    pub fn push(&mut self, element: T) -> Result<(), Full>
        ensures refuses_only_when_full { MatchResult result (λ _. length (held self.old) < room self.old) (λ _. length (held self.old) ≡ room self.old) }
        ensures puts_it_on_top { MatchResult result (λ _. held self.new ≡ element ∷ held self.old) (λ _. held self.new ≡ held self.old) }
        ensures keeps_the_room { room self.new ≡ room self.old }
    {
        let place = self.len;
        if place >= self.row.len() {
            return Err(Full);
        }
        self.row[place] = element;
        self.len = place + 1;
        Ok(())
    }

    // Takes the top element, if there is one.
    pub fn pop(&mut self) -> Option<T>
        ensures takes_the_top_if_any { MatchOption result ((held self.old ≡ []) × (held self.new ≡ [])) (λ x. held self.old ≡ x ∷ held self.new) }
        ensures keeps_the_room { room self.new ≡ room self.old }
    {
        self.len = self.len.checked_sub(1)?;
        Some(self.row[self.len])
    }
}
