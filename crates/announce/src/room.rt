//! Stacks that are known to have room.

ghost use Rattle.std.specs.Prelude.{◌≡◌, ◌<◌, ◌∷◌, length};
ghost use Rattle.stack.specs.Held.{held, room};

use stack::Stack;

// Puts an element on top of a stack that has room for it. (Each call that changes a stack says that its room stays: a lent row's length is
// known only when the program runs, so that no type can say it.)
pub(crate) fn push<T: Copy>(stack: &mut Stack<'_, T>, element: T)
    requires there_is_room { length (held stack.old) < room stack.old }
    ensures puts_it_on_top { held stack.new ≡ element ∷ held stack.old }
    ensures keeps_the_room { room stack.new ≡ room stack.old }
{
    stack.push(element).unwrap();
}
