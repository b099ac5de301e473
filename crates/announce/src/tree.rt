//! Whether the rows of a description are a tree: each row is reached once from row 0, and has the up mark that its place asks for.

ghost use Rattle.std.specs.Prelude.{◌≡◌, ℕ, ◌+◌, ◌<◌, ◌≤◌, false, length, IfOk, IfErr, MatchBool, OnOk, ◌==◌};
ghost use Rattle.selfid.specs.Cabling.{Cabling, Proper, node_limit};
ghost use Rattle.announce.specs.declared.stop.DescriptionStop.TheVariants.{NoTree};
ghost use Rattle.announce.specs.Description.{Describes, times};
ghost use Rattle.stack.specs.Held.{held, room};
ghost use Rattle.announce.specs.Reach.{children, onto, hit, ChildrenBelow, Waiting, ReachedRows, ups_of, ups_due, Placed, Described};

use crate::described::{Row, RowPort};
use crate::room::push;
use crate::stop::DescriptionStop;
use crate::walk::Walk;
use selfid::mark::Mark;
use selfid::node::{NODE_LIMIT, PORT_LIMIT};
use stack::Stack;

// Puts the rows of the children on the stack, which has room for just as many as there are rows. A row that was reached before is refused: no tree has it.
// (A loop, and no chain: it marks a row and puts it on the stack, and ends at the first that was marked before.)
fn reach_children(
    ports: &[RowPort],
    reached: &mut [bool; NODE_LIMIT],
    stack: &mut Stack<'_, u8>,
) -> Result<(), DescriptionStop>
    requires children_are_rows { ChildrenBelow (room stack.old) ports.now }
    requires few_rows { room stack.old ≤ node_limit }
    requires each_waits_once { Waiting (room stack.old) (held stack.old) reached.old }
    ensures keeps_the_room { room stack.new ≡ room stack.old }
    ensures children_wait { OnOk result (held stack.new ≡ onto (children ports.now) (held stack.old)) }
    ensures children_are_reached { OnOk result ((i : ℕ) → hit reached.new i ≡ hit reached.old i + times i (children ports.now)) }
    ensures refuses_a_row_reached_twice { IfErr result (λ e. (e ≡ NoTree) × ((i : ℕ) × (i < room stack.old) × (2 ≤ hit reached.old i + times i (children ports.now)))) }
{
    for port in ports {
        if !port.has(Mark::Down) {
            continue;
        }
        // (`as` widens here, and is no call that the proof would have to go through.)
        let child = port.child as usize;
        if reached[child] {
            return Err(DescriptionStop::NoTree);
        }
        reached[child] = true;
        push(stack, port.child);
    }
    Ok(())
}

// How many of the ports are marked up.
fn count_ups(ports: &[RowPort; PORT_LIMIT]) -> usize
    ensures counts_them { result ≡ ups_of ports.now }
{
    ports.iter().filter(|port| port.has(Mark::Up)).count()
}

// Has row i, of which these are the ports, the up marks that are due: none in row 0, one in any other?
fn has_its_ups(ports: &[RowPort; PORT_LIMIT], i: usize) -> bool
    ensures tells_if_it_has { result ≡ (ups_of ports.now == ups_due i) }
{
    count_ups(ports) == usize::from(i > 0)
}

// Is each row reached, and has each the up marks that are due?
fn all_placed(rows: &[Row], reached: &[bool; NODE_LIMIT]) -> bool
    requires few_rows { length rows.now ≤ node_limit }
    ensures tells_if_all_are { MatchBool result ((i : ℕ) → i < length rows.now → Placed rows.now reached.now i) ((i : ℕ) × (i < length rows.now) × (Placed rows.now reached.now i → ⊥)) }
{
    let mut told = rows.iter().zip(reached).enumerate();
    told.all(|(i, (row, hit))| *hit && has_its_ups(&row.ports, i))
}

impl Walk<'_, u8> {
    // The rows that are reached from row 0, which waits first, then its children and theirs. A row that is reached twice is refused.
    fn reach_all(&mut self) -> Result<[bool; NODE_LIMIT], DescriptionStop>
        ensures each_is_reached_once { IfOk result (λ reached. ReachedRows self.old.rows.now reached) }
        ensures refuses_what_describes_no_cabling { IfErr result (λ e. (e ≡ NoTree) × ((c : Cabling) → Describes self.old.rows.now c → ⊥)) }
    {
        let rows = self.rows;
        let mut reached = [false; NODE_LIMIT];
        reached[0] = true;
        let mut waiting = Stack::new(&mut self.stack[..rows.len()]);
        push(&mut waiting, 0);
        while let Some(next) = waiting.pop() {
            // (`as` widens here, and is no call that the proof would have to go through.)
            let ports = &rows[next as usize].ports;
            reach_children(ports, &mut reached, &mut waiting)?;
        }
        Ok(reached)
    }

    // Do the rows describe a proper cabling? The rows that wait for their children to be reached are kept on the stack.
    pub(crate) fn check_tree(&mut self) -> Result<(), DescriptionStop>
        ensures passes_what_describes_a_proper_cabling { OnOk result (Described self.old.rows.now) }
        ensures refuses_what_describes_none { IfErr result (λ e. (e ≡ NoTree) × ((c : Cabling) → Describes self.old.rows.now c → Proper c → ⊥)) }
    {
        let rows = self.rows;
        let reached = self.reach_all()?;
        if all_placed(rows, &reached) {
            Ok(())
        } else {
            Err(DescriptionStop::NoTree)
        }
    }
}
