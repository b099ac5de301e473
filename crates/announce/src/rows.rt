//! Rows of a description: whether they are in range, and the nodes that they tell of.

ghost use Rattle.std.specs.Prelude.{◌≡◌, ℕ, ◌<◌, ◌≤◌, true, length, Some, None, MatchBool, MatchResult, OnOk};
ghost use Rattle.selfid.specs.Marks.{mark_code};
ghost use Rattle.selfid.specs.Nodes.{port_limit};
ghost use Rattle.std.specs.List.{list_all};
ghost use Rattle.announce.specs.Announcing.{port_in_range, refused, row_in_range};
ghost use Rattle.announce.specs.Description.{ports_at};
ghost use Rattle.announce.specs.Reach.{WellFormed};
ghost use Rattle.announce.specs.Rows.{has_codes, is_mark, HaveMarks, TellsNode};

use crate::described::{Row, RowPort};
use crate::stop::DescriptionStop;
use selfid::mark::Mark;
use selfid::node::{Fields, NODE_LIMIT, Node, PORT_LIMIT};
use selfid::speed::Speed;

// Has the port a mark code, and if it is down one of so many rows as its child?
fn port_in_range(port: &RowPort, rows: usize) -> bool
    ensures tells_if_it_is { result ≡ port_in_range rows port.now }
{
    Mark::try_from(port.mark).is_ok() && (!port.has(Mark::Down) || usize::from(port.child) < rows)
}

fn ports_in_range(ports: &[RowPort], rows: usize) -> bool
    ensures tells_if_all_are { result ≡ list_all (port_in_range rows) ports.now }
{
    ports.iter().all(|port| port_in_range(port, rows))
}

// Are the row's fields, mark codes and child rows in range, where there are so many rows?
pub(crate) fn in_range(row: &Row, rows: usize) -> bool
    ensures tells_if_it_is { result ≡ row_in_range rows row.now }
{
    row.gap < 64
        && Speed::try_from(row.speed).is_ok()
        && row.power < 8
        && ports_in_range(&row.ports, rows)
}

// The mark that the port has the code of.
fn mark_of(port: RowPort) -> Mark
    requires has_a_code { is_mark port ≡ true }
    ensures has_its_code { port.mark ≡ mark_code result }
{
    Mark::try_from(port.mark).unwrap()
}

// The marks that the ports tell of. (A loop, and no `map` of the array, which moves the ports out one after another: with that a whole announcement takes twice the time.)
fn marks_of(ports: &[RowPort; PORT_LIMIT]) -> [Mark; PORT_LIMIT]
    requires all_are_in_range { list_all is_mark ports.now ≡ true }
    ensures have_their_codes { HaveMarks ports.now result }
{
    let mut marks = [Mark::Absent; PORT_LIMIT];
    for (i, mark) in marks.iter_mut().enumerate() {
        *mark = mark_of(ports[i]);
    }
    marks
}

// The node that the row tells of. (Inlined, so that whoever asks for a part of it doesn't have the whole put together.)
#[inline(always)]
pub(crate) fn node_of(row: &Row) -> Node
    requires has_codes { has_codes row.now ≡ true }
    ensures is_told_by_the_row { TellsNode row.now result }
{
    let fields = Fields {
        link: row.link,
        contender: row.contender,
        initiator: row.initiator,
        gap: row.gap,
        speed: Speed::try_from(row.speed).unwrap(),
        power: row.power,
    };
    Node {
        fields,
        marks: marks_of(&row.ports),
    }
}

// Are all rows in range?
fn all_in_range(rows: &[Row]) -> bool
    ensures tells_if_all_are { result ≡ list_all (row_in_range (length rows.now)) rows.now }
    ensures each_has_all_ports { MatchBool result ((i : ℕ) → i < length rows.now → length (ports_at rows.now i) ≡ port_limit) (Unit {0}) }
{
    rows.iter().all(|row| in_range(row, rows.len()))
}

// What refuses a description before its tree is looked at: how many rows there are, that a stack row is too short for them, or that something is out of range.
pub(crate) fn check_rows(
    rows: &[Row],
    reach_room: usize,
    walk_room: usize,
) -> Result<(), DescriptionStop>
    ensures is_the_first_that_applies { MatchResult result (λ _. refused rows.now reach_room walk_room ≡ None) (λ s. refused rows.now reach_room walk_room ≡ Some s) }
    ensures passes_well_formed_rows { OnOk result (WellFormed rows.now × (length rows.now ≤ reach_room) × (length rows.now ≤ walk_room)) }
{
    let n = rows.len();
    if n == 0 || n > NODE_LIMIT {
        return Err(DescriptionStop::RowCount);
    }
    if reach_room < n || walk_room < n {
        return Err(DescriptionStop::TooShort);
    }
    if !all_in_range(rows) {
        return Err(DescriptionStop::OutOfRange);
    }
    Ok(())
}
