//! Benches that can be cabled.

ghost use Rattle.std.specs.Prelude.{◌≡◌, true};
ghost use Rattle.selfid.specs.declared.mark.Mark.TheVariants.{Down};
ghost use Rattle.selfid.specs.Marks.{mark_code};
ghost use Rattle.selfid.specs.Speeds.{speed_code};

use announce::described::{Row, RowPort};
use selfid::mark::Mark;
use selfid::node::PORT_LIMIT;
use selfid::speed::Speed;
use std::alloc::{AllocError, Global};

// A port without a child.
fn port(mark: Mark) -> RowPort
    ensures has_the_mark { result ≡ record { mark = mark_code mark; child = 0 } }
{
    RowPort {
        mark: u8::from(mark),
        child: 0,
    }
}

// A port with a cable down to this row's node.
fn down(child: u8) -> RowPort
    ensures leads_to_the_row { result ≡ record { mark = mark_code Down; child = child } }
{
    RowPort {
        child,
        ..port(Mark::Down)
    }
}

// A node with an active link and gap count 63, all its ports absent.
fn node(speed: Speed, power: u8) -> Row
    ensures has_the_speed_and_the_power_class { (result.speed ≡ speed_code speed) × (result.power ≡ power) }
    ensures has_gap_count_63 { result.gap ≡ 63 }
{
    Row {
        link: true,
        contender: false,
        initiator: false,
        gap: 63,
        speed: u8::from(speed),
        power,
        ports: [port(Mark::Absent); PORT_LIMIT],
    }
}

// The node as a contender that initiated the bus reset.
fn manager(row: Row) -> Row
    ensures sets_the_two_flags { (result.contender ≡ true) × (result.initiator ≡ true) }
    ensures keeps_the_ports { result.ports ≡ row.ports }
{
    Row {
        contender: true,
        initiator: true,
        ..row
    }
}

// The node with these ports from port `first` on.
fn with(mut row: Row, first: usize, ports: &[RowPort]) -> Row {
    for (place, port) in row.ports.iter_mut().skip(first).zip(ports) {
        *place = *port;
    }
    row
}

// Three cameras: the root has one on port 0 and one on port 2, and its port 1 is open.
pub(crate) fn three_cameras() -> [Row; 3] {
    let root = with(
        manager(node(Speed::S400, 0)),
        0,
        &[down(1), port(Mark::Open), down(2)],
    );
    let first = with(node(Speed::S200, 4), 0, &[port(Mark::Up)]);
    let second = with(node(Speed::S400, 4), 0, &[port(Mark::Open), port(Mark::Up)]);
    [root, first, second]
}

// A node with three open ports and nothing else on the bus.
pub(crate) fn lone_node() -> [Row; 1] {
    let open = port(Mark::Open);
    [with(manager(node(Speed::S400, 0)), 0, &[open, open, open])]
}

// A hub whose first three ports are absent, so that its cables are all told in extensions.
// Below it an up mark stands in extension 1, in extension 0 and in packet zero.
pub(crate) fn hub() -> [Row; 5] {
    let up = port(Mark::Up);
    let open = port(Mark::Open);
    let root = with(
        with(manager(node(Speed::S400, 3)), 4, &[down(1)]),
        11,
        &[open, down(2)],
    );
    let root = with(root, 15, &[down(3)]);
    let far = with(with(node(Speed::S100, 7), 3, &[down(4)]), 15, &[up]);
    let near = with(node(Speed::S400, 1), 0, &[open, up]);
    let middle = with(with(node(Speed::S200, 2), 5, &[up]), 8, &[open]);
    let last = with(node(Speed::S100, 5), 2, &[up]);
    [root, far, near, middle, last]
}

// Row `place` of a chain: its fields tell the place.
fn link(place: u8, length: u8) -> Row {
    let first = if place == 0 { Mark::Open } else { Mark::Up };
    let mut row = with(node(Speed::S100, place % 8), 0, &[port(first)]);
    row.gap = place % 64;
    row.speed = place % 3;
    if place < length.saturating_sub(1) {
        with(row, 1, &[down(place + 1)])
    } else {
        row
    }
}

// A chain of so many nodes, row 0 at its end.
pub(crate) fn chain(heap: Global, length: u8) -> Result<Vec<Row>, AllocError> {
    (0..length).map(|place| link(place, length)).collect(heap)
}

// A root with a child on each of its sixteen ports, the last row on port 0. Row i has its up mark on port i - 1.
pub(crate) fn star(heap: Global) -> Result<Vec<Row>, AllocError> {
    let mut root = manager(node(Speed::S400, 0));
    for (child, port) in (1..17).zip(root.ports.iter_mut().rev()) {
        *port = down(child);
    }
    let mut rows = vec![in heap; root]?;
    let up = port(Mark::Up);
    rows.extend((0..PORT_LIMIT).map(|first| with(node(Speed::S200, 4), first, &[up])))?;
    Ok(rows)
}
