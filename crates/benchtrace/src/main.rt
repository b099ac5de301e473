//! Describes a few benches, announces each, and prints what goes out on the bus as a trace:
//! a note with the bench's name, the line `reset`, then a packet and its inverse to a line.

#![tactic(auto)]

ghost use Rattle.benchtrace.specs.Benches.{HubAnnounces, ThreeCamerasAnnounce};

use announce::announce;
use announce::described::Row;
use announce::frame::Frame;
use faulty::{spoiled, with_gap_count_of_64, with_ring};
use selfid::node::NODE_LIMIT;
use selfid::packet::{Extension, Packet, PacketZero, QUADLET_LIMIT};
use std::io;

mod bench;
mod faulty;

// How many elements of the two stack rows and of the row of words are lent.
#[derive(Clone, Copy, Debug, PartialEq, Eq)]
struct Room {
    reach: usize,
    walk: usize,
    words: usize,
}

const AMPLE: Room = Room {
    reach: NODE_LIMIT,
    walk: NODE_LIMIT,
    words: QUADLET_LIMIT,
};

// Prints the quadlets, a packet and its inverse to a line.
fn print_packets(rt: &HostRuntime, quadlets: &[u32]) -> io::Result<()> {
    let (pairs, _) = quadlets.as_chunks::<2>();
    for [packet, inverse] in pairs {
        println!(rt; "{packet:08X} {inverse:08X}")?;
    }
    Ok(())
}

// Announces a bench over these stack rows into these words, and prints what goes out or the number of the stop.
fn print_announcement(
    rt: &HostRuntime,
    rows: &[Row],
    reach: &mut [u8],
    walk: &mut [Frame],
    words: &mut [u32],
) -> io::Result<()> {
    match announce(rows, reach, walk, words) {
        Ok(length) => {
            println!(rt; "reset")?;
            print_packets(rt, &words[..length])
        }
        Err(stop) => println!(rt; "# refused: {}", stop.number()),
    }
}

// Prints a bench under its name, with this room.
fn print_bench(rt: &HostRuntime, name: &str, rows: &[Row], room: Room) -> io::Result<()> {
    println!(rt; "# {name}")?;
    let reach_room = room.reach.min(NODE_LIMIT);
    let walk_room = room.walk.min(NODE_LIMIT);
    let word_room = room.words.min(QUADLET_LIMIT);
    let mut reach = [0; NODE_LIMIT];
    let mut walk = [Frame { row: 0, port: 0 }; NODE_LIMIT];
    let mut words = [0; QUADLET_LIMIT];
    print_announcement(
        rt,
        rows,
        &mut reach[..reach_room],
        &mut walk[..walk_room],
        &mut words[..word_room],
    )
}

// Benches that go out.
fn print_benches(rt: &HostRuntime) -> io::Result<()>
    ensures definitions_give_the_words_of_three_cameras { ThreeCamerasAnnounce }
    ensures definitions_give_the_words_of_the_hub { HubAnnounces }
{
    let heap = rt.alloc();
    let three = bench::three_cameras();
    print_bench(rt, "three cameras", &three, AMPLE)?;
    print_bench(rt, "a lone node", &bench::lone_node(), AMPLE)?;
    print_bench(rt, "a hub with both extensions", &bench::hub(), AMPLE)?;
    print_bench(
        rt,
        "a root with sixteen children",
        &bench::star(heap)?,
        AMPLE,
    )?;
    print_bench(rt, "a chain of 63", &bench::chain(heap, 63)?, AMPLE)?;
    let just_enough = Room {
        reach: 3,
        walk: 3,
        words: 6,
    };
    print_bench(rt, "three cameras in just enough room", &three, just_enough)
}

// The bench of three, spoiled so.
fn print_fault<F: FnOnce(&mut [Row; 3])>(rt: &HostRuntime, name: &str, spoil: F) -> io::Result<()>
    requires can_be_spoiled { F.IsAlwaysCallable spoil }
{
    print_bench(rt, name, &spoiled(spoil), AMPLE)
}

// Descriptions whose rows are refused: fields and codes out of range.
fn print_faulty_fields(rt: &HostRuntime) -> io::Result<()> {
    print_bench(rt, "a gap count of 64", &with_gap_count_of_64(), AMPLE)?;
    print_fault(rt, "a speed code of 3", |rows| rows[1].speed = 3)?;
    print_fault(rt, "a power class of 8", |rows| rows[1].power = 8)?;
    print_fault(rt, "a mark code of 4", |rows| rows[2].ports[15].mark = 4)?;
    print_fault(rt, "a child's row behind the last", |rows| {
        rows[0].ports[0].child = 3;
    })
}

// The same: rows that are no tree.
fn print_faulty_trees(rt: &HostRuntime) -> io::Result<()> {
    print_fault(rt, "a row reached twice", |rows| rows[0].ports[2].child = 1)?;
    print_fault(rt, "a row never reached", |rows| rows[0].ports[2].mark = 1)?;
    print_fault(
        rt,
        "a root with an up mark",
        |rows| rows[0].ports[1].mark = 2,
    )?;
    print_fault(rt, "a node without an up mark", |rows| {
        rows[1].ports[0].mark = 1;
    })?;
    print_fault(rt, "a node with two up marks", |rows| {
        rows[2].ports[15].mark = 2;
    })?;
    print_bench(rt, "a ring", &with_ring(), AMPLE)
}

// Descriptions that are too long, or for which there is too little room; where two tests would refuse, the first in order does.
fn print_rooms(rt: &HostRuntime) -> io::Result<()> {
    let three = bench::three_cameras();
    let short_reach = Room { reach: 2, ..AMPLE };
    let short_walk = Room { walk: 2, ..AMPLE };
    let short_words = Room { words: 5, ..AMPLE };
    let long = bench::chain(rt.alloc(), 64)?;
    print_bench(rt, "no row", &[], AMPLE)?;
    print_bench(rt, "a chain of 64", &long, AMPLE)?;
    print_bench(rt, "a chain of 64 and too few words", &long, short_words)?;
    print_bench(rt, "the first stack row too short", &three, short_reach)?;
    print_bench(rt, "the second stack row too short", &three, short_walk)?;
    print_bench(
        rt,
        "a stack row too short and a gap count of 64",
        &with_gap_count_of_64(),
        short_walk,
    )?;
    print_bench(rt, "too few words", &three, short_words)?;
    print_bench(rt, "too few words and a ring", &with_ring(), short_words)
}

// What a word is as a packet, with the word that the packet is sent as; or the number of the stop.
fn print_word(rt: &HostRuntime, word: u32) -> io::Result<()> {
    match Packet::decode(word) {
        Ok(packet) => {
            let sent = packet.encode();
            match packet {
                Packet::Zero(PacketZero { number, .. }) => {
                    println!(rt; "# {word:08X} is packet zero of node {number}, sent as {sent:08X}")
                }
                Packet::Extension(Extension { number, turn, .. }) => println!(rt;
                    "# {word:08X} is extension {turn} of node {number}, sent as {sent:08X}"
                ),
            }
        }
        Err(flaw) => println!(rt; "# {word:08X} is no packet: {}", flaw.number()),
    }
}

// Words that are packets and words that are not: a wrong top bit, each reserved bit, a speed code of 3.
const WORDS: [u32; 16] = [
    0x827F_88DE,
    0x8183_0001,
    0x8190_0200,
    0xBFF3_FFFD,
    0x80A0_0004,
    0x0000_0000,
    0x407F_88DE,
    0xC07F_88DE,
    0x807F_C856,
    0x807F_9856,
    0x807F_A856,
    0x8088_0000,
    0x8084_0000,
    0x8080_0002,
    0x8090_0004,
    0x8090_0080,
];

fn print_words(rt: &HostRuntime) -> io::Result<()> {
    println!(rt; "# words read as packets")?;
    for word in WORDS {
        print_word(rt, word)?;
    }
    Ok(())
}

fn main(rt: HostRuntime) -> io::Result<()> {
    print_benches(&rt)?;
    print_faulty_fields(&rt)?;
    print_faulty_trees(&rt)?;
    print_rooms(&rt)?;
    print_words(&rt)
}
