//! Packets as words of 32 bits, both ways.

ghost use Rattle.std.specs.Prelude.{◌≡◌, ◌+◌, ◌*◌, ◌/◌, ◌%◌, ◌^◌, ◌<◌, ◌≤◌, ◌==◌, length, IfOk, if◌then◌else◌, Ok, Err};
ghost use Rattle.selfid.specs.declared.packet.PacketFlaw.TheVariants.{ReservedBit};
ghost use Rattle.selfid.specs.Packets.{packed_codes, zero_word, extension_word, inverse_of};
ghost use Rattle.selfid.specs.Reading.{word_of, marks_from, speed_in, fields_in, extension_in, reserved_set, read_zero, read_extension, packet_in, marks_existing_ports};

use crate::mark::Mark;
use crate::node::Fields;
use crate::packet::{Extension, Packet, PacketFlaw, PacketZero};
use crate::speed::Speed;

// The codes of the marks, two bits each, the last mark lowest. (No fold: its closure would not be told that there is room for two bits more.)
fn packed(marks: &[Mark]) -> u32
    requires few_marks { length marks.now ≤ 8 }
    ensures has_two_bits_for_each_mark { result ≡ packed_codes marks.now }
    ensures fits { result < 2 ^ (2 * length marks.now) }
{
    let mut word = 0;
    for mark in marks {
        word = word * 4 + u32::from(u8::from(*mark));
    }
    word
}

#[tactic(auto, using(crate::proofs::Codes::three_packed))]
fn encode_zero(packet: PacketZero) -> u32
    ensures is_the_word { result ≡ zero_word packet.number packet.fields packet.marks packet.more }
{
    let fields = packet.fields;
    let node = (2 << 30) + (u32::from(packet.number) << 24);
    let numbers = (u32::from(fields.gap) << 16)
        + (u32::from(u8::from(fields.speed)) << 14)
        + (u32::from(fields.power) << 8);
    let flags = (u32::from(fields.link) << 22)
        + (u32::from(fields.contender) << 11)
        + (u32::from(fields.initiator) << 1)
        + u32::from(packet.more);
    node + numbers + flags + (packed(&packet.marks) << 2)
}

#[tactic(auto, using(crate::proofs::Codes::eight_packed))]
fn encode_extension(packet: Extension) -> u32
    ensures is_the_word { result ≡ extension_word packet.number packet.turn packet.marks packet.more }
{
    let node = (2 << 30) + (u32::from(packet.number) << 24);
    let turn = (1 << 23) + (u32::from(packet.turn) << 20);
    let marks = packed(&packet.marks) << 2;
    node + turn + marks + u32::from(packet.more)
}

// The `width` bits of a word from bit `low` up, as a number. (At most 8 are left, so that they fit a byte.)
fn field(word: u32, low: u32, width: u32) -> u8
    requires shifts_fit { (low < 32) × (width ≤ 8) }
    ensures is_the_number_in_these_bits { result ≡ word / 2 ^ low % 2 ^ width }
{
    ((word >> low) & ((1 << width) - 1)) as u8
}

// Is this bit of a word set?
fn is_set(word: u32, place: u32) -> bool
    requires within_the_word { place < 32 }
    ensures tells_if_it_is { result ≡ (word / 2 ^ place % 2 == 1) }
{
    field(word, place, 1) == 1
}

// The marks in so many pairs of bits, of which the last are bits 3-2. (No `from_fn`: its closure would need clauses longer than the loop.
// N is at most 15, so that a place fits.)
fn marks_in<const N: usize>(word: u32) -> [Mark; N]
    requires within_the_word { N ≤ 15 }
    ensures are_the_marks_in_these_pairs { result ≡ marks_from N word }
{
    let mut marks = [Mark::Absent; N];
    for (i, mark) in marks.iter_mut().enumerate() {
        *mark = Mark::try_from(field(word, 2 * (N - i) as u32, 2)).unwrap();
    }
    marks
}

// The fields in packet zero. Its speed is read first, since not every code stands for one.
fn fields_in(word: u32, speed: Speed) -> Fields
    requires the_speed_is_read { speed ≡ speed_in (word / 2 ^ 14 % 4) }
    ensures are_the_fields_in_it { result ≡ fields_in word }
{
    Fields {
        link: is_set(word, 22),
        contender: is_set(word, 11),
        initiator: is_set(word, 1),
        gap: field(word, 16, 6),
        speed,
        power: field(word, 8, 3),
    }
}

fn decode_zero(word: u32) -> Result<Packet, PacketFlaw>
    ensures is_the_packet_zero_read { result ≡ read_zero word }
{
    if field(word, 12, 2) != 0 {
        return Err(PacketFlaw::ReservedBit);
    }
    let speed = Speed::try_from(field(word, 14, 2)).map_err(|_| PacketFlaw::ReservedBit)?;
    Ok(Packet::Zero(PacketZero {
        number: field(word, 24, 6),
        fields: fields_in(word, speed),
        marks: marks_in(word),
        more: is_set(word, 0),
    }))
}

// Is a reserved bit of an extension set?
fn has_reserved_bit(word: u32) -> bool
    ensures tells_if_one_is_set { result ≡ reserved_set word }
{
    field(word, 18, 2) != 0
        || is_set(word, 1)
        || (field(word, 20, 3) == 1 && field(word, 2, 6) != 0)
}

fn extension_in(word: u32) -> Extension
    ensures is_the_extension_in_it { result ≡ extension_in word }
{
    Extension {
        number: field(word, 24, 6),
        turn: field(word, 20, 3),
        marks: marks_in(word),
        more: is_set(word, 0),
    }
}

fn decode_extension(word: u32) -> Result<Packet, PacketFlaw>
    ensures is_the_extension_read { result ≡ read_extension word }
{
    if has_reserved_bit(word) {
        Err(PacketFlaw::ReservedBit)
    } else {
        Ok(Packet::Extension(extension_in(word)))
    }
}

// (Named, and not `From` and `TryFrom`: the second promise of each, the way round, would have no name there.)
impl Packet {
    // The packet's word.
    pub fn encode(self) -> u32
        ensures is_the_word { result ≡ word_of self }
        ensures decodes_to_itself_unless_reserved { packet_in result ≡ (if marks_existing_ports self then Ok self else Err ReservedBit) }
    {
        match self {
            Packet::Zero(packet) => encode_zero(packet),
            Packet::Extension(packet) => encode_extension(packet),
        }
    }

    // The packet in a word, or why it is none.
    pub fn decode(word: u32) -> Result<Packet, PacketFlaw>
        ensures is_the_packet_in_it { result ≡ packet_in word }
        ensures encodes_to_the_word { IfOk result (λ p. word_of p ≡ word) }
    {
        if field(word, 30, 2) != 2 {
            Err(PacketFlaw::NotSelfId)
        } else if is_set(word, 23) {
            decode_extension(word)
        } else {
            decode_zero(word)
        }
    }
}

// The bitwise inverse of a quadlet, which follows each packet on the bus.
pub fn inverse(quadlet: u32) -> u32
    ensures is_the_bitwise_inverse { result ≡ inverse_of quadlet }
{
    !quadlet
}
