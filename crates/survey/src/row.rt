//! What can be asked of a node: its fields, and its ports with their far ends.

use selfid::mark::Mark;
use selfid::node::{Fields, PORT_LIMIT};
use selfid::speed::Speed;

// One end of a cable: a port of a node.
#[derive(Clone, Copy, Debug, Default, PartialEq, Eq)]
pub struct End {
    pub node: u8,
    pub port: u8,
}

// A port with its mark, and the far end of its cable if it has one.
#[derive(Clone, Copy, Debug, Default, PartialEq, Eq)]
pub struct Port {
    pub mark: Mark,
    pub far: Option<End>,
}

// A node with its fields and its ports, by rising number.
#[derive(Clone, Copy, Debug, PartialEq, Eq)]
pub struct Row {
    pub fields: Fields,
    pub ports: [Port; PORT_LIMIT],
}

// A row that no node has filled yet, for the free places of an `ArrayVec`. (Fields can't derive a default, since their numbers are kept in range.)
impl Default for Row {
    ghost use Rattle.std.specs.Prelude.{◌≡◌, false, replicate, None};
    ghost use Rattle.selfid.specs.declared.mark.Mark.TheVariants.{Absent};
    ghost use Rattle.selfid.specs.declared.speed.Speed.TheVariants.{S100};
    ghost use Rattle.selfid.specs.Nodes.{port_limit};
    ghost use Rattle.survey.specs.Nodes.{port_with};

    ghost is_default = { λ row. (row.ports ≡ replicate port_limit (port_with Absent None)) × (row.fields.link ≡ false) × (row.fields.contender ≡ false) × (row.fields.initiator ≡ false) × (row.fields.gap ≡ 0) × (row.fields.speed ≡ S100) × (row.fields.power ≡ 0) };

    fn default() -> Row {
        Row {
            fields: Fields {
                link: false,
                contender: false,
                initiator: false,
                gap: 0,
                speed: Speed::S100,
                power: 0,
            },
            ports: [Port::default(); PORT_LIMIT],
        }
    }
}
