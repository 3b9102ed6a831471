// What a record asks, and the byte that says so.
use crate::body::Body;
use crate::{boxes, cards, charges, circles, groups, hypots, layouts, places, touches};
use std::fmt;

#[derive(Clone, Copy, Debug, PartialEq, Eq)]
pub enum Kind {
    Distance,
    Pair,
    Point,
    Circles,
    Areas,
    Boxes,
    Columns,
    Packing,
    Container,
    Card,
    Layout,
    Charge,
    Hypot,
    Touches,
}

// In the order of their bytes, in which they are printed.
pub const KINDS: [Kind; 14] = [
    Kind::Distance,
    Kind::Pair,
    Kind::Point,
    Kind::Circles,
    Kind::Areas,
    Kind::Boxes,
    Kind::Columns,
    Kind::Packing,
    Kind::Container,
    Kind::Card,
    Kind::Layout,
    Kind::Charge,
    Kind::Hypot,
    Kind::Touches,
];

// A record of no known kind, or one that is cut.
#[derive(Clone, Copy, Debug, PartialEq, Eq)]
pub struct Malformed;

impl TryFrom<u8> for Kind {
    type Error = Malformed;

    // Kind 14, the fields of a card file, is missing: only the C interface answers it.
    fn try_from(byte: u8) -> Result<Kind, Malformed> {
        match byte {
            1 => Ok(Kind::Distance),
            2 => Ok(Kind::Pair),
            3 => Ok(Kind::Point),
            4 => Ok(Kind::Circles),
            5 => Ok(Kind::Areas),
            6 => Ok(Kind::Boxes),
            7 => Ok(Kind::Columns),
            8 => Ok(Kind::Packing),
            9 => Ok(Kind::Container),
            10 => Ok(Kind::Card),
            11 => Ok(Kind::Layout),
            12 => Ok(Kind::Charge),
            13 => Ok(Kind::Hypot),
            15 => Ok(Kind::Touches),
            _ => Err(Malformed),
        }
    }
}

impl fmt::Display for Kind {
    fn fmt<W: fmt::Write>(&self, f: &mut fmt::Formatter<W>) -> fmt::Result {
        f.write_str(match self {
            Kind::Distance => "distance",
            Kind::Pair => "two circles",
            Kind::Point => "circle and point",
            Kind::Circles => "clusters of circles",
            Kind::Areas => "clusters by areas",
            Kind::Boxes => "boxes and lift",
            Kind::Columns => "columns",
            Kind::Packing => "packing",
            Kind::Container => "container",
            Kind::Card => "whole cards",
            Kind::Layout => "whole layouts",
            Kind::Charge => "charges",
            Kind::Hypot => "hypot",
            Kind::Touches => "touches",
        })
    }
}

impl Kind {
    // Whether the answers in a body are what its inputs give.
    pub fn agrees(self, body: Body<'_>) -> bool {
        let answer = match self {
            Kind::Distance => circles::distance_agrees(body),
            Kind::Pair => circles::pair_agrees(body),
            Kind::Point => circles::point_agrees(body),
            Kind::Circles => groups::circles_agree(body),
            Kind::Areas => groups::areas_agree(body),
            Kind::Boxes => boxes::boxes_agree(body),
            Kind::Columns => places::columns_agree(body),
            Kind::Packing => places::pack_agrees(body),
            Kind::Container => places::container_agrees(body),
            Kind::Card => cards::card_agrees(body),
            Kind::Layout => layouts::layout_agrees(body),
            Kind::Charge => charges::charge_agrees(body),
            Kind::Hypot => hypots::hypot_agrees(body),
            Kind::Touches => touches::touches_agree(body),
        };
        answer.is_some()
    }
}
