//! Immutable values, as they pass from one coroutine to another.

ghost use Rattle.std.specs.Prelude.{◌≡◌};
ghost use Rattle.kt_base.specs.Lump.{IsPrefixForm};

use crate::names::Name;
use crate::texts::Text16;
use std::marker::Model;

/// One node of a lump.
#[derive(Debug, Drop)]
pub enum Node {
    Int(i32),
    Long(i64),
    Bool(bool),
    /// One UTF-16 code unit.
    Char(u16),
    Text(Text16),
    Null,
    /// The one value of `Unit`.
    UnitNode,
    /// The number of a suspension cell: a continuation.
    Cell(u32),
    /// A class and the number of its fields, whose lumps follow in order. An entry of an enum has its name and its
    /// ordinal as fields.
    Object(Name, u32),
}

/// A value without references: its nodes in prefix form, that is a node, then the lumps of its fields in order.
#[derive(Debug, Drop)]
pub struct Lump {
    nodes: Vec<Node>,
}

impl Model for Lump {
    ghost use Rattle.std.specs.Prelude.{List};
    ghost use Rattle.kt_base.specs.declared.lumps.Node.{Node};
    ghost use Rattle.kt_base.specs.Lump.{IsPrefixForm};

    ghost Value = { List Node };

    ghost view = { λ l. l.nodes.items };

    ghost invariant = { λ l. IsPrefixForm l.nodes.items };
}

impl Lump {
    /// The lump of these nodes.
    pub fn of(nodes: Vec<Node>) -> Lump
        requires { IsPrefixForm nodes.items }
        ensures { result ≡ nodes.items }
    {
        Lump { nodes }
    }

    /// The nodes in prefix form.
    pub fn nodes(&self) -> &[Node]
        ensures value { result.now ≡ self.now }
        ensures prefix_form { IsPrefixForm self.now }
    {
        self.nodes.as_slice()
    }
}
