//! The calls of Data.
ghost use Rattle.std.specs.Prelude.{◌≡◌, IfOk};
ghost use Rattle.turk_base.specs.Node.{data_of, HasDistinctKeys};

use crate::{Data, NoMemory, Node, Units};
use std::alloc::Global;

impl Data {
    /// The data of one node, whose fields have distinct keys.
    pub fn make(node: Node) -> Data
        requires { HasDistinctKeys node }
        ensures { result ≡ data_of node }
    {
        Data { node }
    }

    /// The node.
    pub fn node(&self) -> &Node
        ensures data { data_of result.now ≡ self.now }
        ensures keys { HasDistinctKeys result.now }
    {
        &self.node
    }

    /// The node, without taking memory.
    pub fn into_node(self) -> Node
        ensures data { data_of result ≡ self }
        ensures keys { HasDistinctKeys result }
    {
        self.node
    }

    /// Equal data. It goes into the tree as deep as it is nested.
    #[cycle(copying)]
    pub fn copy(&self, alloc: Global) -> Result<Data, NoMemory>
        ensures { IfOk result (λ copy. copy ≡ self.now) }
    {
        match &self.node {
            Node::Undefined => Ok(Data::make(Node::Undefined)),
            Node::Null => Ok(Data::make(Node::Null)),
            Node::Truth(truth) => Ok(Data::make(Node::Truth(*truth))),
            Node::Number(number) => Ok(Data::make(Node::Number(*number))),
            Node::Text(text) => Ok(Data::make(Node::Text(text.copy(alloc)?))),
            Node::List(items) => Ok(Data::make(Node::List(copy_items(alloc, items)?))),
            Node::Fields(fields) => Ok(Data::make(Node::Fields(copy_fields(alloc, fields)?))),
        }
    }
}

#[cycle(copying)]
fn copy_items(alloc: Global, items: &[Data]) -> Result<Vec<Data>, NoMemory>
    ensures { IfOk result (λ copies. copies.items ≡ items.now) }
{
    let mut copies = Vec::new(alloc);
    for item in items {
        let copy = item.copy(alloc)?;
        if copies.push(copy).is_err() {
            return Err(NoMemory);
        }
    }
    Ok(copies)
}

#[cycle(copying)]
fn copy_fields(alloc: Global, fields: &[(Units, Data)]) -> Result<Vec<(Units, Data)>, NoMemory>
    ensures { IfOk result (λ copies. copies.items ≡ fields.now) }
{
    let mut copies = Vec::new(alloc);
    for field in fields {
        let key = field.0.copy(alloc)?;
        let value = field.1.copy(alloc)?;
        if copies.push((key, value)).is_err() {
            return Err(NoMemory);
        }
    }
    Ok(copies)
}
