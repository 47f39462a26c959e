//! A tree whose nodes are in a list.
ghost use Rattle.std.specs.Prelude.{◌≡◌, ◌+◌, ◌<◌, ◌≤◌, ◌^◌, ◌++◌, true, map, length, reverse, IfOk};
ghost use Rattle.own_types.specs.Trees.{counts_up, names_next, is_tree, children_of, depth_first};

use bincode::de::{Decode, Decoder, Sequential, other_error};
use bincode::enc::{Encode, Encoder, encode_validated, tell_validated};
use bincode::error::{DecodeError, EncodeError};
use bincode::laws::{
    Canonical, Exact, Plain, canonical_by_parts, exact_by_fields, exact_by_parts, plain_by_parts,
};
use bincode::{HasParts, Validate, Validated, Wire};
use std::alloc::{AllocError, Global};

type Parts = (u32, Vec<u32>);

/// A node: its value, and the indices of its children in the list.
#[derive(Debug, Drop, PartialEq)]
pub struct Node {
    pub value: u32,
    pub children: Vec<u32>,
}

/// The nodes of a tree, not yet validated.
#[derive(Debug, Drop, PartialEq)]
pub struct Nodes {
    pub list: Vec<Node>,
}

/// A tree: its nodes, the root first, then level by level.
#[derive(Debug, Drop, PartialEq)]
pub struct Tree {
    nodes: Nodes,
    ghost in_turn: { is_tree (map children_of nodes.list.items) ≡ true },
}

impl HasParts<Parts> for Node {
    ghost parts = { λ v. (v.value, v.children) };
}

impl Wire for Node {
    ghost use Rattle.bincode.specs.TypeWords.{words_by};

    ghost words = { words_by ⟦<Parts as Wire>⟧.words ⟦<Node as HasParts<Parts>>⟧.parts };

    fn claim_size() -> usize {
        Parts::claim_size()
    }
}

impl Plain for Node {
    fn tell_plain() {
        plain_by_parts::<Parts, Node>();
    }
}

impl Exact for Node {
    fn tell_exact() {
        exact_by_fields::<Parts, Node, _>();
    }
}

impl Canonical for Node {
    fn tell_canonical() {
        canonical_by_parts::<Parts, Node>();
    }
}

impl Encode for Node {
    fn tell_valid(&self) {
        (&self.value, &self.children).tell_valid();
    }

    fn encode<E: Encoder>(&self, encoder: &mut E) -> Result<(), EncodeError> {
        (&self.value, &self.children).encode(encoder)
    }
}

impl<Context: Drop> Decode<Context> for Node {
    type Run = Sequential;

    fn decode<D: Decoder<Context = Context>>(decoder: &mut D) -> Result<Node, DecodeError> {
        let (value, children): Parts = Decode::decode(decoder)?;
        Ok(Node { value, children })
    }
}

impl HasParts<Vec<Node>> for Nodes {
    ghost parts = { λ v. v.list };
}

impl Wire for Nodes {
    ghost use Rattle.bincode.specs.TypeWords.{words_by};

    ghost words = { words_by ⟦<Vec<Node> as Wire>⟧.words ⟦<Nodes as HasParts<Vec<Node>>>⟧.parts };

    fn claim_size() -> usize {
        <Vec<Node>>::claim_size()
    }
}

impl Plain for Nodes {
    fn tell_plain() {
        plain_by_parts::<Vec<Node>, Nodes>();
    }
}

impl Exact for Nodes {
    fn tell_exact() {
        exact_by_parts::<Vec<Node>, Nodes>();
    }
}

impl Canonical for Nodes {
    fn tell_canonical() {
        canonical_by_parts::<Vec<Node>, Nodes>();
    }
}

impl Encode for Nodes {
    fn tell_valid(&self) {
        self.list.tell_valid();
    }

    fn encode<E: Encoder>(&self, encoder: &mut E) -> Result<(), EncodeError> {
        self.list.encode(encoder)
    }
}

impl<Context: Drop> Decode<Context> for Nodes {
    type Run = Sequential;

    fn decode<D: Decoder<Context = Context>>(decoder: &mut D) -> Result<Nodes, DecodeError> {
        let list: Vec<Node> = Decode::decode(decoder)?;
        Ok(Nodes { list })
    }
}

impl Validate for Tree {
    ghost use Rattle.std.specs.Prelude.{codes};
    ghost use Rattle.std.proofs.Common.{◌∙◌};
    ghost use Rattle.bincode.specs.Fault.{Other};
    ghost use Rattle.own_types.specs.Trees.{means_tree};
    ghost use Rattle.own_types.specs.TreesRead.{tree-read};

    type Of = Nodes;

    ghost of = { λ v. v.nodes };

    ghost passes = { means_tree };

    ghost fault = { Other (codes "no tree") };

    fn of(&self) -> &Nodes {
        &self.nodes
    }

    fn validate(nodes: Nodes) -> Result<Tree, DecodeError> {
        if are_in_turn(&nodes.list) {
            Ok(Tree { nodes })
        } else {
            Err(other_error("no tree"))
        }
    }

    ghost each_passes = { λ v m h. tree-read _ _ _ (λ node n l. l) v.nodes.list.items m h ∙ v.in_turn };

    ghost is_no_end = { λ h. h };
}

impl HasParts<Validated<Tree>> for Tree {
    ghost parts = { λ v. record { 0 = v } };
}

impl Wire for Tree {
    ghost use Rattle.bincode.specs.TypeWords.{words_by};

    ghost words = { words_by ⟦<Validated<Tree> as Wire>⟧.words ⟦<Tree as HasParts<Validated<Tree>>>⟧.parts };

    fn claim_size() -> usize {
        Validated::<Tree>::claim_size()
    }
}

impl Plain for Tree {
    fn tell_plain() {
        plain_by_parts::<Validated<Tree>, Tree>();
    }
}

impl Exact for Tree {
    fn tell_exact() {
        exact_by_parts::<Validated<Tree>, Tree>();
    }
}

impl Canonical for Tree {
    fn tell_canonical() {
        canonical_by_parts::<Validated<Tree>, Tree>();
    }
}

impl Encode for Tree {
    fn tell_valid(&self) {
        tell_validated(self);
    }

    fn encode<E: Encoder>(&self, encoder: &mut E) -> Result<(), EncodeError> {
        encode_validated(self, encoder)
    }
}

impl<Context: Drop> Decode<Context> for Tree {
    type Run = Sequential;

    fn decode<D: Decoder<Context = Context>>(decoder: &mut D) -> Result<Tree, DecodeError> {
        let passed: Validated<Tree> = Decode::decode(decoder)?;
        Ok(passed.0)
    }
}

impl Tree {
    /// The values of all nodes in preorder. Fails if an allocation is refused.
    pub fn depth_first(&self, alloc: Global) -> Result<Vec<u32>, AllocError>
        ensures { IfOk result (λ values. values.items ≡ depth_first self.now.nodes.list.items) }
    {
        let mut values = Vec::new(alloc);
        let mut waiting = vec![in alloc; 0u32]?;
        while let Some(index) = waiting.pop() {
            let node = &self.nodes.list[index as usize];
            values.push(node.value)?;
            push_reversed(&mut waiting, &node.children)?;
        }
        Ok(values)
    }
}

/// Pushes the children, the last one first.
fn push_reversed(waiting: &mut Vec<u32>, children: &[u32]) -> Result<(), AllocError>
    ensures { IfOk result (λ _. waiting.new.items ≡ waiting.old.items ++ reverse children.now) }
{
    for child in children.iter().rev() {
        waiting.push(*child)?;
    }
    Ok(())
}

/// Whether these are the numbers from `next` on.
fn count_from(next: usize, children: &[u32]) -> bool
    requires { next + length children.now < 2 ^ 64 }
    ensures { result ≡ counts_up next children.now }
{
    for (place, child) in children.iter().enumerate() {
        if *child as usize != next + place {
            return false;
        }
    }
    true
}

/// Whether the node at `index` was named before it comes, and its children are the nodes from `next` on.
fn does_name_next(len: usize, index: usize, next: usize, children: &[u32]) -> bool
    requires { next ≤ len }
    ensures { result ≡ names_next len index next children.now }
{
    index < next && children.len() <= len - next && count_from(next, children)
}

/// Whether the lists of children name the nodes after the root in order, each before it comes.
fn are_in_turn(nodes: &[Node]) -> bool
    ensures { result ≡ is_tree (map children_of nodes.now) }
{
    let len = nodes.len();
    let mut next = 1;
    for (index, node) in nodes.iter().enumerate() {
        if !does_name_next(len, index, next, &node.children) {
            return false;
        }
        next += node.children.len();
    }
    next == len
}
