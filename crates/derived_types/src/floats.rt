//! A struct and an enum that hold floats. What holds an `OrderedFloat` alone is `Exact`, and what holds another is not.

use std::cmp::OrderedFloat;
use std::collections::BTreeMap;

mod words;

/// Where something is, in metres.
#[derive(Clone, Copy, PartialEq)]
pub struct Place {
    pub x: f32,
    pub y: f32,
    pub height: f64,
}

/// What an instrument reads.
#[derive(Clone, Copy, PartialEq)]
pub enum Reading {
    Missing,
    At(f64),
    Between(f32, f32),
}

/// How often each level was reached, by the level.
#[derive(Drop, PartialEq)]
pub struct Levels {
    pub counts: BTreeMap<OrderedFloat<f64>, u32>,
    pub least: OrderedFloat<f32>,
}
