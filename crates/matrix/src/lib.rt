// A matrix record: an exponent k and four ring elements, each entry its element divided by (√2)^k.
#![tactic(auto)]

use ring::Element;

#[derive(Clone, Copy)]
pub struct Row {
    pub left: Element,
    pub right: Element,
}

#[derive(Clone, Copy)]
pub struct Matrix {
    pub exponent: u32,
    pub top: Row,
    pub bottom: Row,
}
