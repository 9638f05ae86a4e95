// What a check of a product is over.
use mersenne_field::{Fe, Pair};
use std::marker::Model;

/// The pairs of a product's factors and of the product.
#[derive(Clone, Copy, Debug, PartialEq, Eq)]
pub struct Triple {
    pub a: Pair,
    pub b: Pair,
    pub c: Pair,
}

impl Model for Triple {
    ghost use Rattle.zk_model.specs.Check as check;

    ghost Value = { check.Triple };

    ghost view = { λ t. record { a = t.a; b = t.b; c = t.c } };

    ghost inverse = { λ t. record { a = t.a; b = t.b; c = t.c } };
}

/// The keys of a product's factors and of the product.
#[derive(Clone, Copy, Debug, PartialEq, Eq)]
pub struct KeyTriple {
    pub a: Fe,
    pub b: Fe,
    pub c: Fe,
}

impl Model for KeyTriple {
    ghost use Rattle.zk_model.specs.Check as check;

    ghost Value = { check.KeyTriple };

    ghost view = { λ t. record { a = t.a; b = t.b; c = t.c } };

    ghost inverse = { λ t. record { a = t.a; b = t.b; c = t.c } };
}
