//! Two neighbours of a tree that change places.

ghost use Rattle.std.specs.Prelude.{◌≡◌, IfNone, IfSome};
ghost use Rattle.plan_trees.specs.Shapes.{HasShape, exchanged};
ghost use Rattle.plan_trees.specs.declared.shapes.Shape.TheVariants.{IntoLeft, IntoRight, OneOverOne, OutOfLeft, OutOfRight, ToLeft, ToRight};

use crate::plans::{Parts, Plan};

/// How a tree's root and an operator that it reads change places.
#[derive(Clone, Copy, Debug, PartialEq, Eq)]
pub enum Shape {
    /// Both have one input.
    OneOverOne,
    /// The root has one input, the other operator two: the root becomes the other's left input.
    IntoLeft,
    /// The root has two inputs, and an operator on the left one goes above it.
    OutOfLeft,
    /// As `IntoLeft`, but the root becomes the other's right input.
    IntoRight,
    /// As `OutOfLeft`, from the right input.
    OutOfRight,
    /// Both have two inputs: the root's left input goes above it, and the root becomes that operator's right input.
    ToRight,
    /// Both have two inputs: the root's right input goes above it, and the root becomes that operator's left input.
    ToLeft,
}

impl Plan {
    /// The tree with its root and the operator below it exchanged, or none if the tree doesn't have the shape.
    pub fn exchanged(&self, shape: Shape) -> Option<Plan>
        ensures some { IfSome result (λ plan. HasShape shape self.now × (plan ≡ exchanged shape self.now)) }
        ensures none { IfNone result (HasShape shape self.now → ⊥) }
    {
        match shape {
            Shape::OneOverOne => self.one_over_one(),
            Shape::IntoLeft => self.into_left(),
            Shape::OutOfLeft => self.out_of_left(),
            Shape::IntoRight => self.into_right(),
            Shape::OutOfRight => self.out_of_right(),
            Shape::ToRight => self.to_right(),
            Shape::ToLeft => self.to_left(),
        }
    }

    fn one_over_one(&self) -> Option<Plan>
        ensures some { IfSome result (λ plan. HasShape OneOverOne self.now × (plan ≡ exchanged OneOverOne self.now)) }
        ensures none { IfNone result (HasShape OneOverOne self.now → ⊥) }
    {
        let Parts::OverOne { at: upper, input } = self.parts() else {
            return None;
        };
        let Parts::OverOne { at: lower, input } = input.parts() else {
            return None;
        };
        Some(Plan::over(lower, &Plan::over(upper, &input)))
    }

    fn into_left(&self) -> Option<Plan>
        ensures some { IfSome result (λ plan. HasShape IntoLeft self.now × (plan ≡ exchanged IntoLeft self.now)) }
        ensures none { IfNone result (HasShape IntoLeft self.now → ⊥) }
    {
        let Parts::OverOne { at: upper, input } = self.parts() else {
            return None;
        };
        let Parts::OverTwo {
            at: lower,
            left,
            right,
        } = input.parts()
        else {
            return None;
        };
        Some(Plan::pair(lower, &Plan::over(upper, &left), &right))
    }

    fn out_of_left(&self) -> Option<Plan>
        ensures some { IfSome result (λ plan. HasShape OutOfLeft self.now × (plan ≡ exchanged OutOfLeft self.now)) }
        ensures none { IfNone result (HasShape OutOfLeft self.now → ⊥) }
    {
        let Parts::OverTwo {
            at: upper,
            left,
            right,
        } = self.parts()
        else {
            return None;
        };
        let Parts::OverOne { at: lower, input } = left.parts() else {
            return None;
        };
        Some(Plan::over(lower, &Plan::pair(upper, &input, &right)))
    }

    fn into_right(&self) -> Option<Plan>
        ensures some { IfSome result (λ plan. HasShape IntoRight self.now × (plan ≡ exchanged IntoRight self.now)) }
        ensures none { IfNone result (HasShape IntoRight self.now → ⊥) }
    {
        let Parts::OverOne { at: upper, input } = self.parts() else {
            return None;
        };
        let Parts::OverTwo {
            at: lower,
            left,
            right,
        } = input.parts()
        else {
            return None;
        };
        Some(Plan::pair(lower, &left, &Plan::over(upper, &right)))
    }

    fn out_of_right(&self) -> Option<Plan>
        ensures some { IfSome result (λ plan. HasShape OutOfRight self.now × (plan ≡ exchanged OutOfRight self.now)) }
        ensures none { IfNone result (HasShape OutOfRight self.now → ⊥) }
    {
        let Parts::OverTwo {
            at: upper,
            left,
            right,
        } = self.parts()
        else {
            return None;
        };
        let Parts::OverOne { at: lower, input } = right.parts() else {
            return None;
        };
        Some(Plan::over(lower, &Plan::pair(upper, &left, &input)))
    }

    fn to_right(&self) -> Option<Plan>
        ensures some { IfSome result (λ plan. HasShape ToRight self.now × (plan ≡ exchanged ToRight self.now)) }
        ensures none { IfNone result (HasShape ToRight self.now → ⊥) }
    {
        let Parts::OverTwo {
            at: upper,
            left,
            right: last,
        } = self.parts()
        else {
            return None;
        };
        let Parts::OverTwo {
            at: lower,
            left: first,
            right: middle,
        } = left.parts()
        else {
            return None;
        };
        let below = Plan::pair(upper, &middle, &last);
        Some(Plan::pair(lower, &first, &below))
    }

    fn to_left(&self) -> Option<Plan>
        ensures some { IfSome result (λ plan. HasShape ToLeft self.now × (plan ≡ exchanged ToLeft self.now)) }
        ensures none { IfNone result (HasShape ToLeft self.now → ⊥) }
    {
        let Parts::OverTwo {
            at: upper,
            left: first,
            right,
        } = self.parts()
        else {
            return None;
        };
        let Parts::OverTwo {
            at: lower,
            left: middle,
            right: last,
        } = right.parts()
        else {
            return None;
        };
        let below = Plan::pair(upper, &first, &middle);
        Some(Plan::pair(lower, &below, &last))
    }
}
