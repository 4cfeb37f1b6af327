//! Decision trees over the data of a call.
ghost use Rattle.std.specs.Prelude.{◌≡◌, IfOk};
ghost use Rattle.seccomp_compile.specs.Decisions.{decision_of, ends, splits, ending_of, is_end, is_split, past_look};

use call_rules::{Action, Test};
use std::alloc::{AllocError, Global};

/// How a word is compared with a number.
#[derive(Clone, Copy)]
pub enum Comparison {
    /// The word is the number or a greater one.
    AtLeast,
    /// The word is the number.
    Equal,
    /// The word has some bit of the number.
    AnyBit,
}

/// A decision about a call, once one word of its data is looked at.
#[derive(Drop)]
pub enum Tree {
    /// Ends with the action.
    End(Action),
    /// Looks at the word at this offset and this mask from here on.
    Look {
        offset: u32,
        mask: u32,
        next: Box<Tree>,
    },
    /// Continues with one tree if the comparison with the number fails, and with the other if it holds.
    Split {
        comparison: Comparison,
        number: u32,
        miss: Box<Tree>,
        hit: Box<Tree>,
    },
    /// Ends with the action if both tests hold, and continues otherwise.
    Both {
        first: Test,
        second: Test,
        action: Action,
        otherwise: Box<Tree>,
    },
}

impl Tree {
    /// The action of a tree that ends at once.
    pub fn ending(&self) -> Option<Action>
        ensures ending { result ≡ ending_of (decision_of self.now) }
    {
        match self {
            Tree::End(action) => Some(*action),
            _ => None,
        }
    }

    /// Returns the tree without a first look at this offset and mask, which is looked at already.
    pub fn past_look(self, offset: u32, mask: u32) -> Tree
        ensures past_the_look { decision_of result ≡ past_look offset mask (decision_of self) }
    {
        match self {
            Tree::Look {
                offset: other,
                mask: part,
                next,
            } if other == offset && part == mask => Box::into_inner(next),
            tree => tree,
        }
    }

    /// Returns whether the tree ends at once.
    pub fn is_end(&self) -> bool
        ensures ends { result ≡ is_end (decision_of self.now) }
    {
        self.ending().is_some()
    }

    /// Returns whether the tree begins with a comparison.
    pub fn is_split(&self) -> bool
        ensures splits { result ≡ is_split (decision_of self.now) }
    {
        matches!(self, Tree::Split { .. })
    }

    /// Ends with the action if the comparison of the word with the value holds, and continues otherwise.
    pub fn ends_where(
        alloc: Global,
        comparison: Comparison,
        value: u32,
        action: Action,
        otherwise: Tree,
    ) -> Result<Tree, AllocError>
        ensures splits { IfOk result (λ tree. decision_of tree ≡ splits comparison value (decision_of otherwise) (ends action)) }
    {
        Ok(Tree::Split {
            comparison,
            number: value,
            miss: Box::new(alloc, otherwise)?,
            hit: Box::new(alloc, Tree::End(action))?,
        })
    }
}
