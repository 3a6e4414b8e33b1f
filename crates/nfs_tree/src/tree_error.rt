//! Why a document describes no tree, with the number that the fault's line has.

ghost use Rattle.std.specs.Prelude.{◌≡◌};
ghost use Rattle.nfs_tree.specs.Building.{number_of};
ghost use Rattle.nfs_tree.specs.declared.tree_error.TreeError.TheVariants as errors;

use std::alloc::AllocError;
use thiserror::Error;

/// Why a text doesn't describe a tree.
#[derive(Clone, Copy, Debug, PartialEq, Eq, Error)]
pub enum TreeError {
    /// The text isn't TOML, or isn't a document with the keys of a tree.
    #[error("the text is no document of a tree (1)")]
    Syntax = 1,
    /// A path doesn't consist of 1 to 8 valid names.
    #[error("a path is not 1 to 8 names (2)")]
    Name = 2,
    /// A text is too long, or there are too many files or directories.
    #[error("a text, the files or the directories are above their limit (3)")]
    TooMany = 3,
    /// A path belongs to another node already, or a file is on the way to it.
    #[error("a path is taken by another node (4)")]
    Duplicate = 4,
    /// Memory ran out.
    #[error("no memory (5)")]
    Memory = 5,
}

impl TreeError {
    /// The error's number, from 1 to 5.
    pub fn number(&self) -> u32
        ensures { result ≡ number_of self.now }
    {
        *self as u32
    }
}

impl From<AllocError> for TreeError {
    ghost from_gives = { λ _ e. e ≡ errors.Memory };

    fn from(_refused: AllocError) -> TreeError {
        TreeError::Memory
    }
}
