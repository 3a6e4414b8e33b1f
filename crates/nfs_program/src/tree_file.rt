//! Reads the document of `--tree`, which has to be UTF-8 first.

ghost use Rattle.std.specs.Prelude.{◌≡◌, IsUtf8};
ghost use Rattle.nfs_tree.specs.Building.{Makes, tree_of};

use nfs_tree::{Tree, TreeError};
use std::alloc::Global;
use std::str;

/// The tree that the bytes of a file describe: `Syntax` if they aren't UTF-8, and otherwise what `Tree::from_toml`
/// returns.
pub fn read_tree(alloc: Global, bytes: &[u8]) -> Result<Tree, TreeError>
    ensures text { IsUtf8 bytes.now → Makes result (tree_of bytes.now) }
    ensures other { ¬ IsUtf8 bytes.now → result ≡ Err TreeError.Syntax }
{
    match str::from_utf8(bytes) {
        Ok(text) => Tree::from_toml(alloc, text),
        Err(_) => Err(TreeError::Syntax),
    }
}
