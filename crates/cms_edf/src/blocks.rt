// Blocks of a unit, and parts of them.
ghost use Rattle.std.specs.Prelude.{◌≡◌, ◌≤◌, ◌+◌, ◌++◌, ◌∷◌, [], length, IfOk, IfErr, OnOk};
ghost use Rattle.cms_model.specs.declared.fault.OpenFault.TheVariants.{Memory};

use crate::held::HeldTree;
use cms_model::OpenFault;
pub use cms_world::{ReadFault, read_block};
use std::alloc::{AllocError, Global};

/// The block of the label.
pub const LABEL: u32 = 3;

/// Appends elements.
pub fn append<T: Copy>(into: &mut Vec<T>, more: &[T]) -> Result<(), OpenFault>
    ensures ok { OnOk result (into.new.items ≡ into.old.items ++ more.now) }
    ensures fault { IfErr result (λ e. e ≡ Memory) }
{
    match into.extend_from_slice(more) {
        Ok(()) => Ok(()),
        Err(_) => Err(OpenFault::Memory),
    }
}

/// Appends an element.
pub fn push<T: Drop>(into: &mut Vec<T>, item: T) -> Result<(), OpenFault>
    ensures ok { OnOk result (into.new.items ≡ into.old.items ++ (item ∷ [])) }
    ensures fault { IfErr result (λ e. e ≡ Memory) }
{
    match into.push(item) {
        Ok(()) => Ok(()),
        Err(_) => Err(OpenFault::Memory),
    }
}

/// A tree of these blocks, of which the first so many are its data blocks.
pub fn tree_in(alloc: Global, blocks: &[u32], count: u32) -> Result<HeldTree, AllocError>
    requires { count ≤ length blocks.now }
    ensures blocks { IfOk result (λ t. t.leaves ++ t.pointers ≡ blocks.now) }
    ensures count { IfOk result (λ t. length t.leaves ≡ count) }
    ensures pointers { IfOk result (λ t. count + length t.pointers ≡ length blocks.now) }
{
    let (leaves, pointers) = blocks.split_at(count as usize);
    Ok(HeldTree {
        leaves: leaves.to_vec(alloc)?,
        pointers: pointers.to_vec(alloc)?,
    })
}
