//! The groups and services of classes.
ghost use Rattle.std.specs.Prelude.{◌≡◌, [], ◌++◌, ◌<◌, ◌^◌, ℕ, false, true, map, All, IfOk, IfSome, Ok, slice_index_or};
ghost use Rattle.std.specs.List.{cons_option, filter_map};
ghost use Rattle.toml.specs.View.{view};
ghost use Rattle.topology_text.specs.Code.{entries};
ghost use Rattle.topology_text.specs.Names.{is_paired, pair_of, repeats_pair};
ghost use Rattle.topology_text.specs.Topology.{kept_pair};

use crate::names::Entries;
use indexmap::IndexSet;
use map_model::GroupId;
use std::alloc::{AllocError, Global};

/// Whether a pair is among those that were seen; where it is not, it is then.
fn is_repeat(
    seen: &mut IndexSet<(usize, usize)>,
    pair: Option<(usize, usize)>,
) -> Result<bool, AllocError>
    ensures found { IfOk result (λ b. b ≡ is_paired seen.old.keys pair) }
    ensures kept { result ≡ Ok true → seen.new.keys ≡ seen.old.keys }
    ensures noted { result ≡ Ok false → seen.new.keys ≡ seen.old.keys ++ cons_option pair [] }
{
    match pair {
        Some(pair) => {
            let (_, is_new) = seen.insert_full(pair)?;
            Ok(!is_new)
        }
        None => Ok(false),
    }
}

/// Of each class whether an earlier one is of its group and service.
pub fn repeated_pairs(alloc: Global, index: &Entries<'_>) -> Result<Vec<bool>, AllocError>
    ensures { IfOk result (λ v. (i : ℕ) → slice_index_or v.items i false
        ≡ repeats_pair (entries index.now) i) }
{
    let mut seen = IndexSet::new(alloc);
    let mut repeats = Vec::new(alloc);
    for class in index.classes() {
        repeats.push(is_repeat(&mut seen, index.pair_of(class))?)?;
    }
    Ok(repeats)
}

/// The group and the service of each class.
pub fn pairs(alloc: Global, index: &Entries<'_>) -> Result<Vec<(GroupId, u8)>, AllocError>
    requires { All (λ p. IfSome (pair_of (entries index.now) p) (λ q. (q.0 < 2 ^ 32) × (q.1 < 256)))
        (entries index.now).classes }
    ensures { IfOk result (λ v. v.items
        ≡ map kept_pair (filter_map (pair_of (entries index.now)) (entries index.now).classes)) }
{
    let mut pairs = Vec::new(alloc);
    for class in index.classes() {
        if let Some((group, service)) = index.pair_of(class) {
            pairs.push((GroupId(group as u32), service as u8))?;
        }
    }
    Ok(pairs)
}
