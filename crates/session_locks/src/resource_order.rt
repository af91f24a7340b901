//! Resources compared: whether two are the same, and their order, which is number by number, a prefix before what
//! continues it.

ghost use Rattle.std.specs.Prelude.{◌≡◌, take};
ghost use Rattle.std.specs.List.{All, IsDistinct};
ghost use Rattle.lock_tree.specs.Paths.{IsResource, same_path};
ghost use Rattle.session_locks.specs.Resources.{is_behind, in_order};

use lock_tree::{Resource, order_is_by_numbers, same_path_is_equality};
use std::cmp::Ordering;

/// Whether both are the same resource.
pub fn is_same(a: Resource, b: Resource) -> bool
    ensures { result ≡ same_path a b }
{
    same_path_is_equality();
    a == b
}

/// Called for its contract: each of them is a resource.
fn are_resources(list: &[Resource])
    ensures { All IsResource list.now }
{
    for index in 0..list.len() {
        let _numbers = list[index].numbers();
    }
}

/// Brings different resources into the order of resources.
pub fn sort_resources(list: &mut Vec<Resource>)
    requires { IsDistinct same_path list.old.items }
    ensures { list.new.items ≡ in_order list.old.items }
{
    order_is_by_numbers();
    list.sort_unstable();
    are_resources(list);
}

/// Whether `resource` comes behind `after`. If that is `None`, each resource does.
#[inline]
pub fn is_behind(after: &Option<Resource>, resource: &Resource) -> bool
    ensures { result ≡ is_behind after.now resource.now }
{
    let Some(last) = after else {
        return true;
    };
    order_is_by_numbers();
    let _last = last.numbers();
    let _numbers = resource.numbers();
    matches!(last.cmp(resource), Ordering::Less)
}

/// Brings different resources into the order of resources, and keeps the first `most` of them.
pub fn keep_first(list: &mut Vec<Resource>, most: usize)
    requires { IsDistinct same_path list.old.items }
    ensures { list.new.items ≡ take most (in_order list.old.items) }
{
    sort_resources(list);
    list.truncate(most);
}
