//! The claims of a state on resources that somebody waits for, so that whoever waits is told of without a look at all others.
//!
//! The claims on one resource stand together in a listing, but a dump may have its rows otherwise: `jammed` goes by what stands together,
//! `contended` by the resource alone.

ghost use Rattle.std.specs.Prelude.{◌≡◌, ◌++◌, None, IfOk, OnOk, List, ℕ, filter, map};
ghost use Rattle.lock_tree.specs.Paths.{same_path};
ghost use Rattle.indexmap.specs.IndexSet.{contains_by};
ghost use Rattle.lock_report.specs.Jam.{jammed_at, jammed_behind};
ghost use Rattle.lock_report.specs.inner.Contended.{is_wanted};

use crate::queues::{begins_queue, claims_on};
use indexmap::IndexSet;
use lock_rules::Claim;
use lock_tree::{Resource, same_path_is_equality};
use std::alloc::{AllocError as NoMemory, Global};

/// The resources that the requests are for. Fails if memory is refused.
fn resources_of(alloc: Global, requests: &[Claim]) -> Result<IndexSet<Resource>, NoMemory>
    ensures { IfOk result (λ set. (r : List ℕ) → contains_by (same_path r) set ≡ is_wanted requests.now r) }
{
    same_path_is_equality();
    let mut resources = IndexSet::new(alloc);
    for request in requests {
        resources.insert(request.resource)?;
    }
    Ok(resources)
}

/// Whether the set has the resource.
fn has(resources: &IndexSet<Resource>, resource: Resource) -> bool
    ensures { result ≡ contains_by (same_path resource) resources.now }
{
    same_path_is_equality();
    resources.contains(&resource)
}

/// The claims on resources that the requests are for. Fails if memory is refused.
pub(crate) fn contended(
    alloc: Global,
    claims: &[Claim],
    requests: &[Claim],
) -> Result<Vec<Claim>, NoMemory>
    ensures { IfOk result (λ kept. kept.items ≡ filter (λ c. is_wanted requests.now c.resource) claims.now) }
{
    let resources = resources_of(alloc, requests)?;
    let mut kept = Vec::new(alloc);
    for claim in claims {
        if has(&resources, claim.resource) {
            kept.push(*claim)?;
        }
    }
    Ok(kept)
}

/// Adds to the list the claims on the resource, if the claims begin with its queue. Fails if memory is refused.
fn add_jammed(
    alloc: Global,
    last: Option<Resource>,
    resource: Resource,
    claims: &[Claim],
    jammed: &mut Vec<Vec<Claim>>,
) -> Result<(), NoMemory>
    ensures { OnOk result (map (λ q. q.items) jammed.new.items ≡ map (λ q. q.items) jammed.old.items ++ jammed_at last resource claims.now) }
{
    if begins_queue(last, resource, claims) {
        let queue = claims_on(claims, resource).to_vec(alloc)?;
        jammed.push(queue)?;
    }
    Ok(())
}

/// The claims on each resource that somebody waits for, resource by resource. `claims` has the order of a listing. Fails if memory is
/// refused.
pub(crate) fn jammed(alloc: Global, claims: &[Claim]) -> Result<Vec<Vec<Claim>>, NoMemory>
    ensures { IfOk result (λ jammed. map (λ q. q.items) jammed.items ≡ jammed_behind None claims.now) }
{
    let mut jammed = Vec::new(alloc);
    let mut last = None;
    for index in 0..claims.len() {
        let resource = claims[index].resource;
        add_jammed(alloc, last, resource, &claims[index..], &mut jammed)?;
        last = Some(resource);
    }
    Ok(jammed)
}
