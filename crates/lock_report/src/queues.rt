//! The resources of a listing that are waited for, each with its claims, which stand together there.

ghost use Rattle.std.specs.Prelude.{◌≡◌, ◌++◌, ◌≤◌, length, IfOk, OnOk, None, find, option_map};
ghost use Rattle.std.specs.List.{prefix_len};
ghost use Rattle.lock_tree.specs.Paths.{same_path};
ghost use Rattle.lock_report.specs.LocksDot.{begins_queue, boxed_at, boxed_behind, claims_on, has_request};
ghost use Rattle.lock_report.specs.Claims.{is_request_kind};

use crate::claims::{is_last, is_request_kind};
use lock_rules::{Claim, ClaimKind};
use lock_tree::{Resource, same_path_is_equality};
use std::alloc::{AllocError as NoMemory, Global};

/// Whether the claim is on the resource.
fn is_on(resource: Resource, claim: &Claim) -> bool
    ensures { result ≡ same_path claim.now.resource resource }
{
    same_path_is_equality();
    claim.resource == resource
}

/// How many claims from the front on are on the resource.
fn count_on(claims: &[Claim], resource: Resource) -> usize
    ensures count { result ≡ prefix_len (λ c. same_path c.resource resource) claims.now }
    ensures within { result ≤ length claims.now }
{
    claims
        .iter()
        .take_while(|claim| is_on(resource, claim))
        .count()
}

/// The claims from the front on that are on the resource.
pub fn claims_on(claims: &[Claim], resource: Resource) -> &[Claim]
    ensures { result.now ≡ claims_on resource claims.now }
{
    let count = count_on(claims, resource);
    &claims[..count]
}

/// The first waiting request among the claims.
fn first_request<'a>(claims: &'a [Claim]) -> Option<&'a Claim>
    ensures { option_map (λ c. c.now) result ≡ find (λ c. is_request_kind c.kind) claims.now }
{
    claims.iter().find(|claim| is_request_kind(claim.kind))
}

/// Whether one of the claims is a waiting request.
fn has_request(claims: &[Claim]) -> bool
    ensures { result ≡ has_request claims.now }
{
    first_request(claims).is_some()
}

/// Whether the claims, the first of which is on the resource, begin with all those on it, and somebody waits for it; `last` is the
/// resource of the claim ahead of them.
pub fn begins_queue(last: Option<Resource>, resource: Resource, claims: &[Claim]) -> bool
    ensures { result ≡ begins_queue last resource claims.now }
{
    !is_last(last, resource) && has_request(claims_on(claims, resource))
}

/// Adds the resource to the list, if the claims begin with its queue. Fails if memory is refused.
fn add_if_waited(
    boxed: &mut Vec<Resource>,
    last: Option<Resource>,
    resource: Resource,
    claims: &[Claim],
) -> Result<(), NoMemory>
    ensures { OnOk result (boxed.new.items ≡ boxed.old.items ++ boxed_at last resource claims.now) }
{
    if begins_queue(last, resource, claims) {
        boxed.push(resource)?;
    }
    Ok(())
}

/// The resources of a listing that are waited for, in their order. Fails if memory is refused.
pub(crate) fn waited(alloc: Global, claims: &[Claim]) -> Result<Vec<Resource>, NoMemory>
    ensures { IfOk result (λ boxed. boxed.items ≡ boxed_behind None claims.now) }
{
    let mut boxed = Vec::new(alloc);
    let mut last = None;
    for index in 0..claims.len() {
        let resource = claims[index].resource;
        add_if_waited(&mut boxed, last, resource, &claims[index..])?;
        last = Some(resource);
    }
    Ok(boxed)
}
