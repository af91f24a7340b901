//! The places of the boxes in the picture: rows, one below another.

ghost use Rattle.std.specs.Prelude.{◌≡◌, ◌++◌, ◌<◌, ◌≤◌, length, OnOk, string_bytes};
ghost use Rattle.lock_report.specs.LocksDot.{below, beside, hidden_edge, name_of_box, placed, placed_behind, places_of};

use lock_tree::Resource;
use std::alloc::AllocError as NoMemory;
use std::fmt::Write;

/// How many boxes a row has, so that it is about as wide as the graphs of most jams.
pub const BOXES_IN_A_ROW: usize = 4;

/// Writes the name of the node of a resource.
pub(crate) fn put_name(out: &mut String, resource: Resource) -> Result<(), NoMemory>
    ensures { OnOk result (string_bytes out.new ≡ string_bytes out.old ++ name_of_box resource) }
{
    write!(out, "\"resource {resource}\"")
}

/// Writes an edge from box `a` to box `b` that isn't drawn.
fn put_hidden_edge(out: &mut String, a: Resource, b: Resource) -> Result<(), NoMemory>
    ensures { OnOk result (string_bytes out.new ≡ string_bytes out.old ++ hidden_edge a b) }
{
    put_name(out, a)?;
    out.push_str(" -> ")?;
    put_name(out, b)?;
    out.push_str(" [style=invis];")?;
    Ok(())
}

/// Writes what puts box `b` beside box `a`.
fn put_beside(out: &mut String, a: Resource, b: Resource) -> Result<(), NoMemory>
    ensures { OnOk result (string_bytes out.new ≡ string_bytes out.old ++ beside a b) }
{
    out.push_str("  ")?;
    put_hidden_edge(out, a, b)?;
    out.push_str("\n")
}

/// Writes what puts box `b` below box `a`.
fn put_below(out: &mut String, a: Resource, b: Resource) -> Result<(), NoMemory>
    ensures { OnOk result (string_bytes out.new ≡ string_bytes out.old ++ below a b) }
{
    out.push_str("  {rank=same; ")?;
    put_hidden_edge(out, a, b)?;
    out.push_str("}\n")?;
    Ok(())
}

/// Writes what places the box at this index, which isn't the first.
fn put_placed(out: &mut String, boxed: &[Resource], index: usize) -> Result<(), NoMemory>
    requires behind { 0 < index }
    requires there { index < length boxed.now }
    ensures { OnOk result (string_bytes out.new ≡ string_bytes out.old ++ placed boxed.now index) }
{
    if index % BOXES_IN_A_ROW == 0 {
        put_below(out, boxed[index - BOXES_IN_A_ROW], boxed[index])
    } else {
        put_beside(out, boxed[index - 1], boxed[index])
    }
}

/// Writes what places the box at this index, nothing for the first.
fn put_placed_behind(out: &mut String, boxed: &[Resource], index: usize) -> Result<(), NoMemory>
    requires { index < length boxed.now }
    ensures { OnOk result (string_bytes out.new ≡ string_bytes out.old ++ placed_behind boxed.now index) }
{
    if index > 0 {
        put_placed(out, boxed, index)?;
    }
    Ok(())
}

/// Writes what places the boxes of these resources.
pub(crate) fn put_places(out: &mut String, boxed: &[Resource]) -> Result<(), NoMemory>
    ensures { OnOk result (string_bytes out.new ≡ string_bytes out.old ++ places_of boxed.now (length boxed.now)) }
{
    for index in 0..boxed.len() {
        put_placed_behind(out, boxed, index)?;
    }
    Ok(())
}
