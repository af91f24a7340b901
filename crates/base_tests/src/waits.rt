//! The waits-for rows of `waits_for`: reachability, cycles, and the youngest session on a cycle. Also its marks.

ghost use Rattle.std.specs.Prelude.{◌≡◌, ◌<◌, ◌≤◌, length};

use std::alloc::Global;
use std::test::Fail;
use waits_for::{MAX_SESSIONS, Marks, NoMemory, Rows};

/// Returns a different age for each position, rising, so that the last position is the youngest.
fn rising_ages() -> [u64; 1024]
    ensures { length result ≡ 1024 }
{
    let mut ages = [0; 1024];
    for (position, age) in ages.iter_mut().enumerate() {
        *age = position as u64 + 1;
    }
    ages
}

/// What is done with rows, or expected of them.
#[derive(Clone, Copy)]
enum Step {
    /// An edge is added.
    Set,
    /// An edge is removed.
    Unset,
    /// All edges of the first session are removed.
    ClearRow,
    /// The first session reaches the second.
    Reaches,
    /// The first session doesn't reach the second.
    IsApart,
    /// The second session is the youngest on a cycle of the first.
    Youngest,
    /// The same, if all sessions have one age.
    FirstOfAge,
    /// The first session is on no cycle.
    NoCircle,
}

/// Takes a step with the rows of 1,024 sessions. Whether they are as it expects.
fn takes_step(rows: &mut Rows, ages: &[u64], (step, t, u): (Step, usize, usize)) -> bool {
    let sessions = usize::from(rows.sessions());
    if t >= sessions || u >= sessions || sessions != 1024 || ages.len() != 1024 {
        return false;
    }
    match step {
        Step::Set => {
            rows.set(t, u);
            true
        }
        Step::Unset => {
            rows.unset(t, u);
            true
        }
        Step::ClearRow => {
            rows.clear_row(t);
            true
        }
        Step::Reaches => rows.reaches(t, u),
        Step::IsApart => !rows.reaches(t, u),
        Step::Youngest => rows.on_circle(t) & (rows.youngest_on_circle(t, ages) == Some(u)),
        Step::FirstOfAge => rows.youngest_on_circle(t, &[7; 1024]) == Some(u),
        Step::NoCircle => !rows.on_circle(t) & rows.youngest_on_circle(t, ages).is_none(),
    }
}

/// A cycle of three sessions, and an edge from its youngest session to one that doesn't wait.
const CYCLE_OF_THREE: [(Step, usize, usize); 25] = [
    (Step::Set, 0, 64),
    (Step::Set, 64, 1022),
    (Step::Set, 1022, 0),
    (Step::Set, 1022, 1023),
    (Step::Reaches, 0, 0),
    (Step::Reaches, 0, 1023),
    (Step::IsApart, 1023, 0),
    (Step::Youngest, 0, 1022),
    (Step::FirstOfAge, 0, 0),
    (Step::NoCircle, 1023, 0),
    // of two edges of one session one is removed; one that isn't there can be removed, which changes nothing
    (Step::Unset, 1022, 0),
    (Step::Unset, 1022, 0),
    (Step::Unset, 0, 1022),
    (Step::Reaches, 0, 1022),
    (Step::Reaches, 64, 1023),
    (Step::Reaches, 1022, 1023),
    (Step::IsApart, 1022, 0),
    (Step::NoCircle, 0, 0),
    (Step::Unset, 1022, 1023),
    (Step::IsApart, 1022, 1023),
    (Step::Reaches, 0, 1022),
    (Step::Set, 1022, 0),
    (Step::Youngest, 64, 1022),
    (Step::ClearRow, 64, 0),
    (Step::NoCircle, 0, 0),
];

/// Cycles across the words of a row are found, and are gone when one edge or one row is cleared.
#[test]
fn a_cycle_of_three_among_1024_sessions(rt: HostRuntime) -> Result<(), Fail> {
    let mut rows = Rows::new(rt.alloc(), 1024)?;
    let ages = rising_ages();
    for (k, step) in CYCLE_OF_THREE.into_iter().enumerate() {
        assert!(rt; takes_step(&mut rows, &ages, step), "step {k}");
    }
    Ok(())
}

/// Builds a chain of all sessions, as many as there are ages, closes it to a cycle, and opens the cycle again. Whether the cycle is
/// there while it is closed.
fn is_chain_closed(rows: &mut Rows, ages: &[u64], last: usize) -> bool {
    for t in 0..last {
        if t + 1 >= usize::from(rows.sessions()) {
            return false;
        }
        rows.set(t, t + 1);
    }
    let sessions = usize::from(rows.sessions());
    if last >= sessions || ages.len() != sessions {
        return false;
    }
    let mut right = !rows.on_circle(0) & !rows.reaches(last, 0);
    right &= rows.reaches(0, last) == (last > 0);
    rows.set(last, 0);
    right &= rows.reaches(last, 0) & rows.on_circle(last);
    right &= rows.youngest_on_circle(0, ages) == Some(last);
    rows.clear_row(last);
    right & rows.youngest_on_circle(0, ages).is_none()
}

/// Cycles of all sessions, around the length of a word and at the greatest number of sessions; an edge from a session to itself
/// is a cycle.
#[test]
fn cycles_of_1_to_1024_sessions(rt: HostRuntime) -> Result<(), Fail> {
    let ages = rising_ages();
    for members in [1u16, 2, 64, 65, 1024] {
        assert!(rt; members >= 1 && members <= 1024);
        let mut rows = Rows::new(rt.alloc(), members)?;
        let members = usize::from(members);
        let right = is_chain_closed(&mut rows, &ages[..members], members - 1);
        assert!(rt; right, "{members}");
    }
    Ok(())
}

/// Returns which positions are reachable from `t` by one edge or more. Each round goes one edge further.
fn reachable_from(edges: &[[bool; 8]; 8], t: usize) -> [bool; 8] {
    let mut reached = [false; 8];
    for _round in 0..8 {
        for v in 0..8 {
            if v == t || reached[v] {
                for u in 0..8 {
                    reached[u] |= edges[v][u];
                }
            }
        }
    }
    reached
}

/// Whether the rows of eight sessions reach what is reachable by the edges. Adds the number of sessions on a cycle.
fn reach_the_same(rows: &mut Rows, edges: &[[bool; 8]; 8], circles: &mut u64) -> bool {
    let mut right = true;
    for t in 0..8 {
        let reached = reachable_from(edges, t);
        for u in 0..8 {
            right &= rows.sessions() == 8 && rows.reaches(t, u) == reached[u];
        }
        *circles = circles.wrapping_add(reached[t] as u64);
    }
    right
}

/// Adds or removes an edge of eight sessions. One of five changes removes all edges of a session, and one more of them one edge.
fn change(rows: &mut Rows, edges: &mut [[bool; 8]; 8], seed: u64) {
    let t = (seed >> 33) as usize % 8;
    let u = (seed >> 40) as usize % 8;
    if t >= 8 || u >= 8 || rows.sessions() != 8 {
        return;
    }
    match (seed >> 48) % 5 {
        0 => {
            rows.clear_row(t);
            edges[t] = [false; 8];
        }
        1 => {
            rows.unset(t, u);
            edges[t][u] = false;
        }
        _ => {
            rows.set(t, u);
            edges[t][u] = true;
        }
    }
}

/// Makes 3,000 random changes to the edges of eight sessions. Whether the rows reach the same after each, and enough cycles were
/// among them.
fn reach_the_same_at_random(rows: &mut Rows) -> bool {
    let mut edges = [[false; 8]; 8];
    let mut circles = 0u64;
    let mut seed = 2026u64;
    let mut right = true;
    for _turn in 0..3000 {
        seed = seed
            .wrapping_mul(6364136223846793005)
            .wrapping_add(1442695040888963407);
        change(rows, &mut edges, seed);
        right &= reach_the_same(rows, &edges, &mut circles);
    }
    right && circles > 100
}

/// After each of 3,000 random edges the rows reach what a plain walk reaches.
#[test]
fn reachability_matches_a_plain_walk(rt: HostRuntime) -> Result<(), Fail> {
    let mut rows = Rows::new(rt.alloc(), 8)?;
    assert!(rt; reach_the_same_at_random(&mut rows));
    Ok(())
}

/// A session is new among the marks until it is marked, and again once all marks are removed.
#[test]
fn a_session_is_marked_once(rt: HostRuntime) -> Result<(), Fail> {
    let mut marks = Marks::new(rt.alloc(), 130)?;
    assert!(rt; marks.mark(129));
    assert!(rt; !marks.mark(129));
    assert!(rt; marks.mark(64));
    marks.clear();
    assert!(rt; marks.mark(129));
    Ok(())
}

/// Makes rows of 1,024 sessions, a second time if memory is refused. Returns whether it was.
fn made_rows(alloc: Global) -> Result<(Rows, bool), NoMemory> {
    match Rows::new(alloc, MAX_SESSIONS) {
        Ok(rows) => Ok((rows, false)),
        Err(NoMemory) => Ok((Rows::new(alloc, MAX_SESSIONS)?, true)),
    }
}

/// Each allocation of new rows may be refused, and the next try makes the rows. Prints a line if one was, for the check that
/// refuses each allocation in turn. Nothing else allocates here.
#[test]
fn refused_rows_are_made_at_the_second_try(rt: HostRuntime) -> Result<(), Fail> {
    let (rows, was_refused) = made_rows(rt.alloc())?;
    assert!(rt; rows.sessions() == 1024);
    if was_refused {
        println!(&rt; "refused")?;
    }
    Ok(())
}
