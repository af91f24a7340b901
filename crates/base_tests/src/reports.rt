//! The calls of `lock_report`, once with success, and where memory is refused. Texts of whole lock tables are in
//! `checks/program-cases`.

use lock_modes::Mode;
use lock_report::{
    FirstWait, NoMemory, OpenTransaction, Root, WaitFor, WaitLine, locks_dot, state_rows,
    state_text, waits_dot,
};
use lock_rules::{Claim, ClaimKind, Transaction};
use lock_tree::Resource;
use std::alloc::Global;
use std::test::Fail;

/// An open transaction.
const OPEN: OpenTransaction = OpenTransaction {
    session: 12,
    transaction: Transaction {
        number: 1,
        doomed: false,
    },
};

/// A wait of its session.
const WAIT: WaitFor = WaitFor {
    session: 12,
    other: 1,
};

/// The session as a root that blocks others.
const ROOT: Root = Root {
    begun: OPEN,
    blocks: 3,
    grants: 2,
};

/// The wait for its first blocker.
const FIRST: WaitLine = WaitLine {
    wait: WAIT,
    first: true,
    since: Some(7),
};

/// A wait for another blocker.
const OTHER: WaitLine = WaitLine {
    wait: WaitFor {
        session: 12,
        other: 3,
    },
    first: false,
    since: None,
};

/// A transaction that is a victim.
const VICTIM: OpenTransaction = OpenTransaction {
    session: 13,
    transaction: Transaction {
        number: 2,
        doomed: true,
    },
};

/// A lock of the open transaction.
fn lock(resource: Resource) -> Claim {
    Claim {
        resource,
        session: 12,
        transaction: OPEN.transaction,
        mode: Mode::IS,
        kind: ClaimKind::Held,
    }
}

/// The lock table as a text.
const TEXT: &str = "state in front of place 2

jam
waiting: 4
root: session 12, transaction 1, blocks 3 in all, its abort would grant 2
not aborted: session 13, transaction 2, victim

transactions
session 12, transaction 1
  holds 1 in IS
session 13, transaction 2, victim

resources
1
  session 12 holds it in IS

waits
session 12 waits for session 1, since place 7
session 12 waits also for session 3
";

/// The lock table as rows.
const ROWS: &str = "transaction,12,1,,,,\nheld,12,1,,1,IS,\nwaits,12,,,,,1\nwaits,12,,,,,1+1\n";

/// The waits as a graph.
const GRAPH: &str =
    "digraph waits {\n  12 [label=\"session 12\\ntransaction 1\"];\n  12 -> 1;\n}\n";

/// A resource with a holder and a queue of two as a box, and the wait for a first blocker.
const BOXES: &str = "digraph locks {
  graph [rankdir=LR, pack=true, nodesep=0.1];
  node [margin=\"0.05,0.02\"];
  12 [label=\"session 12\\ntransaction 1\"];
  \"resource 1\" [shape=box, label=\"1\\lsession 12 holds it in IS\\l1. session 12 waits to convert it to S\\l2. session 13 waits for it in X\\l\"];
  12 -> 1;
}
";

/// Six resources, each with a waiting request: the boxes are in rows of four, and each row is below the one before it.
const ROWS_OF_BOXES: &str = "digraph locks {
  graph [rankdir=LR, pack=true, nodesep=0.1];
  node [margin=\"0.05,0.02\"];
  \"resource 1\" [shape=box, label=\"1\\l1. session 12 waits for it in IS\\l\"];
  \"resource 2\" [shape=box, label=\"2\\l1. session 12 waits for it in IS\\l\"];
  \"resource 3\" [shape=box, label=\"3\\l1. session 12 waits for it in IS\\l\"];
  \"resource 4\" [shape=box, label=\"4\\l1. session 12 waits for it in IS\\l\"];
  \"resource 5\" [shape=box, label=\"5\\l1. session 12 waits for it in IS\\l\"];
  \"resource 6\" [shape=box, label=\"6\\l1. session 12 waits for it in IS\\l\"];
  \"resource 1\" -> \"resource 2\" [style=invis];
  \"resource 2\" -> \"resource 3\" [style=invis];
  \"resource 3\" -> \"resource 4\" [style=invis];
  {rank=same; \"resource 1\" -> \"resource 5\" [style=invis];}
  \"resource 5\" -> \"resource 6\" [style=invis];
}
";

/// Whether what was written is this text.
fn is_written(written: Result<String, NoMemory>, wanted: &str) -> bool {
    match written {
        Ok(text) => text.as_str() == wanted,
        Err(_) => false,
    }
}

/// The row of the wait, with so many others.
fn first_wait(others: u64) -> FirstWait {
    FirstWait { wait: WAIT, others }
}

/// A lock table as a text, as rows and as a graph.
#[test]
fn a_lock_table_in_three_forms(rt: HostRuntime) -> Result<(), Fail> {
    let claims = [lock(Resource::parse("1")?)];
    let opens = [OPEN, VICTIM];
    let told = [FIRST, OTHER];
    let text = state_text(rt.alloc(), Some(2), 4, &[ROOT], &opens, &claims, &told);
    let mut right = is_written(text, TEXT);
    let rows = [first_wait(0), first_wait(1)];
    right &= is_written(state_rows(rt.alloc(), &[OPEN], &claims, &rows), ROWS);
    right &= is_written(waits_dot(rt.alloc(), &[OPEN], &[WAIT]), GRAPH);
    assert!(rt; right);
    Ok(())
}

/// Contended resources as boxes. A resource that nobody waits for has none, and a wait for another than the first blocker has no
/// edge.
#[test]
fn contended_resources_are_boxes(rt: HostRuntime) -> Result<(), Fail> {
    let held = lock(Resource::parse("1")?);
    let conversion = Claim {
        mode: Mode::S,
        kind: ClaimKind::Conversion,
        ..held
    };
    let fresh = Claim {
        session: 13,
        transaction: VICTIM.transaction,
        mode: Mode::X,
        kind: ClaimKind::Fresh,
        ..held
    };
    let claims = [held, conversion, fresh, lock(Resource::parse("2")?)];
    let graph = locks_dot(rt.alloc(), &[OPEN], &claims, &[FIRST, OTHER]);
    assert!(rt; is_written(graph, BOXES));
    Ok(())
}

/// A waiting request for the resource.
fn request(resource: Resource) -> Claim {
    Claim {
        kind: ClaimKind::Fresh,
        ..lock(resource)
    }
}

/// Boxes in rows of four.
#[test]
fn boxes_are_in_rows(rt: HostRuntime) -> Result<(), Fail> {
    let claims = [
        request(Resource::parse("1")?),
        request(Resource::parse("2")?),
        request(Resource::parse("3")?),
        request(Resource::parse("4")?),
        request(Resource::parse("5")?),
        request(Resource::parse("6")?),
    ];
    let graph = locks_dot(rt.alloc(), &[], &claims, &[]);
    assert!(rt; is_written(graph, ROWS_OF_BOXES));
    Ok(())
}

/// Writes the text of a state, and once more if memory was refused. Returns it with whether it was.
fn written_text(alloc: Global, claims: &[Claim]) -> Result<(String, bool), NoMemory> {
    match state_text(alloc, Some(21), 1, &[ROOT], &[OPEN], claims, &[FIRST]) {
        Ok(text) => Ok((text, false)),
        Err(_) => Ok((
            state_text(alloc, Some(21), 1, &[ROOT], &[OPEN], claims, &[FIRST])?,
            true,
        )),
    }
}

/// Each allocation of a text may be refused, and the next try writes the text. There are more claims than are sorted in
/// place. Prints a line if one was refused, for the check that refuses each allocation in turn. Nothing else allocates here.
#[test]
fn refused_texts_are_written_at_the_second_try(rt: HostRuntime) -> Result<(), Fail> {
    let mut claims = [lock(Resource::parse("1")?); 40];
    claims[39].session = 1;
    let (text, was_refused) = written_text(rt.alloc(), &claims)?;
    assert!(rt; text.as_str().starts_with("state in front of place 21\n"));
    if was_refused {
        println!(&rt; "refused")?;
    }
    Ok(())
}
