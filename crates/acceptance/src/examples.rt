//! The traces of `examples/` with their histories, and what is shown and told of one of them, for readers and writers that fail.

/// The example traces, with their histories: a title that ends with a colon, the trace, `>`, and the history. There is `|` with a
/// line end between them.
pub(crate) const EXAMPLES: &str =
    "`queue.csv`. A writer waits for a reader, and a later reader queues behind the writer. A waiting session can't request a
lock:
1,begin,,
2,begin,,
3,begin,,
1,lock,1,S
2,lock,1,X
3,lock,1,S
2,lock,2,S
1,commit,,
2,commit,,
3,commit,,
>
0,1,begin,,,began,1
1,2,begin,,,began,2
2,3,begin,,,began,3
3,1,lock,1,S,granted,S
4,2,lock,1,X,waiting,
5,3,lock,1,S,waiting,
6,2,lock,2,S,refused,IsWaiting
7,1,commit,,,committed,1
8,2,commit,,,committed,1
9,3,commit,,,committed,1
|
`readers.csv`. Two waiting readers are granted together when the writer commits:
1,begin,,
2,begin,,
3,begin,,
1,lock,7,X
2,lock,7,S
3,lock,7,IS
1,commit,,
2,commit,,
3,commit,,
>
0,1,begin,,,began,1
1,2,begin,,,began,2
2,3,begin,,,began,3
3,1,lock,7,X,granted,X
4,2,lock,7,S,waiting,
5,3,lock,7,IS,waiting,
6,1,commit,,,committed,1
7,2,commit,,,committed,1
8,3,commit,,,committed,1
|
`refusals.csv`. Calls that are refused: no transaction, a second begin, no mode, and calls while waiting:
1,lock,1,S
1,begin,,
1,begin,,
1,lock,1,NL
1,lock,1,S
2,begin,,
2,lock,1,X
2,lock,2,S
2,commit,,
1,commit,,
2,commit,,
>
0,1,lock,1,S,refused,NoTransaction
1,1,begin,,,began,1
2,1,begin,,,refused,AlreadyOpen
3,1,lock,1,NL,refused,NothingAsked
4,1,lock,1,S,granted,S
5,2,begin,,,began,2
6,2,lock,1,X,waiting,
7,2,lock,2,S,refused,IsWaiting
8,2,commit,,,refused,IsWaiting
9,1,commit,,,committed,1
10,2,commit,,,committed,1
|
`tree.csv`. Two sessions in one file: the second waits on the file until the first releases it from the page upwards:
1,begin,,
1,lock,1/2,S
1,lock,1,IX
1,lock,1/2,IX
1,lock,1/2/3,X
2,begin,,
2,lock,1,IS
2,lock,1/2,S
1,release,1/2,
1,release,1/2/3,
1,release,1/2,
1,commit,,
2,lock,1/2/7,S
2,commit,,
>
0,1,begin,,,began,1
1,1,lock,1/2,S,refused,ParentNotHeld
2,1,lock,1,IX,granted,IX
3,1,lock,1/2,IX,granted,IX
4,1,lock,1/2/3,X,granted,X
5,2,begin,,,began,2
6,2,lock,1,IS,granted,IS
7,2,lock,1/2,S,waiting,
8,1,release,1/2,,refused,ChildHeld
9,1,release,1/2/3,,released,
10,1,release,1/2,,released,
11,1,commit,,,committed,1
12,2,lock,1/2/7,S,granted,S
13,2,commit,,,committed,3
|
`conversions.csv`. A conversion that conflicts with a holder queues ahead of a writer that arrived earlier:
1,begin,,
2,begin,,
3,begin,,
1,lock,1,S
2,lock,1,S
3,lock,1,X
1,convert,1,IX
2,commit,,
1,poll,,
3,poll,,
1,lock,1/2,X
1,abort,,
3,poll,,
3,commit,,
>
0,1,begin,,,began,1
1,2,begin,,,began,2
2,3,begin,,,began,3
3,1,lock,1,S,granted,S
4,2,lock,1,S,granted,S
5,3,lock,1,X,waiting,
6,1,convert,1,IX,waiting,
7,2,commit,,,committed,1
8,1,poll,,,clear,
9,3,poll,,,waiting,
10,1,lock,1/2,X,granted,X
11,1,abort,,,aborted,2
12,3,poll,,,clear,
13,3,commit,,,committed,1
|
`deadlock.csv`. The victim is doomed until it aborts, and then the others go on to their commits:
1,begin,,
2,begin,,
3,begin,,
1,lock,2,X
2,lock,1,S
3,lock,1,X
2,lock,2,S
1,lock,1,S
3,poll,,
3,lock,3,S
2,poll,,
3,abort,,
1,commit,,
2,poll,,
2,commit,,
>
0,1,begin,,,began,1
1,2,begin,,,began,2
2,3,begin,,,began,3
3,1,lock,2,X,granted,X
4,2,lock,1,S,granted,S
5,3,lock,1,X,waiting,
6,2,lock,2,S,waiting,
7,1,lock,1,S,granted,S
8,3,poll,,,deadlock,
9,3,lock,3,S,refused,IsDoomed
10,2,poll,,,waiting,
11,3,abort,,,aborted,0
12,1,commit,,,committed,2
13,2,poll,,,clear,
14,2,commit,,,committed,2
|
`update.csv`. Two readers that both want to write meet a deadlock; two that read in U write one after the other:
1,begin,,
2,begin,,
1,lock,1,S
2,lock,1,S
1,convert,1,X
2,convert,1,X
2,abort,,
1,poll,,
1,commit,,
1,begin,,
2,begin,,
1,lock,1,U
2,lock,1,U
1,convert,1,X
1,commit,,
2,poll,,
2,convert,1,X
2,commit,,
>
0,1,begin,,,began,1
1,2,begin,,,began,2
2,1,lock,1,S,granted,S
3,2,lock,1,S,granted,S
4,1,convert,1,X,waiting,
5,2,convert,1,X,deadlock,
6,2,abort,,,aborted,1
7,1,poll,,,clear,
8,1,commit,,,committed,1
9,1,begin,,,began,3
10,2,begin,,,began,4
11,1,lock,1,U,granted,U
12,2,lock,1,U,waiting,
13,1,convert,1,X,granted,X
14,1,commit,,,committed,1
15,2,poll,,,clear,
16,2,convert,1,X,granted,X
17,2,commit,,,committed,1
|
`withdrawals.csv`. Tries beside readers and behind a queue, withdrawals from the midst and the front of a queue and of a
conversion, and a lock that makes a victim where a try is refused:
1,withdraw,,
1,begin,,
2,begin,,
3,begin,,
4,begin,,
5,begin,,
1,try,1,S
1,withdraw,,
2,lock,1,S
1,try,1,X
3,try,1,X
3,lock,1,X
4,try,1,S
4,lock,1,X
5,lock,1,S
4,withdraw,,
4,lock,1,IS
3,withdraw,,
2,convert,1,X
2,withdraw,,
2,convert,1,IS
3,lock,2,X
1,lock,2,S
3,try,1,X
3,lock,1,X
3,withdraw,,
3,abort,,
1,withdraw,,
1,poll,,
1,commit,,
2,commit,,
4,commit,,
5,commit,,
>
0,1,withdraw,,,refused,NoTransaction
1,1,begin,,,began,1
2,2,begin,,,began,2
3,3,begin,,,began,3
4,4,begin,,,began,4
5,5,begin,,,began,5
6,1,try,1,S,granted,S
7,1,withdraw,,,refused,NotWaiting
8,2,lock,1,S,granted,S
9,1,try,1,X,refused,WouldWait
10,3,try,1,X,refused,WouldWait
11,3,lock,1,X,waiting,
12,4,try,1,S,refused,WouldWait
13,4,lock,1,X,waiting,
14,5,lock,1,S,waiting,
15,4,withdraw,,,withdrawn,
16,4,lock,1,IS,waiting,
17,3,withdraw,,,withdrawn,
18,2,convert,1,X,waiting,
19,2,withdraw,,,withdrawn,
20,2,convert,1,IS,granted,S
21,3,lock,2,X,granted,X
22,1,lock,2,S,waiting,
23,3,try,1,X,refused,WouldWait
24,3,lock,1,X,deadlock,
25,3,withdraw,,,refused,IsDoomed
26,3,abort,,,aborted,1
27,1,withdraw,,,refused,NotWaiting
28,1,poll,,,clear,
29,1,commit,,,committed,2
30,2,commit,,,committed,1
31,4,commit,,,committed,1
32,5,commit,,,committed,1
|
`restarts.csv`. A victim restarts, and is spared by the next cycle; a session that waits restarts:
1,restart,,
1,begin,,
2,begin,,
1,lock,1,X
2,lock,2,X
1,lock,2,S
2,lock,1,S
2,restart,,
1,poll,,
2,begin,,
2,lock,2,X
1,commit,,
1,begin,,
2,poll,,
1,lock,1,X
2,lock,1,S
1,lock,2,S
1,restart,,
1,lock,2,S
1,restart,,
2,commit,,
1,commit,,
>
0,1,restart,,,refused,NoTransaction
1,1,begin,,,began,1
2,2,begin,,,began,2
3,1,lock,1,X,granted,X
4,2,lock,2,X,granted,X
5,1,lock,2,S,waiting,
6,2,lock,1,S,deadlock,
7,2,restart,,,restarted,1
8,1,poll,,,clear,
9,2,begin,,,refused,AlreadyOpen
10,2,lock,2,X,waiting,
11,1,commit,,,committed,2
12,1,begin,,,began,3
13,2,poll,,,clear,
14,1,lock,1,X,granted,X
15,2,lock,1,S,waiting,
16,1,lock,2,S,deadlock,
17,1,restart,,,restarted,1
18,1,lock,2,S,waiting,
19,1,restart,,,restarted,0
20,2,commit,,,committed,2
21,1,commit,,,committed,0
";

/// The history of `examples/deadlock.csv`.
pub(crate) const DEADLOCK: &str = "0,1,begin,,,began,1
1,2,begin,,,began,2
2,3,begin,,,began,3
3,1,lock,2,X,granted,X
4,2,lock,1,S,granted,S
5,3,lock,1,X,waiting,
6,2,lock,2,S,waiting,
7,1,lock,1,S,granted,S
8,3,poll,,,deadlock,
9,3,lock,3,S,refused,IsDoomed
10,2,poll,,,waiting,
11,3,abort,,,aborted,0
12,1,commit,,,committed,2
13,2,poll,,,clear,
14,2,commit,,,committed,2
";

/// The state in front of its place 7.
pub(crate) const LINES_AT_7: &str = "state in front of place 7

jam
waiting: 2
root: session 1, transaction 1, blocks 2 in all, its abort would grant 1

transactions
session 1, transaction 1
  holds 2 in X
session 2, transaction 2
  holds 1 in S
  waits for 2 in S
session 3, transaction 3
  waits for 1 in X

resources
1
  session 2 holds it in S
  session 3 waits for it in X
2
  session 1 holds it in X
  session 2 waits for it in S

waits
session 2 waits for session 1, since place 6
session 3 waits for session 2, since place 5
";

/// What its calls did.
pub(crate) const DEADLOCK_TOLD: &str = "5,3,lock,1,X,waiting,
  begins to wait for 1 in X
    waits for session 2, transaction 2, which holds it in S
6,2,lock,2,S,waiting,
  begins to wait for 2 in S
    waits for session 1, transaction 1, which holds it in X
7,1,lock,1,S,granted,S
  begins to wait for 1 in S
    waits for session 3, transaction 3, which waits ahead for X
  closes a cycle of waits, or several, through
    session 1, transaction 1
    session 2, transaction 2
    session 3, transaction 3
  where
    session 1 waits for session 3
    session 2 waits for session 1
    session 3 waits for session 2
  victim: session 3, transaction 3, the youngest on a cycle
  then its own request is granted, since victims made room
9,3,lock,3,S,refused,IsDoomed
  refused: the session's transaction is a deadlock victim
12,1,commit,,,committed,2
  grants the request of session 2, transaction 2, for 2 in S
";
