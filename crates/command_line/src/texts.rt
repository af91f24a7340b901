//! Texts of the program: its version, its help texts, and the message for a badly written number.

/// The version of the project.
pub const VERSION: &str = "0.9.0";

/// The text of `--version`: the project's version, and the logic of the kit that it was proved with.
pub const VERSION_TEXT: &str = "glm 0.9.0\nproved with the Rattle kit, logic dac8208d650f15bf\n";

/// The beginning of the help of `replay`.
pub(crate) const ABOUT_REPLAY: &str =
    "Serves a trace, from a file or standard input, on one thread, and writes its history to standard output or a file.

A row of a trace is session,op,resource,mode, one for each call. A resource is 1 to 5 numbers joined by '/', of a
database, a file, a page, a record and a field. A mode is IS, IX, S, SIX, U or X.

  1,begin,,            opens a transaction of session 1
  1,lock,1/2,S         asks for file 2 of database 1
  1,convert,1/2,X      asks for more of what is held
  1,poll,,             asks how a request that waits stands
  1,try,1/3,S          asks as lock does, and is refused if it would wait
  1,withdraw,,         takes a request that waits back
  1,release,1/2,       gives one lock back
  1,commit,,           gives all back; so does abort
  1,restart,,          gives all back, and begins again with the same number

The history has a row for each call: place,session,op,resource,mode,reply,value.

  0,1,begin,,,began,1

With --stream the history is written in pieces of 4096 rows while calls are served, and a piece leaves memory once it is
written. What is written is the same. A row that is refused is still named before anything is written; if memory is
refused, the rows that were served before may have been written.

An example: glm replay examples/queue.csv";

/// The beginning of the help of `run`.
pub(crate) const ABOUT_RUN: &str =
    "Performs a trace, from a file or standard input, on threads, one for each session that has a row, and writes the history
that came about to standard output or a file. The rows of a session are performed in their order, each once the one
before is answered, whatever the answer was; how those of two sessions fall between one another differs from run to run.
While a request waits, its session's rows are refused, except poll, withdraw, abort and restart.

A row of a trace is session,op,resource,mode, one for each call, and one of the history
place,session,op,resource,mode,reply,value; 'glm help replay' shows a row of each form.

  1,lock,1/2,S
  1,withdraw,,
  3,1,lock,1/2,S,granted,S

With --stream the history is written in pieces of about 4096 rows while the threads are at work, and a piece leaves memory
once it is written. Calls wait while 16384 rows are still to be written. One more session takes the history, so there
are at most 1023 others. A row that is refused is still named before anything is written; if memory is refused, or tries
run out, the rows that were served before may have been written.

An example: glm run examples/queue.csv";

/// The beginning of the help of `check`.
pub(crate) const ABOUT_CHECK: &str =
    "Reads a history, from a file or standard input, and says on standard output whether it is legal: whether each reply is
the one that the lock table gives there. It writes 'legal', with the number of entries, or 'illegal', with the first
place whose reply is another.

A row of a history is place,session,op,resource,mode,reply,value, one for each call. A reply has the value beside it.

  0,1,begin,,,began,1                      the number of the transaction
  1,1,lock,1,S,granted,S                   the mode that is held; so have convert and try
  2,2,lock,1,X,waiting,                    so answers poll, or clear, or deadlock
  3,1,release,1,,released,
  4,1,commit,,,committed,0                 how many locks were given back; so have aborted and restarted
  5,1,lock,1,S,refused,NoTransaction       the name of the refusal
  6,3,withdraw,,,withdrawn,

With --stream each reply is compared as its row is read, and no rows are kept in memory. What is written is the same: all
rows are read in any case, and a row that is refused is named, also behind a wrong reply.

With --hints, or on a terminal, standard error also shows the first wrong reply beside the lock table's.

An example: glm check examples/queue.history.csv";

/// The beginning of the help of `show`.
pub(crate) const ABOUT_SHOW: &str =
    "Reads a history, from a file or standard input, checks it as 'check' does, and writes the state of the lock table in
front of the row with the place P, or at the end: which transactions are open, with what they hold and wait for; the
holders and the queue of each resource; and who waits for whom. A history that isn't legal gives the line of 'check',
and status 3.

  glm show --at 7 examples/deadlock.history.csv

  session 2, transaction 2
    holds 1 in S
    waits for 2 in S

With --csv the same is written as rows row,session,transaction,victim,resource,mode,other, where the row is 'transaction',
'held', 'conversion', 'fresh' or 'waits'. With --dot each resource that is waited for is a box of a graph, with its holders
and its queue, and an edge leads from each session that waits to the first that it waits for. With --waits who waits for
whom is written as a graph, and nothing else. 'dot -Tsvg' draws either.

With --state it reads a dump in place of a history: the rows of 'show --csv', as the library writes them of a lock table in
use. A dump has no place, so --at isn't taken.";

/// The beginning of the help of `explain`.
pub(crate) const ABOUT_EXPLAIN: &str =
    "Reads a history, from a file or standard input, checks it as 'check' does, and writes what the call in the row with the
place P did and why: which test refused it, and what failed it; for whom its request waits, and through what;
the cycles of waits that it closed; which transactions became deadlock victims; whose requests it granted; and of a
poll, since when and for whom its session waits, or whose call made it a victim.
Without --at it writes this of each call that was refused, whose request waited, or that ended the wait of
another session. A history that isn't legal gives the line of 'check', and status 3.

  glm explain --at 7 examples/deadlock.history.csv

  7,1,lock,1,S,granted,S
    begins to wait for 1 in S
      waits for session 3, transaction 3, which waits ahead for X
    closes a cycle of waits, or several, through

With --csv the same is written as rows place,row,session,transaction,resource,mode,other. With --dot the
cycles that requests closed are written as graphs, one behind another, which 'dot -Tsvg' draws; of several in a file
'dot -Tsvg -O FILE' draws each into a file of its own.";

/// The beginning of the help of `timeline`.
pub(crate) const ABOUT_TIMELINE: &str =
    "Reads a history, from a file or standard input, checks it as 'check' does, and draws it as a picture in SVG, which a browser
shows: the calls from left to right, and for each session what it held and how long it waited.
With --from and --to the rows from the place P up to the place Q are drawn, both with them. A history that isn't legal
gives the line of 'check', and status 3.

An example: glm timeline examples/deadlock.history.csv -o deadlock.svg";

/// The beginning of the help of `stats`.
pub(crate) const ABOUT_STATS: &str =
    "Reads a history, from a file or standard input, checks it as 'check' does, and writes its counters: the calls by operation,
how requests for locks were answered, how waits ended, the calls that closed a cycle of waits and the victims, refusals by
reason, and what the lock table has at the end. Each line has a group, a name and a number. A history that isn't legal
gives the line of 'check', and status 3.

  glm stats examples/deadlock.history.csv

  requests   all            6
  requests   granted        3
  requests   waiting        2
  requests   refused        1

With --csv the same is written as rows group,name,number.";

/// The beginning of the help of `shell`.
pub(crate) const ABOUT_SHELL: &str =
    "Reads calls from standard input, a line each, and answers each at once on standard output. A line is a session, its
call, and what the call names: a resource, and a mode; in any case, with blanks or commas between them.

  1 begin              opens a transaction of session 1
  1 lock 1/2 S         asks for file 2 of database 1
  1 path 1/2/3 X       asks for page 3 of it, and first for what its ancestors need
  1 commit             gives all back; so does abort
  show                 shows who holds what and who waits for whom
  why 2                says why session 2 waits, was refused or is a deadlock victim
  undo                 takes the calls of the last line back
  save FILE            writes the calls so far as a trace, which 'replay' reads
  load FILE            serves the calls of a trace after those so far
  help                 lists these words; quit ends

A line that can't be read changes nothing.";

/// The list of exit statuses at the end of the help texts.
pub(crate) const STATUSES: &str = "Exit status:
  0  done, or help or the version asked for
  1  a row or a dump was refused, as standard error says
  2  the words of the command line are off, or a place isn't one of the history
  3  the history isn't legal
  4  memory was refused
  5  reading or writing failed, a file couldn't be opened, or a thread couldn't be started
  6  a gate stayed shut, or tries ran out";

/// The message for a number that the parser takes but that has a sign or a leading zero, or that is the greatest number of
/// sessions for a run whose history is written in pieces.
pub const NOT_A_NUMERAL: &str =
    "error: a number is written with digits alone, with no sign and no zero before it, and 'run --stream' has at most 1023
sessions

For more information, try '--help'.
";

/// The message for `show --state` with a place, or with a number that isn't written in digits.
pub const STATE_ALONE: &str =
    "error: a dump has no place: --state is taken without --at, and a number is written with digits alone, with no sign and no
zero before it

For more information, try '--help'.
";

/// The message for `show` or `explain` with two forms.
pub const TWO_FORMS: &str =
    "error: 'show' and 'explain' write one form: take one of --csv, --dot and, of 'show', --waits

For more information, try '--help'.
";
