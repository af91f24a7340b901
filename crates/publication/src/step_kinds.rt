//! The rule of the board's table, and the kinds of its atomic steps. Each kind names its definition in
//! `specs/StepKinds.antt`, or in `specs/Runs.antt` if it requires something of its word and its seat: then its step tells that
//! this was met. A `Play` is a step on a word; a `Split` makes a new seat out of one, and a `Join` makes one seat of two.

ghost use Rattle.sequential.specs.Bounds.{Bounds, keeping_nothing};

use crate::slot::SlotValue;
use crate::view::View;
use atomic_table::{Join, Play, Split, TableRule};
use sequential::{GhostList, Sequential};
use std::marker::{Brand, PhantomData};

/// What is fixed when a board is made.
#[derive(Drop)]
pub struct BoardKey<O: Sequential> {
    /// The number of sessions.
    pub sessions: u16,
    /// The object, as it was then. It takes no memory: clauses alone see it.
    pub object: GhostList<O>,
}

/// The rule that every step keeps, and what the first seat knows.
pub struct BoardRule<O: Sequential> {
    /// Uses the type parameter.
    marker: PhantomData<O>,
}

impl<O: Sequential> TableRule<SlotValue<O>, View<O::Call, O::Reply>, BoardKey<O>> for BoardRule<O> {
    ghost use Rattle.std.specs.Prelude.{◌+◌};
    ghost use Rattle.publication.specs.Rule.{maker};
    ghost use Rattle.publication.specs.List.{IsBounded, bound_of};

    ghost holds = { λ key. IsBounded O.Sequential (bound_of O.bound key.object.items) };

    ghost first = { λ key. maker (key.sessions + 1) 0 };
}

/// The first seat makes one session: the new seat is split off it.
pub struct Enrol;

impl<C, R> Split<View<C, R>> for Enrol {
    ghost use Rattle.std.specs.Prelude.{◌+◌};
    ghost use Rattle.publication.specs.Rule.{new_session, maker};

    ghost left = { λ v. maker v.slots (v.made + 1) };

    ghost right = { λ v. new_session v.slots (v.made + 1) };
}

/// A new session takes its record's slot.
pub struct StartSession;

impl<O: Sequential> Play<SlotValue<O>, View<O::Call, O::Reply>> for StartSession {
    ghost use Rattle.publication.specs.Runs.{start};
    ghost use Rattle.publication.specs.Told.{tells};

    ghost then = { tells O.Sequential start };
}

/// A session publishes the call in its slot.
pub struct Post;

impl<O: Sequential> Play<SlotValue<O>, View<O::Call, O::Reply>> for Post {
    ghost use Rattle.publication.specs.Runs.{post};
    ghost use Rattle.publication.specs.Told.{tells};

    ghost then = { tells O.Sequential post };
}

/// A session reads the head word.
pub struct LookAtHead;

impl<O: Sequential> Play<SlotValue<O>, View<O::Call, O::Reply>> for LookAtHead {
    ghost use Rattle.publication.specs.StepKinds.{looks_at_head};

    ghost then = { looks_at_head };
}

/// A session links its record to the head as seen.
pub struct Link;

impl<O: Sequential> Play<SlotValue<O>, View<O::Call, O::Reply>> for Link {
    ghost use Rattle.publication.specs.StepKinds.{links};

    ghost then = { links };
}

/// A session exchanges the head word, so that its record is the list's first.
pub struct Enlist;

impl<O: Sequential> Play<SlotValue<O>, View<O::Call, O::Reply>> for Enlist {
    ghost use Rattle.publication.specs.StepKinds.{enlists};

    ghost then = { enlists };
}

/// The combiner reads the head word; its walk begins.
pub struct Walk;

impl<O: Sequential> Play<SlotValue<O>, View<O::Call, O::Reply>> for Walk {
    ghost use Rattle.publication.specs.StepKinds.{walks};

    ghost then = { walks };
}

/// The combiner reads the link of a record on its walk.
pub struct WalkOn;

impl<O: Sequential> Play<SlotValue<O>, View<O::Call, O::Reply>> for WalkOn {
    ghost use Rattle.publication.specs.StepKinds.{walks_on};

    ghost then = { walks_on };
}

/// The combiner links a record past the one behind it.
pub struct Unlink;

impl<O: Sequential> Play<SlotValue<O>, View<O::Call, O::Reply>> for Unlink {
    ghost use Rattle.publication.specs.StepKinds.{unlinks};

    ghost then = { unlinks };
}

/// The combiner marks the unlinked record OUT.
pub struct MarkOut;

impl<O: Sequential> Play<SlotValue<O>, View<O::Call, O::Reply>> for MarkOut {
    ghost use Rattle.publication.specs.StepKinds.{marks_out};

    ghost then = { marks_out };
}

/// The combiner links the unlinked record again.
pub struct Relink;

impl<O: Sequential> Play<SlotValue<O>, View<O::Call, O::Reply>> for Relink {
    ghost use Rattle.publication.specs.StepKinds.{relinks};

    ghost then = { relinks };
}

/// A session reads its record's state word.
pub struct LookForReply;

impl<O: Sequential> Play<SlotValue<O>, View<O::Call, O::Reply>> for LookForReply {
    ghost use Rattle.publication.specs.StepKinds.{looks_for_reply};

    ghost then = { looks_for_reply };
}

/// A session takes the reply out of its record.
pub struct Take;

impl<O: Sequential> Play<SlotValue<O>, View<O::Call, O::Reply>> for Take {
    ghost use Rattle.publication.specs.Runs.{take_reply};
    ghost use Rattle.publication.specs.Told.{tells};

    ghost then = { tells O.Sequential take_reply };
}

/// A session reads the lock word.
pub struct LookAtLock;

impl<O: Sequential> Play<SlotValue<O>, View<O::Call, O::Reply>> for LookAtLock {
    ghost use Rattle.publication.specs.StepKinds.{looks_at_lock};

    ghost then = { looks_at_lock };
}

/// How many entries the object of a board keeps at most. It is a ghost value, by which the step that takes the object names
/// it.
pub trait Keeping {
    ghost use Rattle.std.specs.Prelude.{ℕ};

    ghost bound: { Bounds };
}

/// Stands for any number: whoever makes the step names it.
impl Keeping for Brand {
    ghost bound = { keeping_nothing };
}

/// A session tries to become the combiner. No value of this type is made.
pub struct Seize<K> {
    /// Uses the type parameter.
    marker: PhantomData<K>,
}

impl<O: Sequential, K: Keeping> Play<SlotValue<O>, View<O::Call, O::Reply>> for Seize<K> {
    ghost use Rattle.publication.specs.StepKinds.{seizes_within};
    ghost use Rattle.publication.specs.Runs.{seize, StepRequires};

    ghost then = { λ st m found n. seizes_within O.Sequential K.bound st m found n × StepRequires O.Sequential seize st.word m };
}

/// The combiner frees the lock word.
pub struct Release;

impl<O: Sequential> Play<SlotValue<O>, View<O::Call, O::Reply>> for Release {
    ghost use Rattle.publication.specs.Runs.{release};
    ghost use Rattle.publication.specs.Told.{tells};

    ghost then = { tells O.Sequential release };
}

/// The combiner reads a record's state word.
pub struct LookAtRecord;

impl<O: Sequential> Play<SlotValue<O>, View<O::Call, O::Reply>> for LookAtRecord {
    ghost use Rattle.publication.specs.StepKinds.{looks_at_record};

    ghost then = { looks_at_record };
}

/// The combiner opens a record in which a call is posted.
pub struct Open;

impl<O: Sequential> Play<SlotValue<O>, View<O::Call, O::Reply>> for Open {
    ghost use Rattle.publication.specs.Runs.{open_record};
    ghost use Rattle.publication.specs.Told.{tells};

    ghost then = { tells O.Sequential open_record };
}

/// The combiner lays the slot of an opened record down.
pub struct Lay;

impl<O: Sequential> Play<SlotValue<O>, View<O::Call, O::Reply>> for Lay {
    ghost use Rattle.publication.specs.Runs.{lay};
    ghost use Rattle.publication.specs.Told.{tells};

    ghost then = { tells O.Sequential lay };
}

/// The combiner takes the slot of an opened record again.
pub struct Pick;

impl<O: Sequential> Play<SlotValue<O>, View<O::Call, O::Reply>> for Pick {
    ghost use Rattle.publication.specs.Runs.{pick};
    ghost use Rattle.publication.specs.Told.{tells};

    ghost then = { tells O.Sequential pick };
}

/// The combiner answers an opened call.
pub struct AnswerCall;

impl<O: Sequential> Play<SlotValue<O>, View<O::Call, O::Reply>> for AnswerCall {
    ghost use Rattle.publication.specs.Runs.{answer_record};
    ghost use Rattle.publication.specs.Told.{tells};

    ghost then = { tells O.Sequential answer_record };
}

/// The combiner posts an opened call again.
pub struct PutBack;

impl<O: Sequential> Play<SlotValue<O>, View<O::Call, O::Reply>> for PutBack {
    ghost use Rattle.publication.specs.Runs.{put_back};
    ghost use Rattle.publication.specs.Told.{tells};

    ghost then = { tells O.Sequential put_back };
}

/// The call and the reply that a direct entry enters into the history. Both are ghost values, so the step is one load of
/// the lock word.
pub trait DirectEntry<C, R> {
    ghost use Rattle.std.specs.Prelude.{Option};

    ghost call: { Option C };

    ghost reply: { Option R };
}

/// Stands for any direct entry: whoever makes the step names the call and the reply.
impl<C, R> DirectEntry<C, R> for Brand {
    ghost use Rattle.std.specs.Prelude.{None};

    ghost call = { None };

    ghost reply = { None };
}

/// The combiner enters a call of its own into the history, without its record. No value of this type is made.
pub struct Enter<E> {
    /// Uses the type parameter.
    marker: PhantomData<E>,
}

impl<O: Sequential, E: DirectEntry<O::Call, O::Reply>> Play<SlotValue<O>, View<O::Call, O::Reply>>
    for Enter<E> {
    ghost use Rattle.publication.specs.Told.{tells_entry};

    ghost then = { tells_entry O.Sequential E.call E.reply };
}

/// A copy of what a seat knows is split off it.
pub struct SplitCopy;

impl<C, R> Split<View<C, R>> for SplitCopy {
    ghost use Rattle.publication.specs.StepKinds.{copy_of};

    ghost left = { λ v. v };

    ghost right = { copy_of };
}

/// A copy of the front that a seat knows is split off it.
pub struct SplitFront;

impl<C, R> Split<View<C, R>> for SplitFront {
    ghost use Rattle.publication.specs.StepKinds.{front_copy_of};

    ghost left = { λ v. v };

    ghost right = { front_copy_of };
}

/// A seat takes in such a copy.
pub struct JoinCopy;

impl<C, R> Join<View<C, R>> for JoinCopy {
    ghost use Rattle.publication.specs.Rule.{blank};
    ghost use Rattle.publication.specs.StepKinds.{joined};

    ghost both = { joined };

    ghost spent = { blank };
}

/// A seat learns which of two fronts of the history is the longer.
pub struct Learn;

impl<O: Sequential> Play<SlotValue<O>, View<O::Call, O::Reply>> for Learn {
    ghost use Rattle.publication.specs.StepKinds.{learns};

    ghost then = { learns O.Sequential };
}

/// A session compares the front that it knows with the one of a copy that it took in.
pub struct Compare;

impl<O: Sequential> Play<SlotValue<O>, View<O::Call, O::Reply>> for Compare {
    ghost use Rattle.publication.specs.StepKinds.{compares};

    ghost then = { compares };
}

/// A session publishes no more calls.
pub struct Retire;

impl<O: Sequential> Play<SlotValue<O>, View<O::Call, O::Reply>> for Retire {
    ghost use Rattle.publication.specs.Runs.{retire};
    ghost use Rattle.publication.specs.Told.{tells};

    ghost then = { tells O.Sequential retire };
}

/// A session that is handed in lays its record's slot down.
pub struct Leave;

impl<O: Sequential> Play<SlotValue<O>, View<O::Call, O::Reply>> for Leave {
    ghost use Rattle.publication.specs.Runs.{leave};
    ghost use Rattle.publication.specs.Told.{tells};

    ghost then = { tells O.Sequential leave };
}

/// The closing seat takes in the seat of a session that left.
pub struct Gather;

impl<C, R> Join<View<C, R>> for Gather {
    ghost use Rattle.publication.specs.Rule.{blank};
    ghost use Rattle.publication.specs.StepKinds.{gathered};

    ghost both = { gathered };

    ghost spent = { blank };
}
