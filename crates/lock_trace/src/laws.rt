//! Laws of the formats, each the contract of a function that does nothing. A caller's proof cites a law by calling
//! its function, which costs nothing at run time.

ghost use Rattle.std.specs.Prelude.{◌≡◌, ◌+◌, ◌<◌, ◌^◌, ◌↔◌, ℕ, List, [], ◌∷◌, ◌++◌, length, map, All, Some, None, Ok, Err, decimal};
ghost use Rattle.csv.specs.Reading.{AreRecords, default_config, strip_bom};
ghost use Rattle.csv.specs.declared.parser.State.TheVariants as st;
ghost use Rattle.lock_modes.specs.declared.Mode.{Mode};
ghost use Rattle.lock_modes.specs.Codes.{name_of};
ghost use Rattle.lock_tree.specs.Paths.{IsResource};
ghost use Rattle.lock_tree.specs.Text.{text_of};
ghost use Rattle.lock_rules.specs.Entries.{Entry};
ghost use Rattle.lock_rules.specs.declared.calls.Reply.{Reply};
ghost use Rattle.lock_rules.specs.declared.kinds.Op.{Op as OpValue};
ghost use Rattle.lock_rules.specs.Kinds.{word_of};
ghost use Rattle.lock_trace.specs.declared.trace_row.TraceRow.{TraceRow as RowValue};
ghost use Rattle.lock_trace.specs.declared.faults.TraceFault.{TraceFault as FaultValue};
ghost use Rattle.lock_trace.specs.Fields.{session_in, op_in, resource_in, mode_in, place_in, IsSessionText};
ghost use Rattle.lock_trace.specs.declared.faults.TraceKind.{TraceKind as KindValue};
ghost use Rattle.lock_trace.specs.Tests.{tests_of_row, tests_of_entry, first_failing, number_of_kind};
ghost use Rattle.lock_trace.specs.Rows.{IsRow, fields_of_row, row_of};
ghost use Rattle.lock_trace.specs.Records.{records_of};
ghost use Rattle.lock_trace.specs.Traces.{IsFirstBadRow, trace_of};
ghost use Rattle.lock_trace.specs.Histories.{AllFit, fields_of_reply, fields_of_entry, records_of_history, text_of_history, text_of_piece};
ghost use Rattle.lock_trace.specs.Entries.{IsReply, IsEntry, reply_in, entry_of};
ghost use Rattle.lock_trace.specs.ReadHistories.{IsFirstBadEntry, history_of};

/// The test of a session, operation, resource or mode field accepts exactly the text of what it reads.
pub fn tests_pass_texts()
    ensures session { (n s : ℕ) (field : List ℕ) → n < 2 ^ 16 →
        (session_in n field ≡ Ok s) ↔ IsSessionText n s field }
    ensures op { (op : OpValue) (field : List ℕ) → (op_in field ≡ Ok op) ↔ (field ≡ word_of op) }
    ensures resource { (r field : List ℕ) →
        (resource_in field ≡ Ok r) ↔ (IsResource r × (field ≡ text_of r)) }
    ensures mode { (m : Mode) (field : List ℕ) → (mode_in field ≡ Ok m) ↔ (field ≡ name_of m) }
{}

/// The tests of a place field, and of a reply's word and value fields, accept exactly the texts of what they read.
pub fn tests_of_histories_pass_texts()
    ensures place { (place : ℕ) (field : List ℕ) → (place_in place field ≡ Ok tt) ↔ (field ≡ decimal place) }
    ensures reply { (word value : List ℕ) (reply : Reply) →
        (reply_in word value ≡ Ok reply) ↔ (IsReply reply × (word ∷ value ∷ [] ≡ fields_of_reply reply)) }
{}

/// Fields are read as a trace row exactly if they are the fields of that row.
pub fn rows_are_their_fields()
    ensures { (n : ℕ) (row : RowValue) (fields : List (List ℕ)) → n < 2 ^ 16 →
        (row_of n fields ≡ Ok row) ↔ (IsRow n row × (fields ≡ fields_of_row row)) }
{}

/// Fields are read as the entry at a place exactly if they are the fields of that entry at that place.
pub fn entries_are_their_fields()
    ensures { (n place : ℕ) (e : Entry) (fields : List (List ℕ)) → n < 2 ^ 16 →
        (entry_of n place fields ≡ Ok e) ↔ (IsEntry n e × (fields ≡ fields_of_entry place e)) }
{}

/// Fields fail no test exactly if they are the fields of a trace row. Otherwise reading fails with the first test
/// that fails. The tests are in the order of their numbers.
pub fn the_first_test_that_fails_decides()
    ensures none { (n : ℕ) (fields : List (List ℕ)) → n < 2 ^ 16 →
        (first_failing (tests_of_row n fields) ≡ None)
        ↔ ((row : RowValue) × IsRow n row × (fields ≡ fields_of_row row)) }
    ensures fault { (n : ℕ) (fields : List (List ℕ)) (fault : KindValue) →
        (row_of n fields ≡ Err fault) ↔ (first_failing (tests_of_row n fields) ≡ Some fault) }
    ensures order { (n : ℕ) (fields : List (List ℕ)) →
        map (λ test. number_of_kind test.1) (tests_of_row n fields) ≡ 1 ∷ 2 ∷ 3 ∷ 4 ∷ 5 ∷ 6 ∷ [] }
{}

/// Fields fail no test of a history row exactly if they are the fields of an entry at that place. Otherwise
/// reading fails with the first test that fails. The tests are in the order of their numbers, except that `Place`
/// is second.
pub fn the_first_test_of_an_entry_that_fails_decides()
    ensures none { (n place : ℕ) (fields : List (List ℕ)) → n < 2 ^ 16 →
        (first_failing (tests_of_entry n place fields) ≡ None)
        ↔ ((e : Entry) × IsEntry n e × (fields ≡ fields_of_entry place e)) }
    ensures fault { (n place : ℕ) (fields : List (List ℕ)) (fault : KindValue) →
        (entry_of n place fields ≡ Err fault) ↔ (first_failing (tests_of_entry n place fields) ≡ Some fault) }
    ensures order { (n place : ℕ) (fields : List (List ℕ)) →
        map (λ test. number_of_kind test.1) (tests_of_entry n place fields)
        ≡ 1 ∷ 9 ∷ 2 ∷ 3 ∷ 4 ∷ 5 ∷ 6 ∷ 10 ∷ 11 ∷ [] }
{}

/// A text is read as a trace exactly if its records are the fields of the trace's rows. Otherwise the fault is in
/// the first record that is no row.
pub fn traces_are_their_rows()
    ensures rows { (n : ℕ) (bytes : List ℕ) (rows : List RowValue) → n < 2 ^ 16 →
        (trace_of n bytes ≡ Ok rows)
        ↔ (All (IsRow n) rows × (records_of bytes ≡ map fields_of_row rows)) }
    ensures fault { (n : ℕ) (bytes : List ℕ) (fault : FaultValue) → n < 2 ^ 16 →
        (trace_of n bytes ≡ Err fault) ↔ IsFirstBadRow n (records_of bytes) fault }
{}

/// A text is read as a history exactly if its records are the fields of the history's entries at their places.
/// Otherwise the fault is in the first record that is no entry of its place.
pub fn histories_are_their_entries()
    ensures entries { (n : ℕ) (bytes : List ℕ) (entries : List Entry) → n < 2 ^ 16 →
        (history_of n bytes ≡ Ok entries)
        ↔ (All (IsEntry n) entries × (records_of bytes ≡ records_of_history entries)) }
    ensures fault { (n : ℕ) (bytes : List ℕ) (fault : FaultValue) → n < 2 ^ 16 →
        (history_of n bytes ≡ Err fault) ↔ IsFirstBadEntry n (records_of bytes) fault }
{}

/// The records of a text are the records that csv reads from it by its default rules, after a byte order mark, and
/// no others.
pub fn records_are_of_csv()
    ensures are { (bytes : List ℕ) →
        AreRecords default_config st.StartRecord (strip_bom bytes) (records_of bytes) }
    ensures only { (bytes : List ℕ) (records : List (List (List ℕ))) →
        AreRecords default_config st.StartRecord (strip_bom bytes) records → records_of bytes ≡ records }
{}

/// The records of a history's text are the fields of its entries, and no others.
pub fn rows_come_back()
    ensures { (history : List Entry) → length history < 2 ^ 64 → AllFit history →
        records_of (text_of_history history) ≡ records_of_history history }
{}

/// The text of a history is read as that history, if each entry is one for the sessions that it is read for. So
/// `read_history` returns the entries that `history_text` was given.
pub fn histories_come_back()
    ensures { (n : ℕ) (history : List Entry) → n < 2 ^ 16 → length history < 2 ^ 64 → All (IsEntry n) history →
        history_of n (text_of_history history) ≡ Ok history }
{}

/// The text of a history is the text of its one piece, whose first entry is at place 0. The text of a piece is
/// that of its front part and then that of the rest, whose first entry is at the place behind the front part.
pub fn pieces_make_the_text()
    ensures whole { (history : List Entry) → text_of_history history ≡ text_of_piece 0 history }
    ensures parts { (first : ℕ) (front rest : List Entry) →
        text_of_piece first (front ++ rest) ≡ text_of_piece first front ++ text_of_piece (first + length front) rest }
{}
