//! The worked examples, as laws.

ghost use Rattle.lock_modes.specs.declared.Mode.TheVariants.{IS, IX, S, SIX, X};
ghost use Rattle.lock_rules.specs.declared.calls.Reply.TheVariants.{Began, Granted, Waiting, Deadlock, Clear, Released, Committed, Aborted, Refused, Withdrawn};
ghost use Rattle.lock_rules.specs.declared.calls.Why.TheVariants.{NoTransaction, IsWaiting, NothingAsked, NotHeld, ParentNotHeld, ChildHeld, TooManyLocks, WouldWait, NotWaiting};
ghost use Rattle.lock_rules.specs.Legal.{IsLegal};
ghost use Rattle.lock_rules.specs.Examples.{with_reply, queue_in_order, promotion_stops, readers_together, promotion_in_order, intentions, refusals, down_the_tree, up_the_tree, release_promotes, release_of_one, asks_again, conversion_first, conversion_at_once, conversion_under_parent, abort_while_waiting, readers_that_convert, youngest_of_two, victim_in_the_way, conversions_that_meet, circle_through_the_queue, two_victims, begin_beside_others, polls, release_above_another, commit_of_four, conversion_to_the_upper_bound, conversion_needs_more_of_the_parent, parents_on_each_level, releases_promote_one_after_another, begins_again, polls_again, circle_of_five, three_victims, beside_the_circle, tries, try_closes_no_circle, withdrawals, withdrawal_from_the_midst, withdrawal_too_late};

/// Histories worked by hand are legal, and with a wrong reply they are not.
pub fn examples_are_legal()
    ensures queue_in_order { IsLegal queue_in_order }
    ensures reader_jumps_the_queue { IsLegal (with_reply 5 (Granted S) queue_in_order) → ⊥ }
    ensures promotion_stops { IsLegal promotion_stops }
    ensures promotion_goes_on { IsLegal (with_reply 8 Clear promotion_stops) → ⊥ }
    ensures promotion_left_out { IsLegal (with_reply 7 Waiting promotion_stops) → ⊥ }
    ensures readers_together { IsLegal readers_together }
    ensures one_reader_alone { IsLegal (with_reply 8 Waiting readers_together) → ⊥ }
    ensures promotion_in_order { IsLegal promotion_in_order }
    ensures reader_promoted_past_a_writer { IsLegal (with_reply 9 Clear promotion_in_order) → ⊥ }
    ensures intentions { IsLegal intentions }
    ensures shared_and_intention { IsLegal (with_reply 4 Waiting intentions) → ⊥ }
    ensures intention_jumps { IsLegal (with_reply 5 (Granted IX) intentions) → ⊥ }
    ensures refusals { IsLegal refusals }
    ensures not_held_before_nothing_asked { IsLegal (with_reply 5 (Refused NotHeld) refusals) → ⊥ }
    ensures number_used_again { IsLegal (with_reply 9 (Began 1) refusals) → ⊥ }
    ensures converts_with_no_transaction { IsLegal (with_reply 12 (Refused NotHeld) refusals) → ⊥ }
    ensures releases_with_no_transaction { IsLegal (with_reply 14 (Refused NotHeld) refusals) → ⊥ }
    ensures aborts_no_transaction { IsLegal (with_reply 15 (Aborted 0) refusals) → ⊥ }
    ensures parent_before_not_held { IsLegal (with_reply 17 (Refused ParentNotHeld) refusals) → ⊥ }
    ensures parent_before_nothing_asked { IsLegal (with_reply 18 (Refused ParentNotHeld) refusals) → ⊥ }
    ensures down_the_tree { IsLegal down_the_tree }
    ensures parent_left_out { IsLegal (with_reply 1 (Granted S) down_the_tree) → ⊥ }
    ensures need_of_share_for_exclusive { IsLegal (with_reply 3 (Granted X) down_the_tree) → ⊥ }
    ensures grandparent_for_parent { IsLegal (with_reply 5 (Granted S) down_the_tree) → ⊥ }
    ensures up_the_tree { IsLegal up_the_tree }
    ensures parent_before_child { IsLegal (with_reply 4 Released up_the_tree) → ⊥ }
    ensures release_kept { IsLegal (with_reply 7 Released up_the_tree) → ⊥ }
    ensures release_promotes { IsLegal release_promotes }
    ensures release_without_promotion { IsLegal (with_reply 6 (Refused IsWaiting) release_promotes) → ⊥ }
    ensures release_of_one { IsLegal release_of_one }
    ensures release_of_both { IsLegal (with_reply 6 (Committed 0) release_of_one) → ⊥ }
    ensures asks_again { IsLegal asks_again }
    ensures sup_left_out { IsLegal (with_reply 2 (Granted S) asks_again) → ⊥ }
    ensures own_lock_in_the_way { IsLegal (with_reply 2 Waiting asks_again) → ⊥ }
    ensures lowered { IsLegal (with_reply 3 (Granted IS) asks_again) → ⊥ }
    ensures converted_though_not_held { IsLegal (with_reply 4 (Granted S) asks_again) → ⊥ }
    ensures conversion_is_one_lock_more { IsLegal (with_reply 7 (Committed 2) asks_again) → ⊥ }
    ensures conversion_first { IsLegal conversion_first }
    ensures conversion_behind_fresh_requests { IsLegal (with_reply 8 Waiting conversion_first) → ⊥ }
    ensures fresh_request_past_a_conversion { IsLegal (with_reply 9 Clear conversion_first) → ⊥ }
    ensures poll_of_an_old_request { IsLegal (with_reply 11 Waiting conversion_first) → ⊥ }
    ensures conversion_at_once { IsLegal conversion_at_once }
    ensures conversion_waits_though_it_fits { IsLegal (with_reply 6 Waiting conversion_at_once) → ⊥ }
    ensures conversion_under_parent { IsLegal conversion_under_parent }
    ensures parent_of_the_old_mode { IsLegal (with_reply 3 (Granted X) conversion_under_parent) → ⊥ }
    ensures parent_not_converted { IsLegal (with_reply 5 (Refused ParentNotHeld) conversion_under_parent) → ⊥ }
    ensures abort_while_waiting { IsLegal abort_while_waiting }
    ensures commit_while_waiting { IsLegal (with_reply 6 (Committed 0) abort_while_waiting) → ⊥ }
    ensures abort_refused { IsLegal (with_reply 7 (Refused IsWaiting) abort_while_waiting) → ⊥ }
    ensures request_counted_as_a_lock { IsLegal (with_reply 7 (Aborted 1) abort_while_waiting) → ⊥ }
    ensures abort_leaves_its_request { IsLegal (with_reply 8 Waiting abort_while_waiting) → ⊥ }
    ensures abort_leaves_its_transaction { IsLegal (with_reply 9 Clear abort_while_waiting) → ⊥ }
    ensures readers_that_convert { IsLegal readers_that_convert }
    ensures deadlock_left { IsLegal (with_reply 5 Waiting readers_that_convert) → ⊥ }
    ensures tested_for_a_mode_before_doom { IsLegal (with_reply 7 (Refused NothingAsked) readers_that_convert) → ⊥ }
    ensures doomed_session_releases { IsLegal (with_reply 8 Released readers_that_convert) → ⊥ }
    ensures doomed_session_commits { IsLegal (with_reply 9 (Committed 1) readers_that_convert) → ⊥ }
    ensures doom_forgotten { IsLegal (with_reply 10 Clear readers_that_convert) → ⊥ }
    ensures victim_loses_its_locks { IsLegal (with_reply 11 (Aborted 0) readers_that_convert) → ⊥ }
    ensures youngest_of_two { IsLegal youngest_of_two }
    ensures asker_doomed { IsLegal (with_reply 7 Deadlock youngest_of_two) → ⊥ }
    ensures youngest_spared { IsLegal (with_reply 8 Waiting youngest_of_two) → ⊥ }
    ensures doomed_session_locks { IsLegal (with_reply 9 (Granted S) youngest_of_two) → ⊥ }
    ensures victim_in_the_way { IsLegal victim_in_the_way }
    ensures waits_though_the_victim_is_gone { IsLegal (with_reply 7 Waiting victim_in_the_way) → ⊥ }
    ensures victim_in_the_queue_spared { IsLegal (with_reply 8 Waiting victim_in_the_way) → ⊥ }
    ensures victim_past_need { IsLegal (with_reply 9 Deadlock victim_in_the_way) → ⊥ }
    ensures conversions_that_meet { IsLegal conversions_that_meet }
    ensures refused_request_waits { IsLegal (with_reply 5 Waiting conversions_that_meet) → ⊥ }
    ensures converting_asker_doomed { IsLegal (with_reply 7 Deadlock conversions_that_meet) → ⊥ }
    ensures circle_through_the_queue { IsLegal circle_through_the_queue }
    ensures place_in_the_queue_left_out { IsLegal (with_reply 8 Waiting circle_through_the_queue) → ⊥ }
    ensures last_of_the_queue_spared { IsLegal (with_reply 9 Deadlock circle_through_the_queue) → ⊥ }
    ensures two_victims { IsLegal two_victims }
    ensures one_victim_only { IsLegal (with_reply 11 Waiting two_victims) → ⊥ }
    ensures first_victim_spared { IsLegal (with_reply 10 Waiting two_victims) → ⊥ }
    ensures begin_beside_others { IsLegal begin_beside_others }
    ensures begin_drops_requests { IsLegal (with_reply 7 Clear begin_beside_others) → ⊥ }
    ensures begin_lifts_dooms { IsLegal (with_reply 8 Clear begin_beside_others) → ⊥ }
    ensures begun_session_waits { IsLegal (with_reply 9 Waiting begin_beside_others) → ⊥ }
    ensures polls { IsLegal polls }
    ensures clear_session_waits { IsLegal (with_reply 2 Waiting polls) → ⊥ }
    ensures holder_waits { IsLegal (with_reply 5 Waiting polls) → ⊥ }
    ensures holder_waits_with_others { IsLegal (with_reply 7 Waiting polls) → ⊥ }
    ensures release_above_another { IsLegal release_above_another }
    ensures child_of_another { IsLegal (with_reply 5 (Refused ChildHeld) release_above_another) → ⊥ }
    ensures child_of_its_own { IsLegal (with_reply 6 Released release_above_another) → ⊥ }
    ensures commit_of_four { IsLegal commit_of_four }
    ensures four_locks_refused { IsLegal (with_reply 5 (Refused TooManyLocks) commit_of_four) → ⊥ }
    ensures four_locks_counted_as_three { IsLegal (with_reply 5 (Committed 3) commit_of_four) → ⊥ }
    ensures conversion_to_the_upper_bound { IsLegal conversion_to_the_upper_bound }
    ensures mode_asked_for_the_upper_bound { IsLegal (with_reply 2 (Granted S) conversion_to_the_upper_bound) → ⊥ }
    ensures conversion_needs_more_of_the_parent { IsLegal conversion_needs_more_of_the_parent }
    ensures parent_not_tested_by_the_target { IsLegal (with_reply 4 (Granted SIX) conversion_needs_more_of_the_parent) → ⊥ }
    ensures parents_on_each_level { IsLegal parents_on_each_level }
    ensures parent_in_another_tree { IsLegal (with_reply 2 (Granted IS) parents_on_each_level) → ⊥ }
    ensures grandparent_in_ix_for_parent_in_is { IsLegal (with_reply 5 (Granted IX) parents_on_each_level) → ⊥ }
    ensures page_in_is_for_a_record_in_x { IsLegal (with_reply 7 (Granted X) parents_on_each_level) → ⊥ }
    ensures releases_promote_one_after_another { IsLegal releases_promote_one_after_another }
    ensures release_promotes_nobody { IsLegal (with_reply 10 Waiting releases_promote_one_after_another) → ⊥ }
    ensures release_promotes_past_the_first { IsLegal (with_reply 11 Clear releases_promote_one_after_another) → ⊥ }
    ensures begins_again { IsLegal begins_again }
    ensures begun_twice { IsLegal (with_reply 4 (Began 3) begins_again) → ⊥ }
    ensures begin_tested_for_waiting { IsLegal (with_reply 5 (Refused IsWaiting) begins_again) → ⊥ }
    ensures refused_begins_take_numbers { IsLegal (with_reply 7 (Began 5) begins_again) → ⊥ }
    ensures polls_again { IsLegal polls_again }
    ensures doom_reported_once { IsLegal (with_reply 11 Clear polls_again) → ⊥ }
    ensures poll_ends_a_wait { IsLegal (with_reply 8 Clear polls_again) → ⊥ }
    ensures circle_of_five { IsLegal circle_of_five }
    ensures asker_of_five_doomed { IsLegal (with_reply 14 Deadlock circle_of_five) → ⊥ }
    ensures circle_of_five_left { IsLegal (with_reply 15 Waiting circle_of_five) → ⊥ }
    ensures three_victims { IsLegal three_victims }
    ensures two_victims_only { IsLegal (with_reply 14 Waiting three_victims) → ⊥ }
    ensures beside_the_circle { IsLegal beside_the_circle }
    ensures younger_one_that_is_only_reached { IsLegal (with_reply 14 Deadlock beside_the_circle) → ⊥ }
    ensures younger_one_that_only_leads_to_the_asker { IsLegal (with_reply 15 Deadlock beside_the_circle) → ⊥ }
    ensures tries { IsLegal tries }
    ensures try_before_the_transaction { IsLegal (with_reply 2 (Refused WouldWait) tries) → ⊥ }
    ensures try_waits { IsLegal (with_reply 6 Waiting tries) → ⊥ }
    ensures try_past_a_holder { IsLegal (with_reply 6 (Granted X) tries) → ⊥ }
    ensures try_leaves_its_request { IsLegal (with_reply 7 Waiting tries) → ⊥ }
    ensures try_past_the_queue { IsLegal (with_reply 11 (Granted S) tries) → ⊥ }
    ensures try_lowers { IsLegal (with_reply 14 (Granted IS) tries) → ⊥ }
    ensures try_closes_no_circle { IsLegal try_closes_no_circle }
    ensures try_chooses_a_victim { IsLegal (with_reply 6 Deadlock try_closes_no_circle) → ⊥ }
    ensures doomed_session_tries { IsLegal (with_reply 9 (Granted S) try_closes_no_circle) → ⊥ }
    ensures doomed_session_withdraws { IsLegal (with_reply 10 (Refused NotWaiting) try_closes_no_circle) → ⊥ }
    ensures withdrawals { IsLegal withdrawals }
    ensures withdrawal_before_the_transaction { IsLegal (with_reply 0 (Refused NotWaiting) withdrawals) → ⊥ }
    ensures withdrawal_without_promotion { IsLegal (with_reply 12 Waiting withdrawals) → ⊥ }
    ensures withdrawal_past_a_promotion { IsLegal (with_reply 13 Clear withdrawals) → ⊥ }
    ensures withdrawal_leaves_its_request { IsLegal (with_reply 14 Waiting withdrawals) → ⊥ }
    ensures withdrawal_of_nothing { IsLegal (with_reply 15 Withdrawn withdrawals) → ⊥ }
    ensures withdrawal_ends_the_transaction { IsLegal (with_reply 18 (Refused NoTransaction) withdrawals) → ⊥ }
    ensures withdrawal_of_the_lock { IsLegal (with_reply 21 (Refused NotHeld) withdrawals) → ⊥ }
    ensures withdrawal_from_the_midst { IsLegal withdrawal_from_the_midst }
    ensures withdrawal_grants_behind_the_front { IsLegal (with_reply 9 Clear withdrawal_from_the_midst) → ⊥ }
    ensures withdrawal_takes_another_request { IsLegal (with_reply 10 Clear withdrawal_from_the_midst) → ⊥ }
    ensures withdrawal_too_late { IsLegal withdrawal_too_late }
    ensures withdrawal_of_what_was_granted { IsLegal (with_reply 5 Withdrawn withdrawal_too_late) → ⊥ }
{}
