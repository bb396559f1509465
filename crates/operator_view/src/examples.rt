// Worked examples of what is meant, computed by the check: a definition that changes one is refused.
ghost use Rattle.std.specs.Prelude.{◌≡◌, ◌∷◌, [], ◌++◌, Some, None, IsTrue, codes, true, false};
ghost use Rattle.async_core.specs.declared.choice.Side.TheVariants as side;
ghost use Rattle.invoke_records.specs.declared.row.Standing.TheVariants.{Ended, Running, Waiting};
ghost use Rattle.invoke_records.specs.declared.row.Outcome.TheVariants.{Success};
ghost use Rattle.destination_json.specs.Examples.{id, usual};
ghost use Rattle.destination_json.specs.Json.{is_json};
ghost use Rattle.operator_view.specs.declared.standings.Which.TheVariants as which;
ghost use Rattle.operator_view.specs.Census.{ends};
ghost use Rattle.operator_view.specs.Tally.{IsTally};
ghost use Rattle.operator_view.specs.EventText.{event_text, detail_text, whole_characters, record_json};
ghost use Rattle.operator_view.specs.ListText.{list_text};
ghost use Rattle.operator_view.specs.Page.{start_behind, event_places, number_behind, record_places, last_id};
ghost use Rattle.operator_view.specs.declared.problem.Problem.TheVariants as problem;
ghost use Rattle.operator_view.specs.Memory.{none_at, looked, lately, quiet_after};
ghost use Rattle.operator_view.specs.Sights.{usual_growth, well, holding, quiet, jumped, all_but, backlog, hanging, but_lately, tried, committed, nothing, short_lived, looks};
ghost use Rattle.operator_view.specs.Verdict.{disk_hangs, clock_is_behind, clock_is_held_back, events_expired_by_a_jump, environment_hangs, all_busy, backlog_grows, callers_are_refused, nobody_polls, nothing_ends, table_full, table_nearly_full, events_expire, most_attempts_fail, commits_are_slow, records_not_collected, problems};
ghost use Rattle.operator_view.specs.Waiting.{expires_soon};
ghost use Rattle.operator_view.specs.Examples.{event_row, rows, tallied, running_text, page_text, grown_old, grown_old_text};

/// Known numbers.
pub fn numbers()
    // claim: The prover computes worked numbers, places, texts and verdicts. [: tally; events: behind; records:
    // behind; texts: page; verdicts: quiet; memories: kept]
    ensures tally { IsTally rows 8000 tallied }
    ensures ends { ends rows ≡ 6500 ∷ 5500 ∷ 7000 ∷ [] }
{}

/// Known places: of the events that are asked for, and of those behind one of them.
pub fn events()
    ensures waiting { event_places which.Waiting 0 rows ≡ 2 ∷ 4 ∷ [] }
    ensures failure { event_places which.Failure 0 rows ≡ 3 ∷ 5 ∷ [] }
    ensures from { start_behind None rows ≡ Some 0 }
    ensures behind { start_behind (Some (id 3)) rows ≡ Some 3 }
    ensures collected { start_behind (Some (id 7)) rows ≡ None }
    ensures rest { event_places which.All 3 rows ≡ 3 ∷ 4 ∷ 5 ∷ [] }
    ensures last { last_id rows (2 ∷ 4 ∷ []) ≡ Some (id 5) }
    ensures none { last_id rows [] ≡ None }
{}

/// Known places of the events that ended.
pub fn records()
    ensures all { record_places None None rows ≡ 0 ∷ 3 ∷ 5 ∷ [] }
    ensures success { record_places (Some side.Success) None rows ≡ 0 ∷ [] }
    ensures behind { number_behind None (Some (id 4)) rows ≡ Some (Some 7) }
    ensures rest { record_places None (Some 7) rows ≡ 0 ∷ 5 ∷ [] }
    ensures elsewhere { number_behind (Some side.Success) (Some (id 4)) rows ≡ None }
    ensures not_ended { number_behind None (Some (id 2)) rows ≡ None }
    ensures collected { number_behind None (Some (id 7)) rows ≡ None }
{}

/// Known texts.
pub fn texts()
    ensures running { event_text (event_row 2 6 (Running 1 5000)) ≡ running_text }
    ensures page { list_text rows (1 ∷ 4 ∷ []) (Some (id 5)) ≡ page_text }
    ensures page_is_json { IsTrue (is_json page_text) }
    ensures empty { list_text rows [] None ≡ codes "{\"events\":[],\"next\":null}" }
    ensures grown_old { detail_text usual grown_old ≡ grown_old_text }
    ensures grown_old_is_json { IsTrue (is_json grown_old_text) }
    ensures no_record { record_json usual (event_row 3 3 (Waiting 3000)) ≡ codes "null" }
    ensures no_stamp { record_json usual (event_row 3 3 (Ended Success 253402300800000)) ≡ codes "null" }
    ensures cut { whole_characters (97 ∷ 195 ∷ []) ≡ codes "a" }
    ensures whole { whole_characters (97 ∷ 195 ∷ 169 ∷ []) ≡ 97 ∷ 195 ∷ 169 ∷ [] }
{}

/// Known verdicts: none of a broker that is well, and one at the other side of each bound.
pub fn verdicts()
    ensures well { problems well ≡ nothing }
    ensures hangs { disk_hangs (record well { flush_seconds = 5 }) ≡ Some (problem.DiskHangs 5) }
    ensures behind { clock_is_behind (record well { last_moment = 1005001 }) ≡ Some (problem.ClockIsBehind 5) }
    ensures behind_and_held { clock_is_behind (record well { last_moment = 1005001; held_ahead = 1 }) ≡ None }
    ensures held_back { clock_is_held_back (record well { held_ahead = 7200000; held_left = 59999 }) ≡ Some (problem.ClockIsHeldBack 7200 59) }
    ensures jumped { events_expired_by_a_jump (jumped 1 3000 4) ≡ Some (problem.EventsExpiredByAJump 4 1 3 200) }
    ensures back { events_expired_by_a_jump (jumped 1 0 4) ≡ None }
    ensures and_back { events_expired_by_a_jump (jumped 2 0 4) ≡ Some (problem.EventsExpiredByAJump 4 2 0 200) }
    ensures long_ago { events_expired_by_a_jump (jumped 0 3000 4) ≡ None }
    ensures gone { environment_hangs (hanging 60001 60000) ≡ Some (problem.EnvironmentHangs 2 60 0) }
    ensures runs_on { environment_hangs (hanging 60000 60001) ≡ Some (problem.EnvironmentHangs 2 0 60) }
    ensures all_are_gone { environment_hangs (record (hanging 60001 0) { without_poll = 2 }) ≡ None }
    ensures all_are_slow { environment_hangs (record (hanging 0 60001) { environments = 5 }) ≡ None }
    ensures all_busy { all_busy (all_but 2 989999) ≡ Some (problem.AllBusy 2 1 1 10) }
    ensures one_free { all_busy (all_but 1 0) ≡ None }
    ensures busy_for_a_moment { all_busy (all_but 2 990000) ≡ None }
    ensures grows { backlog_grows (backlog 19 879999) ≡ Some (problem.BacklogGrows 20 19 120 200) }
    ensures shrinks { backlog_grows (backlog 20 0) ≡ None }
    ensures young_backlog { backlog_grows (backlog 0 880000) ≡ None }
    ensures refused { callers_are_refused (but_lately (record usual_growth { refused_full = 1 })) ≡ Some (problem.CallersAreRefused 1 0 200) }
    ensures busy { callers_are_refused (but_lately (record usual_growth { refused_busy = 1 })) ≡ Some (problem.CallersAreRefused 0 1 200) }
    ensures unpolled { nobody_polls (record well { without_poll = 1 }) ≡ Some (problem.NobodyPolls 1 2 1) }
    ensures quiet { nothing_ends (quiet 9001) ≡ Some (problem.NothingEnds 9 1 3 30) }
    ensures just_due { nothing_ends (record (quiet 9001) { first_due = Some 991000 }) ≡ None }
    ensures none_due { nothing_ends (record (quiet 9001) { first_due = None }) ≡ None }
    ensures four_fifths { table_nearly_full (holding 52) ≡ Some (problem.TableNearlyFull 52 64 7) }
    ensures nearly { table_nearly_full (holding 63) ≡ Some (problem.TableNearlyFull 63 64 7) }
    ensures not_full { table_full (holding 63) ≡ None }
    ensures full { table_full (holding 64) ≡ Some (problem.TableFull 64 64 7) }
    ensures not_nearly { table_nearly_full (holding 64) ≡ None }
    ensures expiring { events_expire (record well { expiring = 1 }) ≡ Some (problem.EventsExpire 1 0 200) }
    ensures expired { events_expire (but_lately (record usual_growth { expired = 1 })) ≡ Some (problem.EventsExpire 0 1 200) }
    ensures failing { most_attempts_fail (tried 15 16) ≡ Some (problem.MostAttemptsFail 16 15 200) }
    ensures few_fail { most_attempts_fail (tried 0 4) ≡ None }
    ensures five_fail { most_attempts_fail (tried 0 5) ≡ Some (problem.MostAttemptsFail 5 0 200) }
    ensures slow { commits_are_slow (committed 100 10000000 100) ≡ Some (problem.CommitsAreSlow 100 10000000 0 200) }
    ensures late { commits_are_slow (committed 100 0 95) ≡ Some (problem.CommitsAreSlow 100 0 5 200) }
    ensures few_slow { commits_are_slow (committed 4 9000000 0) ≡ None }
    ensures five_slow { commits_are_slow (committed 5 9000000 0) ≡ Some (problem.CommitsAreSlow 5 9000000 5 200) }
    ensures uncollected { records_not_collected (record well { oldest_record_age = Some 900001 }) ≡ Some (problem.RecordsNotCollected 7 900) }
    ensures none_held { records_not_collected (record well { oldest_record_age = None }) ≡ None }
{}

/// Known looks, at both sides of each bound.
pub fn memories()
    ensures young { expires_soon 50999 short_lived ≡ false }
    ensures old { expires_soon 51000 short_lived ≡ true }
    ensures kept { looked (looks 0 1000) (none_at 150999) ≡ looks 0 1000 }
    ensures replaced { (looked (looks 0 1000) (none_at 151000)).newer ≡ none_at 151000 }
    ensures recent { (lately (looks 0 1000) (none_at 600000)).seconds ≡ 600 }
    ensures stale { (lately (looks 0 1000) (none_at 600001)).seconds ≡ 599 }
    ensures quiet { quiet_after (looks 0 1000) (none_at 5000) ≡ 0 }
    ensures ended { quiet_after (looks 0 1000) (record (none_at 5000) { ended = 1 }) ≡ 5000 }
{}
