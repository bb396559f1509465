// Worked examples of what is meant, computed by the check: a definition that changes one is refused.
ghost use Rattle.std.specs.Prelude.{◌≡◌, ◌∷◌, [], codes, Ok, Err, Some, None, true, false};
ghost use Rattle.destination_json.specs.Examples.{usual, id, grown_old, grown_old_text, exhausted, timed_out};
ghost use Rattle.api_core.specs.Unanswered.{ending_told};
ghost use Rattle.api_core.specs.Examples.{with_header, of_type, event, identified, third, named, small, caller_asks_aws, tells_too_much, too_large_text};
ghost use Rattle.api_core.specs.Examples.{on, asks, invoke_as, invoke_with, invoke, tells_in, tells, register, nested};
ghost use Rattle.api_core.specs.Examples.{empty_reply, json_reply, accepted_headers, registered_headers, next_headers};
ghost use Rattle.api_core.specs.Examples.{refusal, error_reply, invoke_aws, asks_aws, accepting, refusal_aws, service_reply, account_text, configuration_shown, function_shown, not_ended_headers, tried_then_old, with_answer, waited_text};
ghost use Rattle.api_core.specs.declared.dialect.Dialect.TheVariants.{Profile, Aws};
ghost use Rattle.api_core.specs.Examples.{registered_text, invoked_text, spindown_text, timeout_text, failure_text, not_found_text};
ghost use Rattle.api_core.specs.Replies.{reply_of_told, accepted, accepted_async, record_of, no_record, deleted, not_ended, table_full, described, taken, registered};
ghost use Rattle.api_core.specs.Replies.{runtime_event, invoke_event, shutdown_event, not_supported, refused, with_request_id};

use crate::{Audience, Call, Description, Dialect, Refusal, ShutdownReason, Stream};
use async_core::Side;

/// One of each line of the table of requests.
pub fn requests()
    // claim: The prover computes worked requests and replies in both dialects. [: invoke; bodies: nine; replies: next;
    // refusals_aws: not_found]
    ensures invoke { invoke (codes "[1]") ≡ Ok (Call.Invoke (codes "[1]")) }
    ensures oldest_success { asks 0 "GET" "/broker/destinations/success" ≡ Ok (Call.Oldest Side.Success) }
    ensures oldest_failure { asks 0 "GET" "/broker/destinations/failure" ≡ Ok (Call.Oldest Side.Failure) }
    ensures delete { asks 0 "DELETE" "/broker/destinations/00000000-0000-4000-8000-000000000003" ≡ Ok (Call.Delete (Some (id 3))) }
    ensures stop { asks 0 "POST" "/broker/stop" ≡ Ok Call.StopBroker }
    ensures runtime_next { asks 1 "GET" "/2018-06-01/runtime/invocation/next" ≡ Ok (Call.RuntimeNext 1) }
    ensures response { tells "/response" (codes "ok") ≡ Ok (Call.Response 1 (Some (id 3)) (codes "ok")) }
    ensures runtime_error { tells "/error" (codes "{") ≡ Ok (Call.RuntimeError 1 (Some (id 3)) (codes "{")) }
    ensures runtime_init_error { on 1 "POST" "/2018-06-01/runtime/init/error" [] (codes "why") ≡ Ok (Call.RuntimeInitError 1) }
    ensures register { register (codes "{\"events\":[\"INVOKE\",\"SHUTDOWN\"]}") ≡ Ok (Call.Register 1 (codes "my-extension") true true false) }
    ensures extension_next { on 1 "GET" "/2020-01-01/extension/event/next" third [] ≡ Ok (Call.ExtensionNext 1 (id 3)) }
    ensures extension_init_error { on 1 "POST" "/2020-01-01/extension/init/error" third [] ≡ Ok (Call.ExtensionInitError 1 (id 3)) }
    ensures extension_exit_error { on 1 "POST" "/2020-01-01/extension/exit/error" third [] ≡ Ok (Call.ExtensionExitError 1 (id 3)) }
{}

/// Names of the function, and qualifiers.
pub fn functions()
    ensures escaped { invoke_as "my-function%3A%24LATEST" "" ≡ Ok (Call.Invoke (codes "{}")) }
    ensures plain { invoke_as "my-function:$LATEST" "" ≡ Ok (Call.Invoke (codes "{}")) }
    ensures arn { invoke_as "arn:aws:lambda:us-east-2:123456789012:function:my-function" "" ≡ Ok (Call.Invoke (codes "{}")) }
    ensures version { invoke_as "arn:aws:lambda:us-east-2:123456789012:function:my-function:$LATEST" "" ≡ Ok (Call.Invoke (codes "{}")) }
    ensures other { invoke_as "other" "" ≡ Err Refusal.NotFound }
    ensures other_version { invoke_as "my-function:1" "" ≡ Err Refusal.NotFound }
    ensures no_name { invoke_as "" "" ≡ Err Refusal.NotFound }
    ensures qualified { invoke_as "my-function" "?x=1&Qualifier=%24LATEST" ≡ Ok (Call.Invoke (codes "{}")) }
    ensures other_qualifier { invoke_as "my-function" "?Qualifier=1" ≡ Err Refusal.NotFound }
    ensures second_qualifier { invoke_as "my-function" "?Qualifier=$LATEST&Qualifier=1" ≡ Err Refusal.NotFound }
    ensures other_pairs { invoke_as "my-function" "?qualifier=1&&=" ≡ Ok (Call.Invoke (codes "{}")) }
{}

/// Which line a path and a method have: the path is judged first, and a port has its own lines.
pub fn lines()
    ensures other_port { on 1 "POST" "/2015-03-31/functions/my-function/invocations" event [] ≡ Err Refusal.NotFound }
    ensures callers_port { asks 0 "GET" "/2018-06-01/runtime/invocation/next" ≡ Err Refusal.NotFound }
    ensures no_environment { asks 2 "GET" "/2018-06-01/runtime/invocation/next" ≡ Err Refusal.NotFound }
    ensures wrong_method { on 0 "GET" "/2015-03-31/functions/my-function/invocations" event [] ≡ Err Refusal.MethodNotAllowed }
    ensures method_before_function { asks 0 "GET" "/2015-03-31/functions/other/invocations" ≡ Err Refusal.MethodNotAllowed }
    ensures lower_case { asks 0 "post" "/broker/stop" ≡ Err Refusal.MethodNotAllowed }
    ensures delete_success { asks 0 "DELETE" "/broker/destinations/success" ≡ Ok (Call.Delete None) }
    ensures post_success { asks 0 "POST" "/broker/destinations/success" ≡ Err Refusal.MethodNotAllowed }
    ensures no_id { asks 0 "DELETE" "/broker/destinations/x" ≡ Ok (Call.Delete None) }
    ensures get_of_an_id { asks 0 "GET" "/broker/destinations/x" ≡ Err Refusal.MethodNotAllowed }
    ensures no_id_of_an_attempt { asks 1 "POST" "/2018-06-01/runtime/invocation/next/response" ≡ Ok (Call.Response 1 None []) }
    ensures bad_escape { asks 1 "POST" "/2018-06-01/runtime/invocation/%zz/response" ≡ Ok (Call.Response 1 None []) }
{}

/// Segments: each is decoded by itself, and none is left out.
pub fn segments()
    ensures escaped { asks 0 "POST" "/%62roker/stop?x" ≡ Ok Call.StopBroker }
    ensures bad_escape { asks 0 "POST" "/%6roker/stop" ≡ Err Refusal.NotFound }
    ensures escaped_slash { asks 0 "POST" "/broker%2Fstop" ≡ Err Refusal.NotFound }
    ensures last_slash { asks 0 "POST" "/broker/stop/" ≡ Err Refusal.NotFound }
    ensures two_slashes { asks 0 "POST" "/broker//stop" ≡ Err Refusal.NotFound }
    ensures no_slash { asks 0 "POST" "broker/stop" ≡ Err Refusal.NotFound }
    ensures one_more { asks 0 "POST" "/broker/stop/now" ≡ Err Refusal.NotFound }
    ensures empty_id { asks 0 "DELETE" "/broker/destinations/" ≡ Err Refusal.NotFound }
    ensures empty_attempt { asks 1 "POST" "/2018-06-01/runtime/invocation//response" ≡ Err Refusal.NotFound }
    ensures root { asks 0 "GET" "/" ≡ Err Refusal.NotFound }
    ensures empty { asks 0 "GET" "" ≡ Err Refusal.NotFound }
{}

/// Headers, which are judged before the body.
pub fn headers()
    ensures no_type { invoke_with usual [] [] ≡ Err Refusal.UnsupportedInvocationType }
    ensures other_type { invoke_with usual (of_type "RequestResponse") (codes "{") ≡ Err Refusal.UnsupportedInvocationType }
    ensures lower_case { invoke_with usual (of_type "event") [] ≡ Err Refusal.UnsupportedInvocationType }
    ensures before_size { invoke_with small [] (codes "\"aaaaaaa\"") ≡ Err Refusal.UnsupportedInvocationType }
    ensures after_function { asks 0 "POST" "/2015-03-31/functions/other/invocations" ≡ Err Refusal.NotFound }
    ensures others { invoke_with usual (with_header "x-amz-log-type" "Tail" event) [] ≡ Ok (Call.Invoke (codes "{}")) }
    ensures no_name { on 1 "POST" "/2020-01-01/extension/register" [] (codes "[") ≡ Err Refusal.InvalidExtensionHeader }
    ensures a_space { on 1 "POST" "/2020-01-01/extension/register" (named "my extension") [] ≡ Err Refusal.InvalidExtensionHeader }
    ensures empty_name { on 1 "POST" "/2020-01-01/extension/register" (named "") [] ≡ Err Refusal.InvalidExtensionHeader }
    ensures no_identifier { asks 1 "GET" "/2020-01-01/extension/event/next" ≡ Err Refusal.InvalidExtensionHeader }
    ensures no_id { on 1 "GET" "/2020-01-01/extension/event/next" (identified "x") [] ≡ Err Refusal.InvalidExtensionHeader }
{}

/// Bodies: their size is judged first, then what they say.
pub fn bodies()
    ensures eight { invoke_with small event (codes "\"aaaaaa\"") ≡ Ok (Call.Invoke (codes "\"aaaaaa\"")) }
    ensures nine { invoke_with small event (codes "\"aaaaaaa\"") ≡ Err Refusal.TooLarge }
    ensures size_before_content { invoke_with small event (codes "{{{{{{{{{") ≡ Err Refusal.TooLarge }
    ensures not_json { invoke (codes "{") ≡ Err Refusal.InvalidRequestContent }
    ensures not_text { invoke (34 ∷ 255 ∷ 34 ∷ []) ≡ Err Refusal.InvalidRequestContent }
    ensures white_space { invoke (codes " ") ≡ Err Refusal.InvalidRequestContent }
    ensures empty { invoke [] ≡ Ok (Call.Invoke (codes "{}")) }
    ensures shallow { invoke (nested 3) ≡ Ok (Call.Invoke (nested 3)) }
    ensures deepest { invoke (nested 127) ≡ Ok (Call.Invoke (nested 127)) }
    ensures too_deep { invoke (nested 128) ≡ Err Refusal.InvalidRequestContent }
    ensures unclosed { invoke (codes "[[]") ≡ Err Refusal.InvalidRequestContent }
    ensures response_of_eight { tells_in small "/response" (codes "aaaaaaaa") ≡ Ok (Call.Response 1 (Some (id 3)) (codes "aaaaaaaa")) }
    ensures response_of_nine { tells_in small "/response" (codes "aaaaaaaaa") ≡ Err Refusal.TooLarge }
    ensures error_of_nine { tells_in small "/error" (codes "aaaaaaaaa") ≡ Err Refusal.TooLarge }
    ensures empty_response { tells "/response" [] ≡ Ok (Call.Response 1 (Some (id 3)) []) }
{}

/// What an extension subscribes to.
pub fn registrations()
    ensures nothing { register [] ≡ Ok (Call.Register 1 (codes "my-extension") false false false) }
    ensures no_events { register (codes "{\"a\":1}") ≡ Ok (Call.Register 1 (codes "my-extension") false false false) }
    ensures none { register (codes "{\"events\":[]}") ≡ Ok (Call.Register 1 (codes "my-extension") false false false) }
    ensures shutdown { register (codes "{\"events\":[\"SHUTDOWN\"],\"x\":{}}") ≡ Ok (Call.Register 1 (codes "my-extension") false true false) }
    ensures twice { register (codes "{\"events\":[\"INVOKE\",\"INVOKE\"]}") ≡ Ok (Call.Register 1 (codes "my-extension") true false false) }
    ensures last { register (codes "{\"events\":[],\"events\":[\"INVOKE\"]}") ≡ Ok (Call.Register 1 (codes "my-extension") true false false) }
    ensures unknown { register (codes "{\"events\":[\"INVOKE\",\"x\"]}") ≡ Err Refusal.BadSubscription }
    ensures lower_case { register (codes "{\"events\":[\"invoke\"]}") ≡ Err Refusal.BadSubscription }
    ensures no_list { register (codes "{\"events\":\"INVOKE\"}") ≡ Err Refusal.BadSubscription }
    ensures null_events { register (codes "{\"events\":null}") ≡ Err Refusal.BadSubscription }
    ensures no_object { register (codes "[\"INVOKE\"]") ≡ Err Refusal.BadSubscription }
    ensures no_json { register (codes "{") ≡ Err Refusal.BadSubscription }
{}

/// The replies of the table of requests.
pub fn replies()
    ensures accepted { reply_of_told Profile usual (accepted (id 1)) ≡ empty_reply 202 accepted_headers }
    ensures oldest { reply_of_told Profile usual (record_of grown_old) ≡ json_reply 200 [] grown_old_text }
    ensures no_record { reply_of_told Profile usual no_record ≡ empty_reply 204 [] }
    ensures deleted { reply_of_told Profile usual (deleted (id 1)) ≡ empty_reply 204 [] }
    ensures taken { reply_of_told Profile usual taken ≡ json_reply 202 [] (codes "{\"status\":\"OK\"}") }
    ensures registered { reply_of_told Profile usual (registered (id 3) false) ≡ json_reply 200 registered_headers registered_text }
    ensures next { reply_of_told Profile usual (runtime_event (id 1) 1573755368568 (codes "{}")) ≡ json_reply 200 next_headers (codes "{}") }
    ensures invoke { reply_of_told Profile usual (invoke_event (id 1) 1573755368568) ≡ json_reply 200 [] invoked_text }
    ensures spindown { reply_of_told Profile usual (shutdown_event ShutdownReason.Spindown 2000) ≡ json_reply 200 [] spindown_text }
    ensures timeout { reply_of_told Profile usual (shutdown_event ShutdownReason.Timeout 2000) ≡ json_reply 200 [] timeout_text }
    ensures failure { reply_of_told Profile usual (shutdown_event ShutdownReason.Failure 2000) ≡ json_reply 200 [] failure_text }
{}

/// The replies that refuse.
pub fn refusals()
    ensures whole { refusal Refusal.NotFound ≡ json_reply 404 [] not_found_text }
    ensures mode { refusal Refusal.UnsupportedInvocationType ≡ error_reply 400 "UnsupportedInvocationType" "only Event is supported" }
    ensures no_json { refusal Refusal.InvalidRequestContent ≡ error_reply 400 "InvalidRequestContent" "payload is not JSON" }
    ensures no_attempt { refusal Refusal.InvalidRequestId ≡ error_reply 400 "InvalidRequestID" "no such request is running here" }
    ensures bad { refusal Refusal.InvalidExtensionHeader ≡ error_reply 400 "InvalidExtensionHeader" "missing or bad extension header" }
    ensures bad_subscription { refusal Refusal.BadSubscription ≡ error_reply 400 "BadSubscription" "events must be INVOKE or SHUTDOWN" }
    ensures unknown_extension { refusal Refusal.UnknownExtension ≡ error_reply 403 "UnknownExtension" "extension is not registered" }
    ensures registration_closed { refusal Refusal.RegistrationClosed ≡ error_reply 403 "RegistrationClosed" "registration is closed" }
    ensures too_many_extensions { refusal Refusal.TooManyExtensions ≡ error_reply 403 "TooManyExtensions" "at most 10 extensions" }
    ensures wrong_phase { refusal Refusal.WrongPhase ≡ error_reply 403 "WrongPhase" "not allowed in this phase" }
    ensures not_found { refusal Refusal.NotFound ≡ error_reply 404 "NotFound" "no such path or function" }
    ensures unknown_event { refusal Refusal.UnknownEvent ≡ error_reply 404 "UnknownEvent" "no such event is held" }
    ensures method_not_allowed { refusal Refusal.MethodNotAllowed ≡ error_reply 405 "MethodNotAllowed" "method not allowed" }
    ensures replaced { refusal Refusal.Replaced ≡ error_reply 409 "Replaced" "a newer poll took this place" }
    ensures not_ended { refusal Refusal.NotEnded ≡ error_reply 409 "NotEnded" "event has not ended" }
    ensures too_large { refusal Refusal.TooLarge ≡ error_reply 413 "TooLarge" "body is too large" }
    ensures too_many_events { refusal Refusal.TooManyEvents ≡ error_reply 429 "TooManyEvents" "table is full" }
    ensures environment_reset { refusal Refusal.EnvironmentReset ≡ error_reply 500 "EnvironmentReset" "environment was reset" }
    ensures id_in_use { refusal Refusal.IdInUse ≡ error_reply 500 "IdInUse" "drawn id is in use" }
    ensures unavailable { refusal Refusal.Unavailable ≡ error_reply 503 "Unavailable" "broker is not available" }
{}

/// What a request is in the dialect of AWS that is another in the other one.
pub fn requests_aws()
    ensures of_account { invoke_aws "123456789012:function:my-function" ≡ Ok (Call.Invoke (codes "{}")) }
    ensures of_account_version { invoke_aws "123456789012:function:my-function:$LATEST" ≡ Ok (Call.Invoke (codes "{}")) }
    ensures short { invoke_aws "function:my-function" ≡ Ok (Call.Invoke (codes "{}")) }
    ensures short_version { invoke_aws "function:my-function:%24LATEST" ≡ Ok (Call.Invoke (codes "{}")) }
    ensures whole { invoke_aws "arn:aws:lambda:us-east-2:123456789012:function:my-function" ≡ Ok (Call.Invoke (codes "{}")) }
    ensures other_account { invoke_aws "123456789013:function:my-function" ≡ Err Refusal.NotFound }
    ensures other_version { invoke_aws "123456789012:function:my-function:1" ≡ Err Refusal.NotFound }
    ensures no_account { invoke_aws ":function:my-function" ≡ Err Refusal.NotFound }
    ensures in_profile { invoke_as "function:my-function" "" ≡ Err Refusal.NotFound }
    ensures name_of_account { invoke_aws "123456789012:my-function" ≡ Ok (Call.Invoke (codes "{}")) }
    ensures name_of_other_account { invoke_aws "123456789013:my-function" ≡ Err Refusal.NotFound }
    ensures invoke_async { caller_asks_aws "POST" "/2014-11-13/functions/my-function/invoke-async/" [] ≡ Ok (Call.InvokeAsync (codes "{}")) }
    ensures invoke_async_of_models { caller_asks_aws "POST" "/2014-11-13/functions/my-function/invoke-async" [] ≡ Ok (Call.InvokeAsync (codes "{}")) }
    ensures invoke_async_of_other { caller_asks_aws "POST" "/2014-11-13/functions/other/invoke-async/" [] ≡ Err Refusal.NotFound }
    ensures invoke_async_in_profile { asks 0 "POST" "/2014-11-13/functions/my-function/invoke-async/" ≡ Err Refusal.NotFound }
    ensures dry_run { caller_asks_aws "POST" "/2015-03-31/functions/my-function/invocations" (of_type "DryRun") ≡ Ok (Call.Describe Description.DryRun) }
    ensures dry_run_in_profile { invoke_with usual (of_type "DryRun") [] ≡ Err Refusal.UnsupportedInvocationType }
    ensures function { caller_asks_aws "GET" "/2015-03-31/functions/my-function" [] ≡ Ok (Call.Describe Description.Function) }
    ensures configuration { caller_asks_aws "GET" "/2015-03-31/functions/my-function/configuration" [] ≡ Ok (Call.Describe Description.Configuration) }
    ensures other_function { caller_asks_aws "GET" "/2015-03-31/functions/other" [] ≡ Err Refusal.NotFound }
    ensures function_in_profile { asks 0 "GET" "/2015-03-31/functions/my-function" ≡ Err Refusal.NotFound }
    ensures too_large { tells_too_much Aws usual ≡ Ok (Call.RuntimeError 1 (Some (id 3)) too_large_text) }
    ensures too_large_in_profile { tells_too_much Profile usual ≡ Err Refusal.TooLarge }
    ensures too_small_for_that { tells_too_much Aws small ≡ Err Refusal.TooLarge }
    ensures telemetry { asks_aws "PUT" "/2022-07-01/telemetry" [] ≡ Ok (Call.Subscribe 1 Stream.Telemetry) }
    ensures logs { asks_aws "PUT" "/2020-08-15/logs" [] ≡ Ok (Call.Subscribe 1 Stream.Logs) }
    ensures telemetry_get { asks_aws "GET" "/2022-07-01/telemetry" [] ≡ Err Refusal.MethodNotAllowed }
    ensures telemetry_in_profile { asks 1 "PUT" "/2022-07-01/telemetry" ≡ Err Refusal.NotFound }
    ensures accepts { asks_aws "POST" "/2020-01-01/extension/register" (accepting "accountId") ≡ Ok (Call.Register 1 (codes "my-extension") false false true) }
    ensures among { asks_aws "POST" "/2020-01-01/extension/register" (accepting "x, accountId ,y") ≡ Ok (Call.Register 1 (codes "my-extension") false false true) }
    ensures other_feature { asks_aws "POST" "/2020-01-01/extension/register" (accepting "accountid") ≡ Ok (Call.Register 1 (codes "my-extension") false false false) }
    ensures accepts_in_profile { on 1 "POST" "/2020-01-01/extension/register" (accepting "accountId") [] ≡ Ok (Call.Register 1 (codes "my-extension") false false false) }
{}

/// What a reply is in the dialect of AWS that is another in the other one.
pub fn replies_aws()
    ensures account { reply_of_told Aws usual (registered (id 3) true) ≡ json_reply 200 registered_headers account_text }
    ensures no_account { reply_of_told Aws usual (registered (id 3) false) ≡ json_reply 200 registered_headers registered_text }
    ensures account_in_profile { reply_of_told Profile usual (registered (id 3) true) ≡ json_reply 200 registered_headers registered_text }
    ensures spindown { reply_of_told Aws usual (shutdown_event ShutdownReason.Spindown 2000) ≡ json_reply 200 [] (codes "{\"eventType\":\"SHUTDOWN\",\"shutdownReason\":\"spindown\",\"deadlineMs\":2000}") }
    ensures timeout { reply_of_told Aws usual (shutdown_event ShutdownReason.Timeout 2000) ≡ json_reply 200 [] (codes "{\"eventType\":\"SHUTDOWN\",\"shutdownReason\":\"timeout\",\"deadlineMs\":2000}") }
    ensures failure { reply_of_told Aws usual (shutdown_event ShutdownReason.Failure 2000) ≡ json_reply 200 [] (codes "{\"eventType\":\"SHUTDOWN\",\"shutdownReason\":\"failure\",\"deadlineMs\":2000}") }
    ensures accepted_async { reply_of_told Aws usual (accepted_async (id 1)) ≡ json_reply 202 accepted_headers (codes "{\"Status\":202}") }
    ensures oldest { reply_of_told Aws usual (record_of grown_old) ≡ with_request_id grown_old.id (json_reply 200 [] waited_text) }
    ensures deleted { reply_of_told Aws usual (deleted (id 1)) ≡ empty_reply 204 accepted_headers }
    ensures not_ended { (reply_of_told Aws usual (not_ended (id 1))).headers ≡ not_ended_headers }
    ensures not_ended_in_profile { reply_of_told Profile usual (not_ended (id 1)) ≡ error_reply 409 "NotEnded" "event has not ended" }
    ensures dry_run { reply_of_told Aws usual (described Description.DryRun) ≡ empty_reply 204 [] }
    ensures function { reply_of_told Aws usual (described Description.Function) ≡ json_reply 200 [] function_shown }
    ensures configuration { reply_of_told Aws usual (described Description.Configuration) ≡ json_reply 200 [] configuration_shown }
    ensures telemetry { reply_of_told Aws usual (not_supported Stream.Telemetry) ≡ error_reply 202 "Telemetry.NotSupported" "Telemetry API is not supported" }
    ensures logs { reply_of_told Aws usual (not_supported Stream.Logs) ≡ error_reply 202 "Logs.NotSupported" "Logs API is not supported" }
    ensures to_environment { reply_of_told Aws usual (refused Audience.Environment Refusal.NotFound) ≡ error_reply 404 "NotFound" "no such path or function" }
    ensures identified { with_request_id (id 1) (empty_reply 204 []) ≡ empty_reply 204 accepted_headers }
    ensures identified_before { with_request_id (id 2) (empty_reply 202 accepted_headers) ≡ empty_reply 202 accepted_headers }
{}

/// What the record of an event tells that has ended without an answer.
pub fn unanswered()
    ensures timed_out { ending_told Aws usual timed_out ≡ with_answer timed_out "{\"errorMessage\":\"RequestId: 00000000-0000-4000-8000-000000000001 Process exited before completing request, or Task timed out after 3.00 seconds\"}" }
    ensures tried_then_old { ending_told Aws usual tried_then_old ≡ with_answer tried_then_old "{\"errorMessage\":\"RequestId: 00000000-0000-4000-8000-000000000001 Process exited before completing request, or Task timed out after 3.00 seconds, or the broker ended\"}" }
    ensures never_started { ending_told Aws usual grown_old ≡ with_answer grown_old "{\"errorMessage\":\"RequestId: 00000000-0000-4000-8000-000000000001 Event expired before its first attempt\"}" }
    ensures answered { ending_told Aws usual exhausted ≡ exhausted }
    ensures in_profile { ending_told Profile usual timed_out ≡ timed_out }
{}

/// The replies that refuse a caller in the dialect of AWS.
pub fn refusals_aws()
    ensures mode { refusal_aws Refusal.UnsupportedInvocationType ≡ service_reply 400 "User" "InvalidParameterValueException" "InvocationType must be Event or DryRun" }
    ensures no_json { refusal_aws Refusal.InvalidRequestContent ≡ service_reply 400 "User" "InvalidRequestContentException" "Could not parse request body into json: the payload for my-function is not JSON" }
    ensures not_found { refusal_aws Refusal.NotFound ≡ service_reply 404 "User" "ResourceNotFoundException" "no such path or function: only arn:aws:lambda:us-east-2:123456789012:function:my-function is here" }
    ensures unknown_event { refusal_aws Refusal.UnknownEvent ≡ service_reply 404 "User" "ResourceNotFoundException" "no such event is held" }
    ensures method_not_allowed { refusal_aws Refusal.MethodNotAllowed ≡ service_reply 405 "User" "InvalidParameterValueException" "method not allowed" }
    ensures not_ended { refusal_aws Refusal.NotEnded ≡ service_reply 409 "User" "ResourceConflictException" "event has not ended" }
    ensures too_large { refusal_aws Refusal.TooLarge ≡ service_reply 413 "User" "RequestTooLargeException" "body is too large: a payload for my-function has at most 1024 bytes, any other body 4096" }
    ensures full { reply_of_told Aws usual (table_full 3 1) ≡ service_reply 429 "User" "TooManyRequestsException" "table is full: my-function holds at most 4 events; 3 records wait to be collected at /broker/destinations/success, 1 at /broker/destinations/failure" }
    ensures full_in_profile { reply_of_told Profile usual (table_full 3 1) ≡ error_reply 429 "TooManyEvents" "table is full" }
    ensures id_in_use { refusal_aws Refusal.IdInUse ≡ service_reply 500 "Service" "ServiceException" "drawn id is in use" }
    ensures unavailable { refusal_aws Refusal.Unavailable ≡ service_reply 503 "Service" "ServiceException" "broker is not available" }
{}
